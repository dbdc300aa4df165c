//! How many plans hold a chunk.
ghost use Rattle.std.specs.Prelude.{◌≡◌, ◌<◌, ◌^◌, option_map, IfOk};
ghost use Rattle.page_store.specs.claim.Transactions.{count_of, stored, txn_pages};
ghost use Rattle.desk_store_rows.specs.Values.{holder_count_bytes};
ghost use Rattle.desk_store_rows.specs.claim.Keys.{holder_count};
ghost use Rattle.desk_store_rows.specs.claim.Rows.{row_in};
ghost use Rattle.desk_store_rows.specs.claim.Holders.{holder_count_row};
ghost use Rattle.desk_store_pages.specs.Looking.{Looks};
ghost use Rattle.page_btree.specs.puts.Fingers.{Stand};
ghost use Rattle.chunk_table.specs.Holding.{HasHolderCount, IsCountOf};
ghost use Rattle.chunk_table.specs.Releasing.{Lowers};

use desk_store_pages::{Fingers, TreeError, get_row, get_row_with};
use desk_store_rows::{HolderCount, Key, holder_count_value};
use page_btree::{put, remove};
use page_store::{Pages, Txn};
use sector_device::SectorDevice;

/// How many plans hold a chunk. `NotAStore` comes also where the store counts none by a row.
pub(crate) fn holder_count_of<D: SectorDevice>(
    txn: &Txn,
    pages: &mut Pages<D>,
    number: u64,
) -> Result<u64, TreeError>
    requires begun { txn_pages txn.now ≡ count_of pages.old }
    ensures looks { Looks (λ m count. row_in m (holder_count number) ≡ holder_count_row count) (HasHolderCount number) txn.now pages.old pages.new result }
    ensures fits { IfOk result (λ count. count < 2 ^ 64) }
{
    let found: Option<HolderCount> = get_row(txn, pages, &Key::holder_count(number))?;
    count_in(found)
}

/// The same where the row's leaf may be known by one of two fingers.
pub(crate) fn holder_count_with<D: SectorDevice>(
    txn: &Txn,
    pages: &mut Pages<D>,
    fingers: &Fingers,
    number: u64,
) -> Result<u64, TreeError>
    requires begun { txn_pages txn.now ≡ count_of pages.old }
    ensures looks { Looks (λ m count. Stand txn.now (stored pages.old) fingers.now → row_in m (holder_count number) ≡ holder_count_row count)
        (λ m. HasHolderCount number m × Stand txn.now (stored pages.old) fingers.now) txn.now pages.old pages.new result }
    ensures fits { IfOk result (λ count. count < 2 ^ 64) }
{
    let found: Option<HolderCount> = get_row_with(txn, pages, fingers, &Key::holder_count(number))?;
    count_in(found)
}

/// The count that a chunk's row has, which isn't 0, or 0 where there is no row.
fn count_in(found: Option<HolderCount>) -> Result<u64, TreeError>
    ensures count { IsCountOf (option_map holder_count_bytes found) result }
    ensures fits { IfOk result (λ count. count < 2 ^ 64) }
{
    match found {
        None => Ok(0),
        Some(holder_count) => {
            if holder_count.plans == 0 {
                return Err(TreeError::NotAStore);
            }
            Ok(holder_count.plans)
        }
    }
}

/// Sets a chunk's number of holders, and removes its row at zero.
pub(crate) fn lower<D: SectorDevice>(
    txn: &mut Txn,
    pages: &mut Pages<D>,
    number: u64,
    count: u64,
) -> Result<(), TreeError>
    requires begun { txn_pages txn.old ≡ count_of pages.old }
    ensures { Lowers number count txn.old txn.new pages.old pages.new result }
{
    let key = Key::holder_count(number);
    if count == 0 {
        return match remove(txn, pages, key.as_slice()) {
            Ok(_) => Ok(()),
            Err(error) => Err(error),
        };
    }
    let holder_count = HolderCount { plans: count };
    match put(
        txn,
        pages,
        key.as_slice(),
        &holder_count_value(&holder_count),
    ) {
        Ok(_) => Ok(()),
        Err(error) => Err(error),
    }
}
