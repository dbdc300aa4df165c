//! Takes turns of a sweep.
ghost use Rattle.std.specs.Prelude.{◌≡◌, ◌<◌, MatchBool};
ghost use Rattle.page_store.specs.claim.Transactions.{count_of, txn_pages};
ghost use Rattle.page_btree.specs.gets.Keys.{IsKey};
ghost use Rattle.plan_revisions_sweeps.specs.Sweeping.{Takes};

use crate::leftovers::{Left, next_leftover};
use btree_scan::Row;
use chunk_table::release;
use desk_store_pages::TreeError;
use desk_store_rows::holders::held_is_counted_by_holders;
use desk_store_rows::upkeep::turns_are_swept;
use page_btree::{KEY_LIMIT, remove};
use page_store::{Pages, Txn};
use sector_device::SectorDevice;

/// How many rows one sweep changes or takes out at most.
pub const ROWS_SWEPT: usize = 16;

/// Whether these bytes can be the key of a row.
fn is_key(bytes: &[u8]) -> bool
    ensures { MatchBool result (IsKey bytes.now) (IsKey bytes.now → ⊥) }
{
    if bytes.is_empty() {
        return false;
    }
    bytes.len() <= KEY_LIMIT
}

/// Makes the next turn if anything is left over: removes a row that nothing needs, or ends a
/// deleted plan's holding of a chunk. Returns the number of rows that it changed or removed; `row`
/// is room for one.
fn sweep_turn<D: SectorDevice>(
    txn: &mut Txn,
    pages: &mut Pages<D>,
    running: Option<u64>,
    row: &mut Row,
) -> Result<usize, TreeError>
    requires begun { txn_pages txn.old ≡ count_of pages.old }
    ensures { Takes 2 (λ count. count ≡ 0) running txn.old txn.new pages.old pages.new result }
{
    turns_are_swept();
    held_is_counted_by_holders();
    let Some(left) = next_leftover(txn, pages, running, row)? else {
        return Ok(0);
    };
    match left {
        Left::Row => {
            let key = row.key.as_slice();
            if !is_key(key) {
                return Err(TreeError::NotAStore);
            }
            remove(txn, pages, key)?;
            Ok(1)
        }
        Left::Holding { plan, number } => {
            release(txn, pages, plan, number)?;
            Ok(2)
        }
    }
}

/// Takes turns until nothing is left over, or too few rows may be changed for one that changes two: how many rows they changed or took
/// out.
pub(crate) fn sweep_rows<D: SectorDevice>(
    txn: &mut Txn,
    pages: &mut Pages<D>,
    running: Option<u64>,
) -> Result<usize, TreeError>
    requires begun { txn_pages txn.old ≡ count_of pages.old }
    ensures { Takes 16 (λ count. count < 15) running txn.old txn.new pages.old pages.new result }
{
    let mut row = Row::empty();
    let mut swept = 0;
    while swept + 2 <= ROWS_SWEPT {
        let count = sweep_turn(txn, pages, running, &mut row)?;
        if count == 0 {
            return Ok(swept);
        }
        swept += count;
    }
    Ok(swept)
}
