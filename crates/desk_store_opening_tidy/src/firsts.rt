//! The first row from a key on.
ghost use Rattle.std.specs.Prelude.{◌≡◌, ◌≤◌, true, length, nat_eq};
ghost use Rattle.std.specs.List.{starts_with};
ghost use Rattle.page_store.specs.claim.Transactions.{count_of, txn_pages};
ghost use Rattle.desk_store_opening_tidy.specs.Rows.{IsFirst, NoneFrom};
ghost use Rattle.desk_store_pages.specs.Looking.{Looks};

use btree_scan::{Row, RowScan};
use desk_store_pages::TreeError;
use desk_store_rows::Key;
use page_store::{Pages, Txn};
use sector_device::SectorDevice;

/// Copies the first row whose key isn't below this one: whether there is one. It takes no memory. An error is `NotAStore`,
/// `DeviceFault` or `Halted`.
pub fn first_from<D: SectorDevice>(
    txn: &Txn,
    pages: &mut Pages<D>,
    key: &[u8],
    row: &mut Row,
) -> Result<bool, TreeError>
    requires begun { txn_pages txn.now ≡ count_of pages.old }
    requires short { length key.now ≤ 1024 }
    ensures { Looks (λ m found. IsFirst found key.now row.new m) (λ m. Unit {0}) txn.now pages.old pages.new result }
{
    let mut scan = RowScan::from_key(key);
    let found = scan.next(txn, pages, row);
    match scan.fault() {
        Some(fault) => Err(fault),
        None => Ok(found),
    }
}

/// Refuses where a row from a key on has a key that begins with a prefix. It takes no memory. An error is `NotAStore`, where
/// there is such a row, `DeviceFault` or `Halted`.
pub fn refuse_from<D: SectorDevice>(
    txn: &Txn,
    pages: &mut Pages<D>,
    key: &Key,
    prefix: &[u8],
) -> Result<(), TreeError>
    requires begun { txn_pages txn.now ≡ count_of pages.old }
    requires under { starts_with nat_eq key.now prefix.now ≡ true }
    ensures { Looks (λ m _. NoneFrom key.now prefix.now m) (NoneFrom key.now prefix.now) txn.now pages.old pages.new result }
{
    let mut row = Row::empty();
    let found = first_from(txn, pages, key.as_slice(), &mut row)?;
    if !found {
        return Ok(());
    }
    if row.key.as_slice().starts_with(prefix) {
        return Err(TreeError::NotAStore);
    }
    Ok(())
}
