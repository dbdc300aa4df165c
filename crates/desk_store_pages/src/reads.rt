//! Reads a row.
ghost use Rattle.std.specs.Prelude.{◌≡◌, ◌≤◌, take, Some, IfOk};
ghost use Rattle.std.specs.FinMap.{get as row_at};
ghost use Rattle.page_store.specs.claim.Transactions.{count_of, txn_pages};
ghost use Rattle.desk_store_pages.specs.Looking.{Looks};
ghost use Rattle.desk_store_pages.specs.Reading.{HasRow};

use desk_store_rows::Key;
use page_btree::{TreeError, VALUE_LIMIT, get};
use page_store::{Pages, Txn};
use sector_device::SectorDevice;

/// Copies the value of an existing row to the start of a buffer and returns its length. It takes no
/// memory. An error is `NotAStore`, also if the row does not exist, `DeviceFault` or `Halted`.
pub fn read_row<D: SectorDevice>(
    txn: &Txn,
    pages: &mut Pages<D>,
    key: &Key,
    into: &mut [u8; VALUE_LIMIT],
) -> Result<usize, TreeError>
    requires begun { txn_pages txn.now ≡ count_of pages.old }
    ensures looks { Looks (λ m length_is. row_at m key.now ≡ Some (take length_is into.new)) (HasRow key.now) txn.now pages.old pages.new result }
    ensures short { IfOk result (λ length_is. length_is ≤ 1024) }
{
    match get(txn, pages, key.as_slice(), into) {
        Ok(Some(length)) => Ok(length),
        Ok(None) => Err(TreeError::NotAStore),
        Err(error) => Err(error),
    }
}
