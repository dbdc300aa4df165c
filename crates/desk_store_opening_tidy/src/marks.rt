//! Rows that say nothing but that they are there.
ghost use Rattle.std.specs.Prelude.{◌≡◌, [], Some};
ghost use Rattle.std.specs.FinMap.{get as row_at};
ghost use Rattle.page_store.specs.claim.Transactions.{count_of, txn_pages};
ghost use Rattle.desk_store_pages.specs.Looking.{Looks};

use desk_store_pages::{TreeError, read_row};
use desk_store_rows::Key;
use page_btree::VALUE_LIMIT;
use page_store::{Pages, Txn};
use sector_device::SectorDevice;

/// Rejects the store if no mark has this key: no row, or one with a value. It takes no memory. An
/// error is `NotAStore` if there is none, `DeviceFault` or `Halted`.
pub fn refuse_unmarked<D: SectorDevice>(
    txn: &Txn,
    pages: &mut Pages<D>,
    key: &Key,
) -> Result<(), TreeError>
    requires begun { txn_pages txn.now ≡ count_of pages.old }
    ensures { Looks (λ m _. row_at m key.now ≡ Some []) (λ m. row_at m key.now ≡ Some []) txn.now pages.old pages.new result }
{
    let mut bytes = [0; VALUE_LIMIT];
    let length = read_row(txn, pages, key, &mut bytes)?;
    if length > 0 {
        return Err(TreeError::NotAStore);
    }
    Ok(())
}
