//! Which version the rows of a store are of.
ghost use Rattle.std.specs.Prelude.{◌≡◌};
ghost use Rattle.page_store.specs.claim.Transactions.{count_of, txn_pages};
ghost use Rattle.desk_store_rows.specs.claim.Keys.{version};
ghost use Rattle.desk_store_rows.specs.claim.Rows.{row_in};
ghost use Rattle.desk_store_rows.specs.claim.Tidy.{version_row};
ghost use Rattle.desk_store_opening.specs.Opening.{HasVersion};
ghost use Rattle.desk_store_pages.specs.Looking.{Looks};

use desk_store_opening_tidy::is_version;
use desk_store_pages::TreeError;
use desk_store_rows::Key;
use page_btree::{VALUE_LIMIT, get};
use page_store::{Pages, Txn};
use sector_device::SectorDevice;

/// Returns whether the rows are of the new version, which has a row for it; the old one has none.
/// It takes no memory. An error is `NotAStore` if that row says anything else, `DeviceFault`, or
/// `Halted`.
pub fn is_new<D: SectorDevice>(txn: &Txn, pages: &mut Pages<D>) -> Result<bool, TreeError>
    requires begun { txn_pages txn.now ≡ count_of pages.old }
    ensures { Looks (λ m new. row_in m version ≡ version_row new) HasVersion txn.now pages.old pages.new result }
{
    let key = Key::version();
    let mut bytes = [0; VALUE_LIMIT];
    match get(txn, pages, key.as_slice(), &mut bytes) {
        Ok(None) => Ok(false),
        Ok(Some(length)) => {
            if !is_version(&bytes[..length]) {
                return Err(TreeError::NotAStore);
            }
            Ok(true)
        }
        Err(error) => Err(error),
    }
}
