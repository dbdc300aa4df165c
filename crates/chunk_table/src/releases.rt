//! Plans that let chunks go.
ghost use Rattle.std.specs.Prelude.{◌≡◌};
ghost use Rattle.page_store.specs.claim.Transactions.{count_of, txn_pages};
ghost use Rattle.chunk_table.specs.Releasing.{Releases};

use crate::holder_counts::{holder_count_of, lower};
use desk_store_pages::TreeError;
use desk_store_rows::Key;
use page_btree::remove;
use page_store::{Pages, Txn};
use sector_device::SectorDevice;

/// Ends a plan's holding of a chunk: removes its row and lowers the number of holders by one,
/// removing that row at zero. At most 17 pages are written, and none is taken. After an error the
/// transaction can only be abandoned; `NotAStore` comes also if the store counts no holder of the
/// chunk.
pub fn release<D: SectorDevice>(
    txn: &mut Txn,
    pages: &mut Pages<D>,
    plan: u64,
    number: u64,
) -> Result<(), TreeError>
    requires begun { txn_pages txn.old ≡ count_of pages.old }
    ensures { Releases plan number txn.old txn.new pages.old pages.new result }
{
    let count = holder_count_of(txn, pages, number)?;
    if count == 0 {
        return Err(TreeError::NotAStore);
    }
    let key = Key::holding(plan, number);
    remove(txn, pages, key.as_slice())?;
    lower(txn, pages, number, count - 1)
}
