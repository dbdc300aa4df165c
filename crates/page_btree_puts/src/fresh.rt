//! Puts one row.
ghost use Rattle.std.specs.Prelude.{◌≡◌};
ghost use Rattle.page_store.specs.claim.Transactions.{count_of, txn_pages};
ghost use Rattle.page_store.specs.Reading.{ReadsOnly};
ghost use Rattle.page_btree_gets.specs.claim.Errors.{PutErr};
ghost use Rattle.page_btree_gets.specs.Asked.{IsRowToPut};
ghost use Rattle.page_btree_puts.specs.Outcomes.{PutsRow, TakesPages};
ghost use Rattle.page_btree_puts.specs.Reach.{IsTall, Rises};

use crate::finger::Finger;
use crate::fitting::put_with;
use page_btree_gets::TreeError;
use page_store::{Pages, Txn};
use sector_device::SectorDevice;

/// Puts a row and returns whether its key existed. A key has 1 to 72 bytes, a value at most 1,024.
/// At most 11 pages are written and 6 taken; none is taken if a value of the same length is
/// replaced. After an error the transaction can only be abandoned: `NoPages` comes if fewer than
/// six pages were free and none is left, `TooDeep` if the tree has six levels and a node of each
/// was cut, `Memory` from a growth of the transaction, `NotAStore` if a page read is not a store's,
/// `DeviceFault` and `Halted` from the device.
pub fn put<D: SectorDevice>(
    txn: &mut Txn,
    pages: &mut Pages<D>,
    key: &[u8],
    value: &[u8],
) -> Result<bool, TreeError>
    requires begun { txn_pages txn.old ≡ count_of pages.old }
    requires row { IsRowToPut key.now value.now }
    ensures reading { ReadsOnly (PutErr txn.old pages.old pages.new) pages.old pages.new result }
    ensures takes { TakesPages txn.old txn.new pages.old pages.new (key.now, value.now) result }
    ensures put { PutsRow txn.old txn.new pages.old pages.new (key.now, value.now) result }
    ensures rises { Rises txn.old txn.new pages.old pages.new result }
    ensures tall { IsTall txn.old pages.old pages.new result }
{
    let mut finger = Finger::none();
    put_with(txn, pages, &mut finger, key, value)
}
