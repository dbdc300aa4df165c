//! Puts a row.
ghost use Rattle.std.specs.Prelude.{◌≡◌, ◌≤◌, ◌+◌, [], ◌∷◌, length, IfErr};
ghost use Rattle.page_store.specs.claim.Transactions.{count_of, txn_pages, txn_free, IsQuiet};
ghost use Rattle.desk_store_pages.specs.Outcomes.{PutsRows};
ghost use Rattle.desk_store_pages.specs.Rising.{PutsRowsWith};
ghost use Rattle.page_btree.specs.gets.declared.error.TreeError.TheVariants.{NoPages, TooDeep};

use desk_store_rows::Key;
use page_btree::{Fingers, TreeError, put, put_with};
use page_store::{Pages, Txn};
use sector_device::SectorDevice;

/// How many free pages, and how many journal pages, are asked for each row before it is put: more than a put takes.
pub const ROW_PAGES: u32 = 13;

/// Puts a row. A value has at most 1,024 bytes. After an error the transaction can only be abandoned: `NoPages` comes where
/// fewer than six pages were free and none is left, `TooDeep` where the tree has six levels and a node of each was cut,
/// `Memory` from a growth of the transaction, `NotAStore` where what is read is no store's, `DeviceFault` and `Halted` from the device.
pub fn put_row<D: SectorDevice>(
    txn: &mut Txn,
    pages: &mut Pages<D>,
    key: &Key,
    value: &[u8],
) -> Result<(), TreeError>
    requires begun { txn_pages txn.old ≡ count_of pages.old }
    requires value { length value.now ≤ 1024 }
    ensures puts { PutsRows ((key.now, value.now) ∷ []) txn.old txn.new pages.old pages.new result }
    ensures spent { IfErr result (λ e. e ≡ NoPages → txn_free txn.new ≡ 0) }
    ensures deep { IfErr result (λ e. e ≡ TooDeep → txn_free txn.old ≡ txn_free txn.new + 6) }
{
    match put(txn, pages, key.as_slice(), value) {
        Ok(_) => Ok(()),
        Err(error) => Err(error),
    }
}

/// Puts a row as `put_row` does, where its leaf may be known by one of two fingers.
pub fn put_row_with<D: SectorDevice>(
    txn: &mut Txn,
    pages: &mut Pages<D>,
    fingers: &mut Fingers,
    key: &Key,
    value: &[u8],
) -> Result<(), TreeError>
    requires begun { txn_pages txn.old ≡ count_of pages.old }
    requires value { length value.now ≤ 1024 }
    ensures quiet { IsQuiet pages.old pages.new }
    ensures begun { txn_pages txn.new ≡ count_of pages.new }
    ensures put { PutsRowsWith fingers.old fingers.new ((key.now, value.now) ∷ []) txn.old txn.new pages.old pages.new result }
    ensures spent { IfErr result (λ e. e ≡ NoPages → txn_free txn.new ≡ 0) }
    ensures deep { IfErr result (λ e. e ≡ TooDeep → txn_free txn.old ≡ txn_free txn.new + 6) }
{
    let bytes = key.as_slice();
    let count = txn.page_count();
    fingers.turn(bytes, count);
    match put_with(txn, pages, &mut fingers.first, bytes, value) {
        Ok(_) => {
            fingers.part();
            Ok(())
        }
        Err(error) => Err(error),
    }
}
