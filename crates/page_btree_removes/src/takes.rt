//! Takes a key out, where its leaf keeps other rows by an edit of the leaf alone.
ghost use Rattle.std.specs.Prelude.{◌≡◌, ◌<◌, List, Option, Some, None, true, OnErr, IfOk, IfSome, IfNone};
ghost use Rattle.sector_device.specs.claim.Disk.{Image};
ghost use Rattle.page_store.specs.claim.Transactions.{count_of, txn_pages, txn_free};
ghost use Rattle.page_store.specs.claim.Transactions.{txn_writes, over};
ghost use Rattle.page_store.specs.Reading.{ReadsOnly};
ghost use Rattle.page_store.specs.Outcomes.{KeepsRoot};
ghost use Rattle.page_btree_gets.specs.node.claim.Entries.{Entry};
ghost use Rattle.page_btree_gets.specs.node.claim.Node.{IsNode};
ghost use Rattle.page_btree_gets.specs.node.claim.Places.{Rises};
ghost use Rattle.page_btree_gets.specs.Keys.{IsKey};
ghost use Rattle.page_btree_gets.specs.claim.Errors.{RemoveErr};
ghost use Rattle.page_btree_gets.specs.Editing.{IsAlike, WritesOne};
ghost use Rattle.page_btree_gets.specs.Asked.{IsPageOf};
ghost use Rattle.page_btree_removes.specs.Sparing.{IsLeafTaken};
ghost use Rattle.page_btree_removes.specs.Outcomes.{RemovesSpareKey, RemovesRow, TakesAtLeaf};

use crate::removes::remove_through;
use page_btree_gets::{
    NotANode, PAGE_SIZE, Reach, TreeError, find_leaf, read_level, take_spare_row,
};
use page_store::{Pages, Txn};
use sector_device::SectorDevice;

/// Removes a key and returns whether it existed. At most 6 pages are written, including those given
/// back, at most 6 are given back, and none is taken. After an error the transaction can only be
/// abandoned: `Memory` comes from a growth of the transaction, `NotAStore` if a page read is not a
/// store's, `DeviceFault` and `Halted` from the device.
pub fn remove<D: SectorDevice>(
    txn: &mut Txn,
    pages: &mut Pages<D>,
    key: &[u8],
) -> Result<bool, TreeError>
    requires begun { txn_pages txn.old ≡ count_of pages.old }
    requires key { IsKey key.now }
    ensures { RemovesRow txn.old txn.new pages.old pages.new key.now result }
{
    match take_spare(txn, pages, key)? {
        Some(had) => Ok(had),
        None => remove_through(txn, pages, key),
    }
}

/// Removes a key if its leaf keeps other rows, and returns whether it existed. Otherwise the
/// transaction stays as it is.
fn take_spare<D: SectorDevice>(
    txn: &mut Txn,
    pages: &mut Pages<D>,
    key: &[u8],
) -> Result<Option<bool>, TreeError>
    requires begun { txn_pages txn.old ≡ count_of pages.old }
    ensures reading { ReadsOnly (RemoveErr txn.old pages.old pages.new) pages.old pages.new result }
    ensures pages { txn_pages txn.new ≡ txn_pages txn.old }
    ensures remove { RemovesSpareKey txn.old txn.new pages.old pages.new key.now result }
    ensures kept { IfOk result (λ did. did ≡ None → IsAlike txn.old txn.new) }
    ensures costs { WritesOne txn.old txn.new result }
{
    let root = txn.root();
    if root == 0 {
        return Ok(None);
    }
    let mut reach = Reach::open();
    let leaf = find_leaf(txn, pages, root, key, &mut reach)?;
    take_leaf(txn, pages, leaf, key)
}

/// Takes a row out of the leaf at a page that has others: in its place where the transaction writes the page.
fn take_leaf<D: SectorDevice>(
    txn: &mut Txn,
    pages: &mut Pages<D>,
    page: u32,
    key: &[u8],
) -> Result<Option<bool>, TreeError>
    requires { IsPageOf txn.old pages.old page }
    ensures { TakesAtLeaf page txn.old txn.new pages.old pages.new key.now result }
{
    match take_in_place(txn, page, key) {
        Some(Ok(did)) => Ok(did),
        Some(Err(_)) => Err(TreeError::NotAStore),
        None => take_unwritten(txn, pages, page, key),
    }
}

/// Takes a row out of the leaf at a page in its place, if the transaction writes the page.
fn take_in_place(txn: &mut Txn, page: u32, key: &[u8]) -> Option<Result<Option<bool>, NotANode>>
    ensures rooted { KeepsRoot txn.old txn.new }
    ensures free { txn_free txn.new ≡ txn_free txn.old }
    ensures writes { txn_writes txn.new ≡ txn_writes txn.old }
    ensures none { IfNone result (txn.new ≡ txn.old) }
    ensures taken { IfSome result (λ told. IfOk told (λ did. IfSome did (λ had. (S : Image) → IsLeafTaken txn.old txn.new S page key.now had))) }
    ensures kept { IfSome result (λ told. IfOk told (λ did. (did ≡ Some true → ⊥) → IsAlike txn.old txn.new)) }
    ensures err { IfSome result (λ told. OnErr told ((S : Image) (es : List Entry)
        → IsNode (over txn.old S page) (record { level = 0; entries = es }) → Rises es → ⊥)) }
{
    txn.edit(page, |held| take_spare_row(held, key))
}

/// Takes a row out of the leaf at a page that has others and that the transaction doesn't write.
fn take_unwritten<D: SectorDevice>(
    txn: &mut Txn,
    pages: &mut Pages<D>,
    page: u32,
    key: &[u8],
) -> Result<Option<bool>, TreeError>
    requires { IsPageOf txn.old pages.old page }
    ensures { TakesAtLeaf page txn.old txn.new pages.old pages.new key.now result }
{
    let mut bytes = [0; PAGE_SIZE];
    read_level(txn, pages, page, 0, &mut bytes)?;
    match take_spare_row(&mut bytes, key)? {
        None => Ok(None),
        Some(false) => Ok(Some(false)),
        Some(true) => {
            txn.write(page, &bytes)?;
            Ok(Some(true))
        }
    }
}
