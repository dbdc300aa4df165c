//! Puts a row, where its leaf has room by an edit of the leaf alone.
ghost use Rattle.std.specs.Prelude.{◌≡◌, ◌≤◌, ◌<◌, ◌-◌, List, length, Option, None, OnErr, IfOk, IfSome, IfNone};
ghost use Rattle.sector_device.specs.claim.Disk.{Image};
ghost use Rattle.page_store.specs.claim.Transactions.{count_of, txn_pages, txn_free};
ghost use Rattle.page_store.specs.claim.Transactions.{txn_writes, over};
ghost use Rattle.page_store.specs.Reading.{ReadsOnly};
ghost use Rattle.page_store.specs.Outcomes.{KeepsRoot};
ghost use Rattle.page_btree_gets.specs.node.claim.Entries.{Entry};
ghost use Rattle.page_btree_gets.specs.node.claim.Node.{IsNode};
ghost use Rattle.page_btree_gets.specs.node.claim.Places.{Rises};
ghost use Rattle.page_btree_gets.specs.node.Searching.{IsBelow};
ghost use Rattle.page_btree_gets.specs.Errors.{IsNoWant};
ghost use Rattle.page_btree_gets.specs.Editing.{IsAlike, WritesOne};
ghost use Rattle.page_btree_puts.specs.Fitting.{IsLeafPut, PutsAtLeaf};
ghost use Rattle.page_btree_puts.specs.Fingers.{PutsRowBy, PutsFittingRow, PutByErr};
ghost use Rattle.page_btree_puts.specs.Outcomes.{TakesPages};
ghost use Rattle.page_btree_puts.specs.Reach.{RisesBy, IsTall, StaysInReach};
ghost use Rattle.page_btree_gets.specs.Asked.{IsPageOf, IsRowToPut};

use crate::finger::{Finger, reach_leaf};
use crate::puts::put_cutting;
use page_btree_gets::{NotANode, PAGE_SIZE, RowNear, RowPut, TreeError, put_row, read_level};
use page_store::{Pages, Txn};
use sector_device::SectorDevice;

/// Puts a row and returns whether its key existed. If the finger knows the leaf, the search begins
/// there; afterwards the finger is at the row, or knows no leaf if nodes were cut. A key has 1 to
/// 72 bytes, a value at most 1,024. At most 11 pages are written and 6 taken, and none is given
/// back; none is taken if a value of the same length is replaced. After an error the transaction
/// can only be abandoned: `NoPages` comes if fewer than six pages were free and none is left,
/// `TooDeep` if the tree has six levels and a node of each was cut, `Memory` from a growth of the
/// transaction, `NotAStore` if a page read is not a store's, `DeviceFault` and `Halted` from the
/// device.
pub fn put_with<D: SectorDevice>(
    txn: &mut Txn,
    pages: &mut Pages<D>,
    finger: &mut Finger,
    key: &[u8],
    value: &[u8],
) -> Result<bool, TreeError>
    requires begun { txn_pages txn.old ≡ count_of pages.old }
    requires row { IsRowToPut key.now value.now }
    ensures reading { ReadsOnly (PutByErr finger.old txn.old pages.old pages.new) pages.old pages.new result }
    ensures takes { TakesPages txn.old txn.new pages.old pages.new (key.now, value.now) result }
    ensures put { PutsRowBy finger.old finger.new txn.old txn.new pages.old pages.new (key.now, value.now) result }
    ensures rises { RisesBy finger.old txn.old txn.new pages.old pages.new result }
    ensures tall { IsTall txn.old pages.old pages.new result }
{
    match put_fitting(txn, pages, finger, key, value)? {
        Some(had) => Ok(had),
        None => {
            finger.page = 0;
            put_cutting(txn, pages, key, value)
        }
    }
}

/// Puts a row if its leaf has room, and returns whether its key existed. Otherwise the transaction
/// stays as it is.
fn put_fitting<D: SectorDevice>(
    txn: &mut Txn,
    pages: &mut Pages<D>,
    finger: &mut Finger,
    key: &[u8],
    value: &[u8],
) -> Result<Option<bool>, TreeError>
    requires begun { txn_pages txn.old ≡ count_of pages.old }
    requires key { length key.now ≤ 72 }
    requires value { length value.now ≤ 1024 }
    ensures reading { ReadsOnly (λ e. PutByErr finger.old txn.old pages.old pages.new e × IsNoWant e) pages.old pages.new result }
    ensures pages { txn_pages txn.new ≡ txn_pages txn.old }
    ensures put { PutsFittingRow finger.old finger.new txn.old txn.new pages.old pages.new (key.now, value.now) result }
    ensures reach { StaysInReach finger.old txn.old txn.new pages.old pages.new result }
    ensures kept { IfOk result (λ did. did ≡ None → IsAlike txn.old txn.new) }
    ensures costs { WritesOne txn.old txn.new result }
{
    let root = txn.root();
    if root == 0 {
        return Ok(None);
    }
    reach_leaf(txn, pages, finger, root, key)?;
    match put_leaf(txn, pages, finger.page, finger.near, key, value)? {
        None => Ok(None),
        Some(put) => {
            finger.low.set(key);
            finger.near = put.near;
            Ok(Some(put.had))
        }
    }
}

/// Puts a row into the leaf at a page where it has room: in its place where the transaction writes the page.
fn put_leaf<D: SectorDevice>(
    txn: &mut Txn,
    pages: &mut Pages<D>,
    page: u32,
    from: RowNear,
    key: &[u8],
    value: &[u8],
) -> Result<Option<RowPut>, TreeError>
    requires place { IsPageOf txn.old pages.old page }
    requires key { length key.now ≤ 72 }
    requires value { length value.now ≤ 1024 }
    ensures { PutsAtLeaf page from txn.old txn.new pages.old pages.new key.now value.now result }
{
    let Some(told) = edit_leaf(txn, page, from, key, value) else {
        return put_unwritten(txn, pages, page, from, key, value);
    };
    let did = told?;
    Ok(did)
}

/// Puts a row into the leaf at a page in its place, if the transaction writes the page.
fn edit_leaf(
    txn: &mut Txn,
    page: u32,
    from: RowNear,
    key: &[u8],
    value: &[u8],
) -> Option<Result<Option<RowPut>, NotANode>>
    requires key { length key.now ≤ 72 }
    requires value { length value.now ≤ 1024 }
    ensures rooted { KeepsRoot txn.old txn.new }
    ensures free { txn_free txn.new ≡ txn_free txn.old }
    ensures writes { txn_writes txn.new ≡ txn_writes txn.old }
    ensures none { IfNone result (txn.new ≡ txn.old) }
    ensures put { IfSome result (λ told. IfOk told
        (λ did. IfSome did (λ put. (S : Image) → IsLeafPut txn.old txn.new S page from key.now value.now put))) }
    ensures kept { IfSome result (λ told. IfOk told (λ did. did ≡ None → IsAlike txn.old txn.new)) }
    ensures err { IfSome result (λ told. OnErr told ((S : Image) (es : List Entry)
        → IsNode (over txn.old S page) (record { level = 0; entries = es }) → Rises es → IsBelow key.now es from.k from.at → ⊥)) }
{
    txn.edit(page, |held| put_row(held, from, key, value))
}

/// Puts a row into the leaf at a page that the transaction doesn't write, where it has room.
fn put_unwritten<D: SectorDevice>(
    txn: &mut Txn,
    pages: &mut Pages<D>,
    page: u32,
    from: RowNear,
    key: &[u8],
    value: &[u8],
) -> Result<Option<RowPut>, TreeError>
    requires place { IsPageOf txn.old pages.old page }
    requires key { length key.now ≤ 72 }
    requires value { length value.now ≤ 1024 }
    ensures { PutsAtLeaf page from txn.old txn.new pages.old pages.new key.now value.now result }
{
    let mut bytes = [0; PAGE_SIZE];
    read_level(txn, pages, page, 0, &mut bytes)?;
    match put_row(&mut bytes, from, key, value)? {
        None => Ok(None),
        Some(put) => {
            txn.write(page, &bytes)?;
            Ok(Some(put))
        }
    }
}
