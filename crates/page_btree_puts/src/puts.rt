//! Puts a row through nodes that are read, and cut where they overflow.
ghost use Rattle.std.specs.Prelude.{◌≡◌, ◌≤◌, ◌<◌, ◌+◌, length, OnOk, IfOk, IfErr, IfSome};
ghost use Rattle.page_store.specs.claim.Transactions.{count_of, txn_pages, txn_free, over, free_over};
ghost use Rattle.page_store.specs.Reading.{ReadsOnly};
ghost use Rattle.page_btree_gets.specs.claim.Errors.{PutErr};
ghost use Rattle.page_btree_puts.specs.Errors.{PlaceErr, WriteErr, RowErr, LinkErr, GrowErr};
ghost use Rattle.page_btree_puts.specs.Putting.{CanPutSome, linked, AreFew};
ghost use Rattle.page_btree_puts.specs.Outcomes.{PutsRow, PutsFirstRow, PutsRowAt, PutsRowInLeaf, PutsLink, TakesPages, StaysRooted};
ghost use Rattle.page_btree_puts.specs.Outcomes.{MakesRoot, TakesNoPageAt, IsNotCut};
ghost use Rattle.page_btree_puts.specs.Reach.{CutsWide, WidensAt, Rises, IsTall};
ghost use Rattle.sector_device.specs.claim.Disk.{Image};
ghost use Rattle.page_store.specs.claim.Transactions.{txn_root};
ghost use Rattle.page_btree_gets.specs.claim.Errors.{level_in};
ghost use Rattle.page_btree_gets.specs.declared.error.TreeError.TheVariants.{NoPages, TooDeep};
ghost use Rattle.page_btree_gets.specs.Asked.{IsPageOf, IsRowToPut};
ghost use Rattle.page_btree_gets.specs.Editing.{SpendsOne};

use crate::tree::{Workspace, place_after, settle, step_down, write_node};
use page_btree_gets::{NodeBuf, PAGE_SIZE, TreeError, level_of};
use page_store::{Pages, Txn};
use sector_device::SectorDevice;

/// What a put into a tree at a page did: whether the key was there, and the page of the upper half where the node was cut.
#[derive(Clone, Copy, Drop)]
struct Placed {
    had: bool,
    right: Option<u32>,
}

/// Puts a row, cutting nodes if necessary, and returns whether its key existed.
pub(crate) fn put_cutting<D: SectorDevice>(
    txn: &mut Txn,
    pages: &mut Pages<D>,
    key: &[u8],
    value: &[u8],
) -> Result<bool, TreeError>
    requires begun { txn_pages txn.old ≡ count_of pages.old }
    requires row { IsRowToPut key.now value.now }
    ensures reading { ReadsOnly (PutErr txn.old pages.old pages.new) pages.old pages.new result }
    ensures takes { TakesPages txn.old txn.new pages.old pages.new (key.now, value.now) result }
    ensures put { PutsRow txn.old txn.new pages.old pages.new (key.now, value.now) result }
    ensures rises { Rises txn.old txn.new pages.old pages.new result }
    ensures tall { IsTall txn.old pages.old pages.new result }
{
    let mut room = Workspace {
        page: [0; PAGE_SIZE],
        node: NodeBuf::EMPTY,
        upper: NodeBuf::EMPTY,
    };
    let root = txn.root();
    if root == 0 {
        put_first(txn, pages, &mut room, key, value)?;
        return Ok(false);
    }
    txn.read(pages, root, &mut room.page)?;
    let level = level_of(&room.page);
    if level > 5 {
        return Err(TreeError::NotAStore);
    }
    let placed = put_at(txn, pages, &mut room, root, level, key, value)?;
    match placed.right {
        None => Ok(placed.had),
        Some(right) => {
            grow(txn, pages, &mut room, root, right, level)?;
            Ok(placed.had)
        }
    }
}

/// Puts the first row of a map without rows.
fn put_first<D: SectorDevice>(
    txn: &mut Txn,
    pages: &mut Pages<D>,
    room: &mut Workspace,
    key: &[u8],
    value: &[u8],
) -> Result<(), TreeError>
    requires begun { txn_pages txn.old ≡ count_of pages.old }
    requires row { IsRowToPut key.now value.now }
    ensures reading { ReadsOnly (WriteErr txn.old pages.old pages.new) pages.old pages.new result }
    ensures pages { txn_pages txn.new ≡ txn_pages txn.old }
    ensures put { PutsFirstRow txn.old txn.new pages.old pages.new (key.now, value.now) result }
    ensures costs { SpendsOne txn.old txn.new result }
    ensures spent { IfErr result (λ e. e ≡ NoPages → txn_free txn.new ≡ 0) }
    ensures leaf { OnOk result ((S : Image) → level_in (over txn.new S) (txn_root txn.new) ≡ 0) }
{
    let page = txn.take_page(pages)?;
    room.node.clear(0);
    room.node.insert(0, key, value);
    write_node(txn, &mut room.page, page, &room.node)?;
    txn.set_root(page);
    Ok(())
}

/// Makes a root above one that was cut.
fn grow<D: SectorDevice>(
    txn: &mut Txn,
    pages: &mut Pages<D>,
    room: &mut Workspace,
    root: u32,
    right: u32,
    level: u8,
) -> Result<(), TreeError>
    requires begun { txn_pages txn.old ≡ count_of pages.old }
    requires level { level ≤ 5 }
    requires upper { 0 < length room.old.upper.entries }
    ensures reading { ReadsOnly (GrowErr level txn.old pages.old pages.new) pages.old pages.new result }
    ensures pages { txn_pages txn.new ≡ txn_pages txn.old }
    ensures grown { MakesRoot txn.old txn.new pages.old pages.new root right level room.old.upper result }
    ensures costs { SpendsOne txn.old txn.new result }
    ensures few { OnOk result (level ≤ 4) }
    ensures spent { IfErr result (λ e. e ≡ NoPages → txn_free txn.new ≡ 0) }
    ensures deep { IfErr result (λ e. e ≡ TooDeep → txn_free txn.new ≡ txn_free txn.old) }
{
    if level == 5 {
        return Err(TreeError::TooDeep);
    }
    let top = txn.take_page(pages)?;
    room.node.clear(level + 1);
    room.node.insert(0, &[], &root.to_be_bytes());
    room.node.insert(1, room.upper.key(0), &right.to_be_bytes());
    write_node(txn, &mut room.page, top, &room.node)?;
    txn.set_root(top);
    Ok(())
}

/// Puts a row into the tree at a page, which is in the room.
fn put_at<D: SectorDevice>(
    txn: &mut Txn,
    pages: &mut Pages<D>,
    room: &mut Workspace,
    page: u32,
    level: u8,
    key: &[u8],
    value: &[u8],
) -> Result<Placed, TreeError>
    requires place { IsPageOf txn.old pages.old page }
    requires level { level ≤ 5 }
    requires row { IsRowToPut key.now value.now }
    ensures reading { ReadsOnly (PlaceErr level (CanPutSome (txn_pages txn.old) (over txn.old) level (free_over txn.old) page room.old.page key.now) txn.old pages.old pages.new) pages.old pages.new result }
    ensures stays { StaysRooted txn.old txn.new result }
    ensures put { PutsRowAt txn.old txn.new pages.old pages.new level page room.old.page (key.now, value.now) room.new.upper result }
    ensures fixed { TakesNoPageAt txn.old txn.new pages.old pages.new level page room.old.page (key.now, value.now) result }
    ensures wide { WidensAt txn.old txn.new pages.old pages.new level page room.old.page key.now result }
    ensures few { IfOk result (λ placed. AreFew level txn.old txn.new placed.right) }
    ensures some { IfOk result (λ placed. IfSome placed.right (λ right. (right < txn_pages txn.old) × (0 < length room.new.upper.entries))) }
{
    if level == 0 {
        return put_row(txn, pages, room, page, key, value);
    }
    let child = step_down(txn, pages, &mut room.page, page, level, key)?;
    let below = put_at(txn, pages, room, child, level - 1, key, value)?;
    match below.right {
        None => Ok(below),
        Some(right) => {
            let cut = link(txn, pages, room, page, key, right)?;
            Ok(Placed {
                had: below.had,
                right: cut,
            })
        }
    }
}

/// Puts a row into the leaf in the room.
fn put_row<D: SectorDevice>(
    txn: &mut Txn,
    pages: &mut Pages<D>,
    room: &mut Workspace,
    page: u32,
    key: &[u8],
    value: &[u8],
) -> Result<Placed, TreeError>
    requires place { IsPageOf txn.old pages.old page }
    requires row { IsRowToPut key.now value.now }
    ensures reading { ReadsOnly (RowErr room.old.page txn.old pages.old pages.new) pages.old pages.new result }
    ensures stays { StaysRooted txn.old txn.new result }
    ensures put { PutsRowInLeaf txn.old txn.new pages.old pages.new page room.old.page (key.now, value.now) room.new.upper result }
    ensures fixed { IsNotCut room.old.page (key.now, value.now) result }
    ensures few { IfOk result (λ placed. AreFew 0 txn.old txn.new placed.right) }
    ensures some { IfOk result (λ placed. IfSome placed.right (λ right. (right < txn_pages txn.old) × (0 < length room.new.upper.entries))) }
{
    room.node.read(&room.page)?;
    if room.node.level() != 0 {
        return Err(TreeError::NotAStore);
    }
    match room.node.find(key) {
        Ok(i) => {
            room.node.replace(i, value);
            let right = settle(txn, pages, room, page, i)?;
            Ok(Placed { had: true, right })
        }
        Err(i) => {
            room.node.insert(i, key, value);
            let right = settle(txn, pages, room, page, i)?;
            Ok(Placed { had: false, right })
        }
    }
}

/// Inserts the link to the upper half of a child after the child's own link. Returns the page of
/// the node's upper half if the node was cut, too.
fn link<D: SectorDevice>(
    txn: &mut Txn,
    pages: &mut Pages<D>,
    room: &mut Workspace,
    page: u32,
    key: &[u8],
    right: u32,
) -> Result<Option<u32>, TreeError>
    requires place { IsPageOf txn.old pages.old page }
    requires upper { 0 < length room.old.upper.entries }
    ensures reading { ReadsOnly (LinkErr page txn.old pages.old pages.new) pages.old pages.new result }
    ensures stays { StaysRooted txn.old txn.new result }
    ensures linked { PutsLink txn.old txn.new pages.old pages.new page key.now right room.old.upper room.new.upper result }
    ensures wide { CutsWide txn.old pages.old pages.new page result }
    ensures few { IfOk result (λ cut. AreFew 0 txn.old txn.new cut) }
    ensures some { IfOk result (λ cut. IfSome cut (λ q. (q < txn_pages txn.old) × (0 < length room.new.upper.entries))) }
{
    txn.read(pages, page, &mut room.page)?;
    room.node.read(&room.page)?;
    if room.node.is_empty() {
        return Err(TreeError::NotAStore);
    }
    let place = place_after(&room.node, key);
    room.node
        .insert(place, room.upper.key(0), &right.to_be_bytes());
    settle(txn, pages, room, page, place)
}
