//! Takes a key out, and gives back the pages that are left without entries.
ghost use Rattle.std.specs.Prelude.{◌≡◌, ◌<◌, ◌+◌, List, length, remove as without, Some, None, IfOk, IfErr};
ghost use Rattle.page_store.specs.claim.Transactions.{count_of, txn_pages, over, free_over};
ghost use Rattle.page_store.specs.Reading.{ReadsOnly};
ghost use Rattle.page_store.specs.Outcomes.{KeepsRoot};
ghost use Rattle.page_btree_gets.specs.node.claim.Entries.{Entry};
ghost use Rattle.page_btree_gets.specs.node.claim.Node.{Node, IsNode};
ghost use Rattle.page_btree_gets.specs.node.claim.Places.{Rises};
ghost use Rattle.page_btree_gets.specs.Keys.{IsKey};
ghost use Rattle.page_btree_gets.specs.Asked.{IsPageOf};
ghost use Rattle.page_btree_gets.specs.Editing.{Frees};
ghost use Rattle.page_btree_removes.specs.Removing.{CanRemove, StaysAt, IsDone, IsPutBack, unlinked, RowRemoves, BackErr, TakenErr, LinkErr, BelowErr};
ghost use Rattle.page_btree_removes.specs.Outcomes.{RemovesKeyAt, RemovesRow, ChangesPage};

use page_btree_gets::{
    NodeBuf, PAGE_SIZE, PageBytes, TreeError, child_for, level_of, read_level, take_row,
};
use page_store::{Pages, Txn};
use sector_device::SectorDevice;

/// What a remove did below a page: the key wasn't there; it was, and the page is still in use; or it was the only one, and the
/// page was given back.
#[derive(Clone, Copy, Drop)]
pub(crate) enum Removed {
    Absent,
    Kept,
    Emptied,
}

/// Removes a key whose leaf may become empty, and returns whether it existed.
pub(crate) fn remove_through<D: SectorDevice>(
    txn: &mut Txn,
    pages: &mut Pages<D>,
    key: &[u8],
) -> Result<bool, TreeError>
    requires begun { txn_pages txn.old ≡ count_of pages.old }
    requires key { IsKey key.now }
    ensures { RemovesRow txn.old txn.new pages.old pages.new key.now result }
{
    let root = txn.root();
    if root == 0 {
        return Ok(false);
    }
    let mut page = [0; PAGE_SIZE];
    txn.read(pages, root, &mut page)?;
    let level = level_of(&page);
    if level > 5 {
        return Err(TreeError::NotAStore);
    }
    match remove_below(txn, pages, root, &mut page, level, key)? {
        Removed::Absent => Ok(false),
        Removed::Kept => Ok(true),
        Removed::Emptied => {
            txn.set_root(0);
            Ok(true)
        }
    }
}

/// Takes a key out below a page, whose bytes were read and which is one of a node of this level.
fn remove_below<D: SectorDevice>(
    txn: &mut Txn,
    pages: &mut Pages<D>,
    p: u32,
    page: &mut PageBytes,
    level: u8,
    key: &[u8],
) -> Result<Removed, TreeError>
    requires { IsPageOf txn.old pages.old p }
    ensures reading { ReadsOnly (BelowErr (λ P. (page.old ≡ over txn.old P p) × CanRemove (txn_pages txn.old) (over txn.old P) (free_over txn.old P) level key.now p) pages.old pages.new) pages.old pages.new result }
    ensures rooted { KeepsRoot txn.old txn.new }
    ensures removed { RemovesKeyAt txn.old txn.new pages.old pages.new level p page.old key.now result }
    ensures stays { IfOk result (λ did. StaysAt txn.old txn.new did) }
    ensures costs { Frees (level + 1) txn.old txn.new result }
{
    if level == 0 {
        return remove_row(txn, p, page, key);
    }
    let child = child_for(page, key)?;
    let mut below = [0; PAGE_SIZE];
    read_level(txn, pages, child, level - 1, &mut below)?;
    match remove_below(txn, pages, child, &mut below, level - 1, key)? {
        Removed::Absent => Ok(Removed::Absent),
        Removed::Kept => Ok(Removed::Kept),
        Removed::Emptied => remove_link(txn, p, page, key),
    }
}

/// Takes a row out of a leaf.
fn remove_row(txn: &mut Txn, p: u32, page: &mut PageBytes, key: &[u8]) -> Result<Removed, TreeError>
    requires below { p < txn_pages txn.old }
    ensures changes { ChangesPage p txn.old txn.new result }
    ensures row { (es : List Entry) → IsNode page.old (record { level = 0; entries = es })
        → Rises es → IfOk result (λ did. RowRemoves txn.old txn.new p key.now es did) }
    ensures stays { IfOk result (λ did. StaysAt txn.old txn.new did) }
    ensures err { IfErr result (λ e. TakenErr txn.old p page.old e) }
{
    match take_row(page, key)? {
        None => Ok(Removed::Absent),
        Some(left) => write_back(txn, p, page, left),
    }
}

/// Takes the link out that a key belongs to.
fn remove_link(
    txn: &mut Txn,
    p: u32,
    page: &mut PageBytes,
    key: &[u8],
) -> Result<Removed, TreeError>
    requires below { p < txn_pages txn.old }
    ensures changes { ChangesPage p txn.old txn.new result }
    ensures link { (node : Node) → IsNode page.old node
        → IfOk result (λ did. IsPutBack txn.old txn.new p (record node { entries = unlinked key.now node.entries }) did) }
    ensures done { IfOk result (λ did. IsDone did) }
    ensures err { IfErr result (λ e. LinkErr txn.old p page.old e) }
{
    let mut node = NodeBuf::EMPTY;
    node.read(page)?;
    if node.is_empty() {
        return Err(TreeError::NotAStore);
    }
    let i = link_of(&node, key);
    node.remove(i);
    node.write(page);
    write_back(txn, p, page, node.len())
}

/// The place of the link that a key belongs to: before the first one whose key is above it. The first key is not looked at.
#[tactic(auto, using(crate::proofs::Edits::unlinked_at))]
fn link_of(node: &NodeBuf, key: &[u8]) -> usize
    requires { 0 < length node.now.entries }
    ensures within { result < length node.now.entries }
    ensures place { without node.now.entries result ≡ unlinked key.now node.now.entries }
{
    for i in 1..node.len() {
        if node.key(i).cmp(key).is_gt() {
            return i - 1;
        }
    }
    node.len() - 1
}

/// Writes the page of a node, or gives it back where no entries are left.
fn write_back(txn: &mut Txn, p: u32, page: &PageBytes, left: usize) -> Result<Removed, TreeError>
    requires below { p < txn_pages txn.old }
    ensures changes { ChangesPage p txn.old txn.new result }
    ensures back { (node : Node) → IsNode page.now node → left ≡ length node.entries → IfOk result (λ did. IsPutBack txn.old txn.new p node did) }
    ensures done { IfOk result (λ did. IsDone did) }
    ensures err { IfErr result (λ e. BackErr txn.old p e) }
{
    if left == 0 {
        txn.give_page(p)?;
        return Ok(Removed::Emptied);
    }
    txn.write(p, page)?;
    Ok(Removed::Kept)
}
