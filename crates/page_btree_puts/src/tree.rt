//! Nodes of a tree, written and cut.
ghost use Rattle.std.specs.Prelude.{◌≡◌, ◌≤◌, ◌<◌, ◌+◌, ◌^◌, ℕ, [], ◌∷◌, length, insert, option_map};
ghost use Rattle.std.specs.Prelude.{Option, Some, None, OnOk, IfOk, IfErr, IfSome, MatchResult};
ghost use Rattle.sector_device.specs.claim.Disk.{Image};
ghost use Rattle.page_btree_gets.specs.gate_journal.claim.Store.{put as put_page};
ghost use Rattle.page_store.specs.claim.Chain.{IsIn, AreFree};
ghost use Rattle.page_store.specs.claim.Transactions.{stored, disk_in, count_of, txn_pages, txn_free};
ghost use Rattle.page_store.specs.claim.Transactions.{txn_writes, over, free_over};
ghost use Rattle.page_store.specs.Reading.{ReadsOnly};
ghost use Rattle.page_btree_gets.specs.node.claim.Entries.{Entry, size_of};
ghost use Rattle.page_btree_gets.specs.node.Entries.{child_in};
ghost use Rattle.page_btree_gets.specs.node.Places.{floor};
ghost use Rattle.page_btree_gets.specs.node.claim.Node.{Node, IsNode, Fits};
ghost use Rattle.page_btree_puts.specs.Putting.{linked, AreFew, CanPutSome};
ghost use Rattle.page_btree_puts.specs.Errors.{WriteErr, StepErr};
ghost use Rattle.page_btree_puts.specs.Outcomes.{WritesNode, CutsNode, StaysRooted};
ghost use Rattle.page_btree_gets.specs.declared.error.TreeError.TheVariants.{Memory};
ghost use Rattle.page_btree_gets.specs.Asked.{IsPageOf};
ghost use Rattle.page_store.specs.Outcomes.{KeepsRoot};

use page_btree_gets::{NodeBuf, PageBytes, TreeError, child_for, level_of};
use page_store::{Pages, Txn};
use sector_device::SectorDevice;

/// The workspace of a put: the bytes of a page, the node in them, and the upper half of a node that
/// was cut.
#[derive(Drop)]
pub(crate) struct Workspace {
    pub(crate) page: PageBytes,
    pub(crate) node: NodeBuf,
    pub(crate) upper: NodeBuf,
}

/// Writes a node.
pub(crate) fn write_node(
    txn: &mut Txn,
    bytes: &mut PageBytes,
    page: u32,
    node: &NodeBuf,
) -> Result<(), TreeError>
    requires page { page < txn_pages txn.old }
    requires fits { Fits node.now }
    ensures rooted { KeepsRoot txn.old txn.new }
    ensures count { txn_free txn.new ≡ txn_free txn.old }
    ensures node { IsNode bytes.new node.now }
    ensures written { OnOk result ((P : Image) (q : ℕ) → over txn.new P q ≡ put_page (page, bytes.new) (over txn.old P) q) }
    ensures free { OnOk result ((P : Image) (n : ℕ) → AreFree n (free_over txn.old P) → (IsIn page (free_over txn.old P) → ⊥)
        → free_over txn.new P ≡ free_over txn.old P) }
    ensures more { OnOk result (txn_writes txn.new ≤ txn_writes txn.old + 1) }
    ensures err { IfErr result (λ e. e ≡ Memory) }
{
    node.write(bytes);
    txn.write(page, bytes)?;
    Ok(())
}

/// Returns the place of a link that is inserted after the child of a key.
pub(crate) fn place_after(node: &NodeBuf, key: &[u8]) -> usize
    requires { 0 < length node.now.entries }
    ensures within { result ≤ length node.now.entries }
    ensures place { (new : Entry) → insert node.now.entries result new ≡ linked key.now (new ∷ []) node.now.entries }
{
    for i in 1..node.len() {
        if node.key(i).cmp(key).is_gt() {
            return i;
        }
    }
    node.len()
}

/// Writes the node in the workspace. If it overflows, it is cut and its upper half goes to a free
/// page.
pub(crate) fn settle<D: SectorDevice>(
    txn: &mut Txn,
    pages: &mut Pages<D>,
    room: &mut Workspace,
    page: u32,
    added: usize,
) -> Result<Option<u32>, TreeError>
    requires { IsPageOf txn.old pages.old page }
    ensures reading { ReadsOnly (WriteErr txn.old pages.old pages.new) pages.old pages.new result }
    ensures stays { StaysRooted txn.old txn.new result }
    ensures below { IfOk result (λ right. IfSome right (λ q. (q < txn_pages txn.old) × (0 < length room.new.upper.entries))) }
    ensures written { WritesNode txn.old txn.new pages.old pages.new page room.old.node room.new.upper result }
    ensures few { IfOk result (λ right. AreFew 0 txn.old txn.new right) }
    ensures over { IfOk result (λ right. IfSome right (λ q. 4092 < size_of room.old.node.entries)) }
    ensures fits { Fits room.old.node → MatchResult result (λ right. right ≡ None) (λ e. e ≡ Memory) }
{
    if room.node.overflows() {
        let right = cut(txn, pages, room, page, added)?;
        return Ok(Some(right));
    }
    write_node(txn, &mut room.page, page, &room.node)?;
    Ok(None)
}

/// Cuts the node in the room, and writes both halves.
fn cut<D: SectorDevice>(
    txn: &mut Txn,
    pages: &mut Pages<D>,
    room: &mut Workspace,
    page: u32,
    added: usize,
) -> Result<u32, TreeError>
    requires place { IsPageOf txn.old pages.old page }
    requires over { 4092 < size_of room.old.node.entries }
    ensures reading { ReadsOnly (WriteErr txn.old pages.old pages.new) pages.old pages.new result }
    ensures stays { StaysRooted txn.old txn.new result }
    ensures below { IfOk result (λ right. right < txn_pages txn.old) }
    ensures written { CutsNode txn.old txn.new pages.old pages.new page room.old.node room.new.upper result }
    ensures writes { OnOk result (txn_writes txn.new ≤ txn_writes txn.old + 2) }
    ensures taken { OnOk result (txn_free txn.old ≡ txn_free txn.new + 1) }
    ensures some { OnOk result (0 < length room.new.upper.entries) }
{
    let right = txn.take_page(pages)?;
    room.node.split(added, &mut room.upper);
    write_node(txn, &mut room.page, page, &room.node)?;
    write_node(txn, &mut room.page, right, &room.upper)?;
    Ok(right)
}

/// Replaces a node by the child to which a key belongs, and returns the child's page. The node's
/// page and level are given.
pub(crate) fn step_down<D: SectorDevice>(
    txn: &Txn,
    pages: &mut Pages<D>,
    bytes: &mut PageBytes,
    page: u32,
    level: u8,
    key: &[u8],
) -> Result<u32, TreeError>
    requires begun { txn_pages txn.now ≡ count_of pages.old }
    requires level { 0 < level }
    ensures reading { ReadsOnly (StepErr (CanPutSome (txn_pages txn.now) (over txn.now) level (free_over txn.now) page bytes.old key.now) pages.old pages.new) pages.old pages.new result }
    ensures below { IfOk result (λ child. child < txn_pages txn.now) }
    ensures few { IfOk result (λ child. txn_pages txn.now ≤ 2 ^ 32) }
    ensures told { IfOk result (λ child. (node : Node) → IsNode bytes.old node → option_map child_in (floor key.now node.entries) ≡ Some child) }
    ensures reads { (disk_in pages.new).is_honest → IfOk result (λ child. bytes.new ≡ over txn.now (stored pages.old) child) }
{
    let count = txn.page_count();
    let child = child_for(bytes, key)?;
    if child >= count {
        return Err(TreeError::NotAStore);
    }
    txn.read(pages, child, bytes)?;
    if level_of(bytes) != level - 1 {
        return Err(TreeError::NotAStore);
    }
    Ok(child)
}
