//! Finds the leaves from which rows are read one after the other.
ghost use Rattle.std.specs.Prelude.{◌≡◌, ◌<◌, ◌≤◌, ℕ, List, length, true, None, Some, OnOk, OnErr, IfOk, IfErr};
ghost use Rattle.std.proofs.Common.{get_or, []};
ghost use Rattle.std.specs.FinMap.{entries};
ghost use Rattle.page_store.specs.claim.Transactions.{stored, disk_in, count_of, txn_pages, txn_root, over};
ghost use Rattle.page_store.specs.Reading.{ReadsOnly};
ghost use Rattle.page_btree_node.specs.claim.Node.{Node, IsNode};
ghost use Rattle.page_btree_node.specs.claim.Places.{Rises};
ghost use Rattle.page_btree_node.specs.Places.{ceiling, entries_from};
ghost use Rattle.page_btree_node.specs.Searching.{RisesAfter};
ghost use Rattle.page_btree_node.specs.Walking.{IsAhead};
ghost use Rattle.page_btree_gets.specs.claim.Keys.{KeyMap};
ghost use Rattle.page_btree_gets.specs.claim.Map.{InTxn};
ghost use Rattle.page_btree_gets.specs.claim.Errors.{GetErr};
ghost use Rattle.page_btree_gets.specs.Getting.{GetAtErr, IsChild, IsLevel, NoChild, ReadsErr};
ghost use Rattle.page_btree_gets.specs.Seeking.{bound_in, nearer, HasWays, IsFrom};
ghost use Rattle.page_btree_gets.specs.Outcomes.{ReadsLeaf, ReadsLeafAt};
ghost use Rattle.page_btree_gets.specs.declared.error.TreeError.TheVariants.{NotAStore};

use crate::error::TreeError;
use crate::gets::{lend_level, place_of, read_level};
use crate::small_bytes::SmallBytes;
use page_btree_node::{PageBytes, level_of, place_from, way_for, ways_for};
use page_store::{Pages, Txn};
use sector_device::SectorDevice;

/// A leaf that is read, from a place in it on, and the leaves that were read with it.
#[derive(Drop)]
pub struct Leaf {
    /// The offset of the next row in its page.
    pub at: usize,
    /// The number of rows from there on.
    pub left: usize,
    /// How many leaves that follow it were read with it.
    pub more: usize,
    /// Whether other leaves follow these.
    pub bounded: bool,
    /// Where they do, their rows are those from this key on.
    pub bound: SmallBytes,
}

impl Leaf {
    ghost use Rattle.std.specs.Prelude.{◌≡◌, [], false};

    /// No leaf.
    pub fn empty() -> Self
        ensures at { result.at ≡ 0 }
        ensures left { result.left ≡ 0 }
        ensures more { result.more ≡ 0 }
        ensures bounded { result.bounded ≡ false }
        ensures bound { result.bound ≡ [] }
    {
        Leaf {
            at: 0,
            left: 0,
            more: 0,
            bounded: false,
            bound: SmallBytes::empty(),
        }
    }
}

/// Reads the leaf with the first row at or after a key into the first of some pages, and moves to
/// that row. Reads the leaves that follow it under the same node into the other pages, as far as
/// there are such leaves and the keys that bound their rows begin with the prefix. If there is no
/// such row, no row is left and no other leaf is read. It takes no memory. An error is `NotAStore`
/// if a page read is not a store's, `DeviceFault` if the device failed, or `Halted` if it had
/// failed before.
pub fn leaf_from<D: SectorDevice>(
    txn: &Txn,
    pages: &mut Pages<D>,
    key: &[u8],
    prefix: &[u8],
    leaf: &mut Leaf,
    held: &mut [PageBytes; 4],
) -> Result<(), TreeError>
    requires begun { txn_pages txn.now ≡ count_of pages.old }
    ensures reading { ReadsOnly (GetErr txn.now pages.old pages.new) pages.old pages.new result }
    ensures few { OnOk result (leaf.new.more ≤ 3) }
    ensures rows { (disk_in pages.new).is_honest → (m : KeyMap) → InTxn txn.now (stored pages.old) m
        → OnOk result (IsFrom key.now (entries m) leaf.new held.new) }
{
    leaf_for(txn, pages, key, prefix, leaf, held)?;
    if leaf.left > 0 {
        return Ok(());
    }
    if leaf.more > 0 {
        return Ok(());
    }
    if !leaf.bounded {
        return Ok(());
    }
    leaf_after(txn, pages, prefix, leaf, held)?;
    if leaf.left == 0 {
        return Err(TreeError::NotAStore);
    }
    Ok(())
}

/// Reads the leaf at another's bound in its place.
fn leaf_after<D: SectorDevice>(
    txn: &Txn,
    pages: &mut Pages<D>,
    prefix: &[u8],
    leaf: &mut Leaf,
    held: &mut [PageBytes; 4],
) -> Result<(), TreeError>
    requires begun { txn_pages txn.now ≡ count_of pages.old }
    ensures reading { ReadsOnly (GetErr txn.now pages.old pages.new) pages.old pages.new result }
    ensures few { OnOk result (leaf.new.more ≤ 3) }
    ensures read { ReadsLeaf txn.now pages.old pages.new leaf.old.bound leaf.new held.new result }
{
    let mut from = SmallBytes::empty();
    from.set(leaf.bound.as_slice());
    leaf_for(txn, pages, from.as_slice(), prefix, leaf, held)
}

/// Reads the leaf in whose range a key falls, with those that follow it, and moves to its first row
/// at or after the key.
fn leaf_for<D: SectorDevice>(
    txn: &Txn,
    pages: &mut Pages<D>,
    key: &[u8],
    prefix: &[u8],
    leaf: &mut Leaf,
    held: &mut [PageBytes; 4],
) -> Result<(), TreeError>
    requires begun { txn_pages txn.now ≡ count_of pages.old }
    ensures reading { ReadsOnly (GetErr txn.now pages.old pages.new) pages.old pages.new result }
    ensures few { OnOk result (leaf.new.more ≤ 3) }
    ensures bare { txn_root txn.now ≡ 0 → OnOk result ((leaf.new.at ≡ 0) × (leaf.new.left ≡ 0) × (leaf.new.more ≡ 0) × (bound_in leaf.new ≡ None)) }
    ensures read { ReadsLeaf txn.now pages.old pages.new key.now leaf.new held.new result }
{
    leaf.at = 0;
    leaf.left = 0;
    leaf.more = 0;
    leaf.bounded = false;
    let root = txn.root();
    if root == 0 {
        return Ok(());
    }
    let own = txn.lend(pages, root, 0)?;
    let level = level_of(pages.lent(own, 0));
    if level > 5 {
        return Err(TreeError::NotAStore);
    }
    leaf_below(txn, pages, root, 0, level, key, prefix, leaf, held)
}

/// Reads the leaves below a page, which is one of a node of this level and is lent at a place above the leaves.
fn leaf_below<D: SectorDevice>(
    txn: &Txn,
    pages: &mut Pages<D>,
    p: u32,
    place: usize,
    level: u8,
    key: &[u8],
    prefix: &[u8],
    leaf: &mut Leaf,
    held: &mut [PageBytes; 4],
) -> Result<(), TreeError>
    requires begun { txn_pages txn.now ≡ count_of pages.old }
    ensures reading { ReadsOnly (GetAtErr txn.now pages.old pages.new level key.now p) pages.old pages.new result }
    ensures few { OnOk result (leaf.new.more ≤ 3) }
    ensures read { ReadsLeafAt txn.now pages.old pages.new level p key.now leaf.old leaf.new held.new result }
{
    if level == 0 {
        read_level(txn, pages, p, 0, &mut held[0])?;
        leaf.more = 0;
        return stand(leaf, &held[0], key);
    }
    if level == 1 {
        return leaves_below(txn, pages, p, place, key, prefix, leaf, held);
    }
    let own = lend_level(txn, pages, p, level, place)?;
    let bytes = pages.lent(own, place);
    let child = go_down(leaf, bytes, key)?;
    let place = place_of(level - 1, child);
    leaf_below(txn, pages, child, place, level - 1, key, prefix, leaf, held)
}

/// Reads the leaves below a page of a node just above them.
fn leaves_below<D: SectorDevice>(
    txn: &Txn,
    pages: &mut Pages<D>,
    p: u32,
    place: usize,
    key: &[u8],
    prefix: &[u8],
    leaf: &mut Leaf,
    held: &mut [PageBytes; 4],
) -> Result<(), TreeError>
    requires begun { txn_pages txn.now ≡ count_of pages.old }
    ensures reading { ReadsOnly (GetAtErr txn.now pages.old pages.new 1 key.now p) pages.old pages.new result }
    ensures few { OnOk result (leaf.new.more ≤ 3) }
    ensures read { ReadsLeafAt txn.now pages.old pages.new 1 p key.now leaf.old leaf.new held.new result }
{
    let own = lend_level(txn, pages, p, 1, place)?;
    let bytes = pages.lent(own, place);
    let mut children = [0; 4];
    ways_in(leaf, bytes, key, prefix, &mut children)?;
    read_leaves(txn, pages, &children, leaf.more, held)?;
    stand(leaf, &held[0], key)
}

/// Reads the pages of a leaf and of the next ones.
fn read_leaves<D: SectorDevice>(
    txn: &Txn,
    pages: &mut Pages<D>,
    children: &[u32; 4],
    more: usize,
    held: &mut [PageBytes; 4],
) -> Result<(), TreeError>
    requires begun { txn_pages txn.now ≡ count_of pages.old }
    requires few { more ≤ 3 }
    ensures reading { ReadsOnly (ReadsErr (λ P. (j : ℕ) → j ≤ more → IsLevel (txn_pages txn.now) (over txn.now P) 0 (get_or children.now j 0)) pages.old pages.new) pages.old pages.new result }
    ensures reads { (disk_in pages.new).is_honest → OnOk result ((j : ℕ) → j ≤ more
        → get_or {A = List ℕ} held.new j [] ≡ over txn.now (stored pages.old) (get_or children.now j 0)) }
{
    for j in 0..more + 1 {
        read_level(txn, pages, children[j], 0, &mut held[j])?;
    }
    Ok(())
}

/// Moves to the first row in a leaf's page at or after a key.
fn stand(leaf: &mut Leaf, page: &PageBytes, key: &[u8]) -> Result<(), TreeError>
    ensures rows { (node : Node) → IsNode page.now node → Rises node.entries
        → OnOk result (IsAhead page.now leaf.new.at (entries_from key.now node.entries)) }
    ensures left { (node : Node) → IsNode page.now node → Rises node.entries
        → OnOk result (leaf.new.left ≡ length (entries_from key.now node.entries)) }
    ensures more { leaf.new.more ≡ leaf.old.more }
    ensures bound { bound_in leaf.new ≡ bound_in leaf.old }
    ensures err { IfErr result (λ e. e ≡ NotAStore) }
    ensures refused { OnErr result ((node : Node) → IsNode page.now node → ⊥) }
{
    let place = place_from(page, key)?;
    leaf.at = place.at;
    leaf.left = place.left;
    Ok(())
}

/// Finds the child of a node above the leaves that a key belongs to, and keeps the first key in it that is above this one, as the
/// bound.
fn go_down(leaf: &mut Leaf, page: &PageBytes, key: &[u8]) -> Result<u32, TreeError>
    ensures child { IfOk result (λ child. IsChild page.now key.now child) }
    ensures bound { (node : Node) → IsNode page.now node → RisesAfter node.entries
        → OnOk result (bound_in leaf.new ≡ nearer (ceiling key.now node.entries) (bound_in leaf.old)) }
    ensures err { IfErr result (λ e. e ≡ NotAStore) }
    ensures refused { OnErr result (NoChild page.now key.now) }
{
    let way = way_for(page, key)?;
    match way.bound {
        None => Ok(way.child),
        Some(bound) => {
            leaf.bound.set(bound);
            leaf.bounded = true;
            Ok(way.child)
        }
    }
}

/// Finds the child of a node above the leaves that a key belongs to, with the children that follow it as far as they are to be
/// read with it, and keeps the first key after the last of these, as the bound.
fn ways_in(
    leaf: &mut Leaf,
    page: &PageBytes,
    key: &[u8],
    prefix: &[u8],
    children: &mut [u32; 4],
) -> Result<(), TreeError>
    ensures few { OnOk result (leaf.new.more ≤ 3) }
    ensures ways { (node : Node) → IsNode page.now node → RisesAfter node.entries
        → OnOk result (HasWays key.now node.entries (bound_in leaf.old) leaf.new children.new) }
    ensures err { IfErr result (λ e. e ≡ NotAStore) }
    ensures refused { OnErr result (NoChild page.now key.now) }
{
    let mut after = [0; 3];
    let ways = ways_for(page, key, prefix, &mut after)?;
    *children = [ways.child, after[0], after[1], after[2]];
    leaf.more = ways.more;
    match ways.bound {
        None => Ok(()),
        Some(bound) => {
            leaf.bound.set(bound);
            leaf.bounded = true;
            Ok(())
        }
    }
}
