//! Looks a key up.
ghost use Rattle.std.specs.Prelude.{◌≡◌, ◌≤◌, ◌<◌, ◌-◌, ◌^◌, Option, Some, None, true, OnOk, OnErr, IfOk, IfErr, IfSome};
ghost use Rattle.std.specs.FinMap.{find, get as row_at};
ghost use Rattle.page_store.specs.claim.Chain.{is_blank};
ghost use Rattle.page_store.specs.Lent.{lent_bytes};
ghost use Rattle.page_store.specs.claim.Transactions.{stored, disk_in, count_of, txn_pages, over};
ghost use Rattle.page_store.specs.Reading.{ReadsOnly};
ghost use Rattle.page_btree_node.specs.claim.Node.{Node, IsNode};
ghost use Rattle.page_btree_node.specs.claim.Places.{key_cmp, Rises};
ghost use Rattle.page_btree_node.specs.Searching.{IsBelow};
ghost use Rattle.page_btree_gets.specs.claim.Keys.{KeyMap};
ghost use Rattle.page_btree_gets.specs.claim.Map.{InTxn};
ghost use Rattle.page_btree_gets.specs.claim.Errors.{GetErr};
ghost use Rattle.page_btree_gets.specs.Getting.{CanGetIn, GetAtErr, IsChild, IsCopied, NoChild, ReadsErr};
ghost use Rattle.page_btree_gets.specs.Outcomes.{ReadsValueAt};
ghost use Rattle.page_btree_gets.specs.Outcomes.{ReachesLevel};

use crate::error::TreeError;
use page_btree_node::{NotANode, PageBytes, RowNear, VALUE_LIMIT, level_of, value_after, way_for};
use page_store::{Pages, Txn, word_at};
use sector_device::SectorDevice;

/// Looks a key up, and copies its value to the start of a buffer: how many bytes it has, or none where the key isn't there. It
/// takes no memory. An error is `NotAStore`, where what is read is no store's, `DeviceFault`, where the device failed, or `Halted`,
/// where it had failed before.
pub fn get<D: SectorDevice>(
    txn: &Txn,
    pages: &mut Pages<D>,
    key: &[u8],
    into: &mut [u8; VALUE_LIMIT],
) -> Result<Option<usize>, TreeError>
    requires begun { txn_pages txn.now ≡ count_of pages.old }
    ensures reading { ReadsOnly (GetErr txn.now pages.old pages.new) pages.old pages.new result }
    ensures get { (disk_in pages.new).is_honest → (m : KeyMap) → InTxn txn.now (stored pages.old) m
        → IfOk result (λ found. IsCopied found into.new (row_at m key.now)) }
    ensures short { IfOk result (λ found. IfSome found (λ length_is. length_is ≤ 1024)) }
{
    match get_held(txn, pages, key, into)? {
        Some(length) => Ok(Some(length)),
        None => get_from_root(txn, pages, key, into),
    }
}

/// Whether a page is a leaf of few rows.
fn is_small_leaf(page: &PageBytes) -> bool
    ensures leaf { result ≡ true → (node : Node) → IsNode page.now node → node.level ≡ 0 }
    ensures used { result ≡ true → is_blank page.now ≡ true → ⊥ }
{
    let used = word_at(page, 1);
    if used == 0 {
        return false;
    }
    if page[2] != 0 {
        return false;
    }
    page[3] <= 8 && level_of(page) == 0
}

/// The value of a key, copied as `get` does, where the leaf that was read last has few rows, the key's among them. So values of which a
/// leaf holds few are read one after the other without going down from the root.
fn get_held<D: SectorDevice>(
    txn: &Txn,
    pages: &mut Pages<D>,
    key: &[u8],
    into: &mut [u8; VALUE_LIMIT],
) -> Result<Option<usize>, TreeError>
    requires begun { txn_pages txn.now ≡ count_of pages.old }
    ensures reading { ReadsOnly (GetErr txn.now pages.old pages.new) pages.old pages.new result }
    ensures get { (disk_in pages.new).is_honest → (m : KeyMap) → InTxn txn.now (stored pages.old) m
        → IfOk result (λ found. IfSome found (λ length_is. IsCopied (Some length_is) into.new (row_at m key.now))) }
    ensures short { IfOk result (λ found. IfSome found (λ length_is. length_is ≤ 1024)) }
{
    let page = pages.held_page(15);
    if page == 0 {
        return Ok(None);
    }
    if page >= txn.page_count() {
        return Ok(None);
    }
    let own = txn.lend(pages, page, 15)?;
    let bytes = pages.lent(own, 15);
    if !is_small_leaf(bytes) {
        return Ok(None);
    }
    copy_value(bytes, RowNear::FIRST, key, into)
}

/// Looks a key up as `get` does, from the root on.
fn get_from_root<D: SectorDevice>(
    txn: &Txn,
    pages: &mut Pages<D>,
    key: &[u8],
    into: &mut [u8; VALUE_LIMIT],
) -> Result<Option<usize>, TreeError>
    requires begun { txn_pages txn.now ≡ count_of pages.old }
    ensures reading { ReadsOnly (GetErr txn.now pages.old pages.new) pages.old pages.new result }
    ensures get { (disk_in pages.new).is_honest → (m : KeyMap) → InTxn txn.now (stored pages.old) m
        → IfOk result (λ found. IsCopied found into.new (row_at m key.now)) }
    ensures short { IfOk result (λ found. IfSome found (λ length_is. length_is ≤ 1024)) }
{
    let root = txn.root();
    if root == 0 {
        return Ok(None);
    }
    let own = txn.lend(pages, root, 0)?;
    let level = level_of(pages.lent(own, 0));
    if level > 5 {
        return Err(TreeError::NotAStore);
    }
    get_below(txn, pages, root, 0, level, key, into)
}

/// Looks a key up below a page, which is one of a node of this level and is lent at a place.
fn get_below<D: SectorDevice>(
    txn: &Txn,
    pages: &mut Pages<D>,
    p: u32,
    place: usize,
    level: u8,
    key: &[u8],
    into: &mut [u8; VALUE_LIMIT],
) -> Result<Option<usize>, TreeError>
    requires begun { txn_pages txn.now ≡ count_of pages.old }
    ensures value { ReadsValueAt txn.now pages.old pages.new level p key.now into.new result }
    ensures reading { ReadsOnly (GetAtErr txn.now pages.old pages.new level key.now p) pages.old pages.new result }
    ensures short { IfOk result (λ found. IfSome found (λ length_is. length_is ≤ 1024)) }
{
    let own = lend_level(txn, pages, p, level, place)?;
    let bytes = pages.lent(own, place);
    if level == 0 {
        let found = copy_value(bytes, RowNear::FIRST, key, into)?;
        return Ok(found);
    }
    let child = child_of_key(bytes, key)?;
    let place = place_of(level - 1, child);
    get_below(txn, pages, child, place, level - 1, key, into)
}

/// The child that a key belongs to, in a page whose keys rise after the first.
pub(crate) fn child_of_key(bytes: &PageBytes, key: &[u8]) -> Result<u32, NotANode>
    ensures child { IfOk result (λ child. IsChild bytes.now key.now child) }
    ensures err { OnErr result (NoChild bytes.now key.now) }
{
    match way_for(bytes, key) {
        Ok(way) => Ok(way.child),
        Err(fault) => Err(fault),
    }
}

/// Looks a key up in the leaf at a page, where each key before a place is below it, and copies its value as `get` does.
pub fn get_in_leaf<D: SectorDevice>(
    txn: &Txn,
    pages: &mut Pages<D>,
    leaf: u32,
    from: RowNear,
    key: &[u8],
    into: &mut [u8; VALUE_LIMIT],
) -> Result<Option<usize>, TreeError>
    requires begun { txn_pages txn.now ≡ count_of pages.old }
    ensures reading { ReadsOnly (ReadsErr (λ P. CanGetIn (txn_pages txn.now) (over txn.now P) leaf from key.now) pages.old pages.new) pages.old pages.new result }
    ensures value { (disk_in pages.new).is_honest → (can : CanGetIn (txn_pages txn.now) (over txn.now (stored pages.old)) leaf from key.now)
        → IfOk result (λ found. IsCopied found into.new (find key_cmp key.now can.0)) }
    ensures few { txn_pages txn.now ≤ 2 ^ 32 }
    ensures short { IfOk result (λ found. IfSome found (λ length_is. length_is ≤ 1024)) }
{
    let own = lend_level(txn, pages, leaf, 0, 15)?;
    let bytes = pages.lent(own, 15);
    let found = copy_value(bytes, from, key, into)?;
    Ok(found)
}

/// Copies the value of a key in a leaf, where each key before a place is below it.
#[inline(always)]
#[tactic(auto, using(crate::proofs::Descent::short_value))]
fn copy_value(
    page: &PageBytes,
    from: RowNear,
    key: &[u8],
    into: &mut [u8; VALUE_LIMIT],
) -> Result<Option<usize>, TreeError>
    ensures value { (node : Node) → IsNode page.now node → Rises node.entries → IsBelow key.now node.entries from.k from.at
        → IfOk result (λ found. IsCopied found into.new (find key_cmp key.now node.entries)) }
    ensures short { IfOk result (λ found. IfSome found (λ length_is. length_is ≤ 1024)) }
    ensures err { IfErr result (λ e. e ≡ TreeError.NotAStore) }
    ensures refused { OnErr result ((node : Node) → IsNode page.now node
        → Rises node.entries → IsBelow key.now node.entries from.k from.at → ⊥) }
{
    match value_after(page, from, key)? {
        None => Ok(None),
        Some(value) => {
            if value.len() > VALUE_LIMIT {
                return Err(TreeError::NotAStore);
            }
            into[..value.len()].copy_from_slice(value);
            Ok(Some(value.len()))
        }
    }
}

/// The place at which a page of a node below the root is lent: leaves have the last one, and the nodes above them the fourteen
/// between the root's and it, by their page's number, so that a node is mostly still held when its next child is looked for.
pub(crate) fn place_of(level: u8, p: u32) -> usize {
    if level == 0 {
        return 15;
    }
    1 + (p % 14) as usize
}

/// Lends the page of a node of this level at a place.
pub(crate) fn lend_level<'t, D: SectorDevice>(
    txn: &'t Txn,
    pages: &mut Pages<D>,
    p: u32,
    level: u8,
    place: usize,
) -> Result<Option<&'t PageBytes>, TreeError>
    requires begun { txn_pages txn.now ≡ count_of pages.old }
    ensures reaches { ReachesLevel txn.now pages.old pages.new level p result }
    ensures lends { (disk_in pages.new).is_honest → IfOk result (λ own. lent_bytes pages.new own place ≡ over txn.now (stored pages.old) p) }
{
    let count = txn.page_count();
    if p >= count {
        return Err(TreeError::NotAStore);
    }
    let own = txn.lend(pages, p, place)?;
    if level_of(pages.lent(own, place)) != level {
        return Err(TreeError::NotAStore);
    }
    Ok(own)
}

/// Reads the page of a node of this level. An error is `NotAStore` where the page is no such node's, `DeviceFault` or `Halted`.
pub fn read_level<D: SectorDevice>(
    txn: &Txn,
    pages: &mut Pages<D>,
    p: u32,
    level: u8,
    page: &mut PageBytes,
) -> Result<(), TreeError>
    requires begun { txn_pages txn.now ≡ count_of pages.old }
    ensures reaches { ReachesLevel txn.now pages.old pages.new level p result }
    ensures reads { (disk_in pages.new).is_honest → OnOk result (page.new ≡ over txn.now (stored pages.old) p) }
    ensures level { (node : Node) → IsNode page.new node → OnOk result (node.level ≡ level) }
{
    let count = txn.page_count();
    if p >= count {
        return Err(TreeError::NotAStore);
    }
    txn.read(pages, p, page)?;
    if level_of(page) != level {
        return Err(TreeError::NotAStore);
    }
    Ok(())
}
