//! Finds the leaf that a key belongs to.
ghost use Rattle.std.specs.Prelude.{◌≡◌, ◌<◌, ◌≤◌, ◌^◌, ℕ, List, IfOk};
ghost use Rattle.page_store.specs.claim.Transactions.{stored, disk_in, count_of, txn_pages, over};
ghost use Rattle.page_store.specs.Reading.{ReadsOnly};
ghost use Rattle.page_btree_gets.specs.Getting.{GetAtErr, ReadsErr};
ghost use Rattle.page_btree_gets.specs.claim.Keys.{IsUnder};
ghost use Rattle.page_btree_gets.specs.Leading.{LeadsTo, LeadsAll, CanLead, end_of};
ghost use Rattle.page_btree_gets.specs.Outcomes.{FindsLeaf, FindsReach};

use crate::error::TreeError;
use crate::gets::{lend_level, place_of};
use crate::reach::{Reach, child_within};
use page_btree_node::level_of;
use page_store::{Pages, Txn};
use sector_device::SectorDevice;

/// Finds the page of the leaf to which a key belongs, in the tree at a root, and how far its keys
/// reach. An error is `NotAStore` if there is no tree, `DeviceFault` or `Halted`.
pub fn find_leaf<D: SectorDevice>(
    txn: &Txn,
    pages: &mut Pages<D>,
    root: u32,
    key: &[u8],
    reach: &mut Reach,
) -> Result<u32, TreeError>
    requires begun { txn_pages txn.now ≡ count_of pages.old }
    requires below { root < txn_pages txn.now }
    ensures reading { ReadsOnly (ReadsErr (λ S. CanLead (txn_pages txn.now) (over txn.now S) key.now root) pages.old pages.new) pages.old pages.new result }
    ensures below { IfOk result (λ leaf. leaf < txn_pages txn.now) }
    ensures few { txn_pages txn.now ≤ 2 ^ 32 }
    ensures leads { FindsLeaf txn.now pages.old pages.new root key.now result }
    ensures reach { FindsReach txn.now pages.old pages.new root key.now reach.new result }
{
    let count = txn.page_count();
    reach.bounded = false;
    let own = txn.lend(pages, root, 0)?;
    let bytes = pages.lent(own, 0);
    let level = level_of(bytes);
    if level > 5 {
        return Err(TreeError::NotAStore);
    }
    if level == 0 {
        return Ok(root);
    }
    let child = child_within(bytes, key, reach)?;
    if child >= count {
        return Err(TreeError::NotAStore);
    }
    leaf_below(txn, pages, child, level - 1, key, reach)
}

/// Finds the page of the leaf that a key belongs to, below a page that isn't the root and is one of a node of this level. The reach
/// gets no farther.
fn leaf_below<D: SectorDevice>(
    txn: &Txn,
    pages: &mut Pages<D>,
    p: u32,
    level: u8,
    key: &[u8],
    reach: &mut Reach,
) -> Result<u32, TreeError>
    requires begun { txn_pages txn.now ≡ count_of pages.old }
    requires below { p < txn_pages txn.now }
    ensures reading { ReadsOnly (GetAtErr txn.now pages.old pages.new level key.now p) pages.old pages.new result }
    ensures below { IfOk result (λ leaf. leaf < txn_pages txn.now) }
    ensures few { txn_pages txn.now ≤ 2 ^ 32 }
    ensures leads { (disk_in pages.new).is_honest → IfOk result (λ leaf. LeadsTo (over txn.now (stored pages.old)) level p key.now leaf) }
    ensures reach { (disk_in pages.new).is_honest
        → IfOk result (λ leaf. LeadsAll (over txn.now (stored pages.old)) level p key.now (end_of reach.new) leaf) }
    ensures nearer { (other : List ℕ) → IsUnder other (end_of reach.new) → IsUnder other (end_of reach.old) }
{
    let count = txn.page_count();
    if level == 0 {
        return Ok(p);
    }
    let place = place_of(level, p);
    let own = lend_level(txn, pages, p, level, place)?;
    let bytes = pages.lent(own, place);
    let child = child_within(bytes, key, reach)?;
    if child >= count {
        return Err(TreeError::NotAStore);
    }
    leaf_below(txn, pages, child, level - 1, key, reach)
}
