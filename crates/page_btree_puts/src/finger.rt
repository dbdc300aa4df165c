//! A leaf that is known, so that rows are put into it without going down from the root.
ghost use Rattle.std.specs.Prelude.{◌≡◌, ◌≢◌, ◌<◌, ◌≤◌, ◌^◌, true, length, OnOk, IfOk, IfSome};
ghost use Rattle.sector_device.specs.claim.Disk.{Image};
ghost use Rattle.page_store.specs.declared.txn.Txn.{Txn};
ghost use Rattle.page_store.specs.claim.Transactions.{stored, disk_in, count_of, txn_pages, txn_root, over};
ghost use Rattle.page_store.specs.Reading.{ReadsOnly};
ghost use Rattle.page_btree_gets.specs.claim.Keys.{IsBetween};
ghost use Rattle.page_btree_gets.specs.Getting.{ReadsErr};
ghost use Rattle.page_btree_gets.specs.Leading.{CanLead, end_of};
ghost use Rattle.page_btree_gets.specs.Asked.{IsPageOf};
ghost use Rattle.page_btree_puts.specs.Fingers.{StandsIn, Stand, IsApart, IsReached, GetsWhere, GetWhereErr};

use page_btree_gets::{
    KeyBytes, Reach, RowNear, TreeError, VALUE_LIMIT, find_leaf, get, get_in_leaf,
};
use page_store::{Pages, Txn};
use sector_device::SectorDevice;

/// The leaf of a row that was put, and the place before that row. The keys from the row's on, as far as they reach, belong to the
/// leaf. So rows that rise are put by going down once a leaf, and by looking at each row of the leaf once.
#[derive(Drop)]
pub struct Finger {
    /// The leaf's page, or 0 where none is known.
    pub(crate) page: u32,
    pub(crate) low: KeyBytes,
    pub(crate) reach: Reach,
    pub(crate) near: RowNear,
}

impl Finger {
    /// No leaf is known.
    pub fn none() -> Self
        ensures { result.page ≡ 0 }
    {
        Finger {
            page: 0,
            low: KeyBytes::empty(),
            reach: Reach::open(),
            near: RowNear::FIRST,
        }
    }

    /// Returns whether a key belongs to the leaf, in a store of `count` pages.
    #[tactic(auto, using(page_btree_gets::proofs::Rows::key_before))]
    fn has(&self, key: &[u8], count: u32) -> bool
        ensures some { result ≡ true → self.now.page ≢ 0 }
        ensures below { result ≡ true → self.now.page < count }
        ensures between { result ≡ true → IsBetween self.now.low (end_of self.now.reach) key.now }
    {
        if self.page == 0 || self.page >= count {
            return false;
        }
        if self.low.as_slice().cmp(key).is_gt() {
            return false;
        }
        if !self.reach.bounded {
            return true;
        }
        self.reach.bound.as_slice().cmp(key).is_gt()
    }
}

/// Two fingers, for rows of two kinds that are put in turn: that of the next row is made the first by
/// `turn`, and once the row is put `part` sees that the second is at another leaf.
#[derive(Drop)]
pub struct Fingers {
    /// The one that was used last.
    pub first: Finger,
    pub(crate) second: Finger,
}

impl Fingers {
    /// No leaf is known.
    pub fn none() -> Self
        ensures first { result.first.page ≡ 0 }
        ensures second { result.second.page ≡ 0 }
    {
        Fingers {
            first: Finger::none(),
            second: Finger::none(),
        }
    }

    /// Makes the first finger the one to whose leaf a key belongs, or otherwise the one that was
    /// used longer ago. The store has `count` pages.
    pub fn turn(&mut self, key: &[u8], count: u32)
        ensures { (t : Txn) (S : Image) → Stand t S self.old → Stand t S self.new }
    {
        if !self.first.has(key, count) {
            std::mem::swap(&mut self.first, &mut self.second);
        }
    }

    /// The second finger forgets its leaf where the first has none, or the same.
    pub fn part(&mut self)
        ensures first { self.new.first ≡ self.old.first }
        ensures second { self.new.second.page ≢ 0 → IsApart self.old self.new }
    {
        if self.first.page == 0 || self.first.page == self.second.page {
            self.second.page = 0;
        }
    }
}

/// Finds the leaf that a key belongs to: it is the known one, or is looked for from the root on.
pub(crate) fn reach_leaf<D: SectorDevice>(
    txn: &Txn,
    pages: &mut Pages<D>,
    finger: &mut Finger,
    root: u32,
    key: &[u8],
) -> Result<(), TreeError>
    requires place { IsPageOf txn.now pages.old root }
    requires root { root ≡ txn_root txn.now }
    requires key { length key.now ≤ 72 }
    ensures reading { ReadsOnly (ReadsErr (λ S. CanLead (txn_pages txn.now) (over txn.now S) key.now root) pages.old pages.new) pages.old pages.new result }
    ensures below { OnOk result (finger.new.page < txn_pages txn.now) }
    ensures few { txn_pages txn.now ≤ 2 ^ 32 }
    ensures reached { (disk_in pages.new).is_honest → StandsIn txn.now (stored pages.old) finger.old
        → OnOk result (IsReached txn.now (stored pages.old) root key.now finger.new) }
{
    let count = txn.page_count();
    if finger.has(key, count) {
        return Ok(());
    }
    let leaf = find_leaf(txn, pages, root, key, &mut finger.reach)?;
    finger.page = leaf;
    finger.low.set(key);
    finger.near = RowNear::FIRST;
    Ok(())
}

/// Looks a key up as `get` does, where its leaf may be known by one of two fingers.
pub fn get_with<D: SectorDevice>(
    txn: &Txn,
    pages: &mut Pages<D>,
    fingers: &Fingers,
    key: &[u8],
    into: &mut [u8; VALUE_LIMIT],
) -> Result<Option<usize>, TreeError>
    requires begun { txn_pages txn.now ≡ count_of pages.old }
    ensures reading { ReadsOnly (GetWhereErr (λ S. Stand txn.now S fingers.now) txn.now pages.old pages.new) pages.old pages.new result }
    ensures get { GetsWhere (λ S. Stand txn.now S fingers.now) txn.now pages.old pages.new key.now into.new result }
    ensures short { IfOk result (λ found. IfSome found (λ length_is. length_is ≤ 1024)) }
{
    let count = txn.page_count();
    if fingers.first.has(key, count) {
        return get_by(txn, pages, &fingers.first, key, into);
    }
    if fingers.second.has(key, count) {
        return get_by(txn, pages, &fingers.second, key, into);
    }
    get(txn, pages, key, into)
}

/// Looks up a key that belongs to a finger's leaf.
fn get_by<D: SectorDevice>(
    txn: &Txn,
    pages: &mut Pages<D>,
    finger: &Finger,
    key: &[u8],
    into: &mut [u8; VALUE_LIMIT],
) -> Result<Option<usize>, TreeError>
    requires begun { txn_pages txn.now ≡ count_of pages.old }
    requires some { finger.now.page ≢ 0 }
    requires below { finger.now.page < txn_pages txn.now }
    requires between { IsBetween finger.now.low (end_of finger.now.reach) key.now }
    ensures reading { ReadsOnly (GetWhereErr (λ S. StandsIn txn.now S finger.now) txn.now pages.old pages.new) pages.old pages.new result }
    ensures get { GetsWhere (λ S. StandsIn txn.now S finger.now) txn.now pages.old pages.new key.now into.new result }
    ensures short { IfOk result (λ found. IfSome found (λ length_is. length_is ≤ 1024)) }
{
    let root = txn.root();
    if root == 0 {
        return Ok(None);
    }
    get_in_leaf(txn, pages, finger.page, finger.near, key, into)
}
