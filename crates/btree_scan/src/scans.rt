//! Scans the rows under a prefix.
ghost use Rattle.std.specs.Prelude.{◌≡◌, ◌<◌, ◌≤◌, ◌+◌, List, true, false, cond, length, Option, None, Some, IfSome, IfNone};
ghost use Rattle.std.specs.FinMap.{entries};
ghost use Rattle.page_store.specs.claim.Transactions.{count_of, txn_pages};
ghost use Rattle.page_store.specs.Reading.{ReadsOnly};
ghost use Rattle.page_btree.specs.node.claim.Entries.{Entry};
ghost use Rattle.page_btree.specs.node.Places.{entries_from};
ghost use Rattle.page_btree.specs.gets.claim.Keys.{KeyMap};
ghost use Rattle.page_btree.specs.gets.claim.Errors.{GetErr};
ghost use Rattle.page_btree.specs.gets.Seeking.{bound_in};
ghost use Rattle.btree_scan.specs.Prefixes.{under};
ghost use Rattle.btree_scan.specs.Parts.{row_in, row_of};
ghost use Rattle.btree_scan.specs.Scanning.{Rest, IsWithin, has_ended, fault_in, is_open, FitsIn, stood_at, ScansOn};
ghost use Rattle.btree_scan.specs.Scanning.{CanStep, ScanErr, TakesRowAt, Steps, Refills, ReadsOn};

use crate::held::HeldLeaves;
use crate::parts::{Parts, ScanPlace};
use crate::rows::{Row, parts_at, take_row};
use crate::turns::turn;
use page_btree::{Leaf, Lengths, SmallBytes, TreeError, leaf_from};
use page_store::{Pages, Txn};
use sector_device::SectorDevice;

/// Gives the rows of a map whose keys begin with a prefix, rising, each once. Its calls are of one transaction, in which nothing is
/// written between them.
#[derive(Drop)]
pub struct RowScan {
    prefix: SmallBytes,
    leaf: Leaf,
    held: HeldLeaves,
    /// Whether each row of the leaves that are held is known to be under the prefix.
    covered: bool,
    last: Lengths,
    parts: Parts,
    ended: bool,
    fault: Option<TreeError>,
}

impl RowScan {
    /// A scan of the rows under a prefix, before the first one whose key isn't below another key.
    fn before(prefix: &[u8], key: &[u8]) -> Self
        requires prefix { length prefix.now ≤ 1024 }
        requires key { length key.now ≤ 1024 }
        ensures prefix { result.prefix ≡ prefix.now }
        ensures at { result.leaf.at ≡ 0 }
        ensures left { result.leaf.left ≡ 0 }
        ensures more { result.leaf.more ≡ 0 }
        ensures bound { bound_in result.leaf ≡ Some key.now }
        ensures uncovered { result.covered ≡ false }
        ensures going { has_ended result ≡ false }
        ensures fault { fault_in result ≡ None }
    {
        let mut scan = RowScan {
            prefix: SmallBytes::empty(),
            leaf: Leaf::empty(),
            held: HeldLeaves::empty(),
            covered: false,
            last: Lengths::NONE,
            parts: Parts {
                key: 0,
                value: 0,
                end: 0,
            },
            ended: false,
            fault: None,
        };
        scan.prefix.set(prefix);
        scan.leaf.bound.set(key);
        scan.leaf.bounded = true;
        scan
    }

    /// A scan of all rows, before the first one whose key isn't below this one.
    #[tactic(auto, using(crate::proofs::Ready::rest_from))]
    pub fn from_key(key: &[u8]) -> Self
        requires { length key.now ≤ 1024 }
        ensures rows { (m : KeyMap) → Rest result (entries m) (entries_from key.now (entries m)) }
        ensures fault { fault_in result ≡ None }
    {
        RowScan::before(&[], key)
    }

    /// Moves to the next row and returns true, or returns false: no row is left, or there was a
    /// fault, which the scan keeps. It takes no memory.
    pub fn advance<D: SectorDevice>(&mut self, txn: &Txn, pages: &mut Pages<D>) -> bool
        requires begun { txn_pages txn.now ≡ count_of pages.old }
        ensures { ScansOn txn.now pages.old pages.new self.old self.new (row_of self.new) result }
    {
        if self.ended {
            return false;
        }
        match step(
            txn,
            pages,
            &self.prefix,
            &mut self.leaf,
            &mut self.held,
            &mut self.covered,
            &mut self.last,
            &mut self.parts,
        ) {
            Ok(true) => true,
            Ok(false) => {
                self.ended = true;
                false
            }
            Err(fault) => {
                self.ended = true;
                self.fault = Some(fault);
                false
            }
        }
    }

    /// Returns the key of the current row.
    pub fn key(&self) -> &[u8]
        ensures key { result.now ≡ (row_of self.now).key }
        ensures short { length result.now ≤ 72 }
    {
        &self.held.page()[self.parts.key..self.parts.value]
    }

    /// Returns the value of the current row.
    pub fn value(&self) -> &[u8]
        ensures value { result.now ≡ (row_of self.now).value }
        ensures short { length result.now ≤ 1024 }
    {
        &self.held.page()[self.parts.value..self.parts.end]
    }

    /// Copies the next row and returns true, or returns false: no row is left, or there was a
    /// fault, which the scan keeps. It takes no memory.
    pub fn next<D: SectorDevice>(&mut self, txn: &Txn, pages: &mut Pages<D>, row: &mut Row) -> bool
        requires begun { txn_pages txn.now ≡ count_of pages.old }
        ensures { ScansOn txn.now pages.old pages.new self.old self.new row.new result }
    {
        if self.advance(txn, pages) {
            row.key.set(self.key());
            row.value.set(self.value());
            return true;
        }
        false
    }

    /// Returns the scan's place if all rows left in its leaf are known to be under the prefix; for
    /// any other leaf a place without rows. A loop takes these rows one after the other by
    /// `take_at` and reports its progress by `go_on`.
    pub fn place(&self) -> ScanPlace
        ensures left { result.left ≡ cond (is_open self.now) self.now.leaf.left 0 }
        ensures fits { FitsIn self.now result }
        ensures stands { stood_at self.now result ≡ self.now }
    {
        let mut place = ScanPlace {
            at: self.leaf.at,
            left: 0,
            last: Lengths::NONE,
        };
        if self.ended {
            return place;
        }
        if self.covered {
            place.left = self.leaf.left;
        }
        place
    }

    /// Takes the row at a place and moves the place past it; returns where its key and value are.
    /// Returns none if no row is left, or if the bytes are not a row: the call of `advance` after
    /// `go_on` tells which.
    #[tactic(auto, using(crate::proofs::Places::next_some, crate::proofs::Places::none_next))]
    pub fn take_at(&self, place: &mut ScanPlace) -> Option<Parts>
        ensures rows { TakesRowAt self.now place.old place.new result }
        ensures fits { FitsIn self.now place.old → FitsIn self.now place.new }
        ensures left { IfSome result (λ parts. place.new.left + 1 ≡ place.old.left) }
        ensures stays { IfNone result (stood_at self.now place.new ≡ stood_at self.now place.old) }
        ensures refused { 0 < place.old.left → IfNone result ((all rest : List Entry)
            → FitsIn self.now place.old → Rest (stood_at self.now place.old) all rest → ⊥) }
    {
        if place.left == 0 {
            return None;
        }
        parts_at(
            self.held.page(),
            &mut place.at,
            &mut place.left,
            &mut place.last,
        )
    }

    /// The key of a row that was taken at a place.
    pub fn key_at(&self, parts: Parts) -> &[u8]
        ensures key { result.now ≡ (row_in self.now parts).key }
        ensures short { length result.now ≤ 72 }
    {
        &self.held.page()[parts.key..parts.value]
    }

    /// The value of a row that was taken at a place.
    pub fn value_at(&self, parts: Parts) -> &[u8]
        ensures value { result.now ≡ (row_in self.now parts).value }
        ensures short { length result.now ≤ 1024 }
    {
        &self.held.page()[parts.value..parts.end]
    }

    /// Moves to a place; the rows before it count as taken. `key` and `value` still return the row
    /// that the last call of `advance` took.
    pub fn go_on(&mut self, place: ScanPlace)
        ensures { self.new ≡ stood_at self.old place }
    {
        if self.ended {
            return;
        }
        if self.covered {
            self.leaf.at = place.at;
            self.leaf.left = place.left;
        }
    }

    /// The fault that ended it, if there was one.
    pub fn fault(&self) -> Option<TreeError>
        ensures { result ≡ fault_in self.now }
    {
        self.fault
    }
}

/// Begins a scan of the rows whose keys begin with a prefix, before the first of them.
#[tactic(auto, using(crate::proofs::Ready::rest_new))]
pub fn scan(prefix: &[u8]) -> RowScan
    requires { length prefix.now ≤ 1024 }
    ensures rows { (m : KeyMap) → Rest result (entries m) (under prefix.now (entries m)) }
    ensures fault { fault_in result ≡ None }
{
    RowScan::before(prefix, prefix)
}

/// Takes the next row: whether its key begins with the prefix, if there is one.
fn step<D: SectorDevice>(
    txn: &Txn,
    pages: &mut Pages<D>,
    prefix: &SmallBytes,
    leaf: &mut Leaf,
    held: &mut HeldLeaves,
    covered: &mut bool,
    last: &mut Lengths,
    parts: &mut Parts,
) -> Result<bool, TreeError>
    requires begun { txn_pages txn.now ≡ count_of pages.old }
    ensures reading { ReadsOnly (ScanErr (CanStep covered.old prefix.now leaf.old held.old) txn.now pages.old pages.new) pages.old pages.new result }
    ensures rows { Steps prefix.now txn.now pages.old pages.new (covered.old, leaf.old, held.old) (covered.new, leaf.new, held.new) parts.new result }
{
    refill(txn, pages, prefix, leaf, held, covered)?;
    if leaf.left == 0 {
        return Ok(false);
    }
    let page = held.page();
    *parts = take_row(page, leaf, last)?;
    if *covered {
        return Ok(true);
    }
    Ok(page[parts.key..parts.value].starts_with(prefix.as_slice()))
}

/// Moves to the next leaf if no row of this one is left: a leaf in memory, or one that is read.
fn refill<D: SectorDevice>(
    txn: &Txn,
    pages: &mut Pages<D>,
    prefix: &SmallBytes,
    leaf: &mut Leaf,
    held: &mut HeldLeaves,
    covered: &mut bool,
) -> Result<(), TreeError>
    requires begun { txn_pages txn.now ≡ count_of pages.old }
    ensures reading { ReadsOnly (ScanErr (CanStep covered.old prefix.now leaf.old held.old) txn.now pages.old pages.new) pages.old pages.new result }
    ensures rows { Refills prefix.now txn.now pages.old pages.new (covered.old, leaf.old, held.old) (covered.new, leaf.new, held.new) result }
{
    if leaf.left > 0 {
        return Ok(());
    }
    if leaf.more > 0 {
        return turn(leaf, held);
    }
    read_on(txn, pages, prefix, leaf, held, covered)?;
    if leaf.left > 0 {
        return Ok(());
    }
    if leaf.more == 0 {
        return Ok(());
    }
    turn(leaf, held)
}

/// Reads the next leaves where no row of those that are held is left.
fn read_on<D: SectorDevice>(
    txn: &Txn,
    pages: &mut Pages<D>,
    prefix: &SmallBytes,
    leaf: &mut Leaf,
    held: &mut HeldLeaves,
    covered: &mut bool,
) -> Result<(), TreeError>
    requires begun { txn_pages txn.now ≡ count_of pages.old }
    requires left { leaf.old.left ≡ 0 }
    requires more { leaf.old.more ≡ 0 }
    ensures reading { ReadsOnly (GetErr txn.now pages.old pages.new) pages.old pages.new result }
    ensures rows { ReadsOn prefix.now txn.now pages.old pages.new (covered.old, leaf.old, held.old) (covered.new, leaf.new, held.new) result }
{
    if !leaf.bounded {
        return Ok(());
    }
    let mut from = SmallBytes::empty();
    from.set(leaf.bound.as_slice());
    leaf_from(
        txn,
        pages,
        from.as_slice(),
        prefix.as_slice(),
        leaf,
        &mut held.pages,
    )?;
    held.which = 0;
    *covered = is_within(prefix, leaf);
    Ok(())
}

/// Whether other leaves follow those that are held, and the key that bounds their rows begins with the prefix: then each of these
/// rows does that isn't below the prefix.
fn is_within(prefix: &SmallBytes, leaf: &Leaf) -> bool
    ensures { result ≡ true → IsWithin prefix.now leaf.now }
{
    if !leaf.bounded {
        return false;
    }
    leaf.bound.as_slice().starts_with(prefix.as_slice())
}
