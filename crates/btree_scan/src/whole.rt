//! What a scan's rows are in the end, and how many they can be.
ghost use Rattle.std.specs.Prelude.{◌≡◌, ◌<◌, ◌≤◌, ℕ, List, [], length, true, nat_eq};
ghost use Rattle.std.specs.List.{starts_with};
ghost use Rattle.std.specs.FinMap.{find, entries};
ghost use Rattle.sector_device.specs.claim.Disk.{Image};
ghost use Rattle.page_btree.specs.node.claim.Entries.{Entry};
ghost use Rattle.page_btree.specs.node.claim.Places.{key_cmp, Rises};
ghost use Rattle.page_btree.specs.gets.claim.Keys.{KeyMap};
ghost use Rattle.page_btree.specs.gets.claim.Map.{InTxn};
ghost use Rattle.btree_scan.specs.Prefixes.{under};
ghost use Rattle.btree_scan.specs.Scanning.{Rest};
ghost use Rattle.btree_scan.specs.Taken.{HasTaken, TakenRowsGrow, TakenRowsAreAll};
ghost use Rattle.btree_scan.specs.declared.scans.RowScan.{RowScan};

use page_store::Txn;

/// More than the rows that a transaction's map can have: a loop over a scan takes fewer turns.
pub fn row_limit(txn: &Txn) -> u64
    ensures { (P : Image) (m : KeyMap) → InTxn txn.now P m → length (entries m) < result }
{
    1364 * u64::from(txn.page_count()) + 1
}

/// A scan that begins has taken no row, each call that gives one takes it, and where a call gives none and there was no fault, the
/// rows taken are all under the prefix. They are never more than all, and rise. A key under the prefix is found among them as it is among
/// all.
pub fn laws()
    ensures none { (prefix : List ℕ) (scan : RowScan) (all : List Entry) → Rest scan all (under prefix all) → HasTaken prefix [] scan all }
    ensures more { TakenRowsGrow }
    ensures all { TakenRowsAreAll }
    ensures few { (prefix : List ℕ) (taken : List Entry) (scan : RowScan) (all : List Entry)
        → HasTaken prefix taken scan all → length taken ≤ length all }
    ensures rises { (prefix : List ℕ) (es : List Entry) → Rises es → Rises (under prefix es) }
    ensures found { (prefix key : List ℕ) (es : List Entry) → starts_with nat_eq key prefix ≡ true
        → find key_cmp key (under prefix es) ≡ find key_cmp key es }
{}
