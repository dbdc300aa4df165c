//! What keeps a map in pages.
ghost use Rattle.std.specs.Prelude.{◌≡◌, ◌≤◌, ◌+◌, ◌*◌, ◌^◌, ℕ, List, length};
ghost use Rattle.std.specs.FinMap.{empty, entries};
ghost use Rattle.sector_device.specs.claim.Disk.{Image};
ghost use Rattle.page_store.specs.claim.Chain.{IsPages, root_in, free_in};
ghost use Rattle.page_btree_gets.specs.claim.Keys.{KeyMap};
ghost use Rattle.page_btree_gets.specs.claim.Map.{Holds};
ghost use Rattle.page_btree_gets.specs.Outcomes.{ReadsWhatPagesHold, HoldsWhatWasPrepared, OpensOneOfTwo};

/// Pages with a root and free pages hold one map at most. A new store holds the map without rows. A transaction that is begun
/// reads the map that the pages hold; a prepared one holds the map that the transaction read. A stop in the midst of a commit
/// leaves images that open to the map before or to the map after
/// (`leaves_maps` in proofs/ says it of a device's moments). A page has 1,364 rows at most.
pub fn laws()
    ensures one { (n : ℕ) (P : Image) (root : ℕ) (free : List ℕ) (m m' : KeyMap)
        → n ≤ 2 ^ 32 → Holds n P root free m → Holds n P root free m' → m ≡ m' }
    ensures made { (n : ℕ) (P : Image) → root_in P ≡ 0 → IsPages n P → length (free_in P) + 1 ≡ n → Holds n P (root_in P) (free_in P) empty }
    ensures begun { ReadsWhatPagesHold }
    ensures prepared { HoldsWhatWasPrepared }
    ensures stopped { OpensOneOfTwo }
    ensures few { (n : ℕ) (P : Image) (root : ℕ) (free : List ℕ) (m : KeyMap) → Holds n P root free m → length (entries m) ≤ 1364 * n }
{}
