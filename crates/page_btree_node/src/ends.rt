//! Where entries end: the k-th number is where the first k of them do.
ghost use Rattle.std.specs.Prelude.{◌≡◌, ◌≤◌, ◌<◌, ◌+◌, ◌-◌, ◌^◌, ℕ, get_or};
ghost use Rattle.page_btree_node.specs.Bytes.{IsByteRange};
ghost use Rattle.page_btree_node.specs.Held.{HasEntryAt, IsCut, MayBeCut};

use crate::sizes::PAGE_SIZE;

/// Makes room for an entry of `size` bytes at a place.
pub fn insert_end(ends: &mut [u16; 1366], i: usize, count: usize, size: u16)
    requires part { IsByteRange i count 1364 }
    requires fits { (k : ℕ) → k ≤ count → get_or ends.old k 0 + size < 2 ^ 16 }
    ensures kept { (k : ℕ) → k ≤ i → get_or ends.new k 0 ≡ get_or ends.old k 0 }
    ensures moved { (k : ℕ) → i ≤ k → k ≤ count → get_or ends.new (k + 1) 0 ≡ get_or ends.old k 0 + size }
{
    let mut k = count + 1;
    while k > i {
        ends[k] = ends[k - 1] + size;
        k -= 1;
    }
}

/// Removes the entry at a place, which has `size` bytes.
pub fn remove_end(ends: &mut [u16; 1366], i: usize, count: usize, size: u16)
    requires { HasEntryAt ends.old i count size }
    ensures kept { (k : ℕ) → k ≤ i → get_or ends.new k 0 ≡ get_or ends.old k 0 }
    ensures moved { (k : ℕ) → i < k → k < count → get_or ends.new k 0 ≡ get_or ends.old (k + 1) 0 - size }
{
    for k in i + 1..count {
        ends[k] = ends[k + 1] - size;
    }
}

/// Changes the size of the entry at a place from `old` to `new` bytes.
pub fn resize_end(ends: &mut [u16; 1366], i: usize, count: usize, old: u16, new: u16)
    requires entry { HasEntryAt ends.old i count old }
    requires fits { (k : ℕ) → i < k → k ≤ count → get_or ends.old k 0 - old + new < 2 ^ 16 }
    ensures kept { (k : ℕ) → k ≤ i → get_or ends.new k 0 ≡ get_or ends.old k 0 }
    ensures moved { (k : ℕ) → i < k → k ≤ count → get_or ends.new k 0 ≡ get_or ends.old k 0 - old + new }
{
    if old == new {
        return;
    }
    for k in i + 1..count + 1 {
        ends[k] = ends[k] - old + new;
    }
}

/// Takes over the ends of the entries from a place on.
pub fn copy_ends(from: &[u16; 1366], i: usize, count: usize, to: &mut [u16; 1366])
    requires part { IsByteRange i count 1365 }
    requires rising { (k : ℕ) → i ≤ k → k ≤ count → get_or from.now i 0 ≤ get_or from.now k 0 }
    requires fits { (k : ℕ) → i ≤ k → k ≤ count → get_or from.now k 0 - get_or from.now i 0 + 4 < 2 ^ 16 }
    ensures { (k : ℕ) → i ≤ k → k ≤ count → get_or to.new (k - i) 0 ≡ get_or from.now k 0 - get_or from.now i 0 + 4 }
{
    let first = from[i];
    for k in i..count + 1 {
        to[k - i] = from[k] - first + 4;
    }
}

/// Returns the number of entries that stay when a node is split. An entry that was added as the
/// last one moves by itself if the others fit; otherwise the cut is the first end at or past half.
pub fn cut_at(ends: &[u16; 1366], count: usize, added: usize) -> usize
    requires { MayBeCut ends.now count }
    ensures { IsCut ends.now count added result }
{
    let last = count - 1;
    if added == last && ends[last] as usize <= PAGE_SIZE {
        return last;
    }
    let size = ends[count] as usize;
    let mut cut = 1;
    while 2 * (ends[cut] as usize) < size + 4 {
        cut += 1;
    }
    cut
}
