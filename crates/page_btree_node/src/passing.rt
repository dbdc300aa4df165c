//! Entries that are passed over: eight at once where they have the same lengths.
ghost use Rattle.std.specs.Prelude.{◌≡◌, ◌≤◌, ◌<◌, ◌+◌, ◌*◌, true, drop};
ghost use Rattle.page_btree_node.specs.Entries.{key_length, value_length};
ghost use Rattle.page_btree_node.specs.Walking.{ArePassed, Passes};

use crate::entry::{Lengths, bounds_in};
use crate::sizes::{PAGE_SIZE, PageBytes};

/// The three bytes at a place as a number, as a `Lengths` holds them.
fn head_at(page: &PageBytes, at: usize) -> u32
    requires { at < 4093 }
    ensures { result ≡ 65536 * key_length (drop at page.now) + value_length (drop at page.now) }
{
    u32::from_be_bytes([page[at], page[at + 1], page[at + 2], page[at + 3]]) / 256
}

/// Whether the four entries from a place on have the lengths of the last one, and end before the page does.
#[tactic(auto, using(crate::proofs::Passed::passes_four))]
fn four_in(page: &PageBytes, at: usize, last: &Lengths) -> bool
    requires { at ≤ 4096 }
    ensures { result ≡ true → ArePassed page.now at 4 (at + 4 * last.now.size) }
{
    let size = last.size;
    if at + 4 * size >= PAGE_SIZE {
        return false;
    }
    let first = head_at(page, at) == last.head;
    let second = head_at(page, at + size) == last.head;
    let third = head_at(page, at + 2 * size) == last.head;
    let fourth = head_at(page, at + 3 * size) == last.head;
    first & second & third & fourth
}

/// The same of eight.
fn eight_in(page: &PageBytes, at: usize, last: &Lengths) -> bool
    requires { at ≤ 4096 }
    ensures { result ≡ true → ArePassed page.now at 8 (at + 8 * last.now.size) }
{
    four_in(page, at, last) && four_in(page, at + 4 * last.size, last)
}

/// Where eight entries end that are looked at one by one.
#[tactic(auto, using(crate::proofs::Passed::passes_none))]
fn each_in(page: &PageBytes, at: usize, last: &mut Lengths) -> Option<usize>
    requires { at ≤ 4096 }
    ensures { Passes page.now at 8 result }
{
    let mut end = at;
    for _k in 0..8usize {
        match bounds_in(page, end, last) {
            None => return None,
            Some(bounds) => end = bounds.end,
        }
    }
    Some(end)
}

/// Where the eight entries from a place on end.
#[inline(always)]
pub(crate) fn pass(page: &PageBytes, at: usize, last: &mut Lengths) -> Option<usize>
    requires { at ≤ 4096 }
    ensures { Passes page.now at 8 result }
{
    if eight_in(page, at, last) {
        return Some(at + 8 * last.size);
    }
    each_in(page, at, last)
}
