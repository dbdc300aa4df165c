//! Keys searched in a page where they lie.
ghost use Rattle.std.specs.Prelude.{◌≡◌, ◌≢◌, ◌<◌, ◌≤◌, ◌+◌, ◌-◌, ◌⊎◌, ℕ, List, take, drop, IfOk, OnErr, MatchOption, MatchResult};
ghost use Rattle.std.specs.Option.{option_copied, option_map};
ghost use Rattle.std.specs.FinMap.{find};
ghost use Rattle.std.specs.Ordering.{is_gt, is_lt};
ghost use Rattle.std.proofs.Common.{get_or};
ghost use Rattle.page_btree_node.specs.Bytes.{IsByteRange};
ghost use Rattle.page_btree_node.specs.claim.Entries.{Entry};
ghost use Rattle.page_btree_node.specs.Entries.{child_in};
ghost use Rattle.page_btree_node.specs.claim.Node.{Node, IsNode, count_in};
ghost use Rattle.page_btree_node.specs.claim.Places.{key_cmp, Rises};
ghost use Rattle.page_btree_node.specs.Places.{floor};
ghost use Rattle.page_btree_node.specs.Walking.{FindsPlace};
ghost use Rattle.page_btree_node.specs.Searching.{IsBelow, IsNear, IsNearChild, IsWayDown, NoneFrom, NoWayDown};
ghost use Rattle.page_btree_node.specs.Ways.{FindsWay};

use crate::entry::{Lengths, bounds_in};
use crate::passing::pass;
use crate::scan::NotANode;
use crate::sizes::PageBytes;
use key_order::compare;
use std::cmp::Ordering;

/// The level that a page says, 0 for a leaf.
pub fn level_of(page: &PageBytes) -> u8
    ensures level { (node : Node) → IsNode page.now node → result ≡ node.level }
    ensures byte { result ≡ get_or page.now 0 0 }
{
    page[0]
}

/// How many entries a page says that it has.
#[inline(always)]
pub(crate) fn count_of(page: &PageBytes) -> usize
    ensures count { result ≡ count_in page.now }
    ensures few { result ≤ 65535 }
{
    256 * page[2] as usize + page[3] as usize
}

/// A part of a page.
#[inline(always)]
pub(crate) fn part(page: &PageBytes, from: usize, end: usize) -> &[u8]
    requires { IsByteRange from end 4096 }
    ensures { result.now ≡ take (end - from) (drop from page.now) }
{
    &page[from..end]
}

/// Compares a part of a page with a key.
#[inline(always)]
pub(crate) fn compare_part(page: &PageBytes, from: usize, end: usize, key: &[u8]) -> Ordering
    requires { IsByteRange from end 4096 }
    ensures { result ≡ key_cmp (take (end - from) (drop from page.now)) key.now }
{
    compare(part(page, from, end), key)
}

/// Whether a part of a page is above a key.
#[inline(always)]
fn is_above(page: &PageBytes, from: usize, end: usize, key: &[u8]) -> bool
    requires { IsByteRange from end 4096 }
    ensures { result ≡ is_gt (key_cmp (take (end - from) (drop from page.now)) key.now) }
{
    compare_part(page, from, end, key).is_gt()
}

/// Whether a part of a page is below a key.
#[inline(always)]
fn is_below(page: &PageBytes, from: usize, end: usize, key: &[u8]) -> bool
    requires { IsByteRange from end 4096 }
    ensures { result ≡ is_lt (key_cmp (take (end - from) (drop from page.now)) key.now) }
{
    compare_part(page, from, end, key).is_lt()
}

/// Where a search for a row goes on: before the entry of this number, at this place.
#[derive(Clone, Copy, Drop)]
pub struct RowNear {
    pub k: usize,
    pub at: usize,
}

impl RowNear {
    /// Before the first entry.
    pub const FIRST: RowNear = RowNear { k: 0, at: 4 };
}

/// The known place if a page with `count` entries can have it, otherwise the place before the first
/// entry.
fn begun_at(from: RowNear, count: usize) -> RowNear
    ensures within { (4 ≤ result.at) × (result.at ≤ 4096) × (result.k ≤ count) }
    ensures below { (key : List ℕ) (es : List Entry) → IsBelow key es from.k from.at → IsBelow key es result.k result.at }
{
    if from.k > count || from.at < 4 || from.at > 4096 {
        return RowNear::FIRST;
    }
    from
}

/// A place near a key's in a page whose keys rise: each key before it is below this one, as it is before the place that is known.
/// One key of nine is looked at.
pub(crate) fn row_after(page: &PageBytes, from: RowNear, key: &[u8]) -> Option<RowNear>
    ensures { MatchOption result (NoneFrom page.now key.now from) (IsNear page.now key.now from) }
{
    let count = count_of(page);
    let mut near = begun_at(from, count);
    let mut last = Lengths::NONE;
    let _ = bounds_in(page, near.at, &mut last);
    while near.k + 8 < count {
        let at = match pass(page, near.at, &mut last) {
            None => return None,
            Some(at) => at,
        };
        let bounds = match bounds_in(page, at, &mut last) {
            None => return None,
            Some(bounds) => bounds,
        };
        if !is_below(page, at + 3, bounds.value, key) {
            return Some(near);
        }
        near = RowNear {
            k: near.k + 9,
            at: bounds.end,
        };
    }
    Some(near)
}

/// Returns the value of a key in a page whose keys rise, if the key exists.
#[inline(always)]
#[tactic(auto, using(crate::proofs::Nearing::first_below, crate::proofs::Nearing::where_err))]
pub fn value_for<'a>(page: &'a PageBytes, key: &[u8]) -> Result<Option<&'a [u8]>, NotANode>
    ensures value { (node : Node) → IsNode page.now node → Rises node.entries
        → IfOk result (λ found. option_copied found ≡ find key_cmp key.now node.entries) }
    ensures err { OnErr result ((node : Node) → IsNode page.now node → ⊥) }
{
    value_after(page, RowNear::FIRST, key)
}

/// The same where each key before a place is known to be below this one.
#[tactic(auto, using(crate::proofs::Scanning::lies_there))]
pub fn value_after<'a>(
    page: &'a PageBytes,
    from: RowNear,
    key: &[u8],
) -> Result<Option<&'a [u8]>, NotANode>
    ensures value { (node : Node) → IsNode page.now node → Rises node.entries → IsBelow key.now node.entries from.k from.at
        → IfOk result (λ found. option_copied found ≡ find key_cmp key.now node.entries) }
    ensures err { OnErr result (NoneFrom page.now key.now from) }
{
    let count = count_of(page);
    let near = match row_after(page, from, key) {
        None => return Err(NotANode),
        Some(near) => near,
    };
    let mut at = near.at;
    let mut last = Lengths::NONE;
    for k in near.k..count {
        let bounds = match bounds_in(page, at, &mut last) {
            None => return Err(NotANode),
            Some(bounds) => bounds,
        };
        match compare_part(page, at + 3, bounds.value, key) {
            Ordering::Less => at = bounds.end,
            Ordering::Greater => return Ok(None),
            Ordering::Equal => return Ok(Some(part(page, bounds.value, bounds.end))),
        }
    }
    Ok(None)
}

/// The number in a value, which begins and ends at these places, if it is that of a page.
pub(crate) fn child_at(page: &PageBytes, value: usize, end: usize) -> Result<u32, NotANode>
    requires end { end ≤ 4096 }
    requires value { value ≤ 4096 }
    ensures ok { IfOk result (λ child. (0 < value) × (value + 4 ≡ end) × (child ≡ child_in (take 4 (drop value page.now)))) }
    ensures err { OnErr result (value ≡ 0 ⊎ value + 4 ≢ end) }
{
    if value == 0 || value + 4 != end {
        return Err(NotANode);
    }
    Ok(u32::from_be_bytes([
        page[value],
        page[value + 1],
        page[value + 2],
        page[value + 3],
    ]))
}

/// The child that a key belongs to: that of the entry before the first one whose key is above it. The first key is not looked
/// at.
#[tactic(auto, using(crate::proofs::Scanning::lies_there))]
pub fn child_for(page: &PageBytes, key: &[u8]) -> Result<u32, NotANode>
    ensures child { (node : Node) → IsNode page.now node → IfOk result (λ child. option_map child_in (floor key.now node.entries) ≡ Some child) }
    ensures err { OnErr result ((node : Node) → IsNode page.now node → 0 < node.level → floor key.now node.entries ≡ None) }
{
    let count = count_of(page);
    let mut value = 0;
    let mut at = 4;
    let mut last = Lengths::NONE;
    for k in 0..count {
        let bounds = match bounds_in(page, at, &mut last) {
            None => return Err(NotANode),
            Some(bounds) => bounds,
        };
        if k > 0 && is_above(page, at + 3, bounds.value, key) {
            return child_at(page, value, at);
        }
        value = bounds.value;
        at = bounds.end;
    }
    child_at(page, value, at)
}

/// Where a search for a key goes on: before the entry of this number, at this place. The value of the one before it begins there.
#[derive(Clone, Copy, Drop)]
struct Near {
    k: usize,
    value: usize,
    at: usize,
}

/// A place near the child that a key belongs to, in a page whose keys rise after the first: no key before it is above this one.
/// One key of nine is looked at.
fn near_for(page: &PageBytes, key: &[u8]) -> Option<Near>
    ensures { MatchOption result ((node : Node) → IsNode page.now node → ⊥) (IsNearChild page.now key.now) }
{
    let count = count_of(page);
    let mut near = Near {
        k: 0,
        value: 0,
        at: 4,
    };
    let mut last = Lengths::NONE;
    let _ = bounds_in(page, 4, &mut last);
    while near.k + 8 < count {
        let at = match pass(page, near.at, &mut last) {
            None => return None,
            Some(at) => at,
        };
        let bounds = match bounds_in(page, at, &mut last) {
            None => return None,
            Some(bounds) => bounds,
        };
        if is_above(page, at + 3, bounds.value, key) {
            return Some(near);
        }
        near = Near {
            k: near.k + 9,
            value: bounds.value,
            at: bounds.end,
        };
    }
    Some(near)
}

/// The entry whose key is the first above another one: its number, and where it begins and its value begins and ends.
#[derive(Clone, Copy, Drop)]
pub(crate) struct Above {
    pub(crate) k: usize,
    pub(crate) at: usize,
    pub(crate) value: usize,
    pub(crate) end: usize,
}

/// The child that a key belongs to, and the entry after it, if there is one.
#[derive(Clone, Copy, Drop)]
pub(crate) struct WayDown {
    pub(crate) child: u32,
    pub(crate) above: Option<Above>,
}

/// The child that a key belongs to, as `child_for` finds it, with the first entry whose key is above it, in a page whose keys rise
/// after the first, which is not looked at.
#[tactic(auto, using(crate::proofs::Scanning::lies_there))]
pub(crate) fn turn_for(page: &PageBytes, key: &[u8]) -> Result<WayDown, NotANode>
    ensures { MatchResult result (IsWayDown page.now key.now) (λ _. NoWayDown page.now key.now) }
{
    let count = count_of(page);
    let near = match near_for(page, key) {
        None => return Err(NotANode),
        Some(near) => near,
    };
    let mut value = near.value;
    let mut at = near.at;
    let mut last = Lengths::NONE;
    for k in near.k..count {
        let bounds = match bounds_in(page, at, &mut last) {
            None => return Err(NotANode),
            Some(bounds) => bounds,
        };
        if k > 0 && is_above(page, at + 3, bounds.value, key) {
            let child = child_at(page, value, at)?;
            let above = Above {
                k,
                at,
                value: bounds.value,
                end: bounds.end,
            };
            return Ok(WayDown {
                child,
                above: Some(above),
            });
        }
        value = bounds.value;
        at = bounds.end;
    }
    let child = child_at(page, value, at)?;
    Ok(WayDown { child, above: None })
}

/// The way down from a node: a child, and the first key of the children after it, if there are some.
#[derive(Clone, Copy, Drop)]
pub struct Way<'a> {
    pub child: u32,
    pub bound: Option<&'a [u8]>,
}

/// The child that a key belongs to, as `child_for` finds it, with the first key above it, in a page whose keys rise after the
/// first, which is not looked at.
#[tactic(auto, using(crate::proofs::Following::turn_bound, crate::proofs::Scanning::key_there))]
pub fn way_for<'a>(page: &'a PageBytes, key: &[u8]) -> Result<Way<'a>, NotANode>
    ensures { FindsWay page.now key.now result }
{
    let turn = turn_for(page, key)?;
    let child = turn.child;
    match turn.above {
        None => Ok(Way { child, bound: None }),
        Some(above) => {
            let bound = Some(part(page, above.at + 3, above.value));
            Ok(Way { child, bound })
        }
    }
}

/// Where in a page entries begin, and how many they are.
#[derive(Clone, Copy, Drop)]
pub struct Place {
    pub at: usize,
    pub left: usize,
}

/// Where the entries from a key on begin in a page whose keys rise.
#[tactic(auto, using(crate::proofs::Nearing::first_below, crate::proofs::Scanning::lies_there))]
pub fn place_from(page: &PageBytes, key: &[u8]) -> Result<Place, NotANode>
    ensures place { FindsPlace page.now key.now result }
    ensures err { OnErr result ((node : Node) → IsNode page.now node → ⊥) }
{
    let count = count_of(page);
    let near = match row_after(page, RowNear::FIRST, key) {
        None => return Err(NotANode),
        Some(near) => near,
    };
    let mut at = near.at;
    let mut last = Lengths::NONE;
    for k in near.k..count {
        let bounds = match bounds_in(page, at, &mut last) {
            None => return Err(NotANode),
            Some(bounds) => bounds,
        };
        if !is_below(page, at + 3, bounds.value, key) {
            return Ok(Place {
                at,
                left: count - k,
            });
        }
        at = bounds.end;
    }
    Ok(Place { at, left: 0 })
}
