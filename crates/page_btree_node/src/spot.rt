//! Where a row stands in a page's bytes, or would stand.
ghost use Rattle.std.specs.Prelude.{◌≤◌, MatchOption, MatchResult};
ghost use Rattle.page_btree_node.specs.Searching.{NoneFrom};
ghost use Rattle.page_btree_node.specs.Spots.{IsEndFrom, IsLater, IsSpotFrom, NoneEnds};

use crate::entry::{Lengths, bounds_in};
use crate::passing::pass;
use crate::scan::NotANode;
use crate::search::{RowNear, compare_part, count_of, row_after};
use crate::sizes::PageBytes;
use std::cmp::Ordering;

/// Where the entry of a key begins and ends, or where it would begin.
#[derive(Clone, Copy, Drop)]
pub(crate) struct Spot {
    pub(crate) at: usize,
    pub(crate) end: usize,
    /// The number of entries before it.
    pub(crate) index: usize,
    pub(crate) found: bool,
}

/// The spot of a key in a page whose keys rise, where each key before a place is known to be below this one.
#[tactic(auto, using(crate::proofs::Scanning::lies_there))]
pub(crate) fn spot_after(page: &PageBytes, from: RowNear, key: &[u8]) -> Result<Spot, NotANode>
    ensures { MatchResult result (IsSpotFrom page.now key.now from) (λ _. NoneFrom page.now key.now from) }
{
    let count = count_of(page);
    let near = match row_after(page, from, key) {
        None => return Err(NotANode),
        Some(near) => near,
    };
    let mut at = near.at;
    let mut last = Lengths::NONE;
    for k in near.k..count {
        let bounds = match bounds_in(page, at, &mut last) {
            None => return Err(NotANode),
            Some(bounds) => bounds,
        };
        match compare_part(page, at + 3, bounds.value, key) {
            Ordering::Less => at = bounds.end,
            Ordering::Greater => {
                return Ok(Spot {
                    at,
                    end: at,
                    index: k,
                    found: false,
                });
            }
            Ordering::Equal => {
                return Ok(Spot {
                    at,
                    end: bounds.end,
                    index: k,
                    found: true,
                });
            }
        }
    }
    Ok(Spot {
        at,
        end: at,
        index: count,
        found: false,
    })
}

/// Passes over entries from a place on, eight at a time, while at least eight are left.
fn passed_from(page: &PageBytes, from: RowNear) -> Option<RowNear>
    requires { from.at ≤ 4096 }
    ensures { MatchOption result (NoneEnds page.now from.k from.at) (IsLater page.now from) }
{
    let count = count_of(page);
    let mut near = from;
    let mut last = Lengths::NONE;
    let _ = bounds_in(page, from.at, &mut last);
    while near.k < count && count - near.k >= 8 {
        let at = match pass(page, near.at, &mut last) {
            None => return None,
            Some(at) => at,
        };
        near = RowNear { k: near.k + 8, at };
    }
    Some(near)
}

/// Where the last entry of a page ends, from where one of them begins on.
#[tactic(auto, using(crate::proofs::Scanning::lies_there))]
pub(crate) fn end_from(page: &PageBytes, index: usize, at: usize) -> Result<usize, NotANode>
    requires { at ≤ 4096 }
    ensures { MatchResult result (IsEndFrom page.now index at) (λ _. NoneEnds page.now index at) }
{
    let near = match passed_from(page, RowNear { k: index, at }) {
        None => return Err(NotANode),
        Some(near) => near,
    };
    let count = count_of(page);
    let mut end = near.at;
    let mut last = Lengths::NONE;
    for k in near.k..count {
        let bounds = match bounds_in(page, end, &mut last) {
            None => return Err(NotANode),
            Some(bounds) => bounds,
        };
        end = bounds.end;
    }
    Ok(end)
}
