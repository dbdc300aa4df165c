//! A page's entries, read in one pass.
ghost use Rattle.std.specs.Prelude.{◌≡◌, MatchOption};
ghost use Rattle.std.proofs.Common.{get_or};
ghost use Rattle.page_btree_node.specs.claim.Node.{Node, IsNode};
ghost use Rattle.page_btree_node.specs.Held.{HasEnds};

use crate::entry::{Lengths, bounds_in};
use crate::sizes::PageBytes;

/// The bytes of a page are not a node.
#[derive(Clone, Copy, Debug, Drop, PartialEq, Eq)]
pub struct NotANode;

/// Returns the number of entries of a page and writes where they end, if the page holds a node.
#[tactic(auto, using(crate::proofs::Editing::count_small, crate::proofs::Scanning::scanned_no_child))]
pub fn scan(page: &PageBytes, ends: &mut [u16; 1366]) -> Option<usize>
    requires { get_or ends.old 0 0 ≡ 4 }
    ensures first { get_or ends.new 0 0 ≡ 4 }
    ensures scanned { MatchOption result ((node : Node) → IsNode page.now node → ⊥) (HasEnds page.now ends.new) }
{
    let level = page[0];
    let count = 256 * page[2] as usize + page[3] as usize;
    if level > 5 || count > 1364 {
        return None;
    }
    let mut at = 4;
    let mut last = Lengths::NONE;
    for k in 0..count {
        let bounds = bounds_in(page, at, &mut last)?;
        if level > 0 && bounds.end - bounds.value != 4 {
            return None;
        }
        at = bounds.end;
        ends[k + 1] = at as u16;
    }
    Some(count)
}
