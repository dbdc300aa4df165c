//! Takes a row out of a leaf.
ghost use Rattle.std.specs.Prelude.{◌≡◌, ◌<◌, ◌+◌, List, ◌∷◌, OnOk, OnErr, IfOk, IfErr, IfSome, IfNone};
ghost use Rattle.page_btree.specs.node.claim.Entries.{Entry};
ghost use Rattle.page_btree.specs.node.Walking.{IsAhead};
ghost use Rattle.page_btree.specs.gets.Seeking.{bound_in};
ghost use Rattle.page_btree.specs.gets.declared.error.TreeError.TheVariants.{NotAStore};
ghost use Rattle.btree_scan.specs.Scanning.{IsTakenRow};
ghost use Rattle.btree_scan.specs.Parts.{row_at};

use crate::parts::Parts;
use page_btree::{Leaf, Lengths, PageBytes, SmallBytes, TreeError, bounds_in};

/// A row, held in place.
#[derive(Drop)]
pub struct Row {
    pub key: SmallBytes,
    pub value: SmallBytes,
}

impl Row {
    ghost use Rattle.std.specs.Prelude.{◌≡◌, []};

    /// A row without bytes.
    pub fn empty() -> Self
        ensures key { result.key ≡ [] }
        ensures value { result.value ≡ [] }
    {
        Row {
            key: SmallBytes::empty(),
            value: SmallBytes::empty(),
        }
    }
}

/// Copies the next row of a leaf and moves past it.
pub(crate) fn take_row(
    page: &PageBytes,
    leaf: &mut Leaf,
    last: &mut Lengths,
) -> Result<Parts, TreeError>
    requires { 0 < leaf.old.left }
    ensures taken { (e : Entry) (es : List Entry) → IsAhead page.now leaf.old.at (e ∷ es)
        → IfOk result (λ parts. IsTakenRow e es (row_at page.now parts) page.now leaf.new.at) }
    ensures left { OnOk result (leaf.new.left + 1 ≡ leaf.old.left) }
    ensures more { leaf.new.more ≡ leaf.old.more }
    ensures bound { bound_in leaf.new ≡ bound_in leaf.old }
    ensures err { IfErr result (λ e. e ≡ NotAStore) }
    ensures refused { OnErr result ((e : Entry) (es : List Entry) → IsAhead page.now leaf.old.at (e ∷ es) → ⊥) }
{
    match parts_at(page, &mut leaf.at, &mut leaf.left, last) {
        None => Err(TreeError::NotAStore),
        Some(parts) => Ok(parts),
    }
}

/// Where the row at a place lies, if one does. The place is then after it, and one less is left.
#[tactic(auto, using(crate::proofs::Leaves::row_lies))]
pub(crate) fn parts_at(
    page: &PageBytes,
    at: &mut usize,
    left: &mut usize,
    last: &mut Lengths,
) -> Option<Parts>
    requires { 0 < left.old }
    ensures taken { (e : Entry) (es : List Entry) → IsAhead page.now at.old (e ∷ es)
        → IfSome result (λ parts. IsTakenRow e es (row_at page.now parts) page.now at.new) }
    ensures left { IfSome result (λ parts. left.new + 1 ≡ left.old) }
    ensures same_at { IfNone result (at.new ≡ at.old) }
    ensures same_left { IfNone result (left.new ≡ left.old) }
    ensures refused { IfNone result ((e : Entry) (es : List Entry) → IsAhead page.now at.old (e ∷ es) → ⊥) }
{
    match bounds_in(page, *at, last) {
        None => None,
        Some(bounds) => {
            let key = *at + 3;
            *at = bounds.end;
            *left -= 1;
            Some(Parts {
                key,
                value: bounds.value,
                end: bounds.end,
            })
        }
    }
}
