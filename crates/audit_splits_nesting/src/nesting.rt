//! Districts that aren't nested in a companion plan.
ghost use Rattle.std.specs.Prelude.{◌≡◌, ◌≤◌, ◌+◌, ◌^◌, length, IfOk, IsTrue, ◌↔◌};
ghost use Rattle.audit_splits_nesting.specs.claim.Exactly.{AreExactly};
ghost use Rattle.audit_splits_nesting.specs.claim.Nested.{IsIn, BreaksNesting};
ghost use Rattle.audit_splits_nesting.specs.Marks.{AreUnseen, AreMarks, one_part, value_at, IsUnnested, IsUnnestedAt};

use crate::mark::{GroupMark, unseen};
use std::alloc::{AllocError, Global};

/// Marks the districts with the companion's values.
fn mark_districts(plan: &[u16], companion: &[u16], marks: &mut [GroupMark])
    requires beside { length companion.now ≡ length plan.now }
    requires none { AreUnseen (length marks.old) marks.old }
    ensures { AreMarks (IsIn plan.now) one_part (value_at companion.now) (length plan.now) (length marks.old) marks.new }
{
    for (i, district) in plan.iter().enumerate() {
        let district = *district as usize;
        if district < marks.len() {
            marks[district].note(0, companion[i]);
        }
    }
}

/// Whether a district's blocks have different values, or the value 0.
fn is_unnested(mark: &GroupMark) -> bool
    ensures { IsTrue result ↔ IsUnnested mark.now }
{
    match mark {
        GroupMark::Unseen => false,
        GroupMark::Seen { value, .. } => *value == 0,
        GroupMark::Divided => true,
    }
}

/// Returns the districts from 1 on whose blocks have more than one value, rising.
fn unnested(alloc: Global, marks: &[GroupMark]) -> Result<Vec<u16>, AllocError>
    requires { length marks.now ≤ 2 ^ 16 }
    ensures { IfOk result (λ v. AreExactly (IsUnnestedAt marks.now) v.items) }
{
    let mut districts = Vec::new(alloc);
    for (d, mark) in marks.iter().enumerate() {
        if d > 0 && is_unnested(mark) {
            districts.push(d as u16)?;
        }
    }
    Ok(districts)
}

/// The districts from 1 to `count` that have no one district of the companion, not 0, for all their blocks, rising:
/// Iowa Code 42.4(6). A district without a block is nested.
pub fn nesting_breaks(
    alloc: Global,
    count: u16,
    plan: &[u16],
    companion: &[u16],
) -> Result<Vec<u16>, AllocError>
    requires { length companion.now ≡ length plan.now }
    ensures { IfOk result (λ v. AreExactly (BreaksNesting count plan.now companion.now) v.items) }
{
    let mut marks = unseen(alloc, count as usize + 1)?;
    mark_districts(plan, companion, marks.as_mut_slice());
    unnested(alloc, marks.as_slice())
}
