//! The counties that a revision changes.
ghost use Rattle.std.specs.Prelude.{◌≡◌, ◌⊎◌, ◌≤◌, ◌+◌, true, IfOk};
ghost use Rattle.std.specs.Option.{option_copied};
ghost use Rattle.desk_store_catalogue.specs.Cutting.{AreComparable, AreWithin, changes_in, is_changed as is_changed_between};

use desk_model::ranges::CountyRange;
use desk_store_lists::Districts;
use std::alloc::{AllocError, Global};

/// Places of blocks, from the first one up to the end.
#[derive(Clone, Copy)]
pub struct Span {
    pub first: usize,
    pub end: usize,
}

/// Whether all of a county's places lie outside of a span.
fn is_outside(range: CountyRange, span: Span) -> bool
    ensures { result ≡ true → (range.first + range.count ≤ span.first) ⊎ (span.end ≤ range.first) }
{
    let first = range.first as usize;
    first + range.count as usize <= span.first || span.end <= first
}

/// Whether a county changes: its districts differ from the last revision's, or there is none.
fn is_changed(range: CountyRange, last: Option<&Districts>, new: &Districts, span: Span) -> bool
    requires { AreComparable (λ n. range.first + range.count ≤ n) (option_copied last) new.now span }
    ensures { result ≡ is_changed_between (option_copied last.entry) new.now range }
{
    let Some(last) = last else {
        return true;
    };
    if is_outside(range, span) {
        return false;
    }
    !last.is_same_in(new, range.first as usize, range.count as usize)
}

/// Whether each county changes. The lists have a district for each block, and outside of the span they are known to be the same:
/// only counties that have places in it are compared.
pub fn changed_counties(
    alloc: Global,
    ranges: &[CountyRange],
    last: Option<&Districts>,
    new: &Districts,
    span: Span,
) -> Result<Vec<bool>, AllocError>
    requires { AreComparable (λ n. AreWithin n ranges.now) (option_copied last) new.now span }
    ensures { IfOk result (λ changes. changes.items ≡ changes_in (option_copied last.entry) new.now ranges.now) }
{
    let mut changes = Vec::with_capacity(alloc, ranges.len())?;
    for range in ranges {
        changes.push(is_changed(*range, last, new, span))?;
    }
    Ok(changes)
}
