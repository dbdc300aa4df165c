//! How much room commands would need.
ghost use Rattle.std.specs.Prelude.{◌≡◌, ◌⊎◌, ◌↔◌, ◌*◌, ◌<◌, ◌≤◌, ◌^◌, ℕ, IsTrue, length, get_or, IfOk};
ghost use Rattle.std.specs.Option.{option_copied};
ghost use Rattle.desk_model.specs.Ranges.{ranges_of};
ghost use Rattle.inspect_command.specs.Needs.{all_change, one_changes, no_cut, IsLargest, IsNeed, AreNeeded, AreNeededBy};

use desk_model::geography::Geography;
use desk_model::ranges::CountyRange;
use desk_store_catalogue::{fork_rows, revision_rows};
use std::alloc::{AllocError, Global};

/// Free pages, and pages of the journal, that each row of a command asks for.
const ROW_PAGES: u128 = 13;

/// The room that a command needs, compared with the free pages.
#[derive(Clone, Copy)]
pub struct Need {
    /// The number of free pages and of journal pages that it needs.
    pub pages: u128,
    /// There are too few of the ones or the others.
    pub is_full: bool,
    /// The number of free pages that are missing, or left.
    pub short: u128,
    pub left: u128,
}

/// The numbers of rows of a revision in which each county changes, of one in which only the largest
/// county changes, and of a fork.
#[derive(Clone, Copy)]
pub struct RowsNeeded {
    pub revision: usize,
    pub patch: usize,
    pub fork: usize,
}

/// Whether there are too few free pages, or too few pages of the journal.
fn is_short(free: u32, journal: u32, pages: u128) -> bool
    ensures { IsTrue result ↔ ((free < pages) ⊎ (journal < pages)) }
{
    (free as u128) < pages || (journal as u128) < pages
}

/// Returns the room for a number of rows.
pub(crate) fn need_of(free: u32, journal: u32, rows: usize) -> Need
    ensures { IsNeed free journal rows result }
{
    let pages = (rows as u128) * ROW_PAGES;
    Need {
        pages,
        is_full: is_short(free, journal, pages),
        short: pages.saturating_sub(free as u128),
        left: (free as u128).saturating_sub(pages),
    }
}

/// The place of a county with the most blocks.
fn largest(ranges: &[CountyRange]) -> usize
    requires { 0 < length ranges.now }
    ensures { IsLargest ranges.now result }
{
    let mut place = 0;
    for next in 1..ranges.len() {
        if ranges[place].count < ranges[next].count {
            place = next;
        }
    }
    place
}

/// Changes of `counties` counties of which only one changes.
fn only(alloc: Global, counties: usize, place: usize) -> Result<Vec<bool>, AllocError>
    requires { place < counties }
    ensures { IfOk result (λ changes. changes.items ≡ one_changes counties place) }
{
    let mut changes = vec![in alloc; false; counties]?;
    changes[place] = true;
    Ok(changes)
}

/// Changes of `counties` counties that all change.
fn every(alloc: Global, counties: usize) -> Result<Vec<bool>, AllocError>
    ensures { IfOk result (λ changes. changes.items ≡ all_change counties) }
{
    vec![in alloc; true; counties]
}

/// The rows that commands write where the geography has these counties.
fn needed_by(alloc: Global, ranges: &[CountyRange]) -> Result<RowsNeeded, AllocError>
    requires some { 0 < length ranges.now }
    requires few { length ranges.now < 2 ^ 32 }
    ensures { IfOk result (λ needed. AreNeededBy ranges.now needed) }
{
    let whole = every(alloc, ranges.len())?;
    let patched = only(alloc, ranges.len(), largest(ranges))?;
    Ok(RowsNeeded {
        revision: revision_rows(ranges, whole.as_slice()),
        patch: revision_rows(ranges, patched.as_slice()),
        fork: fork_rows(ranges.len()),
    })
}

/// The rows that commands write: none without a geography, which they are refused for. And how many counties there are.
pub(crate) fn needed(
    alloc: Global,
    geography: Option<&Geography>,
) -> Result<(RowsNeeded, usize), AllocError>
    ensures { IfOk result (λ told. AreNeeded (option_copied geography.entry) told.0 told.1) }
{
    match geography {
        None => Ok((
            RowsNeeded {
                revision: 0,
                patch: 0,
                fork: 0,
            },
            0,
        )),
        Some(geography) => {
            let _blocks = geography.blocks();
            let ranges = geography.counties();
            let needed = needed_by(alloc, ranges)?;
            Ok((needed, ranges.len()))
        }
    }
}
