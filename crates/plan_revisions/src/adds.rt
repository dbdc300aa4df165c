//! Plans that get one revision more.
ghost use Rattle.std.specs.Prelude.{◌≡◌, length};
ghost use Rattle.desk_model.specs.Ranges.{ranges_of};
ghost use Rattle.page_store.specs.claim.Transactions.{count_of, txn_pages};
ghost use Rattle.plan_revisions.specs.Outcomes.{AddsRevision};

use crate::change::ChangeOutcome;
use crate::counties::{assign_numbers, count_changes};
use crate::laws::{counties_are_chunks, desks_are_added};
use crate::reads::read_plan;
use crate::revisions::put_revision;
use desk_model::geography::Geography;
use desk_model::name::PlanName;
use desk_store_catalogue::Districts;
use desk_store_catalogue::laws::ranges_are_within;
use desk_store_pages::TreeError;
use desk_store_rows::upkeep::next_is_one;
use page_store::{Pages, Txn};
use sector_device::SectorDevice;
use std::alloc::Global;

/// Adds a revision to a plan: the districts of all blocks. `changes` says of each county of the geography whether it changes from the
/// plan's last revision, which is for the caller to know: one that doesn't takes no new chunk. `NumbersExhausted` comes where the store has
/// no number left for each chunk. After an error the transaction can only be abandoned; `NotAStore` comes where the store holds no such
/// plan, or one that has no room for a revision.
pub fn add<D: SectorDevice>(
    alloc: Global,
    txn: &mut Txn,
    pages: &mut Pages<D>,
    geography: &Geography,
    changes: &[bool],
    name: &PlanName,
    next: &Districts,
) -> Result<ChangeOutcome, TreeError>
    requires begun { txn_pages txn.old ≡ count_of pages.old }
    requires each { length changes.now ≡ length (ranges_of geography.now) }
    requires next { length next.now ≡ length geography.now.blocks }
    ensures { AddsRevision geography.now changes.now name.now next.now txn.old txn.new pages.old pages.new result }
{
    desks_are_added();
    counties_are_chunks();
    next_is_one();
    ranges_are_within();
    next.districts_fit();
    let _blocks = geography.blocks();
    let ranges = geography.counties();
    let read = read_plan(alloc, txn, pages, name, ranges.len())?;
    let used = count_changes(changes);
    let first = read.next.chunk;
    if used > u64::MAX - first {
        return Ok(ChangeOutcome::NumbersExhausted);
    }
    let Ok(numbers) = assign_numbers(alloc, changes, read.kept.as_slice(), first) else {
        return Err(TreeError::Memory);
    };
    put_revision(
        alloc,
        txn,
        pages,
        ranges,
        changes,
        name,
        next,
        &read.row,
        &read.next,
        numbers.as_slice(),
        used,
    )?;
    Ok(ChangeOutcome::Made)
}
