//! Adds a revision by the districts that it has.
ghost use Rattle.std.specs.Prelude.{◌≡◌, length, IfSome};
ghost use Rattle.std.specs.Option.{option_copied};
ghost use Rattle.desk_store_catalogue.specs.Patches.{overlaid};
ghost use Rattle.page_store.specs.claim.Transactions.{count_of, txn_pages};
ghost use Rattle.plan_revisions.specs.Outcomes.{AddsNext};

use crate::adds::add;
use crate::change::ChangeOutcome;
use baf_text::listed::Listed;
use desk_model::geography::Geography;
use desk_model::name::PlanName;
use desk_store_catalogue::laws::ranges_are_within;
use desk_store_catalogue::{Districts, Span, changed_counties, overlay};
use desk_store_pages::TreeError;
use page_store::{Pages, Txn};
use sector_device::SectorDevice;
use std::alloc::Global;

/// Adds a revision that assigns each block, `next`, after the plan's last revision, if it has any.
/// The caller knows the last one. A county in which the two do not differ keeps its chunk. Errors as
/// from `add`; `Memory` also if the list of counties could not grow.
pub fn add_whole<D: SectorDevice>(
    alloc: Global,
    txn: &mut Txn,
    pages: &mut Pages<D>,
    geography: &Geography,
    name: &PlanName,
    last: Option<&Districts>,
    next: &Districts,
) -> Result<ChangeOutcome, TreeError>
    requires begun { txn_pages txn.old ≡ count_of pages.old }
    requires last { IfSome (option_copied last) (λ l. length l ≡ length geography.now.blocks) }
    requires next { length next.now ≡ length geography.now.blocks }
    ensures { AddsNext geography.now name.now (option_copied last.entry) next.now txn.old txn.new pages.old pages.new result }
{
    ranges_are_within();
    let ranges = geography.counties();
    let all = Span {
        first: 0,
        end: geography.blocks().len(),
    };
    let Ok(changes) = changed_counties(alloc, ranges, last, next, all) else {
        return Err(TreeError::Memory);
    };
    add(alloc, txn, pages, geography, changes.as_slice(), name, next)
}

/// Adds a revision in which the listed blocks have their districts, and the others keep those of the
/// plan's last revision, or 0 if it has none. The caller knows the last one, and lists counties as a
/// whole. Errors as from `add_whole`; `Memory` also if the districts could not be laid.
pub fn add_counties<D: SectorDevice>(
    alloc: Global,
    txn: &mut Txn,
    pages: &mut Pages<D>,
    geography: &Geography,
    name: &PlanName,
    last: Option<&Districts>,
    listed: &Listed,
) -> Result<ChangeOutcome, TreeError>
    requires begun { txn_pages txn.old ≡ count_of pages.old }
    requires last { IfSome (option_copied last) (λ l. length l ≡ length geography.now.blocks) }
    requires listed { length listed.now ≡ length geography.now.blocks }
    ensures { AddsNext geography.now name.now (option_copied last.entry) (overlaid listed.now (option_copied last.entry))
        txn.old txn.new pages.old pages.new result }
{
    let Ok(next) = overlay(alloc, listed, last) else {
        return Err(TreeError::Memory);
    };
    add_whole(alloc, txn, pages, geography, name, last, &next)
}
