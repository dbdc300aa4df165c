//! Puts the rows of a revision.
ghost use Rattle.std.specs.Prelude.{◌≡◌, ◌≤◌, ◌*◌, ◌^◌, length};
ghost use Rattle.page_store.specs.claim.Transactions.{count_of, txn_pages};
ghost use Rattle.plan_revisions.specs.PlanRows.{CanRevise};
ghost use Rattle.plan_revisions.specs.Counties.{count_new, AreDrafted};
ghost use Rattle.plan_revisions.specs.Outcomes.{AddsRows};

use crate::changes::revise_plan;
use crate::chunks::put_changes;
use crate::revision_puts::put_names;
use desk_model::name::PlanName;
use desk_model::ranges::CountyRange;
use desk_store_catalogue::Districts;
use desk_store_pages::TreeError;
use desk_store_rows::{Counters, StoredPlan};
use page_store::{Pages, Txn};
use plan_revisions_sweeps::put_holdings;
use sector_device::SectorDevice;
use std::alloc::Global;

/// Puts the rows of one more revision of the plan with this row: the chunks of the counties that
/// change, under the next numbers, the rows by which the plan holds them, the names of all chunks,
/// and the rows of the plan and of the numbers.
pub fn put_revision<D: SectorDevice>(
    alloc: Global,
    txn: &mut Txn,
    pages: &mut Pages<D>,
    ranges: &[CountyRange],
    changes: &[bool],
    name: &PlanName,
    next: &Districts,
    row: &StoredPlan,
    counters: &Counters,
    numbers: &[u64],
    used: u64,
) -> Result<(), TreeError>
    requires begun { txn_pages txn.old ≡ count_of pages.old }
    requires drafted { AreDrafted ranges.now changes.now next.now }
    requires few { length numbers.now ≤ 128 * 2 ^ 8 }
    requires used { used ≡ count_new changes.now }
    requires can { CanRevise row.now used counters.now }
    ensures { AddsRows name.now row.now counters.now changes.now next.now ranges.now numbers.now used txn.old txn.new pages.old pages.new result }
{
    put_changes(alloc, txn, pages, ranges, changes, next, counters.chunk)?;
    put_holdings(txn, pages, row.number, counters.chunk, used)?;
    put_names(txn, pages, row.number, row.revisions + 1, numbers)?;
    revise_plan(txn, pages, name, row, counters, used)
}
