//! Plans that begin with a revision of another plan.
ghost use Rattle.std.specs.Prelude.{◌≡◌, ◌≤◌, ◌*◌, ◌^◌, length, IfOk};
ghost use Rattle.page_store.specs.claim.Transactions.{count_of, txn_pages};
ghost use Rattle.desk_store_rows.specs.Shares.{shared_rows};
ghost use Rattle.desk_store_rows.specs.claim.Tidy.{CountersFit};
ghost use Rattle.desk_store_pages.specs.Looking.{Gathers};
ghost use Rattle.desk_store_pages.specs.Outcomes.{PutsRows};
ghost use Rattle.plan_revisions.specs.claim.PlanRows.{HasPlanNumber};
ghost use Rattle.plan_revisions.specs.PlanRows.{CanRevise};
ghost use Rattle.plan_revisions.specs.PlanLaws.{RowFits};
ghost use Rattle.plan_revisions.specs.Forking.{Forks, HasSource, IsSource, PutsFork};

use crate::change::ChangeOutcome;
use crate::changes::{put_plan, revise_plan};
use crate::laws::{counties_are_chunks, forks_are_made};
use crate::names::append_names;
use crate::plan_laws::plans_are_told;
use crate::plan_reads::find_plan;
use crate::reads::Reading;
use crate::revision_puts::put_names;
use desk_model::geography::Geography;
use desk_model::laws::lists_are_cut;
use desk_model::name::PlanName;
use desk_store_pages::{TreeError, next_numbers};
use desk_store_rows::upkeep::next_is_one;
use desk_store_rows::{Counters, StoredPlan};
use page_store::{Pages, Txn};
use plan_revisions_sweeps::hold_all;
use sector_device::SectorDevice;
use std::alloc::Global;

/// Reads a plan's row, the next numbers, and the numbers of the `counties` chunks of a revision.
fn read_source<D: SectorDevice>(
    alloc: Global,
    txn: &Txn,
    pages: &mut Pages<D>,
    from: &PlanName,
    revision: u32,
    count: usize,
) -> Result<Reading, TreeError>
    requires begun { txn_pages txn.now ≡ count_of pages.old }
    ensures gathers { Gathers (λ m r. IsSource (from.now, revision) count r.row r.next r.kept.items m) (HasSource (from.now, revision) count)
        txn.now pages.old pages.new result }
    ensures fits { IfOk result (λ r. RowFits r.row × CountersFit r.next × (length r.kept.items ≡ count)) }
{
    plans_are_told();
    lists_are_cut();
    let Some(row) = find_plan(txn, pages, from)? else {
        return Err(TreeError::NotAStore);
    };
    let next = next_numbers(txn, pages)?;
    let mut kept = Vec::new(alloc);
    append_names(txn, pages, row.number, revision, count, &mut kept)?;
    if kept.len() != count {
        return Err(TreeError::NotAStore);
    }
    Ok(Reading { row, next, kept })
}

/// Puts the names of the chunks of a plan's next revision, and the plan's row with that of the numbers, of which none is used.
fn put_shared<D: SectorDevice>(
    txn: &mut Txn,
    pages: &mut Pages<D>,
    name: &PlanName,
    row: &StoredPlan,
    next: &Counters,
    numbers: &[u64],
) -> Result<(), TreeError>
    requires begun { txn_pages txn.old ≡ count_of pages.old }
    requires few { length numbers.now ≤ 128 * 2 ^ 8 }
    requires can { CanRevise row.now 0 next.now }
    ensures { PutsRows (shared_rows next.now name.now row.now numbers.now) txn.old txn.new pages.old pages.new result }
{
    put_names(txn, pages, row.number, row.revisions + 1, numbers)?;
    revise_plan(txn, pages, name, row, next, 0)
}

/// Puts the rows of a plan like that of a row, under the number that comes next, with one revision that has these chunks.
fn put_fork<D: SectorDevice>(
    txn: &mut Txn,
    pages: &mut Pages<D>,
    name: &PlanName,
    source: &StoredPlan,
    next: &Counters,
    numbers: &[u64],
) -> Result<(), TreeError>
    requires begun { txn_pages txn.old ≡ count_of pages.old }
    requires few { length numbers.now ≤ 128 * 2 ^ 8 }
    requires fits { CountersFit next.now }
    requires left { HasPlanNumber next.now }
    ensures { PutsFork name.now source.now next.now numbers.now txn.old txn.new pages.old pages.new result }
{
    let row = StoredPlan {
        number: next.plan,
        kind: source.kind,
        districts: source.districts,
        revisions: 0,
    };
    let then = Counters {
        plan: next.plan + 1,
        chunk: next.chunk,
        load: next.load,
    };
    put_plan(txn, pages, name, &row, &then)?;
    hold_all(txn, pages, next.plan, numbers)?;
    put_shared(txn, pages, name, &row, &then, numbers)
}

/// Makes a plan of the kind and the size of another, whose only revision is a revision of that one, from 1: the new plan holds that
/// revision's chunks. It is for the caller to see that the desk has no plan under the name, and room for one more. `NumbersExhausted` comes
/// where the store has no number left for a plan. After an error the transaction can only be abandoned; `NotAStore` comes where the store
/// holds no such desk, or no such revision.
pub fn fork<D: SectorDevice>(
    alloc: Global,
    txn: &mut Txn,
    pages: &mut Pages<D>,
    geography: &Geography,
    name: &PlanName,
    from: &PlanName,
    revision: u32,
) -> Result<ChangeOutcome, TreeError>
    requires begun { txn_pages txn.old ≡ count_of pages.old }
    ensures { Forks geography.now name.now (from.now, revision) txn.old txn.new pages.old pages.new result }
{
    forks_are_made();
    counties_are_chunks();
    next_is_one();
    let _blocks = geography.blocks();
    let _named = name.as_slice();
    let ranges = geography.counties();
    let read = read_source(alloc, txn, pages, from, revision, ranges.len())?;
    if read.next.plan == u64::MAX {
        return Ok(ChangeOutcome::NumbersExhausted);
    }
    put_fork(
        txn,
        pages,
        name,
        &read.row,
        &read.next,
        read.kept.as_slice(),
    )?;
    Ok(ChangeOutcome::Made)
}
