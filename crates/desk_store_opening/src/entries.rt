//! Reads plans.
ghost use Rattle.std.specs.Prelude.{◌≡◌, ◌≤◌, ◌<◌, ◌+◌, ◌*◌, ◌^◌, length, replicate, IfOk, IfErr};
ghost use Rattle.desk_model.specs.Ranges.{ranges_of};
ghost use Rattle.desk_model.specs.claim.Step.{revision_limit};
ghost use Rattle.page_store.specs.claim.Transactions.{count_of, txn_pages};
ghost use Rattle.desk_store_rows.specs.Changes.{plan_row_of, with_revision};
ghost use Rattle.page_btree.specs.gets.declared.error.TreeError.TheVariants.{Memory};
ghost use Rattle.desk_store_pages.specs.claim.Desks.{AreWithin};
ghost use Rattle.desk_store_opening.specs.Reading.{AreAllWithin, AreRevisionsShown, BecomesKnown, BecomesLast, Reads, IsAfter};
ghost use Rattle.desk_store_opening.specs.Reading.{IsLast, IsNext, IsNextRead, IsPlanRow, IsRevisionRead, IsWhole};

use crate::counties::lay_counties;
use desk_model::geography::Geography;
use desk_model::name::PlanName;
use desk_model::size::PlanSize;
use desk_store_catalogue::{Districts, Entry, REVISION_LIMIT};
use desk_store_pages::TreeError;
use desk_store_rows::StoredPlan;
use page_store::{Pages, Txn};
use plan_revisions::append_names;
use sector_device::SectorDevice;
use std::alloc::Global;

/// Reads a revision of a plan. Its counties are laid over `before`, the districts of the revision
/// before, whose chunks have the numbers in `last`; `last` gets the numbers of this one. No block
/// may be in a district above n.
fn read_next<D: SectorDevice>(
    alloc: Global,
    txn: &Txn,
    pages: &mut Pages<D>,
    geography: &Geography,
    n: u16,
    last: &mut Vec<u64>,
    before: Districts,
    plan: u64,
    revision: u32,
) -> Result<Districts, TreeError>
    requires begun { txn_pages txn.now ≡ count_of pages.old }
    requires whole { length before ≡ length geography.now.blocks }
    ensures whole { IfOk result (λ next. length next ≡ length geography.now.blocks) }
    ensures within { AreWithin n before → IfOk result (AreWithin n) }
    ensures reads { Reads (λ m next. IsRevisionRead plan revision (ranges_of geography.now) last.old.items before last.new.items m next
        × BecomesKnown geography.now n plan revision last.old.items before last.new.items m next)
        (IsNext geography.now n plan revision last.old.items before) (λ districts. districts) txn.now pages.old pages.new result }
{
    let ranges = geography.counties();
    let Ok(mut names) = Vec::with_capacity(alloc, ranges.len()) else {
        return Err(TreeError::Memory);
    };
    append_names(txn, pages, plan, revision, ranges.len(), &mut names)?;
    if names.len() != ranges.len() {
        return Err(TreeError::NotAStore);
    }
    let next = lay_counties(
        alloc,
        txn,
        pages,
        n,
        ranges,
        names.as_slice(),
        last.as_slice(),
        before,
    )?;
    *last = names;
    Ok(next)
}

/// A list of `count` unassigned blocks.
fn unassigned(alloc: Global, count: usize) -> Result<Districts, TreeError>
    ensures zeros { IfOk result (λ districts. districts ≡ replicate count 0) }
    ensures err { IfErr result (λ e. e ≡ Memory) }
{
    match Districts::unassigned(alloc, count) {
        Ok(districts) => Ok(districts),
        Err(_) => Err(TreeError::Memory),
    }
}

/// What a plan's next revision is laid over: its last one, or blocks without a district before the first.
fn districts_before(
    alloc: Global,
    geography: &Geography,
    entry: &Entry,
) -> Result<Districts, TreeError>
    requires whole { IsWhole geography.now entry.now.1 }
    ensures last { IfOk result (λ districts. IsLast entry.now.1 districts) }
    ensures whole { IfOk result (λ districts. length districts ≡ length geography.now.blocks) }
    ensures within { AreAllWithin entry.now.1 → IfOk result (AreWithin entry.now.1.n) }
    ensures err { IfErr result (λ e. e ≡ Memory) }
{
    let Some(last) = entry.revision(entry.count()) else {
        return unassigned(alloc, geography.blocks().len());
    };
    match last.share(alloc) {
        Ok(districts) => Ok(districts),
        Err(_) => Err(TreeError::Memory),
    }
}

/// Returns an entry's plan with one more revision. `last` has the numbers of the last revision's
/// chunks, and then of this one's.
fn with_next<D: SectorDevice>(
    alloc: Global,
    txn: &Txn,
    pages: &mut Pages<D>,
    geography: &Geography,
    last: &mut Vec<u64>,
    entry: &Entry,
    plan: u64,
    revision: u32,
) -> Result<Entry, TreeError>
    requires begun { txn_pages txn.now ≡ count_of pages.old }
    requires room { length entry.now.1.revisions < revision_limit }
    requires whole { IsWhole geography.now entry.now.1 }
    ensures named { IfOk result (λ next. next.0 ≡ entry.now.0) }
    ensures sized { IfOk result (λ next. (next.1.kind ≡ entry.now.1.kind) × (next.1.n ≡ entry.now.1.n)) }
    ensures longer { IfOk result (λ next. length next.1.revisions ≡ length entry.now.1.revisions + 1) }
    ensures whole { IfOk result (λ next. IsWhole geography.now next.1) }
    ensures within { AreAllWithin entry.now.1 → IfOk result (λ next. AreAllWithin next.1) }
    ensures reads { Reads (λ m next. IsNextRead plan revision (ranges_of geography.now) last.old.items entry.now.1 last.new.items m next.1
        × BecomesLast geography.now plan revision last.old.items entry.now.1 last.new.items m next.1)
        (IsAfter geography.now plan revision last.old.items entry.now.1)
        (λ districts. (entry.now.0, with_revision entry.now.1 districts)) txn.now pages.old pages.new result }
{
    let before = districts_before(alloc, geography, entry)?;
    let next = read_next(
        alloc,
        txn,
        pages,
        geography,
        entry.n(),
        last,
        before,
        plan,
        revision,
    )?;
    match entry.with_revision(alloc, next) {
        Ok(with) => Ok(with),
        Err(_) => Err(TreeError::Memory),
    }
}

/// Returns the plan of a name and row, with all its revisions. `NotAStore` comes if the store has
/// no such plan, or if a block is in a district that the plan lacks, `Memory` if a growth was
/// refused.
#[tactic(auto, using(crate::proofs::Revisions::none_last))]
pub fn read_entry<D: SectorDevice>(
    alloc: Global,
    txn: &Txn,
    pages: &mut Pages<D>,
    geography: &Geography,
    name: PlanName,
    row: &StoredPlan,
) -> Result<Entry, TreeError>
    requires begun { txn_pages txn.now ≡ count_of pages.old }
    ensures named { IfOk result (λ entry. entry.0 ≡ name) }
    ensures whole { IfOk result (λ entry. IsWhole geography.now entry.1) }
    ensures within { IfOk result (λ entry. AreAllWithin entry.1) }
    ensures row { IfOk result (λ entry. row.now ≡ plan_row_of row.now.number entry.1) }
    ensures reads { Reads (λ m entry. AreRevisionsShown row.now.number (ranges_of geography.now) m entry.1)
        (IsPlanRow geography.now name row.now) (λ plan. (name, plan)) txn.now pages.old pages.new result }
{
    if row.revisions > REVISION_LIMIT {
        return Err(TreeError::NotAStore);
    }
    let Some(size) = PlanSize::read(row.kind, row.districts as u64) else {
        return Err(TreeError::NotAStore);
    };
    let mut entry = Entry::new(name, size);
    let mut last = Vec::new(alloc);
    for before in 0..row.revisions {
        entry = with_next(
            alloc,
            txn,
            pages,
            geography,
            &mut last,
            &entry,
            row.number,
            before + 1,
        )?;
    }
    Ok(entry)
}
