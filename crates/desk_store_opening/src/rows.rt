//! Reads plans out of the rows that a scan takes.
ghost use Rattle.std.specs.Prelude.{◌≡◌, ◌<◌, ◌^◌, ℕ, List, Some, IfOk, OnOk, MatchOption};
ghost use Rattle.std.specs.BTreeMap.{IsEmpty};
ghost use Rattle.std.specs.FinMap as map_of;
ghost use Rattle.desk_model.specs.Ranges.{ranges_of};
ghost use Rattle.desk_model.specs.claim.Name.{IsPlanName};
ghost use Rattle.page_store.specs.claim.Transactions.{count_of, txn_pages};
ghost use Rattle.desk_store_rows.specs.claim.Keys.{key_of, named};
ghost use Rattle.desk_store_catalogue.specs.Kept.{AreWhole};
ghost use Rattle.plan_revisions.specs.PlanLaws.{RowFits};
ghost use Rattle.desk_store_opening.specs.Reading.{Reads};
ghost use Rattle.desk_store_opening.specs.Opening.{AreCounts, ArePlans, ArePlansApart, ArePlansShown, IsAdded};
ghost use Rattle.desk_store_opening.specs.Opening.{IsFreshPlan, IsListed, IsNoted, IsNewPlan, IsNotGone};

use crate::marks::refuse_gone;
use crate::numbers::note_number;
use crate::plans::add_plan;
use btree_scan::{Row, row_limit, scan};
use desk_model::geography::Geography;
use desk_model::name::PlanName;
use desk_store_catalogue::Plans;
use desk_store_catalogue::catalogue::PLAN_LIMIT;
use desk_store_pages::TreeError;
use desk_store_rows::{Key, RowKey, StoredPlan, read_plan};
use page_store::{Pages, Txn};
use plan_revisions::plan_laws::plans_are_told;
use sector_device::SectorDevice;
use std::alloc::Global;
use std::collections::BTreeMap;

/// A number of 64 bits is in its range.
pub(crate) fn number_fits(number: u64)
    ensures { number < 2 ^ 64 }
{}

/// A number of districts is in its range.
fn districts_fit(districts: u16)
    ensures { districts < 2 ^ 16 }
{}

/// A number of revisions is in its range.
fn revisions_fit(revisions: u32)
    ensures { revisions < 2 ^ 32 }
{}

/// The numbers of a plan's row are in their ranges.
pub fn row_fits(row: StoredPlan)
    ensures { RowFits row }
{
    number_fits(row.number);
    districts_fit(row.districts);
    revisions_fit(row.revisions);
}

/// Returns the name of the plan whose row has this key; `None` for any other key.
pub fn name_in(key: &[u8]) -> Option<PlanName>
    ensures { MatchOption result ((name : List ℕ) → IsPlanName name → key.now ≡ key_of (named name) → ⊥) (λ name. key.now ≡ key_of (named name)) }
{
    match RowKey::read(key) {
        Some(RowKey::Named { name }) => PlanName::read(name),
        _ => None,
    }
}

/// These plans with the one whose row was taken, by its name.
fn add_named<D: SectorDevice>(
    alloc: Global,
    txn: &Txn,
    pages: &mut Pages<D>,
    geography: &Geography,
    plans: &Plans,
    row: &Row,
) -> Result<Plans, TreeError>
    requires begun { txn_pages txn.now ≡ count_of pages.old }
    ensures whole { IfOk result (λ all. AreWhole (Some geography.now) plans.now → AreWhole (Some geography.now) all) }
    ensures added { IfOk result (λ all. IsAdded plans.now row.now all) }
    ensures reads { Reads (IsListed plans.now row.now (ranges_of geography.now)) (IsNewPlan geography.now plans.now row.now)
        (λ plan. map_of.insert plans.now plan.0 plan.1) txn.now pages.old pages.new result }
{
    plans_are_told();
    let Some(name) = name_in(row.key.as_slice()) else {
        return Err(TreeError::NotAStore);
    };
    let Some(plan) = read_plan(row.value.as_slice()) else {
        return Err(TreeError::NotAStore);
    };
    row_fits(plan);
    if plans.get(&name).is_some() {
        return Err(TreeError::NotAStore);
    }
    if plans.len() >= PLAN_LIMIT {
        return Err(TreeError::NotAStore);
    }
    add_plan(alloc, txn, pages, geography, plans, name, &plan)
}

/// These plans with the one whose row was taken. Its number is noted, with the count of its revisions.
fn add_row<D: SectorDevice>(
    alloc: Global,
    txn: &Txn,
    pages: &mut Pages<D>,
    geography: &Geography,
    plans: &Plans,
    row: &Row,
    counts: &mut BTreeMap<u64, u32>,
) -> Result<Plans, TreeError>
    requires begun { txn_pages txn.now ≡ count_of pages.old }
    ensures whole { IfOk result (λ all. AreWhole (Some geography.now) plans.now → AreWhole (Some geography.now) all) }
    ensures noted { OnOk result (IsNoted row.now counts.old counts.new) }
    ensures added { IfOk result (λ all. IsAdded plans.now row.now all) }
    ensures reads { Reads (λ m all. IsNotGone row.now m × IsListed plans.now row.now (ranges_of geography.now) m all)
        (IsFreshPlan geography.now plans.now counts.old row.now)
        (λ plan. map_of.insert plans.now plan.0 plan.1) txn.now pages.old pages.new result }
{
    note_number(row, counts)?;
    refuse_gone(txn, pages, row)?;
    add_named(alloc, txn, pages, geography, plans, row)
}

/// All plans of a transaction's desk, which has this geography. Their numbers are noted, each with the count of its revisions.
pub(crate) fn read_plans<D: SectorDevice>(
    alloc: Global,
    txn: &Txn,
    pages: &mut Pages<D>,
    geography: &Geography,
    counts: &mut BTreeMap<u64, u32>,
) -> Result<Plans, TreeError>
    requires begun { txn_pages txn.now ≡ count_of pages.old }
    requires none { IsEmpty counts.old }
    ensures whole { IfOk result (AreWhole (Some geography.now)) }
    ensures reads { Reads (λ m all. ArePlansApart m × AreCounts m counts.new × ArePlansShown m (ranges_of geography.now) all)
        (ArePlans geography.now) (λ all. all) txn.now pages.old pages.new result }
{
    let mut plans = Plans::new();
    let prefix = Key::plans();
    let mut scan = scan(prefix.as_slice());
    let mut row = Row::empty();
    for taken in 0..row_limit(txn) {
        if !scan.next(txn, pages, &mut row) {
            match scan.fault() {
                None => return Ok(plans),
                Some(fault) => return Err(fault),
            }
        }
        plans = add_row(alloc, txn, pages, geography, &plans, &row, counts)?;
    }
    Err(TreeError::NotAStore)
}
