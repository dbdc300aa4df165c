//! Reads plans into those that were read before.
ghost use Rattle.std.specs.Prelude.{◌≡◌, ◌<◌, IfOk, None, Some};
ghost use Rattle.std.specs.FinMap as map_of;
ghost use Rattle.desk_model.specs.Ranges.{ranges_of};
ghost use Rattle.desk_model.specs.claim.Desk.{Plan};
ghost use Rattle.desk_model.specs.claim.Step.{plan_limit};
ghost use Rattle.page_store.specs.claim.Transactions.{count_of, txn_pages};
ghost use Rattle.desk_store_rows.specs.Changes.{plan_row_of};
ghost use Rattle.desk_store_catalogue.specs.Kept.{AreWhole};
ghost use Rattle.desk_store_opening.specs.Opening.{IsAddedAs};
ghost use Rattle.desk_store_opening.specs.Reading.{Reads, IsPlanRow};

use crate::entries::read_entry;
use desk_model::geography::Geography;
use desk_model::name::PlanName;
use desk_store_catalogue::Plans;
use desk_store_pages::TreeError;
use desk_store_rows::StoredPlan;
use page_store::{Pages, Txn};
use sector_device::SectorDevice;
use std::alloc::Global;

/// Returns the plans with the plan of this name and row added.
pub fn add_plan<D: SectorDevice>(
    alloc: Global,
    txn: &Txn,
    pages: &mut Pages<D>,
    geography: &Geography,
    plans: &Plans,
    name: PlanName,
    row: &StoredPlan,
) -> Result<Plans, TreeError>
    requires begun { txn_pages txn.now ≡ count_of pages.old }
    requires missing { map_of.get plans.now name ≡ None }
    requires room { map_of.len plans.now < plan_limit }
    ensures whole { IfOk result (λ all. AreWhole (Some geography.now) plans.now → AreWhole (Some geography.now) all) }
    ensures added { IfOk result (λ all. (p : Plan) × (row.now ≡ plan_row_of row.now.number p) × (all ≡ map_of.insert plans.now name p)) }
    ensures reads { Reads (IsAddedAs plans.now name row.now (ranges_of geography.now)) (IsPlanRow geography.now name row.now)
        (λ plan. map_of.insert plans.now name plan) txn.now pages.old pages.new result }
{
    let entry = read_entry(alloc, txn, pages, geography, name, row)?;
    match plans.insert(alloc, entry) {
        Ok(all) => Ok(all),
        Err(_) => Err(TreeError::Memory),
    }
}
