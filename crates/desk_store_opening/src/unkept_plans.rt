//! Looks at the plans whose rows a scan takes.
ghost use Rattle.std.specs.Prelude.{◌≡◌, OnOk};
ghost use Rattle.std.specs.BTreeMap.{IsEmpty};
ghost use Rattle.desk_model.specs.claim.Geography.{GeographyModel};
ghost use Rattle.desk_model.specs.Ranges.{ranges_of};
ghost use Rattle.page_store.specs.claim.Transactions.{count_of, txn_pages};
ghost use Rattle.desk_store_opening.specs.Opening.{AreCounts, ArePlansApart, IsNoted, IsNotGone};
ghost use Rattle.desk_store_opening.specs.Checking.{ArePlansTold, Checks, IsRowSeen};

use crate::marks::refuse_gone;
use crate::numbers::note_number;
use crate::rows::{name_in, row_fits};
use crate::unkept_revisions::check_revisions;
use btree_scan::{Row, row_limit, scan};
use desk_model::laws::lists_are_cut;
use desk_model::ranges::CountyRange;
use desk_store_catalogue::catalogue::PLAN_LIMIT;
use desk_store_pages::TreeError;
use desk_store_rows::{Key, read_plan};
use page_store::{Pages, Txn};
use sector_device::SectorDevice;
use std::alloc::Global;
use std::collections::BTreeMap;

/// Looks at the plan whose row was taken, by its name.
#[tactic(auto, using(crate::proofs::Told::not_seen, page_store::proofs::Stops::quiet_none))]
fn check_named<D: SectorDevice>(
    alloc: Global,
    txn: &Txn,
    pages: &mut Pages<D>,
    ranges: &[CountyRange],
    row: &Row,
    part: &mut Vec<u16>,
) -> Result<(), TreeError>
    requires begun { txn_pages txn.now ≡ count_of pages.old }
    ensures { Checks (IsRowSeen ranges.now row.now) txn.now pages.old pages.new result }
{
    let Some(_name) = name_in(row.key.as_slice()) else {
        return Err(TreeError::NotAStore);
    };
    let Some(plan) = read_plan(row.value.as_slice()) else {
        return Err(TreeError::NotAStore);
    };
    row_fits(plan);
    check_revisions(alloc, txn, pages, ranges, &plan, part)
}

/// Checks the plan of a row: it was not deleted, and its number is no other plan's. Notes the
/// number with the count of its revisions.
fn check_row<D: SectorDevice>(
    alloc: Global,
    txn: &Txn,
    pages: &mut Pages<D>,
    ranges: &[CountyRange],
    row: &Row,
    counts: &mut BTreeMap<u64, u32>,
    part: &mut Vec<u16>,
) -> Result<(), TreeError>
    requires begun { txn_pages txn.now ≡ count_of pages.old }
    ensures noted { OnOk result (IsNoted row.now counts.old counts.new) }
    ensures seen { Checks (λ m. IsNotGone row.now m × IsRowSeen ranges.now row.now m) txn.now pages.old pages.new result }
{
    note_number(row, counts)?;
    refuse_gone(txn, pages, row)?;
    check_named(alloc, txn, pages, ranges, row, part)
}

/// Looks at all plans, whose geography has these counties. Their numbers are noted, each with the count of its revisions.
#[tactic(auto, using(crate::proofs::Told::not_seen))]
pub(crate) fn check_plans<D: SectorDevice>(
    alloc: Global,
    txn: &Txn,
    pages: &mut Pages<D>,
    ranges: &[CountyRange],
    counts: &mut BTreeMap<u64, u32>,
) -> Result<(), TreeError>
    requires begun { txn_pages txn.now ≡ count_of pages.old }
    requires none { IsEmpty counts.old }
    requires cut { (g : GeographyModel) × (ranges.now ≡ ranges_of g) }
    ensures { Checks (λ m. ArePlansApart m × AreCounts m counts.new × ArePlansTold ranges.now m) txn.now pages.old pages.new result }
{
    lists_are_cut();
    let prefix = Key::plans();
    let mut scan = scan(prefix.as_slice());
    let mut row = Row::empty();
    let mut part = Vec::new(alloc);
    for taken in 0..row_limit(txn) {
        if !scan.next(txn, pages, &mut row) {
            match scan.fault() {
                None => return Ok(()),
                Some(fault) => return Err(fault),
            }
        }
        if taken >= PLAN_LIMIT as u64 {
            return Err(TreeError::NotAStore);
        }
        check_row(alloc, txn, pages, ranges, &row, counts, &mut part)?;
    }
    Err(TreeError::NotAStore)
}
