//! Looks at the desk of a store.
ghost use Rattle.std.specs.Prelude.{◌≡◌, IfOk, IfErr};
ghost use Rattle.std.specs.BTreeMap.{IsEmpty};
ghost use Rattle.page_store.specs.claim.Transactions.{count_of, txn_pages};
ghost use Rattle.page_btree.specs.gets.declared.error.TreeError.TheVariants.{Memory};
ghost use Rattle.desk_store_pages.specs.Looking.{Gathers};
ghost use Rattle.desk_store_opening.specs.Opening.{AreCounts};
ghost use Rattle.desk_store_opening.specs.Checking.{IsNever, IsDeskShown, TellsDesk};

use crate::marks::check_rows;
use crate::none::read_none;
use crate::unkept_plans::check_plans;
use desk_model::ranges::CountyRange;
use desk_store_opening_tidy::check_owners;
use desk_store_pages::TreeError;
use geo_tables::geography;
use page_store::{Pages, Txn};
use sector_device::SectorDevice;
use std::alloc::Global;
use std::collections::BTreeMap;

/// A copy of counties.
fn copied(alloc: Global, ranges: &[CountyRange]) -> Result<Vec<CountyRange>, TreeError>
    ensures same { IfOk result (λ all. all.items ≡ ranges.now) }
    ensures err { IfErr result (λ e. e ≡ Memory) }
{
    match Vec::from_slice(alloc, ranges) {
        Ok(all) => Ok(all),
        Err(_) => Err(TreeError::Memory),
    }
}

/// Looks at what is shown of rows: a geography and plans. The counties come, and the plans' numbers are noted, each with the count of its
/// revisions.
#[tactic(auto, using(crate::proofs::Told::failed))]
fn check_shown<D: SectorDevice>(
    alloc: Global,
    txn: &Txn,
    pages: &mut Pages<D>,
    counts: &mut BTreeMap<u64, u32>,
) -> Result<Vec<CountyRange>, TreeError>
    requires begun { txn_pages txn.now ≡ count_of pages.old }
    requires none { IsEmpty counts.old }
    ensures { Gathers (λ m ranges. IsDeskShown ranges.items m × AreCounts m counts.new) IsNever txn.now pages.old pages.new result }
{
    let Some(the_geography) = geography(alloc, txn, pages)? else {
        read_none(txn, pages)?;
        return Ok(Vec::new(alloc));
    };
    let ranges = the_geography.counties();
    check_plans(alloc, txn, pages, ranges, counts)?;
    copied(alloc, ranges)
}

/// Looks whether the rows that a transaction reads, in either version, are those of a desk: its counties, none where it has no
/// geography. The pages are only read. An error is `Memory`, where a growth was refused, `DeviceFault` or `Halted`, or `NotAStore`,
/// where something isn't so.
pub fn check_desk<D: SectorDevice>(
    alloc: Global,
    txn: &Txn,
    pages: &mut Pages<D>,
) -> Result<Vec<CountyRange>, TreeError>
    requires begun { txn_pages txn.now ≡ count_of pages.old }
    ensures { Gathers (λ m ranges. TellsDesk ranges.items m) IsNever txn.now pages.old pages.new result }
{
    check_rows(txn, pages)?;
    let mut counts = BTreeMap::new(alloc);
    let ranges = check_shown(alloc, txn, pages, &mut counts)?;
    check_owners(txn, pages, &counts)?;
    Ok(ranges)
}
