//! Reads revisions.
ghost use Rattle.std.specs.Prelude.{◌≡◌, ◌<◌, [], length, get_or};
ghost use Rattle.std.specs.List.{concat};
ghost use Rattle.page_store.specs.claim.Transactions.{count_of, txn_pages};
ghost use Rattle.plan_revisions_sweeps.specs.chunk_table.Appended.{Appends};
ghost use Rattle.plan_revisions.specs.RevisionReading.{AreCounties, IsRevision};

use crate::names::append_names;
use desk_model::ranges::CountyRange;
use desk_store_pages::TreeError;
use page_store::{Pages, Txn};
use plan_revisions_sweeps::{ChunkId, get_chunk};
use sector_device::SectorDevice;

/// Appends the districts of one county.
fn append_county<D: SectorDevice>(
    txn: &Txn,
    pages: &mut Pages<D>,
    numbers: &[u64],
    ranges: &[CountyRange],
    county: usize,
    into: &mut Vec<u16>,
) -> Result<(), TreeError>
    requires begun { txn_pages txn.now ≡ count_of pages.old }
    requires each { length numbers.now ≡ length ranges.now }
    requires within { county < length ranges.now }
    ensures { Appends (AreCounties numbers.now ranges.now)
        (λ all. get_or all county []) txn.now pages.old pages.new into.old.items into.new.items result }
{
    let number = numbers[county];
    get_chunk(
        txn,
        pages,
        ChunkId { number },
        ranges[county].count as usize,
        into,
    )
}

/// Appends the districts of all counties, whose chunks have these numbers.
fn append_counties<D: SectorDevice>(
    txn: &Txn,
    pages: &mut Pages<D>,
    numbers: &[u64],
    ranges: &[CountyRange],
    into: &mut Vec<u16>,
) -> Result<(), TreeError>
    requires begun { txn_pages txn.now ≡ count_of pages.old }
    requires each { length numbers.now ≡ length ranges.now }
    ensures { Appends (AreCounties numbers.now ranges.now) concat txn.now pages.old pages.new into.old.items into.new.items result }
{
    for county in 0..ranges.len() {
        append_county(txn, pages, numbers, ranges, county, into)?;
    }
    Ok(())
}

/// Appends the districts of a revision, county by county, with as many for each county as its range
/// says. `names` is room for the numbers of the chunks; its contents are dropped. After an error
/// `into` may contain some of the districts. `NotAStore` comes also if the store has no such
/// revision, and `Memory` if a list could not grow.
pub fn append_revision<D: SectorDevice>(
    txn: &Txn,
    pages: &mut Pages<D>,
    plan: u64,
    revision: u32,
    ranges: &[CountyRange],
    names: &mut Vec<u64>,
    into: &mut Vec<u16>,
) -> Result<(), TreeError>
    requires begun { txn_pages txn.now ≡ count_of pages.old }
    ensures { Appends (IsRevision plan revision ranges.now) concat txn.now pages.old pages.new into.old.items into.new.items result }
{
    names.clear();
    append_names(txn, pages, plan, revision, ranges.len(), names)?;
    if names.len() != ranges.len() {
        return Err(TreeError::NotAStore);
    }
    append_counties(txn, pages, names.as_slice(), ranges, into)
}
