//! What one reader looks at.
ghost use Rattle.std.specs.Prelude.{◌≡◌, false};
ghost use Rattle.page_store.specs.claim.Transactions.{has_halted};
ghost use Rattle.store_verification.specs.Looking.{Finds, HasOwners, HasDesk, HasSeen, LooksBy};

use crate::counties::counties_in;
use crate::look::{Look, look_of, unopened};
use byte_stream::progress::{NoProgress, Progress};
use desk_model::ranges::CountyRange;
use desk_store::{check_holdings, is_new};
use desk_store_opening::check_desk;
use page_btree::check_pages;
use page_store::Pages;
use sector_device::SectorDevice;
use std::alloc::Global;
use store_verification_rows::{check_rows, note_parts};

/// The rows that were examined: their number, and the counties.
#[derive(Drop)]
pub(crate) struct SeenRows {
    pub(crate) rows: u64,
    pub(crate) ranges: Vec<CountyRange>,
}

/// Looks whether each page has one owner: how many rows the leaves have, of which no clause speaks. `progress` hears of the pages.
fn owners_in<R: SectorDevice, P: Progress>(
    alloc: Global,
    pages: &mut Pages<R>,
    progress: &mut P,
) -> Option<u64>
    ensures { Finds HasOwners pages.old pages.new result }
{
    let mut rows = 0;
    let Ok(()) = check_pages(alloc, pages, progress, &mut rows) else {
        return None;
    };
    Some(rows)
}

/// Returns the counties of the desk if the rows have the new version and are a desk's.
fn desk_in<R: SectorDevice>(alloc: Global, pages: &mut Pages<R>) -> Option<Vec<CountyRange>>
    requires working { has_halted pages.old ≡ false }
    ensures { Finds HasDesk pages.old pages.new result }
{
    let txn = pages.begin(alloc);
    let Ok(true) = is_new(&txn, pages) else {
        return None;
    };
    let Ok(ranges) = check_desk(alloc, &txn, pages) else {
        return None;
    };
    Some(ranges)
}

/// Looks whether rows belong to their store, and chunks are counted, and held by the plans that name them.
fn rows_in<R: SectorDevice>(alloc: Global, pages: &mut Pages<R>) -> Option<SeenRows>
    requires working { has_halted pages.old ≡ false }
    ensures { Finds HasSeen pages.old pages.new result }
{
    let txn = pages.begin(alloc);
    let Ok(()) = check_holdings(alloc, &txn, pages) else {
        return None;
    };
    let Ok(hints) = note_parts(alloc, &txn, pages) else {
        return None;
    };
    let Some(ranges) = counties_in(alloc, &txn, pages) else {
        return None;
    };
    let Ok(checked) = check_rows(&txn, pages, ranges.as_slice(), &hints, &mut NoProgress) else {
        return None;
    };
    if checked.stray.is_some() {
        return None;
    }
    Some(SeenRows {
        rows: checked.rows,
        ranges,
    })
}

/// The reader that looks at pages. `progress` hears of them.
pub(crate) fn look_at_owners<R: SectorDevice, P: Progress>(
    alloc: Global,
    reader: R,
    progress: &mut P,
) -> (Look<u64>, R)
    ensures { LooksBy HasOwners (R.disk reader) (R.disk result.1) result.0 }
{
    let mut pages = match Pages::open(alloc, reader) {
        Ok(pages) => pages,
        Err((e, left)) => return (unopened(e), left),
    };
    let found = owners_in(alloc, &mut pages, progress);
    (look_of(found, pages.is_halted()), pages.into_device())
}

/// The reader that looks at the desk.
pub(crate) fn look_at_desk<R: SectorDevice>(alloc: Global, reader: R) -> (Look<Vec<CountyRange>>, R)
    ensures { LooksBy HasDesk (R.disk reader) (R.disk result.1) result.0 }
{
    let mut pages = match Pages::open(alloc, reader) {
        Ok(pages) => pages,
        Err((e, left)) => return (unopened(e), left),
    };
    let found = desk_in(alloc, &mut pages);
    (look_of(found, pages.is_halted()), pages.into_device())
}

/// The reader that looks at rows.
pub(crate) fn look_at_rows<R: SectorDevice>(alloc: Global, reader: R) -> (Look<SeenRows>, R)
    ensures { LooksBy HasSeen (R.disk reader) (R.disk result.1) result.0 }
{
    let mut pages = match Pages::open(alloc, reader) {
        Ok(pages) => pages,
        Err((e, left)) => return (unopened(e), left),
    };
    let found = rows_in(alloc, &mut pages);
    (look_of(found, pages.is_halted()), pages.into_device())
}
