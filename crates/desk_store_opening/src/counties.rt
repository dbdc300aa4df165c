//! Lays the counties of a revision over the districts of the one before.
ghost use Rattle.std.specs.Prelude.{◌≡◌, ◌<◌, ◌≤◌, ◌+◌, true, false, length, get_or, IfOk};
ghost use Rattle.desk_store_catalogue.specs.desk_store_lists.Laid.{with_at};
ghost use Rattle.page_store.specs.claim.Transactions.{count_of, txn_pages};
ghost use Rattle.desk_store_pages.specs.claim.Desks.{AreWithin};
ghost use Rattle.desk_store_opening.specs.Reading.{AreCountiesOf, AreNamed, AreChunksRead, Reads};
ghost use Rattle.desk_store_opening.specs.Reading.{IsChunkWithin, IsCounty, IsCountyRead, IsLaid};

use desk_model::laws::lists_are_cut;
use desk_model::ranges::CountyRange;
use desk_store_catalogue::Districts;
use desk_store_pages::TreeError;
use page_store::{Pages, Txn};
use plan_revisions::{ChunkId, get_chunk};
use sector_device::SectorDevice;
use std::alloc::Global;

/// Whether some block is in a district above the last.
pub fn is_above(n: u16, districts: &[u16]) -> bool
    ensures none { result ≡ false → AreWithin n districts.now }
    ensures some { result ≡ true → AreWithin n districts.now → ⊥ }
{
    let mut above = false;
    for district in districts {
        above |= *district > n;
    }
    above
}

/// These districts with those of a county, which are read from its chunk, in the place of theirs. `part` is room for them, and no
/// block may be in a district above n.
fn lay_county<D: SectorDevice>(
    alloc: Global,
    txn: &Txn,
    pages: &mut Pages<D>,
    n: u16,
    range: CountyRange,
    number: u64,
    part: &mut Vec<u16>,
    districts: Districts,
) -> Result<Districts, TreeError>
    requires begun { txn_pages txn.now ≡ count_of pages.old }
    requires within { range.first + range.count ≤ length districts }
    ensures long { IfOk result (λ all. length all ≡ length districts) }
    ensures within { AreWithin n districts → IfOk result (AreWithin n) }
    ensures reads { Reads (IsLaid number range districts) (IsChunkWithin n number range.count)
        (λ chunk. with_at range.first chunk districts) txn.now pages.old pages.new result }
{
    part.clear();
    get_chunk(txn, pages, ChunkId { number }, range.count as usize, part)?;
    if part.len() != range.count as usize {
        return Err(TreeError::NotAStore);
    }
    if is_above(n, part.as_slice()) {
        return Err(TreeError::NotAStore);
    }
    match districts.with_part(alloc, range.first as usize, part.as_slice()) {
        Ok(all) => Ok(all),
        Err(_) => Err(TreeError::Memory),
    }
}

/// Whether the revision before has a chunk of this number for a county.
pub fn is_known(last: &[u64], county: usize, number: u64) -> bool
    ensures { result ≡ true → (county < length last.now) × (get_or last.now county 0 ≡ number) }
{
    county < last.len() && last[county] == number
}

/// Returns these districts with those of one county replaced. If the revision before has the same
/// chunk, they are in place already and nothing is read.
fn lay_changed<D: SectorDevice>(
    alloc: Global,
    txn: &Txn,
    pages: &mut Pages<D>,
    n: u16,
    range: CountyRange,
    number: u64,
    last: &[u64],
    county: usize,
    part: &mut Vec<u16>,
    districts: Districts,
) -> Result<Districts, TreeError>
    requires begun { txn_pages txn.now ≡ count_of pages.old }
    requires within { range.first + range.count ≤ length districts }
    ensures long { IfOk result (λ all. length all ≡ length districts) }
    ensures within { AreWithin n districts → IfOk result (AreWithin n) }
    ensures reads { Reads (IsCountyRead number range last.now county districts) (IsCounty n number range last.now county districts)
        (λ chunk. with_at range.first chunk districts) txn.now pages.old pages.new result }
{
    if is_known(last, county, number) {
        return Ok(districts);
    }
    lay_county(alloc, txn, pages, n, range, number, part, districts)
}

/// The districts of a revision, whose counties have these numbers. Those of the revision before are `before`, and its numbers are
/// `last`: what it has too is not read, and lists share it. `last` may be empty, and `before` any districts then. No block may be in
/// a district above n.
pub(crate) fn lay_counties<D: SectorDevice>(
    alloc: Global,
    txn: &Txn,
    pages: &mut Pages<D>,
    n: u16,
    ranges: &[CountyRange],
    names: &[u64],
    last: &[u64],
    before: Districts,
) -> Result<Districts, TreeError>
    requires begun { txn_pages txn.now ≡ count_of pages.old }
    requires cut { AreCountiesOf ranges.now (length before) }
    requires each { length names.now ≡ length ranges.now }
    ensures long { IfOk result (λ all. length all ≡ length before) }
    ensures within { AreWithin n before → IfOk result (AreWithin n) }
    ensures reads { Reads (λ m all. AreChunksRead last.now before ranges.now m → AreChunksRead names.now all ranges.now m)
        (AreNamed n ranges.now names.now last.now before) (λ districts. districts) txn.now pages.old pages.new result }
{
    lists_are_cut();
    let mut part = Vec::new(alloc);
    let mut districts = before;
    for county in 0..ranges.len() {
        districts = lay_changed(
            alloc,
            txn,
            pages,
            n,
            ranges[county],
            names[county],
            last,
            county,
            &mut part,
            districts,
        )?;
    }
    Ok(districts)
}
