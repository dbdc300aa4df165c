//! Looks at the chunks of a revision.
ghost use Rattle.std.specs.Prelude.{◌≡◌, ◌<◌, length, get_or};
ghost use Rattle.page_store.specs.claim.Transactions.{count_of, txn_pages};
ghost use Rattle.desk_store_opening.specs.Checking.{AreChunksSeen, Checks, IsChunkSeen};

use crate::counties::{is_above, is_known};
use desk_model::ranges::CountyRange;
use desk_store_pages::TreeError;
use page_store::{Pages, Txn};
use plan_revisions::{ChunkId, get_chunk};
use sector_device::SectorDevice;

/// Checks the chunk of a county of `count` blocks: none of them is in a district above n. `part` is
/// room for their districts.
#[tactic(auto, using(crate::proofs::Told::not_seen, crate::proofs::Told::failed))]
fn check_chunk<D: SectorDevice>(
    txn: &Txn,
    pages: &mut Pages<D>,
    n: u16,
    number: u64,
    count: u32,
    part: &mut Vec<u16>,
) -> Result<(), TreeError>
    requires begun { txn_pages txn.now ≡ count_of pages.old }
    ensures { Checks (IsChunkSeen n number count) txn.now pages.old pages.new result }
{
    part.clear();
    get_chunk(txn, pages, ChunkId { number }, count as usize, part)?;
    if is_above(n, part.as_slice()) {
        return Err(TreeError::NotAStore);
    }
    Ok(())
}

/// Looks at the chunk of a county, where the revision before doesn't name it too.
fn check_county<D: SectorDevice>(
    txn: &Txn,
    pages: &mut Pages<D>,
    n: u16,
    range: CountyRange,
    number: u64,
    last: &[u64],
    county: usize,
    part: &mut Vec<u16>,
) -> Result<(), TreeError>
    requires begun { txn_pages txn.now ≡ count_of pages.old }
    ensures { Checks (λ m. (county < length last.now → IsChunkSeen n (get_or last.now county 0) range.count m) → IsChunkSeen n number range.count m)
        txn.now pages.old pages.new result }
{
    if is_known(last, county, number) {
        return Ok(());
    }
    check_chunk(txn, pages, n, number, range.count, part)
}

/// Looks at the chunks of a revision, whose counties have these numbers, but for those that the revision before names for the same
/// counties: its numbers are `last`.
pub(crate) fn check_chunks<D: SectorDevice>(
    txn: &Txn,
    pages: &mut Pages<D>,
    n: u16,
    ranges: &[CountyRange],
    names: &[u64],
    last: &[u64],
    part: &mut Vec<u16>,
) -> Result<(), TreeError>
    requires begun { txn_pages txn.now ≡ count_of pages.old }
    requires each { length names.now ≡ length ranges.now }
    ensures { Checks (λ m. AreChunksSeen n ranges.now last.now m → AreChunksSeen n ranges.now names.now m) txn.now pages.old pages.new result }
{
    for county in 0..ranges.len() {
        check_county(
            txn,
            pages,
            n,
            ranges[county],
            names[county],
            last,
            county,
            part,
        )?;
    }
    Ok(())
}
