//! Looks at the revisions of a plan.
ghost use Rattle.std.specs.Prelude.{◌≡◌, true, OnOk, length};
ghost use Rattle.page_store.specs.claim.Transactions.{count_of, txn_pages};
ghost use Rattle.desk_store_opening.specs.plan_revisions.RevisionReading.{HasParts};
ghost use Rattle.desk_store_opening.specs.Checking.{AreChunksSeen, AreRevisionsSeen, Checks, IsSizedRow};

use crate::unkept_chunks::check_chunks;
use desk_model::ranges::CountyRange;
use desk_store_catalogue::REVISION_LIMIT;
use desk_store_pages::TreeError;
use desk_store_rows::StoredPlan;
use page_store::{Pages, Txn};
use plan_revisions::append_names;
use sector_device::SectorDevice;
use std::alloc::Global;

/// Looks at a revision of a plan, of whose blocks none may be in a district above n. `last` has the numbers of the chunks of the revision
/// before, and gets this one's.
#[tactic(auto, using(crate::proofs::Told::not_seen, crate::proofs::Told::failed))]
fn check_revision<D: SectorDevice>(
    alloc: Global,
    txn: &Txn,
    pages: &mut Pages<D>,
    n: u16,
    ranges: &[CountyRange],
    plan: u64,
    revision: u32,
    last: &mut Vec<u64>,
    part: &mut Vec<u16>,
) -> Result<(), TreeError>
    requires begun { txn_pages txn.now ≡ count_of pages.old }
    ensures { Checks (λ m. HasParts plan revision (length ranges.now) m last.new.items
        × (AreChunksSeen n ranges.now last.old.items m → AreChunksSeen n ranges.now last.new.items m)) txn.now pages.old pages.new result }
{
    let Ok(mut names) = Vec::with_capacity(alloc, ranges.len()) else {
        return Err(TreeError::Memory);
    };
    append_names(txn, pages, plan, revision, ranges.len(), &mut names)?;
    if names.len() != ranges.len() {
        return Err(TreeError::NotAStore);
    }
    check_chunks(
        txn,
        pages,
        n,
        ranges,
        names.as_slice(),
        last.as_slice(),
        part,
    )?;
    *last = names;
    Ok(())
}

/// Returns whether a plan may have this number of districts and of revisions.
fn is_sized(row: &StoredPlan) -> bool
    ensures { result ≡ true → IsSizedRow row.now }
{
    row.districts >= 1
        && row.districts <= row.kind.most_districts()
        && row.revisions <= REVISION_LIMIT
}

/// Looks at the revisions of the plan with this row, one after the other.
#[tactic(auto, using(crate::proofs::Told::not_seen, page_store::proofs::Stops::quiet_none))]
pub(crate) fn check_revisions<D: SectorDevice>(
    alloc: Global,
    txn: &Txn,
    pages: &mut Pages<D>,
    ranges: &[CountyRange],
    row: &StoredPlan,
    part: &mut Vec<u16>,
) -> Result<(), TreeError>
    requires begun { txn_pages txn.now ≡ count_of pages.old }
    ensures sized { OnOk result (IsSizedRow row.now) }
    ensures seen { Checks (AreRevisionsSeen ranges.now row.now row.now.revisions) txn.now pages.old pages.new result }
{
    if !is_sized(row) {
        return Err(TreeError::NotAStore);
    }
    let mut last = Vec::new(alloc);
    for before in 0..row.revisions {
        check_revision(
            alloc,
            txn,
            pages,
            row.districts,
            ranges,
            row.number,
            before + 1,
            &mut last,
            part,
        )?;
    }
    Ok(())
}
