//! Sweeps a store, a few rows in each commit.
ghost use Rattle.std.specs.Prelude.{◌≡◌, ◌≤◌, Err, true, false, OnOk, IfOk, IfErr};
ghost use Rattle.page_store.specs.claim.Transactions.{disk_in, has_halted, IsSame, IsQuiet, Passed};
ghost use Rattle.page_btree.specs.gets.claim.Map.{InPages};
ghost use Rattle.desk_model.specs.claim.Desk.{Desk};
ghost use Rattle.desk_store_rows.specs.claim.Rows.{KeyMap};
ghost use Rattle.desk_store_pages.specs.claim.Desks.{IsDeskMap, InPages as DeskInPages, OpensDesk};
ghost use Rattle.desk_store_pages.specs.Commits.{Commits};
ghost use Rattle.desk_store_pages.specs.Moments.{StopsLeave};
ghost use Rattle.plan_revisions_sweeps.specs.claim.Checks.{AreSoundHoldings};
ghost use Rattle.plan_revisions_sweeps.specs.Sweeping.{SweepErr, Sweeps};

use crate::check_holdings;
pub use crate::rows::ROWS_SWEPT;
use crate::rows::sweep_rows;
use desk_store_pages::{StoreError, commit_fitting, row_error};
use page_store::Pages;
use sector_device::SectorDevice;
use std::alloc::Global;

/// Changes or removes up to 16 rows that deleted plans and abandoned loads left behind, in one
/// commit of at most 208 pages. Returns their number, 0 only if none is left. A deleted plan
/// releases its chunks, each by two rows; a chunk's pieces are removed once no plan holds it.
/// `running` is the load that is under way, whose rows are spared. The desk stays as it is, and no
/// number is used again. Except for `DeviceFault` a refusal changes nothing.
pub fn sweep_step<D: SectorDevice>(
    alloc: Global,
    pages: &mut Pages<D>,
    running: Option<u64>,
) -> Result<usize, StoreError>
    ensures commits { Commits (SweepErr pages.old pages.new) pages.old pages.new result }
    ensures any_moment { StopsLeave (DeskInPages pages.old) OpensDesk pages.old pages.new }
    ensures few { IfOk result (λ count. count ≤ 16) }
    ensures swept { (disk_in pages.new).is_honest → (m : KeyMap) (d : Desk) → InPages pages.old m
        → IsDeskMap m d → IfOk result (Sweeps running m d pages.old pages.new) }
    ensures still { has_halted pages.old ≡ true → (result ≡ Err StoreError.Halted) × IsSame pages.old pages.new }
{
    if pages.is_halted() {
        return Err(StoreError::Halted);
    }
    let mut txn = pages.begin(alloc);
    let count = match sweep_rows(&mut txn, pages, running) {
        Ok(count) => count,
        Err(error) => return Err(row_error(error, pages.is_halted())),
    };
    if count == 0 {
        return Ok(0);
    }
    commit_fitting(txn, pages)?;
    Ok(count)
}

/// Checks before a sweep that each chunk's count is the number of plans that hold it, and that each
/// existing plan holds every chunk that its revisions name, because a sweep removes a chunk without
/// a count. Nothing is written.
pub fn check_holders<D: SectorDevice>(alloc: Global, pages: &mut Pages<D>) -> Result<(), StoreError>
    ensures quiet { IsQuiet pages.old pages.new }
    ensures sound { (disk_in pages.new).is_honest → (m : KeyMap) → InPages pages.old m → OnOk result (AreSoundHoldings m) }
    ensures ok { OnOk result ((has_halted pages.old ≡ false) × Passed pages.old pages.new) }
    ensures still { has_halted pages.old ≡ true → (result ≡ Err StoreError.Halted) × IsSame pages.old pages.new }
    ensures err { IfErr result (λ e. SweepErr pages.old pages.new e) }
{
    if pages.is_halted() {
        return Err(StoreError::Halted);
    }
    let txn = pages.begin(alloc);
    match check_holdings(alloc, &txn, pages) {
        Ok(()) => Ok(()),
        Err(error) => Err(row_error(error, pages.is_halted())),
    }
}
