//! Writes the rows of the new version.
ghost use Rattle.std.specs.Prelude.{◌≡◌, ◌≤◌, ◌*◌, Err, OnOk, OnErr, IfOk, IfErr};
ghost use Rattle.page_store.specs.claim.Transactions.{disk_in};
ghost use Rattle.desk_model.specs.claim.Desk.{Desk};
ghost use Rattle.desk_store_pages.specs.claim.Desks.{InPages as HoldsDesk, OpensEither, OpensOld};
ghost use Rattle.desk_store_pages.specs.Moments.{StopsLeave};
ghost use Rattle.desk_migration.specs.Parts.{IsUnderParts};
ghost use Rattle.desk_migration.specs.Outcomes.{PutsHoldings};
ghost use Rattle.desk_migration.specs.Puts.{FinishErr, HoldsAll, HoldsTo, StepErr, free_of, Steps};

use crate::holds::hold_pairs;
use desk_store_pages::{ROW_PAGES, StoreError, commit_fitting, put_row};
use desk_store_rows::Key;
use desk_store_rows::migrations::{named_is_held, version_is_told};
use page_btree::SmallBytes;
use page_store::Pages;
use sector_device::SectorDevice;
use std::alloc::Global;

/// Puts up to 16 rows by which plans hold chunks that they name, in one commit, and returns their
/// number. `from` is the key up to which each part names only held chunks, and advances.
pub(crate) fn put_holdings<D: SectorDevice>(
    alloc: Global,
    pages: &mut Pages<D>,
    from: &mut SmallBytes,
) -> Result<usize, StoreError>
    requires under { IsUnderParts from.old }
    ensures under { IsUnderParts from.new }
    ensures steps { Steps pages.old pages.new result }
    ensures any_moment { StopsLeave (HoldsTo from.old pages.old) OpensOld pages.old pages.new }
    ensures few { IfOk result (λ count. count ≤ 16) }
    ensures held { PutsHoldings from.old from.new pages.old pages.new result }
    ensures room { (disk_in pages.new).is_honest → IfOk result (λ count. 13 * count ≤ free_of pages.old) }
    ensures err { IfErr result (λ e. StepErr from.old pages.old pages.new e) }
    ensures stays { OnErr result (from.new ≡ from.old) }
{
    named_is_held();
    if pages.is_halted() {
        return Err(StoreError::Halted);
    }
    let free = pages.free_pages() as usize;
    let mut next = SmallBytes::empty();
    next.set(from.as_slice());
    let mut txn = pages.begin(alloc);
    let pairs = hold_pairs(&mut txn, pages, &mut next)?;
    if pairs == 0 {
        return Ok(0);
    }
    if free < 26 * pairs {
        return Err(StoreError::Full);
    }
    commit_fitting(txn, pages)?;
    *from = next;
    Ok(2 * pairs)
}

/// Puts the row of the new version.
pub(crate) fn put_version<D: SectorDevice>(
    alloc: Global,
    pages: &mut Pages<D>,
) -> Result<(), StoreError>
    ensures steps { Steps pages.old pages.new result }
    ensures any_moment { StopsLeave (HoldsAll pages.old) OpensEither pages.old pages.new }
    ensures told { (disk_in pages.new).is_honest → (d : Desk) → HoldsAll pages.old d → OnOk result (HoldsDesk pages.new d) }
    ensures room { (disk_in pages.new).is_honest → OnOk result (13 ≤ free_of pages.old) }
    ensures err { IfErr result (λ e. FinishErr pages.old pages.new e) }
{
    version_is_told();
    if pages.is_halted() {
        return Err(StoreError::Halted);
    }
    if pages.free_pages() < ROW_PAGES {
        return Err(StoreError::Full);
    }
    let mut txn = pages.begin(alloc);
    put_row(&mut txn, pages, &Key::version(), &2_u32.to_be_bytes())?;
    commit_fitting(txn, pages)
}
