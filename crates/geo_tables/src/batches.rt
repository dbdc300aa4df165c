//! Stages rows of a load.
ghost use Rattle.std.specs.Prelude.{◌≡◌, ◌≤◌, ◌+◌, OnOk, MatchResult};
ghost use Rattle.page_store.specs.claim.Transactions.{disk_in};
ghost use Rattle.desk_model.specs.claim.Desk.{Desk};
ghost use Rattle.desk_store_pages.specs.claim.Desks.{OpensDesk};
ghost use Rattle.desk_store_pages.specs.Moments.{StopsLeave};
ghost use Rattle.geo_tables.specs.Loading.{LeavesRows, HoldsLoad, HoldsFurther, IsBatch};
ghost use Rattle.geo_tables.specs.Refusals.{BatchErr, CommitsRows};

use crate::load::Load;
use crate::puts::put_batch;
use crate::starts::start;
use desk_store_pages::{StoreError, commit_fitting};
use page_store::Pages;
use sector_device::SectorDevice;
use std::alloc::Global;

/// How many rows a batch may have at most.
pub const BATCH_ROWS: usize = 512;

/// Puts the next `rows` rows of a load and commits them.
fn stage<D: SectorDevice>(
    alloc: Global,
    pages: &mut Pages<D>,
    load: &Load,
    rows: usize,
) -> Result<(), StoreError>
    requires { IsBatch load.now rows }
    ensures any_moment { StopsLeave (λ d. HoldsLoad pages.old d load.now) OpensDesk pages.old pages.new }
    ensures staged { (disk_in pages.new).is_honest → (d : Desk) → HoldsLoad pages.old d load.now
        → OnOk result (HoldsFurther pages.new d load.now rows) }
    ensures step { CommitsRows (rows + 1) (BatchErr load.now rows pages.old pages.new) pages.old pages.new result }
{
    load.is_sound();
    let mut txn = start(alloc, pages, rows as u32 + 1)?;
    put_batch(
        &mut txn,
        pages,
        load.number,
        &load.geography,
        load.done,
        rows,
    )?;
    commit_fitting(txn, pages)
}

/// Stages the next `rows` rows of a load, 1 to 512 and no more than are left, and returns how many
/// are left then. The desk stays as it is. After an error the load is as it was, and so is the
/// store unless the error is `DeviceFault`.
pub fn load_batch<D: SectorDevice>(
    alloc: Global,
    pages: &mut Pages<D>,
    load: &mut Load,
    rows: usize,
) -> Result<usize, StoreError>
    requires some { 1 ≤ rows }
    requires batch { IsBatch load.old rows }
    ensures any_moment { StopsLeave (λ d. HoldsLoad pages.old d load.old) OpensDesk pages.old pages.new }
    ensures staged { (disk_in pages.new).is_honest → (d : Desk) → HoldsLoad pages.old d load.old → OnOk result (HoldsLoad pages.new d load.new) }
    ensures load { MatchResult result (LeavesRows load.old load.new rows) (λ _. load.new ≡ load.old) }
    ensures step { CommitsRows (rows + 1) (BatchErr load.old rows pages.old pages.new) pages.old pages.new result }
{
    load.is_sound();
    stage(alloc, pages, load, rows)?;
    load.done += rows;
    Ok(load.left())
}
