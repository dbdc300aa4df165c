//! Seals a load.
ghost use Rattle.std.specs.Prelude.{◌≡◌, OnOk, IfErr};
ghost use Rattle.page_store.specs.claim.Transactions.{disk_in};
ghost use Rattle.desk_model.specs.claim.Desk.{Desk};
ghost use Rattle.desk_store_rows.specs.claim.GeographyRows.{geography_rows};
ghost use Rattle.desk_store_rows.specs.Changes.{desk_with};
ghost use Rattle.desk_store_pages.specs.claim.Desks.{InPages};
ghost use Rattle.desk_store_pages.specs.Moments.{StopsLeave};
ghost use Rattle.geo_tables.specs.Loading.{HoldsLoad, geography_model_of, done_of, error_alone, OpensOrIsSealed};
ghost use Rattle.geo_tables.specs.Refusals.{CommitsRows, SealErr};

use crate::load::Load;
use crate::load_rows::seal_rows;
use crate::starts::start;
use desk_store_pages::{StoreError, commit_fitting};
use page_store::Pages;
use sector_device::SectorDevice;
use std::alloc::Global;

/// Puts the seal of a load and commits it.
fn put_seal<D: SectorDevice>(
    alloc: Global,
    pages: &mut Pages<D>,
    load: &Load,
) -> Result<(), StoreError>
    requires { done_of load.now ≡ geography_rows (geography_model_of load.now) }
    ensures any_moment { StopsLeave (λ d. HoldsLoad pages.old d load.now) (OpensOrIsSealed load.now) pages.old pages.new }
    ensures sealed { (disk_in pages.new).is_honest → (d : Desk) → HoldsLoad pages.old d load.now
        → OnOk result (InPages pages.new (desk_with (geography_model_of load.now) d.plans)) }
    ensures step { CommitsRows 2 (SealErr load.now pages.old pages.new) pages.old pages.new result }
{
    load.is_sound();
    let mut txn = start(alloc, pages, 2)?;
    seal_rows(&mut txn, pages, load.number, &load.geography)?;
    commit_fitting(txn, pages)
}

/// Seals a load whose rows are all staged: its geography is the desk's then. A refusal hands the load back, and but for `DeviceFault` it
/// changes nothing.
pub fn seal<D: SectorDevice>(
    alloc: Global,
    pages: &mut Pages<D>,
    load: Load,
) -> Result<(), (StoreError, Load)>
    requires { done_of load ≡ geography_rows (geography_model_of load) }
    ensures any_moment { StopsLeave (λ d. HoldsLoad pages.old d load) (OpensOrIsSealed load) pages.old pages.new }
    ensures sealed { (disk_in pages.new).is_honest → (d : Desk) → HoldsLoad pages.old d load
        → OnOk result (InPages pages.new (desk_with (geography_model_of load) d.plans)) }
    ensures back { IfErr result (λ e. e.1 ≡ load) }
    ensures step { CommitsRows 2 (SealErr load pages.old pages.new) pages.old pages.new (error_alone result) }
{
    match put_seal(alloc, pages, &load) {
        Ok(()) => Ok(()),
        Err(error) => Err((error, load)),
    }
}
