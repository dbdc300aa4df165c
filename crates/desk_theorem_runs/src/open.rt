//! Openings of a device whose images all open to one desk.
ghost use Rattle.desk_model.specs.claim.Desk.{Desk};
ghost use Rattle.desk_store.specs.claim.Openings.{device_after};
ghost use Rattle.desk_theorem_runs.specs.claim.Lives.{IsOpening};
ghost use Rattle.desk_theorem_runs.specs.claim.Migrations.{IsEntry};
ghost use Rattle.desk_theorem_runs.specs.claim.Recovery.{HoldsEither};
ghost use Rattle.desk_theorem_runs.specs.Recovery.{Recovers};

use crate::desk_law::one_desk_opens;
use desk_migration::Migration;
use desk_store::clerk::Clerk;
use desk_store_pages::StoreError;
use sector_device::SectorDevice;
use std::alloc::Global;

/// Opens a device, as `Clerk::open` does. If each crash state of it opens to one desk, in either
/// version, the clerk shows that desk, and whatever the opening returns, each crash state at any
/// moment of it opens to the same desk. So does the next opening, however many of them a crash cuts
/// short.
pub fn open_again<D: SectorDevice>(alloc: Global, device: D) -> Result<Clerk<D>, (StoreError, D)>
    ensures opening { IsOpening D.SectorDevice device result }
    ensures again { (D.disk (device_after result)).is_honest → (d : Desk) → HoldsEither (D.disk device) d → Recovers D.SectorDevice device d result }
{
    one_desk_opens();
    Clerk::open(alloc, device)
}

/// Opens a device for a migration, as `Migration::open`. At each moment of it a stop leaves an image that opens to a desk to which one
/// opened before, in the same version.
pub fn enter_again<D: SectorDevice>(
    alloc: Global,
    device: D,
) -> Result<Migration<D>, (StoreError, D)>
    ensures { IsEntry D.SectorDevice device result }
{
    Migration::open(alloc, device)
}
