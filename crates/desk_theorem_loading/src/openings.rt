//! Opens the store that a device holds.
ghost use Rattle.std.specs.Prelude.{IfOk, IfErr};
ghost use Rattle.desk_theorem_loading.specs.Openings.{IsOpened, IsUnopened};

use desk_store::clerk::Clerk;
use desk_store_pages::StoreError;
use sector_device::SectorDevice;
use std::alloc::Global;

/// Opens the store that a device holds, as `Clerk::open`. A refusal hands the device back.
pub fn open_store<D: SectorDevice + Drop>(
    alloc: Global,
    device: D,
) -> Result<Clerk<D>, (StoreError, D)>
    ensures ok { IfOk result (λ x. IsOpened device x) }
    ensures err { IfErr result (λ e. IsUnopened D.SectorDevice device e.0 e.1) }
{
    match Clerk::open(alloc, device) {
        Ok(clerk) => Ok(clerk),
        Err((e, left)) => Err((e, left)),
    }
}
