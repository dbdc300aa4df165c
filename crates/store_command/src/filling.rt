//! Fills a store with a geography.
ghost use Rattle.std.specs.Prelude.{IfOk, IfErr};
ghost use Rattle.sector_device.specs.Disk.{IsSynced};
ghost use Rattle.desk_theorem.specs.loading.Openings.{IsOpened};
ghost use Rattle.store_command.specs.Reading.{ShowsWhatIsRead};
ghost use Rattle.store_command.specs.Filling.{IsNotOpened, FillsDevice};

use crate::fault::{StoreFault, store_fault};
use byte_stream::progress::Progress;
use desk_model::geography::Geography;
use desk_theorem::{Clerk, load_geography, one_desk_opens, open_store};
use sector_device::SectorDevice;
use std::alloc::Global;
use std::sync::Arc;

/// The clerk who opens the store that a synced device holds: its desk is that to which opens what the device reads. A refusal hands the
/// device back.
pub fn open_clerk<D: SectorDevice + Drop>(
    alloc: Global,
    device: D,
) -> Result<Clerk<D>, (StoreFault, D)>
    requires { IsSynced (D.disk device) }
    ensures ok { IfOk result (λ x. IsOpened device x) }
    ensures shows { IfOk result (λ x. ShowsWhatIsRead device x) }
    ensures err { IfErr result (λ e. IsNotOpened D.SectorDevice device e.0 e.1) }
{
    one_desk_opens();
    match open_store(alloc, device) {
        Ok(clerk) => Ok(clerk),
        Err((e, left)) => Err((store_fault(e), left)),
    }
}

/// Fills the store that a synced device holds with a geography, and gives the device back. `progress` hears how many rows were
/// written so far.
pub fn fill<D: SectorDevice + Drop, P: Progress>(
    alloc: Global,
    device: D,
    geography: Arc<Geography>,
    progress: &mut P,
) -> (Result<(), StoreFault>, D)
    requires { IsSynced (D.disk device) }
    ensures { FillsDevice D.SectorDevice device geography.value result.0 result.1 }
{
    one_desk_opens();
    let mut clerk = match open_clerk(alloc, device) {
        Ok(clerk) => clerk,
        Err((fault, left)) => return (Err(fault), left),
    };
    match load_geography(alloc, &mut clerk, geography, progress) {
        Ok(()) => (Ok(()), clerk.into_device()),
        Err(e) => (Err(store_fault(e)), clerk.into_device()),
    }
}
