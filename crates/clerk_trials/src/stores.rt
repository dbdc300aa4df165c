//! Stores in memory, and loads of the sample geography.
ghost use Rattle.std.specs.Prelude.{◌≤◌};

use desk_model::geography::{Geography, sample};
use desk_store::clerk::Clerk;
use desk_store_pages::{StoreError, format};
use geo_tables::Load;
use sector_device::SectorDevice;
use sector_memory::{Fused, MemoryDevice};
use std::alloc::Global;
use std::process::Abort;
use std::sync::Arc;

/// A device whose calls all pass. It is one of which a call could fail, so that a clerk is compiled for one type of device.
pub fn passing(device: MemoryDevice) -> Fused {
    Fused::once(device, u64::MAX)
}

/// A store without geography and plans.
pub fn formatted<R: Abort>(rt: &R, alloc: Global, sectors: u32) -> MemoryDevice {
    let mut device = passing(MemoryDevice::new(alloc, sectors).expect(rt, "no memory"));
    format(alloc, &mut device, 256).expect(rt, "not formatted");
    device.stop(&[])
}

/// Opens a device without a fault.
pub fn opened<R: Abort>(rt: &R, alloc: Global, device: MemoryDevice) -> Clerk<Fused> {
    Clerk::open(alloc, passing(device))
        .ok()
        .expect(rt, "not opened")
}

/// Ends a clerk: what a read of its device gives.
pub fn device_of(clerk: Clerk<Fused>) -> MemoryDevice {
    clerk.into_device().stop(&[])
}

pub fn shared_sample<R: Abort>(rt: &R, alloc: Global) -> Arc<Geography> {
    let the_geography = sample(alloc).expect(rt, "no memory");
    Arc::new(alloc, the_geography).expect(rt, "no memory")
}

/// A load of the sample geography is begun.
pub fn begun<R: Abort>(rt: &R, alloc: Global, clerk: &mut Clerk<Fused>) -> Load {
    let the_geography = shared_sample(rt, alloc);
    clerk
        .begin_load(alloc, the_geography)
        .expect(rt, "not begun")
}

/// Stages `rows` of the rows left, or all of them, and returns how many are left then.
pub fn stage<D: SectorDevice>(
    alloc: Global,
    clerk: &mut Clerk<D>,
    load: &mut Load,
    rows: usize,
) -> Result<usize, StoreError>
    requires { rows ≤ 512 }
{
    let left = load.left();
    let rows = if rows < left { rows } else { left };
    if rows == 0 {
        return Ok(left);
    }
    clerk.load_batch(alloc, load, rows)
}

/// Seals a load of which nothing is left.
pub fn seal<D: SectorDevice>(
    alloc: Global,
    clerk: &mut Clerk<D>,
    load: Load,
) -> Result<(), StoreError> {
    if load.left() != 0 {
        return Err(StoreError::Full);
    }
    match clerk.seal(alloc, load) {
        Ok(()) => Ok(()),
        Err((error, _)) => Err(error),
    }
}

/// A clerk with the sample geography.
pub fn sealed<R: Abort>(rt: &R, alloc: Global, sectors: u32) -> Clerk<Fused> {
    let mut clerk = opened(rt, alloc, formatted(rt, alloc, sectors));
    let mut load = begun(rt, alloc, &mut clerk);
    holds!(rt; stage(alloc, &mut clerk, &mut load, 8) == Ok(0));
    holds!(rt; seal(alloc, &mut clerk, load) == Ok(()));
    clerk
}
