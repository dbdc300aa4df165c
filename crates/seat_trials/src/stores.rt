//! A store in memory.
use desk_model::geography::sample;
use desk_theorem_loading::start;
use sector_memory::{Fused, MemoryDevice};
use std::alloc::Global;
use std::process::Abort;
use std::sync::Arc;

/// A device with a store of 600 sectors, which has the sample geography and no plan. It is made through a device of which a call could
/// fail, so that loads are compiled for one type of device.
pub fn sealed_device<R: Abort>(rt: &R, alloc: Global) -> MemoryDevice {
    let device = Fused::once(
        MemoryDevice::new(alloc, 600).expect(rt, "no memory"),
        u64::MAX,
    );
    let the_geography = sample(alloc).expect(rt, "no memory");
    let shared = Arc::new(alloc, the_geography).expect(rt, "no memory");
    let clerk = start(alloc, device, 256, shared)
        .ok()
        .expect(rt, "not started");
    clerk.into_device().stop(&[])
}
