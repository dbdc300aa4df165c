//! A clerk at a store in memory.
use crate::samples::shared_sample;
use desk_store::{Clerk, format};
use sector_memory::{Fused, MemoryDevice};
use std::alloc::Global;
use std::process::Abort;

/// A clerk at a new store with 400 sectors. Its device could stop, so that a clerk is compiled for one type of device.
pub fn new_clerk<R: Abort>(rt: &R, alloc: Global) -> Clerk<Fused> {
    let device = MemoryDevice::new(alloc, 400).expect(rt, "no memory");
    let mut device = Fused::new(device, u64::MAX);
    holds!(rt; format(alloc, &mut device, 256).is_ok());
    Clerk::open(alloc, device).ok().expect(rt, "not opened")
}

/// A clerk with the sample geography.
pub fn sealed_clerk<R: Abort>(rt: &R, alloc: Global) -> Clerk<Fused> {
    let mut clerk = new_clerk(rt, alloc);
    let state = shared_sample(rt, alloc);
    let mut load = clerk.begin_load(alloc, state).expect(rt, "not begun");
    assert!(rt; load.left() == 8);
    holds!(rt; clerk.load_batch(alloc, &mut load, 8) == Ok(0));
    assert!(rt; load.left() == 0);
    holds!(rt; clerk.seal(alloc, load).is_ok());
    clerk
}
