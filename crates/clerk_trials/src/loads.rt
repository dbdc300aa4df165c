//! A load that is begun anew, loads that have ended, a batch that has no room, and sweeps beside a load.
ghost use Rattle.std.specs.Prelude.{◌≤◌};

use crate::stopped_loads::is_sealed;
use crate::stores::{begun, device_of, formatted, opened, seal, stage};
use desk_store::clerk::Clerk;
use desk_store_pages::StoreError;
use geo_tables::Load;
use sector_memory::Fused;
use std::alloc::Global;
use std::process::Abort;

/// Asserts the result of staging `rows` rows.
fn staged<R: Abort>(
    rt: &R,
    alloc: Global,
    clerk: &mut Clerk<Fused>,
    load: &mut Load,
    rows: usize,
    told: Result<usize, StoreError>,
)
    requires { rows ≤ 512 }
{
    holds!(rt; stage(alloc, clerk, load, rows) == told);
}

/// Asserts the result of sealing.
fn sealed<R: Abort>(
    rt: &R,
    alloc: Global,
    clerk: &mut Clerk<Fused>,
    load: Load,
    told: Result<(), StoreError>,
) {
    holds!(rt; seal(alloc, clerk, load) == told);
}

/// Asserts how many rows a step of a sweep takes out, of at most 16.
fn swept<R: Abort>(rt: &R, alloc: Global, clerk: &mut Clerk<Fused>, rows: usize) {
    holds!(rt; clerk.sweep_step(alloc).expect(rt, "not swept") == rows);
}

/// Asserts whether a geography is shown.
fn shown<R: Abort>(rt: &R, alloc: Global, clerk: &Clerk<Fused>, sealed: bool) {
    holds!(rt; is_sealed(rt, alloc, clerk) == sealed);
}

/// A clerk at a new store.
fn new_clerk<R: Abort>(rt: &R, alloc: Global, sectors: u32) -> Clerk<Fused> {
    opened(rt, alloc, formatted(rt, alloc, sectors))
}

#[test]
fn a_load_begun_anew_ends_the_one_before(rt: HostRuntime) {
    let rt = &rt;
    let alloc = rt.alloc();
    let mut clerk = new_clerk(rt, alloc, 2_000);
    let mut first = begun(rt, alloc, &mut clerk);
    staged(rt, alloc, &mut clerk, &mut first, 8, Ok(0));
    shown(rt, alloc, &clerk, false);
    let mut second = begun(rt, alloc, &mut clerk);
    sealed(rt, alloc, &mut clerk, first, Err(StoreError::Ended));
    staged(rt, alloc, &mut clerk, &mut second, 3, Ok(5));
    let mut clerk = opened(rt, alloc, device_of(clerk));
    shown(rt, alloc, &clerk, false);
    staged(
        rt,
        alloc,
        &mut clerk,
        &mut second,
        3,
        Err(StoreError::Ended),
    );
    holds!(rt; second.left() == 5);
}

#[test]
fn a_load_goes_on_with_batches_that_have_room(rt: HostRuntime) {
    let rt = &rt;
    let alloc = rt.alloc();
    let mut clerk = new_clerk(rt, alloc, 330);
    let mut load = begun(rt, alloc, &mut clerk);
    staged(rt, alloc, &mut clerk, &mut load, 8, Err(StoreError::Full));
    holds!(rt; load.left() == 8);
    staged(rt, alloc, &mut clerk, &mut load, 3, Ok(5));
    staged(rt, alloc, &mut clerk, &mut load, 3, Ok(2));
    staged(rt, alloc, &mut clerk, &mut load, 3, Ok(0));
    sealed(rt, alloc, &mut clerk, load, Ok(()));
    shown(rt, alloc, &clerk, true);
}

#[test]
fn a_load_that_is_under_way_is_spared(rt: HostRuntime) {
    let rt = &rt;
    let alloc = rt.alloc();
    let mut clerk = new_clerk(rt, alloc, 2_000);
    let mut first = begun(rt, alloc, &mut clerk);
    staged(rt, alloc, &mut clerk, &mut first, 8, Ok(0));
    swept(rt, alloc, &mut clerk, 0);
    let mut second = begun(rt, alloc, &mut clerk);
    staged(rt, alloc, &mut clerk, &mut second, 3, Ok(5));
    swept(rt, alloc, &mut clerk, 9);
    swept(rt, alloc, &mut clerk, 0);
    staged(rt, alloc, &mut clerk, &mut second, 8, Ok(0));
    swept(rt, alloc, &mut clerk, 0);
    sealed(rt, alloc, &mut clerk, second, Ok(()));
    shown(rt, alloc, &clerk, true);
}
