//! A store of the old version that is led to the new one: what it shows then, and a stop or a fault at each call of that.
ghost use Rattle.std.specs.Prelude.{◌<◌};

use crate::devices::{Image, Pick, device_with, failing_at, image_of, picks_of};
use crate::forks::{asks, swept};
use crate::stores::{device_of, opened, passing, sealed};
use crate::streams::{answers, found};
use crate::texts::{ALL, COMMANDS, QUERIES, shows, told_made};
use desk_migration::Migration;
use desk_migration::old::turn_back;
use desk_store::clerk::Clerk;
use desk_store_pages::StoreError;
use page_store::Pages;
use sector_device::{Sector, SectorDevice};
use sector_memory::{Fused, MemoryDevice};
use std::alloc::Global;
use std::process::Abort;

/// The sectors of a store with room for a step of 16 rows, of 13 free pages each: header, gate, list, 256 copies and 241 pages.
const SECTORS: u32 = 500;

/// The sectors of one without it, which has 141 pages.
const FEWER: u32 = 400;

/// Forks a plan twice, and takes each fork away.
const GONE: &[u8] =
    b"POST /plans/c?from=b:2 HTTP/1.1\r\nHost: d\r\n\r\nDELETE /plans/c HTTP/1.1\r\nHost: d\r\n\r\nPOST /plans/c?from=b:2 HTTP/1.1\r\nHost: d\r\n\r\nDELETE /plans/c HTTP/1.1\r\nHost: d\r\n\r\n";

const WENT: &[u8] =
    b"HTTP/1.1 201 Created\r\nContent-Type: application/json\r\nContent-Length: 26\r\n\r\n{\"plan\":\"c\",\"revisions\":1}HTTP/1.1 200 OK\r\nContent-Type: application/json\r\nContent-Length: 27\r\n\r\n{\"plan\":\"c\",\"retired\":true}HTTP/1.1 201 Created\r\nContent-Type: application/json\r\nContent-Length: 26\r\n\r\n{\"plan\":\"c\",\"revisions\":1}HTTP/1.1 200 OK\r\nContent-Type: application/json\r\nContent-Length: 27\r\n\r\n{\"plan\":\"c\",\"retired\":true}";

/// Forks the second revision of the plan that is left, and reads it.
const FORK: &[u8] =
    b"POST /plans/d?from=b:2 HTTP/1.1\r\nHost: d\r\n\r\nGET /plans/d/revisions/1 HTTP/1.1\r\nHost: d\r\n\r\n";

const FORKED: &[u8] =
    b"HTTP/1.1 201 Created\r\nContent-Type: application/json\r\nContent-Length: 26\r\n\r\n{\"plan\":\"d\",\"revisions\":1}HTTP/1.1 200 OK\r\nContent-Type: text/plain\r\nContent-Length: 93\r\n\r\nBLOCKID|DISTRICT\n190010001001001|02\n190010001001002|02\n190030001001001|02\n190030001001002|02\n";

/// A store of the old version: two plans with two revisions each, which name three chunks each, and
/// two forks, which name two each. All but the second plan were deleted, and nothing was swept.
fn old_store<R: Abort>(rt: &R, alloc: Global, sectors: u32) -> MemoryDevice {
    let mut clerk = sealed(rt, alloc, sectors);
    let text = answers(rt, alloc, &mut clerk, COMMANDS);
    holds!(rt; told_made(text.as_slice()) == ALL);
    asks(rt, alloc, &mut clerk, GONE, WENT);
    let mut pages = Pages::open(alloc, passing(device_of(clerk)))
        .ok()
        .expect(rt, "not opened");
    turn_back(alloc, &mut pages).expect(rt, "not turned back");
    pages.into_device().stop(&[])
}

/// Returns whether a clerk opens the device; otherwise the clerk must report the old version.
fn is_new<R: Abort>(rt: &R, alloc: Global, device: MemoryDevice) -> (bool, MemoryDevice) {
    match Clerk::open(alloc, passing(device)) {
        Ok(clerk) => (true, device_of(clerk)),
        Err((error, device)) => {
            holds!(rt; error == StoreError::OldVersion);
            (false, device.stop(&[]))
        }
    }
}

/// Migrates to the end and returns the number of rows put, without the version's row. A migration
/// that does not end is reported as one without room.
fn migrates<D: SectorDevice>(
    alloc: Global,
    migration: &mut Migration<D>,
) -> Result<usize, StoreError> {
    let mut rows = 0usize;
    for _ in 0..100u32 {
        let count = migration.step(alloc)?;
        if count == 0 {
            migration.finish(alloc)?;
            return Ok(rows);
        }
        rows = rows.saturating_add(count);
    }
    Err(StoreError::Full)
}

/// Migrates a device to the end: how many rows were put but that of the version, or none where the store is of the new version.
fn begun_anew<R: Abort>(
    rt: &R,
    alloc: Global,
    device: MemoryDevice,
) -> (Option<usize>, MemoryDevice) {
    match Migration::open(alloc, passing(device)) {
        Ok(mut migration) => {
            let rows = migrates(alloc, &mut migration).expect(rt, "not migrated");
            (Some(rows), migration.into_device().stop(&[]))
        }
        Err((error, device)) => {
            holds!(rt; error == StoreError::AlreadyNew);
            (None, device.stop(&[]))
        }
    }
}

/// Begins to migrate a device.
fn begun<R: Abort>(rt: &R, alloc: Global, device: MemoryDevice) -> Migration<Fused> {
    Migration::open(alloc, passing(device))
        .ok()
        .expect(rt, "not opened")
}

/// Asserts the result of a step.
fn steps<R: Abort>(
    rt: &R,
    alloc: Global,
    migration: &mut Migration<Fused>,
    told: Result<usize, StoreError>,
) {
    holds!(rt; migration.step(alloc) == told);
}

#[test]
fn a_migrated_store_shows_what_it_showed(rt: HostRuntime) {
    let rt = &rt;
    let alloc = rt.alloc();
    let (new, device) = is_new(rt, alloc, old_store(rt, alloc, SECTORS));
    holds!(rt; !new);
    let mut migration = begun(rt, alloc, device);
    steps(rt, alloc, &mut migration, Ok(16));
    steps(rt, alloc, &mut migration, Ok(4));
    holds!(rt; migrates(alloc, &mut migration) == Ok(0));
    let (rows, device) = begun_anew(rt, alloc, migration.into_device().stop(&[]));
    holds!(rt; rows == None);
    let mut clerk = opened(rt, alloc, device);
    holds!(rt; shows(answers(rt, alloc, &mut clerk, QUERIES).as_slice(), ALL));
    holds!(rt; swept(rt, alloc, &mut clerk) == 22);
    asks(rt, alloc, &mut clerk, FORK, FORKED);
}

#[test]
fn a_store_without_room_stays_of_the_old_version(rt: HostRuntime) {
    let rt = &rt;
    let alloc = rt.alloc();
    let old = image_of(rt, alloc, old_store(rt, alloc, FEWER));
    let device = device_with(rt, alloc, old.as_slice());
    let mut migration = begun(rt, alloc, device);
    steps(rt, alloc, &mut migration, Err(StoreError::Full));
    holds!(rt; !migration.is_halted());
    let left = image_of(rt, alloc, migration.into_device().stop(&[]));
    holds!(rt; left.as_slice() == old.as_slice());
}

/// Migrates until the device fails: whether to the end.
fn migrates_on<R: Abort, D: SectorDevice>(
    rt: &R,
    alloc: Global,
    migration: &mut Migration<D>,
) -> bool {
    let told = migrates(alloc, migration);
    if told == Ok(20) {
        return true;
    }
    holds!(rt; (told == Err(StoreError::DeviceFault)) & migration.is_halted());
    holds!(rt; migration.step(alloc) == Err(StoreError::Halted));
    false
}

/// Migrates a device with a fault at call k: whether to the end, and the device stopped then.
fn migrated_at<R: Abort>(
    rt: &R,
    alloc: Global,
    image: &[Sector],
    k: u64,
    once: bool,
    picks: &[Pick],
) -> (bool, MemoryDevice) {
    match Migration::open(alloc, failing_at(device_with(rt, alloc, image), k, once)) {
        Ok(mut migration) => {
            let ended = migrates_on(rt, alloc, &mut migration);
            (ended, migration.into_device().stop(picks))
        }
        Err((error, device)) => {
            holds!(rt; error == StoreError::DeviceFault);
            (false, device.stop(picks))
        }
    }
}

/// Returns how far a migration was when it was stopped: nothing of it, its first step, both, or the
/// version too. Repeated, it ends with what the store showed.
fn kept<R: Abort>(rt: &R, alloc: Global, device: MemoryDevice) -> usize
    ensures { result < 4 }
{
    let (new, device) = is_new(rt, alloc, device);
    let (rows, device) = begun_anew(rt, alloc, device);
    holds!(rt; rows.is_none() == new);
    holds!(rt; shows(found(rt, alloc, device).as_slice(), ALL));
    match rows {
        Some(20) => 0,
        Some(4) => 1,
        Some(0) => 2,
        None => 3,
        _ => panic!(rt; "other rows"),
    }
}

/// Migrations with a fault at each call in turn: how many leave what.
fn faults_kept<R: Abort>(
    rt: &R,
    alloc: Global,
    image: &[Sector],
    once: bool,
    picks: &[Pick],
) -> [u32; 4] {
    let mut counts = [0u32; 4];
    let mut is_whole = false;
    for k in 0..1_000u64 {
        let (ended, device) = migrated_at(rt, alloc, image, k, once, picks);
        let far = kept(rt, alloc, device);
        if ended {
            is_whole = far == 3;
            break;
        }
        counts[far] = counts[far].saturating_add(1);
    }
    holds!(rt; is_whole);
    counts
}

/// Asserts that faults left each of what a migration may leave.
fn faults_leave_each<R: Abort>(rt: &R, alloc: Global, once: bool) {
    let image: Image = image_of(rt, alloc, old_store(rt, alloc, SECTORS));
    let picks = picks_of(rt, alloc, SECTORS, Some(0xa5));
    let counts = faults_kept(rt, alloc, image.as_slice(), once, picks.as_slice());
    let [none, first, both, version] = counts;
    holds!(rt; (none > 10) & (first > 10) & (both > 10) & (version > 1));
}

#[test]
fn a_stop_in_a_migration_leaves_either_version(rt: HostRuntime) {
    faults_leave_each(&rt, rt.alloc(), false);
}

#[test]
fn a_fault_in_a_migration_leaves_either_version(rt: HostRuntime) {
    faults_leave_each(&rt, rt.alloc(), true);
}
