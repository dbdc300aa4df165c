//! A plan that is forked, changed beside its origin, and read once the origin was taken away and swept.
use crate::devices::{FILLS, Image, Pick, device_with, image_of, opened_at, picks};
use crate::stores::{device_of, opened};
use crate::streams::{answers, sealed_store};
use desk_store::clerk::Clerk;
use desk_store_pages::StoreError;
use sector_device::{Sector, SectorDevice};
use sector_memory::{Fused, MemoryDevice};
use std::alloc::Global;
use std::process::Abort;

/// Makes a plan with one revision, and forks it.
const FORK: &[u8] =
    b"PUT /plans/a?kind=congress&districts=2 HTTP/1.1\r\nHost: d\r\n\r\nPOST /plans/a/revisions?after=0 HTTP/1.1\r\nHost: d\r\nContent-Length: 93\r\n\r\nBLOCKID|DISTRICT\n190010001001001|01\n190010001001002|01\n190030001001001|02\n190030001001002|02\nPOST /plans/b?from=a:1 HTTP/1.1\r\nHost: d\r\n\r\n";

const FORKED: &[u8] =
    b"HTTP/1.1 201 Created\r\nContent-Type: application/json\r\nContent-Length: 26\r\n\r\n{\"plan\":\"a\",\"revisions\":0}HTTP/1.1 201 Created\r\nContent-Type: application/json\r\nContent-Length: 26\r\n\r\n{\"plan\":\"a\",\"revisions\":1}HTTP/1.1 201 Created\r\nContent-Type: application/json\r\nContent-Length: 26\r\n\r\n{\"plan\":\"b\",\"revisions\":1}";

/// Changes a county of the origin, and another one of the fork.
const PATCHES: &[u8] =
    b"POST /plans/a/counties?after=1 HTTP/1.1\r\nHost: d\r\nContent-Length: 53\r\n\r\nBLOCKID|DISTRICT\n190030001001001|1\n190030001001002|1\nPOST /plans/b/counties?after=1 HTTP/1.1\r\nHost: d\r\nContent-Length: 53\r\n\r\nBLOCKID|DISTRICT\n190010001001001|2\n190010001001002|2\n";

const PATCHED: &[u8] =
    b"HTTP/1.1 201 Created\r\nContent-Type: application/json\r\nContent-Length: 26\r\n\r\n{\"plan\":\"a\",\"revisions\":2}HTTP/1.1 201 Created\r\nContent-Type: application/json\r\nContent-Length: 26\r\n\r\n{\"plan\":\"b\",\"revisions\":2}";

/// Reads both revisions of the origin.
const ORIGIN: &[u8] =
    b"GET /plans/a/revisions/1 HTTP/1.1\r\nHost: d\r\n\r\nGET /plans/a/revisions/2 HTTP/1.1\r\nHost: d\r\n\r\n";

const ORIGIN_READ: &[u8] =
    b"HTTP/1.1 200 OK\r\nContent-Type: text/plain\r\nContent-Length: 93\r\n\r\nBLOCKID|DISTRICT\n190010001001001|01\n190010001001002|01\n190030001001001|02\n190030001001002|02\nHTTP/1.1 200 OK\r\nContent-Type: text/plain\r\nContent-Length: 93\r\n\r\nBLOCKID|DISTRICT\n190010001001001|01\n190010001001002|01\n190030001001001|01\n190030001001002|01\n";

/// Reads both revisions of the fork.
const FORK_ONLY: &[u8] =
    b"GET /plans/b/revisions/1 HTTP/1.1\r\nHost: d\r\n\r\nGET /plans/b/revisions/2 HTTP/1.1\r\nHost: d\r\n\r\n";

const FORK_READ: &[u8] =
    b"HTTP/1.1 200 OK\r\nContent-Type: text/plain\r\nContent-Length: 93\r\n\r\nBLOCKID|DISTRICT\n190010001001001|01\n190010001001002|01\n190030001001001|02\n190030001001002|02\nHTTP/1.1 200 OK\r\nContent-Type: text/plain\r\nContent-Length: 93\r\n\r\nBLOCKID|DISTRICT\n190010001001001|02\n190010001001002|02\n190030001001001|02\n190030001001002|02\n";

const RETIRE: &[u8] = b"DELETE /plans/a HTTP/1.1\r\nHost: d\r\n\r\n";

const RETIRED: &[u8] =
    b"HTTP/1.1 200 OK\r\nContent-Type: application/json\r\nContent-Length: 27\r\n\r\n{\"plan\":\"a\",\"retired\":true}";

/// Forks that are refused: of a revision that does not exist, of a deleted plan, and under a name
/// that is in use.
const REFUSED: &[u8] =
    b"POST /plans/c?from=b:9 HTTP/1.1\r\nHost: d\r\n\r\nPOST /plans/c?from=a:1 HTTP/1.1\r\nHost: d\r\n\r\nPOST /plans/b?from=b:1 HTTP/1.1\r\nHost: d\r\n\r\n";

const REFUSALS: &[u8] =
    b"HTTP/1.1 404 Not Found\r\nContent-Type: application/json\r\nContent-Length: 22\r\n\r\n{\"error\":\"NoRevision\"}HTTP/1.1 404 Not Found\r\nContent-Type: application/json\r\nContent-Length: 18\r\n\r\n{\"error\":\"NoPlan\"}HTTP/1.1 409 Conflict\r\nContent-Type: application/json\r\nContent-Length: 22\r\n\r\n{\"error\":\"PlanExists\"}";

/// Asserts what requests are answered.
pub fn asks<R: Abort>(
    rt: &R,
    alloc: Global,
    clerk: &mut Clerk<Fused>,
    requests: &[u8],
    told: &[u8],
) {
    let text = answers(rt, alloc, clerk, requests);
    holds!(rt; text.as_slice() == told);
}

/// Sweeps until nothing is left: how many rows changed or went.
pub fn swept<R: Abort>(rt: &R, alloc: Global, clerk: &mut Clerk<Fused>) -> usize {
    let mut rows = 0usize;
    let mut count = 1usize;
    for _ in 0..100u32 {
        count = clerk.sweep_step(alloc).expect(rt, "not swept");
        rows = rows.saturating_add(count);
        if count == 0 {
            break;
        }
    }
    holds!(rt; count == 0);
    rows
}

/// A clerk at a store whose origin was deleted after both plans were changed.
fn retired<R: Abort>(rt: &R, alloc: Global) -> Clerk<Fused> {
    let store = sealed_store(rt, alloc);
    let mut clerk = opened(rt, alloc, device_with(rt, alloc, store.as_slice()));
    asks(rt, alloc, &mut clerk, FORK, FORKED);
    asks(rt, alloc, &mut clerk, PATCHES, PATCHED);
    asks(rt, alloc, &mut clerk, ORIGIN, ORIGIN_READ);
    asks(rt, alloc, &mut clerk, FORK_ONLY, FORK_READ);
    asks(rt, alloc, &mut clerk, RETIRE, RETIRED);
    clerk
}

#[test]
fn a_fork_is_read_once_its_origin_was_swept(rt: HostRuntime) {
    let rt = &rt;
    let alloc = rt.alloc();
    let mut clerk = retired(rt, alloc);
    holds!(rt; swept(rt, alloc, &mut clerk) == 10);
    asks(rt, alloc, &mut clerk, FORK_ONLY, FORK_READ);
    let mut clerk = opened(rt, alloc, device_of(clerk));
    asks(rt, alloc, &mut clerk, FORK_ONLY, FORK_READ);
    asks(rt, alloc, &mut clerk, REFUSED, REFUSALS);
    holds!(rt; swept(rt, alloc, &mut clerk) == 0);
}

/// Sweeps to the end, or until the device fails: whether it is the end.
fn sweeps<R: Abort, D: SectorDevice>(rt: &R, alloc: Global, clerk: &mut Clerk<D>) -> bool {
    let mut told = Ok(1);
    for _ in 0..100u32 {
        told = clerk.sweep_step(alloc);
        if told.unwrap_or(0) == 0 {
            break;
        }
    }
    let fails = (told == Err(StoreError::DeviceFault)) & clerk.halted();
    holds!(rt; fails | (told == Ok(0)));
    !fails
}

/// Sweeps at a device with a fault at call k: whether to the end, and the device stopped then.
fn swept_at<R: Abort>(
    rt: &R,
    alloc: Global,
    image: &[Sector],
    k: u64,
    once: bool,
    picks: &[Pick],
) -> (bool, MemoryDevice) {
    match opened_at(rt, alloc, image, k, once) {
        Ok(mut clerk) => {
            let ended = sweeps(rt, alloc, &mut clerk);
            (ended, clerk.into_device().stop(picks))
        }
        Err(device) => (false, device.stop(picks)),
    }
}

/// Opens what a fault left and sweeps it to the end: how many rows changed or went. The fork is read before and after.
fn swept_after<R: Abort>(rt: &R, alloc: Global, device: MemoryDevice) -> usize {
    let mut clerk = opened(rt, alloc, device);
    asks(rt, alloc, &mut clerk, FORK_ONLY, FORK_READ);
    let rows = swept(rt, alloc, &mut clerk);
    asks(rt, alloc, &mut clerk, FORK_ONLY, FORK_READ);
    rows
}

/// Sweeps with a fault at each call in turn: the fork is read after each, and after a sweep after it. How many they were.
fn faults_kept<R: Abort>(
    rt: &R,
    alloc: Global,
    image: &[Sector],
    once: bool,
    fill: Option<u8>,
) -> u32 {
    let picks = picks(rt, alloc, fill);
    let mut count = 0u32;
    for k in 0..1_000u64 {
        let (ended, device) = swept_at(rt, alloc, image, k, once, picks.as_slice());
        let rows = swept_after(rt, alloc, device);
        holds!(rt; (rows == 0) | ((rows == 10) & !ended));
        if ended {
            break;
        }
        count = count.saturating_add(1);
    }
    holds!(rt; count < 1_000);
    count
}

#[test]
fn a_fault_in_a_sweep_leaves_what_a_fork_holds(rt: HostRuntime) {
    let rt = &rt;
    let alloc = rt.alloc();
    let image: Image = image_of(rt, alloc, device_of(retired(rt, alloc)));
    for fill in &FILLS {
        let stops = faults_kept(rt, alloc, image.as_slice(), false, *fill);
        let faults = faults_kept(rt, alloc, image.as_slice(), true, *fill);
        holds!(rt; (stops > 10) & (faults == stops));
    }
}
