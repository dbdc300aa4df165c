//! Openings of a store whose gate stands open, stopped or failing at each of their calls.
use crate::devices::{FILLS, Image, Pick, device_with, image_of, opened_at, picks};
use crate::streams::{found, sealed_store, served};
use crate::texts::shows;
use sector_device::Sector;
use std::alloc::Global;
use std::process::Abort;

/// Returns whether the gate is open.
fn is_open(image: &[Sector]) -> bool {
    image.len() > 1 && image[1][0] == 0xa5
}

/// A store that a stop left with its gate open, in the third command.
fn left_open<R: Abort>(rt: &R, alloc: Global, picks: &[Pick]) -> Image {
    let image = sealed_store(rt, alloc);
    for k in 0..1_000u64 {
        let (made, device) = served(rt, alloc, image.as_slice(), k, false, picks);
        let left = image_of(rt, alloc, device);
        if made == 2 && is_open(left.as_slice()) {
            return left;
        }
    }
    panic!(rt; "never open")
}

/// Opens a device with a fault at call k, and stops it: whether it was opened, and what is left.
fn reopened<R: Abort>(
    rt: &R,
    alloc: Global,
    image: &[Sector],
    k: u64,
    once: bool,
    picks: &[Pick],
) -> (bool, Image) {
    let (opens, device) = match opened_at(rt, alloc, image, k, once) {
        Ok(clerk) => (true, clerk.into_device()),
        Err(device) => (false, device),
    };
    (opens, image_of(rt, alloc, device.stop(picks)))
}

/// Asserts that the third command is found.
fn keeps<R: Abort>(rt: &R, alloc: Global, image: &[Sector]) {
    let text = found(rt, alloc, device_with(rt, alloc, image));
    holds!(rt; shows(text.as_slice(), 3));
}

/// Openings with a fault at each call in turn: the third command is found after each. How many they were.
fn faults_kept<R: Abort>(
    rt: &R,
    alloc: Global,
    image: &[Sector],
    once: bool,
    picks: &[Pick],
) -> u32 {
    let mut count = 0u32;
    for k in 0..1_000u64 {
        let (opens, left) = reopened(rt, alloc, image, k, once, picks);
        keeps(rt, alloc, left.as_slice());
        if opens {
            break;
        }
        count = count.saturating_add(1);
    }
    holds!(rt; count < 1_000);
    count
}

#[test]
fn a_fault_in_recovery_loses_nothing(rt: HostRuntime) {
    let rt = &rt;
    let alloc = rt.alloc();
    for fill in &FILLS {
        let picks = picks(rt, alloc, *fill);
        let image = left_open(rt, alloc, picks.as_slice());
        let stops = faults_kept(rt, alloc, image.as_slice(), false, picks.as_slice());
        let faults = faults_kept(rt, alloc, image.as_slice(), true, picks.as_slice());
        holds!(rt; (stops > 10) & (faults == stops));
    }
}

/// Stops in an opening at each call in turn, and in the next one: the third command is found after both. How many of the first
/// left the gate open.
fn stops_kept<R: Abort>(rt: &R, alloc: Global, image: &[Sector], picks: &[Pick]) -> u32 {
    let mut count = 0u32;
    let mut ended = false;
    for k in 0..1_000u64 {
        let (opens, left) = reopened(rt, alloc, image, k, false, picks);
        if opens {
            ended = true;
            break;
        }
        if is_open(left.as_slice()) {
            faults_kept(rt, alloc, left.as_slice(), false, picks);
            count = count.saturating_add(1);
        }
    }
    holds!(rt; ended);
    count
}

#[test]
fn a_stop_in_the_recovery_of_a_recovery_loses_nothing(rt: HostRuntime) {
    let rt = &rt;
    let alloc = rt.alloc();
    for fill in [Some(0xff), Some(0xa5)] {
        let picks = picks(rt, alloc, fill);
        let image = left_open(rt, alloc, picks.as_slice());
        holds!(rt; stops_kept(rt, alloc, image.as_slice(), picks.as_slice()) > 10);
    }
}
