//! The commits of a put and of a remove, stopped at each call of the device.
use crate::long_trials::{has_long, made, passing, put_long, remove_long};
use page_btree::TreeError;
use page_store::Pages;
use sector_device::Sector;
use sector_memory::{Fused, MemoryDevice};
use std::alloc::Global;
use std::process::Abort;

/// The sectors of the least store, which has 64 pages.
const LEAST: u32 = 323;

/// What a stop leaves in the sectors that were not on the disk: this byte in those whose number is divided by the other number,
/// and what a read gives in the others.
const FILLS: [(u8, u32); 5] = [(0, 1), (0xff, 1), (0xa5, 1), (0xa5, 2), (0, LEAST)];

/// Picks for a stop.
fn picks<R: Abort>(rt: &R, alloc: Global, fill: (u8, u32)) -> Vec<(u64, Sector)> {
    let mut all = Vec::new(alloc);
    for i in 0..LEAST {
        if fill.1 > 0 && i % fill.1 == 0 {
            let pick = (i as u64, [fill.0; 4096]);
            holds!(rt; all.push(pick).is_ok());
        }
    }
    all
}

/// A store with `rows` rows. Three rows are one full leaf; a fourth row cuts it and makes a root
/// above both.
fn stored<R: Abort>(rt: &R, alloc: Global, rows: u32) -> MemoryDevice {
    let mut pages = made(rt, alloc, LEAST);
    for n in 0..rows {
        holds!(rt; put_long(alloc, &mut pages, n).is_ok());
    }
    pages.into_device().stop(&[])
}

/// Puts the fourth row next to three, or removes it from four, whose leaf is then given back.
/// Returns whether that was acknowledged.
fn turn(alloc: Global, pages: &mut Pages<Fused>, rows: u32) -> bool {
    if rows == 3 {
        put_long(alloc, pages, 3).is_ok()
    } else {
        remove_long(alloc, pages, 3).is_ok()
    }
}

/// Returns which of the rows exist.
fn rows_of(alloc: Global, pages: &mut Pages<Fused>) -> Result<[bool; 5], TreeError> {
    let mut rows = [false; 5];
    for n in 0..5u32 {
        rows[n as usize] = has_long(alloc, pages, n)?;
    }
    Ok(rows)
}

/// Returns the free pages as a number that depends on their order.
fn free_of(alloc: Global, pages: &mut Pages<Fused>) -> Option<u64> {
    let mut txn = pages.begin(alloc);
    let mut told = 0u64;
    for _ in 0..pages.free_pages() {
        let page = txn.take_page(pages).ok()?;
        told = told.wrapping_mul(67).wrapping_add(page as u64);
    }
    Some(told)
}

/// The rows and the free pages of a device that is opened.
fn reopened(alloc: Global, device: MemoryDevice) -> Option<([bool; 5], u64)> {
    let mut pages = Pages::open(alloc, passing(device)).ok()?;
    let rows = rows_of(alloc, &mut pages).ok()?;
    let free = free_of(alloc, &mut pages)?;
    Some((rows, free))
}

/// A turn where the device opens: whether it was acknowledged.
fn turned(alloc: Global, device: Fused, rows: u32) -> (bool, Fused) {
    match Pages::open(alloc, device) {
        Ok(mut pages) => {
            let told = turn(alloc, &mut pages, rows);
            (told, pages.into_device())
        }
        Err((_, device)) => (false, device),
    }
}

/// A turn that is stopped after some calls: whether it was acknowledged, and what is left.
fn stop_after<R: Abort>(
    rt: &R,
    alloc: Global,
    rows: u32,
    calls: u64,
    fill: (u8, u32),
) -> (bool, Option<([bool; 5], u64)>) {
    let device = Fused::new(stored(rt, alloc, rows), calls);
    let (told, device) = turned(alloc, device, rows);
    (told, reopened(alloc, device.stop(&picks(rt, alloc, fill))))
}

/// What is left: the first `rows` rows, and the free pages, beginning with `first` if it is not 0,
/// and then those from `from` on.
fn standing(rows: usize, first: u64, from: u64) -> Option<([bool; 5], u64)> {
    let mut there = [false; 5];
    for n in 0..5 {
        there[n] = n < rows;
    }
    let mut told = first;
    for page in from..64 {
        told = told.wrapping_mul(67).wrapping_add(page);
    }
    Some((there, told))
}

#[test]
fn a_stop_leaves_the_map_before_or_after(rt: HostRuntime) {
    let rt = &rt;
    let put = (3, standing(3, 0, 2), standing(4, 0, 4));
    let removed = (4, standing(4, 0, 4), standing(3, 2, 4));
    for (rows, before, after) in [put, removed] {
        for fill in FILLS {
            let mut ended = false;
            for calls in 0..40 {
                let (told, stands) = stop_after(rt, rt.alloc(), rows, calls, fill);
                holds!(rt; (stands == after) | ((stands == before) & !told));
                ended = told;
            }
            holds!(rt; ended);
        }
    }
}
