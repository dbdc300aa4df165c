//! Stores whose pages have one owner each, and stores with a spoiled page.
use crate::long_trials::{made, opened, put_long};
use byte_stream::progress::NoProgress;
use page_btree::{PageFault, PageFaultKind, PagesError, check_pages};
use page_store::Pages;
use sector_device::SectorDevice;
use sector_memory::Fused;
use std::alloc::Global;
use std::process::Abort;

/// The sector of page 0, after the header, the gate, the list and 256 copies.
const HEADER: u32 = 259;

/// A store of 64 pages with a root above three leaves.
fn grown<R: Abort>(rt: &R, alloc: Global) -> Pages<Fused> {
    let mut pages = made(rt, alloc, 323);
    for n in 0..8 {
        put_long(alloc, &mut pages, n).expect(rt, "not put");
    }
    pages
}

/// How many rows a store has, whose pages must be sound.
fn checked(alloc: Global, pages: Pages<Fused>) -> Result<u64, PagesError> {
    let mut pages = pages;
    let mut rows = 0;
    match check_pages(alloc, &mut pages, &mut NoProgress, &mut rows) {
        Ok(()) => Ok(rows),
        Err(error) => Err(error),
    }
}

/// Writes four other bytes into a page.
fn spoil<R: Abort>(rt: &R, device: &mut Fused, page: u32, at: usize, bytes: [u8; 4]) {
    let mut sector = [0; 4096];
    let i = HEADER.saturating_add(page);
    assert!(rt; i < device.count() && at <= 4092);
    device.read(i, &mut sector).expect(rt, "not read");
    sector[at..at + 4].copy_from_slice(&bytes);
    device.write(i, &sector).expect(rt, "not written");
}

/// Returns what is reported for such a store if four bytes of a page are changed.
fn told<R: Abort>(
    rt: &R,
    alloc: Global,
    page: u32,
    at: usize,
    bytes: [u8; 4],
) -> Result<u64, PagesError> {
    let mut device = grown(rt, alloc).into_device();
    spoil(rt, &mut device, page, at, bytes);
    checked(alloc, opened(rt, alloc, device))
}

/// The place at which a store is damaged, by which bytes, and what is reported for which page.
type Spoiled = (u32, usize, [u8; 4], u32, PageFaultKind);

/// Stores spoiled in the header and in the list of free pages, and in the tree: page 3 is the root, and pages 1, 2 and 4 are its leaves.
static SPOILED: [Spoiled; 15] = [
    (10, 100, [1, 0, 0, 0], 10, PageFaultKind::NotFree),
    (10, 0, [0, 0, 0, 10], 10, PageFaultKind::NamedTwice),
    (10, 0, [0, 0, 0, 64], 64, PageFaultKind::BeyondTheEnd),
    (63, 0, [0, 0, 0, 4], 4, PageFaultKind::ListGoesOn),
    (0, 8, [0, 0, 0, 58], 63, PageFaultKind::ListGoesOn),
    (0, 0, [0, 0, 0, 0], 1, PageFaultKind::Lost),
    (0, 0, [0, 0, 0, 5], 5, PageFaultKind::NamedTwice),
    (4, 0, [9, 0, 0, 2], 4, PageFaultKind::NotANode),
    (3, 0, [2, 0, 0, 3], 1, PageFaultKind::WrongLevel),
    (4, 0, [0, 0, 0, 0], 4, PageFaultKind::KeysOutOfOrder),
    (1, 7, [0, 0, 0, 1], 1, PageFaultKind::KeysOutOfOrder),
    (2, 2205, [0, 0, 0, 6], 2, PageFaultKind::KeysOutOfOrder),
    (3, 14, [0, 0, 0, 9], 3, PageFaultKind::KeysOutOfOrder),
    (3, 86, [0, 0, 0, 1], 1, PageFaultKind::NamedTwice),
    (3, 86, [0, 0, 0, 200], 200, PageFaultKind::BeyondTheEnd),
];

#[test]
fn each_page_has_one_owner(rt: HostRuntime) {
    let rt = &rt;
    let alloc = rt.alloc();
    let none = checked(alloc, made(rt, alloc, 323));
    let eight = checked(alloc, grown(rt, alloc));
    holds!(rt; (none == Ok(0)) & (eight == Ok(8)));
}

#[test]
fn a_spoiled_list_or_tree_is_told_with_its_page(rt: HostRuntime) {
    let rt = &rt;
    for row in &SPOILED {
        let (page, at, bytes, found, kind) = *row;
        let fault = PageFault { page: found, kind };
        holds!(rt; told(rt, rt.alloc(), page, at, bytes) == Err(PagesError::Unsound(fault)));
    }
}

#[test]
fn a_failing_device_is_told(rt: HostRuntime) {
    let rt = &rt;
    let alloc = rt.alloc();
    let device = grown(rt, alloc).into_device().stop(&[]);
    let mut pages = opened(rt, alloc, Fused::new(device, 40));
    let mut rows = 0;
    let first = check_pages(alloc, &mut pages, &mut NoProgress, &mut rows);
    let second = check_pages(alloc, &mut pages, &mut NoProgress, &mut rows);
    holds!(rt; (first == Err(PagesError::DeviceFault)) & (second == Err(PagesError::Halted)));
}
