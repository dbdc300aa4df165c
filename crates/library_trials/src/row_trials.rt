//! Rows in three orders, each removed again.
use crate::long_trials::{made, opened, passing, put_row, take_row};
use page_btree::{TreeError, get, write_first_row};
use page_store::{Pages, format_with};
use sector_device::Sector;
use sector_memory::{Fused, MemoryDevice};
use std::alloc::{AllocError, Global};
use std::collections::BTreeMap;
use std::process::Abort;

const ROWS: u32 = 2000;

/// The key of a step, in the order of a stride.
fn key_of(i: u32, stride: u32) -> u32 {
    i.wrapping_mul(stride) % ROWS
}

/// Puts a row, and returns whether its key existed.
fn put_number(
    alloc: Global,
    pages: &mut Pages<Fused>,
    n: u32,
    value: u32,
) -> Result<bool, TreeError> {
    put_row(alloc, pages, &n.to_be_bytes(), &value.to_be_bytes())
}

fn value_of<R: Abort>(rt: &R, alloc: Global, pages: &mut Pages<Fused>, n: u32) -> Option<u32> {
    let txn = pages.begin(alloc);
    let mut into = [0; 1024];
    let found = get(&txn, pages, &n.to_be_bytes(), &mut into);
    txn.abandon();
    match found.expect(rt, "not got") {
        Some(4) => Some(u32::from_be_bytes([into[0], into[1], into[2], into[3]])),
        _ => None,
    }
}

/// Puts a row into the map: whether its key was there.
pub fn insert(model: &mut BTreeMap<u32, u32>, n: u32, value: u32) -> Result<bool, AllocError> {
    match model.insert(n, value) {
        Ok(before) => Ok(before.is_some()),
        Err(_) => Err(AllocError),
    }
}

/// Whether the tree and the map have the same under a key.
fn agree<R: Abort>(
    rt: &R,
    alloc: Global,
    pages: &mut Pages<Fused>,
    model: &BTreeMap<u32, u32>,
    n: u32,
) -> bool {
    value_of(rt, alloc, pages, n) == model.get(&n).copied()
}

/// Puts each key twice in the order of a stride, and looks at another one each time.
fn put_all<R: Abort>(
    rt: &R,
    alloc: Global,
    pages: &mut Pages<Fused>,
    model: &mut BTreeMap<u32, u32>,
    stride: u32,
) {
    for i in 0..2 * ROWS {
        let n = key_of(i, stride);
        let was_there = insert(model, n, i).expect(rt, "no memory");
        let put = put_number(alloc, pages, n, i) == Ok(was_there);
        holds!(rt; put & agree(rt, alloc, pages, model, key_of(i, 31)));
    }
}

/// Removes each key twice, and looks at another one each time.
fn remove_all<R: Abort>(
    rt: &R,
    alloc: Global,
    pages: &mut Pages<Fused>,
    model: &mut BTreeMap<u32, u32>,
) {
    for i in 0..2 * ROWS {
        let n = key_of(i, 1333);
        let was_there = model.remove(&n).is_some();
        let removed = take_row(alloc, pages, &n.to_be_bytes()) == Ok(was_there);
        holds!(rt; removed & agree(rt, alloc, pages, model, key_of(i, 31)));
    }
}

#[test]
fn rows_are_those_of_a_map(rt: HostRuntime) {
    let rt = &rt;
    let alloc = rt.alloc();
    for stride in [1, 1999, 777] {
        let mut pages = made(rt, alloc, 700);
        let mut model = BTreeMap::new(alloc);
        let before = pages.free_pages();
        put_all(rt, alloc, &mut pages, &mut model, stride);
        let filled = pages.free_pages();
        remove_all(rt, alloc, &mut pages, &mut model);
        holds!(rt; (filled < before) & (pages.free_pages() == before));
    }
}

/// A new store whose root has the row of a key of seven.
fn made_with_seven<R: Abort>(rt: &R, alloc: Global, sectors: u32) -> Pages<Fused> {
    let mut root = [0; 4096];
    write_first_row(&mut root, &7u32.to_be_bytes(), &9u32.to_be_bytes());
    let mut device = passing(MemoryDevice::new(alloc, sectors).expect(rt, "no memory"));
    format_with(alloc, &mut device, 256, &root).expect(rt, "not formatted");
    opened(rt, alloc, device)
}

/// The bytes of page 1, which is the root.
fn root_of<R: Abort>(rt: &R, alloc: Global, pages: &mut Pages<Fused>) -> Sector {
    let txn = pages.begin(alloc);
    let mut bytes = [0; 4096];
    assert!(rt; txn.root() == 1 && txn.page_count() == 64);
    txn.read(pages, 1, &mut bytes).expect(rt, "not read");
    txn.abandon();
    bytes
}

/// Asserts that the row of a key of seven exists, that another one is put next to it, and that it
/// is removed.
fn changes<R: Abort>(rt: &R, alloc: Global, with: &mut Pages<Fused>) {
    let there = value_of(rt, alloc, with, 7) == Some(9);
    let put = put_number(alloc, with, 8, 1) == Ok(false);
    holds!(rt; there & put & (take_row(alloc, with, &7u32.to_be_bytes()) == Ok(true)));
}

#[test]
fn a_store_is_formatted_with_the_page_of_a_first_put(rt: HostRuntime) {
    let rt = &rt;
    let alloc = rt.alloc();
    let mut with = made_with_seven(rt, alloc, 323);
    let mut pages = made(rt, alloc, 323);
    let is_new = put_number(alloc, &mut pages, 7, 9) == Ok(false);
    holds!(rt; is_new & (with.free_pages() == 62) & (pages.free_pages() == 62));
    holds!(rt; root_of(rt, alloc, &mut with) == root_of(rt, alloc, &mut pages));
    changes(rt, alloc, &mut with);
}
