//! Rows scanned under prefixes, beside an ordered map.
ghost use Rattle.std.specs.Prelude.{◌≤◌, length};

use crate::long_trials::{made, put_row};
use crate::row_trials::insert;
use btree_scan::{Row, scan};
use page_btree::TreeError;
use page_store::Pages;
use sector_device::SectorDevice;
use sector_memory::{Fused, MemoryDevice};
use std::alloc::Global;
use std::collections::BTreeMap;
use std::process::Abort;

pub const ROWS: u32 = 2000;

/// The key of a number below 2 to the 24. Keys have the order of their numbers.
fn key_of(n: u32) -> [u8; 3] {
    let [_, a, b, c] = n.to_be_bytes();
    [a, b, c]
}

/// The value of a number, which is so long that the rows have some thirty leaves.
fn value_of(value: u32) -> [u8; 40] {
    let mut bytes = [0; 40];
    bytes[..4].copy_from_slice(&value.to_be_bytes());
    bytes
}

/// Whether a row has these numbers.
fn has_numbers(row: &Row, n: u32, value: u32) -> bool {
    if row.value.as_slice().len() != 40 {
        return false;
    }
    match (row.key.as_slice(), row.value.as_slice()) {
        ([a, b, c], [d, e, f, g, ..]) => {
            u32::from_be_bytes([0, *a, *b, *c]) == n
                && u32::from_be_bytes([*d, *e, *f, *g]) == value
        }
        _ => false,
    }
}

/// Rows in five groups of keys, put in no order.
pub fn stored<R: Abort>(rt: &R, alloc: Global, model: &mut BTreeMap<u32, u32>) -> Pages<Fused> {
    let mut pages = made(rt, alloc, 700);
    for i in 0..ROWS {
        let n = (i % 5) * 0x10_0000 + i * 777 % ROWS;
        let put = put_row(alloc, &mut pages, &key_of(n), &value_of(i)).is_ok();
        holds!(rt; put & insert(model, n, i).is_ok());
    }
    pages
}

/// How many rows come under a prefix that are those between two numbers in the map, whether another call gives none, and the
/// fault.
pub fn scanned<D: SectorDevice>(
    alloc: Global,
    pages: &mut Pages<D>,
    model: &BTreeMap<u32, u32>,
    prefix: &[u8],
    from: u32,
    to: u32,
) -> (u32, bool, Option<TreeError>)
    requires short { length prefix.now ≤ 1024 }
    requires order { from ≤ to }
{
    let txn = pages.begin(alloc);
    let mut scan = scan(prefix);
    let mut row = Row::empty();
    let mut found = 0u32;
    for (n, value) in model.range(from..to) {
        let is_there = scan.next(&txn, pages, &mut row) & has_numbers(&row, *n, *value);
        if !is_there {
            break;
        }
        found = found.saturating_add(1);
    }
    let more = scan.next(&txn, pages, &mut row);
    txn.abandon();
    (found, more, scan.fault())
}

/// Prefixes, the numbers in the map from one on to another, and how many they are.
static PREFIXES: [(&[u8], u32, u32, u32); 9] = [
    (&[], 0, 0x100_0000, 2000),
    (&[0x00], 0, 0x1_0000, 400),
    (&[0x20], 0x20_0000, 0x21_0000, 400),
    (&[0x40], 0x40_0000, 0x41_0000, 400),
    (&[0x10, 0x02], 0x10_0200, 0x10_0300, 52),
    (&[0x30, 0x07, 0xcc], 0x30_07cc, 0x30_07cd, 1),
    (&[0x30, 0x07, 0xcc, 0x00], 0, 0, 0),
    (&[0x11], 0, 0, 0),
    (&[0xff; 72], 0, 0, 0),
];

/// Whether just the map's rows come under a prefix.
fn is_scanned(
    alloc: Global,
    pages: &mut Pages<Fused>,
    model: &BTreeMap<u32, u32>,
    row: (&[u8], u32, u32, u32),
) -> bool {
    let (prefix, from, to, count) = row;
    prefix.len() <= 1024
        && from <= to
        && scanned(alloc, pages, model, prefix, from, to) == (count, false, None)
}

#[test]
fn rows_under_a_prefix_are_a_maps_range(rt: HostRuntime) {
    let rt = &rt;
    let alloc = rt.alloc();
    let mut model = BTreeMap::new(alloc);
    let mut pages = stored(rt, alloc, &mut model);
    for row in &PREFIXES {
        holds!(rt; is_scanned(alloc, &mut pages, &model, *row));
    }
}

/// Scans all rows of a store, where one call of the device fails, and gives the device back.
fn fail_at(
    alloc: Global,
    device: MemoryDevice,
    model: &BTreeMap<u32, u32>,
    k: u64,
) -> ((u32, bool, Option<TreeError>), MemoryDevice) {
    match Pages::open(alloc, Fused::once(device, k)) {
        Ok(mut pages) => {
            let told = scanned(alloc, &mut pages, model, &[], 0, 0x100_0000);
            (told, pages.into_device().stop(&[]))
        }
        Err((_, device)) => ((0, false, Some(TreeError::DeviceFault)), device.stop(&[])),
    }
}

#[test]
fn a_fault_ends_the_scan_and_is_kept(rt: HostRuntime) {
    let rt = &rt;
    let alloc = rt.alloc();
    let mut model = BTreeMap::new(alloc);
    let mut device = stored(rt, alloc, &mut model).into_device().stop(&[]);
    let mut midway = 0u32;
    for k in 0..80 {
        let ((found, more, fault), same) = fail_at(alloc, device, &model, k);
        device = same;
        holds!(rt; !more & (fault.is_none() == (found == ROWS)));
        let is_midway = (found > 0) & (fault == Some(TreeError::DeviceFault));
        midway = midway.saturating_add(u32::from(is_midway));
    }
    holds!(rt; midway > 5);
    let (whole, _) = fail_at(alloc, device, &model, 1000);
    holds!(rt; whole == (ROWS, false, None));
}
