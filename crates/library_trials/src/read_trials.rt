//! How often a scan of all rows reads each page.
use crate::recorder::{Recorder, SECTORS};
use crate::scan_trials::{ROWS, scanned, stored};
use page_store::Pages;
use sector_device::SectorDevice;
use sector_memory::MemoryDevice;
use std::collections::BTreeMap;

/// The sector of page 1, after the header, the gate, the list, 256 copies and page 0.
const FIRST: u32 = 260;

/// Whether the sector has a node at the lowest level.
fn is_leaf(device: &mut MemoryDevice, i: u32) -> bool {
    let mut sector = [0; 4096];
    i < device.count() && device.read(i, &mut sector).is_ok() && sector[0] == 0
}

/// How many leaves were read, and how many of them more than once.
fn leaves_read(device: &mut MemoryDevice, reads: &[u8; 700]) -> (u32, u32) {
    let mut leaves = 0u32;
    let mut again = 0u32;
    for i in FIRST..SECTORS {
        let count = reads[i as usize];
        if count > 0 && is_leaf(device, i) {
            leaves = leaves.saturating_add(1);
            if count > 1 {
                again = again.saturating_add(1);
            }
        }
    }
    (leaves, again)
}

#[test]
fn a_scan_of_all_rows_reads_each_leaf_once(rt: HostRuntime) {
    let rt = &rt;
    let alloc = rt.alloc();
    let mut model = BTreeMap::new(alloc);
    let device = stored(rt, alloc, &mut model).into_device().stop(&[]);
    let mut pages = Pages::open(alloc, Recorder::new(device))
        .ok()
        .expect(rt, "not opened");
    let told = scanned(alloc, &mut pages, &model, &[], 0, 0x100_0000);
    let recorder = pages.into_device();
    let reads = recorder.reads();
    let (leaves, again) = leaves_read(&mut recorder.into_device(), &reads);
    holds!(rt; (told == (ROWS, false, None)) & (leaves > 4) & (again == 0));
}
