//! Devices in memory, what a stop leaves of them, and the call that fails; a journal on one; a file that isn't there.
use gate_journal::{Journal, PageWrites, format};
use sector_device::SectorDevice;
use sector_file::{FileDevice, FileError, Unknown};
use sector_memory::{FailOnce, Fused, MemoryDevice};

/// Whether a sector has this byte.
fn has_byte<D: SectorDevice>(device: &mut D, i: u32, byte: u8) -> bool {
    let mut sector = [0; 4096];
    i < device.count() && device.read(i, &mut sector).is_ok() && sector[9] == byte
}

/// Whether a sector of sevens was written.
fn writes<D: SectorDevice>(device: &mut D, i: u32) -> bool {
    i < device.count() && device.write(i, &[7; 4096]).is_ok()
}

#[test]
fn a_stop_tears_what_is_not_synced(rt: HostRuntime) {
    let rt = &rt;
    let mut device = MemoryDevice::new(rt.alloc(), 8).expect(rt, "no memory");
    let synced = writes(&mut device, 5) & device.sync().is_ok();
    holds!(rt; synced & writes(&mut device, 6) & writes(&mut device, 7));
    let mut device = device.stop(&[(5, [255; 4096]), (6, [165; 4096]), (6, [255; 4096])]);
    let stays = (device.count() == 8) & has_byte(&mut device, 5, 7);
    holds!(rt; stays & has_byte(&mut device, 6, 255) & has_byte(&mut device, 7, 7));
}

#[test]
fn the_chosen_call_fails(rt: HostRuntime) {
    let rt = &rt;
    let device = MemoryDevice::new(rt.alloc(), 8).expect(rt, "no memory");
    let mut device = Fused::new(device, 1);
    holds!(rt; writes(&mut device, 5) & device.sync().is_err() & device.sync().is_err());
    let mut device = FailOnce::new(device.stop(&[(5, [255; 4096])]), 1);
    let once = (device.count() == 8) & has_byte(&mut device, 5, 255);
    holds!(rt; once & !writes(&mut device, 6) & device.sync().is_ok());
    let mut device = device.stop(&[(6, [255; 4096])]);
    holds!(rt; has_byte(&mut device, 6, 0));
}

/// What the header of a store of 2,000 sectors with 256 journal pages begins with.
const HEADER: &[u8] = b"PLANDESK\0\0\0\x01\0\0\x01\0\0\0\x06\xcd";

#[test]
fn a_journal_commits_a_page(rt: HostRuntime) {
    let rt = &rt;
    let alloc = rt.alloc();
    let mut device = MemoryDevice::new(alloc, 2_000).expect(rt, "no memory");
    holds!(rt; format(&mut device, 256).is_ok());
    let mut journal = Journal::open(device).ok().expect(rt, "not opened");
    assert!(rt; journal.page_count() == 1_741);
    let mut writes = PageWrites::new(alloc).expect(rt, "no memory");
    writes.push(5, &[7; 4096]).expect(rt, "no memory");
    holds!(rt; (journal.journal_pages() == 256) & journal.commit(&writes).is_ok());
    let mut page = [0; 4096];
    holds!(rt; journal.read_page(5, &mut page).is_ok() & (page[4095] == 7));
    let mut device = journal.into_device();
    let mut sector = [0; 4096];
    assert!(rt; device.count() == 2_000);
    holds!(rt; device.read(0, &mut sector).is_ok() & sector.starts_with(HEADER));
}

#[test]
fn a_file_that_is_not_there_is_no_device(rt: HostRuntime) {
    let opened = FileDevice::open(&rt, "no folder/no store", 400, Unknown);
    let made = FileDevice::create(&rt, "no folder/no store", 400, Unknown);
    holds!(&rt; opened.err() == Some(FileError::NotFound));
    holds!(&rt; made.err() == Some(FileError::NotFound));
}
