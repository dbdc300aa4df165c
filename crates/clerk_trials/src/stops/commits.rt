//! A commit and an opening, stopped and failing at each call.
ghost use Rattle.std.specs.Prelude.{◌≤◌, ℕ};
ghost use Rattle.gate_journal.specs.claim.Contents.{page_count};
ghost use Rattle.gate_journal.specs.Store.{IsWithin};
ghost use Rattle.gate_journal.specs.claim.Writes.{writes_of};

use crate::devices::{FILLS, picks_of};
use crate::stops::recorder::{Recorder, SYNC};
use gate_journal::{Journal, PageError, PageWrites, format};
use sector_device::{Sector, SectorDevice};
use sector_memory::{Fused, MemoryDevice};
use std::alloc::Global;
use std::process::Abort;

/// The sectors of the least store: header, gate, list, 256 copies and 64 pages.
const LEAST: u32 = 323;

/// The first pages of a store, each of this byte.
fn first_pages<R: Abort>(rt: &R, alloc: Global, count: u32, byte: u8) -> PageWrites
    ensures { (n : ℕ) → count ≤ n → IsWithin (writes_of result) n }
{
    let mut writes = PageWrites::new(alloc).expect(rt, "no memory");
    for p in 0..count {
        writes.put(p, &[byte; 4096]).expect(rt, "no memory");
    }
    writes
}

/// Page 5 and the last page of the least store, each of this byte.
fn two_pages<R: Abort>(rt: &R, alloc: Global, byte: u8) -> PageWrites
    ensures { (n : ℕ) → 64 ≤ n → IsWithin (writes_of result) n }
{
    let mut writes = PageWrites::new(alloc).expect(rt, "no memory");
    writes.put(5, &[byte; 4096]).expect(rt, "no memory");
    writes.put(63, &[byte; 4096]).expect(rt, "no memory");
    writes
}

/// A new store of `sectors` sectors with `pages` pages. All calls of its device pass and are
/// recorded, so that a journal is compiled for one type of devices.
fn formatted<R: Abort>(rt: &R, alloc: Global, sectors: u32, pages: u32) -> Recorder {
    let memory = MemoryDevice::new(alloc, sectors).expect(rt, "no memory");
    let mut device = Recorder::passing(memory);
    let layout = format(&mut device, 256).expect(rt, "not formatted");
    holds!(rt; (layout.pages == pages) & (layout.journal_pages == 256));
    device
}

fn opened<R: Abort>(rt: &R, device: Recorder) -> Journal<Recorder>
    ensures { 64 ≤ page_count result }
{
    match Journal::open(device) {
        Ok(journal) => journal,
        Err(_) => panic!(rt; "not opened"),
    }
}

/// The least store, whose two pages are of ones.
fn stored<R: Abort>(rt: &R, alloc: Global) -> MemoryDevice {
    let mut journal = opened(rt, formatted(rt, alloc, LEAST, 64));
    let writes = two_pages(rt, alloc, 1);
    journal.commit(&writes).expect(rt, "not committed");
    journal.into_device().stop(&[])
}

/// The byte of the two pages. The device must open, and both be alike and whole.
fn reopened<R: Abort>(rt: &R, device: MemoryDevice) -> u8 {
    let mut journal = opened(rt, Recorder::passing(device));
    let mut page = [0; 4096];
    journal.read_page(5, &mut page).expect(rt, "not read");
    let byte = page[0];
    holds!(rt; page == [byte; 4096]);
    journal.read_page(63, &mut page).expect(rt, "not read");
    holds!(rt; page == [byte; 4096]);
    let _ = journal.into_device();
    byte
}

/// Writes pages: whether that was acknowledged, and whether the journal goes by it, which is halted once a call has failed.
fn written(journal: &mut Journal<Recorder>, writes: &PageWrites) -> (bool, bool)
    requires { IsWithin (writes_of writes.now) (page_count journal.old) }
{
    match journal.commit(writes) {
        Ok(()) => (true, !journal.is_halted()),
        Err(e) => {
            let halted = journal.is_halted();
            let again = journal.commit(writes);
            let fair = halted & (e == PageError::DeviceFault);
            (false, fair & (again == Err(PageError::Halted)))
        }
    }
}

/// Writes pages if the device opens, and crashes: whether it was acknowledged, whether everything
/// was as it must be, and what is left.
fn stop_after<R: Abort>(
    rt: &R,
    alloc: Global,
    writes: &PageWrites,
    device: Recorder,
    fill: Option<u8>,
) -> (bool, bool, u8)
    requires { (n : ℕ) → 64 ≤ n → IsWithin (writes_of writes.now) n }
{
    let (told, fair, device) = match Journal::open(device) {
        Ok(mut journal) => {
            let (told, fair) = written(&mut journal, writes);
            (told, fair, journal.into_device())
        }
        Err((e, device)) => (false, e == PageError::DeviceFault, device),
    };
    let byte = reopened(rt, device.stop(&picks_of(rt, alloc, LEAST, fill)));
    (told, fair, byte)
}

/// Each call fails from the k-th on.
#[test]
fn a_stop_leaves_all_pages_or_none(rt: HostRuntime) {
    let rt = &rt;
    let twos = two_pages(rt, rt.alloc(), 2);
    for fill in &FILLS {
        let mut ended = false;
        for calls in 0..20 {
            let device = Recorder::new(Fused::new(stored(rt, rt.alloc()), calls));
            let (told, _, byte) = stop_after(rt, rt.alloc(), &twos, device, *fill);
            holds!(rt; (byte == 2) | (byte == 1) & !told);
            ended = told;
        }
        holds!(rt; ended);
    }
}

/// One call fails.
#[test]
fn a_failure_halts_the_journal(rt: HostRuntime) {
    let rt = &rt;
    let twos = two_pages(rt, rt.alloc(), 2);
    for fill in &FILLS {
        for call in 0..20 {
            let device = Recorder::new(Fused::once(stored(rt, rt.alloc()), call));
            let (_, fair, byte) = stop_after(rt, rt.alloc(), &twos, device, *fill);
            holds!(rt; fair & ((byte == 1) | (byte == 2)));
        }
    }
}

fn read_sector<R: Abort>(rt: &R, device: &mut MemoryDevice, i: u32, sector: &mut Sector) {
    assert!(rt; i < device.count());
    device.read(i, sector).expect(rt, "not read");
}

/// A store whose gate is open on the disk, as ten calls of opening and commit leave it.
fn left_open<R: Abort>(rt: &R, alloc: Global, writes: &PageWrites, fill: Option<u8>) -> MemoryDevice
    requires { (n : ℕ) → 64 ≤ n → IsWithin (writes_of writes.now) n }
{
    let mut journal = opened(rt, Recorder::new(Fused::new(stored(rt, alloc), 10)));
    holds!(rt; journal.commit(writes).is_err());
    let mut device = journal
        .into_device()
        .stop(&picks_of(rt, alloc, LEAST, fill));
    let mut gate = [0; 4096];
    read_sector(rt, &mut device, 1, &mut gate);
    holds!(rt; gate[0] == 0xa5);
    device
}

/// An opening that is stopped after some calls.
fn opening_stopped<R: Abort>(
    rt: &R,
    alloc: Global,
    device: MemoryDevice,
    calls: u64,
    fill: Option<u8>,
) -> MemoryDevice {
    let device = match Journal::open(Recorder::new(Fused::new(device, calls))) {
        Ok(journal) => journal.into_device(),
        Err((_, device)) => device,
    };
    device.stop(&picks_of(rt, alloc, LEAST, fill))
}

#[test]
fn a_stop_in_recovery_loses_nothing(rt: HostRuntime) {
    let rt = &rt;
    let alloc = rt.alloc();
    let twos = two_pages(rt, alloc, 2);
    for fill in [Some(0xff), Some(0xa5)] {
        for first in 0..14 {
            for second in 0..14 {
                let device = left_open(rt, alloc, &twos, fill);
                let device = opening_stopped(rt, alloc, device, first, fill);
                let device = opening_stopped(rt, alloc, device, second, fill);
                holds!(rt; reopened(rt, device) == 2);
            }
        }
    }
}

/// Commits a page to a device that notes its calls.
fn noted<R: Abort>(rt: &R, alloc: Global, device: MemoryDevice) -> Recorder {
    let mut journal = opened(rt, Recorder::passing(device));
    let mut writes = PageWrites::new(alloc).expect(rt, "no memory");
    writes.put(5, &[7; 4096]).expect(rt, "no memory");
    journal.commit(&writes).expect(rt, "not committed");
    journal.into_device()
}

/// What a commit of a page writes and syncs, with the opening before it.
static CALLS: [u32; 16] = [
    SYNC, SYNC, 2, 3, SYNC, 1, SYNC, 264, SYNC, 1, SYNC, 0, 0, 0, 0, 0,
];

#[test]
fn a_commit_makes_these_calls(rt: HostRuntime) {
    let rt = &rt;
    let device = formatted(rt, rt.alloc(), 2000, 1741).stop(&[]);
    let recorder = noted(rt, rt.alloc(), device);
    holds!(rt; (recorder.count == 11) & (recorder.calls == CALLS));
    let mut device = recorder.stop(&[]);
    let mut sector = [7; 4096];
    read_sector(rt, &mut device, 2, &mut sector);
    holds!(rt; sector.starts_with(b"\0\0\0\x01\0\0\0\x05"));
}

/// A device with a sector too few is not formatted, and opens as no store.
fn too_small<R: Abort>(rt: &R, alloc: Global) {
    let memory = MemoryDevice::new(alloc, LEAST - 1).expect(rt, "no memory");
    let mut device = Recorder::passing(memory);
    holds!(rt; format(&mut device, 256).err() == Some(PageError::TooSmall));
    let (e, mut device) = match Journal::open(device) {
        Ok(journal) => (None, journal.into_device()),
        Err((e, device)) => (Some(e), device),
    };
    holds!(rt; (e == Some(PageError::NotAStore)) & device.sync().is_ok());
}

/// Commits the largest number of pages that the journal allows; one more is refused.
fn most_pages<R: Abort>(rt: &R, alloc: Global, journal: &mut Journal<Recorder>)
    requires { 257 ≤ page_count journal.old }
{
    let writes = first_pages(rt, alloc, 256, 1);
    holds!(rt; journal.commit(&writes) == Ok(()));
    let too_many = first_pages(rt, alloc, 257, 1);
    holds!(rt; too_many.len() == 257);
    holds!(rt; journal.commit(&too_many) == Err(PageError::TooManyPages));
}

#[test]
fn the_least_store_and_the_most_pages(rt: HostRuntime) {
    let rt = &rt;
    let alloc = rt.alloc();
    too_small(rt, alloc);
    let mut journal = opened(rt, formatted(rt, alloc, 2000, 1741));
    assert!(rt; journal.page_count() == 1741);
    holds!(rt; journal.journal_pages() == 256);
    most_pages(rt, alloc, &mut journal);
    let _ = journal.into_device();
}

#[test]
fn a_new_store_has_its_header(rt: HostRuntime) {
    let rt = &rt;
    let mut device = formatted(rt, rt.alloc(), 2000, 1741).stop(&[]);
    let mut sector = [7; 4096];
    read_sector(rt, &mut device, 0, &mut sector);
    let mut want = [0; 4096];
    want[..20].copy_from_slice(b"PLANDESK\0\0\0\x01\0\0\x01\0\0\0\x06\xcd");
    holds!(rt; sector == want);
}
