//! A handle of a file that a device shares, for reads alone.
ghost use Rattle.std.specs.Prelude.{◌≡◌, ◌<◌, ◌^◌, length, IsTrue};
ghost use Rattle.sector_file.specs.Runs.{IsHeldRun};
ghost use Rattle.sector_file.specs.Told.{replay_on, after_sharing, only_reads};

use crate::calls::{read_run, read_sector};
use crate::contents::Contents;
use crate::record::Record;
use crate::run::{HeldRun, RUN_SECTORS};
use sector_device::{DeviceFault, SECTOR_SIZE, Sector, SectorDevice};
use std::alloc::Global;
use std::fs::File;
use std::marker::PhantomData;

/// A read-only device of a file that another device shares (`FileDevice::share`). It may go to
/// another thread. If a sector follows the one that was read last, the next sectors are read with
/// it and held in memory. It keeps its own record of its calls, which `FileDevice::take_back` joins
/// to the device's.
#[derive(Drop)]
pub struct FileReader<S: Contents> {
    file: File,
    count: u32,
    log: Record,
    run: HeldRun,
    /// The sector after the one that was read last.
    next: u32,
    start: PhantomData<S>,
    ghost few: { length (replay_on S.Contents.sector (after_sharing S.Contents.sector count) log.calls).0 < 2 ^ 32 },
    ghost counted: { length (replay_on S.Contents.sector (after_sharing S.Contents.sector count) log.calls).0 ≡ count },
    ghost reading: { IsTrue (only_reads log.calls) },
    ghost held: { IsTrue (replay_on S.Contents.sector (after_sharing S.Contents.sector count) log.calls).3
        → IsHeldRun run (replay_on S.Contents.sector (after_sharing S.Contents.sector count) log.calls).0 },
}

impl<S: Contents> FileReader<S> {
    ghost use Rattle.std.specs.Prelude.{◌≡◌, ◌<◌, [], length, true, false, OnOk};
    ghost use Rattle.sector_device.specs.claim.Disk.{Touches, Nowhere};
    ghost use Rattle.sector_device.specs.Disk.{HasCause};
    ghost use Rattle.sector_file.specs.Device.{reader_disk};

    /// A reader of an open file of `count` sectors.
    #[tactic(auto, using(crate::proofs::Readers::reader_long, crate::proofs::Runs::none_held))]
    pub(crate) fn new(alloc: Global, file: File, count: u32) -> FileReader<S>
        ensures count { result.count ≡ count }
        ensures calls { result.log.calls ≡ [] }
    {
        FileReader {
            file,
            count,
            log: Record::new(),
            run: HeldRun::none(alloc),
            next: 0,
            start: PhantomData,
        }
    }

    /// Reads a sector and those that follow it by one call, where there are enough: whether they are held then, and this one first.
    #[tactic(auto, using(crate::proofs::Runs::run_read))]
    fn read_ahead(&mut self, i: u32) -> bool
        ensures sectors { (reader_disk self.new).sectors ≡ (reader_disk self.old).sectors }
        ensures moves { (reader_disk self.new).is_honest → Touches Nowhere (reader_disk self.old) (reader_disk self.new) }
        ensures passed { (reader_disk self.new).faults ≡ (reader_disk self.old).faults }
        ensures reads { (reader_disk self.new).reads ≡ (reader_disk self.old).reads }
        ensures holds { result ≡ true → (self.new.run.is ≡ true) × (self.new.run.first ≡ i) × (0 < length self.new.run.sectors.items) }
    {
        self.run.is = false;
        if self.count.saturating_sub(i) < RUN_SECTORS as u32 {
            return false;
        }
        if self.run.sectors.len() != RUN_SECTORS {
            return false;
        }
        if !read_run::<S>(
            &self.file,
            &mut self.log,
            i,
            self.run.sectors.as_mut_slice(),
        ) {
            return false;
        }
        self.run.first = i;
        self.run.is = true;
        self.next = i.wrapping_add(1);
        true
    }

    /// Reads a sector by a call of its own.
    #[tactic(auto, using(crate::proofs::Readers::reader_long))]
    fn read_one(&mut self, i: u32, sector: &mut Sector) -> Result<(), DeviceFault>
        ensures sectors { (reader_disk self.new).sectors ≡ (reader_disk self.old).sectors }
        ensures model { (reader_disk self.new).is_honest → Touches Nowhere (reader_disk self.old) (reader_disk self.new)
            × HasCause (reader_disk self.old) (reader_disk self.new) result }
        ensures reads { (reader_disk self.new).is_honest → OnOk result (sector.new ≡ (reader_disk self.old).reads i) }
    {
        self.next = i.wrapping_add(1);
        let got = read_sector::<S>(&self.file, &mut self.log, i, sector);
        if got == SECTOR_SIZE {
            Ok(())
        } else {
            Err(DeviceFault)
        }
    }

    /// The record of its calls.
    pub(crate) fn log(&self) -> &Record
        ensures { result.now ≡ self.now.log }
    {
        &self.log
    }
}

/// A write is refused: the file stays as it is. What a reader reads was on the disk as it was shared, so there is nothing to sync.
impl<S: Contents> SectorDevice for FileReader<S> {
    ghost use Rattle.sector_file.specs.Device.{reader_disk};

    ghost disk = { reader_disk };

    fn count(&self) -> u32 {
        self.count
    }

    fn read(&mut self, i: u32, sector: &mut Sector) -> Result<(), DeviceFault> {
        match self.run.find(i) {
            Some(bytes) => {
                *sector = *bytes;
                self.next = i.wrapping_add(1);
                return Ok(());
            }
            None => {}
        }
        if self.next != i {
            return self.read_one(i, sector);
        }
        if !self.read_ahead(i) {
            return self.read_one(i, sector);
        }
        *sector = self.run.sectors[0];
        Ok(())
    }

    fn write(&mut self, _i: u32, _sector: &Sector) -> Result<(), DeviceFault> {
        self.log.not_synced::<S>();
        Err(DeviceFault)
    }

    fn sync(&mut self) -> Result<(), DeviceFault> {
        Ok(())
    }
}
