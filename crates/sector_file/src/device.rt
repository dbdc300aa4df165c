//! A file as a device.
ghost use Rattle.std.specs.Prelude.{◌≡◌, ◌≢◌, ◌<◌, ◌*◌, ◌^◌, length, false, IfErr, IsTrue};
ghost use Rattle.sector_file.specs.Told.{replay, after_opening, IsAsOpened};
ghost use Rattle.sector_file.specs.Recalled.{Recalls};

use crate::calls::{read_sector, sync_sectors, write_sector};
use crate::contents::Contents;
use crate::error::{FileError, of_making, of_opening};
use crate::reader::FileReader;
use crate::recent::Recent;
use crate::record::Record;
use crate::zeros::write_zeros;
use sector_device::{DeviceFault, SECTOR_SIZE, Sector, SectorDevice};
use std::alloc::Global;
use std::fs::{File, OpenOptions, TryLockError};
use std::marker::PhantomData;

/// A device whose sectors lie in a file of the operating system, one after the other. `S` says what they held as the file
/// was opened. The two sectors that were read last are held in memory, and are read there again until they are written.
#[derive(Drop)]
pub struct FileDevice<S: Contents> {
    file: File,
    count: u32,
    /// The size of the file in bytes, as the system reported it.
    size: u64,
    log: Record,
    recent: Recent,
    /// Whether a write or a sync found the disk full.
    is_full: bool,
    /// Whether the file was written since it was opened, or is new. If not, all that it holds is on
    /// the disk.
    is_written: bool,
    start: PhantomData<S>,
    ghost few: { length (replay S.Contents.sector log.calls).0 < 2 ^ 32 },
    ghost counted: { length (replay S.Contents.sector log.calls).0 ≡ count },
    ghost whole: { size ≡ 4096 * count },
    ghost recalled: { IsTrue (replay S.Contents.sector log.calls).3 → Recalls recent (replay S.Contents.sector log.calls).0 },
    ghost as_opened: { is_written ≡ false → IsAsOpened S.Contents.sector count (replay S.Contents.sector log.calls) },
}

/// Returns the size that the system reports for an open file.
fn size_of(file: &File) -> Result<u64, FileError>
    ensures { IfErr result (λ e. e ≡ FileError.DeviceFault) }
{
    match file.metadata() {
        Ok(found) => Ok(found.len()),
        Err(_) => Err(FileError::DeviceFault),
    }
}

/// Holds an open file until it is closed, so that no other open of it can be held: `InUse` where another one is. Where the system has
/// no such locks the file is as it was.
fn hold(file: &File) -> Result<(), FileError>
    ensures { IfErr result (λ e. e ≡ FileError.InUse) }
{
    match file.try_lock() {
        Err(TryLockError::WouldBlock) => Err(FileError::InUse),
        Ok(()) | Err(TryLockError::Error(_)) => Ok(()),
    }
}

/// Gives a file its size.
fn resize(file: &File, count: u32) -> Result<(), FileError>
    ensures { IfErr result (λ e. (e ≢ FileError.WrongSize) × (e ≢ FileError.InUse)) }
{
    match file.set_len(SECTOR_SIZE as u64 * count as u64) {
        Ok(()) => Ok(()),
        Err(error) => Err(of_making(&error)),
    }
}

/// Gives a new file its size, writes zeros to all of it and syncs it. So the file has no hole, and a disk that gets full later refuses
/// no write to it.
fn fill(file: &File, count: u32) -> Result<(), FileError>
    ensures { IfErr result (λ e. (e ≢ FileError.WrongSize) × (e ≢ FileError.InUse)) }
{
    resize(file, count)?;
    let mut writer = file;
    if let Err(error) = write_zeros(&mut writer, count) {
        return Err(of_making(&error));
    }
    match file.sync_all() {
        Ok(()) => Ok(()),
        Err(error) => Err(of_making(&error)),
    }
}

impl<S: Contents> FileDevice<S> {
    ghost use Rattle.std.specs.Prelude.{◌≡◌, ◌≢◌, ◌<◌, ◌+◌, ◌*◌, ℕ, IfOk, IfErr, IfSome};
    ghost use Rattle.sector_device.specs.claim.Disk.{Touches, Nowhere};
    ghost use Rattle.sector_device.specs.Disk.{IsSynced};
    ghost use Rattle.sector_file.specs.Device.{file_disk, reader_disk, first_image};
    ghost use Rattle.sector_file.specs.Reader.{IsReader};

    /// The device of an open file of this size.
    #[tactic(auto, using(crate::proofs::Steps::first_at))]
    fn of_size(alloc: Global, file: File, size: u64, count: u32) -> Result<FileDevice<S>, FileError>
        ensures ok { IfOk result (λ device. (size ≡ 4096 * count) × ((file_disk device).sectors ≡ count)) }
        ensures held { IfOk result (λ device. (i : ℕ) → i < count → (file_disk device).reads i ≡ S.Contents.sector i) }
        ensures reads { IfOk result (λ device. (file_disk device).reads ≡ first_image S.Contents.sector count) }
        ensures honest { IfOk result (λ device. (file_disk device).is_honest) }
        ensures opened { IfOk result (λ device. replay S.Contents.sector device.log.calls ≡ after_opening S.Contents.sector device.count) }
        ensures err { IfErr result (λ e. (e ≡ FileError.WrongSize) × (size ≢ 4096 * count)) }
    {
        if size != SECTOR_SIZE as u64 * count as u64 {
            return Err(FileError::WrongSize);
        }
        Ok(FileDevice {
            file,
            count,
            size,
            log: Record::opened::<S>(count),
            recent: Recent::none(alloc),
            is_full: false,
            is_written: true,
            start: PhantomData,
        })
    }

    /// Opens a file with exactly `count` sectors, and locks it until the device is dropped. Returns
    /// the first error that applies: NotFound, NotPermitted, WrongSize, InUse if another open of it
    /// holds the lock, DeviceFault if the system refused the opening, its size or a sync for any
    /// other reason. No sector is read or written. The file is synced, so a crash leaves what is
    /// read. `_start` is consumed, so that code over any `S` opens one file.
    pub fn open(
        rt: &HostRuntime,
        path: &str,
        count: u32,
        _start: S,
    ) -> Result<FileDevice<S>, FileError>
        ensures count { IfOk result (λ device. (file_disk device).sectors ≡ count) }
        ensures held { IfOk result (λ device. (i : ℕ) → i < count → (file_disk device).reads i ≡ S.Contents.sector i) }
        ensures reads { IfOk result (λ device. (file_disk device).reads ≡ first_image S.Contents.sector count) }
        ensures synced { IfOk result (λ device. IsSynced (file_disk device)) }
        ensures honest { IfOk result (λ device. (file_disk device).is_honest) }
        ensures err { IfErr result (λ e. (e ≢ FileError.Exists) × (e ≢ FileError.NoSpace)) }
    {
        let file = match OpenOptions::new().read(true).write(true).open(rt, path) {
            Ok(file) => file,
            Err(error) => return Err(of_opening(&error)),
        };
        let size = size_of(&file)?;
        let held = hold(&file);
        let mut device = FileDevice::<S>::of_size(rt.alloc(), file, size, count)?;
        held?;
        let lent = &mut device;
        if sync_sectors::<S>(&lent.file, &mut lent.log, &mut lent.is_full) {
            lent.is_written = false;
            Ok(device)
        } else {
            Err(FileError::DeviceFault)
        }
    }

    /// Creates a file of `count` sectors, writes it whole with zeros, and locks it. What else it has
    /// the caller writes. Returns Exists if a file exists, NotFound if its folder does not,
    /// NotPermitted and NoSpace as the system says, and DeviceFault if the system refused a call for
    /// any other reason. `_start` is consumed, as in `open`.
    pub fn create(
        rt: &HostRuntime,
        path: &str,
        count: u32,
        _start: S,
    ) -> Result<FileDevice<S>, FileError>
        ensures count { IfOk result (λ device. (file_disk device).sectors ≡ count) }
        ensures held { IfOk result (λ device. (i : ℕ) → i < count → (file_disk device).reads i ≡ S.Contents.sector i) }
        ensures honest { IfOk result (λ device. (file_disk device).is_honest) }
        ensures err { IfErr result (λ e. e ≢ FileError.WrongSize) }
    {
        let file = match OpenOptions::new()
            .read(true)
            .write(true)
            .create_new(true)
            .open(rt, path)
        {
            Ok(file) => file,
            Err(error) => return Err(of_making(&error)),
        };
        hold(&file)?;
        fill(&file, count)?;
        let size = size_of(&file)?;
        match FileDevice::of_size(rt.alloc(), file, size, count) {
            Ok(device) => Ok(device),
            Err(_) => Err(FileError::DeviceFault),
        }
    }

    /// Opens the file of a copy, which overwrites it: creates it if it does not exist, gives it
    /// `count` sectors, and locks it. Returns InUse if another open of it holds the lock, and the
    /// other errors of `create`. `_start` is consumed, as in `open`.
    pub fn create_over(
        rt: &HostRuntime,
        path: &str,
        count: u32,
        _start: S,
    ) -> Result<FileDevice<S>, FileError>
        ensures count { IfOk result (λ device. (file_disk device).sectors ≡ count) }
        ensures reads { IfOk result (λ device. (file_disk device).reads ≡ first_image S.Contents.sector count) }
        ensures honest { IfOk result (λ device. (file_disk device).is_honest) }
        ensures err { IfErr result (λ e. e ≢ FileError.WrongSize) }
    {
        let file = match OpenOptions::new()
            .read(true)
            .write(true)
            .create(true)
            .open(rt, path)
        {
            Ok(file) => file,
            Err(error) => return Err(of_making(&error)),
        };
        hold(&file)?;
        resize(&file, count)?;
        let size = size_of(&file)?;
        match FileDevice::of_size(rt.alloc(), file, size, count) {
            Ok(device) => Ok(device),
            Err(_) => Err(FileError::DeviceFault),
        }
    }

    /// Whether a write or a sync failed since the disk, or what its user may have of it, is full.
    pub fn is_full(&self) -> bool {
        self.is_full
    }

    /// Returns a reader of the file, which may go to another thread. Its descriptor is another
    /// handle of the same open file, so the lock stays until both are closed. Returns none if the
    /// system gave no descriptor, or if the device is new or was written since it was opened, so
    /// that a crash leaves what the reader reads.
    #[tactic(auto, using(crate::proofs::Readers::held_is, crate::proofs::Readers::synced_as_opened))]
    pub fn share(&self, alloc: Global) -> Option<FileReader<S>>
        ensures reader { IfSome result (λ reader. IsReader (file_disk self.now) (reader_disk reader)) }
        ensures held { IfSome result (λ reader. (file_disk self.now).reads ≡ first_image S.Contents.sector (file_disk self.now).sectors) }
        ensures synced { IfSome result (λ _. IsSynced (file_disk self.now)) }
    {
        if self.is_written {
            return None;
        }
        match self.file.try_clone() {
            Ok(file) => Some(FileReader::new(alloc, file, self.count)),
            Err(_) => None,
        }
    }

    /// Takes a reader back and closes it. Its calls count as made on the file after those of the device, in the device's own record. So if
    /// the device is honest then, the reader was. Readers are to be taken back before the device is written, since what they read is
    /// compared with what the device holds by now.
    pub fn take_back(&mut self, reader: FileReader<S>)
        ensures sectors { (file_disk self.new).sectors ≡ (file_disk self.old).sectors }
        ensures synced { IsSynced (file_disk self.old) → IsSynced (file_disk self.new) }
        ensures moves { (file_disk self.new).is_honest → Touches Nowhere (file_disk self.old) (file_disk self.new) }
        ensures reader { (file_disk self.new).is_honest → (file_disk self.old).reads ≡ first_image S.Contents.sector (file_disk self.old).sectors
            → (reader_disk reader).sectors ≡ (file_disk self.old).sectors → (reader_disk reader).is_honest }
        ensures faults { (file_disk self.new).is_honest → (file_disk self.new).faults ≡ (file_disk self.old).faults + (reader_disk reader).faults }
    {
        self.log.note_all(reader.log());
    }
}

impl<S: Contents> SectorDevice for FileDevice<S> {
    ghost use Rattle.sector_file.specs.Device.{file_disk};

    ghost disk = { file_disk };

    fn count(&self) -> u32 {
        self.count
    }

    fn read(&mut self, i: u32, sector: &mut Sector) -> Result<(), DeviceFault> {
        match self.recent.find(i) {
            Some(bytes) => {
                *sector = *bytes;
                return Ok(());
            }
            None => {}
        }
        let got = read_sector::<S>(&self.file, &mut self.log, i, sector);
        if got == SECTOR_SIZE {
            self.recent.note(i, sector);
            Ok(())
        } else {
            Err(DeviceFault)
        }
    }

    fn write(&mut self, i: u32, sector: &Sector) -> Result<(), DeviceFault> {
        self.recent.forget(i);
        self.is_written = true;
        let put = write_sector::<S>(&self.file, &mut self.log, i, sector, &mut self.is_full);
        if put == SECTOR_SIZE {
            Ok(())
        } else {
            Err(DeviceFault)
        }
    }

    fn sync(&mut self) -> Result<(), DeviceFault> {
        if sync_sectors::<S>(&self.file, &mut self.log, &mut self.is_full) {
            Ok(())
        } else {
            Err(DeviceFault)
        }
    }
}
