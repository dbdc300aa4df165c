//! Files of copies of a store, which another device of the program holds.
ghost use Rattle.std.specs.Prelude.{◌≡◌, codes};
ghost use Rattle.std.specs.Str.{bytes_eq};

use crate::contents::Contents;
use crate::error::{FileError, of_making, of_opening};
use crate::reader::FileReader;
use sector_device::SECTOR_SIZE;
use std::alloc::Global;
use std::fs::{File, TryLockError, remove_file, rename, symlink_metadata};
use std::io::ErrorKind;
use std::os::unix::fs::FileExt;

/// Whether another open of a file holds it. Where the system has no such locks, any file counts as
/// held if `without`.
fn is_held(file: &File, without: bool) -> bool {
    match file.try_lock_shared() {
        Err(TryLockError::WouldBlock) => true,
        Err(TryLockError::Error(_)) => without,
        Ok(()) => {
            let _ = file.unlock();
            false
        }
    }
}

/// The file of a store, opened for reading next to the device that holds it.
#[derive(Drop)]
pub struct HeldFile {
    file: File,
}

impl HeldFile {
    ghost use Rattle.std.specs.Prelude.{◌≡◌, IfSome};
    ghost use Rattle.sector_device.specs.Disk.{IsSynced};
    ghost use Rattle.sector_file.specs.Device.{reader_disk, first_image};

    /// Opens a file for reading. Returns none if the system refuses.
    pub fn open(rt: &HostRuntime, path: &str) -> Option<HeldFile> {
        match File::open(rt, path) {
            Ok(file) => Some(HeldFile { file }),
            Err(_) => None,
        }
    }

    /// Returns the number of whole sectors that the file has, if the system gives its size.
    fn count(&self) -> Option<u32> {
        match self.file.metadata() {
            Ok(found) => Some((found.len() / SECTOR_SIZE as u64).min(u32::MAX as u64) as u32),
            Err(_) => None,
        }
    }

    /// Returns a reader of what the file holds now. Returns none if no device holds the file, or if
    /// the system refuses a call. `_start` is consumed, as in `FileDevice::open`.
    pub fn reader<S: Contents>(&self, alloc: Global, _start: S) -> Option<FileReader<S>>
        ensures reads { IfSome result (λ reader. (reader_disk reader).reads ≡ first_image S.Contents.sector (reader_disk reader).sectors) }
        ensures honest { IfSome result (λ reader. (reader_disk reader).is_honest) }
        ensures calm { IfSome result (λ reader. (reader_disk reader).faults ≡ 0) }
    {
        if !is_held(&self.file, true) {
            return None;
        }
        let count = self.count()?;
        match self.file.try_clone() {
            Ok(file) => Some(FileReader::new(alloc, file, count)),
            Err(_) => None,
        }
    }
}

/// Whether a file's first bytes are those with which every store begins.
fn begins_store(first: &[u8]) -> bool
    ensures { result ≡ bytes_eq first.now (codes "PLANDESK") }
{
    first == b"PLANDESK".as_slice()
}

/// Whether an open file is empty or begins as a store does.
fn is_replaceable(file: &File) -> bool {
    let mut first = [0u8; 8];
    match file.read_exact_at(&mut first, 0) {
        Ok(()) => begins_store(&first),
        Err(error) => error.kind() == ErrorKind::UnexpectedEof,
    }
}

/// Checks that a copy may take the place of a file, if there is one. Returns InUse if another open
/// of it holds it, Exists if it is not a store, and NotPermitted if it is no regular file.
pub fn check_place(rt: &HostRuntime, path: &str) -> Result<(), FileError> {
    match symlink_metadata(rt, path) {
        Ok(found) => {
            if !found.is_file() {
                return Err(FileError::NotPermitted);
            }
        }
        Err(error) => {
            if error.kind() == ErrorKind::NotFound {
                return Ok(());
            }
            return Err(of_opening(&error));
        }
    }
    let file = match File::open(rt, path) {
        Ok(file) => file,
        Err(error) => return Err(of_opening(&error)),
    };
    if is_held(&file, false) {
        return Err(FileError::InUse);
    }
    if !is_replaceable(&file) {
        return Err(FileError::Exists);
    }
    Ok(())
}

/// Puts a file in the place of another one in one step, and syncs their folder. If that sync fails,
/// either of them may be there after a crash.
pub fn put_in_place(rt: &HostRuntime, from: &str, to: &str, folder: &str) -> Result<(), FileError> {
    match rename(rt, from, to) {
        Ok(()) => {}
        Err(error) => return Err(of_making(&error)),
    }
    let folder = match File::open(rt, folder) {
        Ok(folder) => folder,
        Err(error) => return Err(of_opening(&error)),
    };
    match folder.sync_all() {
        Ok(()) => Ok(()),
        Err(error) => Err(of_making(&error)),
    }
}

/// Removes a file, if the system allows it.
pub fn remove(rt: &HostRuntime, path: &str) {
    let _ = remove_file(rt, path);
}
