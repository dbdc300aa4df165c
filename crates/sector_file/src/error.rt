//! Why a file is no device.
ghost use Rattle.std.specs.Prelude.{◌≡◌, ◌≢◌, ◌⊎◌};
ghost use Rattle.std.specs.IoError.{error_kind};
ghost use Rattle.sector_file.specs.Kinds.{TellsAccess, TellsSpace};

use std::io::{Error, ErrorKind};

/// Why a file is no device.
#[derive(Clone, Copy, Drop, PartialEq, Eq)]
pub enum FileError {
    /// There is no such file, or no such folder.
    NotFound,
    /// The file hasn't 4,096 bytes for each sector.
    WrongSize,
    /// Another open of the file holds it.
    InUse,
    /// The file may not be read and written: its rights, its folder's or a file system that takes no writes, or it is a folder.
    NotPermitted,
    /// The disk, or what its user may have of it, is full.
    NoSpace,
    /// The system refused a call for another reason.
    DeviceFault,
    /// The file exists already.
    Exists,
}

/// Why a file was not opened.
pub fn of_opening(error: &Error) -> FileError
    ensures access { TellsAccess (error_kind error.now) result }
    ensures one { (result ≡ FileError.NotFound) ⊎ (result ≡ FileError.NotPermitted) ⊎ (result ≡ FileError.DeviceFault) }
{
    match error.kind() {
        ErrorKind::NotFound => FileError::NotFound,
        ErrorKind::PermissionDenied | ErrorKind::ReadOnlyFilesystem | ErrorKind::IsADirectory =>
            FileError::NotPermitted,
        _ => FileError::DeviceFault,
    }
}

/// Why a file was not made, or not given its size.
pub fn of_making(error: &Error) -> FileError
    ensures there { error_kind error.now ≡ ErrorKind.AlreadyExists → result ≡ FileError.Exists }
    ensures access { TellsAccess (error_kind error.now) result }
    ensures space { TellsSpace (error_kind error.now) result }
    ensures only_there { result ≡ FileError.Exists → error_kind error.now ≡ ErrorKind.AlreadyExists }
    ensures one { (result ≢ FileError.WrongSize) × (result ≢ FileError.InUse) }
{
    match error.kind() {
        ErrorKind::AlreadyExists => FileError::Exists,
        ErrorKind::NotFound => FileError::NotFound,
        ErrorKind::PermissionDenied | ErrorKind::ReadOnlyFilesystem | ErrorKind::IsADirectory =>
            FileError::NotPermitted,
        ErrorKind::StorageFull | ErrorKind::QuotaExceeded | ErrorKind::FileTooLarge => {
            FileError::NoSpace
        }
        _ => FileError::DeviceFault,
    }
}
