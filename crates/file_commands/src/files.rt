//! The files of the file system, by their paths.
use crate::prefixes::Prefixed;
use byte_stream::source::ReadSource;
use state_files::fault::OpenFault;
use state_files::open::Opener;
use std::fs::File;
use std::io::ErrorKind;

/// Opens files of the file system.
#[derive(Drop)]
pub struct Files<'a> {
    rt: &'a HostRuntime,
}

impl<'a> Files<'a> {
    pub fn new(rt: &'a HostRuntime) -> Files<'a> {
        Files { rt }
    }
}

/// Opens a file for reading.
fn open_file(rt: &HostRuntime, name: &str) -> Result<File, OpenFault> {
    match File::open(rt, name) {
        Ok(file) => Ok(file),
        Err(e) => {
            if e.kind() == ErrorKind::OutOfMemory {
                return Err(OpenFault::Memory);
            }
            Err(OpenFault::Unreadable)
        }
    }
}

impl<'a> Opener<ReadSource<File>> for Files<'a> {
    // What the file system has under a name isn't known.
    ghost opens = { λ _ _ _ _. Unit {0} };

    fn open(&mut self, name: &str) -> Result<ReadSource<File>, OpenFault> {
        Ok(ReadSource::new(open_file(self.rt, name)?))
    }
}

impl<'a> Opener<ReadSource<Prefixed<File>>> for Files<'a> {
    ghost opens = { λ _ _ _ _. Unit {0} };

    fn open(&mut self, name: &str) -> Result<ReadSource<Prefixed<File>>, OpenFault> {
        Ok(ReadSource::new(Prefixed::new(open_file(self.rt, name)?)))
    }
}
