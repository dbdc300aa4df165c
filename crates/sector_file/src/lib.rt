//! A device in a file, and readers of it for other threads.
//!
//! # Model
//!
//! `Disk`, of what the file held when it was opened and of the calls since. No program can know
//! what a file held, so that is a parameter of the type (`Contents`), and all is proved for every
//! value.
//!
//! # Proved
//!
//! - `FileDevice::open` and `create` succeed only with exactly the number of sectors asked for. An
//!   opened file counts as synced, a new one does not.
//! - The device implements the model as long as each sector read is as it was last written or, if
//!   it was not written, as it was at the opening. It keeps a record of every system call with its
//!   answer, which takes no memory; if the reads agree with the record, the device is honest.
//! - `share` gives another thread a reader of the open file until the device is written;
//!   `take_back` counts the reader's calls as the device's.
//! - `HeldFile::reader` reads a file that a device holds as what it holds then (`Later`).
//!   `create_over` and `put_in_place` are for copies that take the place of a file in one step.
//!
//! # Not proved
//!
//! The behaviour of the file system, and that reading ahead helps. That two opens of one file read
//! the same is trusted.
#![tactic(auto)]

mod calls;
mod contents;
mod copies;
mod device;
mod error;
mod reader;
mod recent;
mod record;
mod run;
mod zeros;

pub use contents::{Contents, Later, Unknown};
pub use copies::{HeldFile, check_place, put_in_place, remove};
pub use device::FileDevice;
pub use error::FileError;
pub use reader::FileReader;
