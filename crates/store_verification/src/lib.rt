//! Verifies a store by three readers at once: its pages, its desk, and its rows with their
//! holdings.
//!
//! # Model
//!
//! `Look`: what was found, that something is wrong, or that the device failed.
//!
//! # Proved
//!
//! `look_beside`: if it reports Sound, the store is sound (`IsSoundAt`). The device stays as it
//! was.
//!
//! # Not proved
//!
//! Speed. What is wrong is found by a second, sequential pass.
#![tactic(auto)]

mod beside;
mod counties;
mod jobs;
mod look;
mod readers;

pub use beside::look_beside;
pub use look::Look;
pub use readers::Readers;
pub use store_verification_rows::{
    Checked, Hints, Wrong, WrongRow, check_rows, first_wrong, note_parts,
};
