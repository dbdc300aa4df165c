//! A journal with a gate byte: a commit writes all of its pages or none, also if the machine
//! crashes.
//!
//! # Layout
//!
//! ```text
//! sector 0            header: PLANDESK, version, journal pages J, number of pages
//! sector 1            the gate: its first byte is 0xA5 while a commit must be completed
//! sector 2 ..         the list: the number of pages of the commit, and their numbers
//! then J sectors      the copies of these pages, in the order of the list
//! then                the pages themselves
//! ```
//!
//! A commit syncs the device five times:
//!
//! 1. before its first write, so that no older write is still unsynced;
//! 2. after writing the list and the copies;
//! 3. after opening the gate;
//! 4. after writing the pages in their places;
//! 5. after shutting the gate. Only then is the commit acknowledged.
//!
//! Invariants:
//!
//! 1. While the gate is shut, the pages are those before the commit or, after sync 4, after it.
//! 2. While the gate is open, the list and the copies are on the disk and complete.
//! 3. An opening that finds the gate open writes the copies to their places and shuts the gate.
//!    After another crash it does the same again, with the same result.
//!
//! # Model
//!
//! An array of pages.
//!
//! # Proved
//!
//! - At every moment of a commit, a crash leaves the pages before or after it; after success, the
//!   pages after it.
//! - A commit within the journal's size, on pages that have not halted, succeeds unless the device
//!   fails.
//! - An opening that finds no store writes nothing, or has only completed an open commit.
//! - After a fault every call answers Halted and changes nothing.
//!
//! # Not proved
//!
//! What the disk does (see sector_device).
#![tactic(auto)]

mod error;
mod formatting;
mod journal;
mod layout;
mod opening;
mod recovery;
mod steps;
mod words;
mod writes;

pub use error::PageError;
pub use formatting::{commit_on, format, has_room};
pub use journal::Journal;
pub use layout::Layout;
pub use words::{set_word, word_at};
pub use writes::PageWrites;

const OPEN: u8 = 165;
