//! Block assignment files: reads `BLOCKID|DISTRICT` lines against a geography, and prints them.
//!
//! # Example
//!
//! ```text
//! BLOCKID|DISTRICT
//! 190010001001001|01
//! 190010001001002|ZZZ       unassigned
//! ```
//!
//! # Model
//!
//! For each block of the geography the district, if the file lists the block.
//!
//! # Proved
//!
//! - `read` succeeds exactly if the text is a block assignment file. Otherwise it returns the fault
//!   of the first faulty line, and in that line the smallest code (B1 to B5).
//! - `write` prints the canonical text.
//! - `laws::printed_is_read`: that text is read as its assignment, and as no other.
//!
//! # Not proved
//!
//! Its speed. Lines that resemble the line before are read by a shorter way (`near`).
#![tactic(auto)]

pub mod laws;
pub mod listed;
mod near;
pub mod number;
pub mod reading;
mod row;
pub mod writing;

pub use listed::whole;
pub use reading::{BafFault, read};
pub use writing::write;
