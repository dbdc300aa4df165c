//! The three segments of the 2020 Census PL 94-171 files, and their join with the header.
//!
//! # Example
//!
//! `SegmentReader::read` reads one segment from any `Source`. `join` gives the blocks of a header
//! with their people, from the rows of the header and of all three segments.
//!
//! # Model
//!
//! A segment is a map from record numbers to numbers of people.
//!
//! # Proved
//!
//! - `SegmentReader::read` succeeds exactly if the text is a segment, and returns its records.
//!   Otherwise it returns the fault of the first faulty line, and in that line the smallest code
//!   (S1 to S6).
//! - `join` succeeds exactly if the files are census files of one set of blocks, and returns the
//!   blocks with their people. Otherwise it returns the join's first fault (S7 to S9).
//! - A read fault is returned only if the reader failed, and the turn limit only at the limit.
//! - `Display` prints each fault as documented.
//!
//! # Not proved
//!
//! That the census files contain the people of the state.
#![tactic(auto)]

pub mod join;
pub mod record;
pub mod segment;
pub mod segment_law;

pub use join::JoinFault;
pub use record::SegmentNumber;
pub use segment::{SegFault, SegRows, SegmentReader};
