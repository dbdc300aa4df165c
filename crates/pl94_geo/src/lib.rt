//! The geographic header of the 2020 Census PL 94-171 files.
//!
//! # Example
//!
//! `GeoReader::read` reads a header from any `Source`, line by line. In each line the fields are
//! separated by bars: field 3 is SUMLEV, field 8 is LOGRECNO.
//!
//! # Model
//!
//! A header is a set of blocks, each with its record number and its city, if it has one.
//!
//! # Proved
//!
//! - `GeoReader::read` succeeds exactly if the text is a header of a set of blocks, and returns
//!   that set. Otherwise it returns the fault of the first faulty line, and in that line the
//!   smallest code (G1 to G10).
//! - A read fault is returned only if the reader failed, and the turn limit only at the limit.
//! - `Display` prints each fault as documented.
//!
//! # Not proved
//!
//! That the census file contains the blocks of the state.
#![tactic(auto)]

pub mod entry;
pub mod geo;
pub mod geo_law;
pub mod header;
mod number_set;

pub use geo::{GeoFault, GeoReader, GeoRows};
