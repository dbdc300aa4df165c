//! Opens the files of a state by name and reads them in a fixed order: census, neighbours, plans.
//!
//! # Model
//!
//! An opened file is its bytes, its turns and its failures; a file that did not open is the reason.
//!
//! # Proved
//!
//! - `open_census` and `open_audit` open each name as its own file, and give each companion plan
//!   its own number of districts.
//! - `read_state`, `read_with_neighbours`, `read_plan`, `read_companion` return what each file says
//!   by the relation of its reader, or the first fault in the order of the files.
//! - `read_whole` returns a plan file whole, or says why not: more than 33,554,432 bytes, a failure
//!   of the source, or no turns left.
//! - `read_state_by` reads the census files with several workers and returns what reading one after
//!   the other returns.
//!
//! # Not proved
//!
//! That a name leads to the file that the user means. After a fault, workers may have read later
//! files already; their contents do not matter (`AreLeftBy`).
#![tactic(auto)]

pub mod at_once;
pub mod census;
pub mod fault;
pub mod neighbours;
pub mod open;
pub mod plan_file;
pub mod whole;

pub use gal_text::fault::GalFault;
pub use pl94_geo::geo::GeoFault;
pub use pl94_segment::join::JoinFault;
pub use pl94_segment::record::SegmentNumber;
pub use pl94_segment::segment::SegFault;
