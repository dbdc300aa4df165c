//! The contiguity test of Iowa Code 42.4(3).
//!
//! # Model
//!
//! A plan is a list with the district of each block. Blocks are neighbours if they are a pair of
//! the geography. A district is contiguous if a path within it joins any two of its blocks.
//!
//! # Proved
//!
//! - `breaks`: exactly the districts that are not contiguous, each with its least block and the
//!   least block that no path within the district reaches.
//! - `DistrictTrees` finds the same for sixteen districts at a time, over one forest.
//! - `laws`: the breaks of a plan are one list, and those of consecutive districts are joined.
//!
//! # Not proved
//!
//! That these definitions are the law; `docs/LAW.md` compares them with the Code. The depth of the
//! union-find forest is measured, not proved.
#![tactic(auto)]

pub mod breaks;
mod forest;
pub mod laws;
mod lowest;
pub mod parts;

pub use breaks::{Break, Gap};
