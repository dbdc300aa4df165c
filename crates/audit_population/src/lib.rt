//! The population tests of Iowa Code 42.4(1): the mean, the range, a congressional district.
//!
//! # Model
//!
//! A plan is a list with the district of each block. A district's people are a sum over its blocks,
//! and the ideal population is the state's people divided by the number of districts.
//!
//! # Proved
//!
//! - `populations`: the people of each district and of the state, as sums over all blocks.
//! - `mean_breaks`, `range_breaks`, `congress_breaks`: inequalities between products of whole
//!   numbers. Nothing is divided or rounded.
//!
//! # Not proved
//!
//! That these definitions are the law; `docs/LAW.md` compares them with the Code.
#![tactic(auto)]

pub mod deviations;
pub mod people;

pub use deviations::{Extremes, congress_breaks, mean_breaks, range_breaks};
pub use people::{StatePeople, populations, total};
