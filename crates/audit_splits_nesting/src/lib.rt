//! Divided counties and cities, Iowa Code 42.4(2), and nesting, 42.4(6).
//!
//! # Model
//!
//! A plan is a list with the district of each block. A county or city is divided if two of its
//! blocks have different districts; no district, 0, counts as one.
//!
//! # Proved
//!
//! - `divided_counties`, `divided_cities`, `cities_in_county`: exactly the counties that the plan
//!   divides, the cities, and the cities that it divides within a county.
//! - `divided_groups`: the same three lists from one pass over the blocks.
//! - `nesting_breaks`: exactly the districts whose blocks do not all have one senate value.
//!
//! # Not proved
//!
//! That these definitions are the law; `docs/LAW.md` compares them with the Code.
#![tactic(auto)]

mod county;
pub mod divided;
mod mark;
pub mod nesting;
pub mod splits;

pub use divided::{cities_in_county, divided_cities, divided_counties};
pub use nesting::nesting_breaks;
pub use splits::{DividedGroups, divided_groups};
