//! Opens a store, loads a geography whole, and starts a new store with one.
//!
//! # Model
//!
//! The clerk.
//!
//! # Proved
//!
//! - `open_store` is `Clerk::open` as one relation (`IsOpened`, `IsUnopened`).
//! - `load_geography` begins a load, stages it whole and seals it. Each crash state opens to the
//!   desk before, or to the one with the geography and without plans. A refusal leaves the desk and
//!   names the call that was refused. A batch has the rows left, at most as many as 13 journal
//!   pages a row and one row for the mark allow, and 1 to 512.
//! - `start` makes a clerk of a new store with a geography, or says which call was refused.
//!
//! # Not proved
//!
//! How long a load takes.
#![tactic(auto)]

mod loads;
mod openings;
mod starts;

pub use loads::load_geography;
pub use openings::open_store;
pub use starts::start;
