//! The types and definitions that all other contracts cite: geography, plans, commands, replies.
//!
//! # Example
//!
//! `PlanSize::read(Kind::Congress, 4)` is a size of four districts; with 100 it is `None`.
//! `BlockId::from_number(190010001001001)` is a block of state 19 and county 001.
//!
//! # Model
//!
//! A `Geography` is a `GeographyModel`: blocks in rising order of their numbers, and pairs of
//! neighbours by the places of both blocks. A desk is a `Desk`: a geography or none, and a finite
//! map from plan names to plans. `step` (a command), `answer` (a query), block assignment files and
//! the subject of an audit are defined in `specs/claim`.
//!
//! # Proved
//!
//! - `Geography::make` accepts pairs in any order and in both directions; `from_places` takes them
//!   exactly as given. Both find the counties.
//! - `PlanSize` holds 1 to 99 districts for congress and 1 to 999 otherwise.
//! - `laws`: the county named by a rejected patch is the least one that the patch lists in part; a
//!   revision cut at the counties joins to itself again.
//! - `examples`: worked commands and audits, computed by the definitions.
//!
//! # Not proved
//!
//! That the definitions are what a reader expects; the worked examples are there to check it.
#![tactic(auto)]

pub mod block;
pub mod command;
pub mod companions;
pub mod decimal;
pub mod examples;
pub mod gate;
pub mod geography;
pub mod kind;
pub mod laws;
pub mod name;
pub mod ranges;
pub mod reply;
pub mod size;
pub mod text;
