//! The audit of a plan under Iowa Code 42.4: the report, made by one thread or by several.
//!
//! # Model
//!
//! A report is a record with a field for each key of the JSON text.
//!
//! # Proved
//!
//! - `audit` returns the report of the plan: exactly those clauses that apply to its kind and that
//!   it breaks, and each figure by its definition. `laws::report_is_one`: there is only one such
//!   report.
//! - A house plan's report lists the districts that the congressional plan divides exactly if that
//!   plan is given. No clause depends on it.
//! - `Report::to_json` returns the report's text.
//! - `audit_with` returns the same report for every number of workers, whichever threads start.
//!   Each worker begins to find its own share of the pieces (`IsSharedOut`).
//!
//! # Not proved
//!
//! That two workers run at the same time (tested), and who found a piece.
#![tactic(auto)]

pub mod audit;
pub mod clause;
pub mod crew;
mod gather;
pub mod laws;
pub mod pieces;
pub mod report;
mod share;
mod values;
mod work;
pub mod workers;

pub use audit_population::people::total;
