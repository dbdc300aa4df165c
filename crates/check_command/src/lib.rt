//! The `check` command: counts the people of the census files, or audits a plan from files.
//!
//! # Model
//!
//! A function from readers to an exit status.
//!
//! # Proved
//!
//! - `check` and `audit_plan` print the counts, or the text of a report on the plan that the files
//!   say. The status is 1 exactly if the report names a broken clause.
//! - Files are judged in their order and the first fault is reported. One worker reads nothing of
//!   the files after it. A read fault or a turn limit is reported only if that reader's counts say
//!   so. A rejected file prints nothing.
//! - Status 6 comes exactly if standard output fails, and then it holds a prefix of the text.
//! - With more `--workers` the census files are read at once and the report is shared (`IsDoneBy`).
//!
//! # Not proved
//!
//! That the opened files are those that the user means.
//!
//! # Notes
//!
//! `Audits` is a chain of steps, joined by `Then` of state_files: after a fault the later files
//! stay as they are. With more than one worker nothing is said about the files after a fault
//! (`StandBy`).
#![tactic(auto)]

pub mod audit_plan;
pub mod check;
pub mod counts;
mod printing;
pub mod report;
