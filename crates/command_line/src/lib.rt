//! The command line: which job the arguments ask for, and the help texts.
//!
//! # Model
//!
//! A job, or what is wrong with the arguments.
//!
//! # Proved
//!
//! - `job_of` returns an audit only with districts in range, and with each companion exactly if its
//!   number of districts is given, for the kinds that take one.
//! - `check_job`: each path is the value of its own option. `read_form`: which options go together.
//!
//! # Not proved
//!
//! The help texts, and how clap splits the arguments.
#![tactic(auto)]

mod helps;
pub mod line;
pub mod options;
pub mod sizes;
mod tables;
pub mod words;
