//! Checks that the numbers in use are below the next ones, and that no row is out of place.
//!
//! # Model
//!
//! Parts of `Tidy` of desk_store_rows, in either version of the store.
//!
//! # Proved
//!
//! - `check_numbers` succeeds only if each plan, chunk and load has a number below the next one
//!   (`HasNumbersBelow`), each key up to the version's row is the key of a row
//!   (`AreRowsToVersion`), and the rows after it belong to known loads within the seal's counts or
//!   to chunks below the counter (`AreAfterSeal`). It returns NotAStore if one of these is
//!   violated.
//! - `check_owners`: each part of a revision belongs to a counted revision, or to a deleted plan.
//!
//! # Not proved
//!
//! The rest of `Tidy`; `plandesk verify` checks more.
//!
//! # Notes
//!
//! A store is opened only if these checks succeed: if a number were given twice, a row of one plan
//! would become a row of another.
#![tactic(auto)]

mod checks;
mod counts;
mod firsts;
mod keys;
mod loads;
mod marks;
mod numbers;
mod owners;
mod rows;
mod scans;

pub use checks::check_numbers;
pub use firsts::{first_from, refuse_from};
pub use marks::refuse_unmarked;
pub use numbers::is_version;
pub use owners::check_owners;
