//! Scans: the rows of a map of keys in pages, in rising order.
//!
//! # Example
//!
//! `scan(b"P")` begins before the first row whose key begins with `P`; each call of `next` gives
//! the next row, and `fault` says why a scan ended early.
//!
//! # Model
//!
//! The list of rows to come (`Rest`).
//!
//! # Proved
//!
//! - `next`, `advance`, `place`, `take_at` and `go_on` give the first row to come and leave the
//!   others. They return false if no row is left, or after a fault, which the scan keeps. `laws`:
//!   the rows of a scan are all rows under the prefix, with their values.
//! - `row_limit` is more than the number of rows of any such map.
//!
//! # Not proved
//!
//! That a scan reads each page once. Tests count the reads.
#![tactic(auto)]

mod held;
mod parts;
mod rows;
mod scans;
mod turns;
mod whole;

pub use parts::{Parts, ScanPlace};
pub use rows::Row;
pub use scans::{RowScan, scan};
pub use whole::{laws, row_limit};
