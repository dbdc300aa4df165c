//! Turns a store of version 1 into one of version 2, in which rows say which plan holds which
//! chunk.
//!
//! # Example
//!
//! ```text
//! let mut migration = Migration::open(alloc, device)?;
//! while migration.step(alloc)? > 0 {}
//! migration.finish(alloc)?;
//! let device = migration.into_device();
//! ```
//!
//! # Model
//!
//! The desk, which stays the same, and the map of rows.
//!
//! # Proved
//!
//! - `Migration::open` accepts what a clerk would in version 1. AlreadyNew comes only if the row of
//!   the version exists and a desk was read.
//! - `step` puts at most 16 rows. At every moment each crash state opens to the desk in version 1.
//!   It returns 0 exactly if each part of any plan names chunks that the plan holds.
//! - `finish`: a crash leaves version 1 or 2; after success version 2.
//! - Full comes exactly if there are fewer than 13 free pages a row, or if the tree would be too
//!   deep.
//!
//! # Not proved
//!
//! How long a migration takes. One that was cut off begins again and keeps the rows it finds.
#![tactic(auto)]

mod holds;
mod migration;
pub mod old;
mod opening;
mod parts;
mod steps;
mod walks;

pub use migration::{Migration, ROWS_PUT};
