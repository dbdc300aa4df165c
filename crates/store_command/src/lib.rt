//! The commands `format`, `load`, `sweep` and `migrate`: make, fill, clean up and convert a store.
//!
//! # Model
//!
//! Functions to an exit status, generic in what makes and opens stores (`Stores`). The device
//! opened and the device closed are named, so nothing else was touched.
//!
//! # Proved
//!
//! - `format` makes a new store with exactly the sectors and journal pages asked for.
//! - `load` loads the geography that the files say into a store that has none. If a file is
//!   rejected, no store is opened.
//! - `sweep` removes as many rows as it prints, and then none is left.
//! - `migrate` puts as many rows as it prints, and each crash state opens in version 2 to the desk
//!   of version 1.
//! - Otherwise the first fault is reported and nothing is printed (`Sweeps`, `Migrates`). If the
//!   device reads as a desk, a crash leaves that desk or the one after the command.
//! - `load`, `sweep` and `migrate` are one life each of the store that they open, given by the exit
//!   status (`LoadsLife`, `SweepsLife`, `MigratesLife`).
//!
//! # Not proved
//!
//! That a large size is announced in fitting words.
#![tactic(auto)]

pub mod fault;
pub mod filling;
pub mod format;
pub mod load;
pub mod migrate;
mod migrating;
pub mod stores;
pub mod sweep;
mod sweeping;
pub mod telling;
mod texts;

pub use desk_theorem::{Clerk, one_desk_opens, swept_law};
