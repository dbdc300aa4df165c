//! Runs and lives of a store: what a crash at any moment leaves, and what the next opening finds.
//!
//! # Model
//!
//! A run is the list of a clerk's calls (`Run`, with steps of sweeps `SweptRun`). A life is an
//! opening, commands and a crash, or a migration and a crash (`Life`).
//!
//! # Proved
//!
//! - `runs_survive`: since the j-th acknowledgement, each crash state opens to the desk after the
//!   first j acknowledged commands and some that follow. The command during which the device failed
//!   may come after them (`in_flight`); nothing is acknowledged after it.
//! - `each_swept_run_survives`: the same with steps of a sweep between commands.
//! - `one_desk_opens`: a crash state opens to one desk. `open_again`: an opening that is cut off
//!   and repeated gives that desk. `lives_survive`: the same over any number of lives.
//! - `tend` is a step of a sweep, or the check before the first (`Tends`, `StepMay`).
//!
//! # Not proved
//!
//! Nothing is said about a device that is not honest.
#![tactic(auto)]

pub mod desk_law;
pub mod law;
pub mod lives;
pub mod open;
pub mod swept_law;
pub mod tending;
pub mod turning;

pub use desk_migration::Migration;
pub use desk_store::{Change, Clerk, Ready};
pub use desk_store_pages::StoreError;
