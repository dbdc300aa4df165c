//! Reads a desk from the rows of a store of either version.
//!
//! # Model
//!
//! `IsDesk` and `Tidy` of desk_store_rows.
//!
//! # Proved
//!
//! - `read_desk` reads only. If the transaction reads a desk, it returns the catalogue of that
//!   desk.
//! - For other rows, `IsReadFrom` says that what it returns is what the rows say: the blocks and
//!   pairs of the sealed load, and of each revision the numbers of its chunks and their districts.
//!   No part of a revision belongs to a plan that was never made, or is beyond its plan's
//!   revisions.
//! - `check_desk` reads only, and succeeds only if the rows say a desk within its limits, with
//!   these counties (`TellsDesk`). It reads what `read_desk` reads, and keeps nothing of it.
//! - `read_entry` and `add_plan` read a plan with all its revisions. `is_new` says whether the row
//!   of the version exists. After `check_held` the pages hold rows, unless their list of free pages
//!   does not end.
//!
//! # Not proved
//!
//! That no row stands after the last of a list; `plandesk verify` checks it. An error of
//! `check_desk` says nothing about the rows.
//!
//! # Notes
//!
//! The revisions of a plan are read one after the other: first the list of chunks, then only those
//! chunks that the revision before does not name for the same county. The two revisions share the
//! rest.
//!
//! The calls of geo_tables and plan_revisions that the clerk makes are passed on here.
#![tactic(auto)]

mod counties;
mod desks;
mod entries;
mod held;
mod marks;
mod none;
mod numbers;
mod plans;
mod rows;
mod unkept_chunks;
mod unkept_desks;
mod unkept_plans;
mod unkept_revisions;
mod versions;

pub use desk_store_opening_tidy::{first_from, is_version, refuse_from};
pub use desks::read_desk;
pub use entries::read_entry;
pub use geo_tables::{BATCH_ROWS, Load, begin_load, geography, load_batch, seal};
pub use held::check_held;
pub use marks::check_rows;
pub use none::read_none;
pub use plan_revisions::{
    ChangeOutcome, ROW_PAGES, TreeError, check_holders, check_holdings, command_rows, hold_unheld,
    hold_unheld_with, is_held, put_command, sweep_step,
};
pub use plans::add_plan;
pub use rows::name_in;
pub use unkept_desks::check_desk;
pub use versions::is_new;
