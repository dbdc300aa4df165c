//! Plans with their revisions: creates, revises, forks, deletes and reads them, and sweeps deleted
//! ones.
//!
//! # Layout
//!
//! ```text
//! plan "h"  number 7, 2 revisions
//! revision 1 of 7   chunks 30, 31      a chunk for each county
//! revision 2 of 7   chunks 30, 32      county 001 is unchanged, so both name chunk 30
//! ```
//!
//! # Model
//!
//! The desk that the transaction reads before and after. The caller commits.
//!
//! # Proved
//!
//! - `create`, `add_whole`, `add_counties`, `retire`, `fork` and `put_command`: the next desk, with
//!   at most as many rows as room was asked for (`HasStepped`). Otherwise no number was left and
//!   nothing was written (`HasExhausted`), or `StepErr` says why. `add` takes the counties that
//!   change from the caller.
//! - A county that does not change keeps its chunk. A fork names the chunks of its origin.
//! - `revision` and `append_districts` return the districts of a revision.
//! - `sweep_step` removes at most 16 rows of deleted plans and abandoned loads in one commit.
//! - `command_rows` is the number of rows that desk_model defines.
//! - `plan_laws`: a row that was found is the desk's plan, and these rows make the desk after the
//!   change.
//!
//! # Not proved
//!
//! Nothing beyond these relations is claimed.
#![tactic(auto)]

mod adds;
mod change;
mod changes;
mod chunks;
mod counties;
mod forks;
mod laws;
mod lookups;
mod named_adds;
mod names;
pub mod plan_laws;
mod plan_reads;
mod plans;
mod puts;
mod reads;
pub mod revision_laws;
mod revision_puts;
mod revision_reads;
mod revisions;
mod rows;

pub use adds::add;
pub use change::ChangeOutcome;
pub use desk_store_pages::{ROW_PAGES, TreeError};
pub use forks::fork;
pub use lookups::{append_districts, revision};
pub use named_adds::{add_counties, add_whole};
pub use names::append_names;
pub use plan_revisions_sweeps::{
    ChunkId, ROWS_SWEPT, check_holders, check_holdings, get_chunk, hold_unheld, hold_unheld_with,
    is_held, sweep_step,
};
pub use plans::{create, retire};
pub use puts::put_command;
pub use rows::command_rows;
