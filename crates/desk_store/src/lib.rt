//! The clerk: keeps the desk in a store, for everything above that opens, changes, loads or sweeps
//! it.
//!
//! # Example
//!
//! ```text
//! format(alloc, &mut device, 1024)?;
//! let mut clerk = Clerk::open(alloc, device)?;
//! let ready = clerk.prepare(alloc, command)?;
//! let reply = ready.commit(&mut clerk);
//! ```
//!
//! # Model
//!
//! `desk_of`, the desk that is shown; `disk_of`, the device; and `Keeps`: each crash state opens to
//! the desk that is shown.
//!
//! # Proved
//!
//! - `prepare`, `commit` and `command` satisfy `Does`. An accepted command makes the desk's step,
//!   and at every moment a crash state opens to the desk before or after it. A refused command
//!   leaves the desk. Halted comes after a fault; Full if pages, journal pages, numbers or levels
//!   are missing. `depth_law`: levels are never missing for a command of fewer than 50 rows if the
//!   stored tree has at most five.
//! - A commit takes no memory and succeeds unless the device fails.
//! - `Clerk::ask` returns the desk's answer.
//! - `begin_load`, `load_batch`, `seal` and `sweep_step` do what geo_tables and plan_revisions
//!   promise.
//! - `Clerk::open`: at every moment, each crash state opens to a desk to which one opened before,
//!   and after success the clerk keeps one of these (`any_moment`, `opened`; their premise is
//!   explained in [PROOFS](docs/dev/PROOFS.md)). Whatever the device, a clerk that is returned
//!   shows the desk of the pages found (`found`). NotAStore leaves the device unwritten, or with
//!   the pages that were found (`untouched`). `reopens`: what the clerk keeps can be opened again.
//!
//! # Not proved
//!
//! That memory suffices; tests try it at the limits.
#![tactic(auto)]

pub mod change;
pub mod clerk;
mod counter;
mod failures;
pub mod law;
mod loads;
mod opening;
mod prepare;
pub mod ready;
mod shown;
mod sweeps;

pub use change::Change;
pub use clerk::Clerk;
pub use desk_store_catalogue::catalogue::Catalogue;
pub use desk_store_opening::{BATCH_ROWS, Load, check_holdings, geography, is_new, read_desk};
pub use desk_store_pages::{StoreError, format};
pub use ready::Ready;
