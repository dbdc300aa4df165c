//! Publishes catalogues: one writer shows them, and readers (visitors) never wait for it.
//!
//! # Layout
//!
//! ```text
//! Office (one lock)                     left_right              visitors
//!   clerk --commit--> store
//!   shower --append, show---------------> published --visit---> visitor 0, 1, 2 ..
//! ```
//!
//! Invariants:
//!
//! 1. The published list of changes only grows.
//! 2. Each visitor knows a prefix of it, and its own list only grows.
//! 3. A change is published only after its commit was acknowledged.
//! 4. While the lock is free, the clerk's desk is the published one or, after a halt, one change
//!    ahead.
//!
//! # Model
//!
//! One list of changes that all share, of which each part knows a prefix.
//!
//! # Proved
//!
//! - `visit` returns a catalogue after a list that begins with everything this visitor has seen.
//!   `learn`: what was reported is a prefix of the visitor's list.
//! - `append` and `show` publish everything that was appended, at once.
//! - `Front::command` does the clerk's `Does`; the published list grows by the command if it is
//!   acknowledged, and otherwise stays. The seat's `SeatShare` counts what is answered as accepted
//!   and as halted. `Front::sweep_step` leaves the desk and what is published.
//! - `Front::is_kept`: each crash state opens to the published desk, or after a halt to that with
//!   one more change.
//! - `Office::copy` holds the lock while the store is read through a second opening (`Upkeep`). If
//!   that reads what the store's device reads, each crash state of the copy opens to the desk that
//!   is shown (`IsCopied`).
//! - `Office::close` returns the clerk, whose acknowledged commands are those published
//!   (`IsLeftBy`).
//!
//! # Not proved
//!
//! Fairness, waiting times, and that memory is really shared. That two openings of one file read
//! the same is trusted.
#![tactic(auto)]

pub mod book;
pub mod copying;
pub mod front;
pub mod gallery;
pub mod office;
pub mod pace;
pub mod shelf;
pub mod shower;
pub mod tally;
pub mod tied;
pub mod visitor;

pub use desk_theorem_runs::{Clerk, turning};
pub use sector_copies::fault;
