//! Removes the rows of deleted plans and of abandoned loads, at most 16 in each commit.
//!
//! # Model
//!
//! The desk, which stays the same at every moment.
//!
//! # Proved
//!
//! - `sweep_step` changes or removes at most 16 leftover rows in one commit, none of the load that
//!   is under way. The number of free pages never falls. It returns 0 exactly if no such row is
//!   left.
//! - `check_holdings` reads only, and succeeds only if each chunk's count is the number of plans
//!   that hold it and each plan holds each chunk that its revisions name (`AreSoundHoldings`). Tidy
//!   rows of version 2 are sound.
//!
//! # Not proved
//!
//! How long a sweep takes.
//!
//! # Notes
//!
//! A sweep takes turns (`turns_are_swept`), and finds each from the marks of what is to be removed.
//! Of the deleted plan with the least number it first removes the holdings, with their counts, then
//! the first part of a revision with the pieces that no plan holds, and in the end the mark. An
//! abandoned load goes the same way. If no mark is left, nothing else is (`swept_is_clean`).
//!
//! The calls of chunk_table that plan_revisions makes are passed on here.
#![tactic(auto)]

mod checks;
mod counts;
mod firsts;
mod held;
mod leftovers;
mod names;
mod pieces;
mod rows;
mod sweeps;

pub use checks::check_holdings;
pub use chunk_table::{
    ChunkId, get_chunk, hold_all, hold_unheld, hold_unheld_with, is_held, part_length,
    put_chunk_as, put_holdings,
};
pub use sweeps::{ROWS_SWEPT, check_holders, sweep_step};
