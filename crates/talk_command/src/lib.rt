//! The `talk` command: serves HTTP/1.1 from standard input to standard output.
//!
//! # Model
//!
//! An exit status, and a talk of a clerk whose store holds the sample geography.
//!
//! # Proved
//!
//! - `talk` (`Talks`): what is written is a talk over what was read. `desks_talk`: it is a talk of
//!   desks, in which each command makes its step or is refused with the desk unchanged.
//! - `serve_clerk`, a stream at any clerk: `Serves`, and each crash state opens to the desk after
//!   some of the stream's commands, with every acknowledged one (`ServesDurably`).
//!   `streams_survive`: the same for whatever talk `serve` allows.
//! - Both are one life of the store, with the five clauses of the claim (`StreamHolds`).
//!
//! # Not proved
//!
//! Nothing beyond these relations is claimed.
#![tactic(auto)]

pub mod laws;
pub mod serve;
pub mod stream_law;
pub mod talk;
