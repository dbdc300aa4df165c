//! The connections of a server: where streams come from, their workers, and when an idle one is
//! closed.
//!
//! # Model
//!
//! Two relations of the maker's (`gives`, `takes_back`), and `Ran`, three numbers.
//!
//! # Proved
//!
//! - A worker gets streams only through an `Acceptor`, which asks by the worker's number and counts
//!   each stream that goes back.
//! - `fate` decides about an idle connection by what it asked and when (`fate_of`): between
//!   requests it waits or is closed, within one it waits or fails. `at_turn`, `with_bytes`,
//!   `with_silence` keep the times.
//! - `turn` gives exactly the bytes that the reader below had next. It ends the stream only if that
//!   reader is at its end, or if no request is under way and the door lets the connection go or
//!   `keep` seconds were silent (`MayEnd`).
//! - `is_answer`: an interim response ends no request. `is_silence`, `is_passing` classify errors.
//! - `begin` starts as many connections as were asked for.
//!
//! # Not proved
//!
//! When `turn` asks for the fate, and what threads do under the lock.
#![tactic(auto)]

pub mod acceptor;
pub mod arrivals;
pub mod door;
pub mod doorway;
pub mod kept_listening;
pub mod listening;
pub mod mark;
pub mod pace;
pub mod ran;
pub mod sink;
pub mod source;
