//! The `serve` command: opens a store, listens on 127.0.0.1 and serves many connections.
//!
//! # Model
//!
//! An exit status, generic in what opens stores and what listens.
//!
//! # Proved
//!
//! - `serve`: the store is opened, the line printed, streams served and the device closed, or the
//!   first fault is reported with what was done until then (`Serves`).
//! - `serve_clerk`: commands run one at a time, from the first clerk to the last. The acknowledged
//!   ones survive every crash, beginning with the desk as which the device read
//!   (`OutlastsWhatIsRead`).
//! - Along these commands connections were answered by as many workers as were asked for, each
//!   until it was given no more (`ServesStreams`). `listen_here` asks for a socket at 127.0.0.1.
//! - `serve` and `serve_clerk` are one life of the store, with the five clauses of the claim
//!   (`OfficeHolds`, `ClosedHolds`). `ServesLife` gives that life by the exit status.
//!
//! # Not proved
//!
//! When the failure of a socket is noticed, and that the system binds the address (tested).
#![tactic(auto)]

pub mod fault;
pub mod log;
pub mod loopback;
pub mod office;
mod room;
pub mod serve;
mod texts;

pub use http_desk::{book, front, many, visitor};
