//! The order of keys: byte by byte, and a key before its longer continuations.
//!
//! # Example
//!
//! `compare(b"Pa", b"Pab")` is `Less`, and `compare(b"Pb", b"Pab")` is `Greater`.
//!
//! # Model
//!
//! A key is the list of its bytes.
//!
//! # Proved
//!
//! `compare` returns the order of the two lists.
//!
//! # Not proved
//!
//! Its speed.
#![tactic(auto)]

mod keys;

pub use keys::compare;
