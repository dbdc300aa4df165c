//! Removes a key from a map of keys in pages.
//!
//! # Model
//!
//! The map without the key.
//!
//! # Proved
//!
//! After `remove` the transaction reads the map without the key, and the result says whether it
//! was there. At most 6 pages are written and at most 6 given back; none is taken. No page is lost,
//! and the tree does not grow in height.
//!
//! # Not proved
//!
//! That it reads each page once.
//!
//! # Notes
//!
//! `remove` tries the leaf alone first. If the leaf has no other row, it goes down from the root,
//! and a node without entries is given back, up the path.
#![tactic(auto)]

mod removes;
mod takes;

pub use takes::remove;
