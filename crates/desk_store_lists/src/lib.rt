//! Lists that share memory with their earlier versions: revisions, and districts in pieces of 512.
//!
//! # Layout
//!
//! ```text
//! districts of a plan     [piece 0][piece 1][piece 2] ..   512 districts each, shared by revisions
//! a piece                 (district, count)                all blocks in one district
//!                         [(district, count)]              at most 64 runs
//!                         [u8]                             districts up to 255
//!                         [u16]                            any others
//! ```
//!
//! # Model
//!
//! A list. A `Districts` is a list of numbers below 2^16.
//!
//! # Proved
//!
//! Each call returns what the same call on a plain list returns: `with` and `get` of a
//! `SharedList`; `new`, `to_vec`, `part`, `is_same_in`, `with_part`, `with_listed`, `unassigned`
//! and `share` of `Districts`. The list that a call starts from stays as it was.
//!
//! # Not proved
//!
//! That pieces are shared and not copied, that a piece has the form that takes the least memory,
//! and that adding an item makes two nodes on average. All are measured.
#![tactic(auto)]

mod districts;
mod form;
mod list;
mod piece;
mod pieces;
mod tree;
mod trees;

pub use districts::Districts;
pub use list::SharedList;
