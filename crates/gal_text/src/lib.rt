//! Neighbour files (GAL): which blocks share an edge.
//!
//! # Example
//!
//! ```text
//! 0 4 iowa BLOCKID          four blocks
//! 190010001001001 2         a block with two neighbours
//! 190010001001002 190030001001001
//! ```
//!
//! # Model
//!
//! A set of pairs of block numbers, without direction.
//!
//! # Proved
//!
//! - `gal::read` succeeds exactly if each block has one entry and each neighbour lists the block in
//!   return, and it returns each pair once.
//! - Otherwise it returns the first fault: in the order of the words, then a word too many, then
//!   the least block without an entry, then the least pair that is listed one way only (A1 to A13).
//! - Bytes after a fault do not matter. `law::units_law`: the words read are the words of a list of
//!   entries.
//!
//! # Not proved
//!
//! That the pairs are the blocks with a common edge: a file of corner neighbours looks the same.
#![tactic(auto)]

pub mod fault;
pub mod gal;
pub mod header;
pub mod law;
pub mod links;
pub mod units;

pub use fault::GalFault;
pub use gal::read;
