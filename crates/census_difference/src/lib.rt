//! The first block or pair of neighbours in which a store's geography differs from census files.
//!
//! # Example
//!
//! If the files give a block 190010001001001 that the store does not have, and all blocks below
//! it are equal, the difference is `MissingBlock(190010001001001)`.
//!
//! # Model
//!
//! Both geographies are `GeographyModel`: blocks that rise by number, and pairs that rise by the
//! places of their blocks. So an equal front of both lists has all that comes before a difference.
//!
//! # Proved
//!
//! - `first_difference`: without a difference, the store has this geography, with the same blocks,
//!   cities, populations and pairs; a difference is the first one (`DiffersFrom`), and blocks come
//!   before pairs.
//! - `differences_are_real`: a geography has no difference from itself, so a store of which one is
//!   named does not have what the files say.
//! - `push_line`: the line names the difference with the numbers of its blocks (`difference_line`).
//!
//! # Not proved
//!
//! Further differences: only the first one is looked for.
#![tactic(auto)]

pub mod difference;
pub mod laws;
mod lists;
mod words;

pub use difference::{Difference, first_difference};
pub use words::push_line;
