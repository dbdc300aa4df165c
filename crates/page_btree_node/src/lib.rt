//! The nodes of a tree of keys: lists of entries, and the bytes of the pages that hold them.
//!
//! # Layout
//!
//! ```text
//! byte 0        the level, 0 for a leaf, at most 5
//! byte 1        not used
//! bytes 2, 3    the number of entries
//! from byte 4   the entries, then zeros
//!
//! an entry      length of the key (1 byte), length of the value (2 bytes), key, value
//!               above the leaves the value is a page number of 4 bytes
//! ```
//!
//! # Model
//!
//! A node is a level and a list of entries.
//!
//! # Proved
//!
//! - `NodeBuf::read` succeeds exactly if the page holds a node (`IsNode`), and returns it.
//! - `write`, `find`, `insert`, `replace`, `remove` and `split` act as on the list. Both halves of
//!   a split fit in a page, and neither is empty.
//! - `value_for`, `child_for`, `way_for`, `ways_for`, `place_from`, `put_row`, `take_row` and
//!   `take_spare_row` do the same on the bytes of a page, without memory.
//!
//! # Not proved
//!
//! How many children `ways_for` returns (up to three): this serves speed only.
//!
//! # Notes
//!
//! `put_row` and `value_after` may begin at a place (`RowNear`) if all keys before it are below
//! theirs (`IsBelow`).
#![tactic(auto)]

mod edit;
mod ends;
mod entry;
mod node_buf;
mod passing;
mod scan;
mod search;
mod sizes;
mod spot;
mod ways;

pub use edit::{RowPut, put_row, take_row, take_spare_row};
pub use entry::{Bounds, Lengths, bounds_in};
pub use node_buf::NodeBuf;
pub use scan::NotANode;
pub use search::{
    Place, RowNear, Way, child_for, level_of, place_from, value_after, value_for, way_for,
};
pub use sizes::{KEY_LIMIT, PAGE_SIZE, PageBytes, VALUE_LIMIT};
pub use ways::{Ways, ways_for};
