//! A map of keys in pages, a B-tree: its definition and its lookups.
//!
//! # Layout
//!
//! ```text
//!                 [ - | k2 | k5 ]            a node: the first key says nothing
//!                /      |      \
//!      [k0 k1]      [k2 k3 k4]    [k5 k7]    leaves: rows in rising order
//! ```
//!
//! Invariants:
//!
//! 1. The rows of a child begin at its key and end before the next child's key.
//! 2. All leaves are at level 0; the root has at most level 5.
//! 3. Each page of the tree occurs in it once and is not free. The pages of the tree, the free
//!    pages and page 0 are all pages, so no page is lost.
//!
//! # Model
//!
//! A finite map from keys (1 to 72 bytes) to values (0 to 1,024 bytes), `KeyMap`. A page array
//! holds it by `Holds`, a transaction reads it by `InTxn`, a crash state opens to it by `OpensMap`.
//!
//! # Proved
//!
//! - `get` returns the value of a key, or none. It takes no memory.
//! - `leaf_from` returns the leaf with the first row from a key on, and up to three leaves after
//!   it.
//! - `laws`: pages hold at most one map; a commit that was cut off leaves the map before or after;
//!   a map has at most 1,364 rows a page.
//!
//! # Not proved
//!
//! Its speed.
//!
//! # Notes
//!
//! `find_leaf` also returns a bound: all keys up to it lie in the same leaf (`LeadsAll`), also
//! after a row was put into a leaf (`leads_stays`). Other crates of the tree change the map.
#![tactic(auto)]

mod error;
mod gets;
mod kept;
mod reach;
mod seeks;
mod small_bytes;
mod ways;

pub use error::TreeError;
pub use gets::{get, get_in_leaf, read_level};
pub use kept::laws;
pub use page_btree_node::{
    KEY_LIMIT, Lengths, NodeBuf, NotANode, PAGE_SIZE, PageBytes, RowNear, RowPut, VALUE_LIMIT,
    bounds_in, child_for, level_of, place_from, put_row, take_row, take_spare_row,
};
pub use reach::{KeyBytes, Reach};
pub use seeks::{Leaf, leaf_from};
pub use small_bytes::SmallBytes;
pub use ways::find_leaf;
