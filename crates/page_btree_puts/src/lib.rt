//! Puts a row into a map of keys in pages.
//!
//! # Model
//!
//! The map with the row.
//!
//! # Proved
//!
//! - After `put` and `put_with` the transaction reads the map with the row, and the result says
//!   whether the key was there. At most 11 pages are written and at most 6 taken; replacing a value
//!   by one of the same length takes none.
//! - NoPages comes only if fewer than six pages were free and none is left. TooDeep comes only if
//!   the root has level 5; a put raises the root's reach by one at most.
//! - `get_with` is a lookup by two `Fingers`. `write_first_row` writes a map with one row.
//!
//! # Not proved
//!
//! That a finger saves time: this is measured.
//!
//! # Notes
//!
//! `put_with` tries the leaf alone first (`fitting`). Only if the row has no room, it goes down
//! (`step_down`), cuts full nodes in two (`cut`) and adds an entry to the node above (`link`). A
//! `Finger` remembers the leaf of the last put and the key at which its keys end. It stays valid
//! after an edit of another leaf, and is dropped after a cut.
#![tactic(auto)]

mod finger;
mod first;
mod fitting;
mod fresh;
mod puts;
mod tree;

pub use finger::{Finger, Fingers, get_with};
pub use first::write_first_row;
pub use fitting::put_with;
pub use fresh::put;
pub use page_btree_gets::{
    KEY_LIMIT, Leaf, Lengths, PAGE_SIZE, PageBytes, SmallBytes, TreeError, VALUE_LIMIT, bounds_in,
    get, laws, leaf_from, place_from,
};
