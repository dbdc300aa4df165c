//! A map of keys in pages, a B-tree: lookups, puts, removes, and a check of its pages.
//!
//! # Example
//!
//! ```text
//! put(txn, pages, b"Pa", b"value")?;
//! get(txn, pages, b"Pa", &mut bytes)?      Some(5)
//! remove(txn, pages, b"Pa")?               true
//! ```
//!
//! # Model
//!
//! A finite map from keys (1 to 72 bytes) to values (0 to 1,024 bytes), `KeyMap`. A page array
//! holds it by `Holds`, a transaction reads it by `InTxn`, a crash state opens to it by `OpensMap`.
//!
//! # Proved
//!
//! - `get` returns the value of a key, or none. After `put` the transaction reads the map with the
//!   row, after `remove` the map without the key, and both say whether the key was there.
//! - A put writes at most 11 pages and takes at most 6; replacing a value by one of the same length
//!   takes none. A remove writes at most 6, gives back at most 6 and takes none.
//! - `NoPages` comes only if fewer than six pages were free, `TooDeep` only if the root has level
//!   5.
//! - `check_pages` says whether pages hold a map and no page is lost.
//!
//! # Not proved
//!
//! Its speed.
//!
//! # Notes
//!
//! This is the room of the crates page_btree_node, page_btree_gets, page_btree_puts,
//! page_btree_removes and page_btree_checks, which no crate outside names. `put_with` and
//! `get_with` are `put` and `get` by a leaf that is remembered (`Finger`). `leaf_from` serves
//! scans.
#![tactic(auto)]

pub use page_btree_checks::{PageFault, PageFaultKind, PagesError, check_pages};
pub use page_btree_puts::{
    Finger, Fingers, KEY_LIMIT, Leaf, Lengths, PAGE_SIZE, PageBytes, SmallBytes, TreeError,
    VALUE_LIMIT, bounds_in, get, get_with, laws, leaf_from, place_from, put, put_with,
    write_first_row,
};
pub use page_btree_removes::remove;
