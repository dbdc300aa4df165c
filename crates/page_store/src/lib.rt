//! Pages that change by transactions: nothing changes before the commit, and then everything does.
//!
//! # Example
//!
//! `begin` makes a `Txn`; `take_page`, `write` and `edit` collect changes in memory; `prepare`
//! reserves all memory; `Prepared::commit` writes once, through the journal.
//!
//! # Layout
//!
//! ```text
//! page 0        the meta page: the root of the tree, the first free page, the number of free pages
//! a free page   the number of the next free page, and zeros
//! ```
//!
//! Invariants:
//!
//! 1. Each page is in use or in the list of free pages, never both.
//! 2. The free pages form one list without a cycle, as long as the meta page says.
//! 3. A transaction holds the new bytes of each page it writes, so it can be dropped at any time.
//!
//! # Model
//!
//! An array of pages and the list of free ones, which change at a commit only.
//!
//! # Proved
//!
//! - `read`, `lend` and `lent` give the bytes that the transaction would read; `edit` changes a
//!   page that the transaction writes. A commit writes each page once.
//! - NoPages comes only if no page is free. `prepare` is the last call that may need memory.
//! - `format` and `format_with` make a store with the given number of journal pages, in which all
//!   other pages are free but page 0 and the root. TooSmall and Memory change nothing.
//!
//! # Not proved
//!
//! A crash during `format`.
#![tactic(auto)]

mod formatting;
mod pages;
mod txn;

pub use formatting::{format, format_with};
pub use gate_journal::{PageError, has_room, word_at};
pub use pages::Pages;
pub use txn::{Prepared, Txn, is_blank_page};
