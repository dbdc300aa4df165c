//! The desk in the pages of a store: transactions that put and read rows, and new stores.
//!
//! # Model
//!
//! The desk that pages hold (`HoldsDesk`), that a transaction reads (`InTxn`), and to which a crash
//! state opens (`OpensDesk`, in version 1 `OpensOld`, in either version `OpensEither`). Pages hold
//! at most one desk. Rows to put are a list.
//!
//! # Proved
//!
//! - `prepare`, `commit`, `commit_txn`, `commit_fitting`: at every moment the store holds the desk
//!   before or after, and after success the desk after.
//! - `format`: after success each crash state opens to the desk without geography and plans, in a
//!   store with the journal pages asked for.
//! - `put_row` puts a row or says why not (`PutsRows`); `put_row_with` and `get_row_with` use known
//!   leaves. `read_row` and `get_row` return what is stored, or none (`Looks`).
//! - `part_of` cuts a list into parts by index.
//!
//! # Not proved
//!
//! A crash during `format`, and that known leaves save time.
#![tactic(auto)]

mod commits;
mod error;
mod formatting;
mod gets;
pub mod laws;
mod parts;
mod puts;
mod reads;
mod values;

pub use commits::{commit, commit_fitting, commit_txn, prepare};
pub use error::{StoreError, row_error};
pub use formatting::format;
pub use gets::{get_row, get_row_with, next_numbers};
pub use page_btree::{Finger, Fingers, TreeError, put_with};
pub use parts::part_of;
pub use puts::{ROW_PAGES, put_row, put_row_with};
pub use reads::read_row;
pub use values::RowValue;
