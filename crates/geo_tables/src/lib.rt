//! The geography in a store: staged by several commits, valid once the load is sealed, and read
//! back.
//!
//! # Example
//!
//! ```text
//! let mut load = begin_load(alloc, &mut pages, geography)?;
//! while load.left() > 0 {
//!     let rows = load.left().min(BATCH_ROWS);
//!     load_batch(alloc, &mut pages, &mut load, rows)?;
//! }
//! seal(alloc, &mut pages, load)
//! ```
//!
//! # Model
//!
//! A load is its number, its geography and the number of staged rows (`HoldsLoad`). Until the seal
//! the desk has no geography.
//!
//! # Proved
//!
//! - `begin_load` and `load_batch` keep the desk at every moment; after success exactly the rows
//!   asked for are staged in addition.
//! - `seal`: at every moment the desk before, or the one with the geography; after success the
//!   latter.
//! - Each call first checks for 13 free pages and 13 journal pages a row. `BeginErr`, `BatchErr`
//!   and `SealErr` say when each refusal comes: AlreadySealed only if a seal exists, Full for
//!   numbers only if the last number is next.
//! - `geography` returns exactly the sealed geography of a map, or none. `begin_rows`, `put_batch`
//!   and `seal_rows` do the same within a transaction.
//!
//! # Not proved
//!
//! What `geography` returns if the rows are damaged: it may skip rows that it cannot read.
#![tactic(auto)]

mod batches;
mod begins;
mod checks;
mod elements;
pub mod laws;
mod load;
mod load_rows;
mod puts;
mod ranges;
mod reads;
mod sealed;
mod seals;
mod starts;

pub use batches::{BATCH_ROWS, load_batch};
pub use begins::begin_load;
pub use load::Load;
pub use ranges::block_fits;
pub use sealed::geography;
pub use seals::seal;
