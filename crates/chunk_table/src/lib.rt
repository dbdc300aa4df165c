//! Chunks: lists of districts under numbers, and the plans that hold them.
//!
//! # Layout
//!
//! ```text
//! chunk 30       piece 0: 512 districts, piece 1: ..
//! holding 7 30   plan 7 holds chunk 30
//! holders of 30  1
//! ```
//!
//! # Model
//!
//! The rows, as part of the map that a transaction reads. A chunk never changes.
//!
//! # Proved
//!
//! - `put_chunk` puts the rows of a chunk under the next number, and returns the number.
//!   `put_chunk_as` puts them under a number that the caller knows to be free.
//! - `get_chunk` appends the districts of a chunk.
//! - `hold`, `hold_unheld`, `hold_all`, `release`, `put_holdings`: the map in which a plan holds
//!   chunks, or no longer does, with the number of holders updated. A release takes no page.
//!
//! # Not proved
//!
//! Nothing beyond these relations is claimed.
#![tactic(auto)]

mod chunk_puts;
mod chunk_reads;
mod holder_counts;
mod holdings;
mod holds;
mod ids;
mod lengths;
mod numbering;
mod releases;

pub use chunk_puts::put_chunk_as;
pub use chunk_reads::get_chunk;
pub use holdings::put_holdings;
pub use holds::{hold, hold_all, hold_unheld, hold_unheld_with, is_held};
pub use ids::ChunkId;
pub use lengths::part_length;
pub use numbering::put_chunk;
pub use releases::release;
