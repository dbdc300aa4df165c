//! The rows of a store as bytes, and what a map of rows means.
//!
//! # Example
//!
//! ```text
//! let key = Key::chunk(number, 0);
//! let mut value = ListValue::new();
//! fill_districts(&mut value, districts);
//! ```
//!
//! # Model
//!
//! A row is a key and a value, each a list of bytes. A store's rows are a finite map from keys to
//! values (`KeyMap`). `RowKey` names the kinds of keys with their numbers; `IsDesk` says which desk
//! a map of rows means.
//!
//! # Proved
//!
//! - `RowKey::write` and `RowKey::read` are exact in both directions. `laws::keys_differ` and
//!   `numbers_decide`: different rows have different keys, and keys rise with their numbers.
//! - `read_*`, `*_value`, `fill_*` and `add_*` return what a value says, or none exactly if it says
//!   nothing.
//! - A map means at most one desk (`desk_is_one`). `HasChunk`, `HasRevision`, `IsStaged` and `Tidy`
//!   are its parts.
//! - `laws`: the rows of each command, and of a load, give exactly the desk after it; rows with
//!   other tags change nothing (`tags_stay`). `holders`, `migrations`, `forks`: which plans hold a
//!   chunk, and what a migration and a fork put.
//! - `upkeep`: each change keeps the rows tidy and the next numbers free. A sweep keeps the desk,
//!   and without marks nothing is left to sweep.
//!
//! # Not proved
//!
//! Nothing beyond these laws is claimed.
#![tactic(auto)]

pub mod forks;
pub mod holders;
mod key;
pub mod key_laws;
pub mod laws;
mod list;
pub mod migrations;
mod row_key;
pub mod upkeep;
mod value;

pub use key::Key;
pub use list::{
    ListValue, PART_CHUNKS, PIECE_DISTRICTS, add_chunk, add_district, fill_chunks, fill_districts,
    read_chunks, read_districts,
};
pub use row_key::RowKey;
pub use value::{
    Counters, HolderCount, SealRow, StoredPlan, block_value, counters_value, eight, four,
    holder_count_value, pair_value, plan_value, read_block, read_counters, read_holder_count,
    read_pair, read_plan, read_seal, seal_value, two,
};
