//! One life of a store: it is opened, asked or migrated, and ends with a crash.
//!
//! # Model
//!
//! What was asked and what was answered in each life.
//!
//! # Proved
//!
//! - `live_in` and `lead_in`: one life of a store of either version. The answers are those of the
//!   model once the store has version 2, and refusals before (`LivesIn`).
//!
//! # Not proved
//!
//! That a device restarts as `Restarts` says: that is the model of a disk.
#![tactic(auto)]

pub mod desk_law;
pub mod desk_lives;
pub mod leading;
pub mod restarts;

pub use desk_theorem_loading::{load_geography, open_store, start};
pub use desk_theorem_runs::desk_law::one_desk_opens;
pub use desk_theorem_runs::law::runs_survive;
pub use desk_theorem_runs::{Clerk, Migration, swept_law};
