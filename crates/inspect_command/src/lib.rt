//! The commands `stat` and `verify`: how full a store is, and whether it is undamaged.
//!
//! # Model
//!
//! Functions to an exit status, generic in what opens stores.
//!
//! # Proved
//!
//! - `stat` prints the counts of the desk, and says Full for a command exactly if `IsShort` holds
//!   for it (`TellsNeed`): the same condition by which the clerk refuses. A crash at any moment
//!   leaves the desk (`StatsStore`). It is one life of the store, in which nothing is asked
//!   (`LooksLife`).
//! - `verify` succeeds only if each page has one owner (`AreOwned`) and the rows are those of a
//!   desk (`IsSound`). Otherwise it reports a fault, a page only if it is wrong (`IsWrongPage`), a
//!   row only if it does not belong (`VerifiesStore`). It is one life of a store of either version,
//!   in which that is read (`VerifiesLife`).
//! - `compare_device`: the geography of a store is the one that is given, or differs first in what
//!   is returned (`DiffersFrom`). It is one life of the store, in which that is read
//!   (`ComparesDevice`).
//! - All write nothing but what completes a commit that was cut off (`IsSparedFor`).
//!
//! # Not proved
//!
//! Which of several faults `verify` names first.
#![tactic(auto)]

pub mod beside;
pub mod comparing;
pub mod figures;
pub mod needs;
pub mod refusal;
pub mod rows;
pub mod sound_texts;
pub mod stat;
pub mod texts;
pub mod verify;
pub mod verifying;

pub use census_difference::{Difference, push_line};
pub use store_command::{
    Clerk, fault, filling, format, load, migrate, one_desk_opens, stores, sweep, swept_law, telling,
};
pub use store_verification::Readers;
