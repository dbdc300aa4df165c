//! Checks that each row of a store belongs to a desk, also the rows that an opening does not read.
//!
//! # Model
//!
//! `AreWhole` and `AllBelong`.
//!
//! # Proved
//!
//! `check_rows`: after success all rows are counted, are well formed and belong to the desk, or it
//! returns a row that does not belong (`IsStray`).
//!
//! # Not proved
//!
//! Which wrong row `first_wrong` names; tests try it.
#![tactic(auto)]

mod facts;
mod hints;
mod naming;
mod namings;
mod seen;
mod strays;
mod wholes;
mod wrong;

pub use hints::{Hints, note_parts};
pub use naming::first_wrong;
pub use wholes::{Checked, check_rows};
pub use wrong::{Wrong, WrongRow};
