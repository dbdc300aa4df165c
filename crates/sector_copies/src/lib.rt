//! Copies the sectors of one device to another.
//!
//! # Layout
//!
//! ```text
//!   source   | 0 | 1 | 2 | .. | n - 1 |      each sector is read once, none is written
//!              |   |   |          |
//!   target   | 0 | 1 | 2 | .. | n - 1 |      each sector is written once, then all are synced
//! ```
//!
//! # Model
//!
//! `Disk`, as in sector_device.
//!
//! # Proved
//!
//! - `copy_sectors` succeeds only if the target is synced and reads, in every sector, what the
//!   source read before the call (`IsCopy`). The source is as it was. If it fails, the device
//!   that is named failed.
//!
//! # Not proved
//!
//! All clauses hold for honest devices only.
#![tactic(auto)]

pub mod copying;
pub mod fault;
