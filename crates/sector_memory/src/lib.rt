//! Devices in memory for tests: one that stores all it is given, one that fails from a chosen call
//! on, and one of which a single call fails.
//!
//! # Model
//!
//! `Disk`, as in sector_device.
//!
//! # Proved
//!
//! All three devices implement the model. `stop` crashes a device: each sector written since the
//! last sync gets the bytes that the caller picks, or what a read returns.
//!
//! # Not proved
//!
//! Nothing beyond the model is claimed.
#![tactic(auto)]

mod fail_once;
mod fused;
mod memory;
mod past;

pub use fail_once::FailOnce;
pub use fused::Fused;
pub use memory::MemoryDevice;
