//! Checks that pages hold a map of keys, and that no page is lost.
//!
//! # Model
//!
//! The map that the pages hold, and the owners of the pages: the tree, or the list of free pages.
//!
//! # Proved
//!
//! `check_pages` succeeds exactly if the pages hold a map, no page is used twice or lost, and free
//! pages are blank. Otherwise it names a page and what is wrong with it (`IsWrongPage`).
//!
//! # Not proved
//!
//! That it reads each page once. Tests count the reads.
#![tactic(auto)]

mod checks;
mod error;
mod free;
mod marks;
mod order;
mod tree;

pub use checks::check_pages;
pub use error::{PageFault, PageFaultKind, PagesError};
