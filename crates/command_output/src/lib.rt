//! What commands print, their exit statuses, and the explanations of all error codes.
//!
//! # Model
//!
//! The bytes that the writer took. Explanations are a table: what a code means and what to do.
//!
//! # Proved
//!
//! - A text is written whole, or a prefix and then the status of an output failure.
//! - The fault of a file is its line and its status.
//! - Explanations are shown only at a terminal or on request, unless memory for them is refused
//!   (`TellsWords`). `explained` returns the words for a fault's line, and none for any other line
//!   (`line_words`). `code_in`, `sentence` and `put_entry` find codes and format entries.
//!
//! # Not proved
//!
//! That the explanations are helpful and true; tests compare them with the pages.
//!
//! # Notes
//!
//! `print` sends a text; `tell` sends the line of a fault and returns its status; `LastLineWriter`
//! remembers the last line, so that it can be explained.
#![tactic(auto)]

mod audits;
mod census;
pub mod explaining;
pub mod explanation;
pub mod fault_status;
mod file_tools;
pub mod finding;
mod http;
pub mod noting;
mod plans;
mod server_tools;
pub mod status;
mod stores;
pub mod telling;
