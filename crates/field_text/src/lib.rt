//! Texts as lines, fields between bars, and numbers: slices of a whole text, without a copy.
//!
//! # Example
//!
//! `lines(b"a|b\r\nc")` gives line 1, `a|b`, and line 2, `c`. `fields(b"a|b")` gives `a` and `b`.
//!
//! # Model
//!
//! A text is the list of its lines that are left, with the number of the last line. A line is the
//! list of its fields that are left.
//!
//! # Proved
//!
//! - `lines`: each line in order, without its LF or CRLF, with its number, counted from 1.
//! - `fields`: each field in order. A line without bytes has one field, which is empty.
//! - `number`, `digits_exactly`: exactly the decimal numbers of the given length.
//!
//! # Not proved
//!
//! That the searches take many bytes at once; `bench` measures them.
#![tactic(auto)]

pub mod digits;
pub mod field;
pub mod line;
mod scan;
pub mod text;

pub use digits::{digits_exactly, number};
pub use text::{fields, lines};
