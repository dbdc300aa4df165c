//! Streams of bytes with counted failures, and the lines and words of a reader.
//!
//! # Model
//!
//! A `Source` is the bytes that it has not given yet, with the number of reads (turns) and of
//! failures. A `Sink` is the bytes written, with the same numbers. A text is the list of its lines
//! or words, the same however a reader cuts it.
//!
//! # Proved
//!
//! - A send writes all bytes, or a prefix and then reports a failure.
//! - `LineReader` and `Words` give each line or word in order, with its number, and the first
//!   fault.
//! - `turn_of`: an interrupted read is a turn without bytes, every other error a failure.
//!   `is_tried_again`: an interrupted write is repeated, at most 4,294,967,296 times a send.
//!
//! # Not proved
//!
//! That the adapters for files and sockets call `turn_of` and `is_tried_again`, and what a progress
//! line (`Telling`) prints. Tests cover both.
#![tactic(auto)]

pub mod progress;
pub mod reader;
pub mod sink;
pub mod source;
pub mod words;
