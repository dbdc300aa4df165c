//! The input of a connection: buffered bytes, bodies by length and in chunks, and limits of a head.
//!
//! # Model
//!
//! `Intake`: a reader, the bytes that have come and are not used yet, and the turns left.
//!
//! # Proved
//!
//! - `Draws` counts turns and failures against the limit; `Reads` says which bytes came.
//! - `read_body` and `read_chunks` (RFC 9112, section 7.1) read a body into memory of its own. The
//!   memory grows to at most twice the bytes that have come, and 65,536 bytes more.
//! - `chunk_law`: each input begins with exactly one of a body, one fault, or an incomplete body.
//!
//! # Not proved
//!
//! How much memory std reserves on top.
#![tactic(auto)]

pub mod bad_request;
pub mod body;
mod chunk_end;
mod chunk_line;
pub mod chunks;
pub mod fault;
pub mod intake;
pub mod law;
pub mod limits;
pub mod lines;
pub mod read_buffer;
pub mod sought;
mod trailers;
