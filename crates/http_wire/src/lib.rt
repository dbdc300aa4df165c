//! HTTP/1.1 and 1.0 on the wire (RFC 9112, in this server's profile): requests in, responses out.
//!
//! # Example
//!
//! `read_request` returns the next request with its body, the fault for which the connection
//! closes, or the end of the input.
//!
//! # Model
//!
//! Input is the list of requests that the bytes contain, however they were cut. Output is the bytes
//! that wait to be sent.
//!
//! # Proved
//!
//! - `read_request`: the bytes begin with one request, or have one fault, or are incomplete. It
//!   sends `100 Continue` exactly if the head asks for it. `prefix_law`: exactly one of the three
//!   applies, but a head or trailers of more than 64 lines may have another fault as well; later
//!   bytes change nothing.
//! - `take_request` and `take_plain` take a request that has come whole, without reading.
//! - `write_response`, `flush` (section 4): waiting bytes and the response are written in order, or
//!   wait, without memory. After a failed write, what was written is a prefix. `Gathering` sends
//!   head and body by one write. `read_target` parses a request target (section 3.2).
//!
//! # Not proved
//!
//! That `take_request` and `take_plain` take whatever they could, and that the system sends the
//! first of two buffers before the second.
#![tactic(auto)]

mod connection;
pub mod fault;
pub mod gather;
mod head;
pub mod header_slots;
mod interim;
pub mod law;
mod lists;
mod look;
pub mod plain;
pub mod request;
pub mod response;
pub mod target;
pub mod word;

pub use http_wire_intake::fault::WireFault;
pub use http_wire_intake::{bad_request, read_buffer};
