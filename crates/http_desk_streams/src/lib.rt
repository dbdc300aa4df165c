//! Serves one stream of requests of the desk over HTTP, from its reader to its writer.
//!
//! # Layout
//!
//! ```text
//! Source --> next_request --> order_of --> Counter::command or ask --> write_response --> Sink
//!              http_wire   http_desk_routes     clerk or seat             http_wire
//! ```
//!
//! # Model
//!
//! A `Talk`: the requests that were read and the answers that were written. It is defined in
//! `specs/claim/Talk.antt`, generic in what answers.
//!
//! # Proved
//!
//! - `serve`: what is written is a talk over what was read. Each request is answered by the desk's
//!   step or answer, in order, however the input was cut. The response to HEAD has no body, and the
//!   answer to a request that asks to close is the last.
//! - It succeeds only at the end of the input or after an answer that closes. A read fault, a write
//!   fault or the turn limit is returned only if the counts of the reader or writer say so. After a
//!   read fault or the limit, all complete requests are answered; after a write fault, what was
//!   written is a prefix of a talk's answers.
//! - Memory is answered to a request that did not reach the counter, by the counter, or in place of
//!   the list of plans, and never to a head that is rejected.
//! - Nothing is done for a request before the gate was passed for it (`passed` of `serve`).
//! - `answers_come_first`: nothing is read while an answer is owed, and no body before the interim
//!   line that its head asks for.
//! - `heard` reports an accepted command to an observer (`heard_of`); `acceptance_is_told`: the
//!   report is what the desk's step did (`IsDone`).
//!
//! # Not proved
//!
//! When an answer reaches the client.
//!
//! # Notes
//!
//! 1. If no bytes are left, `next_request` sends the waiting answers and reads. `take_request`
//!    takes a request that has come whole; for any other, the waiting answers are sent first and
//!    `read_request` is called. A body is read into memory of its own.
//! 2. `order_of` uses `matchit` for paths, `percent_encoding` for names, `form_urlencoded` for
//!    queries.
//! 3. The clerk computes the catalogue after the change first (`prepare`), so the commit takes no
//!    memory.
//! 4. `write_response` appends the response to the waiting ones, or sends both if there is no room.
//! 5. `GET /plans` without a body goes a shorter way (`take_list`); `list_law` of http_desk_routes
//!    says that it would be the same query.
#![tactic(auto)]

pub mod accepted;
pub mod answer;
pub mod body;
pub mod hearing;
pub mod law;
mod rows;
pub mod serve;
pub mod short;

pub use desk_store_catalogue::counter;
pub use http_wire::gather::GatherSink;
