//! Turns a request's method, target and body into a command or a query of the desk.
//!
//! # Example
//!
//! `DELETE /plans/h` is `Command::Retire`; `GET /plans/h/revisions/3` is `Query::Revision`.
//!
//! # Model
//!
//! A command, a query, or the reason why there is none.
//!
//! # Proved
//!
//! - `order_of` decides by method, target and body. It checks page, method, name, number and query
//!   in this order.
//! - Memory is returned only for a page of one plan, by a method that this page allows (`memory`).
//! - `router` returns the table of routes, or Memory.
//!
//! # Not proved
//!
//! Nothing beyond these relations is claimed.
#![tactic(auto)]

pub mod law;
pub mod method;
pub mod order;
pub mod query;
pub mod route;
