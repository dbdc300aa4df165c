//! The plans of a desk by name, in a balanced tree that shares nodes with its earlier versions.
//!
//! # Model
//!
//! A finite map from names to plans (`Plans`). An `Entry` is a plan: name, kind, number of
//! districts, and its revisions.
//!
//! # Proved
//!
//! `get`, `insert`, `replace`, `remove`, `rows`, `revised` and `forked` act as on the map, and the
//! plans that a call starts from stay as they were. `settle` changes no plan, also if memory is
//! refused. The tree is balanced: the heights of the two sides of each plan differ by at most one.
//!
//! # Not proved
//!
//! The number of new nodes for each change. `tests/limits` tries 65,535 names, shuffled, rising and
//! falling.
#![tactic(auto)]

pub mod entry;
pub mod plans;
mod tree;
