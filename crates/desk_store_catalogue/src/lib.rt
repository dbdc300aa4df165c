//! The desk in memory: an immutable catalogue that answers queries and computes its successor.
//!
//! # Model
//!
//! A `Desk`. A `Counter` is what a served connection talks to: it takes commands and queries, and
//! its relations say which replies it may give.
//!
//! # Proved
//!
//! - `ask` returns the desk's answer; `after` and `draft` return the desk after a command, or the
//!   refusal, and leave this one as it was. `draft` also says which counties change (`changes_of`).
//! - An audit is answered by the text of the report on exactly the subject that the query addresses
//!   (`subject_of`), or by the refusal of that address.
//! - `ask_again` gives the same answers, but returns the last report's text again if the subject is
//!   the same (`CachedReport`). `keep_blocks` caches the listing of the blocks and changes no
//!   answer.
//! - `overlay` lays listed districts over the last ones (`overlaid`). `changed_counties` finds the
//!   counties in which two lists differ; `revision_rows` and `fork_rows` give the number of rows
//!   that desk_model defines.
//!
//! # Not proved
//!
//! That a cached text is used: this is measured.
//!
//! # Notes
//!
//! desk_model defines what an audit is about, but not what a report is: that is defined above it.
//! So `QueryMay` has the relation of reports as a parameter, and `AskMay` is `QueryMay` at
//! `IsReportText`. `takes` is the table of which kind of plan takes which companion.
#![tactic(auto)]

mod blocks;
pub mod catalogue;
mod changes;
pub mod counter;
pub mod laws;
mod made;
mod patch;
mod posted;
mod report;
mod rows;

pub use changes::{Span, changed_counties};
pub use desk_store_lists::Districts;
pub use desk_store_plans::entry::{Entry, REVISION_LIMIT};
pub use desk_store_plans::plans::Plans;
pub use made::CachedReport;
pub use patch::overlay;
pub use rows::{fork_rows, revision_rows};
