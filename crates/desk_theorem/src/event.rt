//! What happens to a desk with visitors.
use desk_model::command::{Command, Query};

/// What happens to a desk with visitors, who are counted from 0. An event that isn't possible changes nothing.
#[derive(Drop)]
pub enum Event {
    /// A change is written. Possible where each change is shown and the desk accepts the command.
    Commit(Command),
    /// Each change is acknowledged.
    Acknowledge,
    /// What is acknowledged is shown.
    Show,
    /// A visitor looks at what is shown, and is answered.
    Visit { visitor: u64, query: Query },
    /// A visitor learns a number of changes. Possible only if that many are shown.
    Learn { visitor: u64, told: u64 },
    /// The desk stops and is opened again with its first changes. Possible where each acknowledged one is kept.
    Stop { kept: u64 },
}
