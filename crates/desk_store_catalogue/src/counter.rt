//! What answers commands and queries: the counter at which a served stream asks, whoever is after it.
ghost use Rattle.std.specs.Prelude.{◌≡◌};
ghost use Rattle.desk_model.specs.declared.command.Command.{Command};
ghost use Rattle.desk_model.specs.declared.command.Query.{Query};
ghost use Rattle.desk_model.specs.declared.reply.Reply.{Reply};

use desk_model::command::{Command, Query};
use desk_model::reply::Reply;
use std::alloc::Global;

/// A place at which commands and queries are answered.
pub trait Counter {
    // The command may be handed in.
    ghost takes: { Self → Command → Type 0 } = { λ _ _. Unit {0} };

    // A command may have this reply, and leave this counter.
    ghost commands: { Self → Command → Reply → Self → Type 0 };

    // A query may have this reply, and leave this counter.
    ghost asks: { Self → Query → Reply → Self → Type 0 };

    /// Whether nobody else changes the desk after it.
    const ALONE: bool;

    fn command(&mut self, alloc: Global, command: Command) -> Reply
        requires { takes self.old command }
        ensures { commands self.old command result self.new };

    fn ask(&mut self, alloc: Global, query: Query) -> Reply
        ensures { asks self.old query result self.new };
}
