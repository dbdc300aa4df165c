//! A change of the desk, as it is shown.
ghost use Rattle.std.specs.Prelude.{◌≡◌, IfOk};

use desk_model::command::Command;
use desk_store_catalogue::catalogue::Catalogue;
use std::alloc::AllocError;
use std::marker::Model;
use std::sync::Arc;

/// A command with the catalogue after it.
#[derive(Drop)]
pub struct Change {
    pub(crate) command: Arc<Command>,
    pub(crate) after: Arc<Catalogue>,
}

impl Model for Change {
    ghost use Rattle.desk_store.specs.Changes.{Made};
    ghost use Rattle.desk_store.specs.Codes.{coded_made};

    ghost Value = { Made };

    ghost coded = { coded_made };

    ghost view = { λ a. record { command = a.command.value; after = a.after.value } };
}

impl Change {
    pub fn command(&self) -> &Command
        ensures { result.now ≡ self.now.command }
    {
        &self.command
    }

    /// The catalogue after the command. Err where one more owner is refused.
    pub fn after(&self) -> Result<Arc<Catalogue>, AllocError>
        ensures { IfOk result (λ c. c.value ≡ self.now.after) }
    {
        self.after.clone()
    }
}
