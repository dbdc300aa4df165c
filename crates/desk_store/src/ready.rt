//! Commands that are ready to be committed.
ghost use Rattle.std.specs.Prelude.{◌≡◌, ◌≤◌};
ghost use Rattle.desk_model.specs.claim.Step.{revision_limit};
ghost use Rattle.desk_store_catalogue.specs.claim.Accepting.{revisions_after};

use crate::change::Change;
use crate::clerk::Clerk;
use desk_model::command::Command;
use desk_model::reply::{Refusal, Reply};
use desk_store_catalogue::catalogue::Catalogue;
use page_store::Prepared;
use sector_device::SectorDevice;
use std::alloc::AllocError;
use std::sync::Arc;

/// A command that is accepted, with all that its commit needs. It holds no reference; to drop it changes nothing.
#[derive(Drop)]
pub struct Ready {
    pub(crate) command: Arc<Command>,
    pub(crate) after: Arc<Catalogue>,
    pub(crate) prepared: Prepared,
    ghost few: { revisions_after command.value ≤ revision_limit },
}

impl Ready {
    ghost use Rattle.std.specs.Prelude.{◌≡◌, IfOk};
    ghost use Rattle.desk_store_catalogue.specs.claim.Accepting.{acceptance};
    ghost use Rattle.desk_store.specs.claim.Commands.{command_of, after_of, IsReady, Commits};

    /// What a gallery is given to show. Err where one more owner is refused.
    pub fn change(&self) -> Result<Change, AllocError>
        ensures { IfOk result (λ c. c ≡ record { command = command_of self.now; after = after_of self.now }) }
    {
        Ok(Change {
            command: self.command.clone()?,
            after: self.after.clone()?,
        })
    }

    /// The reply that the commit will give, unless the device fails.
    pub fn reply(&self) -> Reply
        ensures { result ≡ acceptance (command_of self.now) }
    {
        let command: &Command = &self.command;
        match command {
            Command::Create { plan, .. } => Reply::Created {
                plan: *plan,
                revisions: 0,
            },
            Command::Fork { plan, .. } => Reply::Created {
                plan: *plan,
                revisions: 1,
            },
            Command::Whole { plan, after, .. } | Command::Counties { plan, after, .. } =>
                Reply::Created {
                    plan: *plan,
                    revisions: *after + 1,
                },
            Command::Retire { plan } => Reply::Retired { plan: *plan },
        }
    }

    /// Writes the change and shows it, at the clerk that prepared it with no commit since. It takes no memory. `Halted` is the
    /// only refusal, where the device fails now or has failed before.
    pub fn commit<D: SectorDevice>(self, clerk: &mut Clerk<D>) -> Reply
        requires { IsReady clerk.old self }
        ensures { Commits clerk.old self result clerk.new }
    {
        if clerk.halted {
            return Reply::Refused(Refusal::Halted);
        }
        let reply = self.reply();
        let Ready {
            command: _,
            after,
            prepared,
        } = self;
        match desk_store_pages::commit(prepared, &mut clerk.pages) {
            Ok(()) => {
                clerk.catalogue = after;
                reply
            }
            Err(_) => {
                clerk.halted = true;
                Reply::Refused(Refusal::Halted)
            }
        }
    }
}
