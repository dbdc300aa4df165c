//! The clerk as a counter, alone with the desk.
ghost use Rattle.std.specs.Prelude.{◌≡◌};
ghost use Rattle.desk_store_catalogue.specs.claim.Audits.{AskMay};
ghost use Rattle.desk_store.specs.claim.Clerks.{desk_of};
ghost use Rattle.desk_store.specs.claim.Commands.{Does};

use crate::clerk::Clerk;
use desk_model::command::{Command, Query};
use desk_model::reply::Reply;
use desk_store_catalogue::counter::Counter;
use sector_device::SectorDevice;
use std::alloc::Global;

impl<D: SectorDevice> Counter for Clerk<D> {
    ghost commands = { λ clerk command reply after. Does clerk command reply after };

    ghost asks = { λ clerk query reply after. AskMay (desk_of clerk) query reply × (after ≡ clerk) };

    const ALONE: bool = true;

    fn command(&mut self, alloc: Global, command: Command) -> Reply {
        Clerk::command(self, alloc, command)
    }

    fn ask(&mut self, alloc: Global, query: Query) -> Reply {
        Clerk::ask(self, alloc, query)
    }
}
