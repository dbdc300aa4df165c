//! How much room a store has when it begins to be served.
ghost use Rattle.std.specs.Prelude.{◌≡◌, true, false, IfOk};
ghost use Rattle.inspect_command.specs.desk_store.claim.Clerks.{is_halted};
ghost use Rattle.serve_command.specs.Rooms.{IsRoom, TellsRoom, capped as capped_pages};

use connection_log::watching::Watched;
use inspect_command::Clerk;
use inspect_command::figures::held_by;
use sector_device::SectorDevice;
use std::alloc::{AllocError, Global};

/// A number of pages, the greatest for all above it.
fn capped(pages: u128) -> u64
    ensures { result ≡ capped_pages pages }
{
    if pages <= u64::MAX as u128 {
        pages as u64
    } else {
        u64::MAX
    }
}

/// The free pages of a clerk's store, and those that a revision asks for by which each county changes.
fn room_of<D: SectorDevice>(alloc: Global, clerk: &Clerk<D>) -> Result<(u64, u64), AllocError>
    requires { is_halted clerk.now ≡ false }
    ensures { IfOk result (λ told. IsRoom clerk.now told) }
{
    match held_by(alloc, clerk) {
        Ok(held) => Ok((held.free_pages as u64, capped(held.revision.pages))),
        Err(_) => Err(AllocError),
    }
}

/// Gives the listener the room of a clerk's store, if there is memory to compute it, and returns
/// whether it did.
pub fn tell_room<D: SectorDevice, A: Watched>(
    alloc: Global,
    clerk: &Clerk<D>,
    listening: &A,
) -> bool
    ensures { result ≡ true → TellsRoom A.heard_room listening.now clerk.now }
{
    if clerk.halted() {
        return false;
    }
    match room_of(alloc, clerk) {
        Ok((free_pages, revision_pages)) => {
            listening.begin(free_pages, revision_pages);
            true
        }
        Err(_) => false,
    }
}
