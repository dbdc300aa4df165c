//! Whatever a stream comes to, the clerk went by a run of commands.
ghost use Rattle.talk_command.specs.claim.Served.{SurvivesEachStream};

use desk_theorem::{Clerk, runs_survive};
use sector_device::SectorDevice;

/// Whatever is served at a clerk from now on, and however it ends, the acknowledged commands of it outlive each stop, as
/// `runs_survive` says.
#[tactic(auto, using(crate::proofs::Streams::stream_survives))]
pub fn streams_survive<D: SectorDevice>(clerk: &Clerk<D>)
    ensures { SurvivesEachStream clerk.now }
{
    runs_survive(clerk);
}
