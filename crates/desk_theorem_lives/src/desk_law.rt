//! The law of runs as lives.
ghost use Rattle.desk_theorem_lives.specs.Bridge.{RunsAreLives};

use desk_theorem_runs::Clerk;
use sector_device::SectorDevice;

/// Whatever commands a clerk carries out from now on, as an office does for many, they are requests of one life, answered as they were.
pub fn runs_are_lives<D: SectorDevice>(clerk: &Clerk<D>)
    ensures { RunsAreLives clerk.now }
{}
