//! The law of runs with steps of sweeps in them.
ghost use Rattle.desk_store.specs.declared.clerk.Clerk.{Clerk};
ghost use Rattle.desk_theorem_runs.specs.claim.SweptRuns.{SurvivesEachSwept};

use sector_device::SectorDevice;

/// For all commands that a clerk is given, with steps of sweeps between them, there is a list of
/// moments that do not fall, one for each acknowledged command, and each crash state since one of
/// them opens to the desk after the acknowledged commands up to it and some of those that follow.
pub fn each_swept_run_survives<D: SectorDevice>()
    ensures { (x : Clerk D D.SectorDevice) → SurvivesEachSwept x }
{}
