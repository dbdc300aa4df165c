//! The law of runs.
ghost use Rattle.desk_store.specs.declared.clerk.Clerk.{Clerk};
ghost use Rattle.desk_theorem_runs.specs.claim.Runs.{SurvivesEachRun};

use desk_store::clerk::Clerk;
use sector_device::SectorDevice;

/// For all commands that a clerk is given from now on there is a list of moments that do not fall,
/// one for each acknowledged command, and each crash state since one of them opens to the desk
/// after the acknowledged commands up to it and some of those that follow.
pub fn runs_survive<D: SectorDevice>(clerk: &Clerk<D>)
    ensures { SurvivesEachRun clerk.now }
{}

/// The same of whatever clerk.
pub fn each_run_survives<D: SectorDevice>()
    ensures { (x : Clerk D D.SectorDevice) → SurvivesEachRun x }
{}
