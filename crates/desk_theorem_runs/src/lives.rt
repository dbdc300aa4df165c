//! Lives of a store, one after the other, each ended by a stop.
ghost use Rattle.desk_theorem_runs.specs.claim.Lives.{LivesSurvive};

use crate::desk_law::one_desk_opens;
use crate::law::each_run_survives;
use sector_device::SectorDevice;

/// For any number of lives, each an opening, commands and a crash at any moment, or a migration and
/// a crash at any moment: what the last crash left opens, in one of the two versions, to the desk
/// after, from each life, the accepted commands up to some place, which include all that were
/// acknowledged before its crash.
#[tactic(auto, using(crate::proofs::Following::lives_survive))]
pub fn lives_survive<D: SectorDevice>()
    ensures { LivesSurvive D.SectorDevice }
{
    one_desk_opens();
    each_run_survives::<D>();
}
