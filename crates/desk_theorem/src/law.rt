//! The laws on lives, and on lists of events.
ghost use Rattle.http_desk.specs.seats.Streams.{traffic};
ghost use Rattle.desk_theorem.specs.claim.Law.{CoreLaw};
ghost use Rattle.desk_theorem.specs.claim.Lives.{LivesOnDevice, PlanDesk};

use http_desk::Arrivals;
use sector_device::SectorDevice;

/// States that lives which each begin on a crash state of the life before are lives of the first store.
pub fn lives_are_one<A: Arrivals>()
    ensures { PlanDesk (λ a. traffic A.gives A.takes_back A.Reader.Source A.Writer.Sink a) }
{}

/// States that a life on a device that was synced when it was opened is a life on what the device read, whichever crash state it leaves.
pub fn devices_live<D: SectorDevice, A: Arrivals>()
    ensures { LivesOnDevice (λ a. traffic A.gives A.takes_back A.Reader.Source A.Writer.Sink a) D.SectorDevice }
{}

/// For every list of events: no visitor knows more than is shown, no more is shown than is acknowledged, and no more is
/// acknowledged than was changed; a stop keeps all that was acknowledged, and no other event takes a change away; what a
/// visitor is answered between two stops follows lists each of which begins the next.
#[tactic(auto, using(crate::proofs::Core::core))]
pub fn core_law()
    ensures { CoreLaw }
{}
