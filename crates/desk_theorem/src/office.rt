//! What whoever has the front of an office knows of the world that it is.
ghost use Rattle.std.specs.Prelude.{◌≡◌, All};
ghost use mathlib.Core.List.{IsPrefix};
ghost use Rattle.desk_theorem.specs.claim.Law.{IsLawful};
ghost use Rattle.desk_theorem.specs.claim.Runs.{HasRuns, standing};
ghost use Rattle.desk_theorem.specs.Runs.{IsReached};

use crate::law::core_law;
use http_desk::book::GalleryId;
use http_desk::front::Front;
use http_desk::visitor::Visitor;
use sector_device::SectorDevice;

/// No visitor has seen more than the front shows.
fn know_all<J: GalleryId, D: SectorDevice>(front: &mut Front<J, D>, visitors: &[Visitor<J>])
    ensures all { All (λ v. IsPrefix v front.new.shown) visitors.now }
    ensures same { front.new ≡ front.old }
{
    for visitor in visitors {
        front.knows(visitor);
    }
}

/// Whatever the visitors of a gallery did, each by itself: some list of events without a crash
/// leads to what the front shows and to what they have seen, and in it each visitor is answered as
/// it was.
pub fn office_is_run<J: GalleryId, D: SectorDevice>(
    front: &mut Front<J, D>,
    visitors: &[Visitor<J>],
)
    ensures runs { HasRuns J.first front.new.shown front.new.all visitors.now }
    ensures same { front.new ≡ front.old }
{
    front.is_kept();
    know_all(front, visitors);
}

/// Whatever the visitors of a gallery did: the law of all lists of events holds for what the front
/// shows and what they have seen.
pub fn stands<J: GalleryId, D: SectorDevice>(front: &mut Front<J, D>, visitors: &[Visitor<J>])
    ensures lawful { IsLawful J.first (standing front.new.shown front.new.all visitors.now) }
    ensures same { front.new ≡ front.old }
{
    core_law();
    are_standing(front, visitors);
}

/// What the front shows, and what each visitor of its gallery has seen, is a state of a world to
/// which events without a crash lead.
pub fn are_standing<J: GalleryId, D: SectorDevice>(front: &mut Front<J, D>, visitors: &[Visitor<J>])
    ensures reached { IsReached J.first front.new.shown front.new.all visitors.now }
    ensures same { front.new ≡ front.old }
{
    front.is_kept();
    know_all(front, visitors);
}
