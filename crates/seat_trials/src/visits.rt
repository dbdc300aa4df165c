//! What two visitors see of a clerk's commands.
ghost use Rattle.std.specs.Prelude.{◌≡◌, length};
ghost use Rattle.desk_model.specs.declared.command.Command.{Command};
ghost use Rattle.desk_gallery.specs.Fronts.{Starts};
ghost use Rattle.desk_gallery.specs.Naming.{IsOpenedFor};

use crate::visitors::{clerk_failing_at, create, gallery_of, is_created, plans_seen};
use desk_gallery::book::{GalleryId, Opened};
use desk_gallery::front::Front;
use desk_gallery::tally::{SeatShare, UnopenedLedgers};
use desk_gallery::visitor::Visitor;
use desk_store::clerk::Clerk;
use desk_store_catalogue::catalogue::Catalogue;
use desk_theorem::office::are_standing;
use sector_memory::Fused;
use std::alloc::Global;
use std::marker::Brand;
use std::process::Abort;
use std::sync::{Arc, Wait};

/// A plan is made: the first visitor is told of it, and finds this number of plans.
fn is_told<J: GalleryId, R: Wait + Abort>(
    rt: &R,
    alloc: Global,
    front: &mut Front<J, Fused>,
    visitors: &mut [Visitor<J>],
    tally: &mut SeatShare<J>,
    name: &[u8],
    so_far: usize,
)
    requires two { length visitors.old ≡ 2 }
    requires asked { (c : Command) → J.asked c }
{
    let (reply, told) = front.command(rt, alloc, create(rt, name), tally);
    holds!(rt; is_created(&reply));
    visitors[0].learn(told);
    let count = so_far as u128;
    holds!(rt; (visitors[0].heard() == count) & (front.shown() == count));
    holds!(rt; plans_seen(rt, alloc, &mut visitors[0]) == so_far);
    are_standing(front, visitors);
}

/// The first of two visitors is told that a plan exists, the other finds both.
fn find_both<J: GalleryId, R: Wait + Abort>(
    rt: &R,
    alloc: Global,
    front: &mut Front<J, Fused>,
    visitors: &mut [Visitor<J>],
    tally: &mut SeatShare<J>,
)
    requires two { length visitors.old ≡ 2 }
    requires asked { (c : Command) → J.asked c }
{
    let (again, told) = front.command(rt, alloc, create(rt, b"a"), tally);
    holds!(rt; !is_created(&again));
    visitors[0].learn(told);
    holds!(rt; (visitors[0].heard() == 2) & (visitors[1].heard() == 0));
    holds!(rt; plans_seen(rt, alloc, &mut visitors[1]) == 2);
    holds!(rt; visitors[1].heard() == 2);
    are_standing(front, visitors);
}

/// One visitor is told of each of two plans, the other of neither; what they and the front have is
/// always a state of the world of events.
fn two_visitors<J: GalleryId, R: Wait + Abort>(
    rt: &R,
    alloc: Global,
    opened: Opened,
    blanks: UnopenedLedgers,
    clerk: Clerk<Fused>,
    catalogue: Arc<Catalogue>,
)
    requires opened { IsOpenedFor J.book J.root J.first opened catalogue.value }
    requires counts { (blanks ≡ J.counts) × (J.counts.seats ≡ 1) }
    requires starts { Starts J.first J.begins J.sound clerk }
    requires asked { (c : Command) → J.asked c }
{
    let (shower, mut visitors) = gallery_of::<J, R>(rt, alloc, opened, catalogue, 2);
    let (books, mut tallies) = blanks.open::<J>();
    let mut tally = tallies.seat();
    let mut front = Front::new(clerk, shower, books);
    let visitors = visitors.as_mut_slice();
    are_standing(&mut front, visitors);
    holds!(rt; plans_seen(rt, alloc, &mut visitors[0]) == 0);
    is_told(rt, alloc, &mut front, visitors, &mut tally, b"a", 1);
    is_told(rt, alloc, &mut front, visitors, &mut tally, b"b", 2);
    find_both(rt, alloc, &mut front, visitors, &mut tally);
    front.close(rt);
}

#[test]
fn visitors_see_what_was_committed(rt: HostRuntime) {
    let rt = &rt;
    let alloc = rt.alloc();
    let clerk = clerk_failing_at(rt, alloc, u64::MAX).expect(rt, "no clerk");
    let catalogue = clerk.published().expect(rt, "no memory");
    let blanks = UnopenedLedgers::new(1);
    two_visitors::<Brand, _>(rt, alloc, Opened::new(), blanks, clerk, catalogue);
}
