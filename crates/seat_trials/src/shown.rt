//! What is shown once a device has failed.
ghost use Rattle.std.specs.Prelude.{◌≡◌};
ghost use Rattle.desk_model.specs.declared.command.Command.{Command};
ghost use Rattle.desk_gallery.specs.Fronts.{Starts};
ghost use Rattle.desk_gallery.specs.Naming.{IsOpenedFor};

use crate::visitors::{clerk_failing_at, create, gallery_of, is_created, is_halted, plans_seen};
use desk_gallery::book::{GalleryId, Opened};
use desk_gallery::front::Front;
use desk_gallery::tally::{SeatShare, UnopenedLedgers};
use desk_gallery::visitor::Visitor;
use desk_store::clerk::Clerk;
use desk_store_catalogue::catalogue::Catalogue;
use sector_memory::Fused;
use std::alloc::Global;
use std::marker::Brand;
use std::process::Abort;
use std::sync::{Arc, Wait};

/// After a fault the next command is refused too, and nothing is shown.
fn stays_halted<J: GalleryId, R: Wait + Abort>(
    rt: &R,
    alloc: Global,
    front: &mut Front<J, Fused>,
    visitor: &mut Visitor<J>,
    tally: &mut SeatShare<J>,
)
    requires asked { (c : Command) → J.asked c }
{
    holds!(rt; front.halted());
    let (next, _) = front.command(rt, alloc, create(rt, b"b"), tally);
    holds!(rt; is_halted(&next) & (front.shown() == 0));
    holds!(rt; plans_seen(rt, alloc, visitor) == 0);
}

/// Whether a command is accepted; where a fault cuts it short, nothing is shown.
fn accepts<J: GalleryId, R: Wait + Abort>(
    rt: &R,
    alloc: Global,
    front: &mut Front<J, Fused>,
    visitor: &mut Visitor<J>,
    tally: &mut SeatShare<J>,
) -> bool
    requires asked { (c : Command) → J.asked c }
{
    let (reply, told) = front.command(rt, alloc, create(rt, b"a"), tally);
    visitor.learn(told);
    let accepted = is_created(&reply);
    holds!(rt; plans_seen(rt, alloc, visitor) == accepted as usize);
    let count = accepted as u128;
    holds!(rt; (visitor.heard() == count) & (front.shown() == count));
    if !accepted {
        holds!(rt; is_halted(&reply));
        stays_halted(rt, alloc, front, visitor, tally);
    }
    accepted
}

/// Whether the first command to a gallery is accepted.
fn is_shown<J: GalleryId, R: Wait + Abort>(
    rt: &R,
    alloc: Global,
    opened: Opened,
    blanks: UnopenedLedgers,
    clerk: Clerk<Fused>,
    catalogue: Arc<Catalogue>,
) -> bool
    requires opened { IsOpenedFor J.book J.root J.first opened catalogue.value }
    requires counts { (blanks ≡ J.counts) × (J.counts.seats ≡ 1) }
    requires starts { Starts J.first J.begins J.sound clerk }
    requires asked { (c : Command) → J.asked c }
{
    let (shower, mut visitors) = gallery_of::<J, R>(rt, alloc, opened, catalogue, 1);
    let (books, mut tallies) = blanks.open::<J>();
    let mut tally = tallies.seat();
    let mut front = Front::new(clerk, shower, books);
    let mut visitor = visitors.pop().expect(rt, "no visitor");
    let accepted = accepts(rt, alloc, &mut front, &mut visitor, &mut tally);
    front.close(rt);
    accepted
}

/// A command on a device whose call k fails, where the opening passes.
fn at_call<R: Wait + Abort>(rt: &R, alloc: Global, k: u64) -> Option<bool> {
    let clerk = clerk_failing_at(rt, alloc, k)?;
    let catalogue = clerk.published().expect(rt, "no memory");
    let blanks = UnopenedLedgers::new(1);
    Some(is_shown::<Brand, _>(rt, alloc, Opened::new(), blanks, clerk, catalogue))
}

#[test]
fn a_change_that_a_fault_cut_short_is_never_shown(rt: HostRuntime) {
    let rt = &rt;
    let alloc = rt.alloc();
    let mut faults = 0u32;
    let mut accepted = false;
    for k in 0..400u64 {
        let told = at_call(rt, alloc, k);
        accepted = told.unwrap_or(false);
        if accepted {
            break;
        }
        faults = faults.saturating_add(u32::from(told.is_some()));
    }
    holds!(rt; accepted & (faults > 2));
}
