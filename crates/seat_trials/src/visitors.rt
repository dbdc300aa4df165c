//! A clerk over a device that fails, and what a visitor finds.
ghost use Rattle.std.specs.Prelude.{◌≡◌, ◌<◌, ◌^◌, length, []};
ghost use Rattle.desk_gallery.specs.Naming.{IsOpenedFor};

use crate::stores::sealed_device;
use desk_gallery::book::{GalleryId, Opened};
use desk_gallery::gallery::{Gallery, GalleryFault};
use desk_gallery::shower::Shower;
use desk_gallery::visitor::Visitor;
use desk_model::command::{Command, Query};
use desk_model::kind::Kind;
use desk_model::name::PlanName;
use desk_model::reply::{Refusal, Reply};
use desk_model::size::PlanSize;
use desk_store::clerk::Clerk;
use desk_store_catalogue::catalogue::Catalogue;
use sector_memory::Fused;
use std::alloc::Global;
use std::process::Abort;
use std::sync::{Arc, Wait};

/// A clerk with the sample geography, whose device fails at its call k from the opening on; none where that is in the opening.
pub fn clerk_failing_at<R: Abort>(rt: &R, alloc: Global, k: u64) -> Option<Clerk<Fused>> {
    let device = sealed_device(rt, alloc);
    Clerk::open(alloc, Fused::once(device, k)).ok()
}

/// A gallery with a number of visitors.
pub fn gallery_of<J: GalleryId, R: Wait + Abort>(
    rt: &R,
    alloc: Global,
    opened: Opened,
    catalogue: Arc<Catalogue>,
    visitors: usize,
) -> (Shower<J>, Vec<Visitor<J>>)
    requires opened { IsOpenedFor J.book J.root J.first opened catalogue.value }
    requires visitors { (0 < visitors) × (visitors < 2 ^ 32) }
    ensures none { result.0 ≡ ([], []) }
    ensures visitors { length result.1.items ≡ visitors }
{
    match Gallery::new::<J>(alloc, opened, catalogue, visitors) {
        Ok(gallery) => gallery,
        Err(GalleryFault::Memory) => panic!(rt; "no memory"),
        Err(GalleryFault::Refused(shower)) => {
            shower.close(rt);
            panic!(rt; "refused")
        }
    }
}

/// The command that makes a plan under a name.
pub fn create<R: Abort>(rt: &R, name: &[u8]) -> Command {
    Command::Create {
        plan: PlanName::read(name).expect(rt, "no name"),
        size: PlanSize::new(Kind::Congress, 2),
    }
}

pub fn is_created(reply: &Reply) -> bool {
    matches!(reply, Reply::Created { .. })
}

pub fn is_halted(reply: &Reply) -> bool {
    matches!(reply, Reply::Refused(Refusal::Halted))
}

/// Returns the number of plans that a visitor finds; a hundred if it is told of none.
pub fn plans_seen<J: GalleryId, R: Abort>(
    rt: &R,
    alloc: Global,
    visitor: &mut Visitor<J>,
) -> usize {
    let shown = visitor.visit().expect(rt, "no visit");
    match shown.ask(alloc, Query::Plans) {
        Reply::Plans(rows) => rows.as_slice().len(),
        _ => 100,
    }
}
