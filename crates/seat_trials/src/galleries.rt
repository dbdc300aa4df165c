//! The calls of a gallery, without an office: a change is appended, committed and shown.
ghost use Rattle.std.specs.Prelude.{◌≡◌, []};
ghost use Rattle.desk_gallery.specs.Fronts.{Starts};
ghost use Rattle.desk_gallery.specs.Naming.{IsOpenedFor};
ghost use Rattle.desk_store.specs.claim.Clerks.{desk_of};

use crate::visitors::{clerk_failing_at, create, gallery_of, is_created, plans_seen};
use desk_gallery::book::{GalleryId, Opened};
use desk_gallery::shower::Shower;
use desk_gallery::visitor::Visitor;
use desk_store::clerk::Clerk;
use desk_store_catalogue::catalogue::Catalogue;
use sector_memory::Fused;
use std::alloc::Global;
use std::marker::Brand;
use std::process::Abort;
use std::sync::{Arc, Wait};

/// Makes a plan, and shows it to the gallery once it is committed.
fn show_one<J: GalleryId, R: Wait + Abort>(
    rt: &R,
    alloc: Global,
    clerk: &mut Clerk<Fused>,
    shower: &mut Shower<J>,
    visitor: &mut Visitor<J>,
)
    requires none { shower.old ≡ ([], []) }
    requires first { desk_of clerk.old ≡ J.first }
{
    let Ok(ready) = clerk.prepare(alloc, create(rt, b"a")) else {
        panic!(rt; "refused");
    };
    let change = ready.change().expect(rt, "no memory");
    let next = shower.append(change).expect(rt, "no memory");
    drop(next);
    holds!(rt; is_created(&ready.commit(clerk)) & (shower.appended() == 1));
    visitor.learn(shower.tell());
    holds!(rt; (visitor.heard() == 0) & (plans_seen(rt, alloc, visitor) == 0));
    shower.show(rt);
    visitor.learn(shower.tell());
    holds!(rt; (visitor.heard() == 1) & (plans_seen(rt, alloc, visitor) == 1));
}

/// The same in a new gallery.
fn in_gallery<J: GalleryId, R: Wait + Abort>(
    rt: &R,
    alloc: Global,
    opened: Opened,
    clerk: Clerk<Fused>,
    catalogue: Arc<Catalogue>,
)
    requires opened { IsOpenedFor J.book J.root J.first opened catalogue.value }
    requires starts { Starts J.first J.begins J.sound clerk }
{
    let mut clerk = clerk;
    let (mut shower, mut visitors) = gallery_of::<J, R>(rt, alloc, opened, catalogue, 1);
    let mut visitor = visitors.pop().expect(rt, "no visitor");
    show_one(rt, alloc, &mut clerk, &mut shower, &mut visitor);
    shower.close(rt);
}

#[test]
fn a_change_is_appended_and_shown(rt: HostRuntime) {
    let rt = &rt;
    let alloc = rt.alloc();
    let clerk = clerk_failing_at(rt, alloc, u64::MAX).expect(rt, "no clerk");
    let catalogue = clerk.published().expect(rt, "no memory");
    in_gallery::<Brand, _>(rt, alloc, Opened::new(), clerk, catalogue);
}
