//! The opening of a gallery.
ghost use Rattle.std.specs.Prelude.{◌≡◌, ◌<◌, ◌^◌, [], All, length, IfOk};
ghost use Rattle.desk_gallery.specs.Naming.{IsOpenedFor};

use crate::book::{GalleryId, Opened, Whole};
use crate::shelf::PublishedDesk;
use crate::shower::Shower;
use crate::tied::Copies;
use crate::visitor::Visitor;
use desk_store_catalogue::catalogue::Catalogue;
use std::alloc::{AllocError, Global};
use std::sync::Arc;

/// Why no gallery was opened, or not for all its visitors.
pub enum GalleryFault<J: GalleryId> {
    Memory,
    /// A reader's place wasn't given.
    Refused(Shower<J>),
}

/// The writer, with room for `visitors` visitors.
fn shower<J: GalleryId>(
    alloc: Global,
    opened: Opened,
    catalogue: Arc<Catalogue>,
    visitors: usize,
) -> Result<Shower<J>, AllocError>
    requires opened { IsOpenedFor J.book J.root J.first opened catalogue.value }
    requires visitors { (0 < visitors) × (visitors < 2 ^ 32) }
    ensures { IfOk result (λ s. s ≡ ([], [])) }
{
    let again = catalogue.clone()?;
    let whole: Whole<J> = Whole::new(opened);
    let mark = whole.mark();
    let second = PublishedDesk {
        shown: again,
        past: mark.again(),
    };
    let first = PublishedDesk {
        shown: catalogue,
        past: mark,
    };
    let copies: Copies<J> = Copies::new(alloc, first, second, visitors)?;
    Ok(Shower::over(copies, whole))
}

/// Gives `visitors` visitors a place each. Returns an error if no place or no memory is left.
fn seat_all<J: GalleryId>(
    shower: &Shower<J>,
    seats: &mut Vec<Visitor<J>>,
    visitors: usize,
) -> Result<(), AllocError>
    requires none { shower.now.0 ≡ [] }
    requires empty { seats.old.items ≡ [] }
    ensures { IfOk result (λ _. All (λ v. v ≡ []) seats.new.items × (length seats.new.items ≡ visitors)) }
{
    for _ in 0..visitors {
        seats.push(shower.visitor()?)?;
    }
    Ok(())
}

/// A writer and its visitors.
pub struct Gallery;

impl Gallery {
    ghost use Rattle.std.specs.Prelude.{◌≡◌, ◌<◌, ◌^◌, [], All, length, IfOk};
    ghost use Rattle.desk_gallery.specs.Naming.{IsOpenedFor};

    /// Opens a gallery of the list that has a name: nothing was changed, and the catalogue is shown.
    pub fn new<J: GalleryId>(
        alloc: Global,
        opened: Opened,
        catalogue: Arc<Catalogue>,
        visitors: usize,
    ) -> Result<(Shower<J>, Vec<Visitor<J>>), GalleryFault<J>>
        requires opened { IsOpenedFor J.book J.root J.first opened catalogue.value }
        requires visitors { (0 < visitors) × (visitors < 2 ^ 32) }
        ensures { IfOk result (λ g. (g.0 ≡ ([], [])) × All (λ v. v ≡ []) g.1.items × (length g.1.items ≡ visitors)) }
    {
        let Ok(mut seats) = Vec::with_capacity(alloc, visitors) else {
            return Err(GalleryFault::Memory);
        };
        let Ok(shower) = shower::<J>(alloc, opened, catalogue, visitors) else {
            return Err(GalleryFault::Memory);
        };
        if seat_all(&shower, &mut seats, visitors).is_err() {
            return Err(GalleryFault::Refused(shower));
        }
        Ok((shower, seats))
    }
}
