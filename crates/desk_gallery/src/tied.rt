//! The rule of a gallery's copies.
use crate::book::GalleryId;
use crate::shelf::PublishedDesk;
use crossbeam_utils::rule::{Outcome, Protocol};
use left_right::reader::Reader;
use left_right::writer::Writer;
use std::marker::PhantomData;

/// What is shown follows from the gallery's first desk by the shown changes of the log.
pub struct CopyRule<J> {
    of: PhantomData<J>,
}

impl<J: GalleryId> Protocol<PublishedDesk, ()> for CopyRule<J> {
    ghost use Rattle.desk_gallery.specs.Shelves.{Stands};

    ghost holds = { λ s _. Stands J.book J.root J.first s };

    ghost first = { tt };
}

impl<J: GalleryId> Outcome<PublishedDesk, ()> for CopyRule<J> {
    ghost use Rattle.desk_gallery.specs.Shelves.{Stands};

    ghost then = { λ _ x y _. Stands J.book J.root J.first x × Stands J.book J.root J.first y };
}

/// The two copies, in the writer's hands.
pub type Copies<J> = Writer<PublishedDesk, PublishedDesk, (), CopyRule<J>>;

/// A reader of the copies.
pub type CopyReader<J> = Reader<PublishedDesk, (), CopyRule<J>>;
