//! Visitors of a gallery, who wait for nobody.
ghost use Rattle.std.specs.Prelude.{◌≡◌, ◌⊎◌, length, IfOk, IfSome, OnErr};
ghost use mathlib.Core.List.{IsPrefix};
ghost use Rattle.desk_model.specs.claim.Desk.{Desk};
ghost use Rattle.desk_gallery.specs.claim.After.{after};
ghost use Rattle.desk_gallery.specs.Rules.{shown_of};
ghost use Rattle.desk_gallery.specs.Shelves.{ComesAfter, Stands};

use crate::book::{GalleryId, SeenPrefix};
use crate::shelf::PublishedDesk;
use crate::tied::{CopyReader, CopyRule};
use core::mem::replace_with;
use desk_store_catalogue::catalogue::Catalogue;
use std::alloc::AllocError;
use std::marker::Model;
use std::sync::Arc;

/// A note of what is shown: its changes, and the catalogue after them. Contracts see it as its changes.
#[derive(Drop)]
pub struct Told<J: GalleryId> {
    pub(crate) past: SeenPrefix<J>,
    /// None where one more owner was refused when the note was made.
    shown: Option<Arc<Catalogue>>,
}

impl<J: GalleryId> Model for Told<J> {
    ghost use Rattle.std.specs.Prelude.{◌≡◌, List, IfSome};
    ghost use Rattle.desk_model.specs.declared.command.Command.{Command};
    ghost use Rattle.desk_gallery.specs.claim.After.{after};

    ghost Value = { List Command };

    ghost view = { λ t. t.past };

    ghost invariant = { λ t. IfSome t.shown (λ s. s.value ≡ after J.first t.past) };
}

impl<J: GalleryId> Told<J> {
    /// A note of a list and, if there is one, the catalogue after it.
    pub(crate) fn of(past: SeenPrefix<J>, shown: Option<Arc<Catalogue>>) -> Told<J>
        requires { IfSome shown (λ s. s.value ≡ after J.first past) }
        ensures { result ≡ past }
    {
        Told { past, shown }
    }

    /// What a copy shows.
    pub(crate) fn of_shelf(shelf: PublishedDesk) -> Told<J>
        requires { Stands J.book J.root J.first shelf }
        ensures { result ≡ shown_of J.root shelf.past.seen.log }
    {
        let PublishedDesk { shown, past } = shelf;
        Told {
            past: SeenPrefix::of(past),
            shown: Some(shown),
        }
    }

    /// The catalogue after its changes. Err where one more owner is refused, or was when the note was made.
    fn catalogue(&self) -> Result<Arc<Catalogue>, AllocError>
        ensures { IfOk result (λ shown. shown.value ≡ after J.first self.now) }
    {
        match &self.shown {
            Some(shown) => shown.clone(),
            None => Err(AllocError),
        }
    }

    /// The catalogue after the longer of two lists. Err where one more owner is refused, or was when that note was made.
    fn newer(&self, other: &Told<J>) -> Result<Arc<Catalogue>, AllocError>
        ensures { IfOk result (λ shown. ComesAfter J.first self.now other.now shown.value) }
    {
        if self.past.begins(&other.past) {
            return other.catalogue();
        }
        self.catalogue()
    }
}

/// Reads the copy that is shown, if a reader is let in and one more owner isn't refused.
fn look<J: GalleryId>(eye: CopyReader<J>, _none: ()) -> (CopyReader<J>, Option<PublishedDesk>)
    ensures { IfSome result.1 (Stands J.book J.root J.first) }
{
    match eye.enter_as::<CopyRule<J>>() {
        Ok(reading) => {
            let shelf = reading.get().again().ok();
            (reading.leave(), shelf)
        }
        Err(eye) => (eye, None),
    }
}

/// Sees what is shown. Contracts see a visitor as the changes that it saw or was told.
#[derive(Drop)]
pub struct Visitor<J: GalleryId> {
    eye: CopyReader<J>,
    pub(crate) heard: Told<J>,
}

impl<J: GalleryId> Model for Visitor<J> {
    ghost use Rattle.std.specs.Prelude.{List};
    ghost use Rattle.desk_model.specs.declared.command.Command.{Command};

    ghost Value = { List Command };

    ghost view = { λ v. v.heard };
}

impl<J: GalleryId> Visitor<J> {
    pub(crate) fn over(eye: CopyReader<J>, heard: Told<J>) -> Visitor<J>
        ensures { result ≡ heard }
    {
        Visitor { eye, heard }
    }

    /// Returns the number of changes that it saw or was told.
    pub fn heard(&self) -> u128
        ensures { result ≡ length self.now }
    {
        self.heard.past.len()
    }

    /// Returns the catalogue after a list of shown changes that begins with everything this visitor
    /// saw or was told: of the copy that is shown or, if that has fewer changes, of what the
    /// visitor knows already. Returns an error if no reader is let in or one more owner is refused;
    /// the visitor then learned nothing.
    #[tactic(auto, using(crate::proofs::Pasts::prefix_same))]
    pub fn visit(&mut self) -> Result<Arc<Catalogue>, AllocError>
        ensures later { IsPrefix self.old self.new }
        ensures value { IfOk result (λ shown. shown.value ≡ after J.first self.new) }
        ensures same { OnErr result (self.new ≡ self.old) }
    {
        let Some(shelf) = replace_with(&mut self.eye, (), look) else {
            return Err(AllocError);
        };
        let seen = Told::of_shelf(shelf);
        let shown = self.heard.newer(&seen)?;
        self.take_in(seen);
        Ok(shown)
    }

    /// Takes in what it saw. The catalogue after the longer of the two lists is that after its own then.
    fn take_in(&mut self, seen: Told<J>)
        ensures later { IsPrefix self.old self.new }
        ensures led { (d : Desk) → ComesAfter J.first self.old seen d → d ≡ after J.first self.new }
    {
        self.learn(seen);
    }

    /// Learns what a note says: the longer of the two lists, which begin alike.
    pub fn learn(&mut self, told: Told<J>)
        ensures one { (self.new ≡ self.old) ⊎ (self.new ≡ told) }
        ensures this { IsPrefix self.old self.new }
        ensures that { IsPrefix told self.new }
    {
        if self.heard.past.begins(&told.past) {
            self.heard = told;
        }
    }
}
