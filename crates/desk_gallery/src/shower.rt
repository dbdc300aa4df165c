//! The writer of a gallery.
ghost use Rattle.std.specs.Prelude.{◌≡◌, ◌<◌, List, ◌∷◌, ◌++◌, [], length, drop, IfOk, IfErr, MatchResult};
ghost use mathlib.Core.List.{IsPrefix};
ghost use Rattle.desk_model.specs.claim.Step.{step};
ghost use Rattle.desk_model.specs.declared.command.Command.{Command};
ghost use Rattle.desk_gallery.specs.claim.After.{after};
ghost use Rattle.desk_gallery.specs.Rules.{shown_of};
ghost use Rattle.desk_gallery.specs.Shelves.{Stands, WaitsFor};

use crate::book::{GalleryId, SeenPrefix, Whole};
use crate::shelf::PublishedDesk;
use crate::tied::{Copies, CopyRule};
use crate::visitor::{Told, Visitor};
use core::mem::replace_with;
use desk_store_catalogue::catalogue::Catalogue;
use desk_theorem_runs::Change;
use std::alloc::AllocError;
use std::marker::Model;
use std::sync::{Arc, Wait};

/// The number of changes that a list takes, 2^81. A store runs out of numbers before: it makes at most
/// 2^64 - 1 plans, each with at most 65,537 changes.
pub const CHANGE_LIMIT: u128 = 2_417_851_639_229_258_349_412_352;

/// Appends a shelf to copies that lack none; tries until there is memory.
fn push<J: GalleryId, R: Wait>(rt: &R, copies: &mut Copies<J>, shelf: PublishedDesk)
    requires { drop copies.old.behind copies.old.log.items ≡ [] }
    ensures desk { copies.new.desk ≡ copies.old.desk }
    ensures pending { drop copies.new.behind copies.new.log.items ≡ shelf ∷ [] }
{
    let mut shelf = shelf;
    for _ in rt.forever() {
        match copies.append(shelf) {
            Ok(()) => return,
            Err(back) => shelf = back,
        }
    }
    unreachable!()
}

/// Shows the shelf that waits, or changes nothing.
fn publish_once<J: GalleryId, R: Wait>(
    copies: Copies<J>,
    rt: &R,
) -> (Copies<J>, Result<(), AllocError>)
    requires { (changes : List Command) × WaitsFor J.book J.root J.first (drop copies.behind copies.log.items) changes }
    ensures ok { (changes : List Command) → WaitsFor J.book J.root J.first (drop copies.behind copies.log.items) changes
        → IfOk result.1 (λ _. (shown_of J.root result.0.desk.shown.value.past.seen.log ≡ changes)
        × Stands J.book J.root J.first result.0.desk.shown.value × (drop result.0.behind result.0.log.items ≡ [])) }
    ensures err { IfErr result.1 (λ _. drop result.0.behind result.0.log.items ≡ drop copies.behind copies.log.items) }
{
    copies.publish_as::<CopyRule<J>, R>(rt)
}

/// Shows the shelf that waits; tries until it can.
fn publish<J: GalleryId, R: Wait>(rt: &R, copies: &mut Copies<J>)
    requires { (changes : List Command) × WaitsFor J.book J.root J.first (drop copies.old.behind copies.old.log.items) changes }
    ensures { (changes : List Command) → WaitsFor J.book J.root J.first (drop copies.old.behind copies.old.log.items) changes
        → (shown_of J.root copies.new.desk.shown.value.past.seen.log ≡ changes)
        × Stands J.book J.root J.first copies.new.desk.shown.value × (drop copies.new.behind copies.new.log.items ≡ []) }
{
    for _ in rt.forever() {
        if replace_with(copies, rt, publish_once).is_ok() {
            return;
        }
    }
    unreachable!()
}

/// Shows changes. Contracts see it as the list that is shown and the list with what is pending after it.
///
/// It is not `Drop`: end it by `close`.
pub struct Shower<J: GalleryId> {
    copies: Copies<J>,
    whole: Whole<J>,
    pending: Option<Arc<Catalogue>>,
}

impl<J: GalleryId> Model for Shower<J> {
    ghost use Rattle.std.specs.Prelude.{◌≡◌, List, [], drop, MatchOption};
    ghost use Rattle.desk_model.specs.declared.command.Command.{Command};
    ghost use Rattle.desk_gallery.specs.claim.After.{after};
    ghost use Rattle.desk_gallery.specs.Rules.{shown_of};
    ghost use Rattle.desk_gallery.specs.Shelves.{Stands};

    ghost Value = { List Command × List Command };

    ghost view = { λ s. s.whole };

    ghost invariant = { λ s. Stands J.book J.root J.first s.copies.desk.shown.value
        × (shown_of J.root s.copies.desk.shown.value.past.seen.log ≡ s.whole.0) × (drop s.copies.behind s.copies.log.items ≡ [])
        × MatchOption s.pending (s.whole.0 ≡ s.whole.1) (λ catalogue. catalogue.value ≡ after J.first s.whole.1) };
}

impl<J: GalleryId> Shower<J> {
    /// A writer over copies and their list, with nothing pending.
    pub(crate) fn over(copies: Copies<J>, whole: Whole<J>) -> Shower<J>
        requires stands { Stands J.book J.root J.first copies.desk.shown.value }
        requires shown { shown_of J.root copies.desk.shown.value.past.seen.log ≡ whole.0 }
        requires none { drop copies.behind copies.log.items ≡ [] }
        requires all { whole.0 ≡ whole.1 }
        ensures { result ≡ whole }
    {
        Shower {
            copies,
            whole,
            pending: None,
        }
    }

    /// Returns a visitor that has seen nothing, or an error if no place is left.
    pub(crate) fn visitor(&self) -> Result<Visitor<J>, AllocError>
        requires { self.now.0 ≡ [] }
        ensures { IfOk result (λ v. v ≡ []) }
    {
        let reader = self.copies.factory().reader()?;
        Ok(Visitor::over(reader, self.tell()))
    }

    /// How many changes are shown.
    pub fn shown(&self) -> u128
        ensures { result ≡ length self.now.0 }
    {
        self.copies.published().past.number
    }

    /// How many changes were appended, those that are pending too.
    pub fn appended(&self) -> u128
        ensures { result ≡ length self.now.1 }
    {
        self.whole.len()
    }

    /// Appends a change to a list of fewer than 2^81, and returns the catalogue after it. `Err`: one
    /// more owner was refused, and nothing pending has changed.
    pub fn append(&mut self, change: Change) -> Result<Arc<Catalogue>, AllocError>
        requires few { length self.old.1 < CHANGE_LIMIT }
        requires step { change.after ≡ (step (after J.first self.old.1) change.command).1 }
        ensures appended { MatchResult result (λ _. self.new ≡ (self.old.0, self.old.1 ++ change.command ∷ [])) (λ _. self.new ≡ self.old) }
        ensures after { IfOk result (λ next. next.value ≡ after J.first self.new.1) }
    {
        let after = change.after()?;
        let next = change.after()?;
        self.whole.append(change.command());
        self.pending = Some(after);
        Ok(next)
    }

    /// Shows the appended changes, all at once: in the list first, so that no catalogue is published before the list leads to it.
    pub fn show<R: Wait>(&mut self, rt: &R)
        ensures { self.new ≡ (self.old.1, self.old.1) }
    {
        let Some(shown) = self.pending.take() else {
            return;
        };
        self.whole.show();
        let shelf = PublishedDesk {
            shown,
            past: self.whole.mark(),
        };
        push(rt, &mut self.copies, shelf);
        publish(rt, &mut self.copies);
    }

    /// What is shown, for visitors to learn.
    pub fn tell(&self) -> Told<J>
        ensures { result ≡ self.now.0 }
    {
        let shelf = self.copies.published();
        Told::of(SeenPrefix::of(shelf.past.again()), shelf.shown.clone().ok())
    }

    /// The same with the catalogue after it, for which no memory is taken.
    pub(crate) fn tell_of(&self, shown: Arc<Catalogue>) -> Told<J>
        requires { shown.value ≡ after J.first self.now.0 }
        ensures { result ≡ self.now.0 }
    {
        Told::of(
            SeenPrefix::of(self.copies.published().past.again()),
            Some(shown),
        )
    }

    /// Nobody has seen more than is shown: what is shown begins with it, whenever and by whomever it was seen.
    pub(crate) fn knows(&mut self, past: &SeenPrefix<J>)
        ensures begins { IsPrefix past.now self.new.0 }
        ensures same { self.new ≡ self.old }
    {
        self.whole.begins_with(past);
    }

    /// Ends it. It waits for those that are visiting.
    pub fn close<R: Wait>(self, rt: &R) {
        let Shower {
            copies,
            whole: _,
            pending: _,
        } = self;
        copies.take(rt);
    }
}
