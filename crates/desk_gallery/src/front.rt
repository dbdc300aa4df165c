//! The clerk with the writer of the gallery.
ghost use Rattle.std.specs.Prelude.{◌≡◌, ◌∷◌, ◌++◌, [], false, true, IfOk, MatchResult};
ghost use Rattle.desk_model.specs.claim.Step.{step};
ghost use Rattle.desk_theorem_runs.specs.desk_store.claim.Clerks.{is_halted};
ghost use Rattle.desk_theorem_runs.specs.desk_store.claim.Commands.{IsReady, Commits};
ghost use Rattle.desk_gallery.specs.claim.After.{after};

use crate::book::GalleryId;
use crate::shower::{CHANGE_LIMIT, Shower};
use crate::tally::{AnswerLedgers, FreeShares, SeatShare};
use crate::visitor::{Told, Visitor};
use desk_model::command::Command;
use desk_model::reply::{Refusal, Reply};
use desk_store_catalogue::catalogue::Catalogue;
use desk_theorem_runs::tending::tend;
use desk_theorem_runs::{Change, Clerk, Ready, StoreError};
use sector_device::SectorDevice;
use std::alloc::{AllocError, Global};
use std::marker::Model;
use std::sync::{Arc, Wait};

/// Appends a change that leads from the last pending catalogue, and returns the catalogue after it.
/// `Err`: one more owner was refused, or the list has all the changes that it takes; nothing pending
/// has changed.
fn append_next<J: GalleryId>(
    shower: &mut Shower<J>,
    change: Change,
) -> Result<Arc<Catalogue>, AllocError>
    requires { change.after ≡ (step (after J.first shower.old.1) change.command).1 }
    ensures appended { MatchResult result (λ _. shower.new ≡ (shower.old.0, shower.old.1 ++ change.command ∷ [])) (λ _. shower.new ≡ shower.old) }
    ensures after { IfOk result (λ next. next.value ≡ after J.first shower.new.1) }
{
    if shower.appended() >= CHANGE_LIMIT {
        return Err(AllocError);
    }
    shower.append(change)
}

/// Commits a command whose change is pending, and shows it once the commit is acknowledged. After a
/// fault the change stays pending. Returns what is shown then, with its catalogue.
fn settle<J: GalleryId, D: SectorDevice, R: Wait>(
    rt: &R,
    clerk: &mut Clerk<D>,
    shower: &mut Shower<J>,
    ready: Ready,
    next: Arc<Catalogue>,
) -> (Reply, Told<J>)
    requires ready { IsReady clerk.old ready }
    requires next { next.value ≡ after J.first shower.old.1 }
    ensures commits { Commits clerk.old ready result.0 clerk.new }
    ensures shown { is_halted clerk.new ≡ false → shower.new ≡ (shower.old.1, shower.old.1) }
    ensures hidden { is_halted clerk.new ≡ true → shower.new ≡ shower.old }
    ensures told { result.1 ≡ shower.new.0 }
{
    let reply = ready.commit(clerk);
    if clerk.halted() {
        return (reply, shower.tell());
    }
    shower.show(rt);
    (reply, shower.tell_of(next))
}

/// What an office's lock protects: a clerk, the writer that shows its desk, and the books of the
/// answers given to its seats.
///
/// It is not `Drop`: end it by `close`.
pub struct Front<J: GalleryId, D: SectorDevice> {
    pub(crate) clerk: Clerk<D>,
    pub(crate) shower: Shower<J>,
    pub(crate) books: AnswerLedgers<J>,
    is_checked: bool,
}

impl<J: GalleryId, D: SectorDevice> Model for Front<J, D> {
    ghost use Rattle.std.specs.Prelude.{◌≡◌, length};
    ghost use Rattle.desk_theorem_runs.specs.desk_store.claim.Clerks.{Keeps};
    ghost use Rattle.desk_gallery.specs.claim.Begun.{HasRun};
    ghost use Rattle.desk_gallery.specs.Fronts.{Kept, kept_of};
    ghost use Rattle.desk_gallery.specs.Working.{Agree};

    ghost Value = { Kept D };

    ghost view = { λ f. kept_of f.clerk f.shower };

    ghost invariant = { λ f. Agree J.first f.clerk f.shower × (J.sound → Keeps f.clerk)
        × (ran : HasRun J.begins J.asked f.clerk f.shower.0 f.books.halted.total) × (ran.checked ≡ f.is_checked)
        × (f.books.accepted.total ≡ length f.shower.0) };
}

impl<J: GalleryId, D: SectorDevice> Front<J, D> {
    ghost use Rattle.std.specs.Prelude.{◌≡◌, ◌+◌, ◌∷◌, ◌++◌, ℕ, [], false, length};
    ghost use mathlib.Core.List.{IsPrefix};
    ghost use Rattle.desk_model.specs.claim.Outcome.{IsAcceptance};
    ghost use Rattle.desk_theorem_runs.specs.desk_store.claim.Clerks.{is_halted, Keeps};
    ghost use Rattle.desk_gallery.specs.claim.After.{after};
    ghost use Rattle.desk_gallery.specs.claim.Begun.{HasRun};
    ghost use Rattle.desk_gallery.specs.Fronts.{kept_of, IsClerk, Starts, Works, SweepsOn, ShowsAll};
    ghost use Rattle.desk_gallery.specs.claim.Outcomes.{OutcomeMay};
    ghost use Rattle.desk_gallery.specs.claim.Telling.{accepted_in, halted_in};
    ghost use Rattle.desk_gallery.specs.claim.Working.{AreAccepted};
    ghost use Rattle.desk_gallery.specs.Working.{Joins};

    /// A front of a clerk and a writer that shows the clerk's desk and has nothing pending, with
    /// empty books.
    pub fn new(clerk: Clerk<D>, shower: Shower<J>, books: AnswerLedgers<J>) -> Front<J, D>
        requires none { shower ≡ ([], []) }
        requires books { (books.accepted.total ≡ 0) × (books.halted.total ≡ 0) }
        requires starts { Starts J.first J.begins J.sound clerk }
        ensures { result ≡ kept_of clerk shower }
    {
        Front {
            clerk,
            shower,
            books,
            is_checked: false,
        }
    }

    /// How many changes are shown.
    pub fn shown(&self) -> u128
        ensures { result ≡ length self.now.shown }
    {
        self.shower.shown()
    }

    /// What is shown.
    pub fn tell(&self) -> Told<J>
        ensures { result ≡ self.now.shown }
    {
        self.shower.tell()
    }

    /// No visitor has seen more than is shown: what is shown begins with everything that a visitor
    /// saw or was told, at any time.
    pub fn knows(&mut self, visitor: &Visitor<J>)
        ensures begins { IsPrefix visitor.now self.new.shown }
        ensures same { self.new ≡ self.old }
    {
        self.knows_told(&visitor.heard);
    }

    /// What is shown begins with the contents of any note.
    pub fn knows_told(&mut self, told: &Told<J>)
        ensures begins { IsPrefix told.now self.new.shown }
        ensures same { self.new ≡ self.old }
    {
        self.shower.knows(&told.past);
    }

    /// Whether the device has failed.
    pub fn halted(&self) -> bool
        ensures { result ≡ self.now.halted }
    {
        self.clerk.halted()
    }

    /// How many pages of the store are free.
    pub fn free_pages(&self) -> u32
        ensures { self.now.halted ≡ false → (D.disk self.now.device).is_honest → result ≡ self.now.free }
    {
        self.clerk.free_pages()
    }

    /// Nothing that was shown is lost.
    pub fn is_kept(&self)
        ensures { ShowsAll D.SectorDevice J.first J.sound self.now }
    {
        let _ = &self.clerk;
    }

    /// Carries out a command; returns its outcome and what is shown then. A change is shown once
    /// its commit is acknowledged. The seat's tally counts the answer: no command is done that is
    /// not counted there.
    pub fn command<R: Wait>(
        &mut self,
        rt: &R,
        alloc: Global,
        command: Command,
        tally: &mut SeatShare<J>,
    ) -> (Reply, Told<J>)
        requires { J.asked command }
        ensures works { Works D.SectorDevice J.first self.old command result.0 self.new }
        ensures outcome { OutcomeMay (after J.first self.old.shown) command result.0 (after J.first self.new.shown) }
        ensures joined { IsAcceptance result.0 → self.new.shown ≡ self.old.shown ++ command ∷ [] }
        ensures same { ¬ IsAcceptance result.0 → self.new.shown ≡ self.old.shown }
        ensures joins { Joins J.first (self.old.shown, self.old.all) command result.0 (self.new.shown, self.new.all) }
        ensures told { result.1 ≡ self.new.shown }
        ensures accepted { tally.new.accepted.amount ≡ tally.old.accepted.amount + accepted_in result.0 }
        ensures halted { tally.new.halted.amount ≡ tally.old.halted.amount + halted_in result.0 }
    {
        let (reply, told) = match self.clerk.prepare(alloc, command) {
            Ok(ready) => match ready.change() {
                Ok(change) => match append_next(&mut self.shower, change) {
                    Ok(next) => settle(rt, &mut self.clerk, &mut self.shower, ready, next),
                    Err(_) => {
                        drop(ready);
                        (Reply::Refused(Refusal::Memory), self.shower.tell())
                    }
                },
                Err(_) => {
                    drop(ready);
                    (Reply::Refused(Refusal::Memory), self.shower.tell())
                }
            },
            Err(refusal) => (Reply::Refused(refusal), self.shower.tell()),
        };
        self.books.count(tally, &reply);
        (reply, told)
    }

    /// A step of a sweep: no command, and nothing that is shown. The first one that isn't refused checks the holdings, and no row is taken
    /// out before. Each other takes out or changes up to 16 of the rows that deleted plans and stopped loads left: how many there were, 0
    /// only where none is left. Once the device has failed nothing is done.
    pub fn sweep_step(&mut self, alloc: Global) -> Result<Option<usize>, StoreError>
        ensures sweeps { SweepsOn D.SectorDevice J.first self.old result self.new }
        ensures shown { (self.new.shown ≡ self.old.shown) × (self.new.all ≡ self.old.all) }
    {
        let (is_checked, swept) = tend(alloc, &mut self.clerk, self.is_checked);
        self.is_checked = is_checked;
        swept
    }

    /// The clerk, whom commands left of the first one, those that are shown acknowledged. It waits for those that are visiting.
    pub fn close<R: Wait>(self, rt: &R) -> Clerk<D>
        ensures clerk { IsClerk J.first self result }
        ensures kept { J.sound → Keeps result }
        ensures accepted { AreAccepted J.first self.shown }
        ensures ran { (halts : ℕ) × HasRun J.begins J.asked result self.shown halts }
    {
        let Front {
            clerk,
            shower,
            books: _,
            is_checked: _,
        } = self;
        shower.close(rt);
        clerk
    }

    /// The same, for whoever has the tallies of all seats: each accepted command was answered as
    /// accepted at one of them, once, and each command answered as halted was answered so at one of
    /// them.
    pub fn close_counted<R: Wait>(self, rt: &R, tallies: FreeShares<J>) -> Clerk<D>
        requires { tallies.accepted.parts ≡ J.counts.seats }
        ensures clerk { IsClerk J.first self result }
        ensures kept { J.sound → Keeps result }
        ensures accepted { AreAccepted J.first self.shown }
        ensures ran { HasRun J.begins J.asked result self.shown tallies.halted.amount }
        ensures counted { length self.shown ≡ tallies.accepted.amount }
    {
        let mut tallies = tallies;
        let Front {
            clerk,
            shower,
            mut books,
            is_checked: _,
        } = self;
        books.audit(&mut tallies);
        shower.close(rt);
        clerk
    }
}
