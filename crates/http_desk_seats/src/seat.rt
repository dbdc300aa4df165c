//! A seat: one guest and the office.
ghost use Rattle.std.specs.Prelude.{◌≡◌, Option, IfOk};
ghost use Rattle.std.specs.Sync.Mutex.{mutex_guard_value};
ghost use mathlib.Core.List.{IsPrefix};
ghost use Rattle.desk_model.specs.claim.Desk.{Desk};
ghost use Rattle.desk_model.specs.claim.Geography.{GeographyModel};
ghost use Rattle.desk_store_catalogue.specs.claim.Audits.{AskMay};
ghost use Rattle.http_desk_seats.specs.Seated.{IsOf};
ghost use Rattle.http_desk_seats.specs.claim.Explained.{ExplainsCommand, ExplainsQuery};

use crate::guest::SeatState;
use desk_gallery::book::GalleryId;
use desk_gallery::front::Front;
use desk_gallery::office::Office;
use desk_gallery::tally::SeatShare;
use desk_gallery::visitor::Visitor;
use desk_model::command::{Command, Query};
use desk_model::reply::{Refusal, Reply};
use desk_store_catalogue::CachedReport;
use desk_store_catalogue::catalogue::Catalogue;
use desk_store_catalogue::counter::Counter;
use sector_device::SectorDevice;
use std::alloc::{AllocError, Global};
use std::marker::Model;
use std::sync::{Arc, MutexGuard, Wait};

/// Locks the office. What the visitor has seen is a prefix of what is shown; no runtime check is
/// needed.
fn front_for<'a, J: GalleryId, D: SectorDevice, R: Wait>(
    rt: &R,
    office: &'a Office<J, D>,
    visitor: &Visitor<J>,
) -> MutexGuard<'a, Front<J, D>>
    ensures { IsPrefix visitor.now (mutex_guard_value result).shown }
{
    let mut front = office.lock(rt);
    front.knows(visitor);
    front
}

/// Notifies the office of the rows that a deleted plan leaves.
fn note_rows<J: GalleryId, D: SectorDevice>(office: &Office<J, D>, reply: &Reply) {
    if let Reply::Retired { .. } = reply {
        office.note_rows();
    }
}

/// The answer of a catalogue, or Memory where none was given. The last report that was made is kept.
fn answered(
    alloc: Global,
    shown: Result<Arc<Catalogue>, AllocError>,
    query: Query,
    last: &mut Option<CachedReport>,
) -> Reply
    requires { IfOk shown (λ s. IsOf s.value.geography last.old) }
    ensures answer { (d : Desk) → IfOk shown (λ s. s.value ≡ d) → AskMay d query result }
    ensures last { (g : Option GeographyModel) → IfOk shown (λ s. s.value.geography ≡ g) → IsOf g last.old → IsOf g last.new }
{
    match shown {
        Ok(shown) => shown.ask_again(alloc, query, last),
        Err(_) => Reply::Refused(Refusal::Memory),
    }
}

/// A place at which commands go to the office and queries to the gallery. Contracts see it as its guest.
#[derive(Drop)]
pub struct Seat<'a, J: GalleryId, D: SectorDevice, R> {
    rt: &'a R,
    office: &'a Office<J, D>,
    visitor: Visitor<J>,
    tally: SeatShare<J>,
    /// The report that it made last.
    last: Option<CachedReport>,
}

impl<'a, J: GalleryId, D: SectorDevice, R> Model for Seat<'a, J, D, R> {
    ghost use Rattle.http_desk_seats.specs.claim.Seated.{Seated};
    ghost use Rattle.http_desk_seats.specs.Seated.{IsOf};

    ghost Value = { Seated };

    ghost view = { λ s. record { heard = s.visitor; accepted = s.tally.accepted.amount; halted = s.tally.halted.amount } };

    ghost invariant = { λ s. IsOf J.first.geography s.last };
}

impl<'a, J: GalleryId, D: SectorDevice, R> Seat<'a, J, D, R> {
    /// A seat of a guest at the office of its gallery.
    pub fn new(rt: &'a R, office: &'a Office<J, D>, guest: SeatState<J>) -> Seat<'a, J, D, R>
        ensures { result ≡ guest }
    {
        let SeatState { visitor, tally } = guest;
        Seat {
            rt,
            office,
            visitor,
            tally,
            last: None,
        }
    }

    /// Returns its guest, who has seen and was answered what the seat has seen and was answered.
    pub fn into_guest(self) -> SeatState<J>
        ensures { result ≡ self.entry }
    {
        SeatState {
            visitor: self.visitor,
            tally: self.tally,
        }
    }
}

impl<'a, J: GalleryId, D: SectorDevice, R: Wait> Counter for Seat<'a, J, D, R> {
    ghost takes = { λ _ command. J.asked command };

    ghost commands = { λ before command reply heard. ExplainsCommand J.first before command reply heard };

    ghost asks = { λ before query reply heard. ExplainsQuery J.first before query reply heard };

    const ALONE: bool = false;

    /// Carries a command out, and counts it in the seat's tally. It waits for whoever has the front, and for those that are visiting.
    fn command(&mut self, alloc: Global, command: Command) -> Reply {
        let mut front = front_for(self.rt, self.office, &self.visitor);
        let (reply, told) = front.command(self.rt, alloc, command, &mut self.tally);
        self.office.note_room(&*front);
        MutexGuard::unlock(front);
        note_rows(self.office, &reply);
        self.visitor.learn(told);
        reply
    }

    /// Answers a query, and just the audit that it answered last from that report. It takes no lock.
    fn ask(&mut self, alloc: Global, query: Query) -> Reply {
        let shown = self.visitor.visit();
        answered(alloc, shown, query, &mut self.last)
    }
}
