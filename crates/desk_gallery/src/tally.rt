//! What the seats of an office are told, counted: two books under its lock, of the commands that are accepted and of those that are
//! told as halted, and at each seat its share of both. They exist in proofs alone.
ghost use Rattle.std.specs.Prelude.{◌≡◌, ◌+◌, ◌<◌};
ghost use Rattle.desk_gallery.specs.claim.Telling.{accepted_in, halted_in};

use crate::book::GalleryId;
use desk_model::reply::{Refusal, Reply};
use std::marker::{Model, PhantomData};
use std::sync::ledger::{Blank, Book, Ledger, Share};

/// The ledger of the commands that are accepted.
pub struct Accepted<J> {
    of: PhantomData<J>,
}

impl<J: GalleryId> Ledger for Accepted<J> {
    ghost name = { J.counts.accepted };

    ghost parts = { J.counts.seats };
}

/// The ledger of the commands answered as halted.
pub struct Halts<J> {
    of: PhantomData<J>,
}

impl<J: GalleryId> Ledger for Halts<J> {
    ghost name = { J.counts.halted };

    ghost parts = { J.counts.seats };
}

/// Two ledgers for `seats` seats that no gallery uses yet. Contracts say what the gallery's
/// identity has to be.
#[derive(Drop)]
pub struct UnopenedLedgers {
    accepted: Blank,
    halted: Blank,
}

impl Model for UnopenedLedgers {
    ghost use Rattle.std.specs.Prelude.{◌≡◌};
    ghost use Rattle.desk_gallery.specs.Naming.{Counts};

    ghost Value = { Counts };

    ghost view = { λ b. record { accepted = b.accepted.name; halted = b.halted.name; seats = b.accepted.parts } };

    ghost invariant = { λ b. b.halted.parts ≡ b.accepted.parts };
}

impl UnopenedLedgers {
    pub fn new(seats: u64) -> UnopenedLedgers
        ensures { result.seats ≡ seats }
    {
        UnopenedLedgers {
            accepted: Blank::new(seats),
            halted: Blank::new(seats),
        }
    }

    /// Returns the empty books, and the tallies of all seats.
    pub fn open<J: GalleryId>(self) -> (AnswerLedgers<J>, FreeShares<J>)
        requires { self ≡ J.counts }
        ensures none { (result.0.accepted.total ≡ 0) × (result.0.halted.total ≡ 0) }
        ensures all { result.1.accepted.parts ≡ J.counts.seats }
        ensures told { (result.1.accepted.amount ≡ 0) × (result.1.halted.amount ≡ 0) }
    {
        let UnopenedLedgers { accepted, halted } = self;
        let (accepted_book, accepted) = accepted.open::<Accepted<J>>();
        let (halted_book, halted) = halted.open::<Halts<J>>();
        (
            AnswerLedgers {
                accepted: accepted_book,
                halted: halted_book,
            },
            FreeShares { accepted, halted },
        )
    }
}

/// The number of commands accepted, and of commands answered as halted, at all seats.
#[derive(Drop)]
pub struct AnswerLedgers<J: GalleryId> {
    accepted: Book<Accepted<J>>,
    halted: Book<Halts<J>>,
}

/// The number of commands accepted, and of commands answered as halted, at one seat.
#[derive(Drop)]
pub struct SeatShare<J: GalleryId> {
    accepted: Share<Accepted<J>>,
    halted: Share<Halts<J>>,
    ghost one: { accepted.parts ≡ 1 },
    ghost same: { halted.parts ≡ 1 },
}

/// The same of seats that nobody has.
#[derive(Drop)]
pub struct FreeShares<J: GalleryId> {
    accepted: Share<Accepted<J>>,
    halted: Share<Halts<J>>,
    ghost same: { halted.parts ≡ accepted.parts },
}

impl<J: GalleryId> AnswerLedgers<J> {
    /// Counts a reply at the seat that receives it.
    pub(crate) fn count(&mut self, tally: &mut SeatShare<J>, reply: &Reply)
        ensures book { self.new.accepted.total ≡ self.old.accepted.total + accepted_in reply.now }
        ensures halts { self.new.halted.total ≡ self.old.halted.total + halted_in reply.now }
        ensures seat { tally.new.accepted.amount ≡ tally.old.accepted.amount + accepted_in reply.now }
        ensures seat_halts { tally.new.halted.amount ≡ tally.old.halted.amount + halted_in reply.now }
    {
        let SeatShare { accepted, halted } = tally;
        match reply {
            Reply::Created { .. } | Reply::Retired { .. } => self.accepted.add(accepted, 1),
            Reply::Refused(Refusal::Halted) => self.halted.add(halted, 1),
            _ => {}
        }
    }

    /// Who has the tallies of all seats has the totals.
    pub(crate) fn audit(&mut self, all: &mut FreeShares<J>)
        requires { all.old.accepted.parts ≡ J.counts.seats }
        ensures accepted { all.old.accepted.amount ≡ self.old.accepted.total }
        ensures halted { all.old.halted.amount ≡ self.old.halted.total }
        ensures same { (self.new.accepted.total ≡ self.old.accepted.total) × (self.new.halted.total ≡ self.old.halted.total) }
    {
        let FreeShares { accepted, halted } = all;
        self.accepted.audit(accepted);
        self.halted.audit(halted);
    }
}

impl<J: GalleryId> FreeShares<J> {
    /// Returns the tally of a further seat, which received no answer.
    pub fn seat(&mut self) -> SeatShare<J>
        requires left { 0 < self.old.accepted.parts }
        requires none { (self.old.accepted.amount ≡ 0) × (self.old.halted.amount ≡ 0) }
        ensures told { (result.accepted.amount ≡ 0) × (result.halted.amount ≡ 0) }
        ensures one { self.new.accepted.parts + 1 ≡ self.old.accepted.parts }
        ensures none { (self.new.accepted.amount ≡ 0) × (self.new.halted.amount ≡ 0) }
    {
        let FreeShares { accepted, halted } = self;
        SeatShare {
            accepted: accepted.split_off(1, 0),
            halted: halted.split_off(1, 0),
        }
    }

    /// Takes in that of a seat which nobody has any more.
    pub fn merge(&mut self, tally: SeatShare<J>)
        ensures one { self.new.accepted.parts ≡ self.old.accepted.parts + 1 }
        ensures accepted { self.new.accepted.amount ≡ self.old.accepted.amount + tally.accepted.amount }
        ensures halted { self.new.halted.amount ≡ self.old.halted.amount + tally.halted.amount }
    {
        let FreeShares { accepted, halted } = self;
        accepted.merge(tally.accepted);
        halted.merge(tally.halted);
    }
}
