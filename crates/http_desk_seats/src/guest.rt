//! Who sits at a seat.
ghost use Rattle.std.specs.Prelude.{◌≡◌};
ghost use Rattle.http_desk_seats.specs.claim.Seated.{newcomer};

use desk_gallery::book::GalleryId;
use desk_gallery::tally::SeatShare;
use desk_gallery::visitor::Visitor;
use std::marker::Model;

/// A visitor with the tally of its answers. Contracts see it as the changes that it has seen, and
/// the counts.
#[derive(Drop)]
pub struct SeatState<J: GalleryId> {
    pub visitor: Visitor<J>,
    pub tally: SeatShare<J>,
}

impl<J: GalleryId> Model for SeatState<J> {
    ghost use Rattle.http_desk_seats.specs.claim.Seated.{Seated};

    ghost Value = { Seated };

    ghost view = { λ g. record { heard = g.visitor; accepted = g.tally.accepted.amount; halted = g.tally.halted.amount } };
}

impl<J: GalleryId> SeatState<J> {
    /// A visitor whose tally counts nothing.
    pub fn new(visitor: Visitor<J>, tally: SeatShare<J>) -> SeatState<J>
        requires { (tally.accepted.amount ≡ 0) × (tally.halted.amount ≡ 0) }
        ensures { result ≡ newcomer visitor }
    {
        SeatState { visitor, tally }
    }
}
