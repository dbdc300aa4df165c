//! The list.
ghost use Rattle.std.specs.Prelude.{◌≡◌, ◌+◌, ◌-◌, ◌*◌, ◌≤◌, ◌<◌, ◌^◌, ℕ, ◌++◌, length, get_or, take, drop, replicate, nat_eq, IfOk, OnOk};
ghost use Rattle.std.specs.Cmp.Lexicographic.{pointwise};
ghost use Rattle.desk_store_lists.specs.Laid.{laid, with_at};
ghost use Rattle.desk_store_lists.specs.Pieces.{joined, AreFull, ArePut, IsCut};

use crate::piece::{FULL, Piece};
use crate::pieces::{after, piece_of, piece_put, piece_with, prefix};
use std::alloc::{AllocError, Global};
use std::marker::Model;

/// A list of districts, which shares its pieces with the list that it was made after.
#[derive(Drop)]
pub struct Districts {
    full: Vec<Piece>,
    rest: Piece,
    count: usize,
}

impl Model for Districts {
    ghost use Rattle.std.specs.Prelude.{ℕ, List, ◌++◌};
    ghost use Rattle.desk_store_lists.specs.Pieces.{joined, IsCut};

    ghost Value = { List ℕ };

    ghost view = { λ a. joined a.full.items ++ a.rest };

    ghost invariant = { λ a. IsCut a.full.items a.rest a.count };
}

impl Districts {
    /// The districts of a list. Where the last list has the same ones in the piece at the same place, its piece is shared.
    pub fn new(
        alloc: Global,
        list: &[u16],
        last: Option<&Districts>,
    ) -> Result<Districts, AllocError>
        ensures { IfOk result (λ districts. districts ≡ list.now) }
    {
        let number = list.len() / FULL;
        let mut full = Vec::with_capacity(alloc, number)?;
        for place in 0..number {
            let part = prefix(after(list, place * FULL), FULL);
            full.push(piece_of(alloc, part, full_at(last, place))?)?;
        }
        let rest = piece_of(alloc, after(list, number * FULL), rest_of(last))?;
        Ok(Districts {
            full,
            rest,
            count: list.len(),
        })
    }

    /// A list of `count` unassigned blocks, which takes no memory but for the list of its pieces.
    pub fn unassigned(alloc: Global, count: usize) -> Result<Districts, AllocError>
        ensures { IfOk result (λ districts. districts ≡ replicate count 0) }
    {
        let number = count / FULL;
        let piece = Piece::unassigned(FULL);
        let rest = Piece::unassigned(count % FULL);
        let mut full = Vec::with_capacity(alloc, number)?;
        for _place in 0..number {
            full.push(piece.share()?)?;
        }
        Ok(Districts { full, rest, count })
    }

    /// Returns the list with its districts replaced by the listed ones, which begin at the place
    /// `first`. A piece that does not change is shared.
    #[tactic(auto, using(crate::proofs::Cut::joined_long))]
    pub fn with_listed(
        &self,
        alloc: Global,
        first: usize,
        listed: &[Option<u16>],
    ) -> Result<Districts, AllocError>
        ensures { IfOk result (λ districts. districts ≡ laid first listed.now 0 self.now) }
    {
        let pieces = self.full.as_slice();
        let after = self.count - pieces.len() * FULL;
        let mut full = Vec::with_capacity(alloc, pieces.len())?;
        for place in 0..pieces.len() {
            let kept = &pieces[place];
            let next = piece_with(alloc, kept, place * FULL, FULL, first, listed)?;
            next.districts_fit();
            full.push(next)?;
        }
        let start = pieces.len() * FULL;
        let rest = piece_with(alloc, &self.rest, start, after, first, listed)?;
        rest.districts_fit();
        Ok(Districts {
            full,
            rest,
            count: self.count,
        })
    }

    /// The same list, of the same pieces.
    pub fn share(&self, alloc: Global) -> Result<Districts, AllocError>
        ensures { IfOk result (λ districts. districts ≡ self.now) }
    {
        let _count = self.count;
        let pieces = self.full.as_slice();
        let number = pieces.len();
        let mut full = Vec::with_capacity(alloc, number)?;
        for place in 0..number {
            full.push(pieces[place].share()?)?;
        }
        let rest = self.rest.share()?;
        Ok(Districts {
            full,
            rest,
            count: self.count,
        })
    }

    /// Returns the list with its districts replaced by a part, which begins at the place `first`. A
    /// piece that does not change is shared.
    #[tactic(auto, using(crate::proofs::Cut::joined_long, crate::proofs::Cut::counted_all))]
    pub fn with_part(
        self,
        alloc: Global,
        first: usize,
        part: &[u16],
    ) -> Result<Districts, AllocError>
        requires { first + length part.now ≤ length self }
        ensures { IfOk result (λ districts. districts ≡ with_at first part.now self) }
    {
        let _all = self.len();
        let Districts {
            mut full,
            rest,
            count,
        } = self;
        let after = count - full.len() * FULL;
        put_pieces(alloc, &mut full, first, part)?;
        let start = count - after;
        let rest = piece_put(alloc, &rest, start, after, first, part)?;
        Ok(Districts { full, rest, count })
    }

    pub fn len(&self) -> usize
        ensures { result ≡ length self.now }
    {
        self.count
    }

    /// A district has two bytes: a law, with nothing to run.
    pub fn districts_fit(&self)
        ensures { (i : ℕ) → get_or self.now i 0 < 2 ^ 16 }
    {
        let _ = &self.count;
    }

    /// The list, flat.
    pub fn to_vec(&self, alloc: Global) -> Result<Vec<u16>, AllocError>
        ensures { IfOk result (λ list. list.items ≡ self.now) }
    {
        let mut list = Vec::with_capacity(alloc, self.count)?;
        for piece in &self.full {
            piece.append_to(&mut list)?;
        }
        self.rest.append_to(&mut list)?;
        Ok(list)
    }

    /// The districts from a place on that lie in one piece.
    fn piece_from(&self, alloc: Global, place: usize) -> Result<Vec<u16>, AllocError>
        requires { place < length self.now }
        ensures prefix { IfOk result (λ here. take (length here.items) (drop place self.now) ≡ here.items) }
        ensures some { IfOk result (λ here. 0 < length here.items) }
    {
        let at = place / FULL;
        let full = self.full.as_slice();
        if at < full.len() {
            let piece: &Piece = &full[at];
            return piece.tail(alloc, place % FULL);
        }
        self.rest.tail(alloc, place - full.len() * FULL)
    }

    /// The district at a place.
    fn at(&self, place: usize) -> u16
        requires { place < length self.now }
        ensures { result ≡ get_or self.now place 0 }
    {
        let at = place / FULL;
        let full = self.full.as_slice();
        if at < full.len() {
            let piece: &Piece = &full[at];
            return piece.at(place % FULL);
        }
        self.rest.at(place - full.len() * FULL)
    }

    /// Returns a place up to which two lists have the same districts from a place on, and the place
    /// itself if they differ there. With `whole` it compares the whole piece first.
    #[tactic(auto, using(crate::proofs::Cut::counted_all))]
    fn same_until(&self, other: &Districts, place: usize, whole: bool) -> usize
        requires here { place < length self.now }
        requires there { place < length other.now }
        ensures after { place ≤ result }
        ensures same { take (result - place) (drop place self.now) ≡ take (result - place) (drop place other.now) }
        ensures apart { result ≡ place → get_or self.now place 0 ≡ get_or other.now place 0 → ⊥ }
    {
        let _count = self.count;
        let at = place / FULL;
        let full = self.full.as_slice();
        let others = other.full.as_slice();
        if whole && at < full.len() && at < others.len() {
            let here: &Piece = &full[at];
            let there: &Piece = &others[at];
            if here.is_alike(there) {
                return (at + 1) * FULL;
            }
        }
        if self.at(place) == other.at(place) {
            return place + 1;
        }
        place
    }

    /// Whether another list has the same districts at these places.
    #[tactic(auto, using(crate::proofs::Cut::counted_all))]
    pub fn is_same_in(&self, other: &Districts, first: usize, count: usize) -> bool
        requires here { first + count ≤ length self.now }
        requires there { first + count ≤ length other.now }
        ensures { result ≡ pointwise nat_eq (take count (drop first self.now)) (take count (drop first other.now)) }
    {
        let _count = self.count;
        let end = first + count;
        let mut place = first;
        while place < end {
            let next = self.same_until(other, place, place == first || place % FULL == 0);
            if next == place {
                return false;
            }
            place = next.min(end);
        }
        true
    }

    /// The districts at these places, flat.
    #[tactic(auto, using(crate::proofs::Cut::counted_all))]
    pub fn part(&self, alloc: Global, first: usize, count: usize) -> Result<Vec<u16>, AllocError>
        requires { first + count ≤ length self.now }
        ensures { IfOk result (λ part. part.items ≡ take count (drop first self.now)) }
    {
        let mut part = Vec::with_capacity(alloc, count)?;
        let _count = self.count;
        let end = first + count;
        let mut place = first;
        while place < end {
            let here = self.piece_from(alloc, place)?;
            let some = here.len().min(end - place);
            part.extend_from_slice(prefix(here.as_slice(), some))?;
            place += some;
        }
        Ok(part)
    }
}

/// The full piece at a place, from 0.
fn full_at(list: Option<&Districts>, place: usize) -> Option<&Piece> {
    match list {
        Some(list) => list.full.get(place),
        None => None,
    }
}

/// The piece after the full ones.
fn rest_of(list: Option<&Districts>) -> Option<&Piece> {
    match list {
        Some(list) => Some(&list.rest),
        None => None,
    }
}

/// Replaces the districts of full pieces by a part, which begins at the place `first`.
fn put_pieces(
    alloc: Global,
    full: &mut Vec<Piece>,
    first: usize,
    part: &[u16],
) -> Result<(), AllocError>
    requires full { AreFull full.old.items }
    requires few { length full.old.items * 512 < 2 ^ 64 }
    requires within { first + length part.now < 2 ^ 64 }
    ensures { OnOk result (ArePut first part.now full.old.items full.new.items) }
{
    let end = (first + part.len()) / FULL + 1;
    for place in first / FULL..end.min(full.len()) {
        full[place] = piece_put(alloc, &full[place], place * FULL, FULL, first, part)?;
    }
    Ok(())
}
