//! The units of a neighbour file, word by word.
ghost use Rattle.std.specs.Prelude.{◌≡◌, ◌<◌, ◌≤◌, ℕ, List, Some, Ok, Err, false, length, drop, vec_len, Contains, IfOk, IfSome, IfNone};
ghost use Rattle.std.specs.List.Sorted.{IsStrictlyIncreasing};
ghost use Rattle.desk_model.specs.claim.GeographyModels.{AreBlocks};
ghost use Rattle.desk_model.specs.claim.Geography.{ids_of, id_at};
ghost use Rattle.desk_model.specs.declared.block.BlockRow.{BlockRow as Row};
ghost use Rattle.gal_text.specs.claim.Units.{Progress, at_start, is_done, lists, neighbours_left, unit_read, neighbour_read, word_awaited, word_read};
ghost use Rattle.byte_stream.specs.claim.Words.{word_limit};
ghost use Rattle.gal_text.specs.Holding.{Holds, IsHeld, IsAtHand, with_link, Meets, Takes, IsPlaced};

use crate::fault::TextFault;
use desk_model::block::{BlockId, BlockRow};
use desk_model::geography::place_near;
use field_text::digits::{digits_exactly, number as number_of};
use std::alloc::{AllocError, Global};

/// A unit has at most this many neighbours.
pub const NEIGHBOUR_LIMIT: u64 = 4_096;

/// A unit lists a block as its neighbour.
#[derive(Clone, Copy)]
pub struct Link {
    pub from: BlockId,
    pub to: BlockId,
}

/// What the next word is to be.
#[derive(Clone, Copy, PartialEq, Eq)]
pub enum Awaited {
    /// A unit's block, or no word where no unit is left.
    Block,
    /// This unit's number of neighbours.
    Count(BlockId),
    /// A neighbour of this unit, the first of the given number that are left.
    Neighbour(BlockId, u64),
}

/// Why a word isn't taken.
#[derive(Clone, Copy)]
pub enum UnitRefusal {
    Fault(TextFault),
    Memory,
}

/// The units read so far. Its memory grows with the words, never with the number that the header
/// announces.
#[derive(Drop)]
pub struct Graph {
    /// Whether the block at each place is a unit.
    pub seen: Vec<bool>,
    pub links: Vec<Link>,
    /// Where the links of the unit at hand begin.
    first: usize,
    /// The place after the last unit's, from which blocks are looked for outward.
    likely: usize,
    /// How many units are left.
    left: u64,
    next: Awaited,
}

/// The block that a word names, with its place.
fn block_of(blocks: &[BlockRow], likely: usize, word: &[u8]) -> Option<(usize, BlockId)>
    requires { IsStrictlyIncreasing (ids_of blocks.now) }
    ensures { IsPlaced blocks.now word.now result }
{
    let id = BlockId::from_number(digits_exactly(word, 15)?);
    let place = place_near(blocks, likely, id)?;
    Some((place, id))
}

/// The unit has `left` neighbours to come.
fn neighbours_left(unit: BlockId, left: u64) -> Awaited
    ensures { result ≡ neighbours_left unit left }
{
    if left == 0 {
        return Awaited::Block;
    }
    Awaited::Neighbour(unit, left)
}

/// Whether the unit lists the block.
fn lists(links: &[Link], unit: BlockId, other: BlockId) -> bool
    ensures { result ≡ lists links.now unit other }
{
    links.iter().any(|l| l.from == unit && l.to == other)
}

impl Graph {
    /// No word was taken, and `left` units are to come.
    pub fn new(alloc: Global, blocks: &[BlockRow], left: u64) -> Result<Graph, AllocError>
        ensures { IfOk result (λ g. Holds blocks.now g (at_start left)) }
    {
        let seen = vec![in alloc; false; blocks.len()]?;
        Ok(Graph {
            seen,
            links: Vec::new(alloc),
            first: 0,
            likely: 0,
            left,
            next: Awaited::Block,
        })
    }

    /// Whether no word is wanting.
    pub fn is_done(&self) -> bool
        ensures { (blocks : List Row) (p : Progress) → Holds blocks self.now p → result ≡ is_done p }
    {
        self.left == 0 && self.next == Awaited::Block
    }

    /// The fault of a word, of this number, that is too long.
    pub fn long_fault(&self, number: u64) -> TextFault
        ensures { (blocks : List Row) (p : Progress) (word : List ℕ) → Holds blocks self.now p → word_limit < length word
            → word_read (ids_of blocks) p number word ≡ Err result }
    {
        match self.next {
            Awaited::Block => {
                if self.left == 0 {
                    TextFault::TrailingWord(number)
                } else {
                    TextFault::UnknownBlock(number)
                }
            }
            Awaited::Count(_) => TextFault::Count(number),
            Awaited::Neighbour(_, _) => TextFault::UnknownBlock(number),
        }
    }

    /// Takes a unit's block, at the place given.
    fn take_unit(&mut self, place: usize, id: BlockId, number: u64) -> Result<(), UnitRefusal>
        requires { place < vec_len self.old.seen }
        ensures { (blocks : List Row) (p : Progress) → IsStrictlyIncreasing (ids_of blocks) → Holds blocks self.old p → id_at blocks place ≡ id
            → Meets blocks (unit_read p number (Some id)) result self.new }
    {
        if self.seen[place] {
            return Err(UnitRefusal::Fault(TextFault::RepeatedUnit(id)));
        }
        self.seen[place] = true;
        self.first = self.links.len();
        self.likely = place + 1;
        self.left = self.left.saturating_sub(1);
        self.next = Awaited::Count(id);
        Ok(())
    }

    /// Takes the word of a unit's block.
    fn take_block(
        &mut self,
        blocks: &[BlockRow],
        number: u64,
        word: &[u8],
    ) -> Result<(), UnitRefusal>
        requires rising { IsStrictlyIncreasing (ids_of blocks.now) }
        requires held { IsHeld blocks.now self.old }
        ensures { (p : Progress) → Holds blocks.now self.old p
            → Meets blocks.now (word_awaited (ids_of blocks.now) p number word.now Awaited.Block) result self.new }
    {
        if self.left == 0 {
            return Err(UnitRefusal::Fault(TextFault::TrailingWord(number)));
        }
        match block_of(blocks, self.likely, word) {
            Some(found) => self.take_unit(found.0, found.1, number),
            None => Err(UnitRefusal::Fault(TextFault::UnknownBlock(number))),
        }
    }

    /// Takes the word of a unit's number of neighbours.
    fn take_count(&mut self, unit: BlockId, number: u64, word: &[u8]) -> Result<(), UnitRefusal>
        ensures { (blocks : List Row) (p : Progress) → Holds blocks self.old p → p.next ≡ Awaited.Count unit
            → Meets blocks (word_awaited (ids_of blocks) p number word.now (Awaited.Count unit)) result self.new }
    {
        let Some(count) = number_of(word, 10) else {
            return Err(UnitRefusal::Fault(TextFault::Count(number)));
        };
        if count > NEIGHBOUR_LIMIT {
            return Err(UnitRefusal::Fault(TextFault::TooManyNeighbours(unit)));
        }
        self.next = neighbours_left(unit, count);
        Ok(())
    }

    /// Adds a link of the current unit, which has `left` more links to come.
    fn add_link(&mut self, link: Link, left: u64) -> Result<(), UnitRefusal>
        ensures { (blocks : List Row) (p : Progress) → Holds blocks self.old p → IsAtHand p.units p.links self.old.first link.from
            → Meets blocks (Ok (with_link p link left)) result self.new }
    {
        let next = neighbours_left(link.from, left);
        match self.links.push(link) {
            Ok(()) => {
                self.next = next;
                Ok(())
            }
            Err(_) => Err(UnitRefusal::Memory),
        }
    }

    /// Takes a neighbour of the unit at hand.
    fn take_link(
        &mut self,
        unit: BlockId,
        left: u64,
        number: u64,
        other: BlockId,
    ) -> Result<(), UnitRefusal>
        requires { self.old.first ≤ vec_len self.old.links }
        ensures { (blocks : List Row) (p : Progress) → Holds blocks self.old p → p.next ≡ Awaited.Neighbour unit left
            → Meets blocks (neighbour_read p unit left number (Some other)) result self.new }
    {
        if other.number() == unit.number() {
            return Err(UnitRefusal::Fault(TextFault::OwnNeighbour(unit)));
        }
        if lists(&self.links[self.first..], unit, other) {
            return Err(UnitRefusal::Fault(TextFault::RepeatedNeighbour(unit, other)));
        }
        let link = Link {
            from: unit,
            to: other,
        };
        self.add_link(link, left.saturating_sub(1))
    }

    /// Takes the word of a neighbour.
    fn take_neighbour(
        &mut self,
        blocks: &[BlockRow],
        unit: BlockId,
        left: u64,
        number: u64,
        word: &[u8],
    ) -> Result<(), UnitRefusal>
        requires rising { IsStrictlyIncreasing (ids_of blocks.now) }
        requires held { IsHeld blocks.now self.old }
        ensures { (p : Progress) → Holds blocks.now self.old p → p.next ≡ Awaited.Neighbour unit left
            → Meets blocks.now (word_awaited (ids_of blocks.now) p number word.now (Awaited.Neighbour unit left)) result self.new }
    {
        match block_of(blocks, self.likely, word) {
            Some((_, id)) => self.take_link(unit, left, number, id),
            None => Err(UnitRefusal::Fault(TextFault::UnknownBlock(number))),
        }
    }

    /// Takes the next word, of this number.
    pub fn take(&mut self, blocks: &[BlockRow], number: u64, word: &[u8]) -> Result<(), UnitRefusal>
        requires blocks { AreBlocks blocks.now }
        requires held { IsHeld blocks.now self.old }
        ensures { (p : Progress) → Holds blocks.now self.old p → Takes blocks.now p number word.now result self.new }
    {
        let next = self.next;
        match next {
            Awaited::Block => self.take_block(blocks, number, word),
            Awaited::Count(unit) => self.take_count(unit, number, word),
            Awaited::Neighbour(unit, left) => self.take_neighbour(blocks, unit, left, number, word),
        }
    }
}
