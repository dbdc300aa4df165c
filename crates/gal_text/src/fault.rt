//! Why a neighbour file isn't read.
ghost use Rattle.std.specs.Prelude.{◌++◌, codes};
ghost use Rattle.std.specs.Fmt.{WritesOnOk};
ghost use Rattle.gal_text.specs.claim.Texts.{block_text, blocks_text};

use desk_model::block::BlockId;
use std::fmt;

/// A fault at a place of the text. Words are counted from 1 after the header's line; the header is
/// 0.
#[derive(Clone, Copy)]
pub enum TextFault {
    /// A1: no header line, or one of 0, 2 or 3 words, or longer than 65,536 bytes.
    Header,
    /// A2: the number of units or of neighbours isn't 1 to 10 digits, at this word.
    Count(u64),
    /// A3: a unit or a neighbour that isn't a block's 15 digits, at this word.
    UnknownBlock(u64),
    /// A4: the unit occurs before.
    RepeatedUnit(BlockId),
    /// A6: the unit is its own neighbour.
    OwnNeighbour(BlockId),
    /// A8: the unit has more than 4,096 neighbours.
    TooManyNeighbours(BlockId),
    /// A9: this word comes after the last unit.
    TrailingWord(u64),
    /// A10: a word is wanting.
    EndsEarly,
    /// A11: the unit lists the second block twice.
    RepeatedNeighbour(BlockId, BlockId),
}

/// Why no pairs are given.
#[derive(Clone, Copy)]
pub enum GalFault {
    /// A1 to A4, A6, A8 to A11: the first fault of the text.
    Text(TextFault),
    /// A5: the least block that is no unit.
    MissingUnit(BlockId),
    /// A7: the first lists the second, which doesn't list it: the least first, then the least second.
    OneWay(BlockId, BlockId),
    /// A12: the source failed.
    Read,
    /// A13: the source was asked 4,294,967,296 times.
    TurnLimit,
    Memory,
}

fn write_id<W: fmt::Write>(f: &mut fmt::Formatter<W>, code: &str, id: BlockId) -> fmt::Result
    ensures { WritesOnOk W.write_str_gives f.old result (block_text code.now id) f.new }
{
    write!(f, "{} {:015}", code, id.number())
}

fn write_ids<W: fmt::Write>(
    f: &mut fmt::Formatter<W>,
    code: &str,
    first: BlockId,
    second: BlockId,
) -> fmt::Result
    ensures { WritesOnOk W.write_str_gives f.old result (blocks_text code.now first second) f.new }
{
    write!(f, "{} {:015} {:015}", code, first.number(), second.number())
}

impl fmt::Display for TextFault {
    ghost use Rattle.std.specs.Prelude.{Some};
    ghost use Rattle.gal_text.specs.claim.Texts.{text_fault_text};

    ghost output = { λ fault. Some (text_fault_text fault) };

    /// The code and what it carries, as `A2 word 3` or `A4 190010001001001`.
    fn fmt<W: fmt::Write>(&self, f: &mut fmt::Formatter<W>) -> fmt::Result {
        match *self {
            TextFault::Header => f.write_str("A1"),
            TextFault::Count(word) => write!(f, "A2 word {}", word),
            TextFault::UnknownBlock(word) => write!(f, "A3 word {}", word),
            TextFault::RepeatedUnit(unit) => write_id(f, "A4", unit),
            TextFault::OwnNeighbour(unit) => write_id(f, "A6", unit),
            TextFault::TooManyNeighbours(unit) => write_id(f, "A8", unit),
            TextFault::TrailingWord(word) => write!(f, "A9 word {}", word),
            TextFault::EndsEarly => f.write_str("A10"),
            TextFault::RepeatedNeighbour(unit, other) => write_ids(f, "A11", unit, other),
        }
    }
}

impl fmt::Display for GalFault {
    ghost use Rattle.std.specs.Prelude.{Some};
    ghost use Rattle.gal_text.specs.claim.Texts.{gal_fault_text};

    ghost output = { λ fault. Some (gal_fault_text fault) };

    fn fmt<W: fmt::Write>(&self, f: &mut fmt::Formatter<W>) -> fmt::Result {
        match *self {
            GalFault::Text(fault) => write!(f, "{}", fault),
            GalFault::MissingUnit(block) => write_id(f, "A5", block),
            GalFault::OneWay(first, second) => write_ids(f, "A7", first, second),
            GalFault::Read => f.write_str("A12"),
            GalFault::TurnLimit => f.write_str("A13"),
            GalFault::Memory => f.write_str("Memory"),
        }
    }
}
