//! The line that names a difference.
ghost use Rattle.std.specs.Prelude.{◌≡◌, ◌++◌, OnOk, codes};
ghost use Rattle.census_difference.specs.claim.Words.{difference_line, difference_words, with_id};

use crate::difference::Difference;
use desk_model::block::BlockId;
use desk_model::decimal::push_padded;
use std::alloc::AllocError;

/// The digits of a block's number.
const ID_DIGITS: usize = 15;

/// Appends words and the number of a block.
fn push_id(text: &mut Vec<u8>, words: &[u8], id: BlockId) -> Result<(), AllocError>
    ensures { OnOk result (text.new.items ≡ text.old.items ++ with_id words.now id) }
{
    text.extend_from_slice(words)?;
    push_padded(text, id.number(), ID_DIGITS)
}

/// Appends words and the numbers of two blocks.
fn push_ids(
    text: &mut Vec<u8>,
    words: &[u8],
    one: BlockId,
    other: BlockId,
) -> Result<(), AllocError>
    ensures { OnOk result (text.new.items ≡ text.old.items ++ (with_id words.now one ++ with_id (codes " ") other)) }
{
    push_id(text, words, one)?;
    push_id(text, b" ", other)
}

/// Appends the name of a difference, and the numbers of its blocks.
fn push_words(text: &mut Vec<u8>, difference: &Difference) -> Result<(), AllocError>
    ensures { OnOk result (text.new.items ≡ text.old.items ++ difference_words difference.now) }
{
    match *difference {
        Difference::NotSealed => text.extend_from_slice(b"NotSealed"),
        Difference::MissingBlock(id) => push_id(text, b"MissingBlock ", id),
        Difference::ExtraBlock(id) => push_id(text, b"ExtraBlock ", id),
        Difference::OtherCity(id) => push_id(text, b"OtherCity ", id),
        Difference::OtherPopulation(id) => push_id(text, b"OtherPopulation ", id),
        Difference::MissingPair(one, other) => push_ids(text, b"MissingPair ", one, other),
        Difference::ExtraPair(one, other) => push_ids(text, b"ExtraPair ", one, other),
    }
}

/// Appends the line that names a difference, as `plandesk: store: OtherCity 190010001001001`.
pub fn push_line(text: &mut Vec<u8>, difference: &Difference) -> Result<(), AllocError>
    ensures { OnOk result (text.new.items ≡ text.old.items ++ difference_line difference.now) }
{
    text.extend_from_slice(b"plandesk: store: ")?;
    push_words(text, difference)?;
    text.extend_from_slice(b"\n")
}
