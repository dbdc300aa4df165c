//! The list of a geography's blocks, as text.
ghost use Rattle.std.specs.Prelude.{◌≡◌, ◌≤◌, ◌++◌, length, drop, IfOk, OnOk};
ghost use Rattle.desk_model.specs.claim.Padded.{padded_decimal};
ghost use Rattle.desk_model.specs.claim.Step.{place_text, block_text, blocks_text as text_of_blocks};
ghost use Rattle.desk_store_catalogue.specs.Lines.{HasZeros, IsWritten};

use baf_text::number::NumberText;
use desk_model::block::{BlockId, BlockRow};
use desk_model::decimal::write_padded;
use desk_model::geography::Geography;
use std::alloc::{AllocError, Global};

const HEADER: &[u8] = b"BLOCKID|PLACE|POPULATION\n";

/// The length of the longest line.
const LONGEST_LINE: usize = 33;

/// Room for the longest line.
const ROOM: usize = 64;

/// A block's number has this many digits.
const ID_DIGITS: usize = 15;

/// Writes a number of at least `width` digits so that it ends at `end`, in a row of zeros, and
/// returns its start.
fn write_number(row: &mut [u8], end: usize, number: u32, width: usize) -> usize
    requires room { HasZeros row.old end }
    requires narrow { width ≤ 5 }
    ensures { IsWritten (padded_decimal width number) end row.old row.new result }
{
    write_padded(row, end, number as u64, width)
}

/// Writes a city's code before `end`, and nothing where there is none, and gives its start.
fn write_place(row: &mut [u8], end: usize, city: Option<u32>) -> usize
    requires { HasZeros row.old end }
    ensures { IsWritten (place_text city) end row.old row.new result }
{
    match city {
        Some(place) => write_number(row, end, place, 5),
        None => end,
    }
}

/// Writes a block's number before `end`, and gives its start.
fn write_id(row: &mut [u8], end: usize, number: &NumberText) -> usize
    requires room { (15 ≤ end) × (end ≤ length row.old) }
    ensures start { result ≤ end }
    ensures written { drop result row.new ≡ padded_decimal 15 number.now ++ drop end row.old }
{
    let start = end - ID_DIGITS;
    row[start..end].copy_from_slice(number.as_slice());
    start
}

/// Appends the line of a block, which is written from its end on.
fn push_block(
    text: &mut Vec<u8>,
    number: &mut NumberText,
    block: &BlockRow,
) -> Result<(), AllocError>
    ensures { OnOk result (text.new.items ≡ text.old.items ++ block_text block.now) }
{
    let mut row = [b'0'; ROOM];
    row[ROOM - 1] = b'\n';
    let people = write_number(&mut row, ROOM - 1, block.population, 0);
    row[people - 1] = b'|';
    let place = write_place(&mut row, people - 1, block.city);
    row[place - 1] = b'|';
    number.turn_to(block.id);
    let start = write_id(&mut row, place - 1, number);
    text.extend_from_slice(&row[start..])
}

/// The header and a line for each block, rising: its number, its city's code or nothing, and its people, with LF after
/// each.
pub fn blocks_text(alloc: Global, geography: &Geography) -> Result<Vec<u8>, AllocError>
    ensures { IfOk result (λ text. text.items ≡ text_of_blocks geography.now) }
{
    let blocks = geography.blocks();
    let mut text = Vec::with_capacity(alloc, HEADER.len() + blocks.len() * LONGEST_LINE)?;
    text.extend_from_slice(HEADER)?;
    let mut number = NumberText::new(BlockId::from_number(0));
    for block in blocks {
        push_block(&mut text, &mut number, block)?;
    }
    Ok(text)
}
