//! Reading a block assignment file.
ghost use Rattle.std.specs.Prelude.{◌≡◌, ◌<◌, ◌+◌, ◌^◌, ℕ, List, map, length, None, IfOk, IfErr, OnOk, IsOkAnd};
ghost use Rattle.desk_model.specs.claim.Baf.{Values, body_read, fields_of, in_range};
ghost use Rattle.field_text.specs.claim.Fields.{fields};
ghost use Rattle.baf_text.specs.Prefix.{line_parts};
ghost use Rattle.baf_text.specs.Listed.{listed_of, IsEntry, IsLineTaken};
ghost use Rattle.baf_text.specs.claim.Faults.{IsFaultOf};
ghost use Rattle.baf_text.specs.declared.reading.BafFault.TheVariants.{Memory};

use crate::listed::Listed;
use crate::near::{LastCode, LastHead};
use crate::row::{BafRow, ID_DIGITS, next_row};
use desk_model::geography::{Geography, place_near};
use desk_model::reply::BodyFault;
use field_text::line::first_line;
use std::alloc::{AllocError, Global};

/// The first line of a block assignment file.
pub const HEADER: &[u8] = b"BLOCKID|DISTRICT";

/// Why a block assignment file isn't read.
#[derive(Clone, Copy)]
pub enum BafFault {
    /// The first line with a fault, and its least fault; lines are counted from 1.
    Body { code: BodyFault, line: u64 },
    /// B6: memory was refused.
    Memory,
}

impl From<AllocError> for BafFault {
    ghost from_gives = { λ _ e. e ≡ Memory };

    fn from(_e: AllocError) -> BafFault {
        BafFault::Memory
    }
}

/// The district that a number names, 0 for none.
fn district_of(number: Option<u16>, n: u16) -> Option<u16>
    ensures { result ≡ in_range n number }
{
    match number {
        None => Some(0),
        Some(d) if d >= 1 && d <= n => Some(d),
        Some(_) => None,
    }
}

/// The place of a line's block and its district, where the line is a row that may be entered into the list.
fn entry_of(
    listed: &Listed,
    geography: &Geography,
    n: u16,
    row: Option<BafRow>,
    likely: usize,
) -> Result<(usize, u16), BodyFault>
    requires { length listed.now ≡ length geography.now.blocks }
    ensures entry { (so_far : Values) (line : List ℕ) → listed.now ≡ listed_of geography.now so_far → row ≡ fields_of (fields line)
        → IsEntry geography.now n so_far line listed.now result }
    ensures within { IfOk result (λ entry. entry.0 < length geography.now.blocks) }
    ensures fits { IfOk result (λ entry. entry.0 + 1 < 2 ^ 64) }
{
    let Some(row) = row else {
        return Err(BodyFault::Shape);
    };
    let Some(place) = place_near(geography.blocks(), likely, row.0) else {
        return Err(BodyFault::UnknownBlock);
    };
    if listed.get(place).is_some() {
        return Err(BodyFault::RepeatedBlock);
    }
    match district_of(row.1, n) {
        Some(district) => Ok((place, district)),
        None => Err(BodyFault::OutOfRange),
    }
}

/// Enters what a line says, which has this number, into the list, and gives the place after its block.
fn take_line(
    alloc: Global,
    listed: &mut Listed,
    geography: &Geography,
    n: u16,
    said: Option<Option<BafRow>>,
    number: u64,
    likely: usize,
) -> Result<usize, BafFault>
    requires { length listed.old ≡ length geography.now.blocks }
    ensures taken { (so_far : Values) (line : List ℕ) → listed.old ≡ listed_of geography.now so_far → said ≡ line_parts line
        → IsLineTaken geography.now n so_far line number result listed.new }
    ensures long { OnOk result (length listed.new ≡ length listed.old) }
{
    let Some(row) = said else {
        return Ok(likely);
    };
    match entry_of(listed, geography, n, row, likely) {
        Ok((place, district)) => {
            listed.put(alloc, place, district)?;
            Ok(place + 1)
        }
        Err(code) => Err(BafFault::Body { code, line: number }),
    }
}

/// A row has this many bytes at least: a block's number, a bar and the end of the line.
const ROW: usize = ID_DIGITS + 2;

/// The list in which no block is listed, with room for the largest number of rows that the text may
/// have.
#[tactic(auto, using(crate::proofs::Parts::spread_none))]
fn none_listed(alloc: Global, geography: &Geography, bytes: &[u8]) -> Result<Listed, AllocError>
    ensures { IfOk result (λ listed. listed ≡ map (λ _. None) geography.now.blocks) }
{
    let count = geography.blocks().len();
    Listed::none(alloc, count, count.min(bytes.len() / ROW))
}

/// Reads a block assignment file for a plan of `n` districts. After the header, each line that is
/// not empty is a block's number of 15 digits, a bar and a code: 1 to 3 digits for a district, or
/// `ZZ`, `ZZZ` or nothing for an unassigned block. A line ends with LF or CRLF; the last line may
/// have no end. Memory is returned only if an allocation was refused.
pub fn read(alloc: Global, bytes: &[u8], geography: &Geography, n: u16) -> Result<Listed, BafFault>
    ensures listed { IfOk result (λ listed. IsOkAnd (body_read geography.now n bytes.now)
        (λ values. listed ≡ listed_of geography.now values)) }
    ensures fault { IfErr result (IsFaultOf (body_read geography.now n bytes.now)) }
{
    let mut rest = match first_line(bytes) {
        Some((first, rest)) if first == HEADER => rest,
        _ => {
            return Err(BafFault::Body {
                code: BodyFault::Header,
                line: 1,
            });
        }
    };
    let mut listed = none_listed(alloc, geography, bytes)?;
    let mut head = LastHead::new();
    let mut code = LastCode::new();
    let mut likely = 0;
    let mut number = 1u64;
    while let Some((said, after)) = next_row(rest, &mut head, &mut code) {
        number += 1;
        likely = take_line(alloc, &mut listed, geography, n, said, number, likely)?;
        rest = after;
    }
    Ok(listed)
}
