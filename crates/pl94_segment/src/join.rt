//! The blocks of a header with their people.
ghost use Rattle.std.specs.Prelude.{◌≡◌, ◌+◌, ◌++◌, ◌∷◌, [], ◌<◌, ◌≤◌, ℕ, List, IfOk, map, length, sum_by};
ghost use Rattle.std.specs.List.Sorted.{IsPermutation, IsNonDecreasing};
ghost use Rattle.desk_model.specs.claim.GeographyModels.{block_limit};
ghost use Rattle.desk_model.specs.claim.Geography.{ids_of};
ghost use Rattle.pl94_geo.specs.GeoFile.{AreGeoRows};
ghost use Rattle.pl94_segment.specs.claim.Join.{lacking_part, taken_numbers, row_of, state_people_of, IsJoined};
ghost use Rattle.pl94_segment.specs.Join.{IsLeast};

use crate::record::SegmentNumber;
use crate::segment::SegRows;
use desk_model::block::BlockRow;
use pl94_geo::geo::GeoRows;
use pl94_geo::header::GeoBlock;
use std::alloc::{AllocError, Global};
use std::fmt;

/// Why the files don't go together.
#[derive(Clone, Copy)]
pub enum JoinFault {
    /// S7: the least number of a taken record that a segment lacks, and the least such segment.
    Missing(u64, SegmentNumber),
    /// S9: the blocks have more than 4,294,967,295 people.
    TooManyPeople,
    /// S8: the people of the state record and of all blocks, where they differ.
    OtherTotal(u32, u32),
    Memory,
}

impl fmt::Display for JoinFault {
    ghost use Rattle.std.specs.Prelude.{Some};
    ghost use Rattle.pl94_segment.specs.claim.SegmentTexts.{join_text};

    ghost output = { λ fault. Some (join_text fault) };

    /// The code and what it carries, as `S7 3 2`.
    fn fmt<W: fmt::Write>(&self, f: &mut fmt::Formatter<W>) -> fmt::Result {
        match *self {
            JoinFault::Missing(number, part) => write!(f, "S7 {} {}", number, part.number()),
            JoinFault::TooManyPeople => f.write_str("S9"),
            JoinFault::OtherTotal(state, total) => write!(f, "S8 {} {}", state, total),
            JoinFault::Memory => f.write_str("Memory"),
        }
    }
}

/// The least segment that lacks a record.
fn missing_part(
    number: u64,
    first: &SegRows,
    second: &SegRows,
    third: &SegRows,
) -> Option<SegmentNumber>
    ensures { result ≡ lacking_part first.now second.now third.now number }
{
    if first.people(number).is_none() {
        return Some(SegmentNumber::One);
    }
    if second.people(number).is_none() {
        return Some(SegmentNumber::Two);
    }
    if third.people(number).is_none() {
        return Some(SegmentNumber::Three);
    }
    None
}

/// The least missing record, with one more number looked at.
fn with_number(
    least: Option<(u64, SegmentNumber)>,
    number: u64,
    first: &SegRows,
    second: &SegRows,
    third: &SegRows,
) -> Option<(u64, SegmentNumber)>
    ensures { (numbers : List ℕ) → IsLeast first.now second.now third.now numbers least
        → IsLeast first.now second.now third.now (numbers ++ number ∷ []) result }
{
    let Some(part) = missing_part(number, first, second, third) else {
        return least;
    };
    if let Some((other, _)) = least {
        if other <= number {
            return least;
        }
    }
    Some((number, part))
}

/// The least taken record that a segment lacks.
fn least_missing(
    geo: &GeoRows,
    first: &SegRows,
    second: &SegRows,
    third: &SegRows,
) -> Option<(u64, SegmentNumber)>
    ensures { IsLeast first.now second.now third.now (taken_numbers geo.now) result }
{
    let mut least = None;
    let blocks = geo.blocks.as_slice();
    for block in blocks {
        least = with_number(least, block.number, first, second, third);
    }
    match geo.state_record {
        Some(number) => with_number(least, number, first, second, third),
        None => least,
    }
}

/// The blocks with their people, in the order of the header.
fn join_rows(
    alloc: Global,
    blocks: &[GeoBlock],
    first: &SegRows,
) -> Result<Vec<BlockRow>, AllocError>
    ensures { IfOk result (λ rows. rows.items ≡ map (row_of first.now) blocks.now) }
{
    let mut rows = Vec::with_capacity(alloc, blocks.len())?;
    for block in blocks {
        rows.push(BlockRow {
            id: block.id,
            city: block.city,
            population: first.people(block.number).unwrap_or(0),
        })?;
    }
    Ok(rows)
}

/// The people of all blocks.
fn total_of(rows: &[BlockRow]) -> u64
    requires { length rows.now ≤ block_limit }
    ensures { result ≡ sum_by (λ b. b.population) rows.now }
{
    let mut total = 0u64;
    for row in rows {
        total += row.population as u64;
    }
    total
}

/// The people of the state record.
fn state_people(geo: &GeoRows, first: &SegRows) -> Option<u32>
    ensures { result ≡ state_people_of geo.now first.now }
{
    let number = geo.state_record?;
    Some(first.people(number).unwrap_or(0))
}

/// Puts the blocks in the order of their numbers.
fn sort_rows(rows: &mut Vec<BlockRow>)
    ensures same { IsPermutation rows.old.items rows.new.items }
    ensures sorted { IsNonDecreasing (ids_of rows.new.items) }
{
    rows.sort_unstable_by_key(|row| row.id.number());
}

/// The blocks of a header with their people, rising by number.
pub fn join(
    alloc: Global,
    geo: &GeoRows,
    first: &SegRows,
    second: &SegRows,
    third: &SegRows,
) -> Result<Vec<BlockRow>, JoinFault>
    requires { AreGeoRows geo.now }
    ensures { IsJoined geo.now first.now second.now third.now result }
{
    if let Some((number, part)) = least_missing(geo, first, second, third) {
        return Err(JoinFault::Missing(number, part));
    }
    let Ok(mut rows) = join_rows(alloc, geo.blocks.as_slice(), first) else {
        return Err(JoinFault::Memory);
    };
    let total = total_of(rows.as_slice());
    if total > 4_294_967_295 {
        return Err(JoinFault::TooManyPeople);
    }
    if let Some(state) = state_people(geo, first) {
        if state as u64 != total {
            return Err(JoinFault::OtherTotal(state, total as u32));
        }
    }
    sort_rows(&mut rows);
    Ok(rows)
}
