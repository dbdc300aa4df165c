//! The counts of a state's blocks.
ghost use Rattle.std.specs.Prelude.{◌≡◌, ℕ, ◌+◌, ◌-◌, ◌<◌, ◌≤◌, ◌++◌, List, length, replicate, map, OnOk, IfOk};
ghost use Rattle.std.specs.List.{range_with_len};
ghost use Rattle.desk_model.specs.claim.Block.{county_of};
ghost use Rattle.desk_model.specs.claim.GeographyModels.{AreBlocks};
ghost use Rattle.desk_model.specs.declared.block.BlockRow.{BlockRow as Row};
ghost use Rattle.check_command.specs.Counts.{county_codes, county_blocks, county_people, if_there};
ghost use Rattle.check_command.specs.Counts.{counties_of, people_of, number_line, county_line, counts_text};

use desk_model::block::BlockRow;
use itoa::Buffer;
use std::alloc::{AllocError, Global};

/// A county's three digits as a number, and its people.
#[derive(Clone, Copy)]
pub struct CountyPeople {
    pub county: u16,
    pub people: u32,
}

/// How many county codes there are: 000 to 999.
#[tactic(auto, using(crate::proofs::Counted::county_codes_is))]
fn code_count() -> usize
    ensures { result ≡ county_codes }
{
    1000
}

#[tactic(auto, using(crate::proofs::Counted::county_codes_is))]
fn code_of(row: &BlockRow) -> usize
    ensures value { result ≡ county_of row.now.id }
    ensures known { result < county_codes }
{
    row.id.county() as usize
}

/// Counts the blocks of each county.
fn count_blocks(rows: &[BlockRow], blocks: &mut [u32])
    requires rows { AreBlocks rows.now }
    requires codes { length blocks.old ≡ county_codes }
    requires none { blocks.old ≡ replicate (length blocks.old) 0 }
    ensures { blocks.new ≡ map (county_blocks rows.now) (range_with_len 0 county_codes) }
{
    for row in rows {
        let code = code_of(row);
        blocks[code] += 1;
    }
}

/// Adds up the people of each county.
fn count_people(rows: &[BlockRow], people: &mut [u32])
    requires rows { AreBlocks rows.now }
    requires codes { length people.old ≡ county_codes }
    requires none { people.old ≡ replicate (length people.old) 0 }
    ensures { people.new ≡ map (county_people rows.now) (range_with_len 0 county_codes) }
{
    for row in rows {
        let code = code_of(row);
        people[code] += row.population;
    }
}

/// Lists a county that has blocks.
fn push_if_there(
    counties: &mut Vec<CountyPeople>,
    county: u16,
    blocks: u32,
    people: u32,
) -> Result<(), AllocError>
    ensures { OnOk result (counties.new.items ≡ counties.old.items ++ if_there county blocks people) }
{
    if blocks > 0 {
        counties.push(CountyPeople { county, people })?;
    }
    Ok(())
}

/// The counties that have a block, rising, with their people.
#[tactic(auto, using(crate::proofs::Counted::county_codes_is))]
fn list_counties(
    alloc: Global,
    blocks: &[u32],
    people: &[u32],
) -> Result<Vec<CountyPeople>, AllocError>
    requires blocks { length blocks.now ≡ county_codes }
    requires people { length people.now ≡ county_codes }
    ensures { (rows : List Row) → blocks.now ≡ map (county_blocks rows) (range_with_len 0 county_codes)
        → people.now ≡ map (county_people rows) (range_with_len 0 county_codes)
        → IfOk result (λ counties. counties.items ≡ counties_of rows) }
{
    let mut counties = Vec::new(alloc);
    for (county, count) in blocks.iter().enumerate() {
        push_if_there(&mut counties, county as u16, *count, people[county])?;
    }
    Ok(counties)
}

/// The counties that have a block, rising, with their people.
pub fn counties(alloc: Global, rows: &[BlockRow]) -> Result<Vec<CountyPeople>, AllocError>
    requires { AreBlocks rows.now }
    ensures { IfOk result (λ counties. counties.items ≡ counties_of rows.now) }
{
    let codes = code_count();
    let mut blocks = vec![in alloc; 0u32; codes]?;
    count_blocks(rows, blocks.as_mut_slice());
    let mut people = vec![in alloc; 0u32; codes]?;
    count_people(rows, people.as_mut_slice());
    list_counties(alloc, blocks.as_slice(), people.as_slice())
}

/// The people of all blocks.
fn total(rows: &[BlockRow]) -> u32
    requires { AreBlocks rows.now }
    ensures { result ≡ people_of rows.now }
{
    let mut people = 0;
    for row in rows {
        people += row.population;
    }
    people
}

/// Adds a line of a name and a number.
fn push_number(text: &mut Vec<u8>, name: &[u8], number: u64) -> Result<(), AllocError>
    ensures { OnOk result (text.new.items ≡ text.old.items ++ number_line name.now number) }
{
    let mut digits = Buffer::new();
    text.extend_from_slice(name)?;
    text.extend_from_slice(digits.format(number).as_bytes())?;
    text.extend_from_slice(b"\n")
}

/// Returns the zeros before a county's code of `digits` digits.
fn zeros(digits: usize) -> &'static [u8]
    ensures { result.now ≡ replicate (3 - digits) 48 }
{
    match digits {
        0 => b"000",
        1 => b"00",
        2 => b"0",
        _ => b"",
    }
}

/// Adds the line of a county.
fn push_county(text: &mut Vec<u8>, county: CountyPeople) -> Result<(), AllocError>
    ensures { OnOk result (text.new.items ≡ text.old.items ++ county_line county) }
{
    let mut code = Buffer::new();
    let code = code.format(county.county).as_bytes();
    let mut people = Buffer::new();
    text.extend_from_slice(b"county ")?;
    text.extend_from_slice(zeros(code.len()))?;
    text.extend_from_slice(code)?;
    text.extend_from_slice(b" ")?;
    text.extend_from_slice(people.format(county.people).as_bytes())?;
    text.extend_from_slice(b"\n")
}

/// Prints the numbers of blocks, counties and people, and each county with its people.
pub fn print_counts(alloc: Global, rows: &[BlockRow]) -> Result<Vec<u8>, AllocError>
    requires { AreBlocks rows.now }
    ensures { IfOk result (λ text. text.items ≡ counts_text rows.now) }
{
    let counties = counties(alloc, rows)?;
    let mut text = Vec::new(alloc);
    push_number(&mut text, b"blocks ", rows.len() as u64)?;
    push_number(&mut text, b"counties ", counties.len() as u64)?;
    push_number(&mut text, b"population ", total(rows) as u64)?;
    for county in counties.as_slice() {
        push_county(&mut text, *county)?;
    }
    Ok(text)
}
