//! Divided counties and cities, one list at a time.
ghost use Rattle.std.specs.Prelude.{◌≡◌, length, IfOk};
ghost use Rattle.desk_model.specs.claim.GeographyModels.{AreBlocks};
ghost use Rattle.audit_splits_nesting.specs.claim.Divided.{county_at, IsInCounty, IsInCity, IsDividedCounty, IsDividedCity, IsDividedWithinCounty};
ghost use Rattle.audit_splits_nesting.specs.claim.Exactly.{AreExactly};
ghost use Rattle.audit_splits_nesting.specs.Marks.{AreUnseen, AreMarks, one_part, value_at};
ghost use Rattle.audit_splits_nesting.specs.Splits.{AreCodesBelow};

use crate::mark::{GroupMark, divided_u16, divided_u32, unseen};
use crate::splits::{COUNTIES, city_codes};
use desk_model::block::BlockRow;
use desk_model::geography::Geography;
use std::alloc::{AllocError, Global};

/// Marks the counties with the districts of their blocks.
fn mark_counties(blocks: &[BlockRow], plan: &[u16], marks: &mut [GroupMark])
    requires beside { length plan.now ≡ length blocks.now }
    requires none { AreUnseen 1000 marks.old }
    ensures { AreMarks (IsInCounty blocks.now) one_part (value_at plan.now) (length blocks.now) 1000 marks.new }
{
    for (i, block) in blocks.iter().enumerate() {
        marks[block.id.county() as usize].note(0, plan[i]);
    }
}

/// Marks the cities with the districts of their blocks.
fn mark_cities(blocks: &[BlockRow], plan: &[u16], marks: &mut [GroupMark])
    requires beside { length plan.now ≡ length blocks.now }
    requires codes { AreCodesBelow blocks.now (length blocks.now) (length marks.old) }
    requires none { AreUnseen (length marks.old) marks.old }
    ensures { AreMarks (IsInCity blocks.now) one_part (value_at plan.now) (length blocks.now) (length marks.old) marks.new }
{
    for (i, block) in blocks.iter().enumerate() {
        if let Some(city) = block.city {
            marks[city as usize].note(0, plan[i]);
        }
    }
}

/// Marks the cities, in parts by county, with the districts of their blocks.
fn mark_parts(blocks: &[BlockRow], plan: &[u16], marks: &mut [GroupMark])
    requires rows { AreBlocks blocks.now }
    requires beside { length plan.now ≡ length blocks.now }
    requires codes { AreCodesBelow blocks.now (length blocks.now) (length marks.old) }
    requires none { AreUnseen (length marks.old) marks.old }
    ensures { AreMarks (IsInCity blocks.now) (county_at blocks.now) (value_at plan.now) (length blocks.now) (length marks.old) marks.new }
{
    for (i, block) in blocks.iter().enumerate() {
        if let Some(city) = block.city {
            marks[city as usize].note(block.id.county(), plan[i]);
        }
    }
}

/// Returns the counties that a plan divides, rising, from 0 to 999: Iowa Code 42.4(2). A county is
/// divided if two of its blocks have different districts; no district, 0, counts as one.
pub fn divided_counties(
    alloc: Global,
    geography: &Geography,
    plan: &[u16],
) -> Result<Vec<u16>, AllocError>
    requires { length plan.now ≡ length geography.now.blocks }
    ensures { IfOk result (λ v. AreExactly (IsDividedCounty geography.now.blocks plan.now) v.items) }
{
    let mut marks = unseen(alloc, COUNTIES)?;
    mark_counties(geography.blocks(), plan, marks.as_mut_slice());
    divided_u16(alloc, marks.as_slice())
}

/// Returns the codes of the cities that a plan divides, rising, in however many counties a city
/// lies: Iowa Code 42.4(2).
pub fn divided_cities(
    alloc: Global,
    geography: &Geography,
    plan: &[u16],
) -> Result<Vec<u32>, AllocError>
    requires { length plan.now ≡ length geography.now.blocks }
    ensures { IfOk result (λ v. AreExactly (IsDividedCity geography.now.blocks plan.now) v.items) }
{
    let blocks = geography.blocks();
    let mut marks = unseen(alloc, city_codes(blocks))?;
    mark_cities(blocks, plan, marks.as_mut_slice());
    divided_u32(alloc, marks.as_slice())
}

/// Returns the codes of the cities that a plan divides within a county, rising: two blocks of the
/// city in one county have different districts. Iowa Code 42.4(2).
pub fn cities_in_county(
    alloc: Global,
    geography: &Geography,
    plan: &[u16],
) -> Result<Vec<u32>, AllocError>
    requires { length plan.now ≡ length geography.now.blocks }
    ensures { IfOk result (λ v. AreExactly (IsDividedWithinCounty geography.now.blocks plan.now) v.items) }
{
    let blocks = geography.blocks();
    let mut marks = unseen(alloc, city_codes(blocks))?;
    mark_parts(blocks, plan, marks.as_mut_slice());
    divided_u32(alloc, marks.as_slice())
}
