//! Counties and cities that a plan divides.
ghost use Rattle.std.specs.Prelude.{◌≡◌, length, IfOk};
ghost use Rattle.audit_splits_nesting.specs.Splits.{AreCodesBelow, AreUnmarked, AreGroupMarks, AreDividedGroups};

use crate::county::CountySpan;
use crate::mark::{GroupMark, divided_u16, divided_u32, unseen};
use desk_model::block::BlockRow;
use desk_model::geography::Geography;
use std::alloc::{AllocError, Global};

/// County codes are below this.
pub const COUNTIES: usize = 1_000;

/// One more than the greatest city code, 0 where there is no city.
pub fn city_codes(blocks: &[BlockRow]) -> usize
    ensures { AreCodesBelow blocks.now (length blocks.now) result }
{
    let mut codes = 0;
    for block in blocks {
        if let Some(city) = block.city {
            if codes <= city as usize {
                codes = city as usize + 1;
            }
        }
    }
    codes
}

/// Marks the counties, the cities, and the cities with their counties for parts, in one pass over the blocks.
fn mark_groups(
    blocks: &[BlockRow],
    plan: &[u16],
    counties: &mut [GroupMark],
    cities: &mut [GroupMark],
    by_county: &mut [GroupMark],
)
    requires { AreUnmarked blocks.now plan.now counties.old cities.old by_county.old }
    ensures { AreGroupMarks blocks.now plan.now (length blocks.now) (length cities.old) counties.new cities.new by_county.new }
{
    let mut span = CountySpan::none();
    for (i, block) in blocks.iter().enumerate() {
        let county = span.county_of(block.id);
        counties[county as usize].note(0, plan[i]);
        if let Some(city) = block.city {
            cities[city as usize].note(0, plan[i]);
            by_county[city as usize].note(county, plan[i]);
        }
    }
}

/// The counties and cities that a plan divides, rising, each once.
#[derive(Drop)]
pub struct DividedGroups {
    /// The counties, from 0 to 999, of which two blocks have different districts.
    pub counties: Vec<u16>,
    /// The codes of the cities of which two blocks have different districts, however many counties a city lies in.
    pub cities: Vec<u32>,
    /// The codes of the cities of which two blocks of one county have different districts.
    pub cities_in_county: Vec<u32>,
}

/// The counties and cities that a plan divides: Iowa Code 42.4(2). None, 0, is a district here.
pub fn divided_groups(
    alloc: Global,
    geography: &Geography,
    plan: &[u16],
) -> Result<DividedGroups, AllocError>
    requires { length plan.now ≡ length geography.now.blocks }
    ensures { IfOk result (AreDividedGroups geography.now.blocks plan.now) }
{
    let blocks = geography.blocks();
    let codes = city_codes(blocks);
    let mut counties = unseen(alloc, COUNTIES)?;
    let mut cities = unseen(alloc, codes)?;
    let mut by_county = unseen(alloc, codes)?;
    mark_groups(
        blocks,
        plan,
        counties.as_mut_slice(),
        cities.as_mut_slice(),
        by_county.as_mut_slice(),
    );
    Ok(DividedGroups {
        counties: divided_u16(alloc, counties.as_slice())?,
        cities: divided_u32(alloc, cities.as_slice())?,
        cities_in_county: divided_u32(alloc, by_county.as_slice())?,
    })
}
