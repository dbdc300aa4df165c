//! The counties of a geography.
ghost use Rattle.std.specs.Prelude.{◌≡◌, ◌-◌, ◌^◌, ◌<◌, length, IfOk};
ghost use Rattle.desk_model.specs.Ranges.{ranges_of_blocks};

use crate::block::BlockRow;
use std::alloc::{AllocError, Global};

/// A county's blocks, which are consecutive in the list of blocks: the place of the first, from 0,
/// and their number.
#[derive(Clone, Copy)]
pub struct CountyRange {
    pub first: u32,
    pub count: u32,
}

/// The places of a county's blocks.
fn range_between(first: usize, end: usize) -> CountyRange
    requires some { first < end }
    requires few { end < 2 ^ 32 }
    ensures { result ≡ record { first = first; count = end - first } }
{
    CountyRange {
        first: first as u32,
        count: (end - first) as u32,
    }
}

/// The counties of a list of blocks, rising.
pub(crate) fn ranges(alloc: Global, blocks: &[BlockRow]) -> Result<Vec<CountyRange>, AllocError>
    requires some { 0 < length blocks.now }
    requires few { length blocks.now < 2 ^ 32 }
    ensures { IfOk result (λ ranges. ranges.items ≡ ranges_of_blocks blocks.now) }
{
    let mut all = Vec::new(alloc);
    let mut first = 0;
    for place in 1..blocks.len() {
        if blocks[place].id.county() != blocks[first].id.county() {
            all.push(range_between(first, place))?;
            first = place;
        }
    }
    all.push(range_between(first, blocks.len()))?;
    Ok(all)
}
