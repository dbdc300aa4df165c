//! The districts that don't hold together.
ghost use Rattle.std.specs.Prelude.{◌≡◌, length, IfOk, Some, None};
ghost use Rattle.audit_contiguity.specs.claim.Breaks.{AreBreaks};
ghost use Rattle.audit_contiguity.specs.Rooted.{AreRooted};

use crate::forest::forest;
use crate::lowest::{Lowest, lowest_roots};
use desk_model::block::BlockId;
use desk_model::geography::Geography;
use std::alloc::{AllocError, Global};

/// A pair of blocks of a district, (`from`, `to`): its least block, and its least block to which no path within the
/// district leads from there.
#[derive(Clone, Copy)]
pub struct Gap {
    pub from: BlockId,
    pub to: BlockId,
}

/// A district that doesn't hold together, with its gap: the pair (`district`, `gap`). If the district has no block, it
/// has no gap.
#[derive(Clone, Copy)]
pub struct Break {
    pub district: u16,
    pub gap: Option<Gap>,
}

impl Break {
    pub fn empty(district: u16) -> Break
        ensures { result ≡ record { district = district; gap = None } }
    {
        Break {
            district,
            gap: None,
        }
    }

    pub fn parted(district: u16, gap: Gap) -> Break
        ensures { result ≡ record { district = district; gap = Some gap } }
    {
        Break {
            district,
            gap: Some(gap),
        }
    }
}

/// Returns the breaks of the districts from `first` on, by their lowest roots.
pub(crate) fn tell(
    alloc: Global,
    geography: &Geography,
    plan: &[u16],
    first: u16,
    last: u16,
    parents: &[u32],
    lowest: &[Lowest],
) -> Result<Vec<Break>, AllocError>
    requires { AreRooted geography.now plan.now first last parents.now lowest.now }
    ensures { IfOk result (λ breaks. AreBreaks geography.now plan.now first last breaks.items) }
{
    let blocks = geography.blocks();
    let mut breaks = Vec::new(alloc);
    for (k, roots) in lowest.iter().enumerate() {
        let district = first + k as u16;
        match roots {
            Lowest::Zero => breaks.push(Break::empty(district))?,
            Lowest::One(_) => {}
            Lowest::Two(least, next) => {
                let gap = Gap {
                    from: blocks[*least as usize].id,
                    to: blocks[*next as usize].id,
                };
                breaks.push(Break::parted(district, gap))?;
            }
        }
    }
    Ok(breaks)
}

/// The districts from `first` to `last` that don't hold together, rising, by the district of each block:
/// Iowa Code 42.4(3).
pub fn breaks_between(
    alloc: Global,
    geography: &Geography,
    plan: &[u16],
    first: u16,
    last: u16,
) -> Result<Vec<Break>, AllocError>
    requires { length plan.now ≡ length geography.now.blocks }
    ensures { IfOk result (λ breaks. AreBreaks geography.now plan.now first last breaks.items) }
{
    let parents = forest(alloc, geography.pairs(), plan, first, last)?;
    let lowest = lowest_roots(alloc, parents.as_slice(), plan, first, last)?;
    tell(
        alloc,
        geography,
        plan,
        first,
        last,
        parents.as_slice(),
        lowest.as_slice(),
    )
}

/// Returns the districts from 1 to `count` that don't hold together, rising: Iowa Code 42.4(3). `plan` has the district
/// of each block, 0 for none.
pub fn breaks(
    alloc: Global,
    plan: &[u16],
    geography: &Geography,
    count: u16,
) -> Result<Vec<Break>, AllocError>
    requires { length plan.now ≡ length geography.now.blocks }
    ensures { IfOk result (λ breaks. AreBreaks geography.now plan.now 1 count breaks.items) }
{
    breaks_between(alloc, geography, plan, 1, count)
}
