//! The districts of a plan in parts of sixteen, of which some are judged by themselves.
ghost use Rattle.std.specs.Prelude.{◌≡◌, ◌+◌, ◌-◌, ◌*◌, ◌<◌, ◌≤◌, length, map, min, false, get_or, IsTrue, IfOk};
ghost use Rattle.audit_contiguity.specs.claim.Breaks.{AreBreaks};
ghost use Rattle.audit_contiguity.specs.Parts.{is_own as is_own_of, kept};

use crate::breaks::{Break, tell};
use crate::forest::forest;
use crate::lowest::{Lowest, lowest_roots};
use desk_model::geography::Geography;
use std::alloc::{AllocError, Global};
use std::marker::Model;

/// A part has this many districts, the last one fewer.
pub const PART_DISTRICTS: u16 = 16;

/// How many parts the districts from 1 to `count` have.
pub fn part_count(count: u16) -> u16
    requires { 1 ≤ count }
    ensures all { count ≤ 16 * result }
    ensures none_more { 16 * result < count + 16 }
{
    (count - 1) / PART_DISTRICTS + 1
}

/// Whether a district is of one of the own parts.
fn is_own(own: &[bool], district: u16) -> bool
    ensures { result ≡ is_own_of own.now district }
{
    if district == 0 {
        return false;
    }
    let part = ((district - 1) / PART_DISTRICTS) as usize;
    if part >= own.len() {
        return false;
    }
    own[part]
}

/// The plan with only the districts of the own parts; all others are 0.
fn own_plan(alloc: Global, plan: &[u16], own: &[bool]) -> Result<Vec<u16>, AllocError>
    ensures { IfOk result (λ v. v.items ≡ map (kept own.now) plan.now) }
{
    let mut districts = Vec::with_capacity(alloc, plan.len())?;
    for district in plan {
        let own_district = if is_own(own, *district) { *district } else { 0 };
        districts.push(own_district)?;
    }
    Ok(districts)
}

/// A plan's districts, and the trees of those of its own parts.
#[derive(Drop)]
pub struct DistrictTrees<'a> {
    geography: &'a Geography,
    whole: &'a [u16],
    count: u16,
    own: Vec<bool>,
    plan: Vec<u16>,
    parents: Vec<u32>,
    lowest: Vec<Lowest>,
}

impl<'a> Model for DistrictTrees<'a> {
    ghost use Rattle.audit_contiguity.specs.Parts.{Shown, AreTrees};

    ghost Value = { Shown };

    ghost view = { λ a. record { geography = a.geography.now; plan = a.whole.now; count = a.count; own = a.own.items } };

    ghost invariant = { λ a.
        AreTrees (record { geography = a.geography.now; plan = a.whole.now; count = a.count; own = a.own.items }) a.plan.items a.parents.items a.lowest.items };
}

impl<'a> DistrictTrees<'a> {
    /// The trees of the parts that are own by their numbers, of a plan of `count` districts: one sweep over the blocks, and
    /// one over the pairs.
    pub fn new(
        alloc: Global,
        geography: &'a Geography,
        count: u16,
        whole: &'a [u16],
        own: Vec<bool>,
    ) -> Result<DistrictTrees<'a>, AllocError>
        requires few { count ≤ 999 }
        requires beside { length whole.now ≡ length geography.now.blocks }
        ensures { IfOk result (λ t. t ≡ record { geography = geography.now; plan = whole.now; count = count; own = own.items }) }
    {
        let plan = own_plan(alloc, whole, own.as_slice())?;
        let parents = forest(alloc, geography.pairs(), plan.as_slice(), 1, count)?;
        let lowest = lowest_roots(alloc, parents.as_slice(), plan.as_slice(), 1, count)?;
        Ok(DistrictTrees {
            geography,
            whole,
            count,
            own,
            plan,
            parents,
            lowest,
        })
    }

    /// The districts of an own part that don't hold together, rising: Iowa Code 42.4(3).
    pub fn breaks(&self, alloc: Global, part: u16) -> Result<Vec<Break>, AllocError>
        requires own { IsTrue (get_or self.now.own part false) }
        requires there { 16 * part < self.now.count }
        ensures { IfOk result (λ v. AreBreaks self.now.geography self.now.plan (16 * part + 1) (min (16 * part + 16) self.now.count) v.items) }
    {
        let count = self.count;
        let first = PART_DISTRICTS * part + 1;
        let last = (PART_DISTRICTS * part + PART_DISTRICTS).min(count);
        tell(
            alloc,
            self.geography,
            self.plan.as_slice(),
            first,
            last,
            self.parents.as_slice(),
            &self.lowest[first as usize - 1..last as usize],
        )
    }
}
