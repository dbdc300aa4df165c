//! The blocks that a block assignment file lists.
ghost use Rattle.std.specs.Prelude.{◌≡◌, ◌<◌, ◌≤◌, ◌+◌, ◌⊎◌, ℕ, map, length, get_or, unwrap_or, None, IfOk, OnOk, OnErr};
ghost use Rattle.baf_text.specs.Listed.{part_at as listed_at, IsAlike, IsEntered};

use std::alloc::{AllocError, Global};
use std::marker::Model;

/// The district of each block of a geography, rising, where the block is listed: `Some(0)` for a block that is listed
/// as unassigned, `None` for one that isn't listed. The blocks before the first listed one and after the last take no memory.
#[derive(Drop)]
pub struct Listed {
    /// How many blocks there are.
    count: usize,
    /// The place of the part's first block.
    first: usize,
    part: Vec<Option<u16>>,
}

impl Model for Listed {
    ghost use Rattle.std.specs.Prelude.{List, Option, ℕ, ◌+◌, ◌≤◌, length};
    ghost use Rattle.baf_text.specs.Listed.{spread};

    ghost Value = { List (Option ℕ) };

    ghost view = { λ a. spread a.first a.part.items a.count };

    ghost invariant = { λ a. a.first + length a.part.items ≤ a.count };
}

impl Listed {
    ghost use Rattle.std.specs.Prelude.{◌≡◌, ◌<◌, [], length, get_or, slice_set, Some, None, IfOk, OnOk};
    ghost use Rattle.baf_text.specs.Listed.{spread, IsListedPart};

    /// A list of `count` blocks, none of which is listed, with room for a part of `room` blocks.
    pub(crate) fn none(alloc: Global, count: usize, room: usize) -> Result<Listed, AllocError>
        ensures { IfOk result (λ listed. listed ≡ spread 0 [] count) }
    {
        let part = Vec::with_capacity(alloc, room)?;
        Ok(Listed {
            count,
            first: 0,
            part,
        })
    }

    /// How many blocks there are.
    pub fn len(&self) -> usize
        ensures { result ≡ length self.now }
    {
        self.count
    }

    /// The district of the block at a place, where it is listed.
    #[tactic(auto, using(crate::proofs::Parts::spread_at))]
    pub fn get(&self, place: usize) -> Option<u16>
        ensures { result ≡ get_or self.now place None }
    {
        part_at(self.first, self.part.as_slice(), place)
    }

    /// A place, and the districts from there on. No other block is listed.
    pub fn part(&self) -> (usize, &[Option<u16>])
        ensures { IsListedPart result.0 result.1.now self.now }
    {
        (self.first, self.part.as_slice())
    }

    /// Enters the district of the block at a place.
    pub(crate) fn put(
        &mut self,
        alloc: Global,
        place: usize,
        district: u16,
    ) -> Result<(), AllocError>
        requires { place < length self.old }
        ensures { OnOk result (self.new ≡ slice_set self.old place (Some district)) }
    {
        enter(alloc, &mut self.first, &mut self.part, place, district)
    }
}

/// Returns what is listed for a place, for a part that begins at the place `first`.
fn part_at(first: usize, part: &[Option<u16>], place: usize) -> Option<u16>
    ensures { result ≡ listed_at first part.now place }
{
    if place < first {
        return None;
    }
    match part.get(place - first) {
        Some(district) => *district,
        None => None,
    }
}

/// Enters a district into a part, which is made longer where it doesn't reach the place.
fn enter(
    alloc: Global,
    first: &mut usize,
    part: &mut Vec<Option<u16>>,
    place: usize,
    district: u16,
) -> Result<(), AllocError>
    ensures entered { OnOk result (IsEntered place district first.old part.old.items first.new part.new.items) }
    ensures within { (n : ℕ) → place < n → first.old + length part.old.items ≤ n → first.new + length part.new.items ≤ n }
    ensures same { OnErr result (IsAlike first.old part.old.items first.new part.new.items) }
{
    reach(alloc, first, part, place)?;
    part[place - *first] = Some(district);
    Ok(())
}

/// Makes a part as long as a place in it wants.
fn reach(
    alloc: Global,
    first: &mut usize,
    part: &mut Vec<Option<u16>>,
    place: usize,
) -> Result<(), AllocError>
    ensures alike { IsAlike first.old part.old.items first.new part.new.items }
    ensures within { (n : ℕ) → place < n → first.old + length part.old.items ≤ n → first.new + length part.new.items ≤ n }
    ensures down { OnOk result (first.new ≤ place) }
    ensures up { OnOk result (place < first.new + length part.new.items) }
{
    if part.is_empty() {
        *first = place;
    }
    if place < *first {
        lower(alloc, first, part, place)?;
    }
    raise(part, place - *first)
}

/// Makes a list reach a place.
fn raise(part: &mut Vec<Option<u16>>, at: usize) -> Result<(), AllocError>
    ensures alike { (k : ℕ) → get_or part.new.items k None ≡ get_or part.old.items k None }
    ensures long { OnOk result (at < length part.new.items) }
    ensures within { (length part.new.items ≤ length part.old.items) ⊎ (length part.new.items ≤ at + 1) }
{
    if at > part.len() {
        part.resize(at, None)?;
    }
    if at == part.len() {
        part.push(None)?;
    }
    Ok(())
}

/// Has a part begin at a place before it, or earlier: as much earlier as it is long, where that can be, so that rows which fall
/// don't each copy it.
fn lower(
    alloc: Global,
    first: &mut usize,
    part: &mut Vec<Option<u16>>,
    place: usize,
) -> Result<(), AllocError>
    requires { place < first.old }
    ensures alike { IsAlike first.old part.old.items first.new part.new.items }
    ensures down { OnOk result (first.new ≤ place) }
    ensures long { first.new + length part.new.items ≡ first.old + length part.old.items }
{
    let step = (*first - place).max(part.len()).min(*first);
    let mut longer = Vec::from_elem(alloc, None, step)?;
    longer.extend_from_slice(part.as_slice())?;
    *first -= step;
    *part = longer;
    Ok(())
}

/// The district of each block, rising. Blocks that aren't listed are unassigned, 0.
pub fn whole(alloc: Global, listed: &Listed) -> Result<Vec<u16>, AllocError>
    ensures { IfOk result (λ districts. districts.items ≡ map (λ d. unwrap_or d 0) listed.now) }
{
    let (first, part) = listed.part();
    let mut districts = Vec::from_elem(alloc, 0, listed.len())?;
    for i in 0..part.len() {
        districts[first + i] = part[i].unwrap_or(0);
    }
    Ok(districts)
}
