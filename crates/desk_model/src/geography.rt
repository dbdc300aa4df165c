//! A state's blocks and which of them are neighbours.
ghost use Rattle.std.specs.Prelude.{◌≡◌, ◌≢◌, ◌⊎◌, ◌↔◌, ◌<◌, ◌≤◌, nat_lt, if◌then◌else◌, length, All, Contains, IsTrue, IfOk, IfSome, IfNone};
ghost use Rattle.std.specs.List.Sorted.{IsStrictlyIncreasing};
ghost use Rattle.desk_model.specs.claim.GeographyModels.{AreBlocks, AreRising, AreTold, IsGeographyModel};
ghost use Rattle.desk_model.specs.Ranges.{ranges_of};
ghost use Rattle.desk_model.specs.Geography.{AreDifferentBlocks, IsBetween};
ghost use Rattle.desk_model.specs.claim.GeographyModels.{IsPair, is_before as is_before_of, pair_ids, turned};
ghost use Rattle.desk_model.specs.claim.Geography.{id_at, ids_of};
ghost use Rattle.desk_model.specs.declared.geography.Pair.{Pair as Pair_};
ghost use Rattle.desk_model.specs.claim.Sample.{sample as sample_geography};

use crate::block::{BlockId, BlockRow};
use crate::ranges::{CountyRange, ranges};
use std::alloc::{AllocError, Global};
use std::marker::Model;

/// A geography has this many blocks at most.
pub const BLOCK_LIMIT: usize = 1_048_576;

/// Two neighbours, by their places in the list of blocks, from 0, the smaller first.
#[derive(Clone, Copy, PartialEq, Eq, PartialOrd, Ord)]
pub struct Pair {
    pub first: u32,
    pub second: u32,
}

/// The blocks of one state, rising by number, and the pairs that share an edge, rising by their places. Its counties are kept with them.
#[derive(Drop)]
pub struct Geography {
    blocks: Vec<BlockRow>,
    pairs: Vec<Pair>,
    counties: Vec<CountyRange>,
}

impl Model for Geography {
    ghost use Rattle.desk_model.specs.claim.Geography.{GeographyModel};
    ghost use Rattle.desk_model.specs.Ranges.{HasCounties};

    ghost Value = { GeographyModel };

    ghost view = { λ a. record { blocks = a.blocks.items; pairs = a.pairs.items } };

    ghost invariant = { λ a. HasCounties (record { blocks = a.blocks.items; pairs = a.pairs.items }) a.counties.items };
}

/// The place of a block between two places of a list of blocks that rises by number: a binary search.
fn place_between(blocks: &[BlockRow], id: BlockId, from: usize, to: usize) -> Option<usize>
    requires rising { IsStrictlyIncreasing (ids_of blocks.now) }
    requires between { IsBetween blocks.now id from to }
    ensures found { IfSome result (λ place. (place < length blocks.now) × (id_at blocks.now place ≡ id)) }
    ensures missing { IfNone result (¬ Contains (ids_of blocks.now) id) }
{
    let wanted = id.number();
    let mut low = from;
    let mut high = to;
    while low < high {
        let middle = low + (high - low) / 2;
        let number = blocks[middle].id.number();
        if number == wanted {
            return Some(middle);
        }
        if number < wanted {
            low = middle + 1;
        } else {
            high = middle;
        }
    }
    None
}

/// The place of a block in a list of blocks that rises by number.
pub fn place_of(blocks: &[BlockRow], id: BlockId) -> Option<usize>
    requires { IsStrictlyIncreasing (ids_of blocks.now) }
    ensures found { IfSome result (λ place. (place < length blocks.now) × (id_at blocks.now place ≡ id)) }
    ensures missing { IfNone result (¬ Contains (ids_of blocks.now) id) }
{
    place_between(blocks, id, 0, blocks.len())
}

/// Returns two places between which a block is, if it exists: upward from a place at or before it,
/// in steps that double.
fn upward(blocks: &[BlockRow], id: BlockId, from: usize) -> (usize, usize)
    requires rising { IsStrictlyIncreasing (ids_of blocks.now) }
    requires between { IsBetween blocks.now id from (length blocks.now) }
    requires within { from ≤ length blocks.now }
    ensures { IsBetween blocks.now id result.0 result.1 }
{
    let wanted = id.number();
    let mut low = from;
    let mut at = from;
    let mut step = 1usize;
    while at < blocks.len() {
        if blocks[at].id.number() >= wanted {
            return (low, at + 1);
        }
        low = at + 1;
        at = at.saturating_add(step);
        step = step.saturating_mul(2);
    }
    (low, blocks.len())
}

/// Returns two places between which a block is, if it exists: downward from a place after it, in
/// steps that double.
fn downward(blocks: &[BlockRow], id: BlockId, from: usize) -> (usize, usize)
    requires rising { IsStrictlyIncreasing (ids_of blocks.now) }
    requires between { IsBetween blocks.now id 0 from }
    ensures { IsBetween blocks.now id result.0 result.1 }
{
    let wanted = id.number();
    let mut high = from;
    let mut step = 1usize;
    while high > 0 {
        let at = (high - 1).saturating_sub(step);
        if blocks[at].id.number() <= wanted {
            return (at, high);
        }
        high = at;
        step = step.saturating_mul(2);
    }
    (0, 0)
}

/// The same, looked for from a likely place outward: a look at few blocks where it is near.
pub fn place_near(blocks: &[BlockRow], likely: usize, id: BlockId) -> Option<usize>
    requires { IsStrictlyIncreasing (ids_of blocks.now) }
    ensures found { IfSome result (λ place. (place < length blocks.now) × (id_at blocks.now place ≡ id)) }
    ensures missing { IfNone result (¬ Contains (ids_of blocks.now) id) }
{
    if likely >= blocks.len() {
        return place_of(blocks, id);
    }
    let number = blocks[likely].id.number();
    if number == id.number() {
        return Some(likely);
    }
    let (low, high) = if number < id.number() {
        upward(blocks, id, likely + 1)
    } else {
        downward(blocks, id, likely)
    };
    place_between(blocks, id, low, high)
}

/// Returns the place of a block that exists.
fn known_place(blocks: &[BlockRow], likely: u32, id: BlockId) -> u32
    requires few { length blocks.now ≤ BLOCK_LIMIT }
    requires rising { IsStrictlyIncreasing (ids_of blocks.now) }
    requires listed { Contains (ids_of blocks.now) id }
    ensures within { result < length blocks.now }
    ensures found { id_at blocks.now result ≡ id }
{
    match place_near(blocks, likely as usize, id) {
        Some(place) => place as u32,
        None => unreachable!(),
    }
}

/// The pair of two different places.
fn pair_of(one: u32, other: u32) -> Pair
    requires { one ≢ other }
    ensures { result ≡ (if nat_lt one other then record { first = one; second = other } else record { first = other; second = one }) }
{
    if one < other {
        Pair {
            first: one,
            second: other,
        }
    } else {
        Pair {
            first: other,
            second: one,
        }
    }
}

/// The pair of two blocks, looked for near the places of the last one.
fn placed(blocks: &[BlockRow], last: Pair, told: (BlockId, BlockId)) -> Pair
    requires few { length blocks.now ≤ BLOCK_LIMIT }
    requires rising { IsStrictlyIncreasing (ids_of blocks.now) }
    requires told { AreDifferentBlocks blocks.now told }
    ensures valid { IsPair (length blocks.now) result }
    ensures told { (told ≡ pair_ids blocks.now result) ⊎ (told ≡ turned (pair_ids blocks.now result)) }
{
    let one = known_place(blocks, last.first, told.0);
    let other = known_place(blocks, last.second, told.1);
    pair_of(one, other)
}

/// Returns the pairs of the given blocks by place, in their order.
fn placed_pairs(
    alloc: Global,
    blocks: &[BlockRow],
    told: &[(BlockId, BlockId)],
) -> Result<Vec<Pair>, AllocError>
    requires few { length blocks.now ≤ BLOCK_LIMIT }
    requires rising { IsStrictlyIncreasing (ids_of blocks.now) }
    requires told { All (AreDifferentBlocks blocks.now) told.now }
    ensures { IfOk result (λ pairs. AreTold blocks.now told.now pairs.items) }
{
    let mut pairs = Vec::with_capacity(alloc, told.len())?;
    let mut last = Pair {
        first: 0,
        second: 0,
    };
    for pair in told {
        last = placed(blocks, last, *pair);
        pairs.push(last)?;
    }
    Ok(pairs)
}

/// Returns whether one pair precedes another, by its first place and then by its second.
fn is_before(one: Pair, other: Pair) -> bool
    ensures { result ≡ is_before_of one other }
{
    one.first < other.first || one.first == other.first && one.second < other.second
}

/// Returns whether each pair precedes the next.
fn are_rising(pairs: &[Pair]) -> bool
    ensures { IsTrue result ↔ AreRising pairs.now }
{
    for k in 1..pairs.len() {
        if !is_before(pairs[k - 1], pairs[k]) {
            return false;
        }
    }
    true
}

/// Returns whether the places of each pair are below `count`, the smaller first.
fn are_pairs(pairs: &[Pair], count: usize) -> bool
    ensures { IsTrue result ↔ All (IsPair count) pairs.now }
{
    pairs
        .iter()
        .all(|p| p.first < p.second && (p.second as usize) < count)
}

/// Puts pairs in their order, each once.
fn sort_pairs(pairs: &mut Vec<Pair>)
    ensures rising { AreRising pairs.new.items }
    ensures kept { (p : Pair_) → Contains pairs.old.items p ↔ Contains pairs.new.items p }
{
    if are_rising(pairs.as_slice()) {
        return;
    }
    pairs.sort_unstable();
    pairs.dedup();
}

impl Geography {
    /// The geography of these blocks and of these pairs of different blocks, in any order and either way round.
    pub fn make(
        alloc: Global,
        blocks: Vec<BlockRow>,
        pairs: &[(BlockId, BlockId)],
    ) -> Result<Geography, AllocError>
        requires blocks { AreBlocks blocks.items }
        requires pairs { All (AreDifferentBlocks blocks.items) pairs.now }
        ensures blocks { IfOk result (λ g. g.blocks ≡ blocks.items) }
        ensures pairs { IfOk result (λ g. AreTold blocks.items pairs.now g.pairs) }
    {
        let mut placed = placed_pairs(alloc, blocks.as_slice(), pairs)?;
        sort_pairs(&mut placed);
        let counties = ranges(alloc, blocks.as_slice())?;
        Ok(Geography {
            blocks,
            pairs: placed,
            counties,
        })
    }

    /// Returns the geography of these blocks and these pairs of places. `None` if the places of a
    /// pair are not two of the list, the smaller first, or if a pair does not precede the next.
    pub fn from_places(
        alloc: Global,
        blocks: Vec<BlockRow>,
        pairs: Vec<Pair>,
    ) -> Result<Option<Geography>, AllocError>
        requires { AreBlocks blocks.items }
        ensures made { IfOk result (λ made. IfSome made (λ g. g ≡ record { blocks = blocks.items; pairs = pairs.items })) }
        ensures refused { IfOk result (λ made. IfNone made (¬ IsGeographyModel (record { blocks = blocks.items; pairs = pairs.items }))) }
    {
        if !are_pairs(pairs.as_slice(), blocks.len()) || !are_rising(pairs.as_slice()) {
            return Ok(None);
        }
        let counties = ranges(alloc, blocks.as_slice())?;
        Ok(Some(Geography {
            blocks,
            pairs,
            counties,
        }))
    }

    /// The blocks, rising by number.
    pub fn blocks(&self) -> &[BlockRow]
        ensures value { result.now ≡ self.now.blocks }
        ensures valid { AreBlocks self.now.blocks }
    {
        self.blocks.as_slice()
    }

    /// The pairs of neighbours, rising.
    pub fn pairs(&self) -> &[Pair]
        ensures value { result.now ≡ self.now.pairs }
        ensures valid { IsGeographyModel self.now }
    {
        self.pairs.as_slice()
    }

    /// The counties, rising.
    pub fn counties(&self) -> &[CountyRange]
        ensures { result.now ≡ ranges_of self.now }
    {
        self.counties.as_slice()
    }
}

fn block_row(number: u64, city: Option<u32>, population: u32) -> BlockRow
    requires { number < 1_000_000_000_000_000 }
    ensures { result ≡ record { id = number; city = city; population = population } }
{
    BlockRow {
        id: BlockId::from_number(number),
        city,
        population,
    }
}

/// The sample geography: four invented blocks of two counties, two by two, with 2,000 people.
pub fn sample(alloc: Global) -> Result<Geography, AllocError>
    ensures { IfOk result (λ g. g ≡ sample_geography) }
{
    let blocks = vec![in alloc;
        block_row(190_010_001_001_001, Some(100), 505),
        block_row(190_010_001_001_002, Some(100), 505),
        block_row(190_030_001_001_001, Some(100), 495),
        block_row(190_030_001_001_002, None, 495),
    ]?;
    let pairs = vec![in alloc;
        Pair {
            first: 0,
            second: 1
        },
        Pair {
            first: 0,
            second: 2
        },
        Pair {
            first: 1,
            second: 3
        },
        Pair {
            first: 2,
            second: 3
        },
    ]?;
    let counties = ranges(alloc, blocks.as_slice())?;
    Ok(Geography {
        blocks,
        pairs,
        counties,
    })
}
