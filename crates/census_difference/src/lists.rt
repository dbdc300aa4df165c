//! The first difference of two lists that rise.
ghost use Rattle.std.specs.Prelude.{◌≡◌, length, All, IfNone, IfSome};
ghost use Rattle.desk_model.specs.claim.GeographyModels.{IsPair, is_before as is_before_of, pair_ids};
ghost use Rattle.census_difference.specs.claim.Differences.{BlockDiffers, IsExtraPair, IsFirstBlock, IsFirstPair, IsMissingPair, PairDiffers};

use crate::difference::Difference;
use desk_model::block::{BlockId, BlockRow};
use desk_model::geography::Pair;

/// Returns how two blocks differ, before which all blocks are equal.
fn block_difference(stored: &BlockRow, said: &BlockRow) -> Option<Difference>
    ensures same { IfNone result (stored.now ≡ said.now) }
    ensures first { IfSome result (λ d. BlockDiffers d stored.now said.now) }
{
    if stored.id.number() < said.id.number() {
        return Some(Difference::ExtraBlock(stored.id));
    }
    if said.id.number() < stored.id.number() {
        return Some(Difference::MissingBlock(said.id));
    }
    if stored.city != said.city {
        return Some(Difference::OtherCity(said.id));
    }
    if stored.population != said.population {
        return Some(Difference::OtherPopulation(said.id));
    }
    None
}

/// Returns the first difference of two lists of blocks.
pub(crate) fn blocks_difference(stored: &[BlockRow], said: &[BlockRow]) -> Option<Difference>
    ensures same { IfNone result (stored.now ≡ said.now) }
    ensures first { IfSome result (IsFirstBlock stored.now said.now) }
{
    let shorter = stored.len().min(said.len());
    for k in 0..shorter {
        match block_difference(&stored[k], &said[k]) {
            Some(difference) => return Some(difference),
            None => {}
        }
    }
    if shorter < said.len() {
        return Some(Difference::MissingBlock(said[shorter].id));
    }
    if shorter < stored.len() {
        return Some(Difference::ExtraBlock(stored[shorter].id));
    }
    None
}

/// Returns the numbers of the blocks of a pair.
fn ids_of(blocks: &[BlockRow], pair: Pair) -> (BlockId, BlockId)
    requires { IsPair (length blocks.now) pair }
    ensures { result ≡ pair_ids blocks.now pair }
{
    (
        blocks[pair.first as usize].id,
        blocks[pair.second as usize].id,
    )
}

/// Returns whether one pair precedes another.
fn is_before(one: Pair, other: Pair) -> bool
    ensures { result ≡ is_before_of one other }
{
    one.first < other.first || one.first == other.first && one.second < other.second
}

/// Returns a pair that only the files have.
fn missing(blocks: &[BlockRow], pair: Pair) -> Difference
    requires { IsPair (length blocks.now) pair }
    ensures { IsMissingPair blocks.now result pair }
{
    let (one, other) = ids_of(blocks, pair);
    Difference::MissingPair(one, other)
}

/// Returns a pair that only the store has.
fn extra(blocks: &[BlockRow], pair: Pair) -> Difference
    requires { IsPair (length blocks.now) pair }
    ensures { IsExtraPair blocks.now result pair }
{
    let (one, other) = ids_of(blocks, pair);
    Difference::ExtraPair(one, other)
}

/// Returns how two pairs differ, before which all pairs are equal.
fn pair_difference(blocks: &[BlockRow], stored: Pair, said: Pair) -> Option<Difference>
    requires stored { IsPair (length blocks.now) stored }
    requires said { IsPair (length blocks.now) said }
    ensures same { IfNone result (stored ≡ said) }
    ensures first { IfSome result (λ d. PairDiffers blocks.now d stored said) }
{
    if is_before(stored, said) {
        return Some(extra(blocks, stored));
    }
    if is_before(said, stored) {
        return Some(missing(blocks, said));
    }
    None
}

/// Returns the first difference of two lists of pairs.
pub(crate) fn pairs_difference(
    blocks: &[BlockRow],
    stored: &[Pair],
    said: &[Pair],
) -> Option<Difference>
    requires stored { All (IsPair (length blocks.now)) stored.now }
    requires said { All (IsPair (length blocks.now)) said.now }
    ensures same { IfNone result (stored.now ≡ said.now) }
    ensures first { IfSome result (IsFirstPair blocks.now stored.now said.now) }
{
    let both = stored.len().min(said.len());
    for k in 0..both {
        match pair_difference(blocks, stored[k], said[k]) {
            Some(difference) => return Some(difference),
            None => {}
        }
    }
    if both < said.len() {
        return Some(missing(blocks, said[both]));
    }
    if both < stored.len() {
        return Some(extra(blocks, stored[both]));
    }
    None
}
