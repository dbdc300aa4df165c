//! What differs between two geographies.
ghost use Rattle.std.specs.Prelude.{◌≡◌, IfNone, IfSome};
ghost use Rattle.std.specs.Option.{option_copied};
ghost use Rattle.census_difference.specs.claim.Differences.{DiffersFrom, IsFirstOf};

use crate::lists::{blocks_difference, pairs_difference};
use desk_model::block::BlockId;
use desk_model::geography::Geography;

/// The first difference of a store from census files, named by the numbers of the blocks.
#[derive(Clone, Copy)]
pub enum Difference {
    /// The store has no geography.
    NotSealed,
    /// The files have a block that the store does not have.
    MissingBlock(BlockId),
    /// The store has a block that the files do not have.
    ExtraBlock(BlockId),
    /// The block lies in another city, or only one of them names a city.
    OtherCity(BlockId),
    /// The block has another population.
    OtherPopulation(BlockId),
    /// The files have a pair of neighbours that the store does not have.
    MissingPair(BlockId, BlockId),
    /// The store has a pair of neighbours that the files do not have.
    ExtraPair(BlockId, BlockId),
}

/// Returns the first difference of two geographies, the store's first.
fn difference_of(stored: &Geography, said: &Geography) -> Option<Difference>
    ensures same { IfNone result (stored.now ≡ said.now) }
    ensures first { IfSome result (IsFirstOf stored.now said.now) }
{
    match blocks_difference(stored.blocks(), said.blocks()) {
        Some(difference) => Some(difference),
        None => pairs_difference(said.blocks(), stored.pairs(), said.pairs()),
    }
}

/// Returns the first difference of a store's geography from the geography of census files, or
/// `None` if both are the same. A block with a lower number comes first, and blocks come before
/// pairs of neighbours.
pub fn first_difference(stored: Option<&Geography>, said: &Geography) -> Option<Difference>
    ensures { DiffersFrom (option_copied stored.entry) said.now result }
{
    match stored {
        Some(stored) => difference_of(stored, said),
        None => Some(Difference::NotSealed),
    }
}
