//! Tests what is read before it is a geography.
ghost use Rattle.std.specs.Prelude.{◌≡◌, ◌↔◌, ◌<◌, ◌^◌, IsTrue, All, length, sum_by};
ghost use Rattle.std.specs.List.Sorted.{IsStrictlyIncreasing};
ghost use Rattle.desk_model.specs.claim.Block.{state_of};
ghost use Rattle.desk_model.specs.claim.GeographyModels.{AreBlocks};
ghost use Rattle.desk_model.specs.claim.Geography.{id_at, ids_of};

use desk_model::block::BlockRow;
use desk_model::geography::BLOCK_LIMIT;

/// Whether the numbers of blocks rise.
fn are_rising(blocks: &[BlockRow]) -> bool
    ensures { IsTrue result ↔ IsStrictlyIncreasing (ids_of blocks.now) }
{
    for k in 1..blocks.len() {
        if blocks[k - 1].id.number() >= blocks[k].id.number() {
            return false;
        }
    }
    true
}

/// Whether all blocks lie in one state.
fn are_of_one_state(blocks: &[BlockRow]) -> bool
    ensures { IsTrue result ↔ All (λ id. state_of id ≡ state_of (id_at blocks.now 0)) (ids_of blocks.now) }
{
    for k in 1..blocks.len() {
        if blocks[k].id.state() != blocks[0].id.state() {
            return false;
        }
    }
    true
}

/// Whether the people of all blocks are fewer than 2^32.
fn have_few_people(blocks: &[BlockRow]) -> bool
    ensures { IsTrue result ↔ sum_by (λ b. b.population) blocks.now < 2 ^ 32 }
{
    let mut people: u32 = 0;
    for block in blocks {
        match people.checked_add(block.population) {
            None => return false,
            Some(more) => people = more,
        }
    }
    true
}

/// Whether these are the blocks of a geography.
pub(crate) fn are_blocks(blocks: &[BlockRow]) -> bool
    ensures { IsTrue result ↔ AreBlocks blocks.now }
{
    !blocks.is_empty()
        && blocks.len() <= BLOCK_LIMIT
        && are_rising(blocks)
        && are_of_one_state(blocks)
        && have_few_people(blocks)
}
