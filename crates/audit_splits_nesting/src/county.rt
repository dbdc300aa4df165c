//! The county of one block after the other.
ghost use Rattle.std.specs.Prelude.{◌≡◌, ◌≤◌, ◌<◌, ℕ};
ghost use Rattle.desk_model.specs.claim.Block.{county_of};

use desk_model::block::BlockId;

/// How many numbers of blocks a county has: those of its tracts and blocks have ten digits.
const NUMBERS: u64 = 10_000_000_000;

/// The county of the blocks between two numbers. Blocks of one county usually follow each other, so
/// a block's number is divided only when the county changes.
#[derive(Drop)]
pub struct CountySpan {
    first: u64,
    end: u64,
    county: u16,
    ghost one: { (n : ℕ) → first ≤ n → n < end → county_of n ≡ county },
}

impl CountySpan {
    ghost use Rattle.std.specs.Prelude.{◌≡◌, ◌<◌};
    ghost use Rattle.desk_model.specs.claim.Block.{county_of};

    /// A span that contains no block.
    pub fn none() -> CountySpan {
        CountySpan {
            first: 0,
            end: 0,
            county: 0,
        }
    }

    /// The county of a block.
    pub fn county_of(&mut self, block: BlockId) -> u16
        ensures { result ≡ county_of block }
    {
        let number = block.number();
        if number < self.first || self.end <= number {
            let before = number / NUMBERS;
            *self = CountySpan {
                first: before * NUMBERS,
                end: before * NUMBERS + NUMBERS,
                county: (before % 1000) as u16,
            };
        }
        self.county
    }
}
