//! Census blocks.
ghost use Rattle.std.specs.Prelude.{◌≡◌, ◌<◌, Some, refl};
ghost use Rattle.std.specs.Ordering.{nat_cmp};
ghost use Rattle.desk_model.specs.claim.Block.{county_of, state_of};

use std::marker::Model;

/// The number of a census block, from 0 to 10^15 - 1. Its fifteen digits are the state (2), the county (3), the
/// tract (6) and the block (4), as GEOCODE has them in the 2020 Census PL 94-171 technical documentation.
#[derive(Clone, Copy, PartialEq, Eq, PartialOrd, Ord)]
pub struct BlockId {
    number: u64,
}

impl Model for BlockId {
    ghost use Rattle.std.specs.Prelude.{ℕ, ◌<◌, ◌^◌};

    ghost Value = { ℕ };

    ghost view = { λ a. a.number };

    ghost invariant = { λ a. a.number < 10 ^ 15 };

    ghost inverse = { λ n. record { number = n } };
}

impl BlockId {
    pub fn from_number(number: u64) -> BlockId
        requires { number < 1_000_000_000_000_000 }
        ensures { result ≡ number }
    {
        BlockId { number }
    }

    pub fn number(self) -> u64
        ensures { result ≡ self }
    {
        self.number
    }

    /// Digits 3 to 5, from 0 to 999.
    pub fn county(self) -> u16
        ensures { result ≡ county_of self }
    {
        (self.number / 10_000_000_000 % 1000) as u16
    }

    /// Digits 1 and 2, from 0 to 99.
    pub fn state(self) -> u8
        ensures { result ≡ state_of self }
    {
        (self.number / 10_000_000_000_000) as u8
    }
}

/// A block with the city that it lies in, a PLACE code from 0 to 99,999, and the number of its people (P0010001).
#[derive(Clone, Copy)]
pub struct BlockRow {
    pub id: BlockId,
    pub city: Option<u32>,
    pub population: u32,
}
