//! The text of a block's number, from block to block.
ghost use Rattle.std.specs.Prelude.{◌≡◌, ◌/◌, length, IsTrue};
ghost use Rattle.desk_model.specs.claim.Padded.{padded_decimal};

use crate::row::ID_DIGITS;
use crate::writing::digit;
use desk_model::block::BlockId;
use desk_model::decimal::Padded;
use std::marker::Model;

/// A block's number in fifteen digits. The next block's number usually differs only in the last
/// two.
#[derive(Drop)]
pub struct NumberText {
    number: u64,
    cells: [u8; 15],
}

// Clauses see the block.
impl Model for NumberText {
    ghost use Rattle.std.specs.Prelude.{◌≡◌, ℕ};
    ghost use Rattle.desk_model.specs.claim.Padded.{padded_decimal};

    ghost Value = { ℕ };

    ghost view = { λ a. a.number };

    ghost invariant = { λ a. a.cells ≡ padded_decimal 15 a.number };
}

impl NumberText {
    #[tactic(auto, using(crate::proofs::Ends::length_within))]
    pub fn new(id: BlockId) -> NumberText
        ensures { result ≡ id }
    {
        let digits = Padded::new(id.number(), ID_DIGITS);
        let mut cells = [b'0'; 15];
        cells.copy_from_slice(digits.as_slice());
        NumberText {
            number: id.number(),
            cells,
        }
    }

    pub fn as_slice(&self) -> &[u8]
        ensures digits { result.now ≡ padded_decimal 15 self.now }
        ensures long { length result.now ≡ 15 }
    {
        &self.cells
    }

    /// Whether a block has the same number but for the last two digits.
    fn is_near(&self, id: BlockId) -> bool
        ensures { IsTrue result → self.now / 100 ≡ id / 100 }
    {
        self.number / 100 == id.number() / 100
    }

    /// Writes the last two digits.
    fn turn_near(&mut self, id: BlockId)
        requires { self.old / 100 ≡ id / 100 }
        ensures { self.new ≡ id }
    {
        self.number = id.number();
        self.cells[13] = digit(self.number / 10);
        self.cells[14] = digit(self.number);
    }

    /// Becomes the text of a block's number.
    pub fn turn_to(&mut self, id: BlockId)
        ensures { self.new ≡ id }
    {
        if self.is_near(id) {
            self.turn_near(id);
        } else {
            *self = NumberText::new(id);
        }
    }
}
