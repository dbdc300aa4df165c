//! A set of numbers, quick where they come close to one another and slow nowhere.
ghost use Rattle.std.specs.Prelude.{◌≡◌, ℕ, false, OnOk, IfOk};
ghost use Rattle.pl94_geo.specs.Sets.{other_word, has, TurnsTo, Inserts};

use std::alloc::{AllocError, Global};
use std::collections::BTreeMap;

/// Numbers in words of 64 that follow one another, a bit for each.
#[derive(Drop)]
pub struct NumberSet {
    /// Which word the number that came last is in.
    place: u64,
    word: u64,
    /// The words of all numbers before, by their places. At `place` it may be after.
    others: BTreeMap<u64, u64>,
}

impl NumberSet {
    #[tactic(auto, using(crate::proofs::SetLemmas::none_yet))]
    pub fn new(alloc: Global) -> NumberSet
        ensures { (n : ℕ) → has result n ≡ false }
    {
        NumberSet {
            place: 0,
            word: 0,
            others: BTreeMap::new(alloc),
        }
    }

    /// The word that was put away at a place.
    fn other(&self, place: u64) -> u64
        ensures { result ≡ other_word self.now place }
    {
        match self.others.get(&place) {
            Some(word) => *word,
            None => 0,
        }
    }

    /// Takes the word of a place to hand, and puts the one at hand away.
    fn turn_to(&mut self, place: u64) -> Result<(), AllocError>
        ensures { OnOk result (TurnsTo self.old self.new place) }
    {
        if place == self.place {
            return Ok(());
        }
        if self.others.insert(self.place, self.word).is_err() {
            return Err(AllocError);
        }
        self.word = self.other(place);
        self.place = place;
        Ok(())
    }

    /// Adds a number and returns whether it is new.
    pub fn insert(&mut self, number: u64) -> Result<bool, AllocError>
        ensures { IfOk result (Inserts self.old self.new number) }
    {
        self.turn_to(number / 64)?;
        let bit = number % 64;
        if (self.word >> bit) & 1 == 1 {
            return Ok(false);
        }
        self.word |= 1 << bit;
        Ok(true)
    }
}
