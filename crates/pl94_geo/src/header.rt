//! The taken records of the lines so far.
ghost use Rattle.std.specs.Prelude.{◌≡◌, [], ℕ, List, true, false, not, ◌==◌, nat_le, length, Some, None, Err, Ok};
ghost use Rattle.std.specs.Option.{option_map_or};
ghost use Rattle.desk_model.specs.claim.GeographyModels.{block_limit};
ghost use Rattle.pl94_geo.specs.Entries.{IsEntry};
ghost use Rattle.pl94_geo.specs.claim.Judging.{entries, other_state};
ghost use Rattle.pl94_geo.specs.Holding.{Holds, Takes, Judges, Adds};
ghost use Rattle.pl94_geo.specs.declared.entry.GeoRecord.{GeoRecord as TakenEntry};

use crate::entry::{GeoRecord, HeaderLineFault, read_line};
use crate::number_set::NumberSet;
use desk_model::block::BlockId;
use desk_model::geography::BLOCK_LIMIT;
use std::alloc::Global;

/// A block of the header.
#[derive(Clone, Copy)]
pub struct GeoBlock {
    /// LOGRECNO, which the segments' records have too.
    pub number: u64,
    pub id: BlockId,
    pub city: Option<u32>,
}

/// Why a line isn't taken.
#[derive(Clone, Copy)]
pub enum HeaderRefusal {
    Fault(HeaderLineFault),
    Memory,
}

/// What the lines so far have given.
#[derive(Drop)]
pub struct Header {
    pub state: Option<u64>,
    pub state_record: Option<u64>,
    pub blocks: Vec<GeoBlock>,
    pub ids: NumberSet,
    pub numbers: NumberSet,
}

/// Adds a number to a set that hasn't it yet.
fn add(set: &mut NumberSet, number: u64, repeated: HeaderLineFault) -> Result<(), HeaderRefusal>
    ensures { Adds set.old set.new number repeated result }
{
    match set.insert(number) {
        Ok(true) => Ok(()),
        Ok(false) => Err(HeaderRefusal::Fault(repeated)),
        Err(_) => Err(HeaderRefusal::Memory),
    }
}

impl Header {
    pub fn new(alloc: Global) -> Header
        ensures { Holds result [] }
    {
        Header {
            state: None,
            state_record: None,
            blocks: Vec::new(alloc),
            ids: NumberSet::new(alloc),
            numbers: NumberSet::new(alloc),
        }
    }

    /// Whether a record was taken that is of another state.
    fn is_of_other_state(&self, state: u64) -> bool
        ensures { result ≡ option_map_or (λ own. not (own == state)) self.now.state false }
    {
        match self.state {
            Some(own) => own != state,
            None => false,
        }
    }

    /// Takes the state record.
    fn take_state(&mut self, entry: GeoRecord) -> Result<(), HeaderRefusal>
        requires valid { IsEntry entry }
        requires kind { entry.block ≡ None }
        ensures { (es : List TakenEntry) → Holds self.old es → other_state es entry.state ≡ false → Takes es entry result self.new }
    {
        if self.state_record.is_some() {
            return Err(HeaderRefusal::Fault(HeaderLineFault::State));
        }
        add(
            &mut self.numbers,
            entry.number,
            HeaderLineFault::RepeatedRecord,
        )?;
        self.state_record = Some(entry.number);
        self.state = Some(entry.state);
        Ok(())
    }

    /// Returns whether there are as many blocks as a state may have.
    fn is_full(&self) -> bool
        ensures { result ≡ nat_le block_limit (length self.now.blocks.items) }
    {
        self.blocks.len() >= BLOCK_LIMIT
    }

    /// Takes a block.
    fn take_block(&mut self, entry: GeoRecord, id: BlockId) -> Result<(), HeaderRefusal>
        requires valid { IsEntry entry }
        requires kind { entry.block ≡ Some id }
        ensures { (es : List TakenEntry) → Holds self.old es → other_state es entry.state ≡ false → Takes es entry result self.new }
    {
        add(&mut self.ids, id.number(), HeaderLineFault::RepeatedBlock)?;
        add(
            &mut self.numbers,
            entry.number,
            HeaderLineFault::RepeatedRecord,
        )?;
        if self.is_full() {
            return Err(HeaderRefusal::Fault(HeaderLineFault::TooManyBlocks));
        }
        let block = GeoBlock {
            number: entry.number,
            id,
            city: entry.city,
        };
        let Ok(()) = self.blocks.push(block) else {
            return Err(HeaderRefusal::Memory);
        };
        self.state = Some(entry.state);
        Ok(())
    }

    /// Takes a record.
    fn take(&mut self, entry: GeoRecord) -> Result<(), HeaderRefusal>
        requires { IsEntry entry }
        ensures { (es : List TakenEntry) → Holds self.old es → Takes es entry result self.new }
    {
        if self.is_of_other_state(entry.state) {
            return Err(HeaderRefusal::Fault(HeaderLineFault::State));
        }
        match entry.block {
            None => self.take_state(entry),
            Some(id) => self.take_block(entry, id),
        }
    }

    /// Judges a line and takes its record.
    pub fn judge_line(&mut self, line: &[u8]) -> Result<(), HeaderRefusal>
        ensures { (ls : List (List ℕ)) → Holds self.old (entries ls) → Judges ls line.now result self.new }
    {
        match read_line(line) {
            Ok(Some(entry)) => self.take(entry),
            Ok(None) => Ok(()),
            Err(fault) => Err(HeaderRefusal::Fault(fault)),
        }
    }
}
