//! What was seen of rows in the order of their keys, and the first that is wrong.

use crate::facts::{note, note_pair, pair_of};
use crate::wrong::{Wrong, WrongRow};
use btree_scan::Row;
use desk_model::ranges::CountyRange;
use desk_store_opening::is_version;
use desk_store_pages::TreeError;
use desk_store_rows::{
    Counters, Key, RowKey, SealRow, StoredPlan, read_block, read_chunks, read_counters,
    read_districts, read_holder_count, read_pair, read_plan, read_seal,
};
use std::alloc::Global;
use std::collections::BTreeMap;

/// How many blocks a chunk is of, and the last district that it may have.
#[derive(Clone, Copy)]
struct Span {
    blocks: u64,
    last: u16,
}

/// A chunk that only deleted plans name is not checked.
const ANY: Span = Span {
    blocks: u64::MAX,
    last: u16::MAX,
};

/// What was seen so far.
#[derive(Drop)]
pub(crate) struct Seen {
    next: Counters,
    gone: BTreeMap<u64, u64>,
    begun: BTreeMap<u64, u64>,
    /// Holdings that no part named so far, and those that one did.
    held: BTreeMap<u128, u64>,
    named: BTreeMap<u128, u64>,
    /// For each chunk the number of plans that hold it, until its count comes.
    counts: BTreeMap<u64, u64>,
    plans: BTreeMap<u64, StoredPlan>,
    spans: BTreeMap<u64, Span>,
    /// Chunks whose last piece didn't come so far.
    unended: BTreeMap<u64, u64>,
    seal: Option<SealRow>,
    /// The number of the last block, and the last pair, one more than that each.
    last: (u64, u64),
}

/// How many blocks the county at a place has; any number, where it isn't known.
fn blocks_at(ranges: &[CountyRange], place: usize) -> u64 {
    if place >= ranges.len() {
        return u64::MAX;
    }
    ranges[place].count as u64
}

/// A number for a pair of neighbours; they rise as the pairs do.
fn pair_number(pair: (u32, u32)) -> u64 {
    4_294_967_296 * pair.0 as u64 + pair.1 as u64
}

impl Seen {
    pub(crate) fn new(alloc: Global) -> Seen {
        Seen {
            next: Counters {
                plan: 0,
                chunk: 0,
                load: 0,
            },
            gone: BTreeMap::new(alloc),
            begun: BTreeMap::new(alloc),
            held: BTreeMap::new(alloc),
            named: BTreeMap::new(alloc),
            counts: BTreeMap::new(alloc),
            plans: BTreeMap::new(alloc),
            spans: BTreeMap::new(alloc),
            unended: BTreeMap::new(alloc),
            seal: None,
            last: (0, 0),
        }
    }

    fn see_counters(&mut self, value: &[u8]) -> Option<Wrong> {
        match read_counters(value) {
            None => Some(Wrong::BadValue),
            Some(next) => {
                self.next = next;
                None
            }
        }
    }

    fn see_mark(&mut self, plan: u64, value: &[u8]) -> Result<Option<Wrong>, TreeError> {
        if !value.is_empty() {
            return Ok(Some(Wrong::BadValue));
        }
        if plan >= self.next.plan {
            return Ok(Some(Wrong::NumberTooHigh));
        }
        note(&mut self.gone, plan, 0)?;
        Ok(None)
    }

    fn see_holding(
        &mut self,
        plan: u64,
        number: u64,
        value: &[u8],
    ) -> Result<Option<Wrong>, TreeError> {
        if !value.is_empty() {
            return Ok(Some(Wrong::BadValue));
        }
        if plan >= self.next.plan || number >= self.next.chunk {
            return Ok(Some(Wrong::NumberTooHigh));
        }
        note_pair(&mut self.held, pair_of(plan, number))?;
        let count = match self.counts.get(&number) {
            None => 0,
            Some(count) => *count,
        };
        note(&mut self.counts, number, count.saturating_add(1))?;
        Ok(None)
    }

    fn see_count(&mut self, number: u64, value: &[u8]) -> Option<Wrong> {
        if number >= self.next.chunk {
            return Some(Wrong::NumberTooHigh);
        }
        let Some(told) = read_holder_count(value) else {
            return Some(Wrong::BadValue);
        };
        match self.counts.remove(&number) {
            Some(count) if count == told.plans => None,
            _ => Some(Wrong::WrongCount),
        }
    }

    fn see_load(&mut self, load: u64, value: &[u8]) -> Result<Option<Wrong>, TreeError> {
        if !value.is_empty() {
            return Ok(Some(Wrong::BadValue));
        }
        if load >= self.next.load {
            return Ok(Some(Wrong::NumberTooHigh));
        }
        note(&mut self.begun, load, 0)?;
        Ok(None)
    }

    fn see_plan(&mut self, value: &[u8]) -> Result<Option<Wrong>, TreeError> {
        let Some(plan) = read_plan(value) else {
            return Ok(Some(Wrong::BadValue));
        };
        if plan.number >= self.next.plan {
            return Ok(Some(Wrong::NumberTooHigh));
        }
        if self.gone.get(&plan.number).is_some() {
            return Ok(Some(Wrong::TakenAway));
        }
        if plan.districts == 0 || plan.districts > plan.kind.most_districts() {
            return Ok(Some(Wrong::BadValue));
        }
        match self.plans.insert(plan.number, plan) {
            Ok(None) => Ok(None),
            Ok(Some(_)) => Ok(Some(Wrong::TwoPlans)),
            Err(_) => Err(TreeError::Memory),
        }
    }

    /// The chunk that a part of a plan names for the county at a place.
    fn see_name(
        &mut self,
        plan: u64,
        number: u64,
        is_gone: bool,
        span: Span,
    ) -> Result<Option<Wrong>, TreeError> {
        if number >= self.next.chunk {
            return Ok(Some(Wrong::NumberTooHigh));
        }
        let of = pair_of(plan, number);
        if self.held.remove(&of).is_some() {
            note_pair(&mut self.named, of)?;
        } else if !is_gone && self.named.get(&of).is_none() {
            return Ok(Some(Wrong::NotHeld));
        }
        let before = match self.spans.get(&number) {
            None => ANY,
            Some(span) => *span,
        };
        let narrow = Span {
            blocks: before.blocks.min(span.blocks),
            last: before.last.min(span.last),
        };
        if narrow.blocks < u64::MAX {
            note(&mut self.unended, number, 0)?;
        }
        match self.spans.insert(number, narrow) {
            Ok(_) => Ok(None),
            Err(_) => Err(TreeError::Memory),
        }
    }

    fn see_names(
        &mut self,
        ranges: &[CountyRange],
        plan: u64,
        last: Option<u16>,
        first: usize,
        numbers: &[u64],
    ) -> Result<Option<Wrong>, TreeError> {
        for k in 0..numbers.len() {
            let span = match last {
                None => ANY,
                Some(last) => Span {
                    blocks: blocks_at(ranges, first.saturating_add(k)),
                    last,
                },
            };
            let wrong = self.see_name(plan, numbers[k], last.is_none(), span)?;
            if wrong.is_some() {
                return Ok(wrong);
            }
        }
        Ok(None)
    }

    fn see_part(
        &mut self,
        ranges: &[CountyRange],
        plan: u64,
        revision: u32,
        index: u8,
        value: &[u8],
    ) -> Result<Option<Wrong>, TreeError> {
        let Some(numbers) = read_chunks(value) else {
            return Ok(Some(Wrong::BadValue));
        };
        let last = match self.plans.get(&plan) {
            Some(row) => {
                if revision == 0 || revision > row.revisions {
                    return Ok(Some(Wrong::TooMany));
                }
                Some(row.districts)
            }
            None => {
                if self.gone.get(&plan).is_none() {
                    return Ok(Some(Wrong::NoOwner));
                }
                None
            }
        };
        let first = 128 * index as usize;
        let wanted = ranges.len().saturating_sub(first).min(128);
        if last.is_some() && !ranges.is_empty() && numbers.len() != wanted {
            return Ok(Some(Wrong::WrongLength));
        }
        self.see_names(ranges, plan, last, first, numbers.as_slice())
    }

    fn see_seal(&mut self, value: &[u8]) -> Option<Wrong> {
        let Some(seal) = read_seal(value) else {
            return Some(Wrong::BadValue);
        };
        if seal.load >= self.next.load {
            return Some(Wrong::NumberTooHigh);
        }
        if self.begun.get(&seal.load).is_some() {
            return Some(Wrong::TakenAway);
        }
        self.seal = Some(seal);
        None
    }

    /// A block of the sealed load, or of one that was begun.
    fn see_block(&mut self, is_sealed: bool, value: &[u8]) -> Option<Wrong> {
        let Some(block) = read_block(value) else {
            return Some(Wrong::BadValue);
        };
        let number = block.id.number();
        if is_sealed {
            if number < self.last.0 {
                return Some(Wrong::WrongOrder);
            }
            self.last.0 = number.saturating_add(1);
        }
        None
    }

    /// A pair of neighbours of the sealed load, or of one that was begun.
    fn see_pair(&mut self, is_sealed: bool, value: &[u8]) -> Option<Wrong> {
        let Some(pair) = read_pair(value) else {
            return Some(Wrong::BadValue);
        };
        if is_sealed {
            if pair.0 >= pair.1 {
                return Some(Wrong::BadValue);
            }
            let number = pair_number(pair);
            if number < self.last.1 {
                return Some(Wrong::WrongOrder);
            }
            self.last.1 = number.saturating_add(1);
        }
        None
    }

    /// Checks a row of a load: of the sealed load, with a place below the seal's count, or of one
    /// that was begun.
    fn see_row(&mut self, load: u64, place: u32, is_block: bool, value: &[u8]) -> Option<Wrong> {
        let is_sealed = match self.seal {
            Some(seal) if seal.load == load => {
                let count = if is_block { seal.blocks } else { seal.pairs };
                if place >= count {
                    return Some(Wrong::TooMany);
                }
                true
            }
            _ => {
                if self.begun.get(&load).is_none() {
                    return Some(Wrong::NoOwner);
                }
                false
            }
        };
        if is_block {
            return self.see_block(is_sealed, value);
        }
        self.see_pair(is_sealed, value)
    }

    fn see_piece(&mut self, number: u64, piece: u16, value: &[u8]) -> Option<Wrong> {
        if number >= self.next.chunk {
            return Some(Wrong::NumberTooHigh);
        }
        let Some(districts) = read_districts(value) else {
            return Some(Wrong::BadValue);
        };
        let span = match self.spans.get(&number) {
            None => return Some(Wrong::NobodyHolds),
            Some(span) => *span,
        };
        if districts.as_slice().iter().any(|d| *d > span.last) {
            return Some(Wrong::DistrictTooHigh);
        }
        let before = 512 * (piece as u64);
        let wanted = span.blocks.saturating_sub(before).min(512);
        if span.blocks < u64::MAX && districts.len() as u64 != wanted {
            return Some(Wrong::WrongLength);
        }
        if before.saturating_add(512) >= span.blocks {
            let _ = self.unended.remove(&number);
        }
        None
    }

    /// What rows before one with this tag leave: a chunk that is held and has no count, a holding of what the plan doesn't name, or a
    /// chunk whose last piece is missing.
    pub(crate) fn left_before(&self, tag: u8) -> Option<WrongRow> {
        if tag > b'K' {
            if let Some(number) = self.counts.keys().next() {
                return Some(WrongRow::at(Wrong::WrongCount, &Key::holder_count(*number)));
            }
        }
        if tag > b'R' {
            if let Some(of) = self.held.keys().next() {
                let plan = (*of / 18_446_744_073_709_551_616) as u64;
                let number = (*of % 18_446_744_073_709_551_616) as u64;
                return Some(WrongRow::at(Wrong::NotNamed, &Key::holding(plan, number)));
            }
        }
        if tag > b'k' {
            if let Some(number) = self.unended.keys().next() {
                return Some(WrongRow::at(Wrong::WrongLength, &Key::chunk(*number, 0)));
            }
        }
        None
    }

    /// What is wrong with the next row, if anything is. `ranges` are the counties.
    pub(crate) fn see(
        &mut self,
        ranges: &[CountyRange],
        row: &Row,
    ) -> Result<Option<Wrong>, TreeError> {
        let value = row.value.as_slice();
        let Some(key) = RowKey::read(row.key.as_slice()) else {
            return Ok(Some(Wrong::UnknownRow));
        };
        match key {
            RowKey::Counters => Ok(self.see_counters(value)),
            RowKey::Retired { plan } => self.see_mark(plan, value),
            RowKey::Begun { load } => self.see_load(load, value),
            RowKey::Holding { plan, number } => self.see_holding(plan, number, value),
            RowKey::HolderCount { number } => Ok(self.see_count(number, value)),
            RowKey::Named { .. } => self.see_plan(value),
            RowKey::Part {
                plan,
                revision,
                index,
            } => self.see_part(ranges, plan, revision, index, value),
            RowKey::Seal => Ok(self.see_seal(value)),
            RowKey::Version if !is_version(value) => Ok(Some(Wrong::BadValue)),
            RowKey::Version => Ok(None),
            RowKey::Block { load, place } => Ok(self.see_row(load, place, true, value)),
            RowKey::Pair { load, place } => Ok(self.see_row(load, place, false, value)),
            RowKey::Chunk { number, piece } => Ok(self.see_piece(number, piece, value)),
        }
    }
}
