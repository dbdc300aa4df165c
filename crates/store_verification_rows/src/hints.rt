//! Where chunks are named: parts of revisions at which one looks first.
ghost use Rattle.std.specs.Prelude.{◌≡◌};
ghost use Rattle.page_store.specs.claim.Transactions.{count_of, txn_pages, IsQuiet};

use crate::facts::pair_of;
use btree_scan::{Row, row_limit, scan};
use desk_store_pages::TreeError;
use desk_store_rows::{Key, RowKey, read_chunks};
use page_store::{Pages, Txn};
use sector_device::SectorDevice;
use std::alloc::Global;
use std::collections::BTreeMap;

/// A part of a revision.
#[derive(Clone, Copy, Drop)]
struct Place {
    plan: u64,
    revision: u32,
    index: u8,
}

/// For each chunk, and each plan and chunk, a part that names it. Nothing depends on it: the rows
/// themselves are looked up.
#[derive(Drop)]
pub struct Hints {
    any: BTreeMap<u64, Place>,
    of_plan: BTreeMap<u128, Place>,
    /// The plan of the last part, and the chunks of its revision before that.
    plan: u64,
    before: Vec<u64>,
}

/// The key of the part at a place.
fn key_at(place: Option<&Place>) -> Option<Key> {
    match place {
        None => None,
        Some(at) => Some(Key::part(at.plan, at.revision, at.index)),
    }
}

impl Hints {
    /// None.
    pub(crate) fn new(alloc: Global) -> Hints {
        Hints {
            any: BTreeMap::new(alloc),
            of_plan: BTreeMap::new(alloc),
            plan: 0,
            before: Vec::new(alloc),
        }
    }

    /// A part that names a chunk.
    pub(crate) fn any(&self, number: u64) -> Option<Key> {
        key_at(self.any.get(&number))
    }

    /// One of a plan's.
    pub(crate) fn of_plan(&self, plan: u64, number: u64) -> Option<Key> {
        key_at(self.of_plan.get(&pair_of(plan, number)))
    }

    /// Notes that a part names a chunk.
    fn note_one(&mut self, number: u64, at: Place) -> Result<(), TreeError> {
        let any = self.any.insert(number, at);
        let of_plan = self.of_plan.insert(pair_of(at.plan, number), at);
        match (any, of_plan) {
            (Ok(_), Ok(_)) => Ok(()),
            _ => Err(TreeError::Memory),
        }
    }

    /// Notes the chunks that a part names, but for those that the plan's revision before named at the same places.
    fn note_part(&mut self, at: Place, numbers: &[u64]) -> Result<(), TreeError> {
        if at.plan != self.plan {
            self.before.clear();
            self.plan = at.plan;
        }
        for k in 0..numbers.len() {
            let place = (128 * at.index as usize).saturating_add(k);
            if place < self.before.len() && self.before[place] == numbers[k] {
                continue;
            }
            self.note_one(numbers[k], at)?;
            if place < self.before.len() {
                self.before[place] = numbers[k];
            } else if self.before.push(numbers[k]).is_err() {
                return Err(TreeError::Memory);
            }
        }
        Ok(())
    }

    /// Notes the chunks of a part by its row.
    fn note_row(&mut self, row: &Row) -> Result<(), TreeError> {
        let key = row.key.as_slice();
        let Some(
            RowKey::Part {
                plan,
                revision,
                index,
            },
        ) = RowKey::read(key)
        else {
            return Ok(());
        };
        let Some(numbers) = read_chunks(row.value.as_slice()) else {
            return Ok(());
        };
        self.note_part(
            Place {
                plan,
                revision,
                index,
            },
            numbers.as_slice(),
        )
    }
}

/// Notes of each chunk which parts name it, as far as the device gives them. The error is `Memory`.
pub fn note_parts<D: SectorDevice>(
    alloc: Global,
    txn: &Txn,
    pages: &mut Pages<D>,
) -> Result<Hints, TreeError>
    requires begun { txn_pages txn.now ≡ count_of pages.old }
    ensures quiet { IsQuiet pages.old pages.new }
{
    let mut hints = Hints::new(alloc);
    let mut scan = scan(b"R");
    let mut row = Row::empty();
    for taken in 0..row_limit(txn) {
        if !scan.next(txn, pages, &mut row) {
            return Ok(hints);
        }
        hints.note_row(&row)?;
    }
    Ok(hints)
}
