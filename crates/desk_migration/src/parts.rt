//! Parts of revisions, and the chunks that they name.
ghost use Rattle.std.specs.Prelude.{◌≡◌, ◌≤◌, ℕ, ◌++◌, [], ◌∷◌, length, true, IfOk, MatchOption};
ghost use Rattle.page_store.specs.claim.Transactions.{count_of, txn_pages};
ghost use Rattle.desk_store_pages.specs.Looking.{Looks};
ghost use Rattle.desk_store_rows.specs.RowKeys.{IsKey};
ghost use Rattle.desk_store_rows.specs.claim.Keys.{key_of, part};
ghost use Rattle.desk_migration.specs.Parts.{IsPartFrom, IsUnderParts};
ghost use Rattle.desk_migration.specs.Outcomes.{IsNamedAt, ReadsPart};

use arrayvec::ArrayVec;
use btree_scan::Row;
use desk_store_opening::first_from;
use desk_store_pages::TreeError;
use desk_store_rows::{Key, PART_CHUNKS, RowKey, read_chunks};
use page_store::{Pages, Txn};
use sector_device::SectorDevice;

/// A part of a revision: its plan, and the chunks that it names.
#[derive(Drop)]
pub(crate) struct Part {
    pub(crate) plan: u64,
    pub(crate) numbers: ArrayVec<u64, PART_CHUNKS>,
}

impl Part {
    /// A part that names no chunk.
    pub(crate) fn empty() -> Part
        ensures { result.numbers.items ≡ [] }
    {
        Part {
            plan: 0,
            numbers: ArrayVec::new(),
        }
    }
}

/// A plan, and a chunk that it is to hold.
#[derive(Clone, Copy, Drop)]
pub(crate) struct HeldPair {
    pub(crate) plan: u64,
    pub(crate) number: u64,
}

/// The result of looking for the next part.
#[derive(Clone, Copy, Drop)]
pub(crate) enum PartLook {
    /// There is none.
    Ended,
    /// Its plan holds each chunk that it names.
    Passed,
    /// Its plan doesn't hold this one.
    Found(HeldPair),
}

/// Returns the plan of the part with this key; `None` for any other key.
fn plan_in(key: &[u8]) -> Option<u64>
    ensures { MatchOption result ((plan revision index : ℕ) → key.now ≡ key_of (part plan revision index) → ⊥)
        (λ plan. (revision : ℕ) × (index : ℕ) × IsKey (part plan revision index) key.now) }
{
    match RowKey::read(key) {
        Some(RowKey::Part { plan, .. }) => Some(plan),
        _ => None,
    }
}

/// The key that comes next after that of a part.
pub(crate) fn key_after(key: &[u8]) -> [u8; 15]
    requires { length key.now ≡ 14 }
    ensures { result ≡ key.now ++ 0 ∷ [] }
{
    let mut after = [0; 15];
    after[..14].copy_from_slice(key);
    after
}

/// Copies the first row of a part whose key isn't below this one, if there is one.
pub(crate) fn part_from<D: SectorDevice>(
    txn: &Txn,
    pages: &mut Pages<D>,
    from: &[u8],
    row: &mut Row,
) -> Result<bool, TreeError>
    requires begun { txn_pages txn.now ≡ count_of pages.old }
    requires short { length from.now ≤ 1024 }
    requires under { IsUnderParts from.now }
    ensures looks { Looks (λ m found. IsPartFrom found from.now row.new m) (λ m. Unit {0}) txn.now pages.old pages.new result }
    ensures under { IfOk result (λ found. found ≡ true → IsUnderParts row.new.key) }
{
    if !first_from(txn, pages, from, row)? {
        return Ok(false);
    }
    Ok(row.key.as_slice().starts_with(Key::parts().as_slice()))
}

/// Parses the row of a part; `None` for any other row.
pub(crate) fn read_part(row: &Row) -> Option<Part>
    ensures { ReadsPart row.now result }
{
    let Some(plan) = plan_in(row.key.as_slice()) else {
        return None;
    };
    match read_chunks(row.value.as_slice()) {
        None => None,
        Some(numbers) => Some(Part { plan, numbers }),
    }
}

/// Whether a part of this plan names this chunk at this place too.
pub(crate) fn names_too(part: &Part, plan: u64, place: usize, number: u64) -> bool
    ensures { result ≡ true → IsNamedAt part.now plan place number }
{
    let numbers = part.numbers.as_slice();
    if part.plan != plan {
        return false;
    }
    if place >= numbers.len() {
        return false;
    }
    numbers[place] == number
}
