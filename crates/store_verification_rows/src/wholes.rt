//! Checks that each row's key is that of a row, that parts of revisions and pieces of chunks say what they have, and that rows belong to
//! their store.
ghost use Rattle.std.specs.Prelude.{◌≡◌, ◌<◌, true, false};
ghost use Rattle.page_store.specs.claim.Transactions.{count_of, txn_pages};
ghost use Rattle.page_btree.specs.gets.Tests.{IsTest};
ghost use Rattle.desk_store_rows.specs.claim.Tidy.{IsPart, IsPiece};
ghost use Rattle.store_verification_rows.specs.Strays.{IsChecked};
ghost use Rattle.store_verification_rows.specs.Wholes.{AllSay, IsRowOf, IsWhole};
ghost use Rattle.desk_store_pages.specs.Looking.{Looks};

use crate::hints::Hints;
use crate::strays::judge;
use crate::wrong::{Wrong, WrongRow};
use btree_scan::{Row, row_limit, scan};
use byte_stream::progress::Progress;
use desk_model::ranges::CountyRange;
use desk_store_pages::TreeError;
use desk_store_rows::{PIECE_DISTRICTS, RowKey, read_chunks};
use page_store::{Pages, Txn};
use sector_device::SectorDevice;

/// Whether a value is that of a part of a revision.
fn is_part(value: &[u8]) -> bool
    ensures { IsTest result (IsPart value.now) }
{
    match read_chunks(value) {
        None => false,
        Some(_) => true,
    }
}

/// Whether a value is that of a piece of a chunk: two bytes for each of 1 to 512 districts, whichever they are.
fn is_piece(value: &[u8]) -> bool
    ensures { IsTest result (IsPiece value.now) }
{
    let count = value.len() / 2;
    if count == 0 || count > PIECE_DISTRICTS || value.len() != 2 * count {
        return false;
    }
    true
}

/// Whether a row's key is that of one, and a part or a piece says what it has.
fn is_whole(key: &[u8], value: &[u8]) -> bool
    ensures yes { result ≡ true → IsWhole (key.now, value.now) }
    ensures no { result ≡ false → IsRowOf (key.now, value.now) → ⊥ }
{
    match RowKey::read(key) {
        None => false,
        Some(RowKey::Part { .. }) => is_part(value),
        Some(RowKey::Chunk { .. }) => is_piece(value),
        Some(_) => true,
    }
}

/// What was found of all rows: how many there are, or the first that doesn't belong to the store, with no count.
#[derive(Drop)]
pub struct Checked {
    pub rows: u64,
    pub stray: Option<WrongRow>,
}

/// Reads all rows, up to the first that doesn't belong to the store: how many there are. `ranges` are the counties. Refuses one whose key
/// is that of none, and a part or a piece that doesn't say what it has. `progress` hears of each row.
pub fn check_rows<D: SectorDevice, P: Progress>(
    txn: &Txn,
    pages: &mut Pages<D>,
    ranges: &[CountyRange],
    hints: &Hints,
    progress: &mut P,
) -> Result<Checked, TreeError>
    requires begun { txn_pages txn.now ≡ count_of pages.old }
    ensures { Looks (λ m checked. IsChecked checked.stray checked.rows ranges.now m) AllSay txn.now pages.old pages.new result }
{
    let mut scan = scan(&[]);
    let mut part = Row::empty();
    for taken in 0..row_limit(txn) {
        if !scan.advance(txn, pages) {
            match scan.fault() {
                None => {
                    return Ok(Checked {
                        rows: taken,
                        stray: None,
                    });
                }
                Some(fault) => return Err(fault),
            }
        }
        let key = scan.key();
        let value = scan.value();
        if !is_whole(key, value) {
            return Err(TreeError::NotAStore);
        }
        match judge(txn, pages, &mut part, ranges, hints, key, value)? {
            None => {}
            Some(wrong) => {
                return Ok(Checked {
                    rows: 0,
                    stray: Some(WrongRow::of(wrong, key)),
                });
            }
        }
        progress.note(taken);
    }
    Err(TreeError::NotAStore)
}
