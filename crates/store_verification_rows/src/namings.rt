//! Which parts of revisions name a chunk.
ghost use Rattle.std.specs.Prelude.{◌≡◌, ◌≤◌, ◌+◌, ◌*◌, [], Some, true, false, length, IfSome};
ghost use Rattle.std.specs.FinMap.{get as row_at};
ghost use Rattle.page_store.specs.claim.Transactions.{count_of, txn_pages};
ghost use Rattle.page_btree.specs.gets.Tests.{IsTest};
ghost use Rattle.store_verification_rows.specs.Strays.{HasPiece, Holds, IsAny, IsNamed, IsNamedAs, IsNaming, NamesAt};
ghost use Rattle.desk_store_pages.specs.Looking.{Looks};

use btree_scan::{Row, row_limit, scan};
use desk_model::ranges::CountyRange;
use desk_store_pages::TreeError;
use desk_store_rows::{Key, RowKey, read_chunks};
use page_btree::{VALUE_LIMIT, get};
use page_store::{Pages, Txn};
use sector_device::SectorDevice;

/// Whether the county at a place has blocks for a piece of a chunk.
fn has_piece(ranges: &[CountyRange], county: usize, piece: u16) -> bool
    ensures { IsTest result (HasPiece ranges.now county piece) }
{
    if county >= ranges.len() {
        return false;
    }
    512 * (piece as u64) < ranges[county].count as u64
}

/// Whether a chunk is this one, for a county that has the piece.
fn is_this(there: u64, county: usize, number: u64, piece: u16, ranges: &[CountyRange]) -> bool
    ensures yes { result ≡ true → (there ≡ number) × HasPiece ranges.now county piece }
    ensures no { result ≡ false → there ≡ number → HasPiece ranges.now county piece → ⊥ }
{
    if there != number {
        return false;
    }
    has_piece(ranges, county, piece)
}

/// Whether one of the chunks of a part is this one, for a county that has the piece.
fn is_at(numbers: &[u64], index: u8, number: u64, piece: u16, ranges: &[CountyRange]) -> bool
    requires few { length numbers.now ≤ 128 }
    ensures { IsTest result (NamesAt ranges.now numbers.now index number piece) }
{
    for place in 0..numbers.len() {
        if is_this(
            numbers[place],
            128 * index as usize + place,
            number,
            piece,
            ranges,
        ) {
            return true;
        }
    }
    false
}

/// Whether a plan is the one that is looked for, if there is one.
fn is_of(of: Option<u64>, plan: u64) -> bool
    ensures { IsTest result (IfSome of (λ p. p ≡ plan)) }
{
    match of {
        None => true,
        Some(p) => p == plan,
    }
}

/// Whether a row is a part of a revision of the plan, or of any where none is given, that names the chunk for a county with this piece.
fn is_naming(
    key: &[u8],
    value: &[u8],
    ranges: &[CountyRange],
    of: Option<u64>,
    number: u64,
    piece: u16,
) -> bool
    ensures { IsTest result (IsNaming ranges.now of number piece (key.now, value.now)) }
{
    let Some(RowKey::Part { plan, index, .. }) = RowKey::read(key) else {
        return false;
    };
    if !is_of(of, plan) {
        return false;
    }
    let Some(numbers) = read_chunks(value) else {
        return false;
    };
    is_at(numbers.as_slice(), index, number, piece, ranges)
}

/// Whether a row that is held has this key.
fn is_held(part: &Row, key: &Key) -> bool
    ensures { result ≡ true → part.now.key ≡ [] → ⊥ }
{
    let held = part.key.as_slice();
    if held.is_empty() {
        return false;
    }
    held == key.as_slice()
}

/// Holds the row under a key, if there is one: it is looked up unless it is the one that is held.
fn hold_row<D: SectorDevice>(
    txn: &Txn,
    pages: &mut Pages<D>,
    key: &Key,
    part: &mut Row,
) -> Result<bool, TreeError>
    requires begun { txn_pages txn.now ≡ count_of pages.old }
    ensures { Looks (Holds part.old part.new (λ m is. is ≡ true → row_at m part.new.key ≡ Some part.new.value)) IsAny txn.now pages.old pages.new result }
{
    if is_held(part, key) {
        return Ok(true);
    }
    let mut bytes = [0; VALUE_LIMIT];
    match get(txn, pages, key.as_slice(), &mut bytes)? {
        None => Ok(false),
        Some(length) => {
            part.key.set(key.as_slice());
            part.value.set(&bytes[..length]);
            Ok(true)
        }
    }
}

/// Whether the row under a key, if one is given, is such a part. It is held in `part` then, and isn't looked up again for the next chunk
/// that it names.
fn is_named_first<D: SectorDevice>(
    txn: &Txn,
    pages: &mut Pages<D>,
    part: &mut Row,
    first: Option<Key>,
    ranges: &[CountyRange],
    of: Option<u64>,
    number: u64,
    piece: u16,
) -> Result<bool, TreeError>
    requires begun { txn_pages txn.now ≡ count_of pages.old }
    ensures { Looks (Holds part.old part.new (λ m is. is ≡ true → IsNamed ranges.now of number piece m)) IsAny txn.now pages.old pages.new result }
{
    let Some(key) = first else {
        return Ok(false);
    };
    if !hold_row(txn, pages, &key, part)? {
        return Ok(false);
    }
    Ok(is_naming(
        part.key.as_slice(),
        part.value.as_slice(),
        ranges,
        of,
        number,
        piece,
    ))
}

/// Whether there is such a part: all rows are looked at.
fn find_naming<D: SectorDevice>(
    txn: &Txn,
    pages: &mut Pages<D>,
    ranges: &[CountyRange],
    of: Option<u64>,
    number: u64,
    piece: u16,
) -> Result<bool, TreeError>
    requires begun { txn_pages txn.now ≡ count_of pages.old }
    ensures { Looks (IsNamedAs ranges.now of number piece) IsAny txn.now pages.old pages.new result }
{
    let mut scan = scan(&[]);
    let mut row = Row::empty();
    for taken in 0..row_limit(txn) {
        if !scan.next(txn, pages, &mut row) {
            match scan.fault() {
                None => return Ok(false),
                Some(fault) => return Err(fault),
            }
        }
        if is_naming(
            row.key.as_slice(),
            row.value.as_slice(),
            ranges,
            of,
            number,
            piece,
        ) {
            return Ok(true);
        }
    }
    Err(TreeError::NotAStore)
}

/// Whether there is such a part. The key of one that may be it is looked up first.
pub(crate) fn is_named<D: SectorDevice>(
    txn: &Txn,
    pages: &mut Pages<D>,
    part: &mut Row,
    first: Option<Key>,
    ranges: &[CountyRange],
    of: Option<u64>,
    number: u64,
    piece: u16,
) -> Result<bool, TreeError>
    requires begun { txn_pages txn.now ≡ count_of pages.old }
    ensures { Looks (Holds part.old part.new (IsNamedAs ranges.now of number piece)) IsAny txn.now pages.old pages.new result }
{
    if is_named_first(txn, pages, part, first, ranges, of, number, piece)? {
        return Ok(true);
    }
    find_naming(txn, pages, ranges, of, number, piece)
}
