//! Reads rows that hold one value.
ghost use Rattle.std.specs.Prelude.{◌≡◌, ◌<◌, ◌≤◌, ◌^◌, Option, take, option_map, IfOk, IfSome};
ghost use Rattle.page_store.specs.claim.Transactions.{stored, disk_in, count_of, txn_pages};
ghost use Rattle.page_store.specs.Reading.{ReadsOnly};
ghost use Rattle.page_btree.specs.puts.Fingers.{Stand};
ghost use Rattle.page_btree.specs.gets.claim.Map.{InTxn};
ghost use Rattle.desk_store_rows.specs.claim.Rows.{KeyMap};
ghost use Rattle.desk_store_rows.specs.claim.Tidy.{IsNext};
ghost use Rattle.desk_store_pages.specs.Looking.{Looks};
ghost use Rattle.desk_store_pages.specs.Reading.{HasNext, IsReadAs, ReadErrWith, StandsAs};

use crate::values::RowValue;
use desk_store_rows::{Counters, Key};
use page_btree::{Fingers, TreeError, VALUE_LIMIT, get, get_with};
use page_store::{Pages, Txn};
use sector_device::SectorDevice;

/// Returns the value of a row, or none if the row does not exist. It takes no memory. An error is
/// `NotAStore` if the bytes are no such value, `DeviceFault` or `Halted`.
pub fn get_row<D: SectorDevice, R: RowValue>(
    txn: &Txn,
    pages: &mut Pages<D>,
    key: &Key,
) -> Result<Option<R>, TreeError>
    requires begun { txn_pages txn.now ≡ count_of pages.old }
    ensures { Looks (StandsAs R.bytes_of key.now) (λ m. (value : Option R) × StandsAs R.bytes_of key.now m value)
        txn.now pages.old pages.new result }
{
    let mut bytes = [0; VALUE_LIMIT];
    let found = get(txn, pages, key.as_slice(), &mut bytes)?;
    value_of(&bytes, found)
}

/// The value of a row as `get_row` gives it, where its leaf may be known by one of two fingers.
pub fn get_row_with<D: SectorDevice, R: RowValue>(
    txn: &Txn,
    pages: &mut Pages<D>,
    fingers: &Fingers,
    key: &Key,
) -> Result<Option<R>, TreeError>
    requires begun { txn_pages txn.now ≡ count_of pages.old }
    ensures reading { ReadsOnly (ReadErrWith fingers.now (λ m. (value : Option R) × StandsAs R.bytes_of key.now m value) txn.now pages.old pages.new) pages.old pages.new result }
    ensures get { (disk_in pages.new).is_honest → (m : KeyMap) → InTxn txn.now (stored pages.old) m → Stand txn.now (stored pages.old) fingers.now
        → IfOk result (λ found. StandsAs R.bytes_of key.now m found) }
{
    let mut bytes = [0; VALUE_LIMIT];
    let found = get_with(txn, pages, fingers, key.as_slice(), &mut bytes)?;
    value_of(&bytes, found)
}

/// The value whose bytes were copied to the start of a buffer, if any were.
fn value_of<R: RowValue>(
    bytes: &[u8; VALUE_LIMIT],
    found: Option<usize>,
) -> Result<Option<R>, TreeError>
    requires short { IfSome found (λ length_is. length_is ≤ 1024) }
    ensures { IsReadAs R.bytes_of (option_map (λ length_is. take length_is bytes.now) found) result }
{
    match found {
        None => Ok(None),
        Some(length) => match R::read(&bytes[..length]) {
            None => Err(TreeError::NotAStore),
            Some(value) => Ok(Some(value)),
        },
    }
}

/// The numbers that the next plan, chunk and load get.
pub fn next_numbers<D: SectorDevice>(txn: &Txn, pages: &mut Pages<D>) -> Result<Counters, TreeError>
    requires begun { txn_pages txn.now ≡ count_of pages.old }
    ensures looks { Looks IsNext HasNext txn.now pages.old pages.new result }
    ensures fits { IfOk result (λ next. (next.plan < 2 ^ 64) × (next.chunk < 2 ^ 64) × (next.load < 2 ^ 64)) }
{
    let found: Option<Counters> = get_row(txn, pages, &Key::counters())?;
    match found {
        None => Ok(Counters {
            plan: 0,
            chunk: 0,
            load: 0,
        }),
        Some(next) => Ok(next),
    }
}
