//! Checks that the rows of geographies are those of loads that are known.
ghost use Rattle.std.specs.Prelude.{◌≡◌, ◌≤◌, ◌<◌, ◌^◌, true, false, length, None, OnOk, IfSome};
ghost use Rattle.page_store.specs.claim.Transactions.{count_of, txn_pages};
ghost use Rattle.page_btree.specs.gets.Tests.{IsTest};
ghost use Rattle.desk_store_pages.specs.Looking.{Looks};
ghost use Rattle.desk_store_pages.specs.Reading.{StandsAs};
ghost use Rattle.desk_store_rows.specs.claim.Keys.{key_of, seal};
ghost use Rattle.desk_store_rows.specs.Keys.{chunks_prefix};
ghost use Rattle.desk_store_rows.specs.claim.Values.{seal_bytes};
ghost use Rattle.desk_store_rows.specs.claim.Tidy.{AreRows, IsLoad};
ghost use Rattle.desk_store_opening_tidy.specs.Rows.{AreOfLoads, AreOfLoadsTo, ComesBefore, HasKnownLoads, IsKnownLoad, IsNextLoad, IsPast, after_load};
ghost use Rattle.desk_store_opening_tidy.specs.claim.Rows.{IsFrom};

use crate::firsts::first_from;
use crate::keys::load_in;
use crate::marks::refuse_unmarked;
use btree_scan::{Row, row_limit};
use desk_store_pages::TreeError;
use desk_store_rows::{Key, SealRow};
use page_btree::SmallBytes;
use page_store::{Pages, Txn};
use sector_device::SectorDevice;

/// A key after all rows of a load.
fn key_after(load: u64) -> Key
    ensures { result ≡ after_load load }
{
    Key::load(load).then(b"q")
}

/// Returns whether a key is a chunk's, or comes after all of these.
fn is_chunk(key: &[u8]) -> bool
    ensures { IsTest result (IsFrom chunks_prefix key.now) }
{
    !key.is_empty() && key[0] >= b'k'
}

/// Returns the load of the first row after the version's from a key on; `None` if only rows of
/// chunks follow, or none.
fn load_from<D: SectorDevice>(
    txn: &Txn,
    pages: &mut Pages<D>,
    key: &[u8],
) -> Result<Option<u64>, TreeError>
    requires begun { txn_pages txn.now ≡ count_of pages.old }
    requires short { length key.now ≤ 1024 }
    requires past { IsPast key.now }
    ensures { Looks (IsNextLoad key.now) AreRows txn.now pages.old pages.new result }
{
    let mut row = Row::empty();
    let found = first_from(txn, pages, key, &mut row)?;
    if !found {
        return Ok(None);
    }
    if is_chunk(row.key.as_slice()) {
        return Ok(None);
    }
    match load_in(row.key.as_slice()) {
        None => Err(TreeError::NotAStore),
        Some(load) => Ok(Some(load)),
    }
}

/// Whether a load is the sealed one, whose row this is, if there is one.
fn is_sealed(sealed: Option<SealRow>, load: u64) -> bool
    ensures sealed { result ≡ true → IfSome sealed (λ row. row.load ≡ load) × (sealed ≡ None → ⊥) }
    ensures other { result ≡ false → IfSome sealed (λ row. (row.load < 2 ^ 64) × (row.load ≡ load → ⊥)) }
{
    match sealed {
        None => false,
        Some(row) => row.load == load,
    }
}

/// Refuses where a load is neither the sealed one, whose row was read, nor one that was begun.
fn refuse_unknown<D: SectorDevice>(
    txn: &Txn,
    pages: &mut Pages<D>,
    sealed: Option<SealRow>,
    load: u64,
) -> Result<(), TreeError>
    requires begun { txn_pages txn.now ≡ count_of pages.old }
    ensures { Looks (λ m _. StandsAs seal_bytes (key_of seal) m sealed → IsLoad m load) (IsKnownLoad sealed load) txn.now pages.old pages.new result }
{
    if is_sealed(sealed, load) {
        return Ok(());
    }
    refuse_unmarked(txn, pages, &Key::begun(load))
}

/// Goes on from a key to one after the rows of the load that has the next one: whether there is one. Refuses where that load is
/// none that is known.
fn pass_load<D: SectorDevice>(
    txn: &Txn,
    pages: &mut Pages<D>,
    sealed: Option<SealRow>,
    from: &mut SmallBytes,
) -> Result<bool, TreeError>
    requires begun { txn_pages txn.now ≡ count_of pages.old }
    requires past { IsPast from.old }
    ensures looks { Looks (λ m more. StandsAs seal_bytes (key_of seal) m sealed → AreOfLoadsTo from.old m → ComesBefore more from.old from.new m) (HasKnownLoads sealed) txn.now pages.old pages.new result }
    ensures past { OnOk result (IsPast from.new) }
{
    let found = load_from(txn, pages, from.as_slice())?;
    match found {
        None => Ok(false),
        Some(load) => {
            refuse_unknown(txn, pages, sealed, load)?;
            from.set(key_after(load).as_slice());
            Ok(true)
        }
    }
}

/// Rejects the store if a row between the version's and the chunks' belongs to no load that is
/// sealed or was begun. `sealed` is the seal's row, if there is one.
pub(crate) fn check_loads<D: SectorDevice>(
    txn: &Txn,
    pages: &mut Pages<D>,
    sealed: Option<SealRow>,
) -> Result<(), TreeError>
    requires begun { txn_pages txn.now ≡ count_of pages.old }
    ensures { Looks (λ m _. StandsAs seal_bytes (key_of seal) m sealed → AreOfLoads m) (HasKnownLoads sealed) txn.now pages.old pages.new result }
{
    let mut from = SmallBytes::empty();
    from.set(b"W");
    for taken in 0..row_limit(txn) {
        let more = pass_load(txn, pages, sealed, &mut from)?;
        if !more {
            return Ok(());
        }
    }
    Err(TreeError::NotAStore)
}
