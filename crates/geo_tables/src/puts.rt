//! Puts the rows of a geography.
ghost use Rattle.std.specs.Prelude.{◌≡◌, ◌≤◌, ◌<◌, ◌+◌, ◌^◌, ◌↔◌, [], ◌∷◌, length, IsTrue, OnOk};
ghost use Rattle.page_store.specs.claim.Transactions.{count_of, txn_pages};
ghost use Rattle.desk_store_rows.specs.claim.Keys.{key_of, block, pair};
ghost use Rattle.desk_store_rows.specs.claim.Values.{block_bytes};
ghost use Rattle.desk_store_rows.specs.claim.Rows.{KeyMap};
ghost use Rattle.desk_store_rows.specs.claim.Puts.{put_rows};
ghost use Rattle.desk_store_rows.specs.claim.GeographyRows.{IsBlockRow, IsStaged, geography_rows, neighbours_bytes};
ghost use Rattle.desk_store_pages.specs.Outcomes.{PutsRows};
ghost use Rattle.geo_tables.specs.Rows.{staged_row, staged_rows};
ghost use Rattle.geo_tables.specs.Staging.{PutsRow, Stages};

use crate::ranges::block_fits;
use desk_model::block::BlockRow;
use desk_model::geography::{Geography, Pair};
use desk_store_pages::{Fingers, TreeError, put_row_with};
use desk_store_rows::{Key, block_value, pair_value};
use page_store::{Pages, Txn};
use sector_device::SectorDevice;

/// Puts the row of a block.
fn put_block<D: SectorDevice>(
    txn: &mut Txn,
    pages: &mut Pages<D>,
    fingers: &mut Fingers,
    load: u64,
    place: u32,
    row: &BlockRow,
) -> Result<(), TreeError>
    requires begun { txn_pages txn.old ≡ count_of pages.old }
    ensures puts { PutsRow fingers.old fingers.new (key_of (block load place), block_bytes row.now) txn.old txn.new pages.old pages.new result }
    ensures fits { IsBlockRow row.now }
{
    block_fits(row);
    put_row_with(
        txn,
        pages,
        fingers,
        &Key::block(load, place),
        &block_value(row),
    )
}

/// Puts the row of a pair of neighbours.
fn put_pair<D: SectorDevice>(
    txn: &mut Txn,
    pages: &mut Pages<D>,
    fingers: &mut Fingers,
    load: u64,
    place: u32,
    neighbours: &Pair,
) -> Result<(), TreeError>
    requires begun { txn_pages txn.old ≡ count_of pages.old }
    ensures { PutsRow fingers.old fingers.new (key_of (pair load place), neighbours_bytes neighbours.now) txn.old txn.new pages.old pages.new result }
{
    let value = pair_value((neighbours.first, neighbours.second));
    put_row_with(txn, pages, fingers, &Key::pair(load, place), &value)
}

/// Puts the row at a place among those of a geography.
fn put_place<D: SectorDevice>(
    txn: &mut Txn,
    pages: &mut Pages<D>,
    fingers: &mut Fingers,
    load: u64,
    geography: &Geography,
    place: usize,
) -> Result<(), TreeError>
    requires begun { txn_pages txn.old ≡ count_of pages.old }
    requires few { length geography.now.pairs < 2 ^ 32 }
    requires within { place < geography_rows geography.now }
    ensures puts { PutsRow fingers.old fingers.new (staged_row load geography.now place) txn.old txn.new pages.old pages.new result }
    ensures staged { (m : KeyMap) → IsStaged m load geography.now place
        → IsStaged (put_rows m (staged_row load geography.now place ∷ [])) load geography.now (place + 1) }
{
    let blocks = geography.blocks();
    if place < blocks.len() {
        return put_block(txn, pages, fingers, load, place as u32, &blocks[place]);
    }
    let pairs = geography.pairs();
    let after = place - blocks.len();
    put_pair(txn, pages, fingers, load, after as u32, &pairs[after])
}

/// Whether the places of a geography's pairs fit in keys of rows: fewer than 2^32. Its blocks always are few enough.
pub fn has_small_places(geography: &Geography) -> bool
    ensures { IsTrue result ↔ length geography.now.pairs < 2 ^ 32 }
{
    geography.pairs().len() < 0x1_0000_0000
}

/// Puts rows of a geography under a load's number, from a place among its rows on: blocks rising,
/// then pairs rising. The number is one that `begin_rows` returned. After an error the transaction
/// can only be abandoned.
pub fn put_batch<D: SectorDevice>(
    txn: &mut Txn,
    pages: &mut Pages<D>,
    load: u64,
    geography: &Geography,
    done: usize,
    rows: usize,
) -> Result<(), TreeError>
    requires begun { txn_pages txn.old ≡ count_of pages.old }
    requires few { length geography.now.pairs < 2 ^ 32 }
    requires left { done + rows ≤ geography_rows geography.now }
    ensures puts { PutsRows (staged_rows load geography.now done rows) txn.old txn.new pages.old pages.new result }
    ensures staged { OnOk result (Stages load geography.now done rows) }
{
    let _blocks = geography.blocks();
    let mut fingers = Fingers::none();
    for k in 0..rows {
        put_place(txn, pages, &mut fingers, load, geography, done + k)?;
    }
    Ok(())
}
