//! Reads the sealed geography of a store.
ghost use Rattle.std.specs.Prelude.{◌≡◌, ◌<◌, ◌^◌, MatchResult};
ghost use Rattle.page_store.specs.claim.Transactions.{count_of, txn_pages};
ghost use Rattle.desk_store_rows.specs.claim.GeographyRows.{IsGeography};
ghost use Rattle.desk_store_pages.specs.Looking.{Gathers, Says};
ghost use Rattle.geo_tables.specs.Elements.{GeographyErr, IsGeographyRead, IsReadBy, IsSealedAs, IsSealRead, IsSealRow};

use crate::checks::are_blocks;
use crate::ranges::code_fits;
use crate::reads::read_elements;
use desk_model::block::BlockRow;
use desk_model::geography::{Geography, Pair};
use desk_store_pages::{TreeError, get_row};
use desk_store_rows::{Key, SealRow};
use page_store::{Pages, Txn};
use sector_device::SectorDevice;
use std::alloc::Global;

/// A number of 64 bits is in its range.
fn number_fits(number: u64)
    ensures { number < 2 ^ 64 }
{}

/// The numbers of a seal are in their ranges.
fn seal_fits(sealed: &SealRow)
    ensures { IsSealRow sealed.now }
{
    number_fits(sealed.load);
    code_fits(sealed.blocks);
    code_fits(sealed.pairs);
}

/// The geography of these blocks and pairs, where they are one.
fn geography_of(
    alloc: Global,
    blocks: Vec<BlockRow>,
    pairs: Vec<Pair>,
) -> Result<Geography, TreeError>
    ensures { MatchResult result (λ g. g ≡ record { blocks = blocks.items; pairs = pairs.items }) (GeographyErr (record { blocks = blocks.items; pairs = pairs.items })) }
{
    if !are_blocks(blocks.as_slice()) {
        return Err(TreeError::NotAStore);
    }
    match Geography::from_places(alloc, blocks, pairs) {
        Ok(Some(geography)) => Ok(geography),
        Ok(None) => Err(TreeError::NotAStore),
        Err(_) => Err(TreeError::Memory),
    }
}

/// Reads the geography of a seal.
fn read_sealed<D: SectorDevice>(
    alloc: Global,
    txn: &Txn,
    pages: &mut Pages<D>,
    sealed: &SealRow,
) -> Result<Geography, TreeError>
    requires begun { txn_pages txn.now ≡ count_of pages.old }
    ensures { Gathers (IsReadBy (IsSealRead sealed.now) (IsSealedAs sealed.now)) (Says (IsSealedAs sealed.now)) txn.now pages.old pages.new result }
{
    let blocks: Vec<BlockRow> = read_elements(alloc, txn, pages, sealed.load, sealed.blocks)?;
    let pairs: Vec<Pair> = read_elements(alloc, txn, pages, sealed.load, sealed.pairs)?;
    geography_of(alloc, blocks, pairs)
}

/// The sealed geography of a store, or none. An error is `Memory` from a growth, `NotAStore`, where what is read is no
/// store's, `DeviceFault` or `Halted`.
pub fn geography<D: SectorDevice>(
    alloc: Global,
    txn: &Txn,
    pages: &mut Pages<D>,
) -> Result<Option<Geography>, TreeError>
    requires begun { txn_pages txn.now ≡ count_of pages.old }
    ensures { Gathers (IsReadBy IsGeographyRead IsGeography) (Says IsGeography) txn.now pages.old pages.new result }
{
    let found: Option<SealRow> = get_row(txn, pages, &Key::seal())?;
    match found {
        None => Ok(None),
        Some(sealed) => {
            seal_fits(&sealed);
            let geography = read_sealed(alloc, txn, pages, &sealed)?;
            Ok(Some(geography))
        }
    }
}
