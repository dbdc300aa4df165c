//! Checks that no row stands after those that are counted.
ghost use Rattle.std.specs.Prelude.{◌≡◌, ◌<◌, ◌^◌};
ghost use Rattle.page_store.specs.claim.Transactions.{count_of, txn_pages};
ghost use Rattle.desk_store_pages.specs.Looking.{Looks};
ghost use Rattle.desk_store_pages.specs.Reading.{StandsAs};
ghost use Rattle.desk_store_rows.specs.claim.Keys.{key_of, seal};
ghost use Rattle.desk_store_rows.specs.claim.Values.{seal_bytes};
ghost use Rattle.desk_store_opening_tidy.specs.Rows.{AreAfterSeal, AreSealCounted, HasCountedSeal, IsSealCounted};
ghost use Rattle.desk_store_opening_tidy.specs.Numbers.{IsDue};

use crate::firsts::refuse_from;
use crate::loads::check_loads;
use desk_store_pages::{TreeError, get_row};
use desk_store_rows::{Counters, Key, SealRow};
use page_store::{Pages, Txn};
use sector_device::SectorDevice;

/// The numbers of a seal's row are in their ranges.
fn seal_fits(row: SealRow)
    ensures load { row.load < 2 ^ 64 }
    ensures blocks { row.blocks < 2 ^ 32 }
    ensures pairs { row.pairs < 2 ^ 32 }
{
    let _load = row.load;
    let _blocks = row.blocks;
    let _pairs = row.pairs;
}

/// Refuses blocks and pairs of neighbours of a load after those that its seal counts.
fn refuse_uncounted<D: SectorDevice>(
    txn: &Txn,
    pages: &mut Pages<D>,
    sealed: SealRow,
) -> Result<(), TreeError>
    requires begun { txn_pages txn.now ≡ count_of pages.old }
    ensures { Looks (λ m _. IsSealCounted m sealed) (λ m. IsSealCounted m sealed) txn.now pages.old pages.new result }
{
    let blocks = Key::blocks(sealed.load);
    let next = Key::block(sealed.load, sealed.blocks);
    refuse_from(txn, pages, &next, blocks.as_slice())?;
    let pairs = Key::pairs(sealed.load);
    let next = Key::pair(sealed.load, sealed.pairs);
    refuse_from(txn, pages, &next, pairs.as_slice())
}

/// The same of the sealed load, if there is one. `sealed` is the seal's row.
fn check_sealed<D: SectorDevice>(
    txn: &Txn,
    pages: &mut Pages<D>,
    sealed: Option<SealRow>,
) -> Result<(), TreeError>
    requires begun { txn_pages txn.now ≡ count_of pages.old }
    ensures { Looks (λ m _. StandsAs seal_bytes (key_of seal) m sealed → AreSealCounted m) (HasCountedSeal sealed) txn.now pages.old pages.new result }
{
    match sealed {
        None => Ok(()),
        Some(row) => {
            seal_fits(row);
            refuse_uncounted(txn, pages, row)
        }
    }
}

/// Refuses rows after the version's that no desk has: of a load that is neither sealed nor begun, after those that the seal
/// counts, of a chunk with the next number or a later one, and after these. `next` is what the row of counters says.
pub(crate) fn check_after<D: SectorDevice>(
    txn: &Txn,
    pages: &mut Pages<D>,
    next: Counters,
) -> Result<(), TreeError>
    requires begun { txn_pages txn.now ≡ count_of pages.old }
    ensures { Looks (λ m _. AreAfterSeal next.chunk m) (IsDue next) txn.now pages.old pages.new result }
{
    let sealed: Option<SealRow> = get_row(txn, pages, &Key::seal())?;
    check_loads(txn, pages, sealed)?;
    check_sealed(txn, pages, sealed)?;
    refuse_from(txn, pages, &Key::chunk_pieces(next.chunk), &[])
}
