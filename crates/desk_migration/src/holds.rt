//! Has plans hold the chunks that they name.
ghost use Rattle.std.specs.Prelude.{◌≡◌};
ghost use Rattle.page_store.specs.claim.Transactions.{count_of, txn_pages};
ghost use Rattle.desk_migration.specs.Parts.{IsUnderParts};
ghost use Rattle.desk_migration.specs.Walks.{StandsUnder};
ghost use Rattle.desk_migration.specs.Outcomes.{HoldsAlong, HoldsNext, HoldsPairs};

use crate::walks::{UnheldCursor, next_pair};
use desk_store_opening::hold_unheld_with;
use desk_store_pages::{Fingers, TreeError};
use desk_store_rows::migrations::named_is_held;
use page_btree::SmallBytes;
use page_store::{Pages, Txn};
use sector_device::SectorDevice;

/// How many pairs of a plan and a chunk one step has held at most.
pub(crate) const PAIRS: usize = 8;

/// Has the next plan hold the next chunk that it names and doesn't hold, if there is one.
fn hold_next<D: SectorDevice>(
    txn: &mut Txn,
    pages: &mut Pages<D>,
    fingers: &mut Fingers,
    walk: &mut UnheldCursor,
) -> Result<bool, TreeError>
    requires begun { txn_pages txn.old ≡ count_of pages.old }
    requires under { StandsUnder walk.old }
    ensures under { StandsUnder walk.new }
    ensures holds { HoldsNext fingers.old fingers.new walk.old walk.new txn.old txn.new pages.old pages.new result }
{
    named_is_held();
    match next_pair(txn, pages, walk)? {
        None => Ok(false),
        Some(pair) => {
            hold_unheld_with(txn, pages, fingers, pair.plan, pair.number)?;
            Ok(true)
        }
    }
}

/// Has plans hold chunks that they name, 8 pairs at most: how many there were. Fewer come only where none is left.
fn hold_along<D: SectorDevice>(
    txn: &mut Txn,
    pages: &mut Pages<D>,
    walk: &mut UnheldCursor,
) -> Result<usize, TreeError>
    requires begun { txn_pages txn.old ≡ count_of pages.old }
    requires under { StandsUnder walk.old }
    ensures under { StandsUnder walk.new }
    ensures holds { HoldsAlong walk.old walk.new txn.old txn.new pages.old pages.new result }
{
    let mut fingers = Fingers::none();
    for held in 0..PAIRS {
        if !hold_next(txn, pages, &mut fingers, walk)? {
            return Ok(held);
        }
    }
    Ok(PAIRS)
}

/// The same from a key on, which goes on to that of the part that comes next.
pub(crate) fn hold_pairs<D: SectorDevice>(
    txn: &mut Txn,
    pages: &mut Pages<D>,
    from: &mut SmallBytes,
) -> Result<usize, TreeError>
    requires begun { txn_pages txn.old ≡ count_of pages.old }
    requires under { IsUnderParts from.old }
    ensures under { IsUnderParts from.new }
    ensures holds { HoldsPairs from.old from.new txn.old txn.new pages.old pages.new result }
{
    let mut walk = UnheldCursor::from_key(from.as_slice());
    let count = hold_along(txn, pages, &mut walk)?;
    from.set(walk.from.as_slice());
    Ok(count)
}
