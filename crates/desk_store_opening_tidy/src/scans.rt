//! Checks rows one after the other.
ghost use Rattle.std.specs.Prelude.{◌≡◌};
ghost use Rattle.page_store.specs.claim.Transactions.{count_of, txn_pages};
ghost use Rattle.desk_store_opening_tidy.specs.Numbers.{AreSoundRows, IsDue};
ghost use Rattle.desk_store_pages.specs.Looking.{Looks};

use crate::rows::{is_past, is_sound};
use btree_scan::{Row, row_limit, scan};
use desk_store_pages::TreeError;
use desk_store_rows::Counters;
use page_store::{Pages, Txn};
use sector_device::SectorDevice;

/// Checks the rows before those of geographies and of chunks' pieces. An error is `NotAStore` if a
/// key is no row's or a row has a number that is next or later, `DeviceFault` or `Halted`.
pub(crate) fn check_rows<D: SectorDevice>(
    txn: &Txn,
    pages: &mut Pages<D>,
    next: Counters,
) -> Result<(), TreeError>
    requires begun { txn_pages txn.now ≡ count_of pages.old }
    ensures { Looks (λ m _. AreSoundRows next m) (IsDue next) txn.now pages.old pages.new result }
{
    let mut scan = scan(&[]);
    let mut row = Row::empty();
    for taken in 0..row_limit(txn) {
        if !scan.next(txn, pages, &mut row) {
            match scan.fault() {
                None => return Ok(()),
                Some(fault) => return Err(fault),
            }
        }
        if is_past(&row) {
            return Ok(());
        }
        if !is_sound(&row, next) {
            return Err(TreeError::NotAStore);
        }
    }
    Err(TreeError::NotAStore)
}
