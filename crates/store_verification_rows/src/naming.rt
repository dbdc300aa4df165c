//! The first row that is wrong.
ghost use Rattle.std.specs.Prelude.{◌≡◌};
ghost use Rattle.page_store.specs.claim.Transactions.{count_of, txn_pages, IsQuiet};

use crate::seen::Seen;
use crate::wrong::WrongRow;
use btree_scan::{Row, row_limit, scan};
use desk_model::ranges::CountyRange;
use desk_store_pages::TreeError;
use page_store::{Pages, Txn};
use sector_device::SectorDevice;
use std::alloc::Global;

/// What a row's key begins with.
fn tag_of(row: &Row) -> u8 {
    let key = row.key.as_slice();
    if key.is_empty() {
        return 0;
    }
    key[0]
}

/// A row that is wrong, if one is found among those that the transaction reads: the first in the order of keys. None where the device
/// failed, too. `ranges` are the counties, none where they can't be read. The error is `Memory`.
pub fn first_wrong<D: SectorDevice>(
    alloc: Global,
    txn: &Txn,
    pages: &mut Pages<D>,
    ranges: &[CountyRange],
) -> Result<Option<WrongRow>, TreeError>
    requires begun { txn_pages txn.now ≡ count_of pages.old }
    ensures quiet { IsQuiet pages.old pages.new }
{
    let mut seen = Seen::new(alloc);
    let mut scan = scan(&[]);
    let mut row = Row::empty();
    for taken in 0..row_limit(txn) {
        if !scan.next(txn, pages, &mut row) {
            return match scan.fault() {
                None => Ok(seen.left_before(b'z')),
                Some(_) => Ok(None),
            };
        }
        if let Some(left) = seen.left_before(tag_of(&row)) {
            return Ok(Some(left));
        }
        match seen.see(ranges, &row) {
            Ok(None) => {}
            Ok(Some(wrong)) => {
                return Ok(Some(WrongRow {
                    wrong,
                    key: row.key,
                }));
            }
            Err(_) => return Err(TreeError::Memory),
        }
    }
    Ok(None)
}
