//! The counties that the rows of blocks tell.
ghost use Rattle.std.specs.Prelude.{◌≡◌};
ghost use Rattle.page_store.specs.claim.Transactions.{count_of, txn_pages, IsQuiet};

use btree_scan::{row_limit, scan};
use desk_model::ranges::CountyRange;
use desk_store_pages::get_row;
use desk_store_rows::{Key, SealRow, read_block};
use page_store::{Pages, Txn};
use sector_device::SectorDevice;
use std::alloc::Global;

/// Counties so far, and the number of the last one.
#[derive(Drop)]
struct Counted {
    ranges: Vec<CountyRange>,
    last: u16,
}

impl Counted {
    /// Counts a block of a county. Blocks of one county come one after the other.
    fn count(&mut self, county: u16) -> Option<()> {
        let number = self.ranges.len();
        let mut first = 0;
        if number > 0 {
            let range = &mut self.ranges[number - 1];
            if self.last == county {
                range.count = range.count.wrapping_add(1);
                return Some(());
            }
            first = range.first.wrapping_add(range.count);
        }
        self.last = county;
        match self.ranges.push(CountyRange { first, count: 1 }) {
            Ok(_) => Some(()),
            Err(_) => None,
        }
    }
}

/// The counties of the blocks of a load.
fn counties_of_load<R: SectorDevice>(
    alloc: Global,
    txn: &Txn,
    pages: &mut Pages<R>,
    load: u64,
) -> Option<Vec<CountyRange>>
    requires begun { txn_pages txn.now ≡ count_of pages.old }
    ensures quiet { IsQuiet pages.old pages.new }
{
    let mut counted = Counted {
        ranges: Vec::new(alloc),
        last: 0,
    };
    let prefix = Key::blocks(load);
    let mut scan = scan(prefix.as_slice());
    for taken in 0..row_limit(txn) {
        if !scan.advance(txn, pages) {
            return Some(counted.ranges);
        }
        let block = read_block(scan.value())?;
        counted.count(block.id.county())?;
    }
    None
}

/// The counties of the geography that a transaction reads, none where there is no geography. Nothing rests on them: they are compared.
pub(crate) fn counties_in<R: SectorDevice>(
    alloc: Global,
    txn: &Txn,
    pages: &mut Pages<R>,
) -> Option<Vec<CountyRange>>
    requires begun { txn_pages txn.now ≡ count_of pages.old }
    ensures quiet { IsQuiet pages.old pages.new }
{
    let found: Option<SealRow> = match get_row(txn, pages, &Key::seal()) {
        Ok(found) => found,
        Err(_) => return None,
    };
    match found {
        Some(sealed) => counties_of_load(alloc, txn, pages, sealed.load),
        None => Some(Vec::new(alloc)),
    }
}
