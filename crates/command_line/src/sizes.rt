//! How large a store has to be for what it will contain, by the formula of docs/dev/STORE-FORMAT.md.
ghost use Rattle.std.specs.Prelude.{◌≡◌, ◌≤◌, ◌*◌, IfSome};
ghost use Rattle.command_line.specs.Options.{IsSize};
ghost use Rattle.command_line.specs.Sizes.{few_enough, free_for, geography_pages as geography_for, revision_pages as revision_for, size_reckoned, IsStateSize};

use crate::options::Size;

/// The most sectors that a store has.
const MOST_SECTORS: u64 = 4_294_967_295;

/// A product, where it is no more than a store has sectors.
fn times(first: u64, second: u64) -> Option<u64>
    ensures { result ≡ few_enough (first * second) }
{
    let product = first.checked_mul(second)?;
    if product > MOST_SECTORS {
        return None;
    }
    Some(product)
}

/// What has to be free for a whole revision to be accepted: 13 pages for each row that it writes.
fn free_pages(blocks: u64, counties: u64) -> u64
    requires { IsStateSize blocks counties }
    ensures value { result ≡ free_for blocks counties }
    ensures few { result ≤ 65754 }
{
    13 * (blocks / 512 + counties + (counties + 127) / 128 + 2 + 2 * counties)
}

/// The pages of a whole revision.
fn revision_pages(blocks: u64, counties: u64) -> u64
    requires { IsStateSize blocks counties }
    ensures { result ≡ revision_for blocks counties }
{
    let rows = blocks / 512 + counties;
    (2 * blocks + 14 * rows + 40 * counties + 3_054) / 3_055 + (counties + 127) / 128
}

/// The pages of the blocks and their neighbours.
fn geography_pages(blocks: u64) -> u64
    requires { blocks ≤ 1048576 }
    ensures value { result ≡ geography_for blocks }
    ensures few { result ≤ 28039 }
{
    (blocks + 119) / 120 + (3 * blocks + 162) / 163
}

/// Returns the size of a store for this many blocks, counties, plans, and whole revisions of each
/// plan. `None` if that is more than 4,294,967,295 sectors or 65,536 journal pages.
pub fn size_for(blocks: u32, counties: u32, plans: u32, revisions: u32) -> Option<Size>
    requires state { IsStateSize blocks counties }
    requires plans { plans ≤ 65535 }
    requires some { 1 ≤ plans }
    ensures value { result ≡ size_reckoned blocks counties plans revisions }
    ensures valid { IfSome result IsSize }
{
    let (blocks, counties, plans) = (blocks as u64, counties as u64, plans as u64);
    let free = free_pages(blocks, counties);
    let journal = free.max(256);
    if journal > 65_536 {
        return None;
    }
    let revision = revision_pages(blocks, counties);
    let revisions = times(plans, times(revisions as u64, revision)?)?;
    let geography = geography_pages(blocks);
    let pages = 1 + geography + revisions + 2 * plans + free;
    let least = 2 + (journal + 1_024) / 1_024 + journal + pages;
    let sectors = least + (least + 99) / 100;
    if sectors > MOST_SECTORS {
        return None;
    }
    Some(Size {
        sectors: sectors as u32,
        journal_pages: journal as u32,
    })
}
