//! Reads which chunks a revision names.
ghost use Rattle.std.specs.Prelude.{◌≡◌, ◌^◌};
ghost use Rattle.page_store.specs.claim.Transactions.{count_of, txn_pages};
ghost use Rattle.plan_revisions_sweeps.specs.chunk_table.Appended.{AppendsRows};
ghost use Rattle.plan_revisions_sweeps.specs.chunk_table.Parts.{BeginsPart};
ghost use Rattle.plan_revisions.specs.RevisionReading.{AppendsNames, AppendsParts, AreNames, names_in};

use desk_store_pages::{TreeError, read_row};
use desk_store_rows::{Key, PART_CHUNKS, read_chunks};
use page_btree::VALUE_LIMIT;
use page_store::{Pages, Txn};
use plan_revisions_sweeps::part_length;
use sector_device::SectorDevice;

/// Appends one part of the numbers of a revision's `count` chunks.
fn append_part<D: SectorDevice>(
    txn: &Txn,
    pages: &mut Pages<D>,
    plan: u64,
    revision: u32,
    count: usize,
    index: usize,
    into: &mut Vec<u64>,
) -> Result<(), TreeError>
    requires begun { txn_pages txn.now ≡ count_of pages.old }
    requires place { BeginsPart 128 (2 ^ 8) count index }
    ensures { AppendsRows (AreNames plan revision count) (names_in index) (AppendsNames plan revision count index)
        txn.now pages.old pages.new into.old.items into.new.items result }
{
    let mut bytes = [0; VALUE_LIMIT];
    let length = read_row(
        txn,
        pages,
        &Key::part(plan, revision, index as u8),
        &mut bytes,
    )?;
    let Some(part) = read_chunks(&bytes[..length]) else {
        return Err(TreeError::NotAStore);
    };
    if part.len() != part_length(count, PART_CHUNKS, index) {
        return Err(TreeError::NotAStore);
    }
    match into.extend_from_slice(part.as_slice()) {
        Ok(_) => Ok(()),
        Err(_) => Err(TreeError::Memory),
    }
}

/// Appends the numbers of a revision's `count` chunks. After an error the list may contain some of
/// them. `NotAStore` comes also if the store has no such revision, since none has more than 32,768
/// chunks, and `Memory` if the list could not grow.
pub fn append_names<D: SectorDevice>(
    txn: &Txn,
    pages: &mut Pages<D>,
    plan: u64,
    revision: u32,
    count: usize,
    into: &mut Vec<u64>,
) -> Result<(), TreeError>
    requires begun { txn_pages txn.now ≡ count_of pages.old }
    ensures { AppendsRows (AreNames plan revision count) (λ numbers. numbers) (AppendsParts plan revision count)
        txn.now pages.old pages.new into.old.items into.new.items result }
{
    if count > PART_CHUNKS * 256 {
        return Err(TreeError::NotAStore);
    }
    let parts = (count + (PART_CHUNKS - 1)) / PART_CHUNKS;
    for index in 0..parts {
        append_part(txn, pages, plan, revision, count, index, into)?;
    }
    Ok(())
}
