//! Makes a transaction's rows lasting.
ghost use Rattle.std.specs.Prelude.{◌≡◌, ◌≤◌, ◌+◌, false};
ghost use Rattle.page_store.specs.claim.Transactions.{count_of, has_halted, txn_pages, txn_writes, journal_of};
ghost use Rattle.page_store.specs.claim.Transactions.{prepared_pages};
ghost use Rattle.desk_store_pages.specs.Calls.{PreparesRows, CommitsRows, CommitsTxn, CommitsFitting};

use crate::error::StoreError;
use page_store::{PageError, Pages, Prepared, Txn};
use sector_device::SectorDevice;

/// Makes a transaction ready to be committed: all the memory that its commit needs is taken here.
pub fn prepare(txn: Txn) -> Result<Prepared, PageError>
    ensures { PreparesRows txn result }
{
    txn.prepare()
}

/// Writes the pages of a transaction, all of them or none. It takes no memory. A stop at any moment of it leaves the map before
/// or the map after.
pub fn commit<D: SectorDevice>(prepared: Prepared, pages: &mut Pages<D>) -> Result<(), PageError>
    requires { prepared_pages prepared ≡ count_of pages.old }
    ensures { CommitsRows prepared pages.old pages.new result }
{
    prepared.commit(pages)
}

/// Prepares a transaction and commits it at once. A stop at any moment of it leaves the desk before or the desk that the
/// transaction reads, each in its version.
pub fn commit_txn<D: SectorDevice>(txn: Txn, pages: &mut Pages<D>) -> Result<(), PageError>
    requires { txn_pages txn ≡ count_of pages.old }
    ensures { CommitsTxn txn pages.old pages.new result }
{
    let prepared = prepare(txn)?;
    commit(prepared, pages)
}

/// Commits a transaction for whose pages the journal has room. A stop at any moment of it leaves the desk before or the desk that the
/// transaction reads, each in its version.
pub fn commit_fitting<D: SectorDevice>(txn: Txn, pages: &mut Pages<D>) -> Result<(), StoreError>
    requires begun { txn_pages txn ≡ count_of pages.old }
    requires working { has_halted pages.old ≡ false }
    requires few { txn_writes txn + 1 ≤ journal_of pages.old }
    ensures { CommitsFitting txn pages.old pages.new result }
{
    let prepared = prepare(txn)?;
    commit(prepared, pages)?;
    Ok(())
}
