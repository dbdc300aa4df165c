//! Opens a store for its migration.
ghost use Rattle.std.specs.Prelude.{◌≡◌, false, OnOk, IfErr};
ghost use Rattle.page_store.specs.claim.Transactions.{stored, disk_in, count_of, has_halted};
ghost use Rattle.page_store.specs.Reading.{ReadsOnly};
ghost use Rattle.desk_store_pages.specs.Errors.{IsCalm};
ghost use Rattle.desk_migration.specs.Openings.{AreOfVersion, AreRead, JudgeErr};

use desk_store_opening::{is_new, read_desk};
use desk_store_pages::{StoreError, row_error};
use page_store::Pages;
use sector_device::SectorDevice;
use std::alloc::Global;

/// Judges whether pages hold a desk in the old version.
pub(crate) fn judge<D: SectorDevice>(alloc: Global, pages: &mut Pages<D>) -> Result<(), StoreError>
    requires { has_halted pages.old ≡ false }
    ensures reading { ReadsOnly (JudgeErr pages.old pages.new) pages.old pages.new result }
    ensures version { (disk_in pages.new).is_honest → OnOk result (AreOfVersion false (count_of pages.old) (stored pages.old)) }
    ensures read { (disk_in pages.new).is_honest → OnOk result (AreRead (count_of pages.old) (stored pages.old)) }
    ensures calm { IfErr result (λ e. IsCalm pages.new e) }
{
    let txn = pages.begin(alloc);
    match read_desk(alloc, &txn, pages) {
        Ok(_) => {}
        Err(e) => return Err(row_error(e, pages.is_halted())),
    }
    match is_new(&txn, pages) {
        Ok(false) => Ok(()),
        Ok(true) => Err(StoreError::AlreadyNew),
        Err(e) => Err(row_error(e, pages.is_halted())),
    }
}
