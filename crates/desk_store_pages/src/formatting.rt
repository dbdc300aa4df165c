//! Makes a device a store without geography and plans.
ghost use Rattle.std.specs.Prelude.{OnOk};
ghost use Rattle.page_store.specs.Formats.{FormatsDevice, IsJournalSize};
ghost use Rattle.page_btree.specs.gets.Map.{IsOnlyRow};
ghost use Rattle.desk_store_rows.specs.claim.Keys.{key_of, version, in_four};
ghost use Rattle.desk_store_pages.specs.Formats.{FormatErr, OpensNew, HasJournal};

use crate::error::StoreError;
use desk_store_rows::Key;
use page_btree::write_first_row;
use sector_device::{SECTOR_SIZE, Sector, SectorDevice};
use std::alloc::Global;

/// Writes the page of a store without any row but that of its version.
fn write_version(page: &mut Sector)
    ensures { IsOnlyRow page.new (key_of version) (in_four 2) }
{
    let key = Key::version();
    write_first_row(page, key.as_slice(), &[0, 0, 0, 2]);
}

/// Formats a device as a store of version 2 with `journal_pages` journal pages, 256 to 65,536,
/// whose desk has no geography and no plans. What the device held is gone. A crash before the end
/// is not covered: format the device again. After `TooSmall` and `Memory` the device is unchanged.
pub fn format<D: SectorDevice>(
    alloc: Global,
    device: &mut D,
    journal_pages: u32,
) -> Result<(), StoreError>
    requires { IsJournalSize journal_pages }
    ensures formats { FormatsDevice D.SectorDevice journal_pages (FormatErr D.SectorDevice journal_pages device.old device.new) device.old device.new result }
    ensures new { (D.disk device.new).is_honest → OnOk result (OpensNew (D.disk device.new)) }
    ensures journal { (D.disk device.new).is_honest → OnOk result (HasJournal journal_pages (D.disk device.new)) }
{
    let mut root = [0; SECTOR_SIZE];
    write_version(&mut root);
    page_store::format_with(alloc, device, journal_pages, &root)?;
    Ok(())
}
