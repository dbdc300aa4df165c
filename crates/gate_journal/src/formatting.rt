//! How a store is made.
ghost use Rattle.std.specs.Prelude.{◌≡◌, ◌≤◌, ◌<◌, ◌+◌, true, false};
ghost use Rattle.gate_journal.specs.claim.Store.{home};
ghost use Rattle.gate_journal.specs.Steps.{MayCommit, CommitsOn};
ghost use Rattle.gate_journal.specs.claim.Writes.{writes_of};
ghost use Rattle.gate_journal.specs.Format.{IsJournalSize, FormatsJournal};

use crate::error::PageError;
use crate::layout::{Layout, homes_begin};
use crate::opening::LEAST_PAGES;
use crate::steps::{set_gate, write_through};
use crate::words::fill_header;
use crate::writes::PageWrites;
use sector_device::{DeviceFault, SECTOR_SIZE, SectorDevice};

/// Returns whether at least 64 of `sectors` sectors remain for pages.
pub fn has_room(sectors: u32, journal_pages: u32) -> bool
    requires { journal_pages ≤ 65536 }
    ensures yes { result ≡ true → home journal_pages + 64 ≤ sectors }
    ensures no { result ≡ false → sectors < home journal_pages + 64 }
{
    let home = homes_begin!(journal_pages);
    sectors >= home && sectors - home >= LEAST_PAGES
}

/// Formats a device as a store whose commits may write up to `journal_pages` pages, and returns its
/// layout. The contents of the pages stay as they were. A crash before the end is not covered:
/// format the device again.
pub fn format<D: SectorDevice>(device: &mut D, journal_pages: u32) -> Result<Layout, PageError>
    requires { IsJournalSize journal_pages }
    ensures { FormatsJournal D.SectorDevice journal_pages device.old device.new result }
{
    let home = homes_begin!(journal_pages);
    let count = device.count();
    if count < LEAST_PAGES || count - LEAST_PAGES < home {
        return Err(PageError::TooSmall);
    }
    let layout = Layout {
        journal_pages,
        pages: count - home,
    };
    let mut header = [0; SECTOR_SIZE];
    fill_header(&mut header, layout);
    device.write(0, &header)?;
    set_gate(device, 0)?;
    Ok(layout)
}

/// Writes pages, all or none of them, on a device that is lent: for what makes a store, before it is opened.
pub fn commit_on<D: SectorDevice>(
    device: &mut D,
    layout: Layout,
    writes: &PageWrites,
) -> Result<(), DeviceFault>
    requires { MayCommit layout (writes_of writes.now) (D.disk device.old) }
    ensures { CommitsOn layout (writes_of writes.now) (D.disk device.old) (D.disk device.new) result }
{
    write_through(device, layout, &writes.list)
}
