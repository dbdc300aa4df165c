//! How a store is found again.
ghost use Rattle.std.specs.Prelude.{IfOk, IfSome};
ghost use Rattle.gate_journal.specs.Recovery.{HasRoom, LooksAt, OpensSo, Starts};
ghost use Rattle.gate_journal.specs.Outcomes.{FindsLayout, ClosesGate};

use crate::OPEN;
use crate::error::PageError;
use crate::layout::{Layout, homes_begin};
use crate::recovery::{bring_back, list_entry, list_fits};
use crate::words::{fill_header, word_at};
use sector_device::{DeviceFault, SECTOR_SIZE, SectorDevice};

/// The fewest journal pages, and the most.
pub const LEAST_JOURNAL: u32 = 256;

const MOST_JOURNAL: u32 = 65536;

/// The fewest pages.
pub const LEAST_PAGES: u32 = 64;

/// The layout that the header names, if it is that of a store with this number of sectors.
fn find_layout<D: SectorDevice>(device: &mut D) -> Result<Option<Layout>, DeviceFault>
    ensures looks { LooksAt (FindsLayout (D.disk device.old)) (D.disk device.old) (D.disk device.new) result }
    ensures room { IfOk result (λ found. IfSome found (λ layout. HasRoom (D.disk device.old).sectors layout.journal_pages layout.pages)) }
{
    let count = device.count();
    if count < 1 {
        return Ok(None);
    }
    let mut sector = [0; SECTOR_SIZE];
    device.read(0, &mut sector)?;
    let journal_pages = word_at(&sector, 3);
    if journal_pages < LEAST_JOURNAL || journal_pages > MOST_JOURNAL {
        return Ok(None);
    }
    let home = homes_begin!(journal_pages);
    if count < home + LEAST_PAGES {
        return Ok(None);
    }
    let layout = Layout {
        journal_pages,
        pages: count - home,
    };
    let mut header = [0; SECTOR_SIZE];
    fill_header(&mut header, layout);
    if sector == header {
        Ok(Some(layout))
    } else {
        Ok(None)
    }
}

/// Shuts the gate. If it is open, the interrupted commit is completed first.
fn close_gate<D: SectorDevice>(device: &mut D, layout: Layout) -> Result<(), PageError>
    requires room { HasRoom (D.disk device.old).sectors layout.journal_pages layout.pages }
    ensures { OpensSo (ClosesGate layout) (D.disk device.old) (D.disk device.new) result }
{
    let mut sector = [0; SECTOR_SIZE];
    device.read(1, &mut sector)?;
    if sector[0] != OPEN {
        return Ok(());
    }
    let count = list_entry(device, 0)?;
    if count > layout.journal_pages {
        return Err(PageError::NotAStore);
    }
    if !list_fits(device, layout, count)? {
        return Err(PageError::NotAStore);
    }
    bring_back(device, layout, count)
}

/// Finds the store that a device holds, and closes its gate.
pub fn start<D: SectorDevice>(device: &mut D) -> Result<Layout, PageError>
    ensures opens { OpensSo Starts (D.disk device.old) (D.disk device.new) result }
    ensures room { IfOk result (λ layout. HasRoom (D.disk device.old).sectors layout.journal_pages layout.pages) }
{
    device.sync()?;
    let Some(layout) = find_layout(device)? else {
        return Err(PageError::NotAStore);
    };
    close_gate(device, layout)?;
    Ok(layout)
}
