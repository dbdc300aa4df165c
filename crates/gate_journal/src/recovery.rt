//! What an open gate left behind is brought home.
ghost use Rattle.std.specs.Prelude.{◌≡◌, ◌+◌, ◌≤◌, ◌<◌, ◌/◌};
ghost use Rattle.sector_device.specs.Disk.{Only};
ghost use Rattle.gate_journal.specs.claim.Store.{list_word};
ghost use Rattle.gate_journal.specs.Steps.{TakesStep};
ghost use Rattle.gate_journal.specs.Recovery.{Copied, HasListOf, LooksAt, NamesPages, OpensSo, SectorNames, Tells};
ghost use Rattle.gate_journal.specs.Outcomes.{CopiesListed, BringsHome};

use crate::error::PageError;
use crate::layout::{Layout, copies_begin, homes_begin};
use crate::steps::set_gate;
use crate::words::word_at;
use sector_device::{DeviceFault, SECTOR_SIZE, Sector, SectorDevice};

/// Reads a word of the list.
pub fn list_entry<D: SectorDevice>(device: &mut D, k: u32) -> Result<u32, DeviceFault>
    requires { 2 + k / 1024 < (D.disk device.old).sectors }
    ensures { LooksAt (λ n. n ≡ list_word (D.disk device.old).reads k) (D.disk device.old) (D.disk device.new) result }
{
    let mut sector = [0; SECTOR_SIZE];
    device.read(2 + k / 1024, &mut sector)?;
    Ok(word_at(&sector, (k % 1024) as usize))
}

/// Whether the words of a sector of the list, of which the first is the `from`-th, name pages of the store.
fn names_pages(sector: &Sector, from: u32, count: u32, pages: u32) -> bool
    requires from { from ≤ count }
    requires limit { count ≤ 65536 }
    ensures { Tells result (SectorNames from count pages sector.now 1024) }
{
    for j in 0..1024 {
        let k = from + j;
        if k >= 1 && k <= count && word_at(sector, j as usize) >= pages {
            return false;
        }
    }
    true
}

/// Whether each page that the list names is one of the store's.
pub fn list_fits<D: SectorDevice>(
    device: &mut D,
    layout: Layout,
    count: u32,
) -> Result<bool, DeviceFault>
    requires { HasListOf layout count (D.disk device.old).sectors }
    ensures { LooksAt (λ named. Tells named (NamesPages count layout.pages (D.disk device.old).reads)) (D.disk device.old) (D.disk device.new) result }
{
    let mut sector = [0; SECTOR_SIZE];
    for s in 0..count / 1024 + 1 {
        device.read(2 + s, &mut sector)?;
        if !names_pages(&sector, 1024 * s, count, layout.pages) {
            return Ok(false);
        }
    }
    Ok(true)
}

/// Copies a sector.
fn copy_sector<D: SectorDevice>(device: &mut D, from: u32, to: u32) -> Result<(), DeviceFault>
    requires from { from < (D.disk device.old).sectors }
    requires to { to < (D.disk device.old).sectors }
    ensures { TakesStep (Only to) (Copied from to (D.disk device.old)) (D.disk device.old) (D.disk device.new) result }
{
    let mut sector = [0; SECTOR_SIZE];
    device.read(from, &mut sector)?;
    device.write(to, &sector)
}

/// Writes each copy to its page.
fn copy_back<D: SectorDevice>(device: &mut D, layout: Layout, count: u32) -> Result<(), PageError>
    requires { HasListOf layout count (D.disk device.old).sectors }
    ensures { OpensSo (CopiesListed count layout) (D.disk device.old) (D.disk device.new) result }
{
    let first_copy = copies_begin!(layout.journal_pages);
    let home = first_copy + layout.journal_pages;
    for k in 0..count {
        let page = list_entry(device, k + 1)?;
        if page >= layout.pages {
            return Err(PageError::NotAStore);
        }
        copy_sector(device, first_copy + k, home + page)?;
    }
    Ok(())
}

/// Completes the commit of an open gate, and shuts the gate.
pub fn bring_back<D: SectorDevice>(
    device: &mut D,
    layout: Layout,
    count: u32,
) -> Result<(), PageError>
    requires { HasListOf layout count (D.disk device.old).sectors }
    ensures { OpensSo (BringsHome count layout) (D.disk device.old) (D.disk device.new) result }
{
    copy_back(device, layout, count)?;
    device.sync()?;
    set_gate(device, 0)?;
    Ok(())
}
