//! The steps of a commit.
ghost use Rattle.std.specs.Prelude.{◌+◌, ◌*◌, ◌/◌, ◌<◌, ◌≤◌, ◌^◌, ℕ, length, [], slice_index_or};
ghost use Rattle.sector_device.specs.Disk.{Only};
ghost use Rattle.gate_journal.specs.Steps.{Span, HasCopies, HasHomes, HasList, HasGate, IsHome, IsStaged, TakesStep, MayCommit, CommitsOn};
ghost use Rattle.gate_journal.specs.Store.{Homes, Staging};
ghost use Rattle.gate_journal.specs.claim.Store.{home};

use crate::OPEN;
use crate::layout::{Layout, copies_begin, homes_begin};
use crate::words::fill_list;
use sector_device::{DeviceFault, SECTOR_SIZE, Sector, SectorDevice};

/// Writes the copies from a sector on.
pub fn write_copies<D: SectorDevice>(
    device: &mut D,
    first: u32,
    writes: &[(u32, Sector)],
) -> Result<(), DeviceFault>
    requires { first + length writes.now ≤ (D.disk device.old).sectors }
    ensures { TakesStep (Span first (length writes.now))
        (HasCopies first writes.now (length writes.now)) (D.disk device.old) (D.disk device.new) result }
{
    for (k, write) in writes.iter().enumerate() {
        device.write(first + k as u32, &write.1)?;
    }
    Ok(())
}

/// Writes the pages to their own sectors, given the sector of page 0.
pub fn write_homes<D: SectorDevice>(
    device: &mut D,
    home: u32,
    writes: &[(u32, Sector)],
) -> Result<(), DeviceFault>
    requires { (k : ℕ) → k < length writes.now → home + (slice_index_or writes.now k (0, [])).0 < (D.disk device.old).sectors }
    ensures { TakesStep (Homes home writes.now) (HasHomes home writes.now (D.disk device.old)) (D.disk device.old) (D.disk device.new) result }
{
    for (k, write) in writes.iter().enumerate() {
        device.write(home + write.0, &write.1)?;
    }
    Ok(())
}

/// Writes them, and then all is on the disk.
pub fn bring_home<D: SectorDevice>(
    device: &mut D,
    home: u32,
    writes: &[(u32, Sector)],
) -> Result<(), DeviceFault>
    requires { (k : ℕ) → k < length writes.now → home + (slice_index_or writes.now k (0, [])).0 < (D.disk device.old).sectors }
    ensures { TakesStep (Homes home writes.now) (IsHome home writes.now (D.disk device.old)) (D.disk device.old) (D.disk device.new) result }
{
    write_homes(device, home, writes)?;
    device.sync()
}

/// Writes the gate, and then all is on the disk.
pub fn set_gate<D: SectorDevice>(device: &mut D, byte: u8) -> Result<(), DeviceFault>
    requires { 1 < (D.disk device.old).sectors }
    ensures { TakesStep (Only 1) (HasGate byte) (D.disk device.old) (D.disk device.new) result }
{
    let mut sector = [0; SECTOR_SIZE];
    sector[0] = byte;
    device.write(1, &sector)?;
    device.sync()
}

/// Writes the list of the pages.
pub fn write_list<D: SectorDevice>(
    device: &mut D,
    writes: &[(u32, Sector)],
) -> Result<(), DeviceFault>
    requires few { length writes.now < 2 ^ 32 }
    requires room { 2 + length writes.now / 1024 < (D.disk device.old).sectors }
    ensures { TakesStep (Span 2 (length writes.now / 1024 + 1))
        (HasList writes.now (length writes.now + 1)) (D.disk device.old) (D.disk device.new) result }
{
    for s in 0..writes.len() / 1024 + 1 {
        let mut sector = [0; SECTOR_SIZE];
        fill_list(&mut sector, writes, 1024 * s);
        device.write(2 + s as u32, &sector)?;
    }
    Ok(())
}

/// Writes the list and the copies, and then both are on the disk.
pub fn stage<D: SectorDevice>(
    device: &mut D,
    journal_pages: u32,
    writes: &[(u32, Sector)],
) -> Result<(), DeviceFault>
    requires few { length writes.now ≤ journal_pages }
    requires room { home journal_pages ≤ (D.disk device.old).sectors }
    ensures { TakesStep (Staging journal_pages) (IsStaged journal_pages writes.now) (D.disk device.old) (D.disk device.new) result }
{
    device.sync()?;
    write_list(device, writes)?;
    write_copies(device, copies_begin!(journal_pages), writes)?;
    device.sync()
}

/// Writes the pages through the journal.
pub fn write_through<D: SectorDevice>(
    device: &mut D,
    layout: Layout,
    writes: &[(u32, Sector)],
) -> Result<(), DeviceFault>
    requires { MayCommit layout writes.now (D.disk device.old) }
    ensures { CommitsOn layout writes.now (D.disk device.old) (D.disk device.new) result }
{
    stage(device, layout.journal_pages, writes)?;
    set_gate(device, OPEN)?;
    bring_home(device, homes_begin!(layout.journal_pages), writes)?;
    set_gate(device, 0)
}
