//! A device in memory.
ghost use Rattle.std.specs.Prelude.{◌≡◌, ◌<◌, ◌^◌, ℕ, length};
ghost use Rattle.sector_device.specs.Held.{image_of};
ghost use Rattle.sector_memory.specs.Memory.{after_pick, after_stop};

use crate::past::PastStates;
use sector_device::{DeviceFault, SECTOR_SIZE, Sector, SectorDevice};
use std::alloc::{AllocError, Global};

/// A device whose sectors lie in memory.
#[derive(Drop)]
pub struct MemoryDevice {
    sectors: Vec<Sector>,
    /// Which sectors were written since the last sync.
    unsynced: Vec<bool>,
    past: PastStates,
    ghost one_each: { length unsynced.items ≡ length sectors.items },
    ghost few: { length sectors.items < 2 ^ 32 },
}

/// Puts the picked bytes into its sector, if that was written.
fn put_pick(sectors: &mut [Sector], unsynced: &[bool], pick: &(u64, Sector))
    requires { length unsynced.now ≡ length sectors.old }
    ensures { (i : ℕ) → image_of sectors.new i ≡ after_pick pick.now unsynced.now (image_of sectors.old) i }
{
    if pick.0 < sectors.len() as u64 && unsynced[pick.0 as usize] {
        sectors[pick.0 as usize] = pick.1;
    }
}

/// Puts the picked bytes into the sectors that were written.
fn put_picks(sectors: &mut [Sector], unsynced: &[bool], picks: &[(u64, Sector)])
    requires { length unsynced.now ≡ length sectors.old }
    ensures { (i : ℕ) → image_of sectors.new i ≡ after_stop picks.now unsynced.now (image_of sectors.old) i }
{
    for pick in picks {
        put_pick(sectors, unsynced, pick);
    }
}

impl MemoryDevice {
    ghost use Rattle.std.specs.Prelude.{◌≡◌, ◌<◌, ℕ, IfOk, true, slice_set, replicate};
    ghost use Rattle.sector_device.specs.claim.Disk.{Touches, Nowhere};
    ghost use Rattle.sector_device.specs.Disk.{Only, IsSynced};
    ghost use Rattle.sector_memory.specs.Device.{disk_of, unsynced};
    ghost use Rattle.sector_memory.specs.Memory.{IsStopped};

    /// A device of zeros, all of them on the disk. Only this call takes memory.
    pub fn new(alloc: Global, count: u32) -> Result<MemoryDevice, AllocError>
        ensures count { IfOk result (λ device. (disk_of device).sectors ≡ count) }
        ensures zeros { IfOk result (λ device. (i : ℕ) → i < count → (disk_of device).reads i ≡ replicate 4096 0) }
        ensures synced { IfOk result (λ device. IsSynced (disk_of device)) }
    {
        let sectors = vec![in alloc; [0; SECTOR_SIZE]; count as usize]?;
        let unsynced = vec![in alloc; false; count as usize]?;
        Ok(MemoryDevice {
            sectors,
            unsynced,
            past: PastStates::new(),
        })
    }

    /// A call is refused that writes nothing.
    pub(crate) fn refuse(&mut self)
        ensures touches { Touches Nowhere (disk_of self.old) (disk_of self.new) }
        ensures fault { (disk_of self.old).faults < (disk_of self.new).faults }
        ensures unsynced { unsynced self.new ≡ unsynced self.old }
    {
        self.past.note(&self.sectors, &self.unsynced, true);
    }

    /// A write is refused: the sector may hold anything after a stop.
    pub(crate) fn refuse_write(&mut self, i: u32)
        requires { i < (disk_of self.old).sectors }
        ensures touches { Touches (Only i) (disk_of self.old) (disk_of self.new) }
        ensures fault { (disk_of self.old).faults < (disk_of self.new).faults }
        ensures unsynced { unsynced self.new ≡ slice_set (unsynced self.old) i true }
    {
        self.past.note(&self.sectors, &self.unsynced, true);
        self.unsynced[i as usize] = true;
    }

    /// Stops. A pick is a sector and its bytes, and the last pick of a sector counts; picks of sectors that were not
    /// written since the last sync are ignored.
    pub fn stop(self, picks: &[(u64, Sector)]) -> MemoryDevice
        ensures { IsStopped picks.now (unsynced self) (disk_of self) (disk_of result) }
    {
        let MemoryDevice {
            mut sectors,
            mut unsynced,
            past,
        } = self;
        put_picks(&mut sectors, &unsynced, picks);
        unsynced.fill(false);
        MemoryDevice {
            sectors,
            unsynced,
            past,
        }
    }
}

impl SectorDevice for MemoryDevice {
    ghost use Rattle.std.specs.Prelude.{◌≡◌, ◌<◌, ℕ, IsOk, OnOk, true, false, slice_set, slice_index_or};
    ghost use Rattle.sector_device.specs.claim.Disk.{Touches, Nowhere};
    ghost use Rattle.sector_device.specs.Disk.{Only, HasCause, IsSynced};
    ghost use Rattle.sector_memory.specs.Device.{disk_of, unsynced};

    ghost disk = { disk_of };

    fn count(&self) -> u32 {
        self.sectors.len() as u32
    }

    fn read(&mut self, i: u32, sector: &mut Sector) -> Result<(), DeviceFault>
        requires { i < (disk_of self.old).sectors }
        ensures sectors { (disk_of self.new).sectors ≡ (disk_of self.old).sectors }
        ensures model { (disk_of self.new).is_honest
            → Touches Nowhere (disk_of self.old) (disk_of self.new) × HasCause (disk_of self.old) (disk_of self.new) result }
        ensures reads { (disk_of self.new).is_honest → OnOk result (sector.new ≡ (disk_of self.old).reads i) }
        ensures passes { IsOk result }
        ensures unsynced { unsynced self.new ≡ unsynced self.old }
    {
        sector.copy_from_slice(&self.sectors[i as usize]);
        Ok(())
    }

    fn write(&mut self, i: u32, sector: &Sector) -> Result<(), DeviceFault>
        requires { i < (disk_of self.old).sectors }
        ensures sectors { (disk_of self.new).sectors ≡ (disk_of self.old).sectors }
        ensures model { (disk_of self.new).is_honest
            → Touches (Only i) (disk_of self.old) (disk_of self.new) × HasCause (disk_of self.old) (disk_of self.new) result }
        ensures written { (disk_of self.new).is_honest → OnOk result ((disk_of self.new).reads i ≡ sector.now) }
        ensures passes { IsOk result }
        ensures unsynced { unsynced self.new ≡ slice_set (unsynced self.old) i true }
    {
        self.past.note(&self.sectors, &self.unsynced, false);
        let i = i as usize;
        self.sectors[i].copy_from_slice(sector);
        self.unsynced[i] = true;
        Ok(())
    }

    fn sync(&mut self) -> Result<(), DeviceFault>
        ensures sectors { (disk_of self.new).sectors ≡ (disk_of self.old).sectors }
        ensures model { (disk_of self.new).is_honest
            → Touches Nowhere (disk_of self.old) (disk_of self.new) × HasCause (disk_of self.old) (disk_of self.new) result }
        ensures synced { (disk_of self.new).is_honest → OnOk result (IsSynced (disk_of self.new)) }
        ensures passes { IsOk result }
        ensures unsynced { (i : ℕ) → slice_index_or (unsynced self.new) i false ≡ false }
    {
        self.past.note(&self.sectors, &self.unsynced, false);
        self.unsynced.fill(false);
        Ok(())
    }
}
