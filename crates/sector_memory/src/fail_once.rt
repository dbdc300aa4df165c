//! A device in memory of which one call fails.
ghost use Rattle.std.specs.Prelude.{◌≡◌, true};
ghost use Rattle.sector_memory.specs.Fused.{is_once};

use crate::fused::Fused;
use crate::memory::MemoryDevice;
use sector_device::{DeviceFault, Sector, SectorDevice};

/// Lets all calls pass but one.
#[derive(Drop)]
pub struct FailOnce {
    device: Fused,
    ghost once: { is_once device ≡ true },
}

impl FailOnce {
    ghost use Rattle.std.specs.Prelude.{◌≡◌, Some};
    ghost use Rattle.sector_memory.specs.Device.{disk_of, unsynced};
    ghost use Rattle.sector_memory.specs.Memory.{IsStopped};
    ghost use Rattle.sector_memory.specs.FailOnce.{once_disk, within, call_left};

    /// A device whose call k fails, counted from 0, and no other.
    pub fn new(device: MemoryDevice, k: u64) -> FailOnce
        ensures device { within result ≡ device }
        ensures left { call_left result ≡ Some k }
    {
        FailOnce {
            device: Fused::once(device, k),
        }
    }

    /// Stops, as `MemoryDevice::stop`. The sector of a refused write counts as written.
    pub fn stop(self, picks: &[(u64, Sector)]) -> MemoryDevice
        ensures { IsStopped picks.now (unsynced (within self)) (once_disk self) (disk_of result) }
    {
        let FailOnce { device } = self;
        device.stop(picks)
    }
}

impl SectorDevice for FailOnce {
    ghost use Rattle.std.specs.Prelude.{◌≡◌, ◌<◌, ℕ, OnOk, OnErr, true, false, slice_set, slice_index_or};
    ghost use Rattle.sector_device.specs.claim.Disk.{Touches, Nowhere};
    ghost use Rattle.sector_device.specs.Disk.{Only, HasCause, IsSynced};
    ghost use Rattle.sector_memory.specs.Device.{unsynced};
    ghost use Rattle.sector_memory.specs.Fused.{FailsIn};
    ghost use Rattle.sector_memory.specs.FailOnce.{once_disk, within, call_left};

    ghost disk = { once_disk };

    fn count(&self) -> u32 {
        self.device.count()
    }

    fn read(&mut self, i: u32, sector: &mut Sector) -> Result<(), DeviceFault>
        requires { i < (once_disk self.old).sectors }
        ensures sectors { (once_disk self.new).sectors ≡ (once_disk self.old).sectors }
        ensures model { (once_disk self.new).is_honest
            → Touches Nowhere (once_disk self.old) (once_disk self.new) × HasCause (once_disk self.old) (once_disk self.new) result }
        ensures reads { (once_disk self.new).is_honest → OnOk result (sector.new ≡ (once_disk self.old).reads i) }
        ensures call { FailsIn true (call_left self.old) (call_left self.new) result }
        ensures unsynced { unsynced (within self.new) ≡ unsynced (within self.old) }
    {
        self.device.read(i, sector)
    }

    fn write(&mut self, i: u32, sector: &Sector) -> Result<(), DeviceFault>
        requires { i < (once_disk self.old).sectors }
        ensures sectors { (once_disk self.new).sectors ≡ (once_disk self.old).sectors }
        ensures model { (once_disk self.new).is_honest
            → Touches (Only i) (once_disk self.old) (once_disk self.new) × HasCause (once_disk self.old) (once_disk self.new) result }
        ensures written { (once_disk self.new).is_honest → OnOk result ((once_disk self.new).reads i ≡ sector.now) }
        ensures call { FailsIn true (call_left self.old) (call_left self.new) result }
        ensures unsynced { unsynced (within self.new) ≡ slice_set (unsynced (within self.old)) i true }
    {
        self.device.write(i, sector)
    }

    fn sync(&mut self) -> Result<(), DeviceFault>
        ensures sectors { (once_disk self.new).sectors ≡ (once_disk self.old).sectors }
        ensures model { (once_disk self.new).is_honest
            → Touches Nowhere (once_disk self.old) (once_disk self.new) × HasCause (once_disk self.old) (once_disk self.new) result }
        ensures synced { (once_disk self.new).is_honest → OnOk result (IsSynced (once_disk self.new)) }
        ensures call { FailsIn true (call_left self.old) (call_left self.new) result }
        ensures none { OnOk result ((i : ℕ) → slice_index_or (unsynced (within self.new)) i false ≡ false) }
        ensures unsynced { OnErr result (unsynced (within self.new) ≡ unsynced (within self.old)) }
    {
        self.device.sync()
    }
}
