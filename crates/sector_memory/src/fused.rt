//! A device in memory that fails at a chosen call.
ghost use Rattle.std.specs.Prelude.{◌≡◌, ◌+◌, ◌↔◌, ℕ, IsTrue, Some, None, cond};

use crate::memory::MemoryDevice;
use sector_device::{DeviceFault, Sector, SectorDevice};

/// Lets a number of calls pass. The next one fails, and after it either every call or no other.
#[derive(Drop)]
pub struct Fused {
    device: MemoryDevice,
    /// How many calls pass before one fails, and none where no further one does.
    left: Option<u64>,
    /// Whether only one call fails.
    once: bool,
}

impl Fused {
    ghost use Rattle.std.specs.Prelude.{◌≡◌, Some, true, false};
    ghost use Rattle.sector_memory.specs.Device.{disk_of, unsynced};
    ghost use Rattle.sector_memory.specs.Memory.{IsStopped};
    ghost use Rattle.sector_memory.specs.Fused.{fused_disk, inner, calls_before, is_once};

    /// A device whose first `left` calls pass and whose later calls fail.
    pub fn new(device: MemoryDevice, left: u64) -> Fused
        ensures device { inner result ≡ device }
        ensures left { calls_before result ≡ Some left }
        ensures kind { is_once result ≡ false }
    {
        Fused {
            device,
            left: Some(left),
            once: false,
        }
    }

    /// A device whose call k fails, counted from 0, and no other, as `FailOnce`. Trials take it, so that
    /// what they try is compiled for one type of device.
    pub fn once(device: MemoryDevice, k: u64) -> Fused
        ensures device { inner result ≡ device }
        ensures left { calls_before result ≡ Some k }
        ensures kind { is_once result ≡ true }
    {
        Fused {
            device,
            left: Some(k),
            once: true,
        }
    }

    /// Stops, as `MemoryDevice::stop`. The sector of a refused write counts as written.
    pub fn stop(self, picks: &[(u64, Sector)]) -> MemoryDevice
        ensures { IsStopped picks.now (unsynced (inner self)) (fused_disk self) (disk_of result) }
    {
        self.device.stop(picks)
    }
}

/// Whether this call is to fail. It counts the call.
fn is_due(left: &mut Option<u64>, once: bool) -> bool
    ensures due { IsTrue result ↔ (left.old ≡ Some 0) }
    ensures none { left.old ≡ None → left.new ≡ None }
    ensures came { left.old ≡ Some 0 → left.new ≡ cond once None (Some 0) }
    ensures counts { (n : ℕ) → left.old ≡ Some (n + 1) → left.new ≡ Some n }
{
    match *left {
        Some(0) => {
            if once {
                *left = None;
            }
            true
        }
        Some(n) => {
            *left = Some(n - 1);
            false
        }
        None => false,
    }
}

impl SectorDevice for Fused {
    ghost use Rattle.std.specs.Prelude.{◌≡◌, ◌<◌, ℕ, OnOk, OnErr, true, false, slice_set, slice_index_or};
    ghost use Rattle.sector_device.specs.claim.Disk.{Touches, Nowhere};
    ghost use Rattle.sector_device.specs.Disk.{Only, HasCause, IsSynced};
    ghost use Rattle.sector_memory.specs.Device.{unsynced};
    ghost use Rattle.sector_memory.specs.Fused.{fused_disk, inner, calls_before, is_once, FailsIn};

    ghost disk = { fused_disk };

    fn count(&self) -> u32 {
        self.device.count()
    }

    fn read(&mut self, i: u32, sector: &mut Sector) -> Result<(), DeviceFault>
        requires { i < (fused_disk self.old).sectors }
        ensures sectors { (fused_disk self.new).sectors ≡ (fused_disk self.old).sectors }
        ensures model { (fused_disk self.new).is_honest
            → Touches Nowhere (fused_disk self.old) (fused_disk self.new) × HasCause (fused_disk self.old) (fused_disk self.new) result }
        ensures reads { (fused_disk self.new).is_honest → OnOk result (sector.new ≡ (fused_disk self.old).reads i) }
        ensures call { FailsIn (is_once self.old) (calls_before self.old) (calls_before self.new) result }
        ensures kind { is_once self.new ≡ is_once self.old }
        ensures unsynced { unsynced (inner self.new) ≡ unsynced (inner self.old) }
    {
        if is_due(&mut self.left, self.once) {
            self.device.refuse();
            return Err(DeviceFault);
        }
        self.device.read(i, sector)
    }

    fn write(&mut self, i: u32, sector: &Sector) -> Result<(), DeviceFault>
        requires { i < (fused_disk self.old).sectors }
        ensures sectors { (fused_disk self.new).sectors ≡ (fused_disk self.old).sectors }
        ensures model { (fused_disk self.new).is_honest
            → Touches (Only i) (fused_disk self.old) (fused_disk self.new) × HasCause (fused_disk self.old) (fused_disk self.new) result }
        ensures written { (fused_disk self.new).is_honest → OnOk result ((fused_disk self.new).reads i ≡ sector.now) }
        ensures call { FailsIn (is_once self.old) (calls_before self.old) (calls_before self.new) result }
        ensures kind { is_once self.new ≡ is_once self.old }
        ensures unsynced { unsynced (inner self.new) ≡ slice_set (unsynced (inner self.old)) i true }
    {
        if is_due(&mut self.left, self.once) {
            self.device.refuse_write(i);
            return Err(DeviceFault);
        }
        self.device.write(i, sector)
    }

    fn sync(&mut self) -> Result<(), DeviceFault>
        ensures sectors { (fused_disk self.new).sectors ≡ (fused_disk self.old).sectors }
        ensures model { (fused_disk self.new).is_honest
            → Touches Nowhere (fused_disk self.old) (fused_disk self.new) × HasCause (fused_disk self.old) (fused_disk self.new) result }
        ensures synced { (fused_disk self.new).is_honest → OnOk result (IsSynced (fused_disk self.new)) }
        ensures call { FailsIn (is_once self.old) (calls_before self.old) (calls_before self.new) result }
        ensures kind { is_once self.new ≡ is_once self.old }
        ensures none { OnOk result ((i : ℕ) → slice_index_or (unsynced (inner self.new)) i false ≡ false) }
        ensures unsynced { OnErr result (unsynced (inner self.new) ≡ unsynced (inner self.old)) }
    {
        if is_due(&mut self.left, self.once) {
            self.device.refuse();
            return Err(DeviceFault);
        }
        self.device.sync()
    }
}
