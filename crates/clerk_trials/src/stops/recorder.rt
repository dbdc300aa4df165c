//! A device that notes what it writes and syncs.
use sector_device::{DeviceFault, Sector, SectorDevice};
use sector_memory::{Fused, MemoryDevice};

/// A sync among the noted calls.
pub const SYNC: u32 = u32::MAX;

#[derive(Drop)]
pub struct Recorder {
    device: Fused,
    /// The calls so far: the sectors that were written, and the syncs.
    pub calls: [u32; 16],
    /// How many calls there were.
    pub count: usize,
}

impl Recorder {
    /// A device that has made no call.
    pub fn new(device: Fused) -> Recorder {
        Recorder {
            device,
            calls: [0; 16],
            count: 0,
        }
    }

    /// One whose calls all pass.
    pub fn passing(device: MemoryDevice) -> Recorder {
        Recorder::new(Fused::new(device, u64::MAX))
    }

    /// Stops, and the picks say what that leaves in the sectors that were not on the disk.
    pub fn stop(self, picks: &[(u64, Sector)]) -> MemoryDevice {
        self.device.stop(picks)
    }
}

fn note(calls: &mut [u32; 16], count: &mut usize, call: u32) {
    if *count < 16 {
        calls[*count] = call;
        *count += 1;
    }
}

impl SectorDevice for Recorder {
    ghost use Rattle.sector_memory.specs.Fused.{fused_disk};

    ghost disk = { λ r. fused_disk r.device };

    fn count(&self) -> u32 {
        self.device.count()
    }

    fn read(&mut self, i: u32, sector: &mut Sector) -> Result<(), DeviceFault> {
        self.device.read(i, sector)
    }

    fn write(&mut self, i: u32, sector: &Sector) -> Result<(), DeviceFault> {
        note(&mut self.calls, &mut self.count, i);
        self.device.write(i, sector)
    }

    fn sync(&mut self) -> Result<(), DeviceFault> {
        note(&mut self.calls, &mut self.count, SYNC);
        self.device.sync()
    }
}
