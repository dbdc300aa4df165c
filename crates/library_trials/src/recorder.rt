//! A device that counts how often each of its sectors is read.
ghost use Rattle.std.specs.Prelude.{◌≡◌};

use sector_device::{DeviceFault, Sector, SectorDevice};
use sector_memory::MemoryDevice;

/// How many sectors there are of which reads are counted.
pub const SECTORS: u32 = 700;

#[derive(Drop)]
pub struct Recorder {
    device: MemoryDevice,
    reads: [u8; 700],
}

impl Recorder {
    pub fn new(device: MemoryDevice) -> Recorder {
        Recorder {
            device,
            reads: [0; 700],
        }
    }

    /// How often each sector was read.
    pub fn reads(&self) -> [u8; 700] {
        self.reads
    }

    /// Gives the device back.
    pub fn into_device(self) -> MemoryDevice {
        let Recorder { device, reads: _ } = self;
        device
    }

    fn note_read(&mut self, i: u32)
        ensures { self.new.device ≡ self.old.device }
    {
        if i < SECTORS {
            self.reads[i as usize] = self.reads[i as usize].saturating_add(1);
        }
    }
}

impl SectorDevice for Recorder {
    ghost use Rattle.sector_memory.specs.Device.{disk_of};

    ghost disk = { λ r. disk_of r.device };

    fn count(&self) -> u32 {
        self.device.count()
    }

    fn read(&mut self, i: u32, sector: &mut Sector) -> Result<(), DeviceFault> {
        self.note_read(i);
        self.device.read(i, sector)
    }

    fn write(&mut self, i: u32, sector: &Sector) -> Result<(), DeviceFault> {
        self.device.write(i, sector)
    }

    fn sync(&mut self) -> Result<(), DeviceFault> {
        self.device.sync()
    }
}
