//! Devices in memory whose current fails at a chosen call.
ghost use Rattle.std.specs.Prelude.{◌≡◌};

use desk_theorem_lives::restarts::Restarts;
use sector_device::{DeviceFault, Sector, SectorDevice};
use sector_memory::{Fused, MemoryDevice};

/// How many calls pass in each of the next lives.
pub type Fuses = [u64; 5];

/// A device that lets a number of calls pass in each of its lives, and refuses the next call and
/// all later ones until it starts again.
#[derive(Drop)]
pub struct Plugged {
    device: Fused,
    fuses: Fuses,
    /// What a stop leaves in the sectors that were not on the disk.
    picks: Vec<(u64, Sector)>,
}

/// What a stop leaves of it.
#[derive(Drop)]
pub struct Unplugged {
    memory: MemoryDevice,
    fuses: Fuses,
    picks: Vec<(u64, Sector)>,
}

impl Plugged {
    /// A device of which all calls pass until it first stops.
    pub fn new(device: MemoryDevice, fuses: Fuses, picks: Vec<(u64, Sector)>) -> Plugged {
        Plugged {
            device: Fused::new(device, u64::MAX),
            fuses,
            picks,
        }
    }
}

impl SectorDevice for Plugged {
    ghost use Rattle.sector_memory.specs.Fused.{fused_disk};

    ghost disk = { λ p. fused_disk p.device };

    fn count(&self) -> u32 {
        self.device.count()
    }

    fn read(&mut self, i: u32, sector: &mut Sector) -> Result<(), DeviceFault> {
        self.device.read(i, sector)
    }

    fn write(&mut self, i: u32, sector: &Sector) -> Result<(), DeviceFault> {
        self.device.write(i, sector)
    }

    fn sync(&mut self) -> Result<(), DeviceFault> {
        self.device.sync()
    }
}

impl Restarts for Plugged {
    type Off = Unplugged;

    ghost use Rattle.sector_memory.specs.Device.{disk_of};

    ghost rests = { λ u. disk_of u.memory };

    fn stop(self) -> Unplugged {
        let Plugged {
            device,
            fuses,
            picks,
        } = self;
        Unplugged {
            memory: device.stop(picks.as_slice()),
            fuses,
            picks,
        }
    }

    fn start(off: Unplugged) -> Plugged {
        let Unplugged {
            memory,
            fuses: [next, second, third, fourth, fifth],
            picks,
        } = off;
        Plugged {
            device: Fused::new(memory, next),
            fuses: [second, third, fourth, fifth, u64::MAX],
            picks,
        }
    }
}
