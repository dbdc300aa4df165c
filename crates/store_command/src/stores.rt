//! What makes, opens and closes the devices of stores, by their names.
ghost use Rattle.std.specs.Prelude.{◌≡◌, ℕ, List, Result, IfOk};
ghost use Rattle.sector_device.specs.Disk.{IsSynced};
ghost use Rattle.store_command.specs.declared.fault.StoreFault.{StoreFault as Fault};

use crate::fault::StoreFault;
use sector_device::SectorDevice;

/// Makes and opens the devices of stores by their names, and closes them.
pub trait Stores<D: SectorDevice> {
    // A device of this many sectors was asked for under a new name, with this result, and that left
    // the maker so.
    ghost makes: { Self → List ℕ → ℕ → Result D Fault → Self → Type 0 };

    // The device of a name was asked for, with this result, and that left the opener so.
    ghost opens: { Self → List ℕ → Result D Fault → Self → Type 0 };

    // A device was handed back to be closed, as it was then, and that left the closer so.
    ghost closes: { Self → D → Self → Type 0 };

    fn make(&mut self, name: &str, sectors: u32) -> Result<D, StoreFault>
        ensures made { makes self.old name.now sectors result self.new }
        ensures sectors { IfOk result (λ device. (D.disk device).sectors ≡ sectors) };

    /// What is opened was synced, so that a stop leaves what it reads.
    fn open(&mut self, name: &str) -> Result<D, StoreFault>
        ensures opened { opens self.old name.now result self.new }
        ensures synced { IfOk result (λ device. IsSynced (D.disk device)) };

    fn close(&mut self, device: D)
        ensures { closes self.old device self.new };
}
