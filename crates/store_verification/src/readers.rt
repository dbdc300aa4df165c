//! What lends readers of a device, and takes them back.
ghost use Rattle.std.specs.Prelude.{ℕ, IfSome};
ghost use Rattle.sector_device.specs.claim.Disk.{Image};
ghost use Rattle.store_verification.specs.Readers.{IsLent, IsTakenBack};

use sector_device::SectorDevice;

/// Lends readers of a device: devices that read what it does, until it is written.
pub trait Readers<D: SectorDevice, R: SectorDevice> {
    // What a device holds that lends a reader, by the number of its sectors.
    ghost held: { ℕ → Image };

    /// A reader, if there can be one. It has read nothing yet.
    fn lend(&self, device: &D) -> Option<R>
        ensures { IfSome result (λ reader. IsLent held (D.disk device.now) (R.disk reader)) };

    /// Takes a reader back: its calls and failures count as the device's. So what the reader found
    /// was found on the device.
    fn take_back(&self, device: &mut D, reader: R)
        ensures { IsTakenBack held (D.disk device.old) (R.disk reader) (D.disk device.new) };
}
