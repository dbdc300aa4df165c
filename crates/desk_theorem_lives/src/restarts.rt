//! Devices that stop and start again.
ghost use Rattle.std.specs.Prelude.{◌≡◌};
ghost use Rattle.sector_device.specs.claim.Disk.{Disk, Image};

use sector_device::SectorDevice;

/// A device that can be stopped. What a stop leaves is of another type, and is a device again only once it starts. A stop in the midst of
/// a call is one after a call that failed.
pub trait Restarts: SectorDevice {
    type Off: Drop;

    // what was left, as a start finds it
    ghost rests: { Self.Off → Disk };

    /// Stops.
    fn stop(self) -> Self::Off
        ensures sectors { (rests result).sectors ≡ (Self.disk self).sectors }
        ensures honest { (rests result).is_honest → (Self.disk self).is_honest }
        ensures faults { (rests result).is_honest → (rests result).faults ≡ (Self.disk self).faults }
        ensures left { (rests result).is_honest → (c : Image) → (rests result).leaves c → (Self.disk self).leaves c };

    /// Starts with what a stop left. What may be left from then on is what that stop may have left.
    fn start(off: Self::Off) -> Self
        ensures sectors { (Self.disk result).sectors ≡ (rests off).sectors }
        ensures honest { (Self.disk result).is_honest → (rests off).is_honest }
        ensures faults { (Self.disk result).is_honest → (Self.disk result).faults ≡ (rests off).faults }
        ensures left { (Self.disk result).is_honest → (c : Image) → (Self.disk result).leaves c → (rests off).leaves c };
}
