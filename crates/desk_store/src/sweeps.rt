//! Sweeps at the clerk.
ghost use Rattle.std.specs.Prelude.{◌≡◌, ◌<◌, ◌^◌, ℕ, Some};

use crate::clerk::Clerk;
use crate::failures::has_failed;
use desk_store_pages::StoreError;
use sector_device::SectorDevice;
use std::alloc::Global;

/// The number of a load, if there is one, which is in its range.
fn in_range(number: Option<u64>) -> Option<u64>
    ensures same { result ≡ number }
    ensures fits { (load : ℕ) → number ≡ Some load → load < 2 ^ 64 }
{
    match number {
        Some(load) => Some(load),
        None => None,
    }
}

impl<D: SectorDevice> Clerk<D> {
    ghost use Rattle.desk_store.specs.Calls.{SweepsSome, ChecksHolders};

    /// Removes or changes up to 16 of the rows that deleted plans and abandoned loads left in the
    /// store. Returns their number, 0 only if none is left. The desk stays as it is, and so does
    /// the last load begun since the opening. `Memory`: nothing changed. `NotAStore`: the rows are
    /// not those of a desk, and nothing changed. `DeviceFault`: the device failed in this call.
    /// `Halted`: it had failed before.
    pub fn sweep_step(&mut self, alloc: Global) -> Result<usize, StoreError>
        ensures { SweepsSome self.old self.new result }
    {
        if self.halted {
            return Err(StoreError::Halted);
        }
        let running = in_range(self.loading);
        match desk_store_opening::sweep_step(alloc, &mut self.pages, running) {
            Ok(count) => Ok(count),
            Err(e) => {
                if has_failed(e, &self.pages) {
                    self.halted = true;
                    return Err(StoreError::DeviceFault);
                }
                Err(e)
            }
        }
    }

    /// Checks before a sweep that each chunk's count is the number of plans that hold it, and that
    /// each existing plan holds every chunk that its revisions name. Nothing is written.
    /// `NotAStore` if that is not so. The other errors are those of `sweep_step`.
    pub fn check_holders(&mut self, alloc: Global) -> Result<(), StoreError>
        ensures { ChecksHolders self.old self.new result }
    {
        if self.halted {
            return Err(StoreError::Halted);
        }
        match desk_store_opening::check_holders(alloc, &mut self.pages) {
            Ok(()) => Ok(()),
            Err(e) => {
                if has_failed(e, &self.pages) {
                    self.halted = true;
                    return Err(StoreError::DeviceFault);
                }
                Err(e)
            }
        }
    }
}
