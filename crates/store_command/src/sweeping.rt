//! Sweeps a store by as many steps as it takes.
ghost use Rattle.std.specs.Prelude.{◌≡◌, false};
ghost use Rattle.desk_theorem.specs.runs.desk_store.claim.Clerks.{is_halted};
ghost use Rattle.store_command.specs.Sweeping.{KeepsDesk, SweepsAll, SweepsSteps};

use crate::fault::{StoreFault, store_fault};
use byte_stream::progress::Progress;
use desk_theorem::Clerk;
use sector_device::SectorDevice;
use std::alloc::Global;

/// More steps than a store has rows: each takes one row out at least.
const MOST_STEPS: u64 = 281_474_976_710_656;

/// Removes from a clerk's store what deleted plans and abandoned loads left in it, step by step,
/// and returns the number of rows. `progress` observes each step.
fn sweep_steps<D: SectorDevice, P: Progress>(
    alloc: Global,
    clerk: &mut Clerk<D>,
    progress: &mut P,
) -> Result<u64, StoreFault>
    requires { is_halted clerk.old ≡ false }
    ensures keeps { KeepsDesk clerk.old clerk.new }
    ensures sweeps { SweepsSteps clerk.old result clerk.new }
{
    let mut rows = 0;
    for steps in 0..MOST_STEPS {
        match clerk.sweep_step(alloc) {
            Ok(count) => {
                if count == 0 {
                    return Ok(rows);
                }
                rows += count as u64;
                progress.note(rows);
            }
            Err(e) => return Err(store_fault(e)),
        }
    }
    Err(StoreFault::NotAStore)
}

/// Takes out of a clerk's store what deleted plans and ended loads left in it: how many rows there were. Nothing is taken out where a
/// chunk's count isn't the number of plans that hold it, or a plan lacks a chunk that it names. `progress` hears of each step.
pub fn sweep_all<D: SectorDevice, P: Progress>(
    alloc: Global,
    clerk: &mut Clerk<D>,
    progress: &mut P,
) -> Result<u64, StoreFault>
    requires { is_halted clerk.old ≡ false }
    ensures keeps { KeepsDesk clerk.old clerk.new }
    ensures sweeps { SweepsAll clerk.old result clerk.new }
{
    match clerk.check_holders(alloc) {
        Ok(()) => sweep_steps(alloc, clerk, progress),
        Err(e) => Err(store_fault(e)),
    }
}
