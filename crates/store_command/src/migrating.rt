//! Leads a store of the old version to the new one by as many steps as it takes.
ghost use Rattle.std.specs.Prelude.{◌≡◌, ◌≤◌, ◌^◌, false, IfOk, IfErr};
ghost use Rattle.sector_device.specs.Disk.{IsSynced};
ghost use Rattle.desk_theorem.specs.runs.desk_migration.claim.Migrating.{is_halted, Moves};
ghost use Rattle.store_command.specs.Reading.{BeginsAtWhatIsRead};
ghost use Rattle.store_command.specs.Migrating.{IsBegun, IsNotBegun, PutsAll, MigratesAll};

use crate::fault::{StoreFault, store_fault};
use byte_stream::progress::Progress;
use desk_theorem::{Migration, one_desk_opens};
use sector_device::SectorDevice;
use std::alloc::Global;

/// More steps than a store has rows: each puts two rows at least.
const MOST_STEPS: u64 = 281_474_976_710_656;

/// Opens the store that a synced device holds for its migration: its desk is that to which opens what the device reads. A refusal hands
/// the device back.
pub fn begin<D: SectorDevice + Drop>(
    alloc: Global,
    device: D,
) -> Result<Migration<D>, (StoreFault, D)>
    requires { IsSynced (D.disk device) }
    ensures ok { IfOk result (λ x. IsBegun device x) }
    ensures begins { IfOk result (λ x. BeginsAtWhatIsRead device x) }
    ensures err { IfErr result (λ e. IsNotBegun D.SectorDevice device e.0 e.1) }
{
    one_desk_opens();
    match Migration::open(alloc, device) {
        Ok(migration) => Ok(migration),
        Err((e, left)) => Err((store_fault(e), left)),
    }
}

/// Puts the rows by which plans hold the chunks that they name: how many there were. `progress` hears of each step.
fn put_all<D: SectorDevice, P: Progress>(
    alloc: Global,
    migration: &mut Migration<D>,
    progress: &mut P,
) -> Result<u64, StoreFault>
    requires { is_halted migration.old ≡ false }
    ensures moves { Moves migration.old migration.new }
    ensures puts { PutsAll migration.old result migration.new }
    ensures few { IfOk result (λ rows. rows ≤ 2 ^ 52) }
{
    let mut rows = 0;
    for steps in 0..MOST_STEPS {
        match migration.step(alloc) {
            Ok(count) => {
                if count == 0 {
                    return Ok(rows);
                }
                rows += count as u64;
                progress.note(rows);
            }
            Err(e) => return Err(store_fault(e)),
        }
    }
    Err(StoreFault::NotAStore)
}

/// Leads a store to the new version: how many rows were put, that of the version with them. `progress` hears of each step.
pub fn migrate_all<D: SectorDevice, P: Progress>(
    alloc: Global,
    migration: &mut Migration<D>,
    progress: &mut P,
) -> Result<u64, StoreFault>
    requires { is_halted migration.old ≡ false }
    ensures { MigratesAll migration.old result migration.new }
{
    let rows = match put_all(alloc, migration, progress) {
        Ok(rows) => rows,
        Err(fault) => return Err(fault),
    };
    match migration.finish(alloc) {
        Ok(()) => Ok(rows + 1),
        Err(e) => Err(store_fault(e)),
    }
}
