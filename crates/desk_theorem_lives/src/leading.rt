//! A migration of a store by so many steps at most.
ghost use Rattle.std.specs.Prelude.{◌≡◌, true, false};
ghost use Rattle.desk_theorem_runs.specs.desk_migration.claim.Migrating.{has_ended, is_halted};
ghost use Rattle.desk_theorem_lives.specs.VersionInside.{IsLed, LeadsOn, LivesIn};

use desk_store_pages::StoreError;
use desk_theorem_runs::Migration;
use sector_device::SectorDevice;
use std::alloc::Global;

/// How far a store was led on.
#[derive(Drop, PartialEq)]
pub enum Led {
    /// It is of the new version.
    Whole,
    /// All steps asked for were made, and the store still has the old version.
    InPart,
    /// A step was refused, or the last one, which writes the new version.
    Stopped(StoreError),
    /// It was not opened for that.
    Unopened(StoreError),
}

/// Writes the new version.
fn end<D: SectorDevice>(alloc: Global, migration: &mut Migration<D>) -> Led
    requires ended { has_ended migration.old ≡ true }
    requires working { is_halted migration.old ≡ false }
    ensures { LeadsOn migration.old result migration.new }
{
    match migration.finish(alloc) {
        Ok(()) => Led::Whole,
        Err(e) => Led::Stopped(e),
    }
}

/// Migrates a store by at most `steps` steps, and writes the new version if no step is left.
pub fn lead<D: SectorDevice>(alloc: Global, migration: &mut Migration<D>, steps: u32) -> Led
    requires { is_halted migration.old ≡ false }
    ensures { LeadsOn migration.old result migration.new }
{
    for made in 0..steps {
        match migration.step(alloc) {
            Ok(count) => {
                if count == 0 {
                    return end(alloc, migration);
                }
            }
            Err(e) => return Led::Stopped(e),
        }
    }
    Led::InPart
}

/// A device is opened for a migration and led on, and given back as it is then.
pub fn lead_in<D: SectorDevice + Drop>(alloc: Global, device: D, steps: u32) -> (Led, D)
    ensures { LivesIn (IsLed result.0) (D.disk device) (D.disk result.1) }
{
    let mut migration = match Migration::open(alloc, device) {
        Ok(migration) => migration,
        Err((e, device)) => return (Led::Unopened(e), device),
    };
    let led = lead(alloc, &mut migration, steps);
    (led, migration.into_device())
}
