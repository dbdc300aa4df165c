//! `migrate`: a store of the old version becomes one of the new version.
ghost use Rattle.std.specs.Prelude.{◌≡◌};
ghost use Rattle.sector_device.specs.Disk.{IsSynced};
ghost use Rattle.command_output.specs.Writing.{OfWriters};
ghost use Rattle.store_command.specs.Migrating.{MigratesDevice, Migrates, MigratesStore};

use crate::fault::StoreFault;
use crate::migrating::{begin, migrate_all};
use crate::stores::Stores;
use crate::telling::end_store;
use crate::texts::{put_rows, room_for_text};
use byte_stream::progress::Progress;
use byte_stream::sink::Sink;
use command_output::status::Status;
use desk_theorem::one_desk_opens;
use sector_device::SectorDevice;
use std::alloc::Global;

/// Migrates the store that a synced device holds, and gives the device back: how many rows were put.
fn migrate_device<D: SectorDevice + Drop, P: Progress>(
    alloc: Global,
    device: D,
    progress: &mut P,
) -> (Result<u64, StoreFault>, D)
    requires { IsSynced (D.disk device) }
    ensures { MigratesDevice D.SectorDevice device result.0 result.1 }
{
    one_desk_opens();
    let mut migration = match begin(alloc, device) {
        Ok(migration) => migration,
        Err((fault, left)) => return (Err(fault), left),
    };
    let migrated = migrate_all(alloc, &mut migration, progress);
    (migrated, migration.into_device())
}

/// Migrates the store of a name, and closes it: what is printed of it. Memory for that is taken before the store is opened.
fn migrate_store<D: SectorDevice + Drop, O: Stores<D>, P: Progress>(
    alloc: Global,
    stores: &mut O,
    name: &str,
    progress: &mut P,
) -> Result<Vec<u8>, StoreFault>
    ensures { Migrates D.SectorDevice O.opens O.closes stores.old name.now result stores.new }
{
    let mut text = room_for_text(alloc)?;
    let device = stores.open(name)?;
    let (migrated, left) = migrate_device(alloc, device, progress);
    stores.close(left);
    match migrated {
        Ok(rows) => {
            put_rows(&mut text, b"migrated to version 2, ", rows);
            Ok(text)
        }
        Err(fault) => Err(fault),
    }
}

/// Migrates the store with this name from the old version to the new one, and prints the number of
/// rows put, including the version's. The status is 0. If the store is rejected, has the new
/// version or too few free pages, or its device fails (4), or if memory is refused (5), prints the
/// fault instead; 6 if the output fails. The device is closed in any case. `progress` receives the
/// number of rows after each step.
pub fn migrate<D: SectorDevice + Drop, O: Stores<D>, P: Progress, W: Sink, E: Sink>(
    alloc: Global,
    stores: &mut O,
    name: &str,
    progress: &mut P,
    writer: &mut W,
    errors: &mut E,
) -> Status
    ensures { OfWriters (MigratesStore D.SectorDevice O.opens O.closes stores.old stores.new name.now result)
        W.Sink writer.old writer.new E.Sink errors.old errors.new }
{
    let given = migrate_store(alloc, stores, name, progress);
    end_store(b"plandesk: migrate: WriteFault\n", given, writer, errors)
}
