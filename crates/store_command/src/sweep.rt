//! `sweep`: a store is swept until nothing is left to be taken out.
ghost use Rattle.std.specs.Prelude.{◌≡◌};
ghost use Rattle.sector_device.specs.Disk.{IsSynced};
ghost use Rattle.command_output.specs.Writing.{OfWriters};
ghost use Rattle.store_command.specs.Sweeping.{SweepsDevice, Sweeps, SweepsStore};

use crate::fault::StoreFault;
use crate::filling::open_clerk;
use crate::stores::Stores;
use crate::sweeping::sweep_all;
use crate::telling::end_store;
use crate::texts::{put_rows, room_for_text};
use byte_stream::progress::Progress;
use byte_stream::sink::Sink;
use command_output::status::Status;
use desk_theorem::one_desk_opens;
use sector_device::SectorDevice;
use std::alloc::Global;

/// Sweeps the store that a synced device holds, and gives the device back: how many rows were taken out.
fn sweep_device<D: SectorDevice + Drop, P: Progress>(
    alloc: Global,
    device: D,
    progress: &mut P,
) -> (Result<u64, StoreFault>, D)
    requires { IsSynced (D.disk device) }
    ensures { SweepsDevice D.SectorDevice device result.0 result.1 }
{
    one_desk_opens();
    let mut clerk = match open_clerk(alloc, device) {
        Ok(clerk) => clerk,
        Err((fault, left)) => return (Err(fault), left),
    };
    let swept = sweep_all(alloc, &mut clerk, progress);
    (swept, clerk.into_device())
}

/// Sweeps the store of a name, and closes it: what is printed of it. Memory for that is taken before the store is opened.
fn sweep_store<D: SectorDevice + Drop, O: Stores<D>, P: Progress>(
    alloc: Global,
    stores: &mut O,
    name: &str,
    progress: &mut P,
) -> Result<Vec<u8>, StoreFault>
    ensures { Sweeps D.SectorDevice O.opens O.closes stores.old name.now result stores.new }
{
    let mut text = room_for_text(alloc)?;
    let device = stores.open(name)?;
    let (swept, left) = sweep_device(alloc, device, progress);
    stores.close(left);
    match swept {
        Ok(rows) => {
            put_rows(&mut text, b"swept ", rows);
            Ok(text)
        }
        Err(fault) => Err(fault),
    }
}

/// Sweeps the store with this name until nothing is left to remove, and prints the number of rows
/// removed. The status is 0. If the store is rejected or its device fails (4), or if memory is
/// refused (5), prints the fault instead; 6 if the output fails. The device is closed in any case.
/// `progress` receives the number of rows after each step.
pub fn sweep<D: SectorDevice + Drop, O: Stores<D>, P: Progress, W: Sink, E: Sink>(
    alloc: Global,
    stores: &mut O,
    name: &str,
    progress: &mut P,
    writer: &mut W,
    errors: &mut E,
) -> Status
    ensures { OfWriters (SweepsStore D.SectorDevice O.opens O.closes stores.old stores.new name.now result)
        W.Sink writer.old writer.new E.Sink errors.old errors.new }
{
    let given = sweep_store(alloc, stores, name, progress);
    end_store(b"plandesk: sweep: WriteFault\n", given, writer, errors)
}
