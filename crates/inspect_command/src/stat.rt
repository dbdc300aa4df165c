//! `stat`: how full a store is.
ghost use Rattle.std.specs.Prelude.{◌≡◌};
ghost use Rattle.sector_device.specs.Disk.{IsSynced};
ghost use Rattle.command_output.specs.Writing.{OfWriters};
ghost use Rattle.inspect_command.specs.Stats.{joined, StatsDevice, Stats, StatsStore};

use crate::figures::{Figures, Held, held_by};
use crate::rows::{Rows, rows_of};
use crate::texts::{Style, put_figures, room_for_figures};
use byte_stream::sink::Sink;
use command_output::status::Status;
use sector_device::SectorDevice;
use std::alloc::Global;
use store_command::fault::StoreFault;
use store_command::filling::open_clerk;
use store_command::one_desk_opens;
use store_command::stores::Stores;
use store_command::telling::end_store;

/// The figures, where both parts of them were found.
fn join(
    sectors: u32,
    told: Result<Held, StoreFault>,
    counted: Result<Rows, StoreFault>,
) -> Result<Figures, StoreFault>
    ensures { result ≡ joined sectors told counted }
{
    match told {
        Ok(held) => match counted {
            Ok(rows) => Ok(Figures {
                sectors,
                held,
                rows,
            }),
            Err(fault) => Err(fault),
        },
        Err(fault) => Err(fault),
    }
}

/// The figures of the store that a synced device holds, and the device back.
fn stat_device<D: SectorDevice + Drop>(alloc: Global, device: D) -> (Result<Figures, StoreFault>, D)
    requires { IsSynced (D.disk device) }
    ensures { StatsDevice D.SectorDevice device result.0 result.1 }
{
    one_desk_opens();
    let sectors = device.count();
    let clerk = match open_clerk(alloc, device) {
        Ok(clerk) => clerk,
        Err((fault, left)) => return (Err(fault), left),
    };
    let told = held_by(alloc, &clerk);
    let middle = clerk.into_device();
    let (counted, left) = rows_of(alloc, middle);
    (join(sectors, told, counted), left)
}

/// Prints the figures of the store with this name into a text, and closes the store. Memory for the
/// text is taken before the store is opened.
fn stat_store<D: SectorDevice + Drop, O: Stores<D>>(
    alloc: Global,
    stores: &mut O,
    name: &str,
    style: Style,
) -> Result<Vec<u8>, StoreFault>
    ensures { Stats D.SectorDevice O.opens O.closes style stores.old name.now result stores.new }
{
    let mut text = room_for_figures(alloc)?;
    let device = stores.open(name)?;
    let (told, left) = stat_device(alloc, device);
    stores.close(left);
    match told {
        Ok(figures) => match put_figures(&mut text, style, &figures) {
            Ok(()) => Ok(text),
            Err(_) => Err(StoreFault::Memory),
        },
        Err(fault) => Err(fault),
    }
}

/// Prints how full the store with this name is. The status is 0. If the store is rejected or its
/// device fails (4), or memory is refused (5), prints the fault instead; 6 if the output fails. The
/// device is closed in any case, and nothing is written on it but what completes an interrupted
/// commit.
pub fn stat<D: SectorDevice + Drop, O: Stores<D>, W: Sink, E: Sink>(
    alloc: Global,
    stores: &mut O,
    name: &str,
    style: Style,
    writer: &mut W,
    errors: &mut E,
) -> Status
    ensures { OfWriters (StatsStore D.SectorDevice O.opens O.closes style stores.old stores.new name.now result)
        W.Sink writer.old writer.new E.Sink errors.old errors.new }
{
    let given = stat_store(alloc, stores, name, style);
    end_store(b"plandesk: stat: WriteFault\n", given, writer, errors)
}
