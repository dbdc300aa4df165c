//! `format`: a store is made in a new file.
ghost use Rattle.std.specs.Prelude.{◌≡◌, OnOk, OnErr};
ghost use Rattle.command_output.specs.Writing.{OfWriters, written_of};
ghost use Rattle.store_command.specs.Formatting.{Makes, Formats, TellsSize};
ghost use Rattle.page_store.specs.Formats.{IsJournalSize};

use crate::fault::{StoreFault, store_fault};
use crate::stores::Stores;
use crate::telling::end_store;
use crate::texts::{formatted_text, size_line};
use byte_stream::sink::Sink;
use command_output::status::Status;
use command_output::telling::send_line;
use page_store::has_room;
use sector_device::SectorDevice;
use std::alloc::{AllocError, Global};

/// The first number of sectors that make a file of 1,000,000,000 bytes or more.
const LARGE: u32 = 244_141;

/// Prints the number of bytes of a large file, as far as it can be written.
fn tell_size<E: Sink>(alloc: Global, sectors: u32, errors: &mut E) -> Result<(), AllocError>
    ensures told { OnOk result (TellsSize sectors (written_of E.contents E.failures errors.old) (written_of E.contents E.failures errors.new)) }
    ensures same { OnErr result (written_of E.contents E.failures errors.new ≡ written_of E.contents E.failures errors.old) }
{
    if sectors < LARGE {
        return Ok(());
    }
    let line = size_line(alloc, sectors)?;
    send_line(errors, line.as_slice());
    Ok(())
}

/// Makes a store and returns its line. Its size is printed before, if it is large.
fn make_store<D: SectorDevice + Drop, O: Stores<D>, E: Sink>(
    alloc: Global,
    stores: &mut O,
    name: &str,
    with_bytes: bool,
    sectors: u32,
    journal_pages: u32,
    errors: &mut E,
) -> Result<Vec<u8>, StoreFault>
    requires size { IsJournalSize journal_pages }
    ensures { Makes D.SectorDevice O.makes O.closes stores.old name.now with_bytes sectors journal_pages result stores.new
        (written_of E.contents E.failures errors.old) (written_of E.contents E.failures errors.new) }
{
    if !has_room(sectors, journal_pages) {
        return Err(StoreFault::TooSmall);
    }
    let text = formatted_text(alloc, with_bytes, sectors, journal_pages)?;
    tell_size(alloc, sectors, errors)?;
    let mut device = stores.make(name, sectors)?;
    let formatted = desk_store_pages::format(alloc, &mut device, journal_pages);
    stores.close(device);
    match formatted {
        Ok(()) => Ok(text),
        Err(e) => Err(store_fault(e)),
    }
}

/// Makes a store of this many sectors and journal pages in a new file, and prints both, with the
/// number of bytes if asked for. The status is 0. If the store is rejected (4) or memory is refused
/// (5), prints the fault instead; 6 if the output fails. For too few sectors no file is made; a
/// file that is made is closed as the formatting left it. If the file will have 1,000,000,000 bytes
/// or more, prints that before it is made.
pub fn format<D: SectorDevice + Drop, O: Stores<D>, W: Sink, E: Sink>(
    alloc: Global,
    stores: &mut O,
    name: &str,
    with_bytes: bool,
    sectors: u32,
    journal_pages: u32,
    writer: &mut W,
    errors: &mut E,
) -> Status
    requires size { IsJournalSize journal_pages }
    ensures { OfWriters (Formats D.SectorDevice O.makes O.closes stores.old stores.new name.now with_bytes sectors journal_pages result)
        W.Sink writer.old writer.new E.Sink errors.old errors.new }
{
    let given = make_store(
        alloc,
        stores,
        name,
        with_bytes,
        sectors,
        journal_pages,
        errors,
    );
    end_store(b"plandesk: format: WriteFault\n", given, writer, errors)
}
