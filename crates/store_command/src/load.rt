//! `load`: a store is filled with what a state's files say.
ghost use Rattle.std.specs.Prelude.{◌≡◌};
ghost use Rattle.command_output.specs.Writing.{OfWriters};
ghost use Rattle.store_command.specs.claim.Files.{openings_of, ReadsGeography};
ghost use Rattle.store_command.specs.Loading.{Fills, EndsLoad, Loads};

use crate::fault::StoreFault;
use crate::filling::fill;
use crate::stores::Stores;
use crate::telling::end_store;
use crate::texts::loaded_text;
use byte_stream::progress::Progress;
use byte_stream::sink::Sink;
use byte_stream::source::Source;
use command_output::status::Status;
use command_output::telling::tell;
use desk_model::geography::Geography;
use sector_device::SectorDevice;
use state_files::census::{CensusFiles, read_state};
use state_files::fault::{FileFault, OpenFault};
use state_files::neighbours::read_with_neighbours;
use std::alloc::Global;
use std::sync::Arc;

/// The openings of a state's census files and of its neighbour file.
#[derive(Drop)]
pub struct StateFiles<R> {
    pub census: CensusFiles<R>,
    pub gal: Result<R, OpenFault>,
}

/// Returns the geography that the files say, or their first fault.
pub fn read_geography<R: Source>(
    alloc: Global,
    files: &mut StateFiles<R>,
) -> Result<Geography, FileFault>
    ensures { ReadsGeography (openings_of R.remaining R.turns R.failures files.old) (openings_of R.remaining R.turns R.failures files.new) result }
{
    let rows = read_state(alloc, &mut files.census)?;
    read_with_neighbours(alloc, rows, &mut files.gal)
}

/// Fills the store of a name with a geography, and closes it: what is printed of it.
fn fill_store<D: SectorDevice + Drop, O: Stores<D>, P: Progress>(
    alloc: Global,
    stores: &mut O,
    name: &str,
    geography: Geography,
    progress: &mut P,
) -> Result<Vec<u8>, StoreFault>
    ensures { Fills D.SectorDevice O.opens O.closes stores.old name.now geography result stores.new }
{
    let text = loaded_text(alloc, &geography)?;
    let Ok(geography) = Arc::new(alloc, geography) else {
        return Err(StoreFault::Memory);
    };
    let device = stores.open(name)?;
    let (filled, left) = fill(alloc, device, geography, progress);
    stores.close(left);
    match filled {
        Ok(()) => Ok(text),
        Err(fault) => Err(fault),
    }
}

/// Fills the store with this name with the geography of the files, or prints their fault.
fn end_load<D: SectorDevice + Drop, O: Stores<D>, P: Progress, W: Sink, E: Sink>(
    alloc: Global,
    read: Result<Geography, FileFault>,
    stores: &mut O,
    name: &str,
    progress: &mut P,
    writer: &mut W,
    errors: &mut E,
) -> Status
    ensures { OfWriters (EndsLoad D.SectorDevice O.opens O.closes stores.old stores.new name.now read result)
        W.Sink writer.old writer.new E.Sink errors.old errors.new }
{
    match read {
        Ok(geography) => {
            let given = fill_store(alloc, stores, name, geography, progress);
            end_store(b"plandesk: load: WriteFault\n", given, writer, errors)
        }
        Err(fault) => tell(alloc, fault, errors),
    }
}

/// Fills a store with the geography of the files, and prints its blocks, counties and people. The
/// status is 0. If a file is rejected (3), the store is (4) or memory is refused (5), prints the
/// fault instead; 6 if the output fails. The files are judged before the store is opened, and its
/// device is closed in any case. `progress` receives the number of rows written so far.
pub fn load<R: Source, D: SectorDevice + Drop, O: Stores<D>, P: Progress, W: Sink, E: Sink>(
    alloc: Global,
    files: &mut StateFiles<R>,
    stores: &mut O,
    name: &str,
    progress: &mut P,
    writer: &mut W,
    errors: &mut E,
) -> Status
    ensures { OfWriters
        (Loads D.SectorDevice O.opens O.closes (openings_of R.remaining R.turns R.failures files.old)
        (openings_of R.remaining R.turns R.failures files.new) stores.old stores.new name.now result)
        W.Sink writer.old writer.new E.Sink errors.old errors.new }
{
    let read = read_geography(alloc, files);
    end_load(alloc, read, stores, name, progress, writer, errors)
}
