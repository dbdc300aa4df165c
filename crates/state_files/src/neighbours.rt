//! The geography of a state: its blocks, and what its neighbour file says of them.
ghost use Rattle.std.specs.Prelude.{◌≡◌, IfOk, All};
ghost use Rattle.desk_model.specs.claim.GeographyModels.{AreBlocks};
ghost use Rattle.desk_model.specs.Geography.{AreDifferentBlocks};
ghost use Rattle.state_files.specs.claim.Opening.{opening_of};
ghost use Rattle.state_files.specs.claim.GeographyModels.{ReadsNeighbours, MakesGeography, ReadsWithNeighbours};

use crate::fault::{FileFault, OpenFault};
use byte_stream::source::Source;
use desk_model::block::{BlockId, BlockRow};
use desk_model::geography::Geography;
use gal_text::fault::GalFault;
use gal_text::gal::read;
use std::alloc::Global;

fn read_neighbours<R: Source>(
    alloc: Global,
    opened: &mut Result<R, OpenFault>,
    blocks: &[BlockRow],
) -> Result<Vec<(BlockId, BlockId)>, FileFault>
    requires { AreBlocks blocks.now }
    ensures read { ReadsNeighbours blocks.now (opening_of R.remaining R.turns R.failures opened.old)
        (opening_of R.remaining R.turns R.failures opened.new) result }
    ensures valid { IfOk result (λ pairs. All (AreDifferentBlocks blocks.now) pairs.items) }
{
    match opened {
        Ok(reader) => match read(alloc, reader, blocks) {
            Ok(pairs) => Ok(pairs),
            Err(fault) => Err(FileFault::Gal(fault)),
        },
        Err(fault) => Err(FileFault::NoGal(*fault)),
    }
}

fn make_geography(
    alloc: Global,
    blocks: Vec<BlockRow>,
    pairs: &[(BlockId, BlockId)],
) -> Result<Geography, FileFault>
    requires blocks { AreBlocks blocks.items }
    requires pairs { All (AreDifferentBlocks blocks.items) pairs.now }
    ensures { MakesGeography blocks.items pairs.now result }
{
    match Geography::make(alloc, blocks, pairs) {
        Ok(geography) => Ok(geography),
        Err(_) => Err(FileFault::Gal(GalFault::Memory)),
    }
}

/// The geography of these blocks and of the pairs that a neighbour file says, or the file's fault.
pub fn read_with_neighbours<R: Source>(
    alloc: Global,
    blocks: Vec<BlockRow>,
    opened: &mut Result<R, OpenFault>,
) -> Result<Geography, FileFault>
    requires { AreBlocks blocks.items }
    ensures { ReadsWithNeighbours blocks.items (opening_of R.remaining R.turns R.failures opened.old)
        (opening_of R.remaining R.turns R.failures opened.new) result }
{
    let pairs = read_neighbours(alloc, opened, blocks.as_slice())?;
    make_geography(alloc, blocks, pairs.as_slice())
}
