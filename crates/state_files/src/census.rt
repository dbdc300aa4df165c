//! The census files of a state, each opened, read and judged in turn.
ghost use Rattle.std.specs.Prelude.{◌≡◌, IfOk};
ghost use Rattle.desk_model.specs.claim.GeographyModels.{AreBlocks};
ghost use Rattle.pl94_geo.specs.GeoFile.{AreGeoRows};
ghost use Rattle.state_files.specs.claim.State.{ReadsHeader, ReadsSegment, Joins, ReadsState};
ghost use Rattle.state_files.specs.claim.Opening.{opening_of, census_of};

use crate::fault::{FileFault, OpenFault};
use byte_stream::source::Source;
use desk_model::block::BlockRow;
use pl94_geo::geo::{GeoReader, GeoRows};
use pl94_segment::join::{JoinFault, join};
use pl94_segment::record::SegmentNumber;
use pl94_segment::segment::{SegRows, SegmentReader};
use std::alloc::Global;

/// The openings of the geographic header and of the three segments.
#[derive(Drop)]
pub struct CensusFiles<R> {
    pub geo: Result<R, OpenFault>,
    pub seg1: Result<R, OpenFault>,
    pub seg2: Result<R, OpenFault>,
    pub seg3: Result<R, OpenFault>,
}

pub(crate) fn read_header<R: Source>(
    alloc: Global,
    opened: &mut Result<R, OpenFault>,
) -> Result<GeoRows, FileFault>
    ensures read { ReadsHeader (opening_of R.remaining R.turns R.failures opened.old) (opening_of R.remaining R.turns R.failures opened.new) result }
    ensures valid { IfOk result AreGeoRows }
{
    match opened {
        Ok(reader) => match GeoReader::read(alloc, reader) {
            Ok(rows) => Ok(rows),
            Err(fault) => Err(FileFault::Header(fault)),
        },
        Err(fault) => Err(FileFault::NoHeader(*fault)),
    }
}

pub(crate) fn read_segment<R: Source>(
    alloc: Global,
    part: SegmentNumber,
    opened: &mut Result<R, OpenFault>,
) -> Result<SegRows, FileFault>
    ensures { ReadsSegment part (opening_of R.remaining R.turns R.failures opened.old) (opening_of R.remaining R.turns R.failures opened.new) result }
{
    match opened {
        Ok(reader) => match SegmentReader::read(alloc, part, reader) {
            Ok(rows) => Ok(rows),
            Err(fault) => Err(FileFault::Segment(part, fault)),
        },
        Err(fault) => Err(FileFault::NoSegment(part, *fault)),
    }
}

pub(crate) fn join_rows(
    alloc: Global,
    header: &GeoRows,
    first: &SegRows,
    second: &SegRows,
    third: &SegRows,
) -> Result<Vec<BlockRow>, FileFault>
    requires { AreGeoRows header.now }
    ensures joined { Joins header.now first.now second.now third.now result }
    ensures blocks { IfOk result (λ rows. AreBlocks rows.items) }
{
    match join(alloc, header, first, second, third) {
        Ok(rows) => Ok(rows),
        Err(fault) => Err(FileFault::Join(fault)),
    }
}

/// The blocks of a state with their people, rising by number, or the first fault of its files. Of the files that come after a
/// fault nothing is read.
pub fn read_state<R: Source>(
    alloc: Global,
    files: &mut CensusFiles<R>,
) -> Result<Vec<BlockRow>, FileFault>
    ensures read { ReadsState (census_of R.remaining R.turns R.failures files.old) (census_of R.remaining R.turns R.failures files.new) result }
    ensures blocks { IfOk result (λ rows. AreBlocks rows.items) }
{
    let header = read_header(alloc, &mut files.geo)?;
    let first = read_segment(alloc, SegmentNumber::One, &mut files.seg1)?;
    let second = read_segment(alloc, SegmentNumber::Two, &mut files.seg2)?;
    let third = read_segment(alloc, SegmentNumber::Three, &mut files.seg3)?;
    join_rows(alloc, &header, &first, &second, &third)
}
