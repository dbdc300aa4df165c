//! The census files of a state, read at once and judged in their order.
ghost use Rattle.std.specs.Prelude.{◌≡◌, IfOk};
ghost use Rattle.desk_model.specs.claim.GeographyModels.{AreBlocks};
ghost use Rattle.pl94_geo.specs.GeoFile.{AreGeoRows};
ghost use Rattle.state_files.specs.AtOnce.{ReadsHeaderFile, ReadsSegmentFile, ReadsEach, JudgesEach, ReadsAtOnce, ReadsStateBy};

use crate::census::{CensusFiles, join_rows, read_header, read_segment, read_state};
use crate::fault::{FileFault, OpenFault};
use byte_stream::source::Source;
use desk_model::block::BlockRow;
use pl94_geo::geo::GeoRows;
use pl94_segment::record::SegmentNumber;
use pl94_segment::segment::SegRows;
use std::alloc::Global;
use std::mem;
use std::thread::{Threads, join};

/// The result of reading each file.
#[derive(Drop)]
struct Found {
    header: Result<GeoRows, FileFault>,
    first: Result<SegRows, FileFault>,
    second: Result<SegRows, FileFault>,
    third: Result<SegRows, FileFault>,
}

/// Reads the header of a thread's own, which is given back.
fn header_of<R: Source>(
    alloc: Global,
    mut opened: Result<R, OpenFault>,
) -> (Result<R, OpenFault>, Result<GeoRows, FileFault>)
    ensures read { ReadsHeaderFile R.Source opened result.0 result.1 }
    ensures valid { IfOk result.1 AreGeoRows }
{
    let read = read_header(alloc, &mut opened);
    (opened, read)
}

/// The same of a segment.
fn segment_of<R: Source>(
    alloc: Global,
    part: SegmentNumber,
    mut opened: Result<R, OpenFault>,
) -> (Result<R, OpenFault>, Result<SegRows, FileFault>)
    ensures { ReadsSegmentFile R.Source part opened result.0 result.1 }
{
    let read = read_segment(alloc, part, &mut opened);
    (opened, read)
}

/// Reads the header and the first segment at the same time.
fn read_first<T: Threads + Sync, R: Source + Send + Drop>(
    rt: &T,
    alloc: Global,
    geo: Result<R, OpenFault>,
    seg1: Result<R, OpenFault>,
) -> (
    (Result<R, OpenFault>, Result<GeoRows, FileFault>),
    (Result<R, OpenFault>, Result<SegRows, FileFault>),
)
    ensures header { ReadsHeaderFile R.Source geo result.0.0 result.0.1 }
    ensures valid { IfOk result.0.1 AreGeoRows }
    ensures first { ReadsSegmentFile R.Source SegmentNumber.One seg1 result.1.0 result.1.1 }
{
    join(
        rt,
        move || header_of(alloc, geo),
        move || segment_of(alloc, SegmentNumber::One, seg1),
    )
}

/// Reads the second and the third segment at the same time.
fn read_last<T: Threads + Sync, R: Source + Send + Drop>(
    rt: &T,
    alloc: Global,
    seg2: Result<R, OpenFault>,
    seg3: Result<R, OpenFault>,
) -> (
    (Result<R, OpenFault>, Result<SegRows, FileFault>),
    (Result<R, OpenFault>, Result<SegRows, FileFault>),
)
    ensures second { ReadsSegmentFile R.Source SegmentNumber.Two seg2 result.0.0 result.0.1 }
    ensures third { ReadsSegmentFile R.Source SegmentNumber.Three seg3 result.1.0 result.1.1 }
{
    join(
        rt,
        move || segment_of(alloc, SegmentNumber::Two, seg2),
        move || segment_of(alloc, SegmentNumber::Three, seg3),
    )
}

/// Takes an opening out of its place, for a thread.
fn take<R>(opened: &mut Result<R, OpenFault>) -> Result<R, OpenFault>
    ensures { result ≡ opened.old }
{
    mem::replace(opened, Err(OpenFault::Unreadable))
}

/// Reads all files, each in a thread of its own where one can be started, and puts them back.
fn read_each<T: Threads + Sync, R: Source + Send + Drop>(
    rt: &T,
    alloc: Global,
    files: &mut CensusFiles<R>,
) -> Found
    ensures each { ReadsEach R.Source files.old files.new result.header result.first result.second result.third }
    ensures valid { IfOk result.header AreGeoRows }
{
    let geo = take(&mut files.geo);
    let seg1 = take(&mut files.seg1);
    let seg2 = take(&mut files.seg2);
    let seg3 = take(&mut files.seg3);
    let (((geo, header), (seg1, first)), ((seg2, second), (seg3, third))) = join(
        rt,
        move || read_first(rt, alloc, geo, seg1),
        move || read_last(rt, alloc, seg2, seg3),
    );
    files.geo = geo;
    files.seg1 = seg1;
    files.seg2 = seg2;
    files.seg3 = seg3;
    Found {
        header,
        first,
        second,
        third,
    }
}

/// What is made of the header and the segments, or the fault of the first of them that has one.
fn judge_each(alloc: Global, found: Found) -> Result<Vec<BlockRow>, FileFault>
    requires { IfOk found.header AreGeoRows }
    ensures judged { JudgesEach found.header found.first found.second found.third result }
    ensures blocks { IfOk result (λ rows. AreBlocks rows.items) }
{
    let Found {
        header,
        first,
        second,
        third,
    } = found;
    let header = header?;
    let first = first?;
    let second = second?;
    let third = third?;
    join_rows(alloc, &header, &first, &second, &third)
}

/// What `read_state` gives, of files that are all read.
fn read_at_once<T: Threads + Sync, R: Source + Send + Drop>(
    rt: &T,
    alloc: Global,
    files: &mut CensusFiles<R>,
) -> Result<Vec<BlockRow>, FileFault>
    ensures read { ReadsAtOnce R.Source files.old files.new result }
    ensures blocks { IfOk result (λ rows. AreBlocks rows.items) }
{
    let found = read_each(rt, alloc, files);
    judge_each(alloc, found)
}

/// Returns what `read_state` returns, by several workers. More than one worker read all files at
/// once, so a file after a faulty one may have been read too.
pub fn read_state_by<T: Threads + Sync, R: Source + Send + Drop>(
    rt: &T,
    alloc: Global,
    workers: u32,
    files: &mut CensusFiles<R>,
) -> Result<Vec<BlockRow>, FileFault>
    ensures read { ReadsStateBy R.Source workers files.old files.new result }
    ensures blocks { IfOk result (λ rows. AreBlocks rows.items) }
{
    if workers <= 1 {
        return read_state(alloc, files);
    }
    read_at_once(rt, alloc, files)
}
