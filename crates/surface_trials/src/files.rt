//! The files of the sample geography, as a state's files are read.
ghost use Rattle.pl94_geo.specs.GeoFile.{AreGeoRows};

use crate::samples::{COUNTY_BODY, COUNTY_PLAN, sample_state};
use baf_text::{BafFault, read as read_plan, whole, write};
use byte_stream::source::ReadSource;
use desk_model::block::BlockRow;
use desk_model::geography::Geography;
use desk_model::kind::Kind;
use desk_model::reply::BodyFault;
use gal_text::read as read_neighbours;
use pl94_geo::{GeoReader, GeoRows};
use pl94_segment::join::join;
use pl94_segment::{SegRows, SegmentNumber, SegmentReader};
use std::alloc::Global;
use std::process::Abort;

/// The lines of the header, each up to its last field that isn't empty, and the number of bars after it.
static HEADER: [(&[u8], usize); 5] = [
    (b"||040||00|||0000001|||||19", 84),
    (
        b"||750||00|||0000002|||||19||001|||||||||||||||00100|C1||000100||1001",
        62,
    ),
    (
        b"||750||00|||0000003|||||19||001|||||||||||||||00100|C1||000100||1002",
        62,
    ),
    (
        b"||750||00|||0000004|||||19||003|||||||||||||||00100|C1||000100||1001",
        62,
    ),
    (
        b"||750||00|||0000005|||||19||003|||||||||||||||00300|U1||000100||1002",
        62,
    ),
];

/// The first six fields of the lines of segment 1. All other cells are 0, here and in the other segments.
static PEOPLE: [&[u8]; 5] = [
    b"||||0000001|2000",
    b"||||0000002|505",
    b"||||0000003|505",
    b"||||0000004|495",
    b"||||0000005|495",
];

/// The first six fields of the lines of the other segments.
static NOBODY: [&[u8]; 5] = [
    b"||||0000001|0",
    b"||||0000002|0",
    b"||||0000003|0",
    b"||||0000004|0",
    b"||||0000005|0",
];

/// Each block lies next to two others.
const NEIGHBOURS: &[u8] =
    b"4\n190010001001001 2\n190010001001002 190030001001001\n190010001001002 2\n190010001001001 190030001001002\n190030001001001 2\n190010001001001 190030001001002\n190030001001002 2\n190010001001002 190030001001001\n";

/// Adds a text so many times, and LF.
fn push_all<R: Abort>(rt: &R, text: &mut Vec<u8>, part: &[u8], times: usize) {
    for _ in 0..times {
        text.extend_from_slice(part).expect(rt, "no memory");
    }
    text.extend_from_slice(b"\n").expect(rt, "no memory");
}

fn header<R: Abort>(rt: &R, alloc: Global) -> Vec<u8> {
    let mut text = Vec::new(alloc);
    for line in &HEADER {
        let (start, bars) = *line;
        text.extend_from_slice(start).expect(rt, "no memory");
        push_all(rt, &mut text, b"|", bars);
    }
    text
}

/// A segment whose lines have so many cells after field 6.
fn segment<R: Abort>(rt: &R, alloc: Global, lines: &[&[u8]; 5], cells: usize) -> Vec<u8> {
    let mut text = Vec::new(alloc);
    for line in lines {
        text.extend_from_slice(*line).expect(rt, "no memory");
        push_all(rt, &mut text, b"|0", cells);
    }
    text
}

fn read_header<R: Abort>(rt: &R, alloc: Global) -> GeoRows
    ensures { AreGeoRows result }
{
    let text = header(rt, alloc);
    let mut source = ReadSource::new(text.as_slice());
    GeoReader::read(alloc, &mut source)
        .ok()
        .expect(rt, "no header")
}

fn read_segment<R: Abort>(
    rt: &R,
    alloc: Global,
    part: SegmentNumber,
    lines: &[&[u8]; 5],
    cells: usize,
) -> SegRows {
    let text = segment(rt, alloc, lines, cells);
    let mut source = ReadSource::new(text.as_slice());
    SegmentReader::read(alloc, part, &mut source)
        .ok()
        .expect(rt, "no segment")
}

/// Whether a block has this number, city and number of people.
fn is_block(row: &BlockRow, id: u64, city: Option<u32>, people: u32) -> bool {
    (row.id.number() == id) & (row.city == city) & (row.population == people)
}

/// Whether these are the blocks of the sample.
fn are_blocks(rows: &[BlockRow]) -> bool {
    match rows {
        [a, b, c, d] => {
            is_block(a, 190010001001001, Some(100), 505)
                & is_block(b, 190010001001002, Some(100), 505)
                & is_block(c, 190030001001001, Some(100), 495)
                & is_block(d, 190030001001002, None, 495)
        }
        _ => false,
    }
}

/// Whether the pairs are those of blocks 0 and 1, 0 and 2, 1 and 3, 2 and 3.
fn are_pairs(state: &Geography) -> bool {
    match state.pairs() {
        [ab, ac, bd, cd] => {
            (ab.first == 0)
                & (ab.second == 1)
                & (ac.first == 0)
                & (ac.second == 2)
                & (bd.first == 1)
                & (bd.second == 3)
                & (cd.first == 2)
                & (cd.second == 3)
        }
        _ => false,
    }
}

#[test]
fn a_state_is_read(rt: HostRuntime) {
    let rt = &rt;
    let alloc = rt.alloc();
    let geo = read_header(rt, alloc);
    let first = read_segment(rt, alloc, SegmentNumber::One, &PEOPLE, 143);
    let second = read_segment(rt, alloc, SegmentNumber::Two, &NOBODY, 146);
    let third = read_segment(rt, alloc, SegmentNumber::Three, &NOBODY, 9);
    let rows = join(alloc, &geo, &first, &second, &third)
        .ok()
        .expect(rt, "not joined");
    holds!(rt; are_blocks(rows.as_slice()));
    let mut source = ReadSource::new(NEIGHBOURS);
    let pairs = read_neighbours(alloc, &mut source, rows.as_slice())
        .ok()
        .expect(rt, "no neighbours");
    let state = Geography::make(alloc, rows, pairs.as_slice()).expect(rt, "no memory");
    holds!(rt; are_blocks(state.blocks()) & are_pairs(&state) & (state.counties().len() == 2));
}

/// A plan that leaves the last block unassigned, as it is sent and as it is read back.
const SENT: &[u8] =
    b"BLOCKID|DISTRICT\r\n190010001001001|001\r\n190010001001002|001\r\n190030001001001|002\r\n190030001001002|ZZZ";

const READ_BACK: &[u8] =
    b"BLOCKID|DISTRICT\n190010001001001|001\n190010001001002|001\n190030001001001|002\n190030001001002|ZZZ\n";

/// The first block on lines 2 and 4.
const TWICE: &[u8] = b"BLOCKID|DISTRICT\n190010001001001|1\n190010001001002|1\n190010001001001|1\n";

#[test]
fn a_plan_is_read_and_written(rt: HostRuntime) {
    let rt = &rt;
    let alloc = rt.alloc();
    let state = sample_state(rt, alloc);
    let listed = read_plan(alloc, SENT, &state, 2)
        .ok()
        .expect(rt, "not read");
    let districts = whole(alloc, &listed).expect(rt, "no memory");
    holds!(rt; districts.as_slice() == [1, 1, 2, 0].as_slice());
    let text = write(alloc, &[1, 1, 2, 0], &state, Kind::House).expect(rt, "no memory");
    holds!(rt; text.as_slice() == READ_BACK);
    let text = write(alloc, &COUNTY_PLAN, &state, Kind::Congress).expect(rt, "no memory");
    holds!(rt; text.as_slice() == COUNTY_BODY);
    let is_twice = matches!(
        read_plan(alloc, TWICE, &state, 2),
        Err(BafFault::Body {
            code: BodyFault::RepeatedBlock,
            line: 4
        })
    );
    holds!(rt; is_twice);
}
