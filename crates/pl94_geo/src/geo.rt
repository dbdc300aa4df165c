//! The geographic header of a whole state.
ghost use Rattle.std.specs.Prelude.{◌≡◌, ◌+◌, ◌-◌, ◌^◌, ◌≤◌, ℕ, List, Err, Ok, IfOk, min};
ghost use Rattle.byte_stream.specs.claim.Counts.{counted};
ghost use Rattle.std.specs.Io.KnownBytes.{Consumes};
ghost use Rattle.byte_stream.specs.claim.Reading.{turn_limit};
ghost use Rattle.pl94_geo.specs.Holding.{Holds};
ghost use Rattle.pl94_geo.specs.GeoFile.{AreGeoRows, Finishes, told, refused};
ghost use Rattle.pl94_geo.specs.claim.GeoFile.{IsRead, failures_after_file};
ghost use Rattle.pl94_geo.specs.declared.entry.GeoRecord.{GeoRecord as TakenEntry};

use crate::entry::HeaderLineFault;
use crate::header::{GeoBlock, Header, HeaderRefusal};
use byte_stream::reader::{LineReader, ReadFault, Step};
use byte_stream::source::Source;
use std::alloc::Global;
use std::fmt;

/// The taken records of a header.
#[derive(Drop)]
pub struct GeoRows {
    /// The blocks, in the order of their lines.
    pub blocks: Vec<GeoBlock>,
    /// The state record's LOGRECNO.
    pub state_record: Option<u64>,
}

/// Why a header isn't read. Each carries the number of its line, counted from 1.
#[derive(Clone, Copy)]
pub enum GeoFault {
    /// G1 to G7: the first line with a fault.
    Line(HeaderLineFault, u64),
    /// G8: the source failed.
    Read(u64),
    /// G9: no block. The line is the number of lines.
    NoBlock(u64),
    /// G10: the source was asked 4,294,967,296 times.
    TurnLimit(u64),
    Memory,
}

impl fmt::Display for GeoFault {
    ghost use Rattle.std.specs.Prelude.{Some};
    ghost use Rattle.pl94_geo.specs.claim.GeoTexts.{header_text};

    ghost output = { λ fault. Some (header_text fault) };

    /// The code and the line, as `G1 line 2`.
    fn fmt<W: fmt::Write>(&self, f: &mut fmt::Formatter<W>) -> fmt::Result {
        match *self {
            GeoFault::Line(fault, line) => write!(f, "{} line {}", fault.code(), line),
            GeoFault::Read(line) => write!(f, "G8 line {}", line),
            GeoFault::NoBlock(line) => write!(f, "G9 line {}", line),
            GeoFault::TurnLimit(line) => write!(f, "G10 line {}", line),
            GeoFault::Memory => f.write_str("Memory"),
        }
    }
}

/// Reads a header line by line.
pub struct GeoReader;

fn read_fault(fault: ReadFault, line: u64) -> GeoFault
    ensures { result ≡ told fault line }
{
    match fault {
        ReadFault::TooLong => GeoFault::Line(HeaderLineFault::Shape, line),
        ReadFault::Failed => GeoFault::Read(line),
        ReadFault::TurnLimit => GeoFault::TurnLimit(line),
    }
}

fn line_fault(refusal: HeaderRefusal, line: u64) -> GeoFault
    ensures { result ≡ refused refusal line }
{
    match refusal {
        HeaderRefusal::Fault(fault) => GeoFault::Line(fault, line),
        HeaderRefusal::Memory => GeoFault::Memory,
    }
}

/// What the records of all lines are.
fn finish(header: Header, lines: u64) -> Result<GeoRows, GeoFault>
    ensures { (es : List TakenEntry) → Holds header es → Finishes es lines result }
{
    let Header {
        state: _,
        state_record,
        blocks,
        ids: _,
        numbers: _,
    } = header;
    if blocks.is_empty() {
        return Err(GeoFault::NoBlock(lines));
    }
    Ok(GeoRows {
        blocks,
        state_record,
    })
}

impl GeoReader {
    /// Reads the header to the end of the source. It holds one line at a time.
    pub fn read<R: Source>(alloc: Global, reader: &mut R) -> Result<GeoRows, GeoFault>
        ensures read { (text : List ℕ) × Consumes (R.remaining reader.old) (R.remaining reader.new) text
            × IsRead text (R.remaining reader.new) result }
        ensures valid { IfOk result AreGeoRows }
        ensures failures { R.failures reader.new ≡ failures_after_file (R.failures reader.old) result }
        ensures turns { (line : ℕ) → result ≡ Err (GeoFault.TurnLimit line) → R.turns reader.new ≡ counted (R.turns reader.old) turn_limit }
        ensures most { R.turns reader.new ≤ R.turns reader.old + turn_limit }
    {
        let Ok(mut text) = LineReader::new(alloc) else {
            return Err(GeoFault::Memory);
        };
        let mut header = Header::new(alloc);
        loop {
            match text.advance(reader) {
                Ok(Step::Line) => {
                    if let Err(refusal) = header.judge_line(text.line()) {
                        return Err(line_fault(refusal, text.number()));
                    }
                }
                Ok(Step::LastLine) => {
                    if let Err(refusal) = header.judge_line(text.line()) {
                        return Err(line_fault(refusal, text.number()));
                    }
                    return finish(header, text.number());
                }
                Ok(Step::End) => return finish(header, text.number()),
                Err(fault) => return Err(read_fault(fault, text.number() + 1)),
            }
        }
    }
}
