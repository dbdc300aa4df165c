//! What is read of one line of a segment.
ghost use Rattle.std.specs.Prelude.{◌≡◌, ◌<◌, ◌≤◌, length};
ghost use Rattle.field_text.specs.claim.Fields.{fields};
ghost use Rattle.pl94_segment.specs.claim.Records.{part_number, field_count_of, people_of_field, record_read, line_read};
ghost use Rattle.pl94_segment.specs.claim.SegmentTexts.{line_code};

use byte_stream::reader::LINE_LIMIT;
use field_text::digits::number as record_number;
use field_text::field::{Fields, count_fields};

/// A segment's number.
#[derive(Clone, Copy, PartialEq, Eq)]
pub enum SegmentNumber {
    One,
    Two,
    Three,
}

impl SegmentNumber {
    /// 1, 2 or 3.
    pub fn number(self) -> u8
        ensures { result ≡ part_number self }
    {
        match self {
            SegmentNumber::One => 1,
            SegmentNumber::Two => 2,
            SegmentNumber::Three => 3,
        }
    }

    /// How many fields its lines have.
    fn field_count(self) -> usize
        ensures { result ≡ field_count_of self }
    {
        match self {
            SegmentNumber::One => 149,
            SegmentNumber::Two => 152,
            SegmentNumber::Three => 15,
        }
    }
}

/// The fault of a line, by its code.
#[derive(Clone, Copy)]
pub enum SegmentLineFault {
    /// S1: a wrong number of fields, or longer than 65,536 bytes.
    Shape,
    /// S2: LOGRECNO isn't 1 to 10 digits.
    RecordNumber,
    /// S3: in segment 1, P0010001 isn't 1 to 10 digits or is above 4,294,967,295.
    People,
    /// S4: a LOGRECNO that stood before.
    RepeatedRecord,
}

impl SegmentLineFault {
    /// Its code.
    pub fn code(self) -> &'static str
        ensures { result.now ≡ line_code self }
    {
        match self {
            SegmentLineFault::Shape => "S1",
            SegmentLineFault::RecordNumber => "S2",
            SegmentLineFault::People => "S3",
            SegmentLineFault::RepeatedRecord => "S4",
        }
    }
}

/// A record's number (LOGRECNO) and, in segment 1, its total population (P0010001).
#[derive(Clone, Copy)]
pub struct SegRecord {
    pub number: u64,
    pub people: u32,
}

/// The total population of a record.
fn read_people(text: &[u8]) -> Option<u32>
    ensures { result ≡ people_of_field text.now }
{
    let people = record_number(text, 10)?;
    if people > 4_294_967_295 {
        return None;
    }
    Some(people as u32)
}

/// The record of a line with the right number of fields.
fn read_record(part: SegmentNumber, line: &[u8]) -> Result<SegRecord, SegmentLineFault>
    requires { 6 ≤ length (fields line.now) }
    ensures { result ≡ record_read part (fields line.now) }
{
    let mut fields = Fields::new(line);
    let Some(number) = record_number(fields.field_after(4), 10) else {
        return Err(SegmentLineFault::RecordNumber);
    };
    if part != SegmentNumber::One {
        return Ok(SegRecord { number, people: 0 });
    }
    let Some(people) = read_people(fields.field_after(0)) else {
        return Err(SegmentLineFault::People);
    };
    Ok(SegRecord { number, people })
}

/// What a line says.
pub fn read_line(part: SegmentNumber, line: &[u8]) -> Result<SegRecord, SegmentLineFault>
    ensures { result ≡ line_read part line.now }
{
    if line.len() > LINE_LIMIT || count_fields(line) != part.field_count() {
        return Err(SegmentLineFault::Shape);
    }
    read_record(part, line)
}
