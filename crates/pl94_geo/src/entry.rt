//! What is read of one line of the geographic header.
ghost use Rattle.std.specs.Prelude.{◌≡◌, ◌+◌, ◌*◌, ◌<◌, ◌^◌, ◌==◌, length, IfSome, IfOk, Option};
ghost use Rattle.field_text.specs.claim.Fields.{fields};
ghost use Rattle.pl94_geo.specs.claim.Entries.{is_city, place_of, block_read, state_record_read, line_read, block_number};
ghost use Rattle.pl94_geo.specs.Entries.{IsEntry, AreBlockFields};
ghost use Rattle.pl94_geo.specs.claim.GeoTexts.{line_code};
ghost use Rattle.desk_model.specs.claim.Block.{state_of};

use byte_stream::reader::LINE_LIMIT;
use desk_model::block::BlockId;
use field_text::digits::{digits_exactly, number as record_number};
use field_text::field::{Fields, count_fields};

/// How many fields a line has.
pub const FIELD_COUNT: usize = 97;

/// The fault of a line, by its code.
#[derive(Clone, Copy)]
pub enum HeaderLineFault {
    /// G1: not 97 fields, or longer than 65,536 bytes.
    Shape,
    /// G2: LOGRECNO of a taken record isn't 1 to 10 digits.
    RecordNumber,
    /// G3: a bad STATE, COUNTY, TRACT, BLOCK or PLACE of a taken block, or a bad STATE of the state record.
    Codes,
    /// G4: a second STATE among the taken records, or a second state record.
    State,
    /// G5: a block that stood before.
    RepeatedBlock,
    /// G6: a LOGRECNO that a taken record had before.
    RepeatedRecord,
    /// G7: more blocks than a geography may have.
    TooManyBlocks,
}

impl HeaderLineFault {
    /// Its code.
    pub fn code(self) -> &'static str
        ensures { result.now ≡ line_code self }
    {
        match self {
            HeaderLineFault::Shape => "G1",
            HeaderLineFault::RecordNumber => "G2",
            HeaderLineFault::Codes => "G3",
            HeaderLineFault::State => "G4",
            HeaderLineFault::RepeatedBlock => "G5",
            HeaderLineFault::RepeatedRecord => "G6",
            HeaderLineFault::TooManyBlocks => "G7",
        }
    }
}

/// A taken record: a block (SUMLEV 750) or the state (SUMLEV 040), both with GEOCOMP 00.
#[derive(Clone, Copy)]
pub struct GeoRecord {
    /// None for the state record.
    pub block: Option<BlockId>,
    /// LOGRECNO, which the segments' records have too.
    pub number: u64,
    pub state: u64,
    /// The incorporated place that a block lies in.
    pub city: Option<u32>,
}

/// PLACE: none, or its 5 digits. `None` where it is neither.
fn place(text: &[u8]) -> Option<Option<u32>>
    ensures { result ≡ place_of text.now }
{
    if text.is_empty() {
        return Some(None);
    }
    let code = digits_exactly(text, 5)?;
    if code == 99_999 {
        return Some(None);
    }
    Some(Some(code as u32))
}

/// Whether PLACECC is of an incorporated place.
fn is_incorporated(text: &[u8]) -> bool
    ensures { result ≡ is_city text.now }
{
    !text.is_empty() && text[0] == b'C'
}

/// The number of a block by the parts of its code.
fn block_id(state: u64, county: u64, tract: u64, block: u64) -> BlockId
    requires state { state < 10 ^ 2 }
    requires county { county < 10 ^ 3 }
    requires tract { tract < 10 ^ 6 }
    requires block { block < 10 ^ 4 }
    ensures value { result ≡ block_number state county tract block }
    ensures state { state_of result ≡ state }
{
    BlockId::from_number(
        state * 10_000_000_000_000 + county * 10_000_000_000 + tract * 10_000 + block,
    )
}

/// The fields of a block record that are read.
#[derive(Clone, Copy)]
struct BlockFields<'t> {
    number: &'t [u8],
    state: &'t [u8],
    county: &'t [u8],
    place: &'t [u8],
    place_class: &'t [u8],
    tract: &'t [u8],
    block: &'t [u8],
}

/// Finds them in a line.
fn block_fields(line: &[u8]) -> BlockFields<'_>
    requires { length (fields line.now) ≡ 97 }
    ensures { AreBlockFields (fields line.now) result }
{
    let mut fields = Fields::new(line);
    let number = fields.field_after(7);
    let state = fields.field_after(4);
    let county = fields.field_after(1);
    let place = fields.field_after(14);
    let place_class = fields.field_after(0);
    let tract = fields.field_after(1);
    let block = fields.field_after(1);
    BlockFields {
        number,
        state,
        county,
        place,
        place_class,
        tract,
        block,
    }
}

/// A block record.
fn read_block(line: &[u8]) -> Result<GeoRecord, HeaderLineFault>
    requires { length (fields line.now) ≡ 97 }
    ensures entry { result ≡ block_read (fields line.now) }
    ensures valid { IfOk result IsEntry }
{
    let found = block_fields(line);
    let Some(number) = record_number(found.number, 10) else {
        return Err(HeaderLineFault::RecordNumber);
    };
    let Some(state) = digits_exactly(found.state, 2) else {
        return Err(HeaderLineFault::Codes);
    };
    let Some(county) = digits_exactly(found.county, 3) else {
        return Err(HeaderLineFault::Codes);
    };
    let Some(place) = place(found.place) else {
        return Err(HeaderLineFault::Codes);
    };
    let Some(tract) = digits_exactly(found.tract, 6) else {
        return Err(HeaderLineFault::Codes);
    };
    let Some(block) = digits_exactly(found.block, 4) else {
        return Err(HeaderLineFault::Codes);
    };
    let id = block_id(state, county, tract, block);
    let city = if is_incorporated(found.place_class) {
        place
    } else {
        None
    };
    Ok(GeoRecord {
        block: Some(id),
        number,
        state,
        city,
    })
}

/// A state record.
fn read_state(line: &[u8]) -> Result<GeoRecord, HeaderLineFault>
    requires { length (fields line.now) ≡ 97 }
    ensures entry { result ≡ state_record_read (fields line.now) }
    ensures valid { IfOk result IsEntry }
{
    let mut fields = Fields::new(line);
    let Some(number) = record_number(fields.field_after(7), 10) else {
        return Err(HeaderLineFault::RecordNumber);
    };
    let Some(state) = digits_exactly(fields.field_after(4), 2) else {
        return Err(HeaderLineFault::Codes);
    };
    Ok(GeoRecord {
        block: None,
        number,
        state,
        city: None,
    })
}

/// What a line says. `None` where it is no taken record.
pub fn read_line(line: &[u8]) -> Result<Option<GeoRecord>, HeaderLineFault>
    ensures entry { result ≡ line_read line.now }
    ensures valid { IfOk result (λ entry. IfSome entry IsEntry) }
{
    if line.len() > LINE_LIMIT || count_fields(line) != FIELD_COUNT {
        return Err(HeaderLineFault::Shape);
    }
    let mut fields = Fields::new(line);
    let level = fields.field_after(2);
    let component = fields.field_after(1);
    if component != b"00".as_slice() {
        return Ok(None);
    }
    if level == b"750".as_slice() {
        let entry = read_block(line)?;
        return Ok(Some(entry));
    }
    if level == b"040".as_slice() {
        let entry = read_state(line)?;
        return Ok(Some(entry));
    }
    Ok(None)
}
