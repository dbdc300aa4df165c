//! A segment of a whole state.
ghost use Rattle.std.specs.Prelude.{◌≡◌, ◌+◌, ◌-◌, ◌^◌, ◌≤◌, [], ℕ, List, None, Some, Err, Ok, true, OnOk, if◌then◌else◌, ◌==◌, get_or, min};
ghost use Rattle.byte_stream.specs.claim.Counts.{counted};
ghost use Rattle.std.specs.Io.KnownBytes.{Consumes};
ghost use Rattle.byte_stream.specs.claim.Reading.{turn_limit};
ghost use Rattle.pl94_segment.specs.claim.Records.{records};
ghost use Rattle.pl94_segment.specs.claim.SegFile.{in_run, people_of, IsRead, failures_after_file};
ghost use Rattle.pl94_segment.specs.SegFile.{Grows, Holds, Takes, Judges, told, refused};
ghost use Rattle.pl94_segment.specs.declared.record.SegRecord.{SegRecord as SegmentRecord};

use crate::record::{SegRecord, SegmentLineFault, SegmentNumber, read_line};
use byte_stream::reader::{LineReader, ReadFault, Step};
use byte_stream::source::Source;
use std::alloc::{AllocError, Global};
use std::collections::BTreeMap;
use std::fmt;

/// How far after the last number of a run another one still goes into it.
const GAP: usize = 16;

/// The records of a segment: the people of each record number.
#[derive(Drop)]
pub struct SegRows {
    /// The number that came first.
    first: u64,
    /// The people of the numbers from `first` on, which are consecutive but for small gaps.
    run: Vec<Option<u32>>,
    /// The people of all other numbers.
    others: BTreeMap<u64, u32>,
}

/// Why a segment isn't read. Each carries the number of its line, counted from 1.
#[derive(Clone, Copy)]
pub enum SegFault {
    /// S1 to S4: the first line with a fault.
    Line(SegmentLineFault, u64),
    /// S5: the source failed.
    Read(u64),
    /// S6: the source was asked 4,294,967,296 times.
    TurnLimit(u64),
    Memory,
}

impl fmt::Display for SegFault {
    ghost use Rattle.std.specs.Prelude.{Some};
    ghost use Rattle.pl94_segment.specs.claim.SegmentTexts.{segment_text};

    ghost output = { λ fault. Some (segment_text fault) };

    /// The code and the line, as `S1 line 2`.
    fn fmt<W: fmt::Write>(&self, f: &mut fmt::Formatter<W>) -> fmt::Result {
        match *self {
            SegFault::Line(fault, line) => write!(f, "{} line {}", fault.code(), line),
            SegFault::Read(line) => write!(f, "S5 line {}", line),
            SegFault::TurnLimit(line) => write!(f, "S6 line {}", line),
            SegFault::Memory => f.write_str("Memory"),
        }
    }
}

/// Why a line isn't taken.
#[derive(Clone, Copy)]
pub enum SegmentRefusal {
    Fault(SegmentLineFault),
    Memory,
}

/// Reads a segment line by line.
pub struct SegmentReader;

fn read_fault(fault: ReadFault, line: u64) -> SegFault
    ensures { result ≡ told fault line }
{
    match fault {
        ReadFault::TooLong => SegFault::Line(SegmentLineFault::Shape, line),
        ReadFault::Failed => SegFault::Read(line),
        ReadFault::TurnLimit => SegFault::TurnLimit(line),
    }
}

fn line_fault(refusal: SegmentRefusal, line: u64) -> SegFault
    ensures { result ≡ refused refusal line }
{
    match refusal {
        SegmentRefusal::Fault(fault) => SegFault::Line(fault, line),
        SegmentRefusal::Memory => SegFault::Memory,
    }
}

/// Puts the people of a place into a run. Places between its end and this one are empty.
fn put_at(run: &mut Vec<Option<u32>>, place: usize, people: u32) -> Result<(), AllocError>
    ensures { OnOk result ((k : ℕ) → get_or run.new.items k None ≡ (if place == k then Some people else get_or run.old.items k None)) }
{
    if place < run.len() {
        run[place] = Some(people);
        return Ok(());
    }
    if place > run.len() {
        run.resize(place, None)?;
    }
    if run.push(Some(people)).is_err() {
        return Err(AllocError);
    }
    Ok(())
}

impl SegRows {
    #[tactic(auto, using(crate::proofs::RunLemmas::holds_none))]
    fn new(alloc: Global) -> SegRows
        ensures { Holds result [] }
    {
        SegRows {
            first: 0,
            run: Vec::new(alloc),
            others: BTreeMap::new(alloc),
        }
    }

    /// The people of a number in the run.
    fn in_run(&self, number: u64) -> Option<u32>
        ensures { result ≡ in_run self.now number }
    {
        if number < self.first {
            return None;
        }
        match self.run.get((number - self.first) as usize) {
            Some(people) => *people,
            None => None,
        }
    }

    /// The people of a record. `None` where the segment lacks it. Segments 2 and 3 have 0 people in each.
    pub fn people(&self, number: u64) -> Option<u32>
        ensures { result ≡ people_of self.now number }
    {
        match self.in_run(number) {
            Some(people) => Some(people),
            None => self.others.get(&number).copied(),
        }
    }

    /// Whether a number has its place in the run, or shortly after it.
    fn is_near(&self, number: u64) -> bool
        ensures { result ≡ true → self.now.first ≤ number }
    {
        number >= self.first && number - self.first < (self.run.len() + GAP) as u64
    }

    /// A run without a number begins at this one.
    fn begin_run(&mut self, number: u64)
        ensures { (n : ℕ) → people_of self.new n ≡ people_of self.old n }
    {
        if !self.run.is_empty() {
            return;
        }
        self.first = number;
    }

    /// Puts a record that isn't there yet.
    fn put(&mut self, row: SegRecord) -> Result<(), AllocError>
        ensures { OnOk result (Grows self.old row self.new) }
    {
        self.begin_run(row.number);
        if self.is_near(row.number) {
            let place = (row.number - self.first) as usize;
            put_at(&mut self.run, place, row.people)?;
            return Ok(());
        }
        match self.others.insert(row.number, row.people) {
            Ok(_) => Ok(()),
            Err(_) => Err(AllocError),
        }
    }

    /// Takes a record.
    fn take(&mut self, row: SegRecord) -> Result<(), SegmentRefusal>
        ensures { (rs : List SegmentRecord) → Holds self.old rs → Takes rs row result self.new }
    {
        if self.people(row.number).is_some() {
            return Err(SegmentRefusal::Fault(SegmentLineFault::RepeatedRecord));
        }
        match self.put(row) {
            Ok(()) => Ok(()),
            Err(_) => Err(SegmentRefusal::Memory),
        }
    }

    /// Judges a line and takes its record.
    fn judge_line(&mut self, part: SegmentNumber, line: &[u8]) -> Result<(), SegmentRefusal>
        ensures { (ls : List (List ℕ)) → Holds self.old (records part ls) → Judges part ls line.now result self.new }
    {
        match read_line(part, line) {
            Ok(row) => self.take(row),
            Err(fault) => Err(SegmentRefusal::Fault(fault)),
        }
    }
}

impl SegmentReader {
    /// Reads the segment to the end of the source. It holds one line at a time.
    pub fn read<R: Source>(
        alloc: Global,
        part: SegmentNumber,
        reader: &mut R,
    ) -> Result<SegRows, SegFault>
        ensures read { (text : List ℕ) × Consumes (R.remaining reader.old) (R.remaining reader.new) text
            × IsRead part text (R.remaining reader.new) result }
        ensures failures { R.failures reader.new ≡ failures_after_file (R.failures reader.old) result }
        ensures turns { (line : ℕ) → result ≡ Err (SegFault.TurnLimit line) → R.turns reader.new ≡ counted (R.turns reader.old) turn_limit }
        ensures most { R.turns reader.new ≤ R.turns reader.old + turn_limit }
    {
        let Ok(mut text) = LineReader::new(alloc) else {
            return Err(SegFault::Memory);
        };
        let mut rows = SegRows::new(alloc);
        loop {
            match text.advance(reader) {
                Ok(Step::Line) => {
                    if let Err(refusal) = rows.judge_line(part, text.line()) {
                        return Err(line_fault(refusal, text.number()));
                    }
                }
                Ok(Step::LastLine) => {
                    if let Err(refusal) = rows.judge_line(part, text.line()) {
                        return Err(line_fault(refusal, text.number()));
                    }
                    return Ok(rows);
                }
                Ok(Step::End) => return Ok(rows),
                Err(fault) => return Err(read_fault(fault, text.number() + 1)),
            }
        }
    }
}
