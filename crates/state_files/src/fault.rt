//! The first fault of a state's files.
ghost use Rattle.std.specs.Prelude.{◌≡◌};
ghost use Rattle.state_files.specs.claim.Texts.{segment_file, plan_file, file_text};

use desk_model::reply::BodyFault;
use gal_text::fault::GalFault;
use pl94_geo::geo::GeoFault;
use pl94_segment::join::JoinFault;
use pl94_segment::record::SegmentNumber;
use pl94_segment::segment::SegFault;
use std::fmt;

/// Why a file isn't opened.
#[derive(Clone, Copy)]
pub enum OpenFault {
    Unreadable,
    Memory,
}

/// A plan's file.
#[derive(Clone, Copy)]
pub enum PlanFile {
    Plan,
    /// The senate plan given with a house plan.
    Senate,
    /// The congressional plan given with a house or senate plan.
    Congress,
}

/// Why a plan's file isn't read.
#[derive(Clone, Copy)]
pub enum PlanFault {
    Unreadable,
    /// More than 33,554,432 bytes.
    TooLarge,
    /// B1 to B5: the first line with a fault, counted from 1.
    Body(BodyFault, u64),
    Memory,
}

/// The first fault of the files, in the order in which they are read and judged.
#[derive(Clone, Copy)]
pub enum FileFault {
    /// The geographic header isn't opened.
    NoHeader(OpenFault),
    Header(GeoFault),
    /// A segment isn't opened.
    NoSegment(SegmentNumber, OpenFault),
    Segment(SegmentNumber, SegFault),
    /// The files don't go together, or memory for the blocks or for their counts was refused.
    Join(JoinFault),
    /// The neighbour file isn't opened.
    NoGal(OpenFault),
    Gal(GalFault),
    Plan(PlanFile, PlanFault),
}

impl fmt::Display for OpenFault {
    ghost use Rattle.std.specs.Prelude.{Some};
    ghost use Rattle.state_files.specs.claim.Texts.{open_text};

    ghost output = { λ fault. Some (open_text fault) };

    fn fmt<W: fmt::Write>(&self, f: &mut fmt::Formatter<W>) -> fmt::Result {
        match *self {
            OpenFault::Unreadable => f.write_str("Unreadable"),
            OpenFault::Memory => f.write_str("Memory"),
        }
    }
}

impl fmt::Display for PlanFault {
    ghost use Rattle.std.specs.Prelude.{Some};
    ghost use Rattle.state_files.specs.claim.Texts.{plan_text};

    ghost output = { λ fault. Some (plan_text fault) };

    /// The code and its line, as `B5 line 4`.
    fn fmt<W: fmt::Write>(&self, f: &mut fmt::Formatter<W>) -> fmt::Result {
        match *self {
            PlanFault::Unreadable => f.write_str("Unreadable"),
            PlanFault::TooLarge => f.write_str("TooLarge"),
            PlanFault::Body(fault, line) => write!(f, "{} line {}", fault.code(), line),
            PlanFault::Memory => f.write_str("Memory"),
        }
    }
}

fn segment_file(part: SegmentNumber) -> &'static str
    ensures { result.now ≡ segment_file part }
{
    match part {
        SegmentNumber::One => "seg1",
        SegmentNumber::Two => "seg2",
        SegmentNumber::Three => "seg3",
    }
}

fn plan_file(file: PlanFile) -> &'static str
    ensures { result.now ≡ plan_file file }
{
    match file {
        PlanFile::Plan => "plan",
        PlanFile::Senate => "senate",
        PlanFile::Congress => "congress",
    }
}

impl FileFault {
    /// The name of its file: `geo`, `seg1`, `seg2`, `seg3`, `join`, `gal`, `plan`, `senate` or `congress`.
    pub fn file(&self) -> &'static str
        ensures { result.now ≡ file_text self.now }
    {
        match *self {
            FileFault::NoHeader(_) | FileFault::Header(_) => "geo",
            FileFault::NoSegment(part, _) => segment_file(part),
            FileFault::Segment(part, _) => segment_file(part),
            FileFault::Join(_) => "join",
            FileFault::NoGal(_) | FileFault::Gal(_) => "gal",
            FileFault::Plan(file, _) => plan_file(file),
        }
    }
}

impl fmt::Display for FileFault {
    ghost use Rattle.std.specs.Prelude.{Some};
    ghost use Rattle.state_files.specs.claim.Texts.{fault_text};

    ghost output = { λ fault. Some (fault_text fault) };

    /// The file and the fault, as `geo: G1 line 2`.
    fn fmt<W: fmt::Write>(&self, f: &mut fmt::Formatter<W>) -> fmt::Result {
        let file = self.file();
        match *self {
            FileFault::NoHeader(fault) => write!(f, "{file}: {fault}"),
            FileFault::Header(fault) => write!(f, "{file}: {fault}"),
            FileFault::NoSegment(_, fault) => write!(f, "{file}: {fault}"),
            FileFault::Segment(_, fault) => write!(f, "{file}: {fault}"),
            FileFault::Join(fault) => write!(f, "{file}: {fault}"),
            FileFault::NoGal(fault) => write!(f, "{file}: {fault}"),
            FileFault::Gal(fault) => write!(f, "{file}: {fault}"),
            FileFault::Plan(_, fault) => write!(f, "{file}: {fault}"),
        }
    }
}
