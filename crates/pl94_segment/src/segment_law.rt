//! What the four files say together.
ghost use Rattle.pl94_segment.specs.Files.{FilesLaw, SegmentLaw};

/// A segment's lines are good one after the other exactly if together they are a segment: every
/// line has its shape, and no LOGRECNO occurs twice.
pub fn segment_law()
    ensures { SegmentLaw }
{}

/// What the join gives of the files' rows is what the four texts say as a whole, and where they say it the join gives
/// it.
pub fn files_law()
    ensures { FilesLaw }
{}
