//! What the order of the lines doesn't decide.
ghost use Rattle.pl94_geo.specs.Whole.{LinesLaw};

/// Lines are good one after the other exactly where all of them together are a header's: every line has its shape, and
/// the taken records have one STATE, at most one state record, different LOGRECNO and different blocks, no more than
/// the limit.
pub fn lines_law()
    ensures { LinesLaw }
{}
