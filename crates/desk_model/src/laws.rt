//! Laws of the definitions.
ghost use Rattle.desk_model.specs.Counties.{LeastCountyIsTold};
ghost use Rattle.desk_model.specs.Ranges.{RangesAreCounties, ListsAreCut};

/// The county with which a patch is refused is the least that is listed in part.
pub fn least_county_is_told()
    ensures { LeastCountyIsTold }
{}

/// A list with an element for each block, cut at the counties, is the same list when it is joined
/// again.
pub fn lists_are_cut()
    ensures { ListsAreCut }
{}

/// The blocks are cut into their counties, which rise.
#[tactic(auto, using(crate::proofs::Runs::counties_cut))]
pub fn ranges_are_counties()
    ensures { RangesAreCounties }
{}
