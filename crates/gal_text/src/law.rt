//! What the words of a neighbour file say together.
ghost use Rattle.gal_text.specs.Relation.{UnitsLaw};

/// The words are read without a fault exactly if they are the words of the announced number of
/// different units, one after the other. What was read is what these units list.
pub fn units_law()
    ensures { UnitsLaw }
{}
