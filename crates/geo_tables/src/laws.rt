//! What holds of the rows of loads.
ghost use Rattle.geo_tables.specs.Laws.{BatchesAreUnseen, LoadsAreSealed, LoadsBegin};

/// A load that is begun is marked and has no rows, and the desk stays.
pub fn loads_begin()
    ensures { LoadsBegin }
{}

/// The rows of a batch are no part of the desk.
pub fn batches_are_unseen()
    ensures { BatchesAreUnseen }
{}

/// The seal makes a geography whose rows are all staged that of the desk.
pub fn loads_are_sealed()
    ensures { LoadsAreSealed }
{}
