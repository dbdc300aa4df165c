//! What holds of all keys and values.
ghost use Rattle.desk_store_rows.specs.Lists.{ChunksDiffer, DistrictsDiffer};
ghost use Rattle.desk_store_rows.specs.Order.{KeysDiffer, NumbersDecide};

/// Different rows have different keys.
pub fn keys_differ()
    ensures { KeysDiffer }
{}

/// The order of keys is the order of their numbers.
pub fn numbers_decide()
    ensures { NumbersDecide }
{}

/// A value of a part of a revision names one list of chunks.
pub fn chunks_differ()
    ensures { ChunksDiffer }
{}

/// A value of a piece of a chunk holds one list of districts.
pub fn districts_differ()
    ensures { DistrictsDiffer }
{}
