//! What keeps the rows tidy where a plan gets a revision with the chunks of another plan's.
ghost use Rattle.desk_store_rows.specs.ForkLaws.{ChunksAreHeld, SharesMakeDesks};

/// A plan becomes a holder of chunks, one after the other; everything else stays.
pub fn chunks_are_held()
    ensures { ChunksAreHeld }
{}

/// A revision with the chunks of another plan's makes the desk with that revision, and the rows stay tidy.
pub fn shares_make_desks()
    ensures { SharesMakeDesks }
{}
