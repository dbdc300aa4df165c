//! What keeps the plans that hold a chunk counted.
ghost use Rattle.desk_store_rows.specs.HolderLaws.{AnotherHolds, HeldIsTallied, HoldersJoin, HoldersLeave, NoneHolds, NothingIsTallied, HolderCountsStay};

/// In a map without rows each chunk is held by none.
pub fn nothing_is_counted_by_holders()
    ensures { NothingIsTallied }
{}

/// Other rows say nothing of the plans that hold a chunk.
pub fn holder_counts_stay()
    ensures { HolderCountsStay }
{}

/// A plan that becomes a holder of a chunk raises its number of holders by one, which fits.
pub fn holders_join()
    ensures { HoldersJoin }
{}

/// A plan that lets a chunk go lowers its count by one.
pub fn holders_leave()
    ensures { HoldersLeave }
{}

/// A chunk that a plan holds has a count.
pub fn held_is_counted_by_holders()
    ensures { HeldIsTallied }
{}

/// A chunk without a count is held by none.
pub fn none_holds()
    ensures { NoneHolds }
{}

/// A chunk with a count that a plan doesn't hold is held by another.
pub fn another_holds()
    ensures { AnotherHolds }
{}
