//! What keeps the rows of a store tidy: no number is given twice, and no row is left that nothing tells of.
ghost use Rattle.desk_store_rows.specs.Draws.{ChangesAreDrawn, FirstsAreDrawn, RowsAreCounted};
ghost use Rattle.desk_store_rows.specs.SweepLaws.{NumbersAreNamed, SweptIsClean};
ghost use Rattle.desk_store_rows.specs.TurnLaws.{TurnsAreSwept};
ghost use Rattle.desk_store_rows.specs.TidyLaws.{ChunksAreKept, LoadsAreLoadedTidily, NextIsOne, NothingIsTidy, NumbersAreFree};
ghost use Rattle.desk_store_rows.specs.TidyLaws.{PlansComeAndGoTidily, RevisionsAreAddedTidily, RevisionsMakeDesks};

/// A map without rows is tidy.
pub fn nothing_is_tidy()
    ensures { NothingIsTidy }
{}

/// The row of counters means one triple of numbers.
pub fn next_is_one()
    ensures { NextIsOne }
{}

/// In a tidy map no row has a number that is next or later, or a revision that its plan does not
/// have yet.
pub fn numbers_are_free()
    ensures { NumbersAreFree }
{}

/// A plan that is created or deleted leaves the rows tidy.
pub fn plans_come_and_go_tidily()
    ensures { PlansComeAndGoTidily }
{}

/// A load that is begun, staged and sealed leaves the rows tidy.
pub fn loads_are_loaded_tidily()
    ensures { LoadsAreLoadedTidily }
{}

/// One revision more of a plan leaves the rows tidy.
pub fn revisions_are_added_tidily()
    ensures { RevisionsAreAddedTidily }
{}

/// The rows of one revision more, in whatever order and as they are listed, make the desk with that revision and are tidy.
pub fn revisions_make_desks()
    ensures { RevisionsMakeDesks }
{}

/// The chunks of an existing revision can be kept by a later revision of its plan.
pub fn chunks_are_kept()
    ensures { ChunksAreKept }
{}

/// A first revision gets a new chunk for each county.
pub fn firsts_are_drawn()
    ensures { FirstsAreDrawn }
{}

/// A later one keeps the chunks of the counties that are as before, and gets new ones for the others.
pub fn changes_are_drawn()
    ensures { ChangesAreDrawn }
{}

/// The number of a revision's rows is the number for which a store must have room.
pub fn rows_are_counted()
    ensures { RowsAreCounted }
{}

/// The numbers of a revision are named by parts of it.
pub fn numbers_are_named()
    ensures { NumbersAreNamed }
{}

/// The rows of deleted plans and abandoned loads can be removed, turn after turn: such a plan
/// releases its chunks, and then the rows that nothing needs are removed. The desk stays as it is,
/// and the rows stay tidy.
pub fn turns_are_swept()
    ensures { TurnsAreSwept }
{}

/// If no mark of a deleted plan is left, each part of a revision and each piece of a chunk belongs
/// to an existing plan; the rows of a load without a mark are the geography's.
pub fn swept_is_clean()
    ensures { SweptIsClean }
{}
