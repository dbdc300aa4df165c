//! What holds of all rows.
ghost use Rattle.desk_store_rows.specs.Laws.{ChunksArePut, DeskIsOne, DeskStays, LoadsAreStaged};
ghost use Rattle.desk_store_rows.specs.Laws.{LoadsAreUnseen, PlansComeAndGo, RevisionsAreAdded, TagsStay};

use desk_model::laws::lists_are_cut;

/// A row that is put or removed leaves the rows of every other tag.
pub fn tags_stay()
    ensures { TagsStay }
{}

/// Rows of counters, of retired plans and of loads that were begun say nothing of the desk.
pub fn desk_stays()
    ensures { DeskStays }
{}

/// A chunk whose rows are put under a free number exists, and the others stay.
pub fn chunks_are_put()
    ensures { ChunksArePut }
{}

/// A map of rows holds one desk at most.
pub fn desk_is_one()
    ensures { DeskIsOne }
{
    lists_are_cut();
}

/// A plan's row makes the desk with that plan, and without it the desk is the one without the plan.
pub fn plans_come_and_go()
    ensures { PlansComeAndGo }
{}

/// Rows that add one revision of a plan make the desk with that revision, and no other revision changes.
pub fn revisions_are_added()
    ensures { RevisionsAreAdded }
{}

/// The rows of a load are put one after the other, blocks before pairs.
pub fn loads_are_staged()
    ensures { LoadsAreStaged }
{}

/// They are no part of the desk until the load is sealed, and then its geography.
pub fn loads_are_unseen()
    ensures { LoadsAreUnseen }
{}
