//! What holds of the rows of revisions.
ghost use Rattle.plan_revisions.specs.RevisionLaws.{NamesArePut};

/// A revision whose rows are put under a free place names its chunks; every other one stays, and so do the rows of every other
/// tag.
pub fn names_are_put()
    ensures { NamesArePut }
{}
