//! Worked answers, as laws of the definitions.
ghost use Rattle.desk_model.specs.Examples.{PlansAreCreated, RevisionsAreKept, CountiesArePatched};
ghost use Rattle.desk_model.specs.Examples.{PlansAreRetired, PlansAreForked, AuditsAreFound, RoomIsCounted};

/// Plans of the sample desk are created once and listed.
pub fn plans_are_created()
    ensures { PlansAreCreated }
{}

/// A revision of the sample desk is read back as it was posted, and posted once.
pub fn revisions_are_kept()
    ensures { RevisionsAreKept }
{}

/// Counties of the sample desk are patched whole.
pub fn counties_are_patched()
    ensures { CountiesArePatched }
{}

/// A plan of the sample desk is retired once.
pub fn plans_are_retired()
    ensures { PlansAreRetired }
{}

/// A plan of the sample desk is forked, and refused to be.
pub fn plans_are_forked()
    ensures { PlansAreForked }
{}

/// What an audit on the sample desk judges, and where it is refused.
pub fn audits_are_found()
    ensures { AuditsAreFound }
{}

/// The room that commands on the sample desk need of a store.
pub fn room_is_counted()
    ensures { RoomIsCounted }
{}
