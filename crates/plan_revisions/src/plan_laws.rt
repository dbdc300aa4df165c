//! What holds of the rows of plans.
ghost use Rattle.plan_revisions.specs.PlanLaws.{NumbersMoveOn, PlansAreMade, PlansAreTold, RevisionsAreCounted};

/// A row that was found describes the plan of that name; if none was found, the desk has no such
/// plan.
#[tactic(auto, using(crate::proofs::Told::plans_told))]
pub fn plans_are_told()
    ensures { PlansAreTold }
{}

/// The rows of a new plan make the desk with that plan, and those of a deleted plan the desk
/// without it.
#[tactic(auto, using(crate::proofs::Made::plans_made))]
pub fn plans_are_made()
    ensures { PlansAreMade }
{}

/// Once a revision's chunks and parts were put, the rows of a plan that is revised make the desk with that revision.
pub fn revisions_are_counted()
    ensures { RevisionsAreCounted }
{}

/// The row of numbers says what comes next.
#[tactic(auto, using(crate::proofs::Made::numbers_moved))]
pub fn numbers_move_on()
    ensures { NumbersMoveOn }
{}
