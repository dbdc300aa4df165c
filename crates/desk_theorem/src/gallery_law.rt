//! What an office and its visitors came to is what a list of events comes to.
ghost use Rattle.desk_theorem.specs.Calls.{CallsLaw};
ghost use Rattle.desk_theorem.specs.Runs.{OfficeLaw};

/// For every list of accepted changes, and whatever the visitors did, each by itself and none
/// beyond what is shown: some list of events without a crash leads to exactly this, and in it each
/// visitor is answered as it was.
#[tactic(auto, using(crate::proofs::Weaving::office_law))]
pub fn lists_are_run()
    ensures { OfficeLaw }
{}

/// Each call at an office is a list of events, or none: a command at its front that of a change which is written, acknowledged and
/// shown, a visit and what is learnt one each.
#[tactic(auto, using(crate::proofs::Calling::calls_law))]
pub fn calls_are_events()
    ensures { CallsLaw }
{}
