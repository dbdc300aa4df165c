//! Laws of the definitions.
ghost use Rattle.audit_contiguity.specs.Laws.{BreaksAreOneList, BreaksFollow, RisingListsAreOne};

/// The breaks of a plan's districts are one list: any two lists that satisfy the definition are
/// equal.
pub fn breaks_are_one_list()
    ensures { BreaksAreOneList }
{}

/// The breaks of the districts up to one and those of the districts after it are together the breaks of them all.
pub fn breaks_follow()
    ensures { BreaksFollow }
{}

/// Numbers that rise are one list: lists with the same members are the same.
#[tactic(auto, using(crate::proofs::OneList::same_rising))]
pub fn rising_lists_are_one()
    ensures { RisingListsAreOne }
{}
