//! What a desk is asked to do, and what it is asked.
use crate::name::PlanName;
use crate::size::PlanSize;
use crate::text::Text;

/// A command changes the desk, or is refused and changes nothing.
#[derive(Drop)]
pub enum Command {
    /// Makes a plan of this kind and number of districts, without revisions.
    Create {
        plan: PlanName,
        size: PlanSize,
    },
    /// Adds a revision that a block assignment file says whole, after the revision of that number: blocks that it does
    /// not list are unassigned.
    Whole {
        plan: PlanName,
        after: u32,
        body: Text,
    },
    /// Adds a revision that a block assignment file says for whole counties, after the revision of that number: all other
    /// counties keep what they had, or are unassigned where there is no revision.
    Counties {
        plan: PlanName,
        after: u32,
        body: Text,
    },
    /// Takes a plan away with its revisions.
    Retire {
        plan: PlanName,
    },
    /// Makes a plan of the kind and the number of districts of another, whose only revision is that plan's revision of that
    /// number, from 1.
    Fork {
        plan: PlanName,
        from: (PlanName, u32),
    },
}

/// A query changes nothing.
#[derive(Drop)]
pub enum Query {
    /// The list of plans.
    Plans,
    /// The blocks of the geography.
    Blocks,
    /// A revision of a plan, counted from 1.
    Revision {
        plan: PlanName,
        k: u32,
    },
    /// The audit of a plan's revision. A house plan may be audited with a revision of a senate
    /// plan, and a house or senate plan with a revision of a congressional plan.
    Audit {
        plan: PlanName,
        k: u32,
        senate: Option<(PlanName, u32)>,
        congress: Option<(PlanName, u32)>,
    },
}
