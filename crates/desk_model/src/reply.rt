//! What a desk answers.
ghost use Rattle.std.specs.Prelude.{◌≡◌};
ghost use Rattle.desk_model.specs.claim.Baf.{fault_code};

use crate::kind::Kind;
use crate::name::PlanName;
use crate::text::Text;
use std::marker::Model;

/// A row of the list of plans: a plan, its kind, its number of districts and its number of revisions.
#[derive(Clone, Copy)]
pub struct PlanRow {
    pub name: PlanName,
    pub kind: Kind,
    pub n: u16,
    pub revisions: u32,
}

/// The rows of the list of plans, in rising order of the names. A small type around a `Vec`, so that contracts see a list.
#[derive(Drop)]
pub struct PlanRows {
    rows: Vec<PlanRow>,
}

impl Model for PlanRows {
    ghost use Rattle.std.specs.Prelude.{List};
    ghost use Rattle.desk_model.specs.declared.reply.PlanRow.{PlanRow};

    ghost Value = { List PlanRow };

    ghost view = { λ a. a.rows.items };
}

impl PlanRows {
    pub fn from_vec(rows: Vec<PlanRow>) -> PlanRows
        ensures { result ≡ rows.items }
    {
        PlanRows { rows }
    }

    pub fn as_slice(&self) -> &[PlanRow]
        ensures { result.now ≡ self.now }
    {
        self.rows.as_slice()
    }
}

/// The answer to a command or a query.
#[derive(Drop)]
pub enum Reply {
    /// The plan now has this number of revisions.
    Created { plan: PlanName, revisions: u32 },
    /// The plan is deleted.
    Retired { plan: PlanName },
    /// The plans, in rising order of their names.
    Plans(PlanRows),
    /// A line for each block: its number, its city and its people.
    Blocks(Text),
    /// A revision as a block assignment file.
    Baf(Text),
    /// The report of an audit as JSON.
    Audited(Text),
    Refused(Refusal),
}

/// What is wrong with a block assignment file.
#[derive(Clone, Copy, PartialEq, Eq)]
pub enum BodyFault {
    /// B1: the first line isn't the header.
    Header,
    /// B2: a line that isn't a block and a code.
    Shape,
    /// B3: no block of the geography.
    UnknownBlock,
    /// B4: the block is on an earlier line, too.
    RepeatedBlock,
    /// B5: a district number that is 0 or above the plan's.
    OutOfRange,
}

impl BodyFault {
    /// The fault's code, `B1` to `B5`.
    pub fn code(self) -> &'static str
        ensures { result.now ≡ fault_code self }
    {
        match self {
            BodyFault::Header => "B1",
            BodyFault::Shape => "B2",
            BodyFault::UnknownBlock => "B3",
            BodyFault::RepeatedBlock => "B4",
            BodyFault::OutOfRange => "B5",
        }
    }
}

/// Why a command or a query is refused. A refused command changes nothing.
#[derive(Clone, Copy)]
pub enum Refusal {
    NoPlan,
    NoRevision,
    PlanExists,
    /// The revision that the command comes after isn't the last; the number of revisions there are.
    Stale { current: u32 },
    /// The body's first fault and its line, from 1.
    BadBody { code: BodyFault, line: u64 },
    /// The least county, from 0 to 999, of which only a part is listed.
    NotWholeCounty { county: u16 },
    /// The audited plan takes no such companion, or there is no such revision of a plan of the companion's kind.
    BadCompanion,
    /// There are 65,535 plans already, or 65,535 revisions of the plan.
    Limit,
    /// The store has no room for the change.
    Full,
    /// Memory for the answer was refused.
    Memory,
    /// The store's device failed in this call or since the store was opened.
    Halted,
    /// The store has no sealed geography.
    NotSealed,
}
