//! What an accepted command did.
ghost use Rattle.std.specs.Prelude.{◌≡◌, ◌+◌};
ghost use Rattle.http_desk_streams.specs.Accepting.{done_by, heard_of, plan_of, rows_in};
ghost use Rattle.http_desk_streams.specs.declared.accepted.Accepted.TheVariants.{Revised};

use crate::rows::count_rows;
use desk_model::command::Command;
use desk_model::name::PlanName;
use desk_model::reply::Reply;
use desk_model::text::Text;

/// What an accepted command did.
#[derive(Clone, Copy)]
pub enum Accepted {
    /// A plan was made that has no revision.
    Created {
        plan: PlanName,
    },
    /// A plan has one more revision, with this number, from a file that lists this number of
    /// blocks.
    Revised {
        plan: PlanName,
        revision: u64,
        blocks: u64,
    },
    /// A plan was made of another's revision of that number.
    Forked {
        plan: PlanName,
        from: (PlanName, u32),
    },
    /// A plan was deleted with its revisions.
    Deleted {
        plan: PlanName,
    },
}

/// A plan has one more revision, by a file.
fn revised(plan: &PlanName, after: u32, body: &Text) -> Accepted
    ensures { result ≡ Revised plan.now (after + 1) (rows_in body.now) }
{
    Accepted::Revised {
        plan: *plan,
        revision: u64::from(after) + 1,
        blocks: count_rows(body.as_slice()),
    }
}

impl Accepted {
    /// What a command does where it is accepted.
    pub fn of(command: &Command) -> Accepted
        ensures { result ≡ done_by command.now }
    {
        match command {
            Command::Create { plan, size: _ } => Accepted::Created { plan: *plan },
            Command::Whole { plan, after, body } => revised(plan, *after, body),
            Command::Counties { plan, after, body } => revised(plan, *after, body),
            Command::Retire { plan } => Accepted::Deleted { plan: *plan },
            Command::Fork { plan, from } => Accepted::Forked {
                plan: *plan,
                from: *from,
            },
        }
    }

    /// The plan that it made, revised or took away.
    pub fn plan(&self) -> &PlanName
        ensures { result.now ≡ plan_of self.now }
    {
        match self {
            Accepted::Created { plan } => plan,
            Accepted::Revised {
                plan,
                revision: _,
                blocks: _,
            } => plan,
            Accepted::Forked { plan, from: _ } => plan,
            Accepted::Deleted { plan } => plan,
        }
    }
}

/// Returns the effect to report: `deed` if the reply accepts the command, otherwise nothing.
pub fn heard(deed: Option<Accepted>, reply: &Reply) -> Option<Accepted>
    ensures { result ≡ heard_of deed reply.now }
{
    match reply {
        Reply::Created {
            plan: _,
            revisions: _,
        } => deed,
        Reply::Retired { plan: _ } => deed,
        Reply::Plans(_)
        | Reply::Blocks(_)
        | Reply::Baf(_)
        | Reply::Audited(_)
        | Reply::Refused(_) => None,
    }
}
