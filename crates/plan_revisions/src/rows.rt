//! How many rows a command writes.
ghost use Rattle.std.specs.Prelude.{◌≡◌, ◌+◌, ℕ, List, Some, IsSome};
ghost use Rattle.std.specs.FinMap as map_of;
ghost use Rattle.desk_model.specs.Ranges.{ranges_in, ranges_of};
ghost use Rattle.desk_model.specs.claim.Room.{added_rows, command_rows as rows_of_command};
ghost use Rattle.desk_store_catalogue.specs.claim.Accepting.{IsAfter};
ghost use Rattle.desk_store_catalogue.specs.Drafts.{changes_between, changes_of};
ghost use Rattle.desk_store_catalogue.specs.Kept.{revision_in, IsWhole};
ghost use Rattle.plan_revisions.specs.Accepted.{IsRevised};

use desk_model::command::Command;
use desk_model::geography::Geography;
use desk_model::name::PlanName;
use desk_store_catalogue::catalogue::Catalogue;
use desk_store_catalogue::{Districts, fork_rows, revision_rows};

/// Returns the districts of a revision that exists.
pub(crate) fn next_of<'a>(then: &'a Catalogue, name: &PlanName, k: u32) -> &'a Districts
    requires { IsSome (revision_in (map_of.get then.now.plans name.now) k) }
    ensures value { (districts : List ℕ) → revision_in (map_of.get then.now.plans name.now) k ≡ Some districts → result.now ≡ districts }
    ensures whole { IsWhole then.now.geography (revision_in (map_of.get then.now.plans name.now) k) }
{
    match then.districts(name, k) {
        Some(districts) => districts,
        None => unreachable!(),
    }
}

/// The rows of a revision that a plan got, after the revision of that number.
fn rows_between(
    geography: &Geography,
    shown: &Catalogue,
    name: &PlanName,
    after: u32,
    then: &Catalogue,
    changes: &[bool],
) -> usize
    requires geography { shown.now.geography ≡ Some geography.now }
    requires revised { IsRevised shown.now name.now after then.now }
    requires changes { changes.now ≡ changes_between (revision_in (map_of.get shown.now.plans name.now) after)
        (revision_in (map_of.get then.now.plans name.now) (after + 1)) (ranges_of geography.now) }
    ensures { result ≡ added_rows shown.now.geography (map_of.get shown.now.plans name.now) (map_of.get then.now.plans name.now) }
{
    let _blocks = geography.blocks();
    shown.revisions_are_whole();
    then.revisions_are_whole();
    revision_rows(geography.counties(), changes)
}

/// How many rows a command writes that a desk accepts: `shown` is the desk before it, `then` the desk after it, and
/// `changes` says of each county of its geography whether the command changes it.
pub fn command_rows(
    shown: &Catalogue,
    command: &Command,
    then: &Catalogue,
    changes: &[bool],
) -> usize
    requires after { IsAfter shown.now command.now then.now }
    requires changes { changes.now ≡ changes_of shown.now command.now then.now (ranges_in shown.now.geography) }
    ensures { result ≡ rows_of_command shown.now command.now }
{
    let Some(geography) = shown.geography() else {
        return 2;
    };
    let _blocks = geography.blocks();
    match command {
        Command::Create { .. } | Command::Retire { .. } => 2,
        Command::Whole { plan, after, .. } | Command::Counties { plan, after, .. } => rows_between(
            geography, shown, plan, *after, then, changes,
        ),
        Command::Fork { .. } => fork_rows(geography.counties().len()),
    }
}
