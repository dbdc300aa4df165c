//! Puts the rows of a command.
ghost use Rattle.std.specs.Prelude.{◌≡◌};
ghost use Rattle.desk_model.specs.Ranges.{ranges_in};
ghost use Rattle.desk_model.specs.claim.Room.{command_rows as rows_of_command};
ghost use Rattle.desk_store_catalogue.specs.claim.Accepting.{IsAfter};
ghost use Rattle.desk_store_catalogue.specs.Drafts.{changes_of};
ghost use Rattle.page_store.specs.claim.Transactions.{count_of, txn_pages};
ghost use Rattle.plan_revisions.specs.Outcomes.{StepsWhereLeft};
ghost use Rattle.plan_revisions.specs.claim.Rows.{HasNumbers};

use crate::rows::next_of;
use crate::{ChangeOutcome, TreeError, add, create, fork, retire};
use desk_model::command::Command;
use desk_store_catalogue::catalogue::Catalogue;
use page_store::{Pages, Txn};
use sector_device::SectorDevice;
use std::alloc::Global;

/// Puts the rows of a command that a desk accepts into a transaction that reads that desk: `shown` is the desk before it, `then` the
/// desk after it, and `changes` says of each county of its geography whether the command changes it. `NumbersExhausted` comes where too few
/// numbers are left for it: nothing was written. After an error the transaction can only be abandoned; `NotAStore` comes where the
/// store holds no such desk.
pub fn put_command<D: SectorDevice>(
    alloc: Global,
    txn: &mut Txn,
    pages: &mut Pages<D>,
    shown: &Catalogue,
    command: &Command,
    then: &Catalogue,
    changes: &[bool],
) -> Result<ChangeOutcome, TreeError>
    requires begun { txn_pages txn.old ≡ count_of pages.old }
    requires after { IsAfter shown.now command.now then.now }
    requires changes { changes.now ≡ changes_of shown.now command.now then.now (ranges_in shown.now.geography) }
    ensures { StepsWhereLeft (λ d. d ≡ shown.now) (λ d. then.now) (rows_of_command shown.now command.now) (HasNumbers shown.now command.now)
        txn.old txn.new pages.old pages.new result }
{
    let Some(geography) = shown.geography() else {
        return Ok(ChangeOutcome::NumbersExhausted);
    };
    match command {
        Command::Create { plan, size } => create(txn, pages, plan, *size),
        Command::Whole { plan, after, .. } | Command::Counties { plan, after, .. } => {
            let next = next_of(then, plan, *after + 1);
            add(alloc, txn, pages, geography, changes, plan, next)
        }
        Command::Retire { plan } => match retire(txn, pages, plan) {
            Ok(()) => Ok(ChangeOutcome::Made),
            Err(e) => Err(e),
        },
        Command::Fork { plan, from } => {
            fork(alloc, txn, pages, geography, plan, &from.0, from.1)
        }
    }
}
