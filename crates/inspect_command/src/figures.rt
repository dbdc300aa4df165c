//! What a clerk's desk is, and the room that is left for commands.
ghost use Rattle.std.specs.Prelude.{◌≡◌, ◌<◌, ◌^◌, false, length, IfOk, IfErr};
ghost use Rattle.std.specs.Option.{option_copied};
ghost use Rattle.store_command.specs.desk_store.claim.Clerks.{desk_of, is_halted};
ghost use Rattle.inspect_command.specs.Figures.{blocks_in, pairs_in, plan_lines, revisions_in, AreHeld};

use crate::needs::{Need, need_of, needed};
use crate::rows::Rows;
use desk_model::command::Query;
use desk_model::geography::Geography;
use desk_model::reply::{PlanRow, Reply};
use sector_device::SectorDevice;
use std::alloc::Global;
use store_command::Clerk;
use store_command::fault::StoreFault;

/// What a clerk's desk is, and the room that is left.
#[derive(Clone, Copy)]
pub struct Held {
    pub journal_pages: u32,
    pub free_pages: u32,
    pub blocks: usize,
    pub counties: usize,
    pub pairs: usize,
    pub plans: usize,
    pub revisions: u128,
    /// A revision by which each county changes.
    pub revision: Need,
    /// A revision in which only the largest county changes.
    pub patch: Need,
    pub fork: Need,
}

/// The figures of a store.
#[derive(Clone, Copy)]
pub struct Figures {
    pub sectors: u32,
    pub held: Held,
    pub rows: Rows,
}

/// How many blocks a geography has, if there is one.
fn count_blocks(geography: Option<&Geography>) -> usize
    ensures { result ≡ blocks_in (option_copied geography.entry) }
{
    match geography {
        Some(geography) => geography.blocks().len(),
        None => 0,
    }
}

/// How many pairs of neighbours.
fn count_pairs(geography: Option<&Geography>) -> usize
    ensures { result ≡ pairs_in (option_copied geography.entry) }
{
    match geography {
        Some(geography) => geography.pairs().len(),
        None => 0,
    }
}

/// A number of revisions, wider.
fn wide(revisions: u32) -> u128
    ensures same { result ≡ revisions }
    ensures few { result < 2 ^ 32 }
{
    revisions as u128
}

/// How many revisions the plans of a list have together.
fn count_revisions(lines: &[PlanRow]) -> u128
    ensures { result ≡ revisions_in lines.now }
{
    let mut revisions = 0;
    for line in lines {
        revisions += wide(line.revisions);
    }
    revisions
}

/// How many plans a clerk shows, and how many revisions these have together.
fn count_plans<D: SectorDevice>(
    alloc: Global,
    clerk: &Clerk<D>,
) -> Result<(usize, u128), StoreFault>
    ensures plans { IfOk result (λ told. told.0 ≡ length (plan_lines (desk_of clerk.now))) }
    ensures revisions { IfOk result (λ told. told.1 ≡ revisions_in (plan_lines (desk_of clerk.now))) }
    ensures err { IfErr result (λ fault. fault ≡ StoreFault.Memory) }
{
    match clerk.ask(alloc, Query::Plans) {
        Reply::Plans(rows) => {
            let lines = rows.as_slice();
            Ok((lines.len(), count_revisions(lines)))
        }
        _ => Err(StoreFault::Memory),
    }
}

/// Returns the figures of a clerk's desk. An error is `Memory`.
pub fn held_by<D: SectorDevice>(alloc: Global, clerk: &Clerk<D>) -> Result<Held, StoreFault>
    requires { is_halted clerk.now ≡ false }
    ensures held { IfOk result (λ held. AreHeld clerk.now held) }
    ensures err { IfErr result (λ fault. fault ≡ StoreFault.Memory) }
{
    let catalogue = clerk.published()?;
    let (plans, revisions) = count_plans(alloc, clerk)?;
    let (needed, counties) = needed(alloc, catalogue.geography())?;
    let free_pages = clerk.free_pages();
    let journal_pages = clerk.journal_pages();
    Ok(Held {
        journal_pages,
        free_pages,
        blocks: count_blocks(catalogue.geography()),
        counties,
        pairs: count_pairs(catalogue.geography()),
        plans,
        revisions,
        revision: need_of(free_pages, journal_pages, needed.revision),
        patch: need_of(free_pages, journal_pages, needed.patch),
        fork: need_of(free_pages, journal_pages, needed.fork),
    })
}
