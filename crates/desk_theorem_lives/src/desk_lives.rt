//! One life of a store that is asked.
ghost use Rattle.std.specs.Prelude.{IfOk};
ghost use Rattle.desk_theorem_lives.specs.DeskInside.{Answers, Asks};
ghost use Rattle.desk_theorem_lives.specs.VersionInside.{IsAsked, LivesIn};

use byte_stream::progress::NoProgress;
use desk_model::command::{Command, Query};
use desk_model::geography::Geography;
use desk_model::reply::Reply;
use desk_store_pages::StoreError;
use desk_theorem_loading::load_geography;
use desk_theorem_runs::Clerk;
use sector_device::SectorDevice;
use std::alloc::{AllocError, Global};
use std::sync::Arc;

/// What a desk is asked.
#[derive(Drop)]
pub enum Request {
    Change(Command),
    Look(Query),
    /// To load a geography.
    Load(Arc<Geography>),
    /// To take out some of the rows that nothing needs: one step of a sweep.
    Sweep,
}

/// What it answers.
#[derive(Drop)]
pub enum Answer {
    Said(Reply),
    Loaded,
    Unloaded(StoreError),
    /// How many rows were taken out or changed.
    Swept(usize),
    Unswept(StoreError),
}

/// Carries out a command.
fn change<D: SectorDevice>(alloc: Global, clerk: &mut Clerk<D>, command: Command) -> Answer
    ensures { Answers clerk.old (Request.Change command) result clerk.new }
{
    Answer::Said(clerk.command(alloc, command))
}

/// Loads a geography.
fn load<D: SectorDevice>(alloc: Global, clerk: &mut Clerk<D>, geography: Arc<Geography>) -> Answer
    ensures { Answers clerk.old (Request.Load geography) result clerk.new }
{
    match load_geography(alloc, clerk, geography, &mut NoProgress) {
        Ok(()) => Answer::Loaded,
        Err(e) => Answer::Unloaded(e),
    }
}

/// Makes a step of a sweep.
fn sweep<D: SectorDevice>(alloc: Global, clerk: &mut Clerk<D>) -> Answer
    ensures { Answers clerk.old Request.Sweep result clerk.new }
{
    match clerk.sweep_step(alloc) {
        Ok(count) => Answer::Swept(count),
        Err(e) => Answer::Unswept(e),
    }
}

/// Answers a request.
fn answered<D: SectorDevice>(alloc: Global, clerk: &mut Clerk<D>, request: Request) -> Answer
    ensures { Answers clerk.old request result clerk.new }
{
    match request {
        Request::Change(command) => change(alloc, clerk, command),
        Request::Look(query) => Answer::Said(clerk.ask(alloc, query)),
        Request::Load(geography) => load(alloc, clerk, geography),
        Request::Sweep => sweep(alloc, clerk),
    }
}

/// Answers requests, one after the other.
pub fn answer_all<D: SectorDevice>(
    alloc: Global,
    clerk: &mut Clerk<D>,
    asked: Vec<Request>,
) -> Result<Vec<Answer>, AllocError>
    ensures { IfOk result (λ told. Asks clerk.old asked.items told.items clerk.new) }
{
    let mut asked = asked;
    let mut told = Vec::new(alloc);
    while !asked.is_empty() {
        let request = asked.remove(0);
        told.push(answered(alloc, clerk, request))?;
    }
    Ok(told)
}

/// A device is opened as a store and asked, and given back as it is then. It may have held a store of either version.
pub fn live_in<D: SectorDevice + Drop>(
    alloc: Global,
    device: D,
    asked: Vec<Request>,
) -> Result<(Result<Vec<Answer>, StoreError>, D), AllocError>
    ensures { IfOk result (λ x. LivesIn (IsAsked asked x.0) (D.disk device) (D.disk x.1)) }
{
    let mut clerk = match Clerk::open(alloc, device) {
        Ok(clerk) => clerk,
        Err((e, device)) => return Ok((Err(e), device)),
    };
    match answer_all(alloc, &mut clerk, asked) {
        Ok(told) => Ok((Ok(told), clerk.into_device())),
        Err(e) => {
            let _ = clerk.into_device();
            Err(e)
        }
    }
}
