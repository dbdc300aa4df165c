//! What the workers find, each in its own pieces of the work.
ghost use Rattle.std.specs.Prelude.{◌≡◌, ℕ, ◌<◌, Ok, map, IfOk};
ghost use Rattle.audit_report.specs.Share.{AreAllShares, AreNextParts, AreOwnParts, AreShared, HasWorked, IsShare, IsWorker};

use crate::crew::Crew;
use crate::work::{Found, Work};
use desk_model::gate::Gate;
use std::alloc::{AllocError, Global};
use std::thread;
use std::thread::Threads;

/// Which parts of the districts are pieces of a worker.
fn own_parts(alloc: Global, pieces: u32, workers: u32, worker: u32) -> Result<Vec<bool>, AllocError>
    requires some { 0 < workers }
    ensures { IfOk result (λ own. AreOwnParts pieces workers worker own.items) }
{
    let mut own = Vec::with_capacity(alloc, pieces as usize)?;
    for piece in 3..pieces {
        own.push(piece % workers == worker)?;
    }
    Ok(own)
}

/// What a worker finds in the pieces of the districts' contiguity, from its first on, over one forest for them all.
fn find_parts<G: Gate>(
    alloc: Global,
    gate: &G,
    work: &Work,
    pieces: u32,
    workers: u32,
    worker: u32,
    first: u32,
    mut found: Vec<Found>,
) -> Result<Vec<Found>, AllocError>
    requires one { IsWorker work.now.count pieces workers worker }
    requires next { AreNextParts work.now workers worker first found.items }
    ensures { IfOk result (λ v. IsShare work.now pieces workers worker v.items) }
{
    let own = own_parts(alloc, pieces, workers, worker)?;
    let trees = work.trees(alloc, own)?;
    let mut piece = first;
    while piece < pieces {
        gate.pass(worker, piece);
        let breaks = trees.breaks(alloc, (piece - 3) as u16)?;
        found.push(Found::Breaks(breaks))?;
        piece += workers;
    }
    Ok(found)
}

/// Reports that a worker begins and returns what it finds in its pieces: those whose number leaves
/// the worker's number when divided by the number of workers, rising, each after the gate.
fn find_share<C: Crew>(
    alloc: Global,
    crew: &C,
    work: &Work,
    pieces: u32,
    workers: u32,
    worker: u32,
) -> Result<Vec<Found>, AllocError>
    requires one { IsWorker work.now.count pieces workers worker }
    ensures { HasWorked C.begins crew.now work.now pieces workers worker result }
{
    crew.begin(worker, workers);
    let mut found = Vec::with_capacity(alloc, (pieces / workers) as usize + 1)?;
    let mut piece = worker;
    while piece < 3 {
        crew.pass(worker, piece);
        found.push(work.find(alloc, piece)?)?;
        piece += workers;
    }
    if piece < pieces {
        return find_parts(alloc, crew, work, pieces, workers, worker, piece, found);
    }
    Ok(found)
}

/// The shares, where no worker's memory ran out.
fn all_shares(
    alloc: Global,
    results: Vec<Result<Vec<Found>, AllocError>>,
) -> Result<Vec<Vec<Found>>, AllocError>
    ensures { IfOk result (λ v. map Ok v.items ≡ results.items) }
{
    let mut shares = Vec::with_capacity(alloc, results.len())?;
    for result in results {
        shares.push(result?)?;
    }
    Ok(shares)
}

/// What all workers find, each in a thread of its own where one can be started; another thread does the pieces of one that
/// can't.
pub fn find_shares<R: Threads + Sync, C: Crew + Sync>(
    rt: &R,
    alloc: Global,
    crew: &C,
    work: &Work,
    pieces: u32,
    workers: u32,
) -> Result<Vec<Vec<Found>>, AllocError>
    requires shared { AreShared work.now.count pieces workers }
    ensures shares { IfOk result (λ v. AreAllShares work.now pieces workers v.items) }
    ensures each { IfOk result (λ _. (worker : ℕ) → worker < workers → C.begins crew.now worker workers) }
{
    let share_of = |worker: usize| -> Result<Vec<Found>, AllocError>
        requires { IsWorker work.now.count pieces workers worker }
        ensures { HasWorked C.begins crew.entry.now work.entry.now pieces workers worker result }
    { find_share(alloc, crew, work, pieces, workers, worker as u32) };
    let results = thread::map_indices(rt, alloc, workers as usize, &share_of)?;
    all_shares(alloc, results)
}
