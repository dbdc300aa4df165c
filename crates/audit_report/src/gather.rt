//! The pieces of an audit put together.
ghost use Rattle.std.specs.Prelude.{IfOk};
ghost use Rattle.audit_contiguity.specs.claim.Breaks.{AreBreaks};
ghost use Rattle.audit_report.specs.Share.{AreAllShares, IsTaken, IsThere};
ghost use Rattle.audit_report.specs.Work.{ArePiecesOf};

use crate::pieces::Pieces;
use crate::work::{Found, Work};
use audit_contiguity::breaks::Break;
use audit_contiguity::laws::breaks_follow;
use std::alloc::{AllocError, Global};

/// Takes what a piece found out of the share in which it lies.
fn take(shares: &mut Vec<Vec<Found>>, workers: usize, piece: usize) -> Found
    requires { IsThere piece workers shares.old.items }
    ensures { IsTaken piece workers shares.old.items shares.new.items result }
{
    shares[piece % workers].remove(piece / workers)
}

/// The breaks of all districts: those of the parts, in their order.
fn all_breaks(
    alloc: Global,
    work: &Work,
    pieces: usize,
    workers: usize,
    shares: &[Vec<Found>],
) -> Result<Vec<Break>, AllocError>
    requires { AreAllShares work.now pieces workers shares.now }
    ensures { IfOk result (λ breaks. AreBreaks work.now.geography work.now.plan 1 work.now.count breaks.items) }
{
    breaks_follow();
    let mut breaks = Vec::new(alloc);
    for piece in 3..pieces {
        let found = &shares[piece % workers][piece / workers];
        breaks.extend_from_slice(found.breaks())?;
    }
    Ok(breaks)
}

/// The pieces that all workers found.
pub fn gather(
    alloc: Global,
    work: &Work,
    pieces: u32,
    workers: u32,
    mut shares: Vec<Vec<Found>>,
) -> Result<Pieces, AllocError>
    requires { AreAllShares work.now pieces workers shares.items }
    ensures { IfOk result (ArePiecesOf work.now) }
{
    let workers = workers as usize;
    let contiguity = all_breaks(alloc, work, pieces as usize, workers, shares.as_slice())?;
    let Found::Nesting(unnested) = take(&mut shares, workers, 2) else {
        unreachable!()
    };
    let Found::Splits(splits) = take(&mut shares, workers, 1) else {
        unreachable!()
    };
    let Found::People(people) = take(&mut shares, workers, 0) else {
        unreachable!()
    };
    Ok(Pieces {
        people,
        splits,
        unnested,
        contiguity,
    })
}
