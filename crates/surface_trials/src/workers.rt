//! What passes the gate between workers.
ghost use Rattle.std.specs.Prelude.{◌≤◌};
ghost use Rattle.audit_population.specs.Counts.{IsCount};

use audit_report::crew::Crew;
use audit_report::workers::audit_with;
use desk_model::gate::Gate;
use desk_model::geography::sample;
use desk_model::kind::Kind;
use std::alloc::Global;
use std::process::Abort;
use std::sync::atomic::{AtomicU64, Ordering};
use std::thread::Threads;

/// The gate lets a worker wait for this many turns at most.
const TURNS: u64 = 100_000_000;

/// Counts the passes, and of them those that came in turn: three workers, each of which does every third piece. Where it holds, it counts
/// nothing: piece 0 waits until piece 1 has passed, and it notes a fault where that doesn't come.
#[derive(Drop)]
struct Watch {
    holds: bool,
    passes: AtomicU64,
    in_turn: AtomicU64,
    first: AtomicU64,
    second: AtomicU64,
    third: AtomicU64,
    passed: AtomicU64,
    faults: AtomicU64,
}

impl Watch {
    fn new(holds: bool) -> Watch {
        Watch {
            holds,
            passes: AtomicU64::new(0),
            in_turn: AtomicU64::new(0),
            first: AtomicU64::new(0),
            second: AtomicU64::new(1),
            third: AtomicU64::new(2),
            passed: AtomicU64::new(0),
            faults: AtomicU64::new(0),
        }
    }

    /// Counts a pass of the piece that this is the turn of.
    fn note(&self, next: &AtomicU64, piece: u32) {
        if next.load(Ordering::SeqCst) == piece as u64 {
            next.store(piece as u64 + 3, Ordering::SeqCst);
            self.in_turn.fetch_add(1, Ordering::SeqCst);
        }
    }

    fn count(&self, worker: u32, piece: u32) {
        self.passes.fetch_add(1, Ordering::SeqCst);
        match worker {
            0 => self.note(&self.first, piece),
            1 => self.note(&self.second, piece),
            2 => self.note(&self.third, piece),
            _ => {}
        }
    }

    fn hold(&self) {
        for _ in 0..TURNS {
            if self.passed.load(Ordering::SeqCst) != 0 {
                return;
            }
        }
        self.faults.fetch_add(1, Ordering::SeqCst);
    }
}

impl Crew for Watch {
    ghost begins = { λ _ _ _. Unit {0} };

    fn begin(&self, _worker: u32, _workers: u32) {}
}

impl Gate for Watch {
    fn pass(&self, worker: u32, piece: u32) {
        if !self.holds {
            return self.count(worker, piece);
        }
        match piece {
            0 => self.hold(),
            1 => self.passed.store(1, Ordering::SeqCst),
            _ => {}
        }
    }
}

/// Returns what a number of workers report on a plan of the sample geography, two counties of two
/// blocks each, three of the blocks in one city: how many lines on contiguity, and how many on what
/// is broken.
fn audit_by<R: Threads + Abort + Sync>(
    rt: &R,
    alloc: Global,
    workers: u32,
    gate: &Watch,
    kind: Kind,
    count: u16,
    plan: &[u16; 4],
) -> (usize, usize)
    requires working { 1 ≤ workers }
    requires counted { IsCount count }
{
    let state = sample(alloc).expect(rt, "no memory");
    assert!(rt; state.blocks().len() == 4);
    let report = audit_with(
        rt, alloc, workers, gate, &state, kind, count, plan, None, None,
    );
    let report = report.expect(rt, "no memory");
    (report.contiguity.len(), report.broken.len())
}

/// Three workers over six pieces of a senate plan of 40 districts, of which four have a block: each piece passes once, each worker's in
/// rising order.
#[test]
fn each_piece_passes_once(rt: HostRuntime) {
    let rt = &rt;
    let gate = Watch::new(false);
    let plan = [1, 17, 33, 40];
    let (lines, _) = audit_by(rt, rt.alloc(), 3, &gate, Kind::Senate, 40, &plan);
    let passes = gate.passes.load(Ordering::SeqCst);
    let in_turn = gate.in_turn.load(Ordering::SeqCst);
    holds!(rt; (lines == 36) & (passes == 6) & (in_turn == 6));
}

/// Two workers are at work at the same time: piece 1 passes while piece 0 is held.
#[test]
fn pieces_at_once(rt: HostRuntime) {
    let rt = &rt;
    let gate = Watch::new(true);
    let (_, broken) = audit_by(rt, rt.alloc(), 2, &gate, Kind::House, 2, &[1, 1, 2, 2]);
    holds!(rt; (broken == 0) & (gate.faults.load(Ordering::SeqCst) == 0));
}
