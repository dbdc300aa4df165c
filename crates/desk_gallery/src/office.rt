//! A front after one lock, and who sweeps beside those that take it.
ghost use Rattle.std.specs.Prelude.{◌≡◌, []};
ghost use Rattle.desk_theorem_runs.specs.desk_store.claim.Clerks.{desk_of, Keeps};
ghost use Rattle.desk_gallery.specs.claim.Begun.{IsLeftBy};
ghost use Rattle.desk_gallery.specs.Copies.{MayCopy};
ghost use Rattle.desk_gallery.specs.Fronts.{MayTurn, Starts};
ghost use Rattle.desk_gallery.specs.Working.{IsRunFrom};

use crate::book::GalleryId;
use crate::copying::{Upkeep, copy_shown};
use crate::front::Front;
use crate::pace::Pace;
use crate::shower::Shower;
use crate::tally::AnswerLedgers;
use desk_theorem_runs::Clerk;
use desk_theorem_runs::turning::{Swept, has_rest, outcome_of};
use sector_copies::fault::CopyFault;
use sector_device::SectorDevice;
use std::alloc::Global;
use std::sync::atomic::{AtomicU64, Ordering};
use std::sync::{Mutex, MutexGuard, Wait};

/// The clerk and the writer, for one thread at a time.
pub struct Office<J: GalleryId, D: SectorDevice> {
    front: Mutex<Front<J, D>>,
    pace: Pace,
    /// The free pages after the last command or step of a sweep.
    free_pages: AtomicU64,
}

impl<J: GalleryId, D: SectorDevice> Office<J, D> {
    /// Puts a clerk, and a writer that shows the clerk's desk and has nothing pending, behind a
    /// lock, with empty books.
    pub fn new(clerk: Clerk<D>, shower: Shower<J>, books: AnswerLedgers<J>) -> Office<J, D>
        requires none { shower ≡ ([], []) }
        requires books { (books.accepted.total ≡ 0) × (books.halted.total ≡ 0) }
        requires starts { Starts J.first J.begins J.sound clerk }
    {
        Office {
            front: Mutex::new(Front::new(clerk, shower, books)),
            pace: Pace::new(),
            free_pages: AtomicU64::new(u64::MAX),
        }
    }

    /// Lends the front for a command. It waits for whoever has it.
    pub fn lock<R: Wait>(&self, rt: &R) -> MutexGuard<'_, Front<J, D>> {
        self.pace.note_command();
        self.front.lock(rt)
    }

    /// Notes the number of free pages, for whoever reports it.
    pub fn note_room(&self, front: &Front<J, D>) {
        self.free_pages
            .store(u64::from(front.free_pages()), Ordering::SeqCst);
    }

    /// How many pages were free after the last command or step of a sweep; the greatest number before the first.
    pub fn free_pages(&self) -> &AtomicU64 {
        &self.free_pages
    }

    /// A plan was deleted: it leaves rows that a sweep takes out.
    pub fn note_rows(&self) {
        self.pace.note_rows();
    }

    /// Waits until rows are left, commands leave time and the lock is free, then makes a step of a
    /// sweep and returns its result. If more steps may follow, the result has the number of moves
    /// before this step. If memory is refused, the next step comes after the next deleted plan.
    pub fn sweep_next<R: Wait>(&self, rt: &R, alloc: Global, last: u64) -> Swept
        ensures { MayTurn D.SectorDevice J.first result }
    {
        if !self.pace.wait(rt, last) {
            return Swept::Over;
        }
        let moves = self.pace.moves();
        let mut front = self.front.lock(rt);
        let did = front.sweep_step(alloc);
        self.note_room(&*front);
        if has_rest(&did) {
            self.pace.note_none();
        }
        MutexGuard::unlock(front);
        outcome_of(moves, did)
    }

    /// Waits until the lock is free, then copies the store, puts the copy in place and returns the
    /// outcome. Commands wait meanwhile, and visitors do not.
    pub fn copy<U: Upkeep, R: Wait>(&self, rt: &R, upkeep: &U) -> Result<(), CopyFault>
        ensures { MayCopy D.SectorDevice U.Served.SectorDevice U.Copied.SectorDevice J.first J.sound (U.begins upkeep.now) (U.places upkeep.now) result }
    {
        let front = self.front.lock(rt);
        let did = copy_shown(upkeep, &*front);
        MutexGuard::unlock(front);
        did
    }

    /// Waits for a number of seconds. Returns false once sweeps and copies have ended.
    pub fn rest<R: Wait>(&self, rt: &R, seconds: u32) -> bool {
        self.pace.rest(rt, seconds)
    }

    /// Ends the sweeps and copies: a step or a copy that was begun is the last.
    pub fn end_sweeps(&self) {
        self.pace.end();
    }

    /// The front, once nobody has it.
    pub fn into_front(self) -> Front<J, D> {
        let Office {
            front,
            pace: _,
            free_pages: _,
        } = self;
        front.into_inner()
    }

    /// The clerk, once nobody has the front. Its desk is what commands led to that were accepted one after the other, and commands one
    /// after the other left it of the clerk with whom the office began.
    pub fn close<R: Wait>(self, rt: &R) -> Clerk<D>
        ensures kept { J.sound → Keeps result }
        ensures ran { IsRunFrom J.first (desk_of result) }
        ensures left { IsLeftBy J.first J.begins J.asked result }
    {
        let Office {
            front,
            pace: _,
            free_pages: _,
        } = self;
        front.into_inner().close(rt)
    }
}
