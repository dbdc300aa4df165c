//! The pages of a commit.
ghost use Rattle.std.specs.Prelude.{◌≡◌, ◌≢◌, ◌<◌, ℕ, false, length, MatchOption, slice_index_or};
ghost use Rattle.gate_journal.specs.Store.{AreNumbers, AreApart};

use crate::opening::LEAST_JOURNAL;
use sector_device::Sector;
use std::alloc::{AllocError, Global};

/// Pages that a commit is to write, each once.
#[derive(Drop)]
pub struct PageWrites {
    /// The number of each page, in the order of the list; a search reads only these.
    numbers: Vec<u32>,
    pub(crate) list: Vec<(u32, Sector)>,
    ghost beside: { AreNumbers numbers.items list.items },
    ghost once: { AreApart numbers.items },
}

/// Whether a page's number is among these. All are looked at, several at a time: the compiler makes vector code of it.
fn is_among(numbers: &[u32], page: u32) -> bool
    ensures { result ≡ false → (j : ℕ) → j < length numbers.now → slice_index_or numbers.now j 0 ≢ page }
{
    let mut seen = false;
    for number in numbers {
        seen |= *number == page;
    }
    seen
}

/// The place of a page's number.
fn find(numbers: &[u32], page: u32) -> Option<usize>
    ensures { MatchOption result ((j : ℕ) → j < length numbers.now
        → slice_index_or numbers.now j 0 ≢ page) (λ k. (k < length numbers.now) × (slice_index_or numbers.now k 0 ≡ page)) }
{
    if !is_among(numbers, page) {
        return None;
    }
    for (k, number) in numbers.iter().enumerate() {
        if *number == page {
            return Some(k);
        }
    }
    None
}

impl PageWrites {
    ghost use Rattle.std.specs.Prelude.{◌≡◌, ◌≤◌, [], length, IfOk, MatchOption};
    ghost use Rattle.sector_device.specs.claim.Disk.{Image};
    ghost use Rattle.gate_journal.specs.Store.{Writes, IsOnce};
    ghost use Rattle.gate_journal.specs.claim.Store.{overlay};
    ghost use Rattle.std.specs.Fn.{FnOnceReturnsAtMut};
    ghost use Rattle.gate_journal.specs.claim.Writes.{writes_of};
    ghost use Rattle.gate_journal.specs.Writes.{room_of, IsLast};
    ghost use Rattle.gate_journal.specs.Outcomes.{EditsPage, PushesWrite, PutsWrite};

    /// Returns a write set without pages, with memory for those of a commit of the smallest journal, 256 pages.
    pub fn new(alloc: Global) -> Result<PageWrites, AllocError>
        ensures none { IfOk result (λ writes. writes_of writes ≡ []) }
        ensures room { IfOk result (λ writes. 256 ≤ room_of writes) }
    {
        let numbers = Vec::with_capacity(alloc, LEAST_JOURNAL as usize)?;
        let list = Vec::with_capacity(alloc, LEAST_JOURNAL as usize)?;
        Ok(PageWrites { numbers, list })
    }

    /// Returns a write set without pages that holds no memory yet.
    pub fn empty(alloc: Global) -> PageWrites
        ensures { writes_of result ≡ [] }
    {
        PageWrites {
            numbers: Vec::new(alloc),
            list: Vec::new(alloc),
        }
    }

    /// Returns the number of pages in the write set. Each occurs once.
    #[tactic(auto, using(crate::proofs::Overlays::is_once))]
    pub fn len(&self) -> usize
        ensures length { result ≡ length (writes_of self.now) }
        ensures once { IsOnce (writes_of self.now) }
    {
        self.list.len()
    }

    /// Takes all writes away, and keeps the memory.
    pub fn clear(&mut self)
        ensures none { writes_of self.new ≡ [] }
        ensures room { room_of self.new ≡ room_of self.old }
    {
        self.numbers.clear();
        self.list.clear();
    }

    /// Adds a page and its bytes. That the page is one of the store's is the caller's condition.
    #[tactic(auto, using(crate::proofs::Overlays::beside_push, crate::proofs::Overlays::apart_push))]
    pub fn push(&mut self, page: u32, bytes: &Sector) -> Result<(), AllocError>
        requires { Writes (writes_of self.old) page → ⊥ }
        ensures { PushesWrite page bytes.now self.old self.new result }
    {
        self.numbers.reserve(1)?;
        self.list.push((page, *bytes))?;
        let _ = self.numbers.push(page);
        Ok(())
    }

    /// The place of a page among the writes.
    #[tactic(auto, using(crate::proofs::Overlays::found_by))]
    fn place(&self, page: u32) -> Option<usize>
        ensures { MatchOption result (Writes (writes_of self.now) page → ⊥) (λ k. IsLast (writes_of self.now) page k) }
    {
        find(&self.numbers, page)
    }

    /// The bytes that a page is to have, where it is written.
    #[tactic(auto, using(crate::proofs::Overlays::overlay_last, std::proofs::lemmas::List::get_or_default))]
    pub fn get(&self, page: u32) -> Option<&Sector>
        ensures { MatchOption result (Writes (writes_of self.now) page → ⊥) (λ bytes. (P : Image) → overlay (writes_of self.now) P page ≡ bytes.now) }
    {
        let k = self.place(page)?;
        Some(&self.list[k].1)
    }

    /// Applies `change` in place to a page that is already in the write set and returns its result;
    /// `None` if the page is not in the set.
    pub fn edit<R, F: FnOnce(&mut Sector) -> R>(&mut self, page: u32, change: F) -> Option<R>
        requires { F.IsAlwaysCallable change }
        ensures { EditsPage (FnOnceReturnsAtMut F.FnOnce change) page self.old self.new result }
    {
        let k = self.place(page)?;
        let write = &mut self.list[k];
        Some(change(&mut write.1))
    }

    /// Gives a page its bytes: in place where it is written, and else as a further write.
    pub fn put(&mut self, page: u32, bytes: &Sector) -> Result<(), AllocError>
        ensures { PutsWrite page bytes.now self.old self.new result }
    {
        match self.place(page) {
            Some(k) => {
                let write = &mut self.list[k];
                write.1.copy_from_slice(bytes);
                Ok(())
            }
            None => self.push(page, bytes),
        }
    }
}
