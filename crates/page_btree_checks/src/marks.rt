//! Which pages were named.
ghost use Rattle.std.specs.Prelude.{◌≡◌, ◌<◌, ◌^◌, length};
ghost use Rattle.page_btree_checks.specs.Marks.{unseen};

use crate::error::{PageFault, PageFaultKind};
use std::alloc::{AllocError, Global};

/// Whether each page was named, and how many weren't.
#[derive(Drop)]
pub(crate) struct Marks {
    pub(crate) seen: Vec<bool>,
    pub(crate) left: u32,
    ghost left_is: { left ≡ unseen seen.items },
    ghost few: { length seen.items < 2 ^ 32 },
}

impl Marks {
    ghost use Rattle.std.specs.Prelude.{◌≡◌, ◌<◌, ◌^◌, ℕ, length, OnOk, OnErr, IfOk, IfErr};
    ghost use Rattle.page_btree_checks.specs.Owners.{IsSeen, AreNamed};
    ghost use Rattle.page_btree_checks.specs.Faults.{IsUnnamed};

    /// Marks for `pages` pages, none of which was named yet.
    #[tactic(auto, using(crate::proofs::Named::unseen_none))]
    pub(crate) fn new(alloc: Global, pages: u32) -> Result<Marks, AllocError>
        ensures long { IfOk result (λ marks. length marks.seen.items ≡ pages) }
        ensures none { IfOk result (λ marks. (q : ℕ) → IsSeen marks q → ⊥) }
        ensures left { IfOk result (λ marks. marks.left ≡ pages) }
    {
        let seen = vec![in alloc; false; pages as usize]?;
        Ok(Marks { seen, left: pages })
    }

    /// Names a page. Refuses one that the device doesn't have, and one that was named before.
    #[tactic(auto, using(crate::proofs::Named::unseen_some))]
    pub(crate) fn name(&mut self, page: u32) -> Result<(), PageFault>
        ensures named { OnOk result (AreNamed (λ q. q ≡ page) 1 self.old self.new) }
        ensures few { length self.old.seen.items < 2 ^ 32 }
        ensures err { OnErr result (page < length self.old.seen.items → (IsSeen self.old page → ⊥) → ⊥) }
        ensures told { IfErr result (λ fault. (fault.page ≡ page) × IsUnnamed (length self.old.seen.items) page fault.kind) }
    {
        let place = page as usize;
        if place >= self.seen.len() {
            return Err(PageFault {
                page,
                kind: PageFaultKind::BeyondTheEnd,
            });
        }
        if self.seen[place] {
            return Err(PageFault {
                page,
                kind: PageFaultKind::NamedTwice,
            });
        }
        self.seen[place] = true;
        self.left -= 1;
        Ok(())
    }

    /// How many pages were named.
    pub(crate) fn named(&self) -> u64 {
        (self.seen.len() as u64).saturating_sub(u64::from(self.left))
    }

    /// The first page that wasn't named, or page 0 where each was.
    #[tactic(auto, using(crate::proofs::Named::all_seen))]
    pub(crate) fn first_lost(&self) -> u32
        ensures lost { 0 < self.now.left → IsSeen self.now result → ⊥ }
        ensures within { 0 < self.now.left → result < length self.now.seen.items }
    {
        for place in 0..self.seen.len() {
            if !self.seen[place] {
                return place as u32;
            }
        }
        0
    }
}
