//! The sectors that were read last, held in memory: on the heap, so that a device that is handed on is small.
ghost use Rattle.std.specs.Prelude.{◌≡◌, ◌≢◌, ◌<◌, ℕ, List, [], IfSome, true, vec_len};
ghost use Rattle.std.proofs.Common.{get_or};
ghost use Rattle.sector_file.specs.Recalled.{IsRight, Recalls};

use sector_device::Sector;
use std::alloc::Global;

/// Whether there is room for a sector's bytes, which is taken once.
fn has_room(held: &mut Vec<Sector>, bytes: &Sector) -> bool
    ensures { result ≡ true → 0 < vec_len held.new }
{
    if !held.is_empty() {
        return true;
    }
    held.push(*bytes).is_ok()
}

/// A sector that was read, if there is one.
#[derive(Drop)]
pub struct HeldSector {
    is: bool,
    sector: u32,
    /// Room for its bytes, once there is one.
    bytes: Vec<Sector>,
}

impl HeldSector {
    ghost use Rattle.std.specs.Prelude.{◌≡◌, false, true};

    /// None.
    fn none(alloc: Global) -> HeldSector
        ensures { result.is ≡ false }
    {
        HeldSector {
            is: false,
            sector: 0,
            bytes: Vec::new(alloc),
        }
    }

    /// The bytes of a sector, if it is this one.
    fn find(&self, sector: u32) -> Option<&Sector>
        ensures { (sectors : List (List ℕ)) → IsRight self.now sectors → IfSome result (λ bytes. get_or sectors sector [] ≡ bytes.now) }
    {
        if self.is && self.sector == sector {
            return self.bytes.as_slice().first();
        }
        None
    }

    /// Takes a sector in its place, where there is room for it: else none is held.
    fn put(&mut self, sector: u32, bytes: &Sector)
        ensures { (sectors : List (List ℕ)) → get_or sectors sector [] ≡ bytes.now → IsRight self.new sectors }
    {
        self.is = false;
        if !has_room(&mut self.bytes, bytes) {
            return;
        }
        self.bytes[0].copy_from_slice(bytes);
        self.sector = sector;
        self.is = true;
    }

    /// Lets go of a sector.
    fn forget(&mut self, sector: u32)
        ensures { (before after : List (List ℕ)) → ((j : ℕ) → j ≢ sector → get_or after j [] ≡ get_or before j [])
            → IsRight self.old before → IsRight self.new after }
    {
        if self.sector == sector {
            self.is = false;
        }
    }
}

/// The two sectors that were read last.
#[derive(Drop)]
pub struct Recent {
    first: HeldSector,
    second: HeldSector,
    /// Whether the first gives way to the next.
    turn: bool,
}

impl Recent {
    /// None.
    pub(crate) fn none(alloc: Global) -> Recent
        ensures { (sectors : List (List ℕ)) → Recalls result sectors }
    {
        Recent {
            first: HeldSector::none(alloc),
            second: HeldSector::none(alloc),
            turn: true,
        }
    }

    /// The bytes of a sector, if it was read lately.
    pub(crate) fn find(&self, sector: u32) -> Option<&Sector>
        ensures { (sectors : List (List ℕ)) → Recalls self.now sectors → IfSome result (λ bytes. get_or sectors sector [] ≡ bytes.now) }
    {
        match self.first.find(sector) {
            Some(bytes) => Some(bytes),
            None => self.second.find(sector),
        }
    }

    /// Notes a sector that was read.
    pub(crate) fn note(&mut self, sector: u32, bytes: &Sector)
        ensures { (sectors : List (List ℕ)) → Recalls self.old sectors → get_or sectors sector [] ≡ bytes.now → Recalls self.new sectors }
    {
        if self.turn {
            self.first.put(sector, bytes);
            self.turn = false;
        } else {
            self.second.put(sector, bytes);
            self.turn = true;
        }
    }

    /// Drops a sector from memory. Only this sector may have changed.
    pub(crate) fn forget(&mut self, sector: u32)
        ensures { (before after : List (List ℕ)) → ((j : ℕ) → j ≢ sector → get_or after j [] ≡ get_or before j [])
            → Recalls self.old before → Recalls self.new after }
    {
        self.first.forget(sector);
        self.second.forget(sector);
    }
}
