//! Sectors that follow one another, read ahead by one call.
ghost use Rattle.sector_file.specs.Runs.{IsHeldRun};

use sector_device::{SECTOR_SIZE, Sector};
use std::alloc::Global;

/// How many sectors are read by one call.
pub(crate) const RUN_SECTORS: usize = 32;

/// A run of sectors that was read, if there is one.
#[derive(Drop)]
pub struct HeldRun {
    pub(crate) is: bool,
    pub(crate) first: u32,
    /// Room for the sectors of a run, or none.
    pub(crate) sectors: Vec<Sector>,
}

impl HeldRun {
    ghost use Rattle.std.specs.Prelude.{◌≡◌, ℕ, List, [], false, IfSome};
    ghost use Rattle.std.proofs.Common.{get_or};

    /// None, and room for a run, if it can be had.
    pub(crate) fn none(alloc: Global) -> HeldRun
        ensures { result.is ≡ false }
    {
        let sectors = match vec![in alloc; [0; SECTOR_SIZE]; RUN_SECTORS] {
            Ok(sectors) => sectors,
            Err(_) => Vec::new(alloc),
        };
        HeldRun {
            is: false,
            first: 0,
            sectors,
        }
    }

    /// The bytes of a sector, if the run has it.
    pub(crate) fn find(&self, sector: u32) -> Option<&Sector>
        ensures { (all : List (List ℕ)) → IsHeldRun self.now all → IfSome result (λ bytes. get_or all sector [] ≡ bytes.now) }
    {
        if !self.is || sector < self.first {
            return None;
        }
        self.sectors.as_slice().get((sector - self.first) as usize)
    }
}
