//! What a device held so far. It takes no memory, and only clauses read it.
ghost use Rattle.std.specs.Prelude.{◌≡◌, ℕ, Bool, List, [], ◌∷◌};
ghost use Rattle.std.specs.Borrow.{ftrue};

use sector_device::Sector;
use std::marker::{Model, PhantomData};

#[derive(Drop)]
pub struct PastStates {
    marker: PhantomData<u8>,
    pub ghost states: { List (List (List ℕ) × List Bool × Bool) },
}

impl Model for PastStates {
    ghost also_owns = { λ _. ftrue };
}

impl PastStates {
    pub(crate) fn new() -> PastStates
        ensures { result.states ≡ [] }
    {
        PastStates {
            marker: PhantomData,
        }
    }

    /// Notes what the device held before a call, and whether that was refused.
    pub(crate) fn note(&mut self, _sectors: &[Sector], _dirty: &[bool], _was_refused: bool)
        ensures { self.new.states ≡ (_sectors.now, _dirty.now, _was_refused) ∷ self.old.states }
    {}
}
