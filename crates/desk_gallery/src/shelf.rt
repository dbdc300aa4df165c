//! A catalogue with the changes that led to it.
ghost use Rattle.std.specs.Prelude.{◌≡◌, IfOk};

use crate::book::Mark;
use desk_store_catalogue::catalogue::Catalogue;
use left_right::Absorb;
use std::alloc::AllocError;
use std::sync::Arc;

/// A copy of what is shown. That the changes led to the catalogue is the gallery's rule.
#[derive(Drop)]
pub struct PublishedDesk {
    pub shown: Arc<Catalogue>,
    pub past: Mark,
}

impl PublishedDesk {
    /// The same again. Err where one more owner is refused.
    pub fn again(&self) -> Result<PublishedDesk, AllocError>
        ensures { IfOk result (λ s. (s.shown.value ≡ self.now.shown.value) × (s.past ≡ self.now.past)) }
    {
        Ok(PublishedDesk {
            shown: self.shown.clone()?,
            past: self.past.again(),
        })
    }
}

impl Absorb<PublishedDesk> for PublishedDesk {
    type State = (Catalogue, Mark);

    ghost state = { λ s. (s.shown.value, s.past) };

    ghost applied = { λ _ s. (s.shown.value, s.past) };

    /// Fails where one more owner is refused, and then changes nothing.
    fn absorb_first(
        &mut self,
        operation: &PublishedDesk,
        _other: &PublishedDesk,
    ) -> Result<(), AllocError> {
        *self = operation.again()?;
        Ok(())
    }
}
