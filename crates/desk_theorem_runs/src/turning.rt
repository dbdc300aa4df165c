//! What a turn of sweeping came to.
ghost use Rattle.std.specs.Prelude.{◌≡◌};
ghost use Rattle.desk_theorem_runs.specs.Turns.{leaves_none, swept_of};

use desk_store_pages::StoreError;

/// The result of a turn of sweeping.
#[derive(Clone, Copy)]
pub enum Swept {
    /// More turns may follow. There were this many moves before it.
    Again(u64),
    /// The rows are none that a desk leaves. None was taken out, and no other follows.
    Unsound,
    /// No other follows.
    Over,
}

/// Returns the result of a turn whose step returned `did`, given the number of moves before it. If
/// memory was refused, more turns may follow; if the device failed, none does.
pub fn outcome_of(moves: u64, did: Result<Option<usize>, StoreError>) -> Swept
    ensures { result ≡ swept_of moves did }
{
    match did {
        Ok(_) => Swept::Again(moves),
        Err(StoreError::Memory) => Swept::Again(moves),
        Err(StoreError::NotAStore) => Swept::Unsound,
        Err(_) => Swept::Over,
    }
}

/// Whether the next step waits for a further deleted plan: no row is left, or memory was refused.
pub fn has_rest(did: &Result<Option<usize>, StoreError>) -> bool
    ensures { result ≡ leaves_none did.now }
{
    match did {
        Ok(None) => false,
        Ok(Some(count)) => *count == 0,
        Err(StoreError::Memory) => true,
        Err(_) => false,
    }
}
