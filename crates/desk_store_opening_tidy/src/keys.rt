//! Keys of rows.
ghost use Rattle.std.specs.Prelude.{◌≡◌, ◌⊎◌, ℕ, MatchOption};
ghost use Rattle.desk_store_rows.specs.claim.Keys.{key_of, part, block, pair};
ghost use Rattle.desk_store_opening_tidy.specs.Owners.{IsPartKey};
ghost use Rattle.desk_store_opening_tidy.specs.Rows.{IsUnder};

use desk_store_rows::RowKey;

/// Returns the load whose block or pair of neighbours has this key; `None` for any other key.
pub(crate) fn load_in(key: &[u8]) -> Option<u64>
    ensures { MatchOption result ((load place : ℕ) → (key.now ≡ key_of (block load place)) ⊎ (key.now ≡ key_of (pair load place)) → ⊥)
        (λ load. IsUnder load key.now) }
{
    match RowKey::read(key) {
        Some(RowKey::Block { load, .. }) => Some(load),
        Some(RowKey::Pair { load, .. }) => Some(load),
        _ => None,
    }
}

/// Returns the plan and the revision of the part with this key; `None` for any other key.
pub(crate) fn part_in(key: &[u8]) -> Option<(u64, u32)>
    ensures { MatchOption result ((plan revision index : ℕ) → key.now ≡ key_of (part plan revision index) → ⊥) (λ of. IsPartKey of.0 of.1 key.now) }
{
    match RowKey::read(key) {
        Some(RowKey::Part { plan, revision, .. }) => Some((plan, revision)),
        _ => None,
    }
}
