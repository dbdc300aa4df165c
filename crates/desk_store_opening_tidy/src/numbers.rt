//! Numbers in rows that are below those that come next.
ghost use Rattle.std.specs.Prelude.{◌≡◌, ◌<◌, ◌^◌, ℕ, List, ◌∷◌, ◌++◌, All, true, false};
ghost use Rattle.page_btree.specs.gets.Tests.{IsTest};
ghost use Rattle.desk_store_rows.specs.declared.value.StoredPlan.{StoredPlan as PlanValue};
ghost use Rattle.desk_store_rows.specs.declared.value.SealRow.{SealRow as SealValue};
ghost use Rattle.desk_store_rows.specs.claim.Keys.{in_four, in_eight};
ghost use Rattle.desk_store_rows.specs.claim.Values.{plan_bytes, seal_bytes};
ghost use Rattle.desk_store_rows.specs.claim.Lists.{AreChunks, chunks_bytes};
ghost use Rattle.desk_store_opening_tidy.specs.Numbers.{IsCount};

use desk_store_rows::{eight, four, read_chunks, read_plan, read_seal};

/// Returns whether a row's value is a number of 8 bytes from 1 to `plans`.
pub(crate) fn is_count(value: &[u8], plans: u64) -> bool
    ensures { IsTest result (IsCount plans value.now) }
{
    if value.len() != 8 {
        return false;
    }
    let count = eight(value);
    count > 0 && count <= plans
}

/// Returns whether the version's row says the second version.
pub fn is_version(value: &[u8]) -> bool
    ensures { IsTest result (value.now ≡ in_four 2) }
{
    if value.len() != 4 {
        return false;
    }
    four(value) == 2
}

/// Whether the value of a plan's row has a number below the next one.
pub(crate) fn is_plan_below(value: &[u8], next: u64) -> bool
    ensures below { result ≡ true → (p : PlanValue) × (plan_bytes p ≡ value.now) × (p.number < next) }
    ensures above { result ≡ false → (p : PlanValue) → plan_bytes p ≡ value.now → p.number < next → ⊥ }
{
    match read_plan(value) {
        None => false,
        Some(plan) => plan.number < next,
    }
}

/// Whether the value of the row that names the geography has a load below the next one.
pub(crate) fn is_seal_below(value: &[u8], next: u64) -> bool
    ensures below { result ≡ true → (s : SealValue) × (seal_bytes s ≡ value.now) × (s.load < next) }
    ensures above { result ≡ false → (s : SealValue) → seal_bytes s ≡ value.now → s.load < next → ⊥ }
{
    match read_seal(value) {
        None => false,
        Some(seal) => seal.load < next,
    }
}

/// Whether each number is below the next one.
fn are_below(numbers: &[u64], next: u64) -> bool
    ensures { IsTest result (All (λ n. n < next) numbers.now) }
{
    numbers.iter().all(|number| *number < next)
}

/// Whether the value of a part of a revision names chunks whose numbers are below the next one.
pub(crate) fn are_chunks_below(value: &[u8], next: u64) -> bool
    ensures below { result ≡ true → (numbers : List ℕ) × AreChunks numbers × (chunks_bytes numbers ≡ value.now) × All (λ n. n < next) numbers }
    ensures above { result ≡ false → (numbers : List ℕ) → AreChunks numbers → chunks_bytes numbers ≡ value.now → All (λ n. n < next) numbers → ⊥ }
{
    match read_chunks(value) {
        None => false,
        Some(numbers) => are_below(numbers.as_slice(), next),
    }
}
