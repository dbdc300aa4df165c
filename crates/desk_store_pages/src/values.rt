//! What is read back from a row.
use desk_store_rows::{
    Counters, HolderCount, SealRow, StoredPlan, read_counters, read_holder_count, read_plan,
    read_seal,
};

/// The value of a row, determined by its bytes.
pub trait RowValue: Drop + Sized {
    ghost use Rattle.std.specs.Prelude.{◌≡◌, ℕ, List, MatchOption};

    ghost bytes_of: { Self → List ℕ };

    /// The value with these bytes; None where there is none.
    fn read(bytes: &[u8]) -> Option<Self>
        ensures { MatchOption result ((value : Self) → bytes_of value ≡ bytes.now → ⊥) (λ value. bytes_of value ≡ bytes.now) };
}

impl RowValue for Counters {
    ghost use Rattle.desk_store_rows.specs.claim.Values.{counters_bytes};

    ghost bytes_of = { counters_bytes };

    fn read(bytes: &[u8]) -> Option<Counters> {
        read_counters(bytes)
    }
}

impl RowValue for StoredPlan {
    ghost use Rattle.desk_store_rows.specs.claim.Values.{plan_bytes};

    ghost bytes_of = { plan_bytes };

    fn read(bytes: &[u8]) -> Option<StoredPlan> {
        read_plan(bytes)
    }
}

impl RowValue for HolderCount {
    ghost use Rattle.desk_store_rows.specs.Values.{holder_count_bytes};

    ghost bytes_of = { holder_count_bytes };

    fn read(bytes: &[u8]) -> Option<HolderCount> {
        read_holder_count(bytes)
    }
}

impl RowValue for SealRow {
    ghost use Rattle.desk_store_rows.specs.claim.Values.{seal_bytes};

    ghost bytes_of = { seal_bytes };

    fn read(bytes: &[u8]) -> Option<SealRow> {
        read_seal(bytes)
    }
}
