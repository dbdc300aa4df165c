//! Changes of plans.
ghost use Rattle.std.specs.Prelude.{◌≡◌, ◌<◌, ◌+◌};
ghost use Rattle.page_store.specs.claim.Transactions.{count_of, txn_pages};
ghost use Rattle.desk_store_pages.specs.Outcomes.{PutsRows};
ghost use Rattle.plan_revisions.specs.PlanRows.{plan_rows, created_rows, revised_rows, CanRevise};
ghost use Rattle.plan_revisions.specs.claim.PlanRows.{HasPlanNumber};
ghost use Rattle.plan_revisions.specs.PlanChanging.{Changes, Retires, UntilFull};

use crate::change::ChangeOutcome;
use desk_model::kind::Kind;
use desk_model::name::PlanName;
use desk_store_pages::{TreeError, next_numbers, put_row};
use desk_store_rows::{Counters, Key, StoredPlan, counters_value, plan_value};
use page_btree::remove;
use page_store::{Pages, Txn};
use sector_device::SectorDevice;

/// Puts a plan's row and the row of the numbers that come next. Nothing is read: both are for the caller to know. After an error the
/// transaction can only be abandoned; each comes as from `put_row`.
pub fn put_plan<D: SectorDevice>(
    txn: &mut Txn,
    pages: &mut Pages<D>,
    name: &PlanName,
    row: &StoredPlan,
    next: &Counters,
) -> Result<(), TreeError>
    requires begun { txn_pages txn.old ≡ count_of pages.old }
    ensures { UntilFull (PutsRows (plan_rows name.now row.now next.now) txn.old txn.new pages.old pages.new result) txn.new result }
{
    put_row(txn, pages, &Key::named(name), &plan_value(row))?;
    put_row(txn, pages, &Key::counters(), &counters_value(next))
}

/// Creates a plan without revisions, under the next number. The caller chooses a name that no plan
/// has. After an error the transaction can only be abandoned. Errors as from `put_row`; `NotAStore`
/// also if the store's counters are not numbers.
pub fn create_plan<D: SectorDevice>(
    txn: &mut Txn,
    pages: &mut Pages<D>,
    name: &PlanName,
    kind: Kind,
    districts: u16,
) -> Result<ChangeOutcome, TreeError>
    requires begun { txn_pages txn.old ≡ count_of pages.old }
    ensures { UntilFull (Changes HasPlanNumber (created_rows name.now kind districts) txn.old txn.new pages.old pages.new result) txn.new result }
{
    let next = next_numbers(txn, pages)?;
    if next.plan == u64::MAX {
        return Ok(ChangeOutcome::NumbersExhausted);
    }
    let row = StoredPlan {
        number: next.plan,
        kind,
        districts,
        revisions: 0,
    };
    let then = Counters {
        plan: next.plan + 1,
        chunk: next.chunk,
        load: next.load,
    };
    put_plan(txn, pages, name, &row, &then)?;
    Ok(ChangeOutcome::Made)
}

/// Puts the row of a plan with one more revision, and advances the chunks' number by those that the
/// revision took. `row` is the plan's present row and `next` are the next numbers. After an error
/// the transaction can only be abandoned. Errors as from `put_row`.
pub fn revise_plan<D: SectorDevice>(
    txn: &mut Txn,
    pages: &mut Pages<D>,
    name: &PlanName,
    row: &StoredPlan,
    next: &Counters,
    chunks_used: u64,
) -> Result<(), TreeError>
    requires begun { txn_pages txn.old ≡ count_of pages.old }
    requires can { CanRevise row.now chunks_used next.now }
    ensures { UntilFull (PutsRows (revised_rows name.now row.now chunks_used next.now) txn.old txn.new pages.old pages.new result) txn.new result }
{
    let revised = StoredPlan {
        number: row.number,
        kind: row.kind,
        districts: row.districts,
        revisions: row.revisions + 1,
    };
    let then = Counters {
        plan: next.plan,
        chunk: next.chunk + chunks_used,
        load: next.load,
    };
    put_plan(txn, pages, name, &revised, &then)
}

/// Takes the row of a plan away, and marks its number: that of the row under the name. After an error the transaction can only
/// be abandoned; `Memory` comes from its growth, the others as from `put_row`.
pub fn retire_plan<D: SectorDevice>(
    txn: &mut Txn,
    pages: &mut Pages<D>,
    name: &PlanName,
    number: u64,
) -> Result<(), TreeError>
    requires begun { txn_pages txn.old ≡ count_of pages.old }
    ensures { UntilFull (Retires name.now number txn.old txn.new pages.old pages.new result) txn.new result }
{
    let key = Key::named(name);
    remove(txn, pages, key.as_slice())?;
    put_row(txn, pages, &Key::retired(number), &[])
}
