//! Steps of a sweep at a clerk, after a check.
ghost use Rattle.std.specs.Prelude.{true, false};
ghost use Rattle.desk_theorem_runs.specs.claim.SweptRuns.{Tends};
ghost use Rattle.desk_theorem_runs.specs.Steps.{StepMay};

use desk_store::clerk::Clerk;
use desk_store_pages::StoreError;
use sector_device::SectorDevice;
use std::alloc::Global;

/// Sweeps a clerk's store, whose holdings were checked, by one step.
fn sweep_checked<D: SectorDevice>(
    alloc: Global,
    clerk: &mut Clerk<D>,
) -> Result<Option<usize>, StoreError>
    ensures tends { Tends true clerk.old true clerk.new }
    ensures may { StepMay true clerk.old result clerk.new }
{
    match clerk.sweep_step(alloc) {
        Ok(count) => Ok(Some(count)),
        Err(e) => Err(e),
    }
}

/// Checks the holdings of a clerk's store: whether they are sound.
fn check<D: SectorDevice>(
    alloc: Global,
    clerk: &mut Clerk<D>,
) -> (bool, Result<Option<usize>, StoreError>)
    ensures tends { Tends false clerk.old result.0 clerk.new }
    ensures may { StepMay false clerk.old result.1 clerk.new }
{
    match clerk.check_holders(alloc) {
        Ok(()) => (true, Ok(None)),
        Err(e) => (false, Err(e)),
    }
}

/// Checks the holdings, or where that was done sweeps by one step: whether they are checked then, and what came of it.
pub fn tend<D: SectorDevice>(
    alloc: Global,
    clerk: &mut Clerk<D>,
    is_checked: bool,
) -> (bool, Result<Option<usize>, StoreError>)
    ensures tends { Tends is_checked clerk.old result.0 clerk.new }
    ensures may { StepMay is_checked clerk.old result.1 clerk.new }
{
    if is_checked {
        let swept = sweep_checked(alloc, clerk);
        return (true, swept);
    }
    check(alloc, clerk)
}
