//! Loads a geography by as many batches as it takes.
ghost use Rattle.std.specs.Prelude.{◌≡◌, ◌≤◌, ◌+◌, ◌-◌, ◌*◌, None, OnOk, OnErr, IfErr};
ghost use Rattle.desk_store_rows.specs.claim.GeographyRows.{geography_rows};
ghost use Rattle.desk_store.specs.geo_tables.Loading.{geography_model_of, done_of};
ghost use Rattle.desk_store.specs.claim.Clerks.{desk_of, Moves, MovesIf};
ghost use Rattle.desk_store.specs.Keeping.{sealed_desk};
ghost use Rattle.desk_store.specs.Loads.{Stages, IsLast};
ghost use Rattle.desk_theorem_loading.specs.Loads.{batch_rows as rows_of_batch, HasStaged, StageRefused, IsLoaded, LoadRefused};

use byte_stream::progress::Progress;
use desk_model::geography::Geography;
use desk_store::clerk::Clerk;
use desk_store::{BATCH_ROWS, Load};
use desk_store_pages::{ROW_PAGES, StoreError};
use sector_device::SectorDevice;
use std::alloc::Global;
use std::sync::Arc;

/// How many rows a batch may have: 13 journal pages for each, and for the mark of the load, but one at least and 512 at most.
fn batch_rows(journal_pages: u32) -> usize
    ensures exact { result ≡ rows_of_batch journal_pages }
    ensures some { 1 ≤ result }
    ensures few { result ≤ 512 }
    ensures fits { 26 ≤ journal_pages → 13 * (result + 1) ≤ journal_pages }
{
    let rows = (journal_pages / ROW_PAGES) as usize;
    if rows < 2 {
        1
    } else if rows > BATCH_ROWS {
        BATCH_ROWS
    } else {
        rows - 1
    }
}

/// Stages the rows that are left of a load. `progress` hears how many these are, and then of each batch.
fn stage_rows<D: SectorDevice, P: Progress>(
    alloc: Global,
    clerk: &mut Clerk<D>,
    load: &mut Load,
    progress: &mut P,
) -> Result<(), StoreError>
    requires last { IsLast clerk.old load.old }
    requires unsealed { (desk_of clerk.old).geography ≡ None }
    ensures moves { MovesIf (Stages clerk.old load.old) (desk_of clerk.old) clerk.old clerk.new }
    ensures desk { desk_of clerk.new ≡ desk_of clerk.old }
    ensures staged { OnOk result (HasStaged clerk.old load.old clerk.new load.new) }
    ensures done { OnOk result (done_of load.new ≡ geography_rows (geography_model_of load.new)) }
    ensures err { IfErr result (λ e. StageRefused clerk.old load.old e clerk.new) }
    ensures told { P.is_told progress.new (geography_rows (geography_model_of load.old) - done_of load.old) }
{
    let most = batch_rows(clerk.journal_pages());
    let all = load.left();
    progress.expect(all as u64);
    let mut left = all;
    while left > 0 {
        left = match clerk.load_batch(alloc, load, left.min(most)) {
            Ok(left) => left,
            Err(e) => return Err(e),
        };
        progress.note(all.wrapping_sub(left) as u64);
    }
    Ok(())
}

/// Loads a geography, in place of a load that is under way: begins, stages its rows in batches, and seals. After a refusal the desk
/// is as it was. `progress` hears how many rows there are, and after each batch how many there were so far.
pub fn load_geography<D: SectorDevice, P: Progress>(
    alloc: Global,
    clerk: &mut Clerk<D>,
    geography: Arc<Geography>,
    progress: &mut P,
) -> Result<(), StoreError>
    ensures moves { Moves (sealed_desk geography.value) clerk.old clerk.new }
    ensures loaded { OnOk result (IsLoaded clerk.old geography.value clerk.new) }
    ensures same { OnErr result (desk_of clerk.new ≡ desk_of clerk.old) }
    ensures err { IfErr result (λ e. LoadRefused clerk.old geography.value e clerk.new) }
    ensures told { OnOk result (P.is_told progress.new (geography_rows geography.value)) }
{
    let mut load = match clerk.begin_load(alloc, geography) {
        Ok(load) => load,
        Err(e) => return Err(e),
    };
    match stage_rows(alloc, clerk, &mut load, progress) {
        Ok(()) => {}
        Err(e) => return Err(e),
    }
    match clerk.seal(alloc, load) {
        Ok(()) => return Ok(()),
        Err((e, _)) => return Err(e),
    }
}
