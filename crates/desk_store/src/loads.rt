//! Loads at the clerk.

use crate::clerk::Clerk;
use crate::failures::has_failed;
use crate::shown::sealed;
use desk_model::geography::Geography;
use desk_store_opening::Load;
use desk_store_pages::StoreError;
use sector_device::SectorDevice;
use std::alloc::Global;
use std::sync::Arc;

impl<D: SectorDevice> Clerk<D> {
    ghost use Rattle.std.specs.Prelude.{◌≡◌, ◌≤◌, ◌+◌, false, None, OnOk, OnErr, IfOk, IfErr};
    ghost use Rattle.desk_store_rows.specs.claim.GeographyRows.{geography_rows};
    ghost use Rattle.desk_store_opening.specs.geo_tables.Loading.{geography_model_of, done_of};
    ghost use Rattle.desk_store.specs.claim.Clerks.{desk_of, pages_of, Keeps, Moves};
    ghost use Rattle.desk_store.specs.Calls.{LoadsBatch, SealsLoad};
    ghost use Rattle.desk_store.specs.Loads.{Loads, Stages, IsLast, EndRefused, BeginRefused};

    /// Begins a load of a geography, in place of one that is under way. The desk stays as it is. `Halted`: the device failed, in this call
    /// or before. Any other refusal changes nothing, here and in `load_batch` and `seal`.
    pub fn begin_load(
        &mut self,
        alloc: Global,
        geography: Arc<Geography>,
    ) -> Result<Load, StoreError>
        ensures moves { Moves (desk_of self.old) self.old self.new }
        ensures loads { Loads self.old self.new result }
        ensures staged { Keeps self.old → IfOk result (λ load. Stages self.new load) }
        ensures last { IfOk result (λ load. IsLast self.new load) }
        ensures load { IfOk result (λ load. (load.geography ≡ geography) × (done_of load ≡ 0)) }
        ensures unsealed { OnOk result ((desk_of self.old).geography ≡ None) }
        ensures loading { OnErr result (self.new.loading ≡ self.old.loading) }
        ensures err { IfErr result (λ e. BeginRefused geography.value self.old e self.new.halted (pages_of self.new)) }
    {
        if self.catalogue.geography().is_some() {
            return Err(StoreError::AlreadySealed);
        }
        if self.halted {
            return Err(StoreError::Halted);
        }
        match desk_store_opening::begin_load(alloc, &mut self.pages, geography) {
            Ok(load) => {
                self.loading = Some(load.number());
                Ok(load)
            }
            Err(e) => {
                if has_failed(e, &self.pages) {
                    self.halted = true;
                    return Err(StoreError::Halted);
                }
                Err(e)
            }
        }
    }

    /// Refuses where a load doesn't go on.
    fn may_go_on(&self, load: &Load) -> Result<(), StoreError>
        ensures ok { OnOk result ((self.now.halted ≡ false) × ((desk_of self.now).geography ≡ None) × IsLast self.now load.now) }
        ensures err { IfErr result (λ e. EndRefused load.now self.now e) }
    {
        if self.catalogue.geography().is_some() {
            return Err(StoreError::AlreadySealed);
        }
        if self.loading != Some(load.number()) {
            return Err(StoreError::Ended);
        }
        if self.halted {
            return Err(StoreError::Halted);
        }
        Ok(())
    }

    /// Stages the next `rows` rows of a load, 1 to 512 and no more than are left, and returns how
    /// many are left then. The desk stays as it is. After an error the load is as it was.
    pub fn load_batch(
        &mut self,
        alloc: Global,
        load: &mut Load,
        rows: usize,
    ) -> Result<usize, StoreError>
        requires some { 1 ≤ rows }
        requires few { rows ≤ 512 }
        requires left { done_of load.old + rows ≤ geography_rows (geography_model_of load.old) }
        ensures { LoadsBatch load.old load.new rows self.old self.new result }
    {
        if let Err(e) = self.may_go_on(load) {
            return Err(e);
        }
        match desk_store_opening::load_batch(alloc, &mut self.pages, load, rows) {
            Ok(left) => Ok(left),
            Err(e) => {
                if has_failed(e, &self.pages) {
                    self.halted = true;
                    return Err(StoreError::Halted);
                }
                Err(e)
            }
        }
    }

    /// Seals a load whose rows are all staged: the desk has its geography from then on, and no plan. A refusal hands the load back.
    pub fn seal(&mut self, alloc: Global, load: Load) -> Result<(), (StoreError, Load)>
        requires { done_of load ≡ geography_rows (geography_model_of load) }
        ensures { SealsLoad load self.old self.new result }
    {
        if let Err(e) = self.may_go_on(&load) {
            return Err((e, load));
        }
        let Ok(shown) = sealed(alloc, load.geography()) else {
            return Err((StoreError::Memory, load));
        };
        match desk_store_opening::seal(alloc, &mut self.pages, load) {
            Ok(()) => {
                self.catalogue = shown;
                Ok(())
            }
            Err((e, load)) => {
                if has_failed(e, &self.pages) {
                    self.halted = true;
                    return Err((StoreError::Halted, load));
                }
                Err((e, load))
            }
        }
    }
}
