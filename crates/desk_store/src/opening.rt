//! Opens the desk of a store.
ghost use Rattle.std.specs.Prelude.{◌≡◌, Bool, false, OnOk, IfOk, IfErr};
ghost use Rattle.page_store.specs.claim.Transactions.{disk_in, has_halted, IsQuiet};
ghost use Rattle.page_store.specs.Reading.{ReadsOnly};
ghost use Rattle.desk_model.specs.claim.Desk.{Desk};
ghost use Rattle.page_btree.specs.gets.claim.Map.{InPages as HasRows};
ghost use Rattle.desk_store_rows.specs.claim.Keys.{version, in_four};
ghost use Rattle.desk_store_rows.specs.claim.Rows.{KeyMap, Has};
ghost use Rattle.desk_store_opening.specs.Opening.{IsReadFrom};
ghost use Rattle.desk_store_pages.specs.Desks.{InPagesAs};
ghost use Rattle.desk_store_pages.specs.Errors.{IsCalm};
ghost use Rattle.desk_store.specs.Finding.{FindErr, OldErr};

use crate::clerk::Clerk;
use desk_store_catalogue::catalogue::Catalogue;
use desk_store_opening::{check_held, is_new, read_desk};
use desk_store_pages::{StoreError, row_error};
use page_store::Pages;
use sector_device::SectorDevice;
use std::alloc::Global;
use std::sync::Arc;

/// Returns why pages whose rows tell no version are refused: `OldVersion` only if they hold rows.
#[tactic(auto, using(crate::proofs::Opened::none_held, desk_store_pages::proofs::Refusals::calm_told))]
fn refusal_of_old<D: SectorDevice>(alloc: Global, pages: &mut Pages<D>) -> StoreError
    requires working { has_halted pages.old ≡ false }
    ensures quiet { IsQuiet pages.old pages.new }
    ensures why { OldErr pages.old pages.new result }
    ensures calm { IsCalm pages.new result }
{
    match check_held(alloc, pages) {
        Ok(()) => StoreError::OldVersion,
        Err(e) => row_error(e, pages.is_halted()),
    }
}

/// Reads the desk that pages hold in the new version, to be shown.
fn read_shown<D: SectorDevice>(
    alloc: Global,
    pages: &mut Pages<D>,
) -> Result<Arc<Catalogue>, StoreError>
    requires { has_halted pages.old ≡ false }
    ensures reading { ReadsOnly (FindErr pages.old pages.new) pages.old pages.new result }
    ensures read { (disk_in pages.new).is_honest → (x : Bool × Desk) → InPagesAs pages.old x → IfOk result (λ shown. shown.value ≡ x.1) }
    ensures found { (disk_in pages.new).is_honest → (m : KeyMap) → HasRows pages.old m → IfOk result (λ shown. IsReadFrom m shown.value) }
    ensures version { (disk_in pages.new).is_honest → (m : KeyMap) → HasRows pages.old m → OnOk result (Has m version (in_four 2)) }
    ensures calm { IfErr result (λ e. IsCalm pages.new e) }
{
    let txn = pages.begin(alloc);
    match is_new(&txn, pages) {
        Ok(true) => {}
        Ok(false) => return Err(refusal_of_old(alloc, pages)),
        Err(e) => return Err(row_error(e, pages.is_halted())),
    }
    let catalogue = match read_desk(alloc, &txn, pages) {
        Ok(catalogue) => catalogue,
        Err(e) => return Err(row_error(e, pages.is_halted())),
    };
    match Arc::new(alloc, catalogue) {
        Ok(shown) => Ok(shown),
        Err(_) => Err(StoreError::Memory),
    }
}

impl<D: SectorDevice> Clerk<D> {
    ghost use Rattle.std.specs.Prelude.{false, None};
    ghost use Rattle.desk_store.specs.claim.Clerks.{disk_of, Keeps};
    ghost use Rattle.desk_store.specs.Openings.{Reopens};
    ghost use Rattle.desk_store.specs.Calls.{OpensClerk};

    /// Opens the desk on a device: completes or drops a commit that a crash cut short, and reads
    /// the desk. At any moment a crash leaves a desk that was there at the start, in its version. A
    /// refusal returns the device with its pages as they were; what is no store stays as it is.
    /// `Memory` comes only of a store, and `OldVersion` of one that holds rows, none of which tells a
    /// version. Then each page is read, and a byte of memory is taken for each.
    pub fn open(alloc: Global, device: D) -> Result<Clerk<D>, (StoreError, D)>
        ensures { OpensClerk D.SectorDevice device result }
    {
        let mut pages = match Pages::open(alloc, device) {
            Ok(pages) => pages,
            Err((e, device)) => return Err((StoreError::from(e), device)),
        };
        match read_shown(alloc, &mut pages) {
            Ok(catalogue) => Ok(Clerk {
                pages,
                catalogue,
                loading: None,
                halted: false,
            }),
            Err(e) => Err((e, pages.into_device())),
        }
    }

    /// What the store keeps opens again: each image that a stop may leave now is one that `open` takes.
    pub fn reopens(&self)
        ensures { Keeps self.now → (disk_of self.now).is_honest → Reopens self.now }
    {}
}
