//! Commands at the clerk.
ghost use Rattle.std.specs.Prelude.{◌≡◌, ◌≤◌, ◌*◌, ◌⊎◌, ◌↔◌, IsTrue, false, true, IfOk, IfErr};
ghost use Rattle.desk_model.specs.Ranges.{ranges_in};
ghost use Rattle.desk_model.specs.claim.Room.{command_rows as rows_of_command};
ghost use Rattle.desk_store_catalogue.specs.claim.Accepting.{IsAfter};
ghost use Rattle.desk_store_catalogue.specs.Drafts.{changes_of};
ghost use Rattle.page_btree.specs.gets.declared.error.TreeError.TheVariants.{DeviceFault, Halted};
ghost use Rattle.desk_store.specs.claim.Clerks.{desk_of, disk_of, Reads};
ghost use Rattle.desk_store.specs.claim.Commands.{command_of, IsReady, HasRoom, LacksRoom, MustBeFull, PrepareErr, Does};
ghost use Rattle.desk_store.specs.Faults.{is_fault as is_fault_of, refusal_of as refusal_of_error};

use crate::clerk::Clerk;
use crate::ready::Ready;
use desk_model::command::Command;
use desk_model::reply::{Refusal, Reply};
use desk_store_catalogue::catalogue::{Catalogue, Draft};
use desk_store_opening::{ChangeOutcome, ROW_PAGES, TreeError, command_rows, put_command};
use page_store::Prepared;
use sector_device::SectorDevice;
use std::alloc::Global;
use std::sync::Arc;

/// Returns whether there are at least 13 pages for each row.
fn is_enough(rows: usize, pages: u32) -> bool
    ensures { IsTrue result ↔ (13 * rows ≤ pages) }
{
    rows <= (pages / ROW_PAGES) as usize
}

/// Whether the device failed, or the rows are none that a desk has.
fn is_fault(e: TreeError) -> bool
    ensures { result ≡ is_fault_of e }
{
    matches!(
        e,
        TreeError::DeviceFault | TreeError::NotAStore | TreeError::Halted
    )
}

/// The refusal of a command whose rows weren't put, where no fault came.
fn refusal_of(e: TreeError) -> Refusal
    ensures { result ≡ refusal_of_error e }
{
    match e {
        TreeError::Memory => Refusal::Memory,
        TreeError::NoPages | TreeError::TooDeep => Refusal::Full,
        TreeError::Halted | TreeError::DeviceFault | TreeError::NotAStore => Refusal::Halted,
    }
}

impl<D: SectorDevice> Clerk<D> {
    /// Returns whether free pages and journal pages suffice for `rows` rows.
    fn has_room(&self, rows: usize) -> bool
        ensures room { IsTrue result → HasRoom self.now rows }
        ensures short { (result ≡ false) → LacksRoom self.now rows }
    {
        if !is_enough(rows, self.pages.journal_pages()) {
            return false;
        }
        is_enough(rows, self.pages.free_pages())
    }

    /// The catalogue after a command that is accepted and for which there is room, and which counties it changes.
    fn accept(&self, alloc: Global, command: &Command) -> Result<Draft, Refusal>
        requires { self.now.halted ≡ false }
        ensures after { IfOk result (λ draft. IsAfter (desk_of self.now) command.now draft.catalogue) }
        ensures changes { IfOk result (λ draft. draft.changes.items
            ≡ changes_of (desk_of self.now) command.now draft.catalogue (ranges_in (desk_of self.now).geography)) }
        ensures room { IfOk result (λ _. HasRoom self.now (rows_of_command (desk_of self.now) command.now)) }
        ensures err { IfErr result (λ refusal. PrepareErr self.now command.now refusal self.now) }
    {
        let draft = self.catalogue.draft(alloc, command)?;
        let rows = command_rows(
            &self.catalogue,
            command,
            &draft.catalogue,
            draft.changes.as_slice(),
        );
        if !self.has_room(rows) {
            return Err(Refusal::Full);
        }
        Ok(draft)
    }

    /// Settles the catalogue that is shown, where nobody else has it: what is shown stays.
    fn settle(&mut self, alloc: Global)
        ensures { self.new ≡ self.old }
    {
        if let Some(catalogue) = Arc::get_mut(&mut self.catalogue) {
            catalogue.settle(alloc);
        }
    }

    /// Makes ready a command that is accepted, and changes nothing; all the memory that its commit needs is taken here. `Full`
    /// comes where the store has too little room, and `Halted` where the device fails now or has failed before.
    pub fn prepare(&mut self, alloc: Global, command: Command) -> Result<Ready, Refusal>
        ensures reads { Reads self.old self.new }
        ensures loading { self.new.loading ≡ self.old.loading }
        ensures ready { IfOk result (λ ready. IsReady self.new ready) }
        ensures command { IfOk result (λ ready. command_of ready ≡ command) }
        ensures room { IfOk result (λ ready. MustBeFull self.old command → ⊥) }
        ensures works { IfOk result (λ ready. self.new.halted ≡ false) }
        ensures err { IfErr result (λ refusal. PrepareErr self.old command refusal self.new) }
    {
        if self.halted {
            return Err(Refusal::Halted);
        }
        self.settle(alloc);
        let draft = match self.accept(alloc, &command) {
            Ok(draft) => draft,
            Err(refusal) => return Err(refusal),
        };
        let mut txn = self.pages.begin(alloc);
        match put_command(
            alloc,
            &mut txn,
            &mut self.pages,
            &self.catalogue,
            &command,
            &draft.catalogue,
            draft.changes.as_slice(),
        ) {
            Ok(ChangeOutcome::Made) => {}
            Ok(ChangeOutcome::NumbersExhausted) => return Err(Refusal::Full),
            Err(e) => {
                if is_fault(e) || self.pages.is_halted() {
                    self.halted = true;
                    return Err(Refusal::Halted);
                }
                return Err(refusal_of(e));
            }
        }
        let Ok(prepared) = desk_store_pages::prepare(txn) else {
            return Err(Refusal::Memory);
        };
        let Ok(after) = Arc::new(alloc, draft.catalogue) else {
            return Err(Refusal::Memory);
        };
        match Arc::new(alloc, command) {
            Ok(command) => Ok(Ready {
                command,
                after,
                prepared,
            }),
            Err(_) => Err(Refusal::Memory),
        }
    }

    /// The outcome of a command: its step, which is lasting from then on, or a refusal with nothing changed.
    pub fn command(&mut self, alloc: Global, command: Command) -> Reply
        ensures { Does self.old command result self.new }
    {
        match self.prepare(alloc, command) {
            Ok(ready) => ready.commit(self),
            Err(refusal) => Reply::Refused(refusal),
        }
    }
}
