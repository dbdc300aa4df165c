//! A plan's file: opened, read whole, and judged against the blocks.
ghost use Rattle.std.specs.Prelude.{◌≡◌, IfOk, IfSome, length, is_some};
ghost use Rattle.std.specs.Option.{option_copied};
ghost use Rattle.state_files.specs.claim.Opening.{opening_of};
ghost use Rattle.state_files.specs.claim.PlanFiles.{plan_fault_of_open, plan_fault_of_whole, ReadsBytes, JudgesPlan};
ghost use Rattle.state_files.specs.claim.PlanFiles.{ReadsPlan, companion_of, ReadsCompanion, beside};
ghost use Rattle.state_files.specs.PlanFiles.{ReadsPlanBeside};

use crate::fault::{FileFault, OpenFault, PlanFault, PlanFile};
use crate::whole::{WholeFault, read_whole};
use baf_text::listed::whole;
use baf_text::reading::{BafFault, read};
use byte_stream::source::Source;
use desk_model::geography::Geography;
use std::alloc::Global;

/// A companion plan: its file's opening, and its number of districts.
#[derive(Drop)]
pub struct Companion<R> {
    pub opened: Result<R, OpenFault>,
    pub districts: u16,
}

fn opening_fault(fault: OpenFault) -> PlanFault
    ensures { result ≡ plan_fault_of_open fault }
{
    match fault {
        OpenFault::Unreadable => PlanFault::Unreadable,
        OpenFault::Memory => PlanFault::Memory,
    }
}

fn reading_fault(fault: WholeFault) -> PlanFault
    ensures { result ≡ plan_fault_of_whole fault }
{
    match fault {
        WholeFault::TooLarge => PlanFault::TooLarge,
        WholeFault::Failed => PlanFault::Unreadable,
        WholeFault::TurnLimit => PlanFault::Unreadable,
        WholeFault::Memory => PlanFault::Memory,
    }
}

fn read_bytes<R: Source>(
    alloc: Global,
    file: PlanFile,
    opened: &mut Result<R, OpenFault>,
) -> Result<Vec<u8>, FileFault>
    ensures { ReadsBytes file (opening_of R.remaining R.turns R.failures opened.old) (opening_of R.remaining R.turns R.failures opened.new) result }
{
    match opened {
        Ok(reader) => match read_whole(alloc, reader) {
            Ok(bytes) => Ok(bytes),
            Err(fault) => Err(FileFault::Plan(file, reading_fault(fault))),
        },
        Err(fault) => Err(FileFault::Plan(file, opening_fault(*fault))),
    }
}

/// The district of each block, rising, as a plan of n districts says it.
fn judge(
    alloc: Global,
    file: PlanFile,
    bytes: &[u8],
    geography: &Geography,
    n: u16,
) -> Result<Vec<u16>, FileFault>
    ensures { JudgesPlan file geography.now n bytes.now result }
{
    match read(alloc, bytes, geography, n) {
        Ok(listed) => match whole(alloc, &listed) {
            Ok(plan) => Ok(plan),
            Err(_) => Err(FileFault::Plan(file, PlanFault::Memory)),
        },
        Err(BafFault::Body { code, line }) => {
            Err(FileFault::Plan(file, PlanFault::Body(code, line)))
        }
        Err(BafFault::Memory) => Err(FileFault::Plan(file, PlanFault::Memory)),
    }
}

/// The district of each block, rising, 0 for none, as a plan's file says it, or the file's fault.
pub fn read_plan<R: Source>(
    alloc: Global,
    file: PlanFile,
    geography: &Geography,
    n: u16,
    opened: &mut Result<R, OpenFault>,
) -> Result<Vec<u16>, FileFault>
    ensures read { ReadsPlan file geography.now n (opening_of R.remaining R.turns R.failures opened.old)
        (opening_of R.remaining R.turns R.failures opened.new) result }
    ensures beside { IfOk result (λ plan. length plan.items ≡ length geography.now.blocks) }
{
    let bytes = read_bytes(alloc, file, opened)?;
    judge(alloc, file, bytes.as_slice(), geography, n)
}

fn read_beside<R: Source>(
    alloc: Global,
    file: PlanFile,
    geography: &Geography,
    companion: &mut Companion<R>,
) -> Result<Vec<u16>, FileFault>
    ensures read { ReadsPlanBeside R.Source file geography.now companion.old companion.new result }
    ensures same { companion.new.districts ≡ companion.old.districts }
    ensures beside { IfOk result (λ plan. length plan.items ≡ length geography.now.blocks) }
{
    let districts = companion.districts;
    read_plan(alloc, file, geography, districts, &mut companion.opened)
}

/// The district of each block in a companion, where there is one, or its file's fault.
pub fn read_companion<R: Source>(
    alloc: Global,
    file: PlanFile,
    geography: &Geography,
    companion: &mut Option<Companion<R>>,
) -> Result<Option<Vec<u16>>, FileFault>
    ensures read { ReadsCompanion file geography.now (companion_of R.remaining R.turns R.failures companion.old)
        (companion_of R.remaining R.turns R.failures companion.new) result }
    ensures beside { IfOk result (λ plan. IfSome plan (λ p. length p.items ≡ length geography.now.blocks)) }
    ensures same { IfOk result (λ plan. is_some plan ≡ is_some companion.old) }
{
    match companion {
        None => Ok(None),
        Some(companion) => match read_beside(alloc, file, geography, companion) {
            Ok(plan) => Ok(Some(plan)),
            Err(fault) => Err(fault),
        },
    }
}

/// The districts of a companion, where there is one.
pub fn districts_of(companion: &Option<Vec<u16>>) -> Option<&[u16]>
    ensures value { option_copied result ≡ beside companion.now }
    ensures same { is_some result ≡ is_some companion.now }
{
    match companion {
        Some(plan) => Some(plan.as_slice()),
        None => None,
    }
}
