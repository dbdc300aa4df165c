//! The forms in which a piece keeps its districts.
ghost use Rattle.std.specs.Prelude.{◌≡◌, ◌≤◌, ◌<◌, ◌+◌, ◌-◌, ◌++◌, true, length, get_or, take, drop, replicate, IfOk, IfSome, OnOk};
ghost use Rattle.desk_store_lists.specs.Forms.{in_runs, said};

use std::alloc::{AllocError, Global};
use std::sync::Arc;

/// A list in more runs than these is kept in another form.
const MOST_RUNS: usize = 64;

/// A list in runs has at most this many districts.
const MOST_DISTRICTS: usize = 512;

/// Consecutive blocks in one district.
#[derive(Clone, Copy)]
pub struct Run {
    pub district: u16,
    pub count: u16,
}

/// The form that takes the least memory for a list of districts.
#[derive(Drop)]
pub enum Form {
    /// All blocks are in one district.
    Same { district: u16, count: usize },
    /// Few runs of blocks in one district.
    Runs(Arc<Vec<Run>>),
    /// A byte for each block.
    Bytes(Arc<Vec<u8>>),
    /// Two bytes for each block.
    Wide(Arc<Vec<u16>>),
}

/// Returns the end of the run that begins at a place.
fn run_end(list: &[u16], from: usize) -> usize
    requires { from < length list.now }
    ensures after { from < result }
    ensures within { result ≤ length list.now }
    ensures same { take (result - from) (drop from list.now) ≡ replicate (result - from) (get_or list.now from 0) }
{
    let district = list[from];
    let mut end = from + 1;
    while end < list.len() && list[end] == district {
        end += 1;
    }
    end
}

/// Returns whether a list has few runs.
fn has_few_runs(list: &[u16]) -> bool {
    let mut from = 0;
    let mut number = 0;
    while from < list.len() {
        if number == MOST_RUNS {
            return false;
        }
        from = run_end(list, from);
        number += 1;
    }
    true
}

/// Returns the runs of a list.
fn runs_of(alloc: Global, list: &[u16]) -> Result<Vec<Run>, AllocError>
    requires { length list.now ≤ 512 }
    ensures { IfOk result (λ runs. in_runs runs.items ≡ list.now) }
{
    let mut runs = Vec::new(alloc);
    let mut from = 0;
    while from < list.len() {
        let end = run_end(list, from);
        runs.push(Run {
            district: list[from],
            count: (end - from) as u16,
        })?;
        from = end;
    }
    Ok(runs)
}

/// Returns a list with a byte for each district, or none if a district is above 255.
fn bytes_of(alloc: Global, list: &[u16]) -> Result<Option<Vec<u8>>, AllocError>
    ensures { IfOk result (λ bytes. IfSome bytes (λ b. b.items ≡ list.now)) }
{
    let mut bytes = Vec::with_capacity(alloc, list.len())?;
    for place in 0..list.len() {
        let district = list[place];
        if district > 255 {
            return Ok(None);
        }
        bytes.push(district as u8)?;
    }
    Ok(Some(bytes))
}

/// Returns a list in the form that takes the least memory.
pub fn packed(alloc: Global, list: &[u16]) -> Result<Form, AllocError>
    ensures { IfOk result (λ form. said form ≡ list.now) }
{
    if list.len() == 0 {
        return Ok(Form::Same {
            district: 0,
            count: 0,
        });
    }
    if run_end(list, 0) == list.len() {
        return Ok(Form::Same {
            district: list[0],
            count: list.len(),
        });
    }
    if list.len() <= MOST_DISTRICTS && has_few_runs(list) {
        return Ok(Form::Runs(Arc::new(alloc, runs_of(alloc, list)?)?));
    }
    if let Some(bytes) = bytes_of(alloc, list)? {
        return Ok(Form::Bytes(Arc::new(alloc, bytes)?));
    }
    Ok(Form::Wide(Arc::new(alloc, Vec::from_slice(alloc, list)?)?))
}

/// Returns the same form, of the same memory.
pub fn shared(form: &Form) -> Result<Form, AllocError>
    ensures { IfOk result (λ same. said same ≡ said form.now) }
{
    match form {
        Form::Same { district, count } => Ok(Form::Same {
            district: *district,
            count: *count,
        }),
        Form::Runs(runs) => Ok(Form::Runs(runs.clone()?)),
        Form::Bytes(bytes) => Ok(Form::Bytes(bytes.clone()?)),
        Form::Wide(list) => Ok(Form::Wide(list.clone()?)),
    }
}

/// Appends `count` blocks of a district.
fn append_same(into: &mut Vec<u16>, district: u16, count: usize) -> Result<(), AllocError>
    ensures { OnOk result (into.new.items ≡ into.old.items ++ replicate count district) }
{
    let Some(all) = into.len().checked_add(count) else {
        return Err(AllocError);
    };
    into.resize(all, district)?;
    Ok(())
}

/// Appends the districts of runs.
fn append_runs(into: &mut Vec<u16>, runs: &[Run]) -> Result<(), AllocError>
    ensures { OnOk result (into.new.items ≡ into.old.items ++ in_runs runs.now) }
{
    for place in 0..runs.len() {
        let run = runs[place];
        append_same(into, run.district, run.count as usize)?;
    }
    Ok(())
}

/// Appends the districts that have a byte each.
fn append_bytes(into: &mut Vec<u16>, bytes: &[u8]) -> Result<(), AllocError>
    ensures { OnOk result (into.new.items ≡ into.old.items ++ bytes.now) }
{
    for place in 0..bytes.len() {
        into.push(bytes[place] as u16)?;
    }
    Ok(())
}

/// Appends the districts of a form.
pub fn append(into: &mut Vec<u16>, form: &Form) -> Result<(), AllocError>
    ensures { OnOk result (into.new.items ≡ into.old.items ++ said form.now) }
{
    match form {
        Form::Same { district, count } => append_same(into, *district, *count),
        Form::Runs(runs) => {
            let runs: &Vec<Run> = runs;
            append_runs(into, runs.as_slice())
        }
        Form::Bytes(bytes) => {
            let bytes: &Vec<u8> = bytes;
            append_bytes(into, bytes.as_slice())
        }
        Form::Wide(list) => {
            let list: &Vec<u16> = list;
            into.extend_from_slice(list.as_slice())?;
            Ok(())
        }
    }
}

/// Returns the district at a place in runs, and 0 after them.
fn at_in_runs(runs: &[Run], place: usize) -> u16
    ensures { result ≡ get_or (in_runs runs.now) place 0 }
{
    let mut left = place;
    for k in 0..runs.len() {
        let run = runs[k];
        if left < run.count as usize {
            return run.district;
        }
        left -= run.count as usize;
    }
    0
}

/// Returns the district at a place, and 0 after the last one.
pub fn at(form: &Form, place: usize) -> u16
    ensures { result ≡ get_or (said form.now) place 0 }
{
    match form {
        Form::Same { district, count } => {
            if place < *count {
                return *district;
            }
            0
        }
        Form::Runs(runs) => {
            let runs: &Vec<Run> = runs;
            at_in_runs(runs.as_slice(), place)
        }
        Form::Bytes(bytes) => {
            let bytes: &Vec<u8> = bytes;
            if place < bytes.len() {
                return bytes[place] as u16;
            }
            0
        }
        Form::Wide(list) => {
            let list: &Vec<u16> = list;
            if place < list.len() {
                return list[place];
            }
            0
        }
    }
}

/// Returns whether runs are the same.
fn are_same_runs(one: &[Run], other: &[Run]) -> bool
    ensures { result ≡ true → in_runs one.now ≡ in_runs other.now }
{
    if one.len() != other.len() {
        return false;
    }
    for place in 0..one.len() {
        let here = one[place];
        let there = other[place];
        if here.district != there.district || here.count != there.count {
            return false;
        }
    }
    true
}

/// Returns whether two forms are one form of the same districts.
pub fn are_same(one: &Form, other: &Form) -> bool
    ensures { result ≡ true → said one.now ≡ said other.now }
{
    match (one, other) {
        (
            Form::Same { district, count },
            Form::Same {
                district: there,
                count: many,
            },
        ) => *district == *there && *count == *many,
        (Form::Runs(runs), Form::Runs(others)) => {
            let runs: &Vec<Run> = runs;
            let others: &Vec<Run> = others;
            are_same_runs(runs.as_slice(), others.as_slice())
        }
        (Form::Bytes(bytes), Form::Bytes(others)) => {
            let bytes: &Vec<u8> = bytes;
            let others: &Vec<u8> = others;
            bytes.as_slice() == others.as_slice()
        }
        (Form::Wide(list), Form::Wide(others)) => {
            let list: &Vec<u16> = list;
            let others: &Vec<u16> = others;
            list.as_slice() == others.as_slice()
        }
        _ => false,
    }
}
