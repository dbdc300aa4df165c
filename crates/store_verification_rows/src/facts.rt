//! Numbers that are noted of rows that were read.

use desk_store_pages::TreeError;
use std::collections::BTreeMap;

/// The number for a plan and a chunk.
pub(crate) fn pair_of(plan: u64, number: u64) -> u128 {
    plan as u128 * 18_446_744_073_709_551_616 + number as u128
}

/// Notes a number with its fact.
pub(crate) fn note(
    told: &mut BTreeMap<u64, u64>,
    number: u64,
    value: u64,
) -> Result<(), TreeError> {
    match told.insert(number, value) {
        Ok(_) => Ok(()),
        Err(_) => Err(TreeError::Memory),
    }
}

/// Notes a plan and a chunk.
pub(crate) fn note_pair(told: &mut BTreeMap<u128, u64>, of: u128) -> Result<(), TreeError> {
    match told.insert(of, 0) {
        Ok(_) => Ok(()),
        Err(_) => Err(TreeError::Memory),
    }
}
