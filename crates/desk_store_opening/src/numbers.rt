//! Numbers of the plans that were read, and the counts of their revisions.
ghost use Rattle.std.specs.Prelude.{OnOk, IfErr};
ghost use Rattle.desk_store_opening.specs.Opening.{IsNoted, NoteErr};

use crate::rows::row_fits;
use btree_scan::Row;
use desk_store_pages::TreeError;
use desk_store_rows::read_plan;
use std::collections::BTreeMap;

/// Notes the number of the plan whose row this is, with the count of its revisions. Refuses one that was noted before.
pub fn note_number(row: &Row, counts: &mut BTreeMap<u64, u32>) -> Result<(), TreeError>
    ensures noted { OnOk result (IsNoted row.now counts.old counts.new) }
    ensures err { IfErr result (λ e. NoteErr row.now counts.old e) }
{
    let Some(plan) = read_plan(row.value.as_slice()) else {
        return Err(TreeError::NotAStore);
    };
    row_fits(plan);
    match counts.insert(plan.number, plan.revisions) {
        Ok(None) => Ok(()),
        Ok(Some(_)) => Err(TreeError::NotAStore),
        Err(_) => Err(TreeError::Memory),
    }
}
