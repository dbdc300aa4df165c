//! The numbers of rows are in their ranges.
ghost use Rattle.std.specs.Prelude.{◌<◌, ◌^◌, IfSome};
ghost use Rattle.desk_store_rows.specs.claim.GeographyRows.{IsBlockRow};

use desk_model::block::{BlockId, BlockRow};

/// The number of a block is in its range.
fn number_fits(id: BlockId)
    ensures { id < 10 ^ 15 }
{}

/// A number of 32 bits is in its range.
pub(crate) fn code_fits(code: u32)
    ensures { code < 2 ^ 32 }
{}

/// The city of a block is in its range.
fn city_fits(city: Option<u32>)
    ensures { IfSome city (λ code. code < 2 ^ 32) }
{
    match city {
        Some(code) => code_fits(code),
        None => {}
    }
}

/// The numbers of a block fit in its row.
pub fn block_fits(row: &BlockRow)
    ensures { IsBlockRow row.now }
{
    number_fits(row.id);
    city_fits(row.city);
    code_fits(row.population);
}
