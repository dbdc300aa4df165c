//! The rows that a revision writes.
ghost use Rattle.std.specs.Prelude.{◌≡◌, ◌≤◌, ◌<◌, ◌+◌, ◌^◌, length};
ghost use Rattle.desk_model.specs.claim.Room.{rows_for};
ghost use Rattle.desk_store_catalogue.specs.Cutting.{range_rows, AreForkRows, AreRevisionRows};

use desk_model::ranges::CountyRange;

/// Returns the number of rows that hold `count` elements, `size` to a row.
fn rows_for(size: usize, count: usize) -> usize
    requires some { 1 ≤ size }
    requires fits { count + size < 2 ^ 64 }
    ensures { result ≡ rows_for size count }
{
    (count + (size - 1)) / size
}

/// Returns the number of rows of a county's districts and of the two rows that say who holds them,
/// 0 if the county does not change.
fn rows_of_range(range: CountyRange, changes: bool) -> usize
    ensures rows { result ≡ range_rows changes range }
    ensures few { result ≤ 2 ^ 24 }
{
    if !changes {
        return 0;
    }
    rows_for(512, range.count as usize) + 2
}

/// Returns the number of rows that a revision writes: the plan's and the counters' rows, one for
/// each 128 counties, and for each county that changes one for each 512 blocks and two that say who
/// holds them. The counties are the geography's.
pub fn revision_rows(ranges: &[CountyRange], changes: &[bool]) -> usize
    requires few { length ranges.now < 2 ^ 32 }
    requires each { length changes.now ≡ length ranges.now }
    ensures { AreRevisionRows ranges.now changes.now result }
{
    let mut rows = 2 + rows_for(128, ranges.len());
    for place in 0..ranges.len() {
        rows += rows_of_range(ranges[place], changes[place]);
    }
    rows
}

/// Returns the number of rows that a fork writes in a geography of `counties` counties: the plan's
/// and the counters' rows, when it is made and when it gets its revision, one for each 128
/// counties, and two for each county, which say who holds its blocks.
pub fn fork_rows(counties: usize) -> usize
    requires few { counties < 2 ^ 32 }
    ensures { AreForkRows counties result }
{
    4 + rows_for(128, counties) + 2 * counties
}
