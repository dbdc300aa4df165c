//! The tests of an audit, by their names in a report. `tests/explained` compares these tables with what the program prints.
use crate::explanation::FaultRow;

/// What a failed test means.
pub(crate) static AUDIT: [FaultRow; 6] = [
    (
        "desk.complete",
        "",
        "",
        "The plan assigns no district to at least one block. This test is plandesk's own, and not part of the Code.",
        "The report's `unassigned` is the number of such blocks. Give each block a district, then audit again: the blocks may also be the reason for other failures.",
    ),
    (
        "42.4.1.a.mean",
        "",
        "",
        "The mean of the districts' absolute deviations from the ideal population is more than 1 percent of the ideal (Iowa Code 42.4(1)a, Senate and House plans).",
        "Compare the report's `populations` with `population` divided by the number of districts, and move blocks from districts above it to districts below it.",
    ),
    (
        "42.4.1.a.range",
        "",
        "",
        "One district has more than 5 percent more people than another (Iowa Code 42.4(1)a, Senate and House plans).",
        "The report's `range` names the most and the least populous district. Move blocks until no district exceeds another by more than 5 percent; other districts may exceed the limit too.",
    ),
    (
        "42.4.1.b",
        "",
        "",
        "A congressional district differs from the ideal population by more than 1 percent (Iowa Code 42.4(1)b).",
        "The report's `congress` lists these districts. Move blocks between them and their neighbours.",
    ),
    (
        "42.4.3",
        "",
        "",
        "A district is not contiguous, or it has no block (Iowa Code 42.4(3)). Blocks that touch only at a corner are not neighbours.",
        "The report's `contiguity` gives for each such district two blocks that no path within it joins, or no blocks if it has none. Join its parts, or give each part to a neighbouring district. If the blocks do share an edge, check the neighbour file.",
    ),
    (
        "42.4.6",
        "",
        "",
        "A House district does not lie inside a single Senate district (Iowa Code 42.4(6); tested only if a Senate plan is given).",
        "The report's `nesting` lists these districts. Check that the right Senate plan was given, then change either plan.",
    ),
];
