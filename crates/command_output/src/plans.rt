//! Faults of any file, of the log, of the neighbour file and of plans. `tests/explained` compares these tables with what the program prints.
use crate::explanation::FaultRow;

/// Any file of a state or plan.
pub(crate) static EVERY_FILE: [FaultRow; 2] = [
    (
        "Unreadable",
        "",
        "",
        "The file could not be opened or read.",
        "Check the path, the file's permissions, and that it is a file.",
    ),
    (
        "Memory",
        "",
        "",
        "There was not enough memory to read this file (exit status 5).",
        "Give the process more memory, or stop other programs.",
    ),
];

/// The log of a server.
pub(crate) static LOG: [FaultRow; 4] = [
    (
        "Unreadable",
        "",
        "in use",
        "Another program holds the log file as its own, as a plandesk holds its store.",
        "Give another file for the log.",
    ),
    (
        "Unreadable",
        "",
        "a store",
        "The log file is a plandesk store. Nothing was written to it.",
        "Give another file for the log.",
    ),
    (
        "Unreadable",
        "",
        "",
        "The log file could not be opened for writing, or could not be created.",
        "Check the path, the permissions of the file and its folder, and that it is a file.",
    ),
    (
        "Memory",
        "",
        "",
        "There was not enough memory for the log (exit status 5).",
        "Give the process more memory, or stop other programs.",
    ),
];

/// The neighbour file.
pub(crate) static GAL: [FaultRow; 13] = [
    (
        "A1",
        "",
        "",
        "The first line is missing, has 0, 2 or 3 words, or is longer than 65,536 bytes.",
        "Begin the file with the number of blocks, or with a line such as `0 COUNT NAME FIELD`.",
    ),
    (
        "A2",
        "word N",
        "",
        "A number of blocks (word 0) or of neighbours is not 1 to 10 digits.",
        "Look at the Nth word after the first line.",
    ),
    (
        "A3",
        "word N",
        "",
        "The Nth word after the first line is not the 15-digit number of a block of the census files.",
        "Make the file with GEOID20 as the name of each block, not with row numbers.",
    ),
    (
        "A4",
        "BLOCK",
        "",
        "The file has two entries for this block.",
        "List each block once, with all its neighbours.",
    ),
    (
        "A5",
        "BLOCK",
        "",
        "The file has no entry for this block, the lowest-numbered one that is missing.",
        "Make the file again with all blocks, including water and islands. Give a block without neighbours the count 0.",
    ),
    (
        "A6",
        "BLOCK",
        "",
        "The block is listed as its own neighbour.",
        "Remove it from its own list, and lower the list's count by 1.",
    ),
    (
        "A7",
        "FIRST SECOND",
        "",
        "The first block lists the second as a neighbour, but the second does not list the first.",
        "List each pair of neighbours in both directions.",
    ),
    (
        "A8",
        "BLOCK",
        "",
        "The block has more than 4,096 neighbours, the most that plandesk supports.",
        "Check how the file was made; a block has about 6 neighbours.",
    ),
    (
        "A9",
        "word N",
        "",
        "The file continues after the last block's entry, from the Nth word after the first line on.",
        "Check whether the count in the first line is too small, or two files were joined.",
    ),
    (
        "A10",
        "",
        "",
        "The file ends within a block's entry, or before the last one.",
        "Check whether the count in the first line is too large, or the file was cut off.",
    ),
    (
        "A11",
        "BLOCK NEIGHBOUR",
        "",
        "The entry of BLOCK lists NEIGHBOUR twice.",
        "List each neighbour of a block once.",
    ),
    (
        "A12",
        "",
        "",
        "The file could not be read to its end.",
        "Check the disk, and that you gave a file and not a folder.",
    ),
    (
        "A13",
        "",
        "",
        "Reading the file took more than 4,294,967,296 read calls.",
        "Give an ordinary file, not a pipe or a device.",
    ),
];

/// Block assignment files.
pub(crate) static PLAN: [FaultRow; 6] = [
    (
        "TooLarge",
        "",
        "",
        "The file has more than 32 MiB (33,554,432 bytes).",
        "Check that this is a plan: a line for each of 1,048,576 blocks takes less than 22,100,000 bytes.",
    ),
    (
        "B1",
        "line 1",
        "",
        "The first line is not exactly `BLOCKID|DISTRICT`.",
        "Convert a file with commas or tabs by `tools/plan FILE > plan.txt`; first save a spreadsheet (.xlsx) as CSV, and unpack a zip or gzip file. Otherwise write that first line, and save the file as plain text (UTF-8) without a byte order mark.",
    ),
    (
        "B2",
        "line N",
        "",
        "The line is not a 15-digit block number, a bar (|) and a district: 1 to 3 digits, `ZZ`, `ZZZ` or nothing.",
        "Correct the line, or convert the file by `tools/plan FILE > plan.txt`. Look for commas, spaces, and leading zeros that a spreadsheet removed.",
    ),
    (
        "B3",
        "line N",
        "",
        "The block on this line is not in the census files.",
        "Check whether the plan is of another state or of another census.",
    ),
    (
        "B4",
        "line N",
        "",
        "An earlier line has the same block.",
        "List each block once.",
    ),
    (
        "B5",
        "line N",
        "",
        "The district on this line is 0, or above the plan's number of districts.",
        "Correct the line, or check `--districts`; for a companion plan, check `--senate-districts` or `--congress-districts`.",
    ),
];
