//! Faults of the census files. `tests/explained` compares these tables with what the program prints.
use crate::explanation::FaultRow;

/// The geographic header.
pub(crate) static GEO: [FaultRow; 10] = [
    (
        "G1",
        "line N",
        "",
        "The line does not have 97 fields separated by bars (|), or it is longer than 65,536 bytes.",
        "Use the geographic header of the state's 2020 P.L. 94-171 data (its name ends in geo2020.pl), unzipped and unchanged. An editor may have added a blank line at the end.",
    ),
    (
        "G2",
        "line N",
        "",
        "LOGRECNO (field 8) of a block's or the state's record is not 1 to 10 digits.",
        "Use the geographic header of the state's 2020 P.L. 94-171 data (its name ends in geo2020.pl), unzipped and unchanged.",
    ),
    (
        "G3",
        "line N",
        "",
        "STATE, COUNTY, TRACT, BLOCK or PLACE of a block, or STATE of the state's record, does not have its number of digits.",
        "Use the geographic header of the state's 2020 P.L. 94-171 data (its name ends in geo2020.pl), unzipped and unchanged.",
    ),
    (
        "G4",
        "line N",
        "",
        "The file contains a second state, or a second record of the state.",
        "Use the header of one state only.",
    ),
    (
        "G5",
        "line N",
        "",
        "An earlier line has the same block.",
        "Download the file again, unzip it, and use it unchanged.",
    ),
    (
        "G6",
        "line N",
        "",
        "An earlier line has the same LOGRECNO (field 8).",
        "Download the file again, unzip it, and use it unchanged.",
    ),
    (
        "G7",
        "line N",
        "",
        "The file contains more than 1,048,576 blocks, the most that plandesk supports.",
        "Check that the file contains one state only.",
    ),
    (
        "G8",
        "line N",
        "",
        "The file could not be read to its end; N is the line at which reading stopped.",
        "Check the disk, and that you gave a file and not a folder.",
    ),
    (
        "G9",
        "line N",
        "",
        "The file contains no record of a block (SUMLEV 750); N is the number of lines read.",
        "Check that this is the geographic header, and not another file of the census.",
    ),
    (
        "G10",
        "line N",
        "",
        "Reading the file took more than 4,294,967,296 read calls.",
        "Give an ordinary file, not a pipe or a device.",
    ),
];

/// The segments.
pub(crate) static SEGMENT: [FaultRow; 6] = [
    (
        "S1",
        "line N",
        "",
        "The line does not have 149 fields (segment 1), 152 (segment 2) or 15 (segment 3), or it is longer than 65,536 bytes.",
        "Check that each segment was given to its own option; otherwise download and unzip the file again, and use it unchanged.",
    ),
    (
        "S2",
        "line N",
        "",
        "LOGRECNO (field 5) is not 1 to 10 digits.",
        "Download the file again, unzip it, and use it unchanged.",
    ),
    (
        "S3",
        "line N",
        "",
        "In segment 1 the total population (field 6) is not 1 to 10 digits, or it is above 4,294,967,295.",
        "Download the file again, unzip it, and use it unchanged.",
    ),
    (
        "S4",
        "line N",
        "",
        "An earlier line has the same LOGRECNO (field 5).",
        "Download the file again, unzip it, and use it unchanged.",
    ),
    (
        "S5",
        "line N",
        "",
        "The file could not be read to its end; N is the line at which reading stopped.",
        "Check the disk, and that you gave a file and not a folder.",
    ),
    (
        "S6",
        "line N",
        "",
        "Reading the file took more than 4,294,967,296 read calls.",
        "Give an ordinary file, not a pipe or a device.",
    ),
];

/// The four census files together.
pub(crate) static JOIN: [FaultRow; 3] = [
    (
        "S7",
        "RECORD SEGMENT",
        "",
        "Segment SEGMENT (1 to 3) has no line for the record with LOGRECNO RECORD, which the header has.",
        "Use the header and the three segments of one state and one release.",
    ),
    (
        "S9",
        "",
        "",
        "The blocks have more than 4,294,967,295 people in all.",
        "Use the header and the three segments of one state and one release.",
    ),
    (
        "S8",
        "STATE BLOCKS",
        "",
        "The state's total population (STATE) differs from the sum of its blocks (BLOCKS).",
        "Use the header and the three segments of one state and one release.",
    ),
];
