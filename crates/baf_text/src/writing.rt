//! Printing a block assignment file.
ghost use Rattle.std.specs.Prelude.{◌≡◌, ℕ, ◌+◌, ◌/◌, ◌%◌, ◌<◌, ◌≤◌, ◌++◌, length, take, drop, replicate, IsTrue, OnOk, IfOk};
ghost use Rattle.std.specs.List.{flat_map, zip};
ghost use Rattle.desk_model.specs.claim.Padded.{padded_decimal};
ghost use Rattle.desk_model.specs.claim.Printed.{code_text, row_text, printed};
ghost use Rattle.desk_model.specs.claim.Geography.{ids_of};
ghost use Rattle.desk_model.specs.claim.Sizes.{most_districts};
ghost use Rattle.baf_text.specs.Ends.{line_length};

use crate::reading::HEADER;
use crate::row::ID_DIGITS;
use desk_model::block::{BlockId, BlockRow};
use desk_model::decimal::write_padded;
use desk_model::geography::Geography;
use desk_model::kind::Kind;
use std::alloc::{AllocError, Global};
use std::marker::Model;

/// Room for the longest row.
const ROOM: usize = 48;

/// How many digits a code has.
fn code_digits(kind: Kind) -> usize
    ensures few { result ≤ 3 }
    ensures digits { (d : ℕ) → 0 < d → code_text kind d ≡ padded_decimal result d }
{
    match kind {
        Kind::Congress => 2,
        Kind::Senate | Kind::House => 3,
    }
}

/// The code of an unassigned block.
fn unassigned(kind: Kind) -> &'static [u8]
    ensures few { length result.now ≤ 3 }
    ensures letters { result.now ≡ code_text kind 0 }
{
    match kind {
        Kind::Congress => b"ZZ",
        Kind::Senate | Kind::House => b"ZZZ",
    }
}

/// Writes a district's code before `end`, where the row has zeros, and gives its start.
fn write_code(row: &mut [u8], end: usize, district: u16, kind: Kind) -> usize
    requires room { (20 ≤ end) × (end ≤ length row.old) }
    requires zeros { take end row.old ≡ replicate end 48 }
    ensures start { (result ≤ end) × (end ≤ result + 5) }
    ensures written { drop result row.new ≡ code_text kind district ++ drop end row.old }
    ensures zeros { take result row.new ≡ replicate result 48 }
{
    if district > 0 {
        return write_padded(row, end, district as u64, code_digits(kind));
    }
    let letters = unassigned(kind);
    let start = end - letters.len();
    row[start..end].copy_from_slice(letters);
    start
}

/// The line of a block, which begins at the returned place of the row.
fn row_of(id: BlockId, district: u16, kind: Kind) -> ([u8; ROOM], usize)
    ensures long { length result.0 ≡ 48 }
    ensures start { result.1 ≤ 48 }
    ensures written { drop result.1 result.0 ≡ row_text kind (id, district) }
{
    let mut row = [b'0'; ROOM];
    row[ROOM - 1] = b'\n';
    let code = write_code(&mut row, ROOM - 1, district, kind);
    row[code - 1] = b'|';
    let start = write_padded(&mut row, code - 1, id.number(), ID_DIGITS);
    (row, start)
}

/// Appends the line of a block, whatever its code.
fn push_any_row(
    text: &mut Vec<u8>,
    id: BlockId,
    district: u16,
    kind: Kind,
) -> Result<(), AllocError>
    ensures { OnOk result (text.new.items ≡ text.old.items ++ row_text kind (id, district)) }
{
    let (row, start) = row_of(id, district, kind);
    text.extend_from_slice(&row[start..])?;
    Ok(())
}

/// The last digit of a number.
pub(crate) fn digit(n: u64) -> u8
    ensures { result ≡ 48 + n % 10 }
{
    b'0' + (n % 10) as u8
}

/// A block's line of `N` bytes. The next block's is mostly the same but for the last two digits of the number.
#[derive(Drop)]
struct Line<const N: usize> {
    kind: Kind,
    number: u64,
    district: u16,
    cells: [u8; N],
}

// Clauses see the kind, the block and the district.
impl<const N: usize> Model for Line<N> {
    ghost use Rattle.std.specs.Prelude.{◌≡◌, ℕ};
    ghost use Rattle.desk_model.specs.declared.kind.Kind.{Kind};
    ghost use Rattle.desk_model.specs.claim.Printed.{row_text};
    ghost use Rattle.baf_text.specs.Ends.{line_length};

    ghost Value = { Kind × (ℕ × ℕ) };

    ghost view = { λ a. (a.kind, (a.number, a.district)) };

    ghost invariant = { λ a. (a.cells ≡ row_text a.kind (a.number, a.district)) × (N ≡ line_length a.kind) };
}

impl<const N: usize> Line<N> {
    fn new(id: BlockId, district: u16, kind: Kind) -> Line<N>
        requires long { N ≡ line_length kind }
        requires listed { district ≤ most_districts kind }
        ensures { result ≡ (kind, (id, district)) }
    {
        let (row, start) = row_of(id, district, kind);
        let mut cells = [b'0'; N];
        cells.copy_from_slice(&row[start..]);
        Line {
            kind,
            number: id.number(),
            district,
            cells,
        }
    }

    fn as_slice(&self) -> &[u8]
        ensures { result.now ≡ row_text self.now.0 self.now.1 }
    {
        &self.cells
    }

    /// Whether the line differs from a block's in the last two digits of the number at most.
    fn is_near(&self, number: u64, district: u16) -> bool
        ensures { IsTrue result → (self.now.1.0 / 100 ≡ number / 100) × (self.now.1.1 ≡ district) }
    {
        self.district == district && self.number / 100 == number / 100
    }

    /// Writes the last two digits of a block's number.
    fn turn_near(&mut self, id: BlockId)
        requires { self.old.1.0 / 100 ≡ id / 100 }
        ensures { self.new ≡ (self.old.0, (id, self.old.1.1)) }
    {
        self.number = id.number();
        self.cells[13] = digit(self.number / 10);
        self.cells[14] = digit(self.number);
    }

    /// Appends the line of a block that isn't near.
    fn push_other_row(
        &mut self,
        text: &mut Vec<u8>,
        id: BlockId,
        district: u16,
    ) -> Result<(), AllocError>
        ensures pushed { OnOk result (text.new.items ≡ text.old.items ++ row_text self.old.0 (id, district)) }
        ensures same { self.new.0 ≡ self.old.0 }
    {
        let kind = self.kind;
        if district > kind.most_districts() {
            return push_any_row(text, id, district, kind);
        }
        *self = Line::new(id, district, kind);
        text.extend_from_slice(self.as_slice())?;
        Ok(())
    }

    /// Appends the line of a block.
    fn push_row(&mut self, text: &mut Vec<u8>, id: BlockId, district: u16) -> Result<(), AllocError>
        ensures pushed { OnOk result (text.new.items ≡ text.old.items ++ row_text self.old.0 (id, district)) }
        ensures same { self.new.0 ≡ self.old.0 }
    {
        if !self.is_near(id.number(), district) {
            return self.push_other_row(text, id, district);
        }
        self.turn_near(id);
        let line = self.as_slice();
        text.extend_from_slice(line)?;
        Ok(())
    }
}

/// Appends the line of each block, which has `N` bytes where the district is one that the kind may have.
fn push_rows<const N: usize>(
    text: &mut Vec<u8>,
    line: &mut Line<N>,
    assignment: &[u16],
    blocks: &[BlockRow],
) -> Result<(), AllocError>
    requires { length assignment.now ≡ length blocks.now }
    ensures { OnOk result (text.new.items ≡ text.old.items ++ flat_map (row_text line.old.0) (zip (ids_of blocks.now) assignment.now)) }
{
    for (place, block) in blocks.iter().enumerate() {
        line.push_row(text, block.id, assignment[place])?;
    }
    Ok(())
}

/// Prints an assignment, the district of each block rising, 0 for none: the header and a line for each block, rising,
/// with LF after each. A code has two digits for congress and three for the other kinds.
pub fn write(
    alloc: Global,
    assignment: &[u16],
    geography: &Geography,
    kind: Kind,
) -> Result<Vec<u8>, AllocError>
    requires { length assignment.now ≡ length geography.now.blocks }
    ensures { IfOk result (λ text. text.items ≡ printed geography.now kind assignment.now) }
{
    let blocks = geography.blocks();
    let row_length = ID_DIGITS + code_digits(kind) + 2;
    let mut text = Vec::with_capacity(alloc, HEADER.len() + 1 + blocks.len() * row_length)?;
    text.extend_from_slice(HEADER)?;
    text.push(b'\n')?;
    let first = BlockId::from_number(0);
    match kind {
        Kind::Congress => {
            let mut line: Line<19> = Line::new(first, 0, kind);
            push_rows(&mut text, &mut line, assignment, blocks)?;
        }
        Kind::Senate | Kind::House => {
            let mut line: Line<20> = Line::new(first, 0, kind);
            push_rows(&mut text, &mut line, assignment, blocks)?;
        }
    }
    Ok(text)
}
