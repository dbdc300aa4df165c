//! A line of a block assignment file.
ghost use Rattle.std.specs.Prelude.{◌≡◌, ◌<◌, ℕ, [], length, MatchOption, IfSome, Some};
ghost use Rattle.std.specs.Str.Lines.{lines};
ghost use Rattle.desk_model.specs.claim.Baf.{code_value, fields_of};
ghost use Rattle.field_text.specs.claim.Digits.{number_of_digits};
ghost use Rattle.field_text.specs.claim.Fields.{fields};
ghost use Rattle.baf_text.specs.Prefix.{HasHead, HasFirst, line_parts};

use crate::near::{LastCode, LastHead};
use desk_model::block::BlockId;
use field_text::digits::{digits_exactly, fifteen_digits, number};
use field_text::line::first_line;

/// A block's number has this many digits.
pub const ID_DIGITS: usize = 15;

const UNASSIGNED_OF_TWO: &[u8] = b"ZZ";

const UNASSIGNED_OF_THREE: &[u8] = b"ZZZ";

/// A block, and the number that its code writes, if any.
pub type BafRow = (BlockId, Option<u16>);

/// The number that a code writes that may have any number of bytes, `Some(None)` for an unassigned block.
fn any_code(code: &[u8]) -> Option<Option<u16>>
    ensures { result ≡ code_value code.now }
{
    if code.is_empty() || code == UNASSIGNED_OF_TWO || code == UNASSIGNED_OF_THREE {
        return Some(None);
    }
    match number(code, 3) {
        Some(value) => Some(Some(value as u16)),
        None => None,
    }
}

/// The number that a code writes, `Some(None)` for an unassigned block; `None` where it is no code. Three digits are the likely code.
pub(crate) fn code_number(code: &[u8]) -> Option<Option<u16>>
    ensures { result ≡ code_value code.now }
{
    match digits_exactly(code, 3) {
        Some(value) => Some(Some(value as u16)),
        None => any_code(code),
    }
}

/// The block with whose number and a bar a line or a text begins.
pub(crate) fn head_of(text: &[u8]) -> Option<BlockId>
    ensures { MatchOption result ((block : ℕ) → ¬ HasHead text.now block) (λ block. HasHead text.now block) }
{
    if text.len() <= ID_DIGITS || text[ID_DIGITS] != b'|' {
        return None;
    }
    match fifteen_digits(&text[..ID_DIGITS]) {
        Some(id) => Some(BlockId::from_number(id)),
        None => None,
    }
}

/// The block of a line and the number that its code writes; `None` where the line has another shape.
fn row_of(line: &[u8]) -> Option<BafRow>
    ensures { result ≡ fields_of (fields line.now) }
{
    let Some(block) = head_of(line) else {
        return None;
    };
    match code_number(&line[ID_DIGITS + 1..]) {
        Some(number) => Some((block, number)),
        None => None,
    }
}

/// The row that is a text's first line and the text after that line, by the head and the code of the line before. `None` says
/// nothing of the text.
fn prefix_row<'t>(
    text: &'t [u8],
    head: &mut LastHead,
    code: &mut LastCode<'t>,
) -> Option<(BafRow, &'t [u8])>
    ensures { IfSome result (λ prefix. HasFirst text.now (Some (Some prefix.0)) prefix.1.now) }
{
    let Some(block) = head.head_of(text) else {
        return None;
    };
    match code.code_of(&text[ID_DIGITS + 1..]) {
        Some((number, rest)) => Some(((block, number), rest)),
        None => None,
    }
}

/// What a line says: `None` where it has no bytes, `Some(None)` where it is no row.
fn parts_of(line: &[u8]) -> Option<Option<BafRow>>
    ensures { result ≡ line_parts line.now }
{
    if line.is_empty() {
        None
    } else {
        Some(row_of(line))
    }
}

/// What a text's first line says, and the text after it, by the head and the code of the line before. `None` where there is no line.
pub fn next_row<'t>(
    text: &'t [u8],
    head: &mut LastHead,
    code: &mut LastCode<'t>,
) -> Option<(Option<Option<BafRow>>, &'t [u8])>
    ensures { MatchOption result (lines text.now ≡ []) (λ next. HasFirst text.now next.0 next.1.now) }
{
    match prefix_row(text, head, code) {
        Some((row, rest)) => Some((Some(Some(row)), rest)),
        None => match first_line(text) {
            Some((line, rest)) => Some((parts_of(line), rest)),
            None => None,
        },
    }
}
