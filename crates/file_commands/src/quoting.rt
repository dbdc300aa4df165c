//! The line of a plan's file that a fault names, which is shown after what the fault means.
ghost use Rattle.std.specs.Prelude.{◌≡◌, ◌≤◌, ◌++◌, length, take, IfOk};
ghost use Rattle.file_commands.specs.Prefixes.{line_prefix};
ghost use Rattle.file_commands.specs.Quotes.{after_line as text_after_line, after_lines, line_told};

use crate::prefixes::{first_line, put_shown};
use std::alloc::{AllocError, Global};
use std::fs::{metadata, read};

/// How many bytes of a line are shown at most.
const SHOWN: usize = 60;

/// What follows the first line end of a text.
fn after_line(text: &[u8]) -> &[u8]
    ensures { result.now ≡ text_after_line text.now }
{
    for (i, byte) in text.iter().enumerate() {
        if *byte == b'\n' {
            return &text[i + 1..];
        }
    }
    &[]
}

/// The line that follows this number of line ends, without its own.
fn line_after(text: &[u8], ends: u64) -> &[u8]
    ensures { result.now ≡ line_prefix (after_lines ends text.now) }
{
    let mut rest = text;
    for _ in 0..ends {
        rest = after_line(rest);
    }
    first_line(rest)
}

/// The front of a line that is shown.
fn front_of(line: &[u8]) -> &[u8]
    ensures { result.now ≡ take 60 line.now }
{
    if line.len() <= SHOWN {
        return line;
    }
    &line[..SHOWN]
}

/// The text that shows a line: its number as it was printed, and the line that follows this number of line ends.
fn line_text(alloc: Global, number: &[u8], ends: u64, text: &[u8]) -> Result<Vec<u8>, AllocError>
    ensures { IfOk result (λ told. told.items ≡ line_told number.now ends text.now) }
{
    let mut told = Vec::new(alloc);
    told.extend_from_slice(b"  Line ")?;
    told.extend_from_slice(number)?;
    told.extend_from_slice(b" is `")?;
    put_shown(&mut told, front_of(line_after(text, ends)))?;
    told.extend_from_slice(b"`.\n")?;
    Ok(told)
}

/// Whether a fault's line is about a line of a plan after the first.
fn names_line(line: &[u8]) -> bool {
    line.starts_with(b"plandesk: plan: B".as_slice())
        || line.starts_with(b"plandesk: senate: B".as_slice())
        || line.starts_with(b"plandesk: congress: B".as_slice())
}

/// The last word of a fault's line: the number of a line.
fn last_word(line: &[u8]) -> &[u8] {
    let mut start = 0usize;
    for (i, byte) in line.iter().enumerate() {
        if *byte == b' ' {
            start = i + 1;
        }
    }
    match line.get(start..) {
        Some(word) => first_line(word),
        None => line,
    }
}

/// The number that digits write, or the greatest one.
fn number_of(digits: &[u8]) -> u64 {
    let mut number = 0u64;
    for digit in digits {
        number = number
            .saturating_mul(10)
            .saturating_add(digit.saturating_sub(b'0') as u64);
    }
    number
}

/// The text that shows the line of the file at a path which a fault's line names. None if the file can't be read again, as a pipe.
pub fn quoted_line(rt: &HostRuntime, line: &[u8], path: &str) -> Option<Vec<u8>> {
    if !names_line(line) {
        return None;
    }
    match metadata(rt, path) {
        Ok(found) => {
            if !found.is_file() {
                return None;
            }
        }
        Err(_) => return None,
    }
    let Ok(text) = read(rt, path) else {
        return None;
    };
    let number = last_word(line);
    match line_text(
        rt.alloc(),
        number,
        number_of(number).saturating_sub(1),
        text.as_slice(),
    ) {
        Ok(told) => Some(told),
        Err(_) => None,
    }
}
