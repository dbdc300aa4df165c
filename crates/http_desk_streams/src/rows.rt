//! How many blocks a file lists.
ghost use Rattle.std.specs.Prelude.{◌≡◌, ◌≤◌, ◌==◌, [], false, All, IfSome, MatchOption};
ghost use Rattle.std.specs.Str.Lines.{lines};
ghost use Rattle.http_desk_streams.specs.Accepting.{one_row, rows_in};
ghost use Rattle.http_desk_streams.specs.Rows.{BeginsWith};

use field_text::line::{cut_near, first_line};

/// 1 where a line has bytes.
fn one(line: &[u8]) -> u64
    ensures value { result ≡ one_row line.now }
    ensures few { result ≤ 1 }
{
    if line.is_empty() { 0 } else { 1 }
}

/// Whether a line ends among these bytes: each is looked at, without a branch.
fn has_end(bytes: &[u8]) -> bool
    ensures { result ≡ false → All (λ b. (b == 10) ≡ false) bytes.now }
{
    let mut ends = false;
    for b in bytes {
        ends |= *b == b'\n';
    }
    ends
}

/// A row has this many bytes at least before its end: a block's number and a bar.
const FRONT: usize = 16;

/// The text after a first line that is as long as a row, and whose end is near. `None` says nothing of the text.
fn after_row(text: &[u8]) -> Option<&[u8]>
    ensures { IfSome result (λ rest. BeginsWith text.now 1 rest.now) }
{
    if text.len() < FRONT || has_end(&text[..FRONT]) {
        return None;
    }
    let Some((_code, rest)) = cut_near(&text[FRONT..], b'\n') else {
        return None;
    };
    Some(rest)
}

/// 1 where the first line of a text has bytes, else 0, and the text after it. `None` where there is no line.
fn next_line(text: &[u8]) -> Option<(u64, &[u8])>
    ensures line { MatchOption result (lines text.now ≡ []) (λ next. BeginsWith text.now next.0 next.1.now) }
    ensures few { IfSome result (λ next. next.0 ≤ 1) }
{
    match after_row(text) {
        Some(rest) => Some((1, rest)),
        None => match first_line(text) {
            Some((line, rest)) => Some((one(line), rest)),
            None => None,
        },
    }
}

/// How many lines after the first have bytes. In a file that is accepted each of them lists a block, and no block twice.
pub(crate) fn count_rows(text: &[u8]) -> u64
    ensures { result ≡ rows_in text.now }
{
    let Some((_, after)) = first_line(text) else {
        return 0;
    };
    let mut rest = after;
    let mut count = 0u64;
    while let Some((line, after)) = next_line(rest) {
        count += line;
        rest = after;
    }
    count
}
