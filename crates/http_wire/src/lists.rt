//! Words of fields, and lists of them between commas (RFC 9110, section 5.6.1).
ghost use Rattle.std.specs.Prelude.{◌≡◌, ◌==◌, ◌≤◌, length, reverse, codes};
ghost use Rattle.std.specs.List.{position_or_len};
ghost use Rattle.std.specs.Option.{option_copied};
ghost use Rattle.httparse.specs.Grammar.{skip_ows, trim_ows};
ghost use Rattle.http_wire.specs.Connection.{IsCut};
ghost use Rattle.http_wire.specs.claim.Connection.{parts, ends_in, names_close as names_close_in};

use crate::word::is_named;
use httparse::is_space_or_tab;

fn trim_start(mut s: &[u8]) -> &[u8]
    ensures { result.now ≡ skip_ows s.now }
{
    while let [first, rest @ ..] = s
        && is_space_or_tab(*first)
    {
        s = rest;
    }
    s
}

fn trim_end(mut s: &[u8]) -> &[u8]
    ensures { result.now ≡ reverse (skip_ows (reverse s.now)) }
{
    while let [rest @ .., last] = s
        && is_space_or_tab(*last)
    {
        s = rest;
    }
    s
}

/// Without the spaces and tabs at both ends.
#[tactic(auto, unfolding(httparse::specs::Grammar::trim_ows))]
fn trim(s: &[u8]) -> &[u8]
    ensures { result.now ≡ trim_ows s.now }
{
    trim_end(trim_start(s))
}

/// The place of the first comma, or the length.
fn comma_at(bytes: &[u8]) -> usize
    ensures place { result ≡ position_or_len (λ b. b == 44) bytes.now }
    ensures within { result ≤ length bytes.now }
{
    for (i, b) in bytes.iter().enumerate() {
        if *b == b',' {
            return i;
        }
    }
    bytes.len()
}

/// Splits at the first comma: returns what precedes it and what follows it.
fn cut(bytes: &[u8]) -> (&[u8], Option<&[u8]>)
    ensures { IsCut bytes.now result.0.now (option_copied result.1) }
{
    let end = comma_at(bytes);
    if end == bytes.len() {
        return (bytes, None);
    }
    (&bytes[..end], Some(&bytes[end + 1..]))
}

/// Whether the list has one part.
pub fn is_one(value: &[u8]) -> bool
    ensures { result ≡ (length (parts value.now) == 1) }
{
    match cut(value).1 {
        None => true,
        Some(_) => false,
    }
}

/// Whether the last part of the list is `chunked`.
pub fn ends_in_chunked(value: &[u8]) -> bool
    ensures { result ≡ ends_in (codes "chunked") (parts value.now) }
{
    let mut rest = value;
    loop {
        let (part, more) = cut(rest);
        match more {
            Some(next) => rest = next,
            None => return is_named(b"chunked", trim(part)),
        }
    }
}

/// Whether the list names `close`.
pub fn names_close(value: &[u8]) -> bool
    ensures { result ≡ names_close_in value.now }
{
    let mut rest = value;
    loop {
        let (part, more) = cut(rest);
        if is_named(b"close", trim(part)) {
            return true;
        }
        match more {
            Some(next) => rest = next,
            None => return false,
        }
    }
}
