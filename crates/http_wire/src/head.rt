//! What the fields of a head announce.
ghost use Rattle.std.specs.Prelude.{◌≡◌, ◌==◌, ℕ, true, ◌<◌, ◌≤◌, List, length, map, Some, All, slice_get, codes};
ghost use Rattle.std.specs.Char.{is_ascii_digit};
ghost use Rattle.std.specs.List.{list_all, flat_map};
ghost use Rattle.httparse.specs.Spans.{header_bytes, IsHeaderWithin};
ghost use Rattle.http_wire.specs.claim.Prefix.{is_length as is_length_text, number_of, values, length_of as length_by, lengths_of};
ghost use Rattle.http_wire.specs.claim.Prefix.{sized as sized_by, framing_of as framing_by, is_host_count as is_host_count_of, judged};
ghost use Rattle.http_wire.specs.claim.Connection.{parts, ends_in};

use crate::lists::{ends_in_chunked, is_one};
use crate::word::is_named;
use http_wire_intake::bad_request::BadRequest;
use http_wire_intake::limits::BODY_LIMIT;
use httparse::spans::HeaderSpan;

/// How a body is framed (RFC 9112, section 6).
#[derive(Clone, Copy)]
pub enum Framing {
    /// The body has this number of bytes, at most 33,554,432.
    Sized(usize),
    /// It comes in chunks.
    Chunked,
}

/// How many of the headers have that name, and the first one's value.
fn find_value<'b>(buf: &'b [u8], headers: &[HeaderSpan], word: &[u8]) -> (usize, &'b [u8])
    requires { All (IsHeaderWithin (length buf.now)) headers.now }
    ensures count { result.0 ≡ length (values word.now (map (header_bytes buf.now) headers.now)) }
    ensures first { 0 < result.0 → slice_get (values word.now (map (header_bytes buf.now) headers.now)) 0 ≡ Some result.1.now }
{
    let mut count = 0usize;
    let mut first = &buf[..0];
    for h in headers {
        if is_named(word, h.name.of(buf)) {
            if count == 0 {
                first = h.value.of(buf);
            }
            count += 1;
        }
    }
    (count, first)
}

/// The number that the digits spell.
fn digits(value: &[u8]) -> u128
    requires few { length value.now ≤ 20 }
    requires each { All (λ b. is_ascii_digit b ≡ true) value.now }
    ensures { result ≡ number_of value.now }
{
    let mut n = 0u128;
    for b in value {
        n = n * 10 + (*b - b'0') as u128;
    }
    n
}

fn all_digits(value: &[u8]) -> bool
    ensures test { result ≡ list_all is_ascii_digit value.now }
    ensures each { result ≡ true → All (λ b. is_ascii_digit b ≡ true) value.now }
{
    value.iter().all(|b| b.is_ascii_digit())
}

/// Whether it is 1 to 20 digits.
fn is_length(value: &[u8]) -> bool
    ensures test { result ≡ is_length_text value.now }
    ensures few { result ≡ true → length value.now ≤ 20 }
    ensures each { result ≡ true → All (λ b. is_ascii_digit b ≡ true) value.now }
{
    if value.is_empty() || value.len() > 20 {
        return false;
    }
    all_digits(value)
}

/// The length that a Content-Length line says.
fn length_of(value: &[u8]) -> Result<usize, BadRequest>
    ensures { result ≡ length_by value.now }
{
    if !is_length(value) {
        return Err(BadRequest::BadLength);
    }
    let n = digits(value);
    if n > BODY_LIMIT as u128 {
        return Err(BadRequest::BodyTooLarge);
    }
    Ok(n as usize)
}

/// Returns the framing by the Content-Length lines, given their number.
fn sized(lengths: usize, value: &[u8]) -> Result<Framing, BadRequest>
    ensures { (all : List (List ℕ)) → lengths ≡ length all → (0 < lengths → slice_get all 0 ≡ Some value.now) → result ≡ sized_by (lengths_of all) }
{
    match lengths {
        0 => Ok(Framing::Sized(0)),
        1 => match length_of(value) {
            Ok(n) => Ok(Framing::Sized(n)),
            Err(fault) => Err(fault),
        },
        _ => Err(BadRequest::BadLength),
    }
}

/// Whether the last coding of the last Transfer-Encoding line is `chunked`.
fn ends_chunked(buf: &[u8], headers: &[HeaderSpan]) -> bool
    requires { All (IsHeaderWithin (length buf.now)) headers.now }
    ensures { result ≡ ends_in (codes "chunked") (flat_map parts (values (codes "transfer-encoding") (map (header_bytes buf.now) headers.now))) }
{
    let mut ends = false;
    for h in headers {
        if is_named(b"transfer-encoding", h.name.of(buf)) {
            ends = ends_in_chunked(h.value.of(buf));
        }
    }
    ends
}

/// Returns whether the Transfer-Encoding lines, given their number and the first, name one coding
/// in all.
fn is_single(lines: usize, first: &[u8]) -> bool
    ensures { (all : List (List ℕ)) → lines ≡ length all → slice_get all 0 ≡ Some first.now → result ≡ (length (flat_map parts all) == 1) }
{
    if lines != 1 {
        return false;
    }
    is_one(first)
}

/// The framing by the lines that say it.
fn framing_of(minor: u8, buf: &[u8], headers: &[HeaderSpan]) -> Result<Framing, BadRequest>
    requires { All (IsHeaderWithin (length buf.now)) headers.now }
    ensures { result ≡ framing_by minor (values (codes "transfer-encoding") (map (header_bytes buf.now) headers.now))
        (values (codes "content-length") (map (header_bytes buf.now) headers.now)) }
{
    let (codings, coding) = find_value(buf, headers, b"transfer-encoding");
    let (lengths, value) = find_value(buf, headers, b"content-length");
    if codings == 0 {
        return sized(lengths, value);
    }
    if lengths > 0 || minor == 0 || !ends_chunked(buf, headers) {
        return Err(BadRequest::BadLength);
    }
    if !is_single(codings, coding) {
        return Err(BadRequest::BadCoding);
    }
    Ok(Framing::Chunked)
}

/// Returns whether this number of Host lines is allowed.
fn is_host_count(minor: u8, hosts: usize) -> bool
    ensures { result ≡ is_host_count_of minor hosts }
{
    hosts == 1 || (minor == 0 && hosts == 0)
}

/// The body's framing, or the first fault of the fields.
pub fn judge(minor: u8, buf: &[u8], headers: &[HeaderSpan]) -> Result<Framing, BadRequest>
    requires { All (IsHeaderWithin (length buf.now)) headers.now }
    ensures { result ≡ judged minor (map (header_bytes buf.now) headers.now) }
{
    let (hosts, _) = find_value(buf, headers, b"host");
    if !is_host_count(minor, hosts) {
        return Err(BadRequest::BadHost);
    }
    framing_of(minor, buf, headers)
}
