//! Keys compared eight bytes at a time.
ghost use Rattle.std.specs.Prelude.{◌≡◌, ◌<◌, ◌≤◌, ◌+◌, take, drop, length, min, IfSome, IfNone};
ghost use Rattle.std.specs.Ordering.{nat_cmp};
ghost use Rattle.std.specs.Cmp.Lexicographic.{slice_cmp};
ghost use Rattle.std.specs.Slice.Scan.{big_endian};

use std::cmp::Ordering;

/// The number that the eight bytes from a place on spell, the highest first.
#[inline(always)]
fn word_at(bytes: &[u8], at: usize) -> u64
    requires { at + 8 ≤ length bytes.now }
    ensures { result ≡ big_endian 0 (take 8 (drop at bytes.now)) }
{
    u64::from_be_bytes([
        bytes[at],
        bytes[at + 1],
        bytes[at + 2],
        bytes[at + 3],
        bytes[at + 4],
        bytes[at + 5],
        bytes[at + 6],
        bytes[at + 7],
    ])
}

/// How two keys compare that are alike up to a place, by the eight bytes from there on; none where those are alike too.
#[inline(always)]
fn compare_at(a: &[u8], b: &[u8], at: usize) -> Option<Ordering>
    requires a { at + 8 ≤ length a.now }
    requires b { at + 8 ≤ length b.now }
    requires alike { take at a.now ≡ take at b.now }
    ensures apart { IfSome result (λ order. order ≡ slice_cmp nat_cmp a.now b.now) }
    ensures alike { IfNone result (take (at + 8) a.now ≡ take (at + 8) b.now) }
{
    let x = word_at(a, at);
    let y = word_at(b, at);
    if x == y {
        return None;
    }
    Some(x.cmp(&y))
}

/// How two keys compare whose first sixteen bytes are alike, or all that the shorter one has.
fn compare_last(a: &[u8], b: &[u8], both: usize) -> Ordering
    requires both { both ≡ min (length a.now) (length b.now) }
    requires some { 8 ≤ both }
    requires alike { take (min both 16) a.now ≡ take (min both 16) b.now }
    ensures { result ≡ slice_cmp nat_cmp a.now b.now }
{
    if both <= 16 {
        return a.len().cmp(&b.len());
    }
    if both > 24 {
        let x = &a[16..];
        let y = &b[16..];
        return x.cmp(y);
    }
    match compare_at(a, b, both - 8) {
        Some(order) => order,
        None => a.len().cmp(&b.len()),
    }
}

/// How two keys compare whose first eight bytes are alike.
#[inline(always)]
fn compare_next(a: &[u8], b: &[u8], both: usize) -> Ordering
    requires both { both ≡ min (length a.now) (length b.now) }
    requires some { 8 ≤ both }
    requires alike { take 8 a.now ≡ take 8 b.now }
    ensures { result ≡ slice_cmp nat_cmp a.now b.now }
{
    let next = (both - 8).min(8);
    match compare_at(a, b, next) {
        Some(order) => order,
        None => compare_last(a, b, both),
    }
}

/// Compares two keys.
#[inline(always)]
pub fn compare(a: &[u8], b: &[u8]) -> Ordering
    ensures { result ≡ slice_cmp nat_cmp a.now b.now }
{
    let both = a.len().min(b.len());
    if both < 8 {
        return a.cmp(b);
    }
    match compare_at(a, b, 0) {
        Some(order) => order,
        None => compare_next(a, b, both),
    }
}
