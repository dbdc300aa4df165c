//! Decimal numbers in ASCII digits.
ghost use Rattle.std.specs.Prelude.{◌≡◌, ◌^◌, ◌<◌, ◌≤◌, true, All, IfSome, length};
ghost use Rattle.std.specs.Char.{is_ascii_digit};
ghost use Rattle.std.specs.List.{list_all};
ghost use Rattle.std.specs.Str.Parse.{digits_value};
ghost use Rattle.field_text.specs.claim.Digits.{number_of, number_of_digits};

/// Whether every byte is an ASCII digit.
fn all_digits(bytes: &[u8]) -> bool
    ensures test { result ≡ list_all is_ascii_digit bytes.now }
    ensures each { result ≡ true → All (λ b. is_ascii_digit b ≡ true) bytes.now }
{
    bytes.iter().all(|b| b.is_ascii_digit())
}

/// The same, for few digits or a number of them that is known: each byte is looked at, without a branch.
fn only_digits(bytes: &[u8]) -> bool
    ensures test { result ≡ list_all is_ascii_digit bytes.now }
    ensures each { result ≡ true → All (λ b. is_ascii_digit b ≡ true) bytes.now }
{
    let mut only = true;
    for b in bytes {
        only &= b.is_ascii_digit();
    }
    only
}

/// The number that digits write.
fn value(bytes: &[u8]) -> u64
    requires few { length bytes.now ≤ 19 }
    requires each { All (λ b. is_ascii_digit b ≡ true) bytes.now }
    ensures value { result ≡ digits_value 10 bytes.now }
    ensures small { result < 10 ^ length bytes.now }
{
    let mut n = 0u64;
    for b in bytes {
        n = n * 10 + (*b - b'0') as u64;
    }
    n
}

/// The number that 1 to `most` digits write. Leading zeros are digits like others.
pub fn number(bytes: &[u8], most: usize) -> Option<u64>
    requires { most ≤ 19 }
    ensures value { result ≡ number_of most bytes.now }
    ensures small { IfSome result (λ n. n < 10 ^ most) }
{
    if bytes.is_empty() || bytes.len() > most {
        return None;
    }
    if all_digits(bytes) {
        let n = value(bytes);
        Some(n)
    } else {
        None
    }
}

/// The number that exactly `count` digits write.
pub fn digits_exactly(bytes: &[u8], count: usize) -> Option<u64>
    requires { count ≤ 19 }
    ensures value { result ≡ number_of_digits count bytes.now }
    ensures small { IfSome result (λ n. n < 10 ^ count) }
{
    if bytes.len() != count {
        return None;
    }
    if only_digits(bytes) {
        Some(value(bytes))
    } else {
        None
    }
}

/// The number that 15 digits write: three numbers of five, none of which waits for another.
fn value_of_fifteen(bytes: &[u8]) -> u64
    requires long { length bytes.now ≡ 15 }
    requires each { All (λ b. is_ascii_digit b ≡ true) bytes.now }
    ensures value { result ≡ digits_value 10 bytes.now }
    ensures small { result < 10 ^ 15 }
{
    let high = value(&bytes[..5]);
    let middle = value(&bytes[5..10]);
    let low = value(&bytes[10..]);
    high * 10_000_000_000 + middle * 100_000 + low
}

/// The same as `digits_exactly` of 15 digits.
pub fn fifteen_digits(bytes: &[u8]) -> Option<u64>
    ensures value { result ≡ number_of_digits 15 bytes.now }
    ensures small { IfSome result (λ n. n < 10 ^ 15) }
{
    if bytes.len() != 15 {
        return None;
    }
    if only_digits(bytes) {
        Some(value_of_fifteen(bytes))
    } else {
        None
    }
}
