//! Searches and counts of one byte. A block's bytes are looked at without a branch, so that they are taken many at once.
ghost use Rattle.std.specs.Prelude.{◌≡◌, ◌+◌, ◌==◌, ◌<◌, ◌≤◌, All, false, true, length, take, slice_index};
ghost use Rattle.std.specs.List.{count_by};

use memchr::memchr;

/// The bytes of a block in which a byte is sought at once.
const BLOCK_LEN: usize = 128;

/// A block in which bars are counted at once: a count of its bytes is below 256.
const COUNT_LEN: usize = 240;

/// Returns whether a block of bytes contains `byte`.
fn has(block: &[u8], byte: u8) -> bool
    ensures { result ≡ false → All (λ b. (b == byte) ≡ false) block.now }
{
    let mut found = false;
    for b in block {
        found |= *b == byte;
    }
    found
}

/// Returns the number of bytes before the first block that contains `byte`, or before the rest that
/// is smaller than a block.
#[tactic(auto, using(crate::proofs::ScanLemmas::none_more))]
fn blocks_to(text: &[u8], byte: u8) -> usize
    ensures within { result ≤ length text.now }
    ensures before { All (λ b. (b == byte) ≡ false) (take result text.now) }
{
    let mut at = 0usize;
    while text.len() - at >= BLOCK_LEN {
        if has(&text[at..at + BLOCK_LEN], byte) {
            return at;
        }
        at += BLOCK_LEN;
    }
    at
}

/// Returns the number of bytes before the first `byte`. Fast if it is near.
pub fn place_near(text: &[u8], byte: u8) -> usize
    ensures within { result ≤ length text.now }
    ensures before { All (λ b. (b == byte) ≡ false) (take result text.now) }
    ensures ends { result < length text.now → (slice_index text.now result == byte) ≡ true }
{
    for (i, b) in text.iter().enumerate() {
        if *b == byte {
            return i;
        }
    }
    text.len()
}

/// The same, by the search of a byte.
fn place_in(text: &[u8], byte: u8) -> usize
    ensures within { result ≤ length text.now }
    ensures before { All (λ b. (b == byte) ≡ false) (take result text.now) }
    ensures ends { result < length text.now → (slice_index text.now result == byte) ≡ true }
{
    match memchr(byte, text) {
        Some(at) => at,
        None => text.len(),
    }
}

/// Returns the number of bytes before the first `byte`: block by block, and then within the block
/// that contains it.
#[tactic(auto, using(crate::proofs::ScanLemmas::none_before))]
pub fn place_far(text: &[u8], byte: u8) -> usize
    ensures within { result ≤ length text.now }
    ensures before { All (λ b. (b == byte) ≡ false) (take result text.now) }
    ensures ends { result < length text.now → (slice_index text.now result == byte) ≡ true }
{
    let block = blocks_to(text, byte);
    block + place_in(&text[block..], byte)
}

/// How many bars a block has.
fn block_bars(block: &[u8]) -> u8
    requires { length block.now ≤ COUNT_LEN }
    ensures { result ≡ count_by (λ b. b == 124) block.now }
{
    let mut bars = 0u8;
    for b in block {
        if *b == b'|' {
            bars += 1;
        }
    }
    bars
}

/// How many bars a line has.
pub fn count_bars(line: &[u8]) -> usize
    ensures { result ≡ count_by (λ b. b == 124) line.now }
{
    let mut bars = 0usize;
    let mut at = 0usize;
    while line.len() - at > COUNT_LEN {
        bars += block_bars(&line[at..at + COUNT_LEN]) as usize;
        at += COUNT_LEN;
    }
    bars + block_bars(&line[at..]) as usize
}
