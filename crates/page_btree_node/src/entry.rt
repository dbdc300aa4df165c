//! Entries as they lie in bytes.
ghost use Rattle.std.specs.Prelude.{◌≡◌, ◌≤◌, ◌<◌, ◌+◌, ◌*◌, ◌/◌, ◌%◌, ◌-◌, ◌++◌, length, take, drop, replicate};
ghost use Rattle.std.specs.List.{copy_within};
ghost use Rattle.page_btree_node.specs.Entries.{key_length, value_length};
ghost use Rattle.page_btree_node.specs.Bytes.{HasRoomFor, IsByteRange, MayMove, TellsBounds, with_entry};

use crate::sizes::{BODY_SIZE, KEY_LIMIT, PAGE_SIZE, PageBytes, VALUE_LIMIT};

/// Where the value of an entry begins and ends. Its key precedes the value.
#[derive(Clone, Copy, Drop)]
pub struct Bounds {
    pub value: usize,
    pub end: usize,
}

/// The lengths of the last entry, as in its first three bytes, and what follows from them. If the
/// next entry has the same lengths, its end is known before its own lengths are read.
#[derive(Drop)]
pub struct Lengths {
    pub(crate) head: u32,
    key: usize,
    pub(crate) size: usize,
    ghost key_is: { key ≡ head / 65536 },
    ghost size_is: { size ≡ 3 + head / 65536 + head % 65536 },
    ghost key_short: { head / 65536 ≤ 72 },
    ghost value_short: { head % 65536 ≤ 1024 },
}

impl Lengths {
    /// Those of an entry without bytes: none was looked at yet.
    pub const NONE: Lengths = Lengths {
        head: 0,
        key: 0,
        size: 3,
    };
}

/// The entry at the last three bytes of a page, which is one without bytes, if it is that.
fn bounds_at_end(page: &PageBytes, at: usize) -> Option<Bounds>
    requires { 4092 < at }
    ensures { TellsBounds page.now at result }
{
    if at > 4093 || page[4093] > 0 || page[4094] > 0 || page[4095] > 0 {
        return None;
    }
    Some(Bounds {
        value: PAGE_SIZE,
        end: PAGE_SIZE,
    })
}

/// The entry at a place in a page, if it lies in the page and is in the limits. It becomes the last that was looked at.
pub fn bounds_in(page: &PageBytes, at: usize, last: &mut Lengths) -> Option<Bounds>
    ensures { TellsBounds page.now at result }
{
    if at > BODY_SIZE {
        return bounds_at_end(page, at);
    }
    let head = u32::from_be_bytes([page[at], page[at + 1], page[at + 2], page[at + 3]]) / 256;
    if head != last.head {
        let key = (head / 65536) as usize;
        let length = (head % 65536) as usize;
        if key > KEY_LIMIT || length > VALUE_LIMIT {
            return None;
        }
        *last = Lengths {
            head,
            key,
            size: 3 + key + length,
        };
    }
    let end = at + last.size;
    if end > PAGE_SIZE {
        return None;
    }
    Some(Bounds {
        value: at + 3 + last.key,
        end,
    })
}

/// The key of the entry at a place.
pub fn key_in(bytes: &[u8; 5200], at: usize) -> &[u8]
    requires { at + 3 + key_length (drop at bytes.now) ≤ 5200 }
    ensures { result.now ≡ take (key_length (drop at bytes.now)) (drop (at + 3) bytes.now) }
{
    let key = at + 3;
    &bytes[key..key + bytes[at] as usize]
}

/// The value of the entry at a place.
pub fn value_in(bytes: &[u8; 5200], at: usize) -> &[u8]
    requires { at + 3 + key_length (drop at bytes.now) + value_length (drop at bytes.now) ≤ 5200 }
    ensures { result.now ≡ take (value_length (drop at bytes.now)) (drop (at + 3 + key_length (drop at bytes.now)) bytes.now) }
{
    let value = at + 3 + bytes[at] as usize;
    let length = 256 * bytes[at + 1] as usize + bytes[at + 2] as usize;
    &bytes[value..value + length]
}

/// Moves the bytes between two places to another one.
#[tactic(auto, using(crate::proofs::Writing::moved_nowhere))]
pub fn move_bytes(bytes: &mut [u8], from: usize, end: usize, to: usize)
    requires { MayMove from end to (length bytes.old) }
    ensures { bytes.new ≡ copy_within bytes.old from end to }
{
    if from == to {
        return;
    }
    bytes.copy_within(from..end, to);
}

/// Writes an entry at a place.
#[tactic(auto, using(crate::proofs::Writing::entry_written))]
pub fn put_entry(bytes: &mut [u8], at: usize, key: &[u8], value: &[u8])
    requires { HasRoomFor (key.now, value.now) at (length bytes.old) }
    ensures { bytes.new ≡ with_entry bytes.old at (key.now, value.now) }
{
    let value_at = at + 3 + key.len();
    bytes[at] = key.len() as u8;
    bytes[at + 1] = (value.len() / 256) as u8;
    bytes[at + 2] = (value.len() % 256) as u8;
    bytes[at + 3..value_at].copy_from_slice(key);
    bytes[value_at..value_at + value.len()].copy_from_slice(value);
}

/// Writes the entries up to a place into a page, and zeros after them.
pub fn put_body(page: &mut PageBytes, bytes: &[u8; 5200], used: usize)
    requires { IsByteRange 4 used 4096 }
    ensures { page.new ≡ take 4 page.old ++ (take (used - 4) (drop 4 bytes.now) ++ replicate (4096 - used) 0) }
{
    page[4..used].copy_from_slice(&bytes[4..used]);
    page[used..].fill(0);
}

/// Copies the entries between two places to the start of other bytes.
pub fn copy_body(bytes: &[u8; 5200], from: usize, end: usize, to: &mut [u8; 5200])
    requires low { 4 ≤ from }
    requires part { IsByteRange from end 5200 }
    ensures { take (end - from) (drop 4 to.new) ≡ take (end - from) (drop from bytes.now) }
{
    to[4..4 + (end - from)].copy_from_slice(&bytes[from..end]);
}
