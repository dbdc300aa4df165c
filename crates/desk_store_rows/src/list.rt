//! Values of rows that hold lists of numbers.
ghost use Rattle.std.specs.Prelude.{◌≡◌, ◌<◌, ◌≤◌, ◌+◌, ◌*◌, ◌^◌, ◌++◌, [], ℕ, List, length, All, MatchOption};
ghost use Rattle.arrayvec.specs.ArrayVec.{array_vec_len};
ghost use Rattle.desk_store_rows.specs.claim.Keys.{in_two, in_eight};
ghost use Rattle.desk_store_rows.specs.claim.Lists.{AreChunks, chunks_bytes, AreDistricts, districts_bytes};

use crate::value::{eight, two};
use arrayvec::ArrayVec;

/// How many chunks one part of a revision names at most.
pub const PART_CHUNKS: usize = 128;

/// How many districts one piece of a chunk holds at most.
pub const PIECE_DISTRICTS: usize = 512;

/// The value of a row that holds a list: 1,024 bytes at most.
pub type ListValue = ArrayVec<u8, 1024>;

/// Adds a chunk's number to the value of a part of a revision: 8 bytes.
pub fn add_chunk(value: &mut ListValue, number: u64)
    requires { array_vec_len value.old + 8 ≤ 1024 }
    ensures { value.new.items ≡ value.old.items ++ in_eight number }
{
    let _ = value.try_extend_from_slice(&number.to_be_bytes());
}

/// Adds a district to the value of a piece of a chunk: 2 bytes.
pub fn add_district(value: &mut ListValue, district: u16)
    requires { array_vec_len value.old + 2 ≤ 1024 }
    ensures { value.new.items ≡ value.old.items ++ in_two district }
{
    let _ = value.try_extend_from_slice(&district.to_be_bytes());
}

/// Makes `value` that of a part of a revision, which names these chunks.
pub fn fill_chunks(value: &mut ListValue, numbers: &[u64])
    requires { length numbers.now ≤ 128 }
    ensures { value.new.items ≡ chunks_bytes numbers.now }
{
    value.clear();
    for number in numbers {
        add_chunk(value, *number);
    }
}

/// Makes `value` that of a piece of a chunk, which holds these districts.
pub fn fill_districts(value: &mut ListValue, districts: &[u16])
    requires { length districts.now ≤ 512 }
    ensures { value.new.items ≡ districts_bytes districts.now }
{
    value.clear();
    for district in districts {
        add_district(value, *district);
    }
}

/// The chunks that a part of a revision names; None where the row's value names none, or more than 128.
pub fn read_chunks(bytes: &[u8]) -> Option<ArrayVec<u64, PART_CHUNKS>>
    ensures { MatchOption result ((ns : List ℕ) → AreChunks ns → chunks_bytes ns ≡ bytes.now
        → ⊥) (λ v. AreChunks v.items × (chunks_bytes v.items ≡ bytes.now)) }
{
    let count = bytes.len() / 8;
    if count == 0 || count > PART_CHUNKS || bytes.len() != 8 * count {
        return None;
    }
    let mut each = [0; PART_CHUNKS];
    for k in 0..count {
        each[k] = eight(&bytes[8 * k..8 * k + 8]);
    }
    let mut numbers = ArrayVec::new();
    let _ = numbers.try_extend_from_slice(&each[..count]);
    Some(numbers)
}

/// The districts that a piece of a chunk holds; None where the row's value holds none, or more than 512.
pub fn read_districts(bytes: &[u8]) -> Option<ArrayVec<u16, PIECE_DISTRICTS>>
    ensures { MatchOption result ((ds : List ℕ) → AreDistricts ds → districts_bytes ds ≡ bytes.now
        → ⊥) (λ v. AreDistricts v.items × (districts_bytes v.items ≡ bytes.now)) }
{
    let count = bytes.len() / 2;
    if count == 0 || count > PIECE_DISTRICTS || bytes.len() != 2 * count {
        return None;
    }
    // (an array that is filled by its places lets the processor take several numbers at once)
    let mut each = [0; PIECE_DISTRICTS];
    for k in 0..count {
        each[k] = two(&bytes[2 * k..2 * k + 2]);
    }
    let mut districts = ArrayVec::new();
    let _ = districts.try_extend_from_slice(&each[..count]);
    Some(districts)
}
