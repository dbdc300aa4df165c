//! Rows by their keys: the one place where keys are read.
ghost use Rattle.std.specs.Prelude.{◌≡◌, MatchOption};
ghost use Rattle.desk_store_rows.specs.claim.Keys.{key_of};
ghost use Rattle.desk_store_rows.specs.RowKeys.{IsKey, IsNoKey, IsShort, row_of};

use crate::key::Key;
use crate::value::{eight, four, two};

/// The kinds of rows, each with the numbers or the name in its key.
#[derive(Clone, Copy)]
pub enum RowKey<'a> {
    /// The numbers that the next plan, chunk and load get.
    Counters,
    /// A plan that was deleted.
    Retired { plan: u64 },
    /// A load that was begun and isn't sealed.
    Begun { load: u64 },
    /// A chunk that a plan holds.
    Holding { plan: u64, number: u64 },
    /// How many plans hold a chunk.
    HolderCount { number: u64 },
    /// A plan, by its name.
    Named { name: &'a [u8] },
    /// Some of the chunks of a revision, counted from 1; its parts are counted from 0.
    Part { plan: u64, revision: u32, index: u8 },
    /// Which load is the geography.
    Seal,
    /// The version of the rows.
    Version,
    /// A block of a load, by its place.
    Block { load: u64, place: u32 },
    /// A pair of neighbours of a load, by its place.
    Pair { load: u64, place: u32 },
    /// Some of the districts of a chunk; its pieces are counted from 0.
    Chunk { number: u64, piece: u16 },
}

impl<'a> RowKey<'a> {
    /// Returns the row that has this key; `None` if no row has it.
    pub fn read(key: &'a [u8]) -> Option<RowKey<'a>>
        ensures { MatchOption result (IsNoKey key.now) (λ k. IsKey (row_of k) key.now) }
    {
        if key.is_empty() {
            return None;
        }
        let rest = &key[1..];
        match (key[0], rest.len()) {
            (b'A', 0) => Some(RowKey::Counters),
            (b'D', 8) => Some(RowKey::Retired { plan: eight(rest) }),
            (b'H', 16) => Some(RowKey::Holding {
                plan: eight(&rest[..8]),
                number: eight(&rest[8..]),
            }),
            (b'K', 8) => Some(RowKey::HolderCount {
                number: eight(rest),
            }),
            (b'L', 8) => Some(RowKey::Begun { load: eight(rest) }),
            (b'P', 0..=71) => Some(RowKey::Named { name: rest }),
            (b'R', 13) => Some(RowKey::Part {
                plan: eight(&rest[..8]),
                revision: four(&rest[8..12]),
                index: rest[12],
            }),
            (b'S', 0) => Some(RowKey::Seal),
            (b'V', 0) => Some(RowKey::Version),
            (b'g', 13) if rest[8] == b'b' => Some(RowKey::Block {
                load: eight(&rest[..8]),
                place: four(&rest[9..]),
            }),
            (b'g', 13) if rest[8] == b'p' => Some(RowKey::Pair {
                load: eight(&rest[..8]),
                place: four(&rest[9..]),
            }),
            (b'k', 10) => Some(RowKey::Chunk {
                number: eight(&rest[..8]),
                piece: two(&rest[8..]),
            }),
            _ => None,
        }
    }

    /// Returns the key of the row.
    pub fn write(&self) -> Key
        requires short { IsShort (row_of self.now) }
        ensures { result ≡ key_of (row_of self.now) }
    {
        match *self {
            RowKey::Counters => Key::counters(),
            RowKey::Retired { plan } => Key::retired(plan),
            RowKey::Begun { load } => Key::begun(load),
            RowKey::Holding { plan, number } => Key::holding(plan, number),
            RowKey::HolderCount { number } => Key::holder_count(number),
            RowKey::Named { name } => Key::plans().then(name),
            RowKey::Part {
                plan,
                revision,
                index,
            } => Key::part(plan, revision, index),
            RowKey::Seal => Key::seal(),
            RowKey::Version => Key::version(),
            RowKey::Block { load, place } => Key::block(load, place),
            RowKey::Pair { load, place } => Key::pair(load, place),
            RowKey::Chunk { number, piece } => Key::chunk(number, piece),
        }
    }
}
