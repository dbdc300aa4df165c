//! What is read back from the rows of a load.
ghost use Rattle.geo_tables.specs.Elements.{IsPairRow};

use crate::ranges::{block_fits, code_fits};
use desk_model::block::BlockRow;
use desk_model::geography::Pair;
use desk_store_rows::{Key, read_block, read_pair};

/// An element of a geography, as a row holds it.
pub(crate) trait Element: Copy {
    ghost use Rattle.std.specs.Prelude.{◌≡◌, ℕ, List, IfSome, MatchOption};

    ghost bytes_of: { Self → List ℕ };

    ghost fits: { Self → Type 0 };

    ghost prefix_at: { ℕ → List ℕ };

    ghost key_at: { ℕ → ℕ → List ℕ };

    /// What the keys of all of a load begin with.
    fn prefix(load: u64) -> Key
        ensures { result ≡ prefix_at load };

    /// The key of the row at a place.
    fn key(load: u64, place: u32) -> Key
        ensures { result ≡ key_at load place };

    /// The element with these bytes; None where there is none.
    fn read(bytes: &[u8]) -> Option<Self>
        ensures one { MatchOption result ((x : Self) → fits x → bytes_of x ≡ bytes.now → ⊥) (λ x. (y : Self) → fits y → bytes_of y ≡ bytes.now → x ≡ y) }
        ensures is { IfSome result (λ x. fits x × (bytes_of x ≡ bytes.now)) };
}

impl Element for BlockRow {
    ghost use Rattle.desk_store_rows.specs.claim.Keys.{key_of, block, blocks_prefix};
    ghost use Rattle.desk_store_rows.specs.claim.Values.{block_bytes};
    ghost use Rattle.desk_store_rows.specs.claim.GeographyRows.{IsBlockRow};

    ghost bytes_of = { block_bytes };

    ghost fits = { IsBlockRow };

    ghost prefix_at = { blocks_prefix };

    ghost key_at = { λ load place. key_of (block load place) };

    fn prefix(load: u64) -> Key {
        Key::blocks(load)
    }

    fn key(load: u64, place: u32) -> Key {
        Key::block(load, place)
    }

    fn read(bytes: &[u8]) -> Option<BlockRow> {
        match read_block(bytes) {
            None => None,
            Some(row) => {
                block_fits(&row);
                Some(row)
            }
        }
    }
}

/// The places of a pair fit in its row.
fn pair_fits(pair: Pair)
    ensures { IsPairRow pair }
{
    code_fits(pair.first);
    code_fits(pair.second);
}

impl Element for Pair {
    ghost use Rattle.desk_store_rows.specs.claim.Keys.{key_of, pair, pairs_prefix};
    ghost use Rattle.desk_store_rows.specs.claim.GeographyRows.{neighbours_bytes};
    ghost use Rattle.geo_tables.specs.Elements.{IsPairRow};

    ghost bytes_of = { neighbours_bytes };

    ghost fits = { IsPairRow };

    ghost prefix_at = { pairs_prefix };

    ghost key_at = { λ load place. key_of (pair load place) };

    fn prefix(load: u64) -> Key {
        Key::pairs(load)
    }

    fn key(load: u64, place: u32) -> Key {
        Key::pair(load, place)
    }

    fn read(bytes: &[u8]) -> Option<Pair> {
        match read_pair(bytes) {
            None => None,
            Some(places) => {
                let neighbours = Pair {
                    first: places.0,
                    second: places.1,
                };
                pair_fits(neighbours);
                Some(neighbours)
            }
        }
    }
}
