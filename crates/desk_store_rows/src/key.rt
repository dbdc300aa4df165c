//! Keys of rows.
ghost use Rattle.std.specs.Prelude.{◌≡◌, ◌≤◌, ◌<◌, ◌+◌, ◌++◌, [], ◌∷◌, length, vec_len};
ghost use Rattle.desk_store_rows.specs.claim.Keys.{RowKey, key_of, counters, retired, begun, holding, holder_count, named, part, seal, version, block};
ghost use Rattle.desk_store_rows.specs.claim.Keys.{pair, chunk, in_one, in_two, in_four, in_eight, plans_prefix, retired_prefix};
ghost use Rattle.desk_store_rows.specs.claim.Keys.{begun_prefix, holdings_prefix, revision_prefix};
ghost use Rattle.desk_store_rows.specs.Keys.{parts_prefix, plan_parts_prefix};
ghost use Rattle.desk_store_rows.specs.Keys.{load_prefix, chunks_prefix};
ghost use Rattle.desk_store_rows.specs.claim.Keys.{blocks_prefix, pairs_prefix, chunk_prefix};

use arrayvec::ArrayVec;
use desk_model::name::PlanName;
use std::marker::Model;

/// The key of a row, or the bytes with which the keys of several rows begin: 1 to 72 bytes.
#[derive(Drop)]
pub struct Key {
    bytes: ArrayVec<u8, 72>,
}

impl Model for Key {
    ghost use Rattle.std.specs.Prelude.{ℕ, List, ◌<◌, length};
    ghost use Rattle.std.specs.Coded.{coded_list, coded_ℕ};

    ghost Value = { List ℕ };

    ghost coded = { coded_list coded_ℕ };

    ghost view = { λ k. k.bytes.items };

    ghost invariant = { λ k. 0 < length k.bytes.items };
}

impl Key {
    /// A key that consists of its tag.
    pub(crate) fn tagged(tag: u8) -> Key
        ensures { result ≡ tag ∷ [] }
    {
        let mut bytes = ArrayVec::new();
        bytes.push(tag);
        Key { bytes }
    }

    /// Adds bytes that fit.
    fn add(&mut self, more: &[u8])
        requires { length self.old + length more.now ≤ 72 }
        ensures { self.new ≡ self.old ++ more.now }
    {
        let _ = self.bytes.try_extend_from_slice(more);
    }

    /// Returns the key with more bytes after it, which fit.
    pub fn then(self, more: &[u8]) -> Key
        requires { length self + length more.now ≤ 72 }
        ensures { result ≡ self ++ more.now }
    {
        let mut key = self;
        key.add(more);
        key
    }

    /// The bytes.
    pub fn as_slice(&self) -> &[u8]
        ensures bytes { result.now ≡ self.now }
        ensures some { 0 < length result.now }
        ensures most { length result.now ≤ 72 }
    {
        self.bytes.as_slice()
    }

    /// The row of the numbers that the next plan, chunk and load get.
    pub fn counters() -> Key
        ensures { result ≡ key_of counters }
    {
        Key::tagged(b'A')
    }

    /// The row of a deleted plan.
    pub fn retired(plan: u64) -> Key
        ensures { result ≡ key_of (retired plan) }
    {
        Key::numbered(b'D', plan)
    }

    /// A tag and a number.
    pub(crate) fn numbered(tag: u8, number: u64) -> Key
        ensures { result ≡ (tag ∷ []) ++ in_eight number }
    {
        let mut key = Key::tagged(tag);
        key.add(&number.to_be_bytes());
        key
    }

    /// The row of a load that was begun and isn't sealed.
    pub fn begun(load: u64) -> Key
        ensures { result ≡ key_of (begun load) }
    {
        Key::numbered(b'L', load)
    }

    /// The row that says that a plan holds a chunk.
    pub fn holding(plan: u64, number: u64) -> Key
        ensures { result ≡ key_of (holding plan number) }
    {
        let mut key = Key::holdings(plan);
        key.add(&number.to_be_bytes());
        key
    }

    /// The row that counts the plans that hold a chunk.
    pub fn holder_count(number: u64) -> Key
        ensures { result ≡ key_of (holder_count number) }
    {
        Key::numbered(b'K', number)
    }

    /// The row of the version of the rows.
    pub fn version() -> Key
        ensures { result ≡ key_of version }
    {
        Key::tagged(b'V')
    }

    /// What the keys of all chunks that a plan holds begin with.
    pub fn holdings(plan: u64) -> Key
        ensures { result ≡ holdings_prefix plan }
    {
        Key::numbered(b'H', plan)
    }

    /// The row of a plan, by its name.
    pub fn named(name: &PlanName) -> Key
        ensures { result ≡ key_of (named name.now) }
    {
        let mut key = Key::tagged(b'P');
        key.add(name.as_slice());
        key
    }

    /// The row of some of the chunks of a revision, from 1; the parts are counted from 0.
    pub fn part(plan: u64, revision: u32, index: u8) -> Key
        ensures { result ≡ key_of (part plan revision index) }
    {
        let mut key = Key::revision(plan, revision);
        key.add(&[index]);
        key
    }

    /// The row that names the geography.
    pub fn seal() -> Key
        ensures { result ≡ key_of seal }
    {
        Key::tagged(b'S')
    }

    /// The row of a block of a load, by its place.
    pub fn block(load: u64, place: u32) -> Key
        ensures { result ≡ key_of (block load place) }
    {
        let mut key = Key::blocks(load);
        key.add(&place.to_be_bytes());
        key
    }

    /// The row of a pair of neighbours of a load, by its place.
    pub fn pair(load: u64, place: u32) -> Key
        ensures { result ≡ key_of (pair load place) }
    {
        let mut key = Key::pairs(load);
        key.add(&place.to_be_bytes());
        key
    }

    /// The row of some of the districts of a chunk; the pieces are counted from 0.
    pub fn chunk(number: u64, piece: u16) -> Key
        ensures { result ≡ key_of (chunk number piece) }
    {
        let mut key = Key::chunk_pieces(number);
        key.add(&piece.to_be_bytes());
        key
    }

    /// What the keys of all plans begin with.
    pub fn plans() -> Key
        ensures { result ≡ plans_prefix }
    {
        Key::tagged(b'P')
    }

    /// The prefix of the keys of all deleted plans.
    pub fn all_retired() -> Key
        ensures { result ≡ retired_prefix }
    {
        Key::tagged(b'D')
    }

    /// What the keys of all loads that were begun begin with.
    pub fn all_begun() -> Key
        ensures { result ≡ begun_prefix }
    {
        Key::tagged(b'L')
    }

    /// What the keys of the parts of all revisions begin with.
    pub fn parts() -> Key
        ensures { result ≡ parts_prefix }
    {
        Key::tagged(b'R')
    }

    /// What the keys of the parts of all revisions of a plan begin with.
    pub fn plan_parts(plan: u64) -> Key
        ensures { result ≡ plan_parts_prefix plan }
    {
        Key::numbered(b'R', plan)
    }

    /// What the keys of the parts of a revision begin with.
    pub fn revision(plan: u64, revision: u32) -> Key
        ensures { result ≡ revision_prefix plan revision }
    {
        let mut key = Key::numbered(b'R', plan);
        key.add(&revision.to_be_bytes());
        key
    }

    /// What the keys of all rows of a load begin with.
    pub fn load(load: u64) -> Key
        ensures { result ≡ load_prefix load }
    {
        Key::numbered(b'g', load)
    }

    /// What the keys of the blocks of a load begin with.
    pub fn blocks(load: u64) -> Key
        ensures { result ≡ blocks_prefix load }
    {
        let mut key = Key::load(load);
        key.add(b"b");
        key
    }

    /// What the keys of the pairs of a load begin with.
    pub fn pairs(load: u64) -> Key
        ensures { result ≡ pairs_prefix load }
    {
        let mut key = Key::load(load);
        key.add(b"p");
        key
    }

    /// What the keys of all chunks begin with.
    pub fn chunks() -> Key
        ensures { result ≡ chunks_prefix }
    {
        Key::tagged(b'k')
    }

    /// What the keys of the pieces of a chunk begin with.
    pub fn chunk_pieces(number: u64) -> Key
        ensures { result ≡ chunk_prefix number }
    {
        Key::numbered(b'k', number)
    }
}
