//! Values of rows.
ghost use Rattle.std.specs.Prelude.{◌≡◌, ◌<◌, ◌^◌, ℕ, length, Option, MatchOption};
ghost use Rattle.desk_store_rows.specs.declared.value.Counters.{Counters as CountersValue};
ghost use Rattle.desk_store_rows.specs.declared.value.StoredPlan.{StoredPlan as PlanValue};
ghost use Rattle.desk_store_rows.specs.declared.value.SealRow.{SealRow as SealValue};
ghost use Rattle.desk_store_rows.specs.declared.value.HolderCount.{HolderCount as HolderCountValue};
ghost use Rattle.desk_model.specs.declared.kind.Kind.{Kind as KindValue};
ghost use Rattle.desk_model.specs.declared.block.BlockRow.{BlockRow as BlockValue};
ghost use Rattle.desk_store_rows.specs.claim.Keys.{in_two, in_four, in_eight};
ghost use Rattle.desk_store_rows.specs.claim.Values.{counters_bytes, plan_bytes, seal_bytes, block_bytes, pair_bytes, kind_code, city_bytes};
ghost use Rattle.desk_store_rows.specs.Values.{holder_count_bytes};

use byteorder::{BigEndian, ByteOrder};
use desk_model::block::{BlockId, BlockRow};
use desk_model::kind::Kind;

/// The numbers that the next plan, chunk and load get.
#[derive(Clone, Copy)]
pub struct Counters {
    pub plan: u64,
    pub chunk: u64,
    pub load: u64,
}

/// The value under a plan's name.
#[derive(Clone, Copy)]
pub struct StoredPlan {
    pub number: u64,
    pub kind: Kind,
    /// How many districts it has.
    pub districts: u16,
    /// How many revisions it has.
    pub revisions: u32,
}

/// Which load is the geography, and how many blocks and pairs of neighbours it has.
#[derive(Clone, Copy)]
pub struct SealRow {
    pub load: u64,
    pub blocks: u32,
    pub pairs: u32,
}

/// How many plans hold a chunk.
#[derive(Clone, Copy)]
pub struct HolderCount {
    pub plans: u64,
}

/// The value of the row of counters.
pub fn counters_value(counters: &Counters) -> [u8; 24]
    ensures { result ≡ counters_bytes counters.now }
{
    let mut value = [0; 24];
    BigEndian::write_u64(&mut value[..8], counters.plan);
    BigEndian::write_u64(&mut value[8..16], counters.chunk);
    BigEndian::write_u64(&mut value[16..], counters.load);
    value
}

/// The value of a plan's row.
pub fn plan_value(plan: &StoredPlan) -> [u8; 15]
    ensures { result ≡ plan_bytes plan.now }
{
    let mut value = [0; 15];
    BigEndian::write_u64(&mut value[..8], plan.number);
    value[8] = kind_number(plan.kind);
    BigEndian::write_u16(&mut value[9..11], plan.districts);
    BigEndian::write_u32(&mut value[11..], plan.revisions);
    value
}

/// The byte of a kind.
fn kind_number(kind: Kind) -> u8
    ensures { result ≡ kind_code kind }
{
    match kind {
        Kind::Congress => 0,
        Kind::Senate => 1,
        Kind::House => 2,
    }
}

/// The value of the row that counts the plans that hold a chunk.
pub fn holder_count_value(holder_count: &HolderCount) -> [u8; 8]
    ensures { result ≡ holder_count_bytes holder_count.now }
{
    holder_count.plans.to_be_bytes()
}

/// The value of the row that names the geography.
pub fn seal_value(seal: &SealRow) -> [u8; 16]
    ensures { result ≡ seal_bytes seal.now }
{
    let mut value = [0; 16];
    BigEndian::write_u64(&mut value[..8], seal.load);
    BigEndian::write_u32(&mut value[8..12], seal.blocks);
    BigEndian::write_u32(&mut value[12..], seal.pairs);
    value
}

/// The value of a block's row.
pub fn block_value(block: &BlockRow) -> [u8; 17]
    ensures { result ≡ block_bytes block.now }
{
    let mut value = [0; 17];
    BigEndian::write_u64(&mut value[..8], block.id.number());
    value[8..13].copy_from_slice(&city_value(block.city));
    BigEndian::write_u32(&mut value[13..], block.population);
    value
}

/// The bytes of a city or none.
fn city_value(city: Option<u32>) -> [u8; 5]
    ensures { result ≡ city_bytes city }
{
    let mut value = [0; 5];
    if let Some(city) = city {
        value[0] = 1;
        BigEndian::write_u32(&mut value[1..], city);
    }
    value
}

/// The value of the row of a pair of neighbours, given by their places.
pub fn pair_value(pair: (u32, u32)) -> [u8; 8]
    ensures { result ≡ pair_bytes pair }
{
    let mut value = [0; 8];
    BigEndian::write_u32(&mut value[..4], pair.0);
    BigEndian::write_u32(&mut value[4..], pair.1);
    value
}

/// The number of 8 bytes, the highest first.
pub fn eight(bytes: &[u8]) -> u64
    requires { length bytes.now ≡ 8 }
    ensures bytes { in_eight result ≡ bytes.now }
    ensures fits { result < 2 ^ 64 }
{
    BigEndian::read_u64(bytes)
}

/// The number of 4 bytes, the highest first.
pub fn four(bytes: &[u8]) -> u32
    requires { length bytes.now ≡ 4 }
    ensures bytes { in_four result ≡ bytes.now }
    ensures fits { result < 2 ^ 32 }
{
    BigEndian::read_u32(bytes)
}

/// The number of 2 bytes, the highest first.
pub fn two(bytes: &[u8]) -> u16
    requires { length bytes.now ≡ 2 }
    ensures bytes { in_two result ≡ bytes.now }
    ensures fits { result < 2 ^ 16 }
{
    BigEndian::read_u16(bytes)
}

/// The counters that a row's value says; None where it says none.
pub fn read_counters(bytes: &[u8]) -> Option<Counters>
    ensures { MatchOption result ((c : CountersValue) → counters_bytes c ≡ bytes.now → ⊥) (λ c. counters_bytes c ≡ bytes.now) }
{
    if bytes.len() != 24 {
        return None;
    }
    Some(Counters {
        plan: eight(&bytes[..8]),
        chunk: eight(&bytes[8..16]),
        load: eight(&bytes[16..]),
    })
}

/// The kind of a byte.
fn kind_from(byte: u8) -> Option<Kind>
    ensures { MatchOption result ((k : KindValue) → kind_code k ≡ byte → ⊥) (λ k. kind_code k ≡ byte) }
{
    match byte {
        0 => Some(Kind::Congress),
        1 => Some(Kind::Senate),
        2 => Some(Kind::House),
        _ => None,
    }
}

/// What a plan's row says; None where it says no plan.
pub fn read_plan(bytes: &[u8]) -> Option<StoredPlan>
    ensures { MatchOption result ((p : PlanValue) → plan_bytes p ≡ bytes.now → ⊥) (λ p. plan_bytes p ≡ bytes.now) }
{
    if bytes.len() != 15 {
        return None;
    }
    let kind = kind_from(bytes[8])?;
    Some(StoredPlan {
        number: eight(&bytes[..8]),
        kind,
        districts: two(&bytes[9..11]),
        revisions: four(&bytes[11..]),
    })
}

/// What the row says that counts the plans that hold a chunk; None where it says nothing.
pub fn read_holder_count(bytes: &[u8]) -> Option<HolderCount>
    ensures { MatchOption result ((t : HolderCountValue) → holder_count_bytes t ≡ bytes.now → ⊥) (λ t. holder_count_bytes t ≡ bytes.now) }
{
    if bytes.len() != 8 {
        return None;
    }
    Some(HolderCount {
        plans: eight(bytes),
    })
}

/// What the row says that names the geography; None where it says none.
pub fn read_seal(bytes: &[u8]) -> Option<SealRow>
    ensures { MatchOption result ((s : SealValue) → seal_bytes s ≡ bytes.now → ⊥) (λ s. seal_bytes s ≡ bytes.now) }
{
    if bytes.len() != 16 {
        return None;
    }
    Some(SealRow {
        load: eight(&bytes[..8]),
        blocks: four(&bytes[8..12]),
        pairs: four(&bytes[12..]),
    })
}

/// The city or none that 5 bytes say.
fn city_from(bytes: &[u8]) -> Option<Option<u32>>
    requires { length bytes.now ≡ 5 }
    ensures { MatchOption result ((c : Option ℕ) → city_bytes c ≡ bytes.now → ⊥) (λ c. city_bytes c ≡ bytes.now) }
{
    let code = four(&bytes[1..]);
    match bytes[0] {
        0 if code == 0 => Some(None),
        1 => Some(Some(code)),
        _ => None,
    }
}

/// The block of a row; None where it says none.
pub fn read_block(bytes: &[u8]) -> Option<BlockRow>
    ensures { MatchOption result ((b : BlockValue) → b.id < 10 ^ 15 → block_bytes b ≡ bytes.now → ⊥) (λ b. block_bytes b ≡ bytes.now) }
{
    if bytes.len() != 17 {
        return None;
    }
    let number = eight(&bytes[..8]);
    if number >= 1_000_000_000_000_000 {
        return None;
    }
    let city = city_from(&bytes[8..13])?;
    Some(BlockRow {
        id: BlockId::from_number(number),
        city,
        population: four(&bytes[13..]),
    })
}

/// The places of the pair of a row; None where it says none.
pub fn read_pair(bytes: &[u8]) -> Option<(u32, u32)>
    ensures { MatchOption result ((a b : ℕ) → pair_bytes (a, b) ≡ bytes.now → ⊥) (λ p. pair_bytes p ≡ bytes.now) }
{
    if bytes.len() != 8 {
        return None;
    }
    Some((four(&bytes[..4]), four(&bytes[4..])))
}
