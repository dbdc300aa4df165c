//! Names of plans.
ghost use Rattle.std.specs.Prelude.{◌≡◌, ◌≤◌, ◌-◌, ◌++◌, length, replicate, true, refl, Some, nat_eq};
ghost use Rattle.std.specs.List.{list_all};
ghost use Rattle.std.specs.Ordering.{nat_cmp};
ghost use Rattle.std.specs.Cmp.{on_equiv, on_total, on_po, on_per, partial_equiv_from_equiv};
ghost use Rattle.std.specs.Cmp.Lexicographic.{pointwise, slice_cmp, nat_list_eq_equiv, nat_list_cmp_total, texts_po, texts_ties};
ghost use Rattle.desk_model.specs.claim.Name.{IsPlanName, is_name_byte as is_name_byte_of, is_plan_name, plan_name_of};

use key_order::compare;
use std::cmp::Ordering;
use std::marker::Model;
use std::str::from_utf8;

const MAX_LEN: usize = 64;

/// A name of 1 to 64 letters, digits, dots, underscores and dashes.
#[derive(Clone, Copy)]
pub struct PlanName {
    bytes: [u8; 64],
    len: usize,
}

impl Model for PlanName {
    ghost use Rattle.std.specs.Prelude.{List, ℕ, ◌≡◌, ◌≤◌, ◌-◌, ◌++◌, length, take, drop, replicate};
    ghost use Rattle.desk_model.specs.claim.Name.{IsPlanName};
    ghost use Rattle.desk_model.specs.Name.{padded_again, length_again};

    ghost Value = { List ℕ };

    ghost view = { λ a. take a.len a.bytes };

    ghost invariant = { λ a. (a.len ≤ 64) × (length a.bytes ≡ 64) × (drop a.len a.bytes ≡ replicate (64 - a.len) 0) × IsPlanName (take a.len a.bytes) };

    ghost inverse = { λ d. record { bytes = d ++ replicate (64 - length d) 0; len = length d } };

    ghost inverse_ok = { λ a h i. record { bytes = padded_again a.len a.bytes h.0 h.1 h.2 i; len = length_again a.len a.bytes h.0 h.1 i } };
}

fn is_name_byte(b: u8) -> bool
    ensures { result ≡ is_name_byte_of b }
{
    b.is_ascii_alphanumeric() || b == b'.' || b == b'_' || b == b'-'
}

/// The bytes, and zeros after them.
fn padded(bytes: &[u8]) -> [u8; 64]
    requires { length bytes.now ≤ 64 }
    ensures { result ≡ bytes.now ++ replicate (64 - length bytes.now) 0 }
{
    let mut cells = [0u8; 64];
    for (i, b) in bytes.iter().enumerate() {
        cells[i] = *b;
    }
    cells
}

/// Returns whether every byte is allowed in a name.
fn all_name_bytes(bytes: &[u8]) -> bool
    ensures { result ≡ list_all is_name_byte_of bytes.now }
{
    bytes.iter().all(|b| is_name_byte(*b))
}

fn is_name(bytes: &[u8]) -> bool
    ensures test { result ≡ is_plan_name bytes.now }
    ensures short { result ≡ true → length bytes.now ≤ 64 }
{
    if bytes.is_empty() || bytes.len() > MAX_LEN {
        return false;
    }
    all_name_bytes(bytes)
}

impl PlanName {
    /// The name that the bytes spell.
    pub fn read(bytes: &[u8]) -> Option<PlanName>
        ensures { result ≡ plan_name_of bytes.now }
    {
        if !is_name(bytes) {
            return None;
        }
        Some(PlanName {
            bytes: padded(bytes),
            len: bytes.len(),
        })
    }

    pub fn as_slice(&self) -> &[u8]
        ensures value { result.now ≡ self.now }
        ensures valid { IsPlanName self.now }
        ensures short { length self.now ≤ 64 }
    {
        &self.bytes[..self.len]
    }

    /// The name as text.
    pub fn as_str(&self) -> &str
        ensures { result.now ≡ self.now }
    {
        match from_utf8(self.as_slice()) {
            Ok(text) => text,
            Err(_) => unreachable!(),
        }
    }
}

impl PartialEq for PlanName {
    ghost eq = { λ s t. pointwise nat_eq s t };

    ghost laws = { on_per (λ s. s) (partial_equiv_from_equiv nat_list_eq_equiv) };

    fn eq(&self, other: &Self) -> bool {
        self.as_slice() == other.as_slice()
    }
}

impl Eq for PlanName {
    ghost laws = { on_equiv (λ s. s) nat_list_eq_equiv };
}

impl PartialOrd for PlanName {
    ghost partial_cmp = { λ s t. Some (slice_cmp nat_cmp s t) };

    ghost laws = { on_po (λ s. s) texts_po };

    fn partial_cmp(&self, other: &Self) -> Option<Ordering> {
        Some(self.cmp(other))
    }
}

impl Ord for PlanName {
    ghost cmp = { λ s t. slice_cmp nat_cmp s t };

    ghost total = { on_total (λ s. s) nat_list_cmp_total };

    ghost matches_partial_cmp = { λ s t. refl };

    ghost matches_eq = { λ s t. texts_ties s t };

    fn cmp(&self, other: &Self) -> Ordering {
        compare(self.as_slice(), other.as_slice())
    }
}
