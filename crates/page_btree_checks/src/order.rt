//! Checks that keys of a node rise within its bounds.
ghost use Rattle.std.specs.Prelude.{◌≡◌, ◌<◌, ◌-◌, ◌^◌, length, true, false};
ghost use Rattle.std.specs.Option.{option_copied};
ghost use Rattle.std.specs.Ordering.{is_gt, is_lt};
ghost use Rattle.page_btree_gets.specs.node.claim.Entries.{child_bytes};
ghost use Rattle.page_btree_gets.specs.node.Entries.{key_at, value_at};
ghost use Rattle.page_btree_gets.specs.node.claim.Places.{key_cmp, Rises};
ghost use Rattle.page_btree_gets.specs.claim.Keys.{IsBetween, IsUnder, Parts};
ghost use Rattle.page_btree_gets.specs.Tests.{IsTest};
ghost use Rattle.page_btree_checks.specs.Order.{lower_of, upper_of, AreRows, AreParts, IsOrdered};

use key_order::compare;
use page_btree_gets::NodeBuf;
use std::cmp::Ordering;

/// Whether a key is above another one.
fn is_above(key: &[u8], other: &[u8]) -> bool
    ensures { result ≡ is_gt (key_cmp key.now other.now) }
{
    match compare(key, other) {
        Ordering::Greater => true,
        _ => false,
    }
}

/// Whether a key is below another one.
fn is_below(key: &[u8], other: &[u8]) -> bool
    ensures { result ≡ is_lt (key_cmp key.now other.now) }
{
    match compare(key, other) {
        Ordering::Less => true,
        _ => false,
    }
}

/// Whether a key is below a bound, or there is none.
fn is_under(key: &[u8], high: Option<&[u8]>) -> bool
    ensures { IsTest result (IsUnder key.now (option_copied high.entry)) }
{
    match high {
        None => true,
        Some(bound) => is_below(key, bound),
    }
}

/// The lower bound of the entry at a place: its key, but for the first.
#[tactic(auto, using(crate::proofs::Keys::lower_first, crate::proofs::Keys::lower_some))]
pub(crate) fn lower<'a>(node: &'a NodeBuf, k: usize, low: &'a [u8]) -> &'a [u8]
    requires { k < length node.now.entries }
    ensures { result.now ≡ lower_of low.now node.now.entries k }
{
    if k == 0 {
        return low;
    }
    node.key(k)
}

/// The upper bound of the entry at a place: the next key, but for the last.
#[tactic(auto, using(crate::proofs::Keys::upper_some, crate::proofs::Keys::upper_last))]
pub(crate) fn upper<'a>(node: &'a NodeBuf, k: usize, high: Option<&'a [u8]>) -> Option<&'a [u8]>
    requires { k < length node.now.entries }
    ensures { option_copied result ≡ upper_of (option_copied high.entry) node.now.entries k }
{
    let count = node.len();
    if k + 1 < count {
        return Some(node.key(k + 1));
    }
    high
}

/// Whether a key is between bounds.
fn is_between(key: &[u8], low: &[u8], high: Option<&[u8]>) -> bool
    ensures { IsTest result (IsBetween low.now (option_copied high.entry) key.now) }
{
    if is_above(low, key) {
        return false;
    }
    is_under(key, high)
}

/// Whether the first and the last key of a node are between bounds.
fn are_ends_between(node: &NodeBuf, low: &[u8], high: Option<&[u8]>) -> bool
    requires { 0 < length node.now.entries }
    ensures first { result ≡ true → IsBetween low.now (option_copied high.entry) (key_at node.now.entries 0) }
    ensures last { result ≡ true → IsBetween low.now (option_copied high.entry) (key_at node.now.entries (length node.now.entries - 1)) }
    ensures no { result ≡ false → IsBetween low.now (option_copied high.entry) (key_at node.now.entries 0)
        → IsBetween low.now (option_copied high.entry) (key_at node.now.entries (length node.now.entries - 1)) → ⊥ }
{
    if !is_between(node.key(0), low, high) {
        return false;
    }
    let last = node.len() - 1;
    is_between(node.key(last), low, high)
}

/// Whether each key of a node is below the next one.
#[tactic(auto, using(crate::proofs::Keys::rises_from, page_btree_node::proofs::Laws::rises_at))]
fn do_rise(node: &NodeBuf) -> bool
    ensures { IsTest result (Rises node.now.entries) }
{
    for k in 1..node.len() {
        if !is_below(node.key(k - 1), node.key(k)) {
            return false;
        }
    }
    true
}

/// Whether a leaf has rows, whose keys rise between bounds: those between the first and the last are then between the bounds too.
#[tactic(auto, using(crate::proofs::Keys::all_at, crate::proofs::Keys::within_ends))]
fn are_rows(node: &NodeBuf, low: &[u8], high: Option<&[u8]>) -> bool
    ensures { IsTest result (AreRows low.now (option_copied high.entry) node.now.entries) }
{
    if node.len() == 0 {
        return false;
    }
    if !are_ends_between(node, low, high) {
        return false;
    }
    do_rise(node)
}

/// Whether the key at a place parts the keys from the one before on, as far as a bound.
fn is_part(node: &NodeBuf, k: usize, low: &[u8], high: Option<&[u8]>) -> bool
    requires some { 0 < k }
    requires within { k < length node.now.entries }
    ensures { IsTest result (Parts (lower_of low.now node.now.entries (k - 1)) (option_copied high.entry) (key_at node.now.entries k)) }
{
    let key = node.key(k);
    if !is_below(lower(node, k - 1, low), key) {
        return false;
    }
    is_under(key, high)
}

/// Whether a node above the leaves has children, whose keys part the bounds in order.
fn are_parts(node: &NodeBuf, low: &[u8], high: Option<&[u8]>) -> bool
    ensures { IsTest result (AreParts low.now (option_copied high.entry) node.now.entries) }
{
    let count = node.len();
    if count == 0 {
        return false;
    }
    for k in 1..count {
        if !is_part(node, k, low, high) {
            return false;
        }
    }
    true
}

/// Whether a node has entries, whose keys rise within bounds.
pub(crate) fn is_ordered(node: &NodeBuf, low: &[u8], high: Option<&[u8]>) -> bool
    ensures { IsTest result (IsOrdered low.now (option_copied high.entry) node.now.level node.now.entries) }
{
    if node.level() == 0 {
        return are_rows(node, low, high);
    }
    are_parts(node, low, high)
}

/// The number of 4 bytes, the highest first.
fn four(bytes: &[u8]) -> u32
    requires { length bytes.now ≡ 4 }
    ensures bytes { child_bytes result ≡ bytes.now }
    ensures fits { result < 2 ^ 32 }
{
    u32::from_be_bytes([bytes[0], bytes[1], bytes[2], bytes[3]])
}

/// The child at a place of a node above the leaves.
pub(crate) fn child_at(node: &NodeBuf, k: usize) -> u32
    requires above { 0 < node.now.level }
    requires within { k < length node.now.entries }
    ensures child { child_bytes result ≡ value_at node.now.entries k }
    ensures fits { result < 2 ^ 32 }
{
    four(node.value(k))
}
