//! How far the keys of a leaf that was found reach.
ghost use Rattle.std.specs.Prelude.{◌≡◌, ◌<◌, ◌≤◌, ℕ, List, length, Some, None, IfOk, OnOk, OnErr};
ghost use Rattle.page_btree_node.specs.claim.Node.{Node, IsNode};
ghost use Rattle.page_btree_node.specs.Places.{ceiling};
ghost use Rattle.page_btree_node.specs.Searching.{RisesAfter};
ghost use Rattle.page_btree_gets.specs.claim.Keys.{IsUnder};
ghost use Rattle.page_btree_gets.specs.Getting.{IsChild, NoChild};
ghost use Rattle.page_btree_gets.specs.Leading.{end_of};

use page_btree_node::{KEY_LIMIT, NotANode, PageBytes, way_for};
use std::marker::Model;

/// A key of at most 72 bytes, held in place, so that it takes no memory.
#[derive(Drop)]
pub struct KeyBytes {
    bytes: [u8; KEY_LIMIT],
    length: usize,
}

impl Model for KeyBytes {
    ghost use Rattle.std.specs.Prelude.{◌≤◌, ℕ, List, take};

    ghost Value = { List ℕ };

    ghost view = { λ b. take b.length b.bytes };

    ghost invariant = { λ b. b.length ≤ 72 };
}

impl KeyBytes {
    ghost use Rattle.std.specs.Prelude.{◌≡◌, ◌≤◌, [], length};

    /// No bytes.
    pub fn empty() -> Self
        ensures { result ≡ [] }
    {
        KeyBytes {
            bytes: [0; KEY_LIMIT],
            length: 0,
        }
    }

    /// The bytes.
    pub fn as_slice(&self) -> &[u8]
        ensures bytes { result.now ≡ self.now }
        ensures short { length result.now ≤ 72 }
    {
        &self.bytes[..self.length]
    }

    /// Holds another key in place of its own.
    pub fn set(&mut self, key: &[u8])
        requires { length key.now ≤ 72 }
        ensures { self.new ≡ key.now }
    {
        self.bytes[..key.len()].copy_from_slice(key);
        self.length = key.len();
    }
}

/// Up to which key the keys belong to a leaf that was found, from the one on that was looked for.
#[derive(Drop)]
pub struct Reach {
    /// Whether other leaves follow.
    pub bounded: bool,
    /// Where they do, this key and those after it belong to them.
    pub bound: KeyBytes,
}

impl Reach {
    ghost use Rattle.std.specs.Prelude.{◌≡◌, false, []};

    /// No end is known.
    pub fn open() -> Self
        ensures { end_of result ≡ None }
    {
        Reach {
            bounded: false,
            bound: KeyBytes::empty(),
        }
    }

    /// Ends at a key, or before it.
    #[tactic(auto, using(crate::proofs::Rows::less_from, page_btree_node::proofs::Laws::less_trans, page_btree_node::proofs::Laws::is_less, page_btree_node::proofs::Laws::not_below))]
    fn end_at(&mut self, bound: &[u8])
        requires short { length bound.now ≤ 72 }
        ensures here { (key : List ℕ) → IsUnder key (end_of self.new) → IsUnder key (Some bound.now) }
        ensures nearer { (key : List ℕ) → IsUnder key (end_of self.new) → IsUnder key (end_of self.old) }
    {
        if self.bounded && self.bound.as_slice().cmp(bound).is_lt() {
            return;
        }
        self.bound.set(bound);
        self.bounded = true;
    }
}

/// The child that a key belongs to, in a page whose keys rise after the first. The reach ends where the keys of the child do, or
/// before.
pub(crate) fn child_within(page: &PageBytes, key: &[u8], reach: &mut Reach) -> Result<u32, NotANode>
    ensures child { IfOk result (λ child. IsChild page.now key.now child) }
    ensures within { (node : Node) → IsNode page.now node → RisesAfter node.entries
        → OnOk result ((other : List ℕ) → IsUnder other (end_of reach.new) → IsUnder other (ceiling key.now node.entries)) }
    ensures nearer { (other : List ℕ) → IsUnder other (end_of reach.new) → IsUnder other (end_of reach.old) }
    ensures err { OnErr result (NoChild page.now key.now) }
{
    let way = way_for(page, key)?;
    if let Some(bound) = way.bound {
        reach.end_at(bound);
    }
    Ok(way.child)
}
