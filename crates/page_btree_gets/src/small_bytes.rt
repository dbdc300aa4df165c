//! A few bytes, held in place.
use page_btree_node::VALUE_LIMIT;
use std::marker::Model;

/// At most 1,024 bytes, held in place, so that they take no memory.
#[derive(Drop)]
pub struct SmallBytes {
    bytes: [u8; VALUE_LIMIT],
    length: usize,
}

impl Model for SmallBytes {
    ghost use Rattle.std.specs.Prelude.{◌≤◌, ℕ, List, take};

    ghost Value = { List ℕ };

    ghost view = { λ b. take b.length b.bytes };

    ghost invariant = { λ b. b.length ≤ 1024 };
}

impl SmallBytes {
    ghost use Rattle.std.specs.Prelude.{◌≡◌, ◌≤◌, [], length};

    /// No bytes.
    pub fn empty() -> Self
        ensures { result ≡ [] }
    {
        SmallBytes {
            bytes: [0; VALUE_LIMIT],
            length: 0,
        }
    }

    /// The bytes.
    pub fn as_slice(&self) -> &[u8]
        ensures bytes { result.now ≡ self.now }
        ensures short { length result.now ≤ 1024 }
    {
        &self.bytes[..self.length]
    }

    /// Holds other bytes in place of its own.
    pub fn set(&mut self, bytes: &[u8])
        requires { length bytes.now ≤ 1024 }
        ensures { self.new ≡ bytes.now }
    {
        self.bytes[..bytes.len()].copy_from_slice(bytes);
        self.length = bytes.len();
    }
}
