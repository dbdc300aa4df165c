//! A node that is read once from a page, edited in place, and written once.
use crate::ends::{copy_ends, cut_at, insert_end, remove_end, resize_end};
use crate::entry::{copy_body, key_in, move_bytes, put_body, put_entry, value_in};
use crate::scan::{NotANode, scan};
use crate::sizes::{BODY_SIZE, KEY_LIMIT, PAGE_SIZE, PageBytes};
use std::cmp::Ordering;
use std::marker::Model;

/// A node with room for one entry more than a page has.
#[derive(Drop)]
pub struct NodeBuf {
    bytes: [u8; 5200],
    /// Where the first k entries end.
    ends: [u16; 1366],
    count: usize,
    level: u8,
}

impl Model for NodeBuf {
    ghost use Rattle.page_btree_node.specs.claim.Node.{Node};
    ghost use Rattle.page_btree_node.specs.Held.{node_code, held_node, IsHeld};

    ghost Value = { Node };

    ghost coded = { node_code };

    ghost view = { λ b. held_node b.level b.count b.bytes };

    ghost invariant = { λ b. IsHeld b.level b.count b.ends b.bytes };
}

impl NodeBuf {
    ghost use Rattle.std.specs.Prelude.{◌≡◌, ◌≤◌, ◌<◌, ◌+◌, ◌↔◌, [], length, take, insert};
    ghost use Rattle.std.specs.Prelude.{remove, slice_set, IsTrue};
    ghost use Rattle.page_btree_node.specs.Entries.{key_at, value_at, child_in};
    ghost use Rattle.page_btree_node.specs.claim.Entries.{size_of};
    ghost use Rattle.page_btree_node.specs.claim.Node.{IsNode, IsShape, Fits};
    ghost use Rattle.page_btree_node.specs.Node.{bytes_of};
    ghost use Rattle.page_btree_node.specs.Held.{SplitsInto, MayTake, ReadsNode, FindsKey, IsValueAt};

    /// A leaf without entries. It is a constant, because the result of a function would be copied.
    pub const EMPTY: NodeBuf = NodeBuf {
        bytes: [0; 5200],
        ends: [4; 1366],
        count: 0,
        level: 0,
    };

    /// Makes it a node of a level, without entries.
    pub fn clear(&mut self, level: u8)
        requires { level ≤ 5 }
        ensures { self.new ≡ record { level = level; entries = [] } }
    {
        self.level = level;
        self.count = 0;
    }

    /// Reads the node in a page. If the page holds none, the buffer is a leaf without entries.
    pub fn read(&mut self, page: &PageBytes) -> Result<(), NotANode>
        ensures { ReadsNode page.now self.new result }
    {
        match scan(page, &mut self.ends) {
            Some(count) => {
                self.bytes[..PAGE_SIZE].copy_from_slice(page);
                self.count = count;
                self.level = page[0];
                Ok(())
            }
            None => {
                self.level = 0;
                self.count = 0;
                Err(NotANode)
            }
        }
    }

    /// Its level, 0 for a leaf.
    pub fn level(&self) -> u8
        ensures level { result ≡ self.now.level }
        ensures shape { IsShape self.now }
    {
        self.level
    }

    /// How many entries it has.
    pub fn len(&self) -> usize
        ensures len { result ≡ length self.now.entries }
        ensures shape { IsShape self.now }
    {
        self.count
    }

    /// Whether it has no entries.
    pub fn is_empty(&self) -> bool
        ensures { IsTrue result ↔ (self.now.entries ≡ []) }
    {
        self.count == 0
    }

    /// How many bytes its entries take. A page has room for 4,092.
    pub fn size(&self) -> usize
        ensures size { result ≡ size_of self.now.entries }
        ensures room { result ≤ 5191 }
    {
        self.ends[self.count] as usize - 4
    }

    /// Whether its entries have no room in a page.
    pub fn overflows(&self) -> bool
        ensures { IsTrue result ↔ (4092 < size_of self.now.entries) }
    {
        self.size() > BODY_SIZE
    }

    /// Finds a key where keys rise: its place, or that which it would have.
    #[tactic(auto, using(crate::proofs::Laws::above_middle, crate::proofs::Laws::below_middle))]
    pub fn find(&self, key: &[u8]) -> Result<usize, usize>
        ensures { FindsKey key.now self.now.entries result }
    {
        let mut low = 0;
        let mut high = self.count;
        while low < high {
            let middle = low + (high - low) / 2;
            match self.key(middle).cmp(key) {
                Ordering::Less => low = middle + 1,
                Ordering::Greater => high = middle,
                Ordering::Equal => return Ok(middle),
            }
        }
        Err(low)
    }

    /// The key of an entry.
    pub fn key(&self, i: usize) -> &[u8]
        requires { i < length self.now.entries }
        ensures key { result.now ≡ key_at self.now.entries i }
        ensures short { length result.now ≤ 72 }
    {
        key_in(&self.bytes, self.ends[i] as usize)
    }

    /// The value of an entry.
    pub fn value(&self, i: usize) -> &[u8]
        requires { i < length self.now.entries }
        ensures { IsValueAt self.now i result.now }
    {
        value_in(&self.bytes, self.ends[i] as usize)
    }

    /// The page of a child.
    pub fn child(&self, i: usize) -> u32
        requires inner { 0 < self.now.level }
        requires within { i < length self.now.entries }
        ensures { result ≡ child_in (value_at self.now.entries i) }
    {
        let value = self.value(i);
        u32::from_be_bytes([value[0], value[1], value[2], value[3]])
    }

    /// Puts an entry before the one at a place. The node may then overflow, and it is to be split.
    pub fn insert(&mut self, i: usize, key: &[u8], value: &[u8])
        requires takes { MayTake self.old value.now }
        requires within { i ≤ length self.old.entries }
        requires key { length key.now ≤ 72 }
        ensures { self.new ≡ record self.old { entries = insert self.old.entries i (key.now, value.now) } }
    {
        let used = self.ends[self.count] as usize;
        let at = self.ends[i] as usize;
        let size = 3 + key.len() + value.len();
        move_bytes(&mut self.bytes, at, used, at + size);
        put_entry(&mut self.bytes, at, key, value);
        insert_end(&mut self.ends, i, self.count, size as u16);
        self.count += 1;
    }

    /// Replaces the value of an entry. The node may then overflow, and it is to be split.
    pub fn replace(&mut self, i: usize, value: &[u8])
        requires takes { MayTake self.old value.now }
        requires within { i < length self.old.entries }
        ensures { self.new ≡ record self.old { entries = slice_set self.old.entries i (key_at self.old.entries i, value.now) } }
    {
        let mut key = [0; KEY_LIMIT];
        let length = self.copy_key(i, &mut key);
        self.set_entry(i, &key[..length], value);
    }

    /// Copies the key of an entry and returns its length.
    fn copy_key(&self, i: usize, key: &mut [u8; KEY_LIMIT]) -> usize
        requires { i < length self.now.entries }
        ensures short { result ≤ 72 }
        ensures key { take result key.new ≡ key_at self.now.entries i }
    {
        let held = self.key(i);
        key[..held.len()].copy_from_slice(held);
        held.len()
    }

    /// Replaces an entry.
    fn set_entry(&mut self, i: usize, key: &[u8], value: &[u8])
        requires takes { MayTake self.old value.now }
        requires within { i < length self.old.entries }
        requires key { length key.now ≤ 72 }
        ensures { self.new ≡ record self.old { entries = slice_set self.old.entries i (key.now, value.now) } }
    {
        let used = self.ends[self.count] as usize;
        let at = self.ends[i] as usize;
        let end = self.ends[i + 1] as usize;
        let new_end = at + 3 + key.len() + value.len();
        move_bytes(&mut self.bytes, end, used, new_end);
        put_entry(&mut self.bytes, at, key, value);
        resize_end(
            &mut self.ends,
            i,
            self.count,
            (end - at) as u16,
            (new_end - at) as u16,
        );
    }

    /// Removes an entry.
    pub fn remove(&mut self, i: usize)
        requires { i < length self.old.entries }
        ensures { self.new ≡ record self.old { entries = remove self.old.entries i } }
    {
        let used = self.ends[self.count] as usize;
        let at = self.ends[i] as usize;
        let end = self.ends[i + 1] as usize;
        move_bytes(&mut self.bytes, end, used, at);
        remove_end(&mut self.ends, i, self.count, (end - at) as u16);
        self.count -= 1;
    }

    /// Moves the upper entries to another buffer, so that both fit and neither is empty. If the
    /// added entry is the last, it moves by itself, so rising keys fill their pages; otherwise the
    /// node is cut at the first end at or past half its bytes.
    pub fn split(&mut self, added: usize, right: &mut NodeBuf)
        requires { 2198 < size_of self.old.entries }
        ensures { SplitsInto self.old self.new right.new added }
    {
        let used = self.ends[self.count] as usize;
        let cut = cut_at(&self.ends, self.count, added);
        let start = self.ends[cut] as usize;
        copy_body(&self.bytes, start, used, &mut right.bytes);
        copy_ends(&self.ends, cut, self.count, &mut right.ends);
        right.count = self.count - cut;
        right.level = self.level;
        self.count = cut;
    }

    /// Writes the page of the node.
    pub fn write(&self, page: &mut PageBytes)
        requires { Fits self.now }
        ensures bytes { page.new ≡ bytes_of self.now }
        ensures node { IsNode page.new self.now }
    {
        let used = self.ends[self.count] as usize;
        page[0] = self.level;
        page[1] = 0;
        page[2] = (self.count / 256) as u8;
        page[3] = (self.count % 256) as u8;
        put_body(page, &self.bytes, used);
    }
}
