//! Where a row lies, and where the next ones do.
ghost use Rattle.std.specs.Prelude.{◌≡◌, ◌≤◌, ◌+◌};

use page_btree::Lengths;

/// The place of a row in a leaf's page: its key, followed by its value.
#[derive(Clone, Copy, Drop)]
pub struct Parts {
    pub(crate) key: usize,
    pub(crate) value: usize,
    pub(crate) end: usize,
    ghost key_first: { key ≤ value },
    ghost value_first: { value ≤ end },
    ghost within: { end ≤ 4096 },
    ghost key_short: { value ≤ key + 72 },
    ghost value_short: { end ≤ value + 1024 },
}

/// The place of a scan within its leaf, for a loop over the rows of the leaf.
#[derive(Drop)]
pub struct ScanPlace {
    pub(crate) at: usize,
    pub(crate) left: usize,
    pub(crate) last: Lengths,
}

impl ScanPlace {
    /// Returns the number of rows ahead that are known to be under the prefix.
    pub fn left(&self) -> usize
        ensures { result ≡ self.now.left }
    {
        self.left
    }
}
