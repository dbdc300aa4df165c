//! The pages in which leaves are held.
ghost use Rattle.std.specs.Prelude.{◌≤◌};

use page_btree::{PAGE_SIZE, PageBytes};

/// The pages of a leaf and of those that were read with it, and which of them is the leaf's.
#[derive(Drop)]
pub(crate) struct HeldLeaves {
    pub(crate) pages: [PageBytes; 4],
    pub(crate) which: usize,
    ghost fits: { which ≤ 3 },
}

impl HeldLeaves {
    ghost use Rattle.std.specs.Prelude.{◌≡◌};
    ghost use Rattle.btree_scan.specs.Parts.{page_of};

    /// No leaf's pages.
    pub(crate) fn empty() -> Self {
        HeldLeaves {
            pages: [[0; PAGE_SIZE]; 4],
            which: 0,
        }
    }

    /// The leaf's page.
    pub(crate) fn page(&self) -> &PageBytes
        ensures { result.now ≡ page_of self.now }
    {
        &self.pages[self.which]
    }
}
