//! Transactions over pages.
ghost use Rattle.std.specs.Prelude.{◌<◌, ◌≡◌};
ghost use Rattle.sector_device.specs.claim.Disk.{Image};
ghost use Rattle.gate_journal.specs.Store.{IsWithin};
ghost use Rattle.gate_journal.specs.claim.Store.{overlay};
ghost use Rattle.gate_journal.specs.claim.Writes.{writes_of};
ghost use Rattle.page_store.specs.claim.Chain.{is_blank};
ghost use Rattle.page_store.specs.Chain.{IsMeta};

use crate::pages::Pages;
use gate_journal::{PageError, PageWrites, set_word, word_at};
use sector_device::{SECTOR_SIZE, Sector, SectorDevice};

/// Whether a page has no bytes but those of a link, as a free one has. Each is looked at, without a branch.
pub fn is_blank_page(page: &Sector) -> bool
    ensures { result ≡ is_blank page.now }
{
    let mut blank = true;
    for k in 1..SECTOR_SIZE / 4 {
        blank &= word_at(page, k) == 0;
    }
    blank
}

/// New pages over those of a store. Dropping it changes nothing.
#[derive(Drop)]
pub struct Txn {
    pub(crate) writes: PageWrites,
    pub(crate) pages: u32,
    pub(crate) root: u32,
    pub(crate) first: u32,
    pub(crate) free: u32,
    ghost within: { IsWithin (writes_of writes) pages },
    ghost root_below: { root < pages },
    ghost first_below: { first < pages },
    ghost free_below: { free < pages },
}

/// A transaction with its meta page, ready to be committed. Dropping it changes nothing.
#[derive(Drop)]
pub struct Prepared {
    writes: PageWrites,
    pages: u32,
    root: u32,
    first: u32,
    free: u32,
    ghost within: { IsWithin (writes_of writes) pages },
    ghost root_below: { root < pages },
    ghost first_below: { first < pages },
    ghost free_below: { free < pages },
    ghost meta: { (P : Image) → IsMeta (overlay (writes_of writes) P) root first free },
}

impl Txn {
    ghost use Rattle.page_store.specs.Calls.{TakesPage, Prepares, SetsRoot};
    ghost use Rattle.std.specs.Prelude.{◌≡◌, ◌≢◌, ◌<◌, ◌+◌, ◌∷◌, ℕ, length, OnOk, IfOk, IfErr, MatchResult};
    ghost use Rattle.sector_device.specs.claim.Disk.{Image};
    ghost use Rattle.std.specs.Fn.{FnOnceReturnsAtMut};
    ghost use Rattle.gate_journal.specs.claim.Store.{put};
    ghost use Rattle.page_store.specs.claim.Chain.{IsIn, AreFree};
    ghost use Rattle.page_store.specs.claim.Transactions.{stored, disk_in, count_of, txn_pages};
    ghost use Rattle.page_store.specs.claim.Transactions.{txn_writes, txn_root, txn_free};
    ghost use Rattle.page_store.specs.Transactions.{IsWritten, txn_first};
    ghost use Rattle.page_store.specs.claim.Transactions.{over, free_over, ReadErr, TakeErr};
    ghost use Rattle.page_store.specs.Reading.{ReadsOnly};
    ghost use Rattle.page_store.specs.Transactions.{GiveErr};
    ghost use Rattle.page_store.specs.Outcomes.{EditsPage, TellsNextFree, KeepsRoot, WritesPage};
    ghost use Rattle.gate_journal.specs.declared.error.PageError.TheVariants.{Memory};
    ghost use Rattle.page_store.specs.Lent.{lent_bytes};

    /// Reads a page, its own write before the stored one. The pages are those that began it.
    #[tactic(auto, using(gate_journal::proofs::Images::overlay_off))]
    pub fn read<D: SectorDevice>(
        &self,
        pages: &mut Pages<D>,
        p: u32,
        page: &mut Sector,
    ) -> Result<(), PageError>
        requires begun { txn_pages self.now ≡ count_of pages.old }
        requires page { p < count_of pages.old }
        ensures reading { ReadsOnly (ReadErr pages.old pages.new) pages.old pages.new result }
        ensures reads { (disk_in pages.new).is_honest → OnOk result (page.new ≡ over self.now (stored pages.old) p) }
    {
        if let Some(bytes) = self.writes.get(p) {
            *page = *bytes;
            return Ok(());
        }
        pages.read_stored(p, page)
    }

    /// Lends a page as `read` would read it, at one of 16 places. `Pages::lent` shows the bytes where they lie, until another page
    /// is lent at that place.
    #[inline(always)]
    #[tactic(auto, using(gate_journal::proofs::Images::overlay_off))]
    pub fn lend<'t, D: SectorDevice>(
        &'t self,
        pages: &mut Pages<D>,
        p: u32,
        place: usize,
    ) -> Result<Option<&'t Sector>, PageError>
        requires begun { txn_pages self.now ≡ count_of pages.old }
        requires page { p < count_of pages.old }
        ensures reading { ReadsOnly (ReadErr pages.old pages.new) pages.old pages.new result }
        ensures lends { (disk_in pages.new).is_honest → IfOk result (λ own. lent_bytes pages.new own place ≡ over self.now (stored pages.old) p) }
    {
        if let Some(bytes) = self.writes.get(p) {
            return Ok(Some(bytes));
        }
        pages.hold(p, place % 16)?;
        Ok(None)
    }

    /// Writes a page.
    pub fn write(&mut self, p: u32, bytes: &Sector) -> Result<(), PageError>
        requires { p < txn_pages self.old }
        ensures page { WritesPage p self.old self.new result }
        ensures written { OnOk result ((P : Image) (q : ℕ) → over self.new P q ≡ put (p, bytes.now) (over self.old P) q) }
        ensures free { OnOk result ((P : Image) (n : ℕ) → AreFree n (free_over self.old P) → (IsIn p (free_over self.old P) → ⊥)
            → free_over self.new P ≡ free_over self.old P) }
        ensures err { IfErr result (λ e. e ≡ Memory) }
        ensures count { txn_free self.new ≡ txn_free self.old }
    {
        self.writes.put(p, bytes)?;
        Ok(())
    }

    /// Applies `change` in place to a page that the transaction writes and returns its result;
    /// `None` if it does not write the page.
    pub fn edit<R, F: FnOnce(&mut Sector) -> R>(&mut self, p: u32, change: F) -> Option<R>
        requires { F.IsAlwaysCallable change }
        ensures rooted { KeepsRoot self.old self.new }
        ensures first { txn_first self.new ≡ txn_first self.old }
        ensures count { txn_free self.new ≡ txn_free self.old }
        ensures writes { txn_writes self.new ≡ txn_writes self.old }
        ensures edited { EditsPage (FnOnceReturnsAtMut F.FnOnce change) p self.old self.new result }
        ensures free { (P : Image) (n : ℕ) → AreFree n (free_over self.old P) → (IsIn p (free_over self.old P) → ⊥)
            → free_over self.new P ≡ free_over self.old P }
        ensures noted { (q : ℕ) → IsWritten self.old q → IsWritten self.new q }
    {
        self.writes.edit(p, change)
    }

    /// The free page after the first, or 0 where there is none. A first one with other bytes than those of a link isn't free.
    fn next_free<D: SectorDevice>(&self, pages: &mut Pages<D>) -> Result<u32, PageError>
        requires begun { txn_pages self.now ≡ count_of pages.old }
        requires some { 0 < txn_free self.now }
        ensures reading { ReadsOnly (TakeErr self.now pages.old pages.new) pages.old pages.new result }
        ensures below { IfOk result (λ next. next < txn_pages self.now) }
        ensures next { TellsNextFree self.now pages.old pages.new result }
    {
        let mut page = [0; SECTOR_SIZE];
        self.read(pages, self.first, &mut page)?;
        if !is_blank_page(&page) {
            return Err(PageError::NotAStore);
        }
        if self.free == 1 {
            return Ok(0);
        }
        let next = word_at(&page, 0);
        if next >= self.pages {
            return Err(PageError::NotAStore);
        }
        Ok(next)
    }

    /// Takes a free page. What it holds is for the caller to write.
    pub fn take_page<D: SectorDevice>(&mut self, pages: &mut Pages<D>) -> Result<u32, PageError>
        requires { txn_pages self.old ≡ count_of pages.old }
        ensures { TakesPage self.old self.new pages.old pages.new result }
    {
        if self.free == 0 {
            return Err(PageError::NoPages);
        }
        let next = self.next_free(pages)?;
        let taken = self.first;
        self.first = next;
        self.free -= 1;
        Ok(taken)
    }

    /// Gives a page back, which is one of the store's, in use, and not page 0. `NotAStore` comes only where more pages are
    /// free than a store has.
    pub fn give_page(&mut self, p: u32) -> Result<(), PageError>
        requires { p < txn_pages self.old }
        ensures page { WritesPage p self.old self.new result }
        ensures over { OnOk result ((P : Image) (q : ℕ) → q ≢ p → over self.new P q ≡ over self.old P q) }
        ensures given { OnOk result ((P : Image) (n : ℕ) → AreFree n (free_over self.old P) → (IsIn p (free_over self.old P) → ⊥)
            → free_over self.new P ≡ p ∷ free_over self.old P) }
        ensures err { IfErr result (λ e. GiveErr self.old p e) }
        ensures count { MatchResult result (λ _. txn_free self.new ≡ txn_free self.old + 1) (λ _. txn_free self.new ≡ txn_free self.old) }
    {
        if self.free + 1 >= self.pages {
            return Err(PageError::NotAStore);
        }
        let mut link = [0; SECTOR_SIZE];
        set_word(&mut link, 0, self.first);
        self.writes.put(p, &link)?;
        self.first = p;
        self.free += 1;
        Ok(())
    }

    /// Makes the meta page, and every growth that the commit needs.
    pub fn prepare(self) -> Result<Prepared, PageError>
        ensures { Prepares self result }
    {
        let Txn {
            mut writes,
            pages,
            root,
            first,
            free,
        } = self;
        let mut meta = [0; SECTOR_SIZE];
        set_word(&mut meta, 0, root);
        set_word(&mut meta, 1, first);
        set_word(&mut meta, 2, free);
        writes.put(0, &meta)?;
        Ok(Prepared {
            writes,
            pages,
            root,
            first,
            free,
        })
    }

    /// How many pages the store has.
    pub fn page_count(&self) -> u32
        ensures { result ≡ txn_pages self.now }
    {
        self.pages
    }

    /// Returns the root that the meta page will name. Page 0 means no root.
    pub fn root(&self) -> u32
        ensures root { result ≡ txn_root self.now }
        ensures below { result < txn_pages self.now }
    {
        self.root
    }

    /// Sets the root.
    pub fn set_root(&mut self, root: u32)
        requires { root < txn_pages self.old }
        ensures { SetsRoot self.old self.new root }
    {
        self.root = root;
    }

    /// How many pages are free in this transaction.
    #[tactic(auto, using(crate::proofs::Chains::length_chain))]
    pub fn free_pages(&self) -> u32
        ensures { (P : Image) → result ≡ length (free_over self.now P) }
    {
        self.free
    }

    /// Ends the transaction, with nothing changed.
    pub fn abandon(self) {}
}

impl Prepared {
    ghost use Rattle.page_store.specs.Calls.{CommitsPrepared};
    ghost use Rattle.std.specs.Prelude.{◌≡◌};
    ghost use Rattle.page_store.specs.claim.Transactions.{count_of, prepared_pages};

    /// Writes the pages, all or none of them. It takes no memory.
    pub fn commit<D: SectorDevice>(self, pages: &mut Pages<D>) -> Result<(), PageError>
        requires { prepared_pages self ≡ count_of pages.old }
        ensures { CommitsPrepared self pages.old pages.new result }
    {
        pages.numbers = [0; 16];
        pages.journal.commit(&self.writes)?;
        pages.root = self.root;
        pages.first = self.first;
        pages.free = self.free;
        Ok(())
    }
}
