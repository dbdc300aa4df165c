//! Pages on a device.
ghost use Rattle.std.specs.Prelude.{◌≡◌, ◌<◌, false, length, OnOk, IfOk, IfErr};
ghost use Rattle.sector_device.specs.claim.Disk.{Touches, Nowhere};
ghost use Rattle.gate_journal.specs.claim.Contents.{content, disk_of, page_count, is_halted, HasShapeOf};
ghost use Rattle.page_store.specs.Chain.{IsMeta};
ghost use Rattle.page_store.specs.Lending.{AreHeld};
ghost use Rattle.page_store.specs.Openings.{MetaErr};

use crate::txn::Txn;
use gate_journal::{Journal, PageError, PageWrites, word_at};
use sector_device::{SECTOR_SIZE, Sector, SectorDevice};
use std::alloc::Global;

/// Pages after a journal. Page 0 is the meta page, and the others are free or in use.
#[derive(Drop)]
pub struct Pages<D: SectorDevice> {
    pub(crate) journal: Journal<D>,
    pub(crate) root: u32,
    /// The first free page, and how many are free.
    pub(crate) first: u32,
    pub(crate) free: u32,
    /// The numbers of the pages that are held, 0 for none, and the bytes of each, as they are stored.
    pub(crate) numbers: [u32; 16],
    held: Vec<Sector>,
    ghost places: { length held.items ≡ 16 },
    ghost root_below: { root < page_count journal },
    ghost first_below: { first < page_count journal },
    ghost free_below: { free < page_count journal },
    ghost meta: { is_halted journal ≡ false → (disk_of journal).is_honest → IsMeta (content journal) root first free },
    ghost held_are: { is_halted journal ≡ false → (disk_of journal).is_honest → AreHeld numbers held.items (content journal) },
}

/// What the meta page says.
#[derive(Clone, Copy, Drop)]
struct Meta {
    root: u32,
    first: u32,
    free: u32,
}

/// Reads the meta page.
fn read_meta<D: SectorDevice>(journal: &mut Journal<D>) -> Result<Meta, PageError>
    requires { 0 < page_count journal.old }
    ensures shape { HasShapeOf journal.old journal.new }
    ensures quiet { (disk_of journal.new).is_honest → is_halted journal.old ≡ false → Touches Nowhere (disk_of journal.old) (disk_of journal.new) }
    ensures honest { (disk_of journal.new).is_honest → (disk_of journal.old).is_honest }
    ensures same { (disk_of journal.new).is_honest → content journal.new ≡ content journal.old }
    ensures below { IfOk result (λ meta. (meta.root < page_count journal.old)
        × (meta.first < page_count journal.old) × (meta.free < page_count journal.old)) }
    ensures meta { (disk_of journal.new).is_honest → IfOk result (λ meta. IsMeta (content journal.old) meta.root meta.first meta.free) }
    ensures working { OnOk result (is_halted journal.new ≡ false) }
    ensures passed { (disk_of journal.new).is_honest → OnOk result ((disk_of journal.new).faults ≡ (disk_of journal.old).faults) }
    ensures err { IfErr result (λ e. MetaErr journal.old journal.new e) }
{
    let mut page = [0; SECTOR_SIZE];
    journal.read_page(0, &mut page)?;
    let meta = Meta {
        root: word_at(&page, 0),
        first: word_at(&page, 1),
        free: word_at(&page, 2),
    };
    let count = journal.page_count();
    if meta.root >= count || meta.first >= count || meta.free >= count {
        return Err(PageError::NotAStore);
    }
    Ok(meta)
}

impl<D: SectorDevice> Pages<D> {
    ghost use Rattle.std.specs.Prelude.{◌≡◌, ◌≢◌, ◌≤◌, ◌<◌, ◌%◌, false, length, OnOk, IfOk, IfErr};
    ghost use Rattle.sector_device.specs.claim.Moments.{LeavesOnly};
    ghost use Rattle.gate_journal.specs.Recovery.{HasRoom, AllStores, ReadsAs, Found};
    ghost use Rattle.page_store.specs.claim.Chain.{free_in, IsPages};
    ghost use Rattle.page_store.specs.Openings.{AllPageStores};
    ghost use Rattle.page_store.specs.Lent.{held_at, held_number, lent_bytes};
    ghost use Rattle.page_store.specs.claim.Transactions.{stored, disk_in, device_in, count_of, journal_of, has_halted};
    ghost use Rattle.page_store.specs.claim.Transactions.{IsKept, ReadErr, device_after};
    ghost use Rattle.page_store.specs.Reading.{ReadsOnly};
    ghost use Rattle.page_store.specs.Transactions.{IsUntouched, OpenErr};
    ghost use Rattle.page_store.specs.Calls.{BeginsOver};

    /// Opens the pages on a device, as `Journal::open` does. A refusal returns the device. `Memory`
    /// means no room for the pages cached in memory; it comes only if the device holds a store.
    pub fn open(alloc: Global, device: D) -> Result<Pages<D>, (PageError, D)>
        ensures sectors { (D.disk (device_after result)).sectors ≡ (D.disk device).sectors }
        ensures honest { (D.disk (device_after result)).is_honest → (D.disk device).is_honest }
        ensures any_moment { (D.disk (device_after result)).is_honest → AllStores (D.disk device)
            → LeavesOnly (ReadsAs (D.disk device)) (D.disk device) (D.disk (device_after result)) }
        ensures working { IfOk result (λ ps. has_halted ps ≡ false) }
        ensures room { IfOk result (λ ps. HasRoom (D.disk device).sectors (journal_of ps) (count_of ps)) }
        ensures found { IfOk result (λ ps. (disk_in ps).is_honest → Found (journal_of ps) (count_of ps) (D.disk device) (disk_in ps)) }
        ensures kept { IfOk result (λ ps. (disk_in ps).is_honest → IsKept ps) }
        ensures sound { IfOk result (λ ps. (disk_in ps).is_honest → AllPageStores (D.disk device) → IsPages (count_of ps) (stored ps)) }
        ensures passed { (D.disk (device_after result)).is_honest → OnOk result ((D.disk (device_after result)).faults ≡ (D.disk device).faults) }
        ensures faults { (D.disk (device_after result)).is_honest → (D.disk device).faults ≤ (D.disk (device_after result)).faults }
        ensures calm { IfErr result (λ e. (D.disk e.1).is_honest → e.0 ≢ PageError.DeviceFault → (D.disk e.1).faults ≡ (D.disk device).faults) }
        ensures err { IfErr result (λ e. OpenErr D.SectorDevice device e.1 e.0) }
        ensures untouched { IfErr result (λ e. (D.disk e.1).is_honest → e.0 ≡ PageError.NotAStore → IsUntouched (D.disk device) (D.disk e.1)) }
    {
        let mut journal = match Journal::open(device) {
            Ok(journal) => journal,
            Err((e, device)) => return Err((e, device)),
        };
        let held = match vec![in alloc; [0; SECTOR_SIZE]; 16] {
            Ok(held) => held,
            Err(_) => return Err((PageError::Memory, journal.into_device())),
        };
        match read_meta(&mut journal) {
            Ok(meta) => Ok(Pages {
                journal,
                root: meta.root,
                first: meta.first,
                free: meta.free,
                numbers: [0; 16],
                held,
            }),
            Err(e) => Err((e, journal.into_device())),
        }
    }

    /// How many pages are free.
    #[tactic(auto, using(crate::proofs::Chains::length_chain))]
    pub fn free_pages(&self) -> u32
        ensures { has_halted self.now ≡ false → (disk_in self.now).is_honest → result ≡ length (free_in (stored self.now)) }
    {
        self.free
    }

    /// How many pages a commit may write.
    pub fn journal_pages(&self) -> u32
        ensures { result ≡ journal_of self.now }
    {
        self.journal.journal_pages()
    }

    /// Whether the device has failed since the opening.
    pub fn is_halted(&self) -> bool
        ensures { result ≡ has_halted self.now }
    {
        self.journal.is_halted()
    }

    /// Gives the device back.
    pub fn into_device(self) -> D
        ensures { result ≡ device_in self }
    {
        let Pages {
            journal,
            root: _,
            first: _,
            free: _,
            numbers: _,
            held: _,
        } = self;
        journal.into_device()
    }

    /// Begins a transaction, which reads the pages as they are.
    pub fn begin(&self, alloc: Global) -> Txn
        ensures { BeginsOver self.now result }
    {
        Txn {
            writes: PageWrites::empty(alloc),
            pages: self.journal.page_count(),
            root: self.root,
            first: self.first,
            free: self.free,
        }
    }

    /// Reads a page as it is stored.
    pub(crate) fn read_stored(&mut self, p: u32, page: &mut Sector) -> Result<(), PageError>
        requires { p < count_of self.old }
        ensures reading { ReadsOnly (ReadErr self.old self.new) self.old self.new result }
        ensures reads { (disk_in self.new).is_honest → OnOk result (page.new ≡ stored self.old p) }
    {
        self.journal.read_page(p, page)?;
        Ok(())
    }

    /// Makes sure that a page is held at a place, as it is stored.
    pub(crate) fn hold(&mut self, p: u32, place: usize) -> Result<(), PageError>
        requires page { p < count_of self.old }
        requires place { place < 16 }
        ensures reading { ReadsOnly (ReadErr self.old self.new) self.old self.new result }
        ensures holds { (disk_in self.new).is_honest → OnOk result (held_at self.new place ≡ stored self.old p) }
    {
        if self.journal.is_halted() {
            return Err(PageError::Halted);
        }
        if p != 0 && self.numbers[place] == p {
            return Ok(());
        }
        self.numbers[place] = 0;
        self.journal.read_page(p, &mut self.held[place])?;
        self.numbers[place] = p;
        Ok(())
    }

    /// The number of the page that is held at a place, 0 for none. Whoever lends it there reads nothing.
    pub fn held_page(&self, place: usize) -> u32
        ensures { result ≡ held_number self.now (place % 16) }
    {
        self.numbers[place % 16]
    }

    /// The bytes of a page that a transaction lent: those of its own write, or those that are held at the page's place.
    pub fn lent<'a>(&'a self, own: Option<&'a Sector>, place: usize) -> &'a Sector
        ensures { result.now ≡ lent_bytes self.now own.entry place }
    {
        match own {
            Some(bytes) => bytes,
            None => &self.held[place % 16],
        }
    }
}
