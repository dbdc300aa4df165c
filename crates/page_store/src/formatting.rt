//! How pages are made on a device.
ghost use Rattle.std.specs.Prelude.{◌≡◌, ◌≢◌, ◌≤◌, ◌<◌, ◌+◌, ◌-◌, ℕ, length, OnOk, OnErr, IfOk};
ghost use Rattle.sector_device.specs.claim.Disk.{Image};
ghost use Rattle.gate_journal.specs.Store.{IsWithin, IsSettled};
ghost use Rattle.gate_journal.specs.claim.Store.{overlay, put, home};
ghost use Rattle.gate_journal.specs.Recovery.{HasRoom};
ghost use Rattle.gate_journal.specs.claim.Writes.{writes_of};
ghost use Rattle.gate_journal.specs.Writes.{room_of};
ghost use Rattle.page_store.specs.Chain.{IsMeta};
ghost use Rattle.page_store.specs.New.{AreLinked, next_of, IsNew, IsNewWith, IsLinked, Links, FormatErr};
ghost use Rattle.page_store.specs.Formats.{FormatsDevice, IsJournalSize, IsPageBatch};

use gate_journal::{Layout, PageError, PageWrites, commit_on, has_room, set_word};
use sector_device::{DeviceFault, SECTOR_SIZE, Sector, SectorDevice};
use std::alloc::Global;

/// How many pages are linked by one commit.
const BATCH: u32 = 256;

/// Gives a page its bytes, where there is room.
fn put_in_room(writes: &mut PageWrites, page: u32, bytes: &Sector)
    requires { length (writes_of writes.old) < room_of writes.old }
    ensures written { (P : Image) (p : ℕ) → overlay (writes_of writes.new) P p ≡ put (page, bytes.now) (overlay (writes_of writes.old) P) p }
    ensures within { (n : ℕ) → page < n → IsWithin (writes_of writes.old) n → IsWithin (writes_of writes.new) n }
    ensures more { length (writes_of writes.new) ≤ length (writes_of writes.old) + 1 }
    ensures room { room_of writes.old ≤ room_of writes.new }
{
    let _ = writes.put(page, bytes);
}

/// The free page after one, or 0 after the last.
fn next_page(pages: u32, page: u32) -> u32
    requires { page < pages }
    ensures { result ≡ next_of pages page }
{
    if page + 1 < pages { page + 1 } else { 0 }
}

/// Writes the links of some pages, and nothing else. It takes no memory.
fn link_pages(writes: &mut PageWrites, pages: u32, from: u32, to: u32)
    requires order { from ≤ to }
    requires few { to ≤ from + 256 }
    requires below { to ≤ pages }
    requires room { 256 ≤ room_of writes.old }
    ensures batch { IsPageBatch 256 pages writes.new }
    ensures linked { (P : Image) → AreLinked pages (overlay (writes_of writes.new) P) from to }
    ensures others { (P : Image) (q : ℕ) → q < from → overlay (writes_of writes.new) P q ≡ P q }
{
    writes.clear();
    let mut link = [0; SECTOR_SIZE];
    for p in from..to {
        set_word(&mut link, 0, next_page(pages, p));
        put_in_room(writes, p, &link);
    }
}

/// The page before which a batch ends.
fn batch_end(pages: u32, from: u32) -> u32
    requires { from < pages }
    ensures order { from ≤ result }
    ensures few { result ≤ from + 256 }
    ensures below { result ≤ pages }
    ensures all { (q : ℕ) → q < from + 256 → q < pages → q < result }
{
    if pages - from < BATCH {
        pages
    } else {
        from + BATCH
    }
}

/// Links some pages by a commit. It takes no memory.
fn link_batch<D: SectorDevice>(
    device: &mut D,
    layout: Layout,
    writes: &mut PageWrites,
    from: u32,
) -> Result<(), DeviceFault>
    requires journal { 256 ≤ layout.journal_pages }
    requires room { home layout.journal_pages + layout.pages ≤ (D.disk device.old).sectors }
    requires below { from < layout.pages }
    requires settled { (D.disk device.old).is_honest → IsSettled layout.journal_pages layout.pages (D.disk device.old) }
    requires capacity { 256 ≤ room_of writes.old }
    ensures sectors { (D.disk device.new).sectors ≡ (D.disk device.old).sectors }
    ensures honest { (D.disk device.new).is_honest → (D.disk device.old).is_honest }
    ensures model { (D.disk device.new).is_honest → OnOk result
        (Links layout.journal_pages layout.pages from (D.disk device.old) (D.disk device.new)) }
    ensures fault { (D.disk device.new).is_honest → OnErr result ((D.disk device.old).faults < (D.disk device.new).faults) }
    ensures capacity { 256 ≤ room_of writes.new }
{
    let to = batch_end(layout.pages, from);
    link_pages(writes, layout.pages, from, to);
    commit_on(device, layout, writes)
}

/// A new store whose pages are linked, and room for its last commit.
#[derive(Drop)]
struct Linked {
    layout: Layout,
    writes: PageWrites,
}

/// Makes a device a store whose pages are linked from page 1 on, with a meta page yet to be written. All memory is taken before the
/// first write.
fn link_all<D: SectorDevice>(
    alloc: Global,
    device: &mut D,
    journal_pages: u32,
) -> Result<Linked, PageError>
    requires { IsJournalSize journal_pages }
    ensures formats { FormatsDevice D.SectorDevice journal_pages (FormatErr D.SectorDevice journal_pages device.old device.new) device.old device.new result }
    ensures linked { (D.disk device.new).is_honest → IfOk result (λ made. IsLinked made.layout.journal_pages made.layout.pages (D.disk device.new)) }
    ensures layout { IfOk result (λ made. (made.layout.journal_pages ≡ journal_pages)
        × HasRoom (D.disk device.old).sectors made.layout.journal_pages made.layout.pages) }
    ensures room { IfOk result (λ made. 256 ≤ room_of made.writes) }
{
    if !has_room(device.count(), journal_pages) {
        return Err(PageError::TooSmall);
    }
    let mut writes = PageWrites::new(alloc)?;
    let layout = gate_journal::format(device, journal_pages)?;
    for batch in 0..(layout.pages + 254) / 256 {
        link_batch(device, layout, &mut writes, 1 + 256 * batch)?;
    }
    Ok(Linked { layout, writes })
}

/// Writes the meta page of a new store, and nothing else: each page after the root is free. It takes no memory.
fn put_meta(writes: &mut PageWrites, pages: u32, root: u32)
    requires some { root + 1 < pages }
    requires room { 256 ≤ room_of writes.old }
    ensures batch { IsPageBatch 1 pages writes.new }
    ensures meta { (P : Image) → IsMeta (overlay (writes_of writes.new) P) root (root + 1) (pages - 1 - root) }
    ensures others { (P : Image) (q : ℕ) → q ≢ 0 → overlay (writes_of writes.new) P q ≡ P q }
{
    writes.clear();
    let mut meta = [0; SECTOR_SIZE];
    set_word(&mut meta, 0, root);
    set_word(&mut meta, 1, root + 1);
    set_word(&mut meta, 2, pages - 1 - root);
    put_in_room(writes, 0, &meta);
}

/// Makes a device a store with pages: page 0 names no root, and each other page is free. All memory is taken before the
/// first write. A stop before the end isn't covered: the device is formatted again.
pub fn format<D: SectorDevice>(
    alloc: Global,
    device: &mut D,
    journal_pages: u32,
) -> Result<(), PageError>
    requires { IsJournalSize journal_pages }
    ensures formats { FormatsDevice D.SectorDevice journal_pages (FormatErr D.SectorDevice journal_pages device.old device.new) device.old device.new result }
    ensures new { (D.disk device.new).is_honest → OnOk result (IsNew journal_pages (D.disk device.new)) }
{
    let mut made = link_all(alloc, device, journal_pages)?;
    put_meta(&mut made.writes, made.layout.pages, 0);
    commit_on(device, made.layout, &made.writes)?;
    Ok(())
}

/// The same with these bytes on page 1, which is the root.
pub fn format_with<D: SectorDevice>(
    alloc: Global,
    device: &mut D,
    journal_pages: u32,
    root: &Sector,
) -> Result<(), PageError>
    requires { IsJournalSize journal_pages }
    ensures formats { FormatsDevice D.SectorDevice journal_pages (FormatErr D.SectorDevice journal_pages device.old device.new) device.old device.new result }
    ensures new { (D.disk device.new).is_honest → OnOk result (IsNewWith journal_pages root.now (D.disk device.new)) }
{
    let mut made = link_all(alloc, device, journal_pages)?;
    put_meta(&mut made.writes, made.layout.pages, 1);
    put_in_room(&mut made.writes, 1, root);
    commit_on(device, made.layout, &made.writes)?;
    Ok(())
}
