//! Numbers in a sector.
ghost use Rattle.std.specs.Prelude.{◌≡◌, ◌≢◌, ◌<◌, ◌≤◌, ◌+◌, ◌^◌, ℕ, length};
ghost use Rattle.gate_journal.specs.claim.Store.{word, put_word, header_of};
ghost use Rattle.gate_journal.specs.Steps.{want};

use crate::layout::Layout;
use sector_device::{SECTOR_SIZE, Sector};

const PLAN: u32 = 0x504c414e;

const DESK: u32 = 0x4445534b;

const VERSION: u32 = 1;

/// The number in the k-th four bytes.
pub fn word_at(sector: &Sector, k: usize) -> u32
    requires { k < 1024 }
    ensures { result ≡ word sector.now k }
{
    let at = 4 * k;
    u32::from_be_bytes([sector[at], sector[at + 1], sector[at + 2], sector[at + 3]])
}

/// Puts a number in the k-th four bytes.
pub fn set_word(sector: &mut Sector, k: usize, n: u32)
    requires { k < 1024 }
    ensures set { word sector.new k ≡ n }
    ensures others { (j : ℕ) → j ≢ k → word sector.new j ≡ word sector.old j }
    ensures bytes { sector.new ≡ put_word sector.old k n }
{
    let at = 4 * k;
    let [a, b, c, d] = n.to_be_bytes();
    sector[at] = a;
    sector[at + 1] = b;
    sector[at + 2] = c;
    sector[at + 3] = d;
}

/// Makes a sector the header of a store.
pub fn fill_header(sector: &mut Sector, layout: Layout)
    ensures { sector.new ≡ header_of layout.journal_pages layout.pages }
{
    *sector = [0; SECTOR_SIZE];
    set_word(sector, 0, PLAN);
    set_word(sector, 1, DESK);
    set_word(sector, 2, VERSION);
    set_word(sector, 3, layout.journal_pages);
    set_word(sector, 4, layout.pages);
}

/// Puts the words of the list into a sector, from one of them on.
pub fn fill_list(sector: &mut Sector, writes: &[(u32, Sector)], from: usize)
    requires few { length writes.now < 2 ^ 32 }
    requires within { from ≤ length writes.now }
    ensures { (j : ℕ) → j < 1024 → from + j ≤ length writes.now → word sector.new j ≡ want writes.now (from + j) }
{
    let left = writes.len() - from;
    let words = if left < 1024 { left + 1 } else { 1024 };
    for j in 0..words {
        let k = from + j;
        let word = if k == 0 {
            writes.len() as u32
        } else {
            writes[k - 1].0
        };
        set_word(sector, j, word);
    }
}
