//! Numbers in decimal with zeros before them.
ghost use Rattle.std.specs.Prelude.{◌≡◌, ◌≤◌, ◌++◌, length, take, drop, replicate, OnOk};
ghost use Rattle.desk_model.specs.claim.Padded.{padded_decimal};

use itoa::write_digits;
use std::alloc::AllocError;
use std::marker::Model;

/// Room for the longest number, 20 digits, and for as many zeros as a caller may ask for.
const ROOM: usize = 24;

/// Writes a number of at least `width` digits so that it ends at `end`, in a row of zeros, and
/// returns its start.
pub fn write_padded(row: &mut [u8], end: usize, number: u64, width: usize) -> usize
    requires room { (20 ≤ end) × (end ≤ length row.old) }
    requires narrow { width ≤ end }
    requires zeros { take end row.old ≡ replicate end 48 }
    ensures start { result ≤ end }
    ensures written { drop result row.new ≡ padded_decimal width number ++ drop end row.old }
    ensures zeros { take result row.new ≡ replicate result 48 }
{
    let start = write_digits(number, row, end);
    if start <= end - width {
        start
    } else {
        end - width
    }
}

/// A number of at least `width` digits, with leading zeros. It takes no memory.
#[derive(Drop)]
pub struct Padded {
    cells: [u8; 24],
    start: usize,
}

impl Model for Padded {
    ghost use Rattle.std.specs.Prelude.{List, ℕ, ◌≤◌, drop};

    ghost Value = { List ℕ };

    ghost view = { λ a. drop a.start a.cells };

    ghost invariant = { λ a. a.start ≤ 24 };
}

impl Padded {
    /// The number with zeros before it, up to `width` digits.
    pub fn new(number: u64, width: usize) -> Padded
        requires { width ≤ 24 }
        ensures { result ≡ padded_decimal width number }
    {
        let mut cells = [b'0'; 24];
        let start = write_padded(&mut cells, ROOM, number, width);
        Padded { cells, start }
    }

    pub fn as_slice(&self) -> &[u8]
        ensures { result.now ≡ self.now }
    {
        &self.cells[self.start..]
    }
}

/// Appends a number of at least `width` digits.
pub fn push_padded(text: &mut Vec<u8>, number: u64, width: usize) -> Result<(), AllocError>
    requires { width ≤ 24 }
    ensures { OnOk result (text.new.items ≡ text.old.items ++ padded_decimal width number) }
{
    text.extend_from_slice(Padded::new(number, width).as_slice())?;
    Ok(())
}
