//! The zeros of a new file.
ghost use Rattle.std.specs.Prelude.{◌≡◌, ◌*◌, OnOk, replicate};
ghost use Rattle.std.specs.Io.KnownBytes.{Appends};

use sector_device::SECTOR_SIZE;
use std::io;
use std::io::Write;

/// Writes the zeros of this number of sectors.
#[tactic(auto, using(crate::proofs::Zeroed::zeros_none, crate::proofs::Zeroed::zeros_more))]
pub(crate) fn write_zeros<W: Write>(writer: &mut W, sectors: u32) -> io::Result<()>
    ensures { OnOk result (Appends (W.contents writer.old) (W.contents writer.new) (replicate (4096 * sectors) 0)) }
{
    let zeros = [0; SECTOR_SIZE];
    for _ in 0..sectors {
        writer.write_all(&zeros)?;
    }
    Ok(())
}
