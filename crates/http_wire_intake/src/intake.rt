//! A reader, the bytes that have come from it, and the turns that are left.
ghost use Rattle.std.specs.Prelude.{◌≡◌, ◌+◌, ◌<◌, ◌≤◌, length, drop, OnOk};
ghost use Rattle.http_wire_intake.specs.Body.{Fills};
ghost use Rattle.http_wire_intake.specs.Draws.{SameParts, DrawsOnly};

use crate::fault::WireFault;
use crate::read_buffer::ReadBuffer;
use byte_stream::source::Source;

/// A reader, the bytes that have come from it and belong to nothing yet, and the turns of reading that are left.
#[derive(Drop)]
pub struct Intake<'a, R> {
    pub reader: &'a mut R,
    pub read_buffer: &'a mut ReadBuffer,
    pub turns: &'a mut u64,
}

impl<'a, R: Source> Intake<'a, R> {
    /// The bytes that have come.
    pub fn held(&self) -> &[u8]
        ensures { result.now ≡ self.now.read_buffer.now }
    {
        self.read_buffer.as_slice()
    }

    /// Takes the first n bytes away.
    pub fn consume(&mut self, n: usize)
        requires { n ≤ length self.old.read_buffer.now }
        ensures same { SameParts self.old self.new }
        ensures reader { self.new.reader.now ≡ self.old.reader.now }
        ensures turns { self.new.turns.now ≡ self.old.turns.now }
        ensures read_buffer { self.new.read_buffer.now ≡ drop n self.old.read_buffer.now }
    {
        self.read_buffer.consume(n);
    }

    /// One turn of the reader. Answers whether it is at its end.
    pub fn fill(&mut self) -> Result<bool, WireFault>
        requires { length self.old.read_buffer.now < 16384 }
        ensures bytes { Fills (R.remaining self.old.reader.now) (R.remaining self.new.reader.now) self.old.read_buffer.now self.new.read_buffer.now result }
        ensures draws { DrawsOnly R.turns R.failures self.old self.new result }
        ensures fewer { OnOk result (self.new.turns.now + 1 ≡ self.old.turns.now) }
    {
        self.read_buffer.fill(self.reader, self.turns)
    }
}
