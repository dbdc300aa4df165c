//! A writer of which the last line is known.
ghost use Rattle.std.specs.Prelude.{◌≤◌};

use std::io;
use std::io::Write;

/// How much of a line is kept: no line of a fault is longer.
const KEPT: usize = 96;

/// The line that was written last, as far as there is room for it.
#[derive(Drop)]
struct LastLine {
    bytes: [u8; KEPT],
    length: usize,
    is_whole: bool,
    ghost within: { length ≤ 96 },
}

impl LastLine {
    fn new() -> LastLine {
        LastLine {
            bytes: [0; KEPT],
            length: 0,
            is_whole: false,
        }
    }

    /// One byte more: after a line end it begins another line.
    fn add(&mut self, byte: u8) {
        if self.is_whole {
            self.length = 0;
        }
        self.is_whole = byte == b'\n';
        if self.length < KEPT {
            self.bytes[self.length] = byte;
            self.length += 1;
        }
    }

    fn add_all(&mut self, bytes: &[u8]) {
        for byte in bytes {
            self.add(*byte);
        }
    }
}

/// Any writer, which keeps the line that was written last.
#[derive(Drop)]
pub struct LastLineWriter<W> {
    writer: W,
    last: LastLine,
}

impl<W> LastLineWriter<W> {
    ghost use Rattle.std.specs.Prelude.{◌≡◌};

    pub fn new(writer: W) -> LastLineWriter<W>
        ensures { result.writer ≡ writer }
    {
        LastLineWriter {
            writer,
            last: LastLine::new(),
        }
    }

    /// The line that was written last, or nothing before the first.
    pub fn line(&self) -> &[u8] {
        &self.last.bytes[..self.last.length]
    }

    /// What was written to.
    pub fn into_inner(self) -> W
        ensures { result ≡ self.writer }
    {
        let LastLineWriter { writer, last: _ } = self;
        writer
    }
}

impl<W: Write> Write for LastLineWriter<W> {
    ghost contents = { λ s. W.contents s.writer };

    fn write(&mut self, buf: &[u8]) -> io::Result<usize> {
        match self.writer.write(buf) {
            Ok(n) => {
                self.last.add_all(&buf[..n]);
                Ok(n)
            }
            Err(e) => Err(e),
        }
    }

    fn flush(&mut self) -> io::Result<()> {
        self.writer.flush()
    }
}
