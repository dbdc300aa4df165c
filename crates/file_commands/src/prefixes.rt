//! What a plan's file begins with, which is printed if its first line is not the expected one.
ghost use Rattle.std.specs.Prelude.{◌≡◌, ◌≤◌, ◌++◌, map, IfOk, OnOk};
ghost use Rattle.file_commands.specs.Prefixes.{shown, begins as begins_so, has_comma as comma_in, sort_of, line_prefix, prefix_told};

use byte_stream::source::ReadSource;
use state_files::fault::OpenFault;
use state_files::open::AuditFiles;
use state_files::plan_file::Companion;
use std::alloc::{AllocError, Global};
use std::fs::File;
use std::io;
use std::io::Read;

/// How many bytes are kept.
const KEPT: usize = 20;

/// The first bytes that came, as far as there is room for them.
#[derive(Drop)]
struct Front {
    bytes: [u8; KEPT],
    length: usize,
    ghost within: { length ≤ 20 },
}

impl Front {
    fn new() -> Front {
        Front {
            bytes: [0; KEPT],
            length: 0,
        }
    }

    fn add(&mut self, byte: u8) {
        if self.length < KEPT {
            self.bytes[self.length] = byte;
            self.length += 1;
        }
    }

    fn add_all(&mut self, bytes: &[u8]) {
        if self.length == KEPT {
            return;
        }
        for byte in bytes {
            self.add(*byte);
        }
    }
}

/// A reader of which the first bytes are kept.
#[derive(Drop)]
pub struct Prefixed<R> {
    reader: R,
    first: Front,
}

impl<R> Prefixed<R> {
    pub fn new(reader: R) -> Prefixed<R> {
        Prefixed {
            reader,
            first: Front::new(),
        }
    }

    /// The first bytes that were read.
    pub fn prefix(&self) -> &[u8] {
        &self.first.bytes[..self.first.length]
    }
}

impl<R: Read> Read for Prefixed<R> {
    ghost remaining = { λ s. R.remaining s.reader };

    fn read(&mut self, buf: &mut [u8]) -> io::Result<usize> {
        match self.reader.read(buf) {
            Ok(n) => {
                self.first.add_all(&buf[..n]);
                Ok(n)
            }
            Err(e) => Err(e),
        }
    }
}

fn begins(prefix: &[u8], start: &[u8]) -> bool
    ensures { result ≡ begins_so start.now prefix.now }
{
    prefix.strip_prefix(start).is_some()
}

fn has_comma(prefix: &[u8]) -> bool
    ensures { result ≡ comma_in prefix.now }
{
    for byte in prefix {
        if *byte == b',' {
            return true;
        }
    }
    false
}

/// What a file may be that begins so, in the words after its beginning.
#[tactic(auto, unfolding(crate::specs::Prefixes::sort_of))]
fn sort(prefix: &[u8]) -> &'static [u8]
    ensures { result.now ≡ sort_of prefix.now }
{
    if begins(prefix, b"PK") {
        return b", as a spreadsheet (.xlsx) or another zip file does";
    }
    if begins(prefix, &[31, 139]) {
        return b", as a gzip file does";
    }
    if begins(prefix, &[255, 254]) || begins(prefix, &[254, 255]) {
        return b", as a text in UTF-16 does";
    }
    if begins(prefix, &[239, 187, 191]) {
        return b", as a text with a byte order mark does";
    }
    if has_comma(prefix) {
        return b", with a comma";
    }
    b""
}

/// Puts the bytes after a text, each as it is shown.
pub(crate) fn put_shown(text: &mut Vec<u8>, prefix: &[u8]) -> Result<(), AllocError>
    ensures { OnOk result (text.new.items ≡ text.old.items ++ map shown prefix.now) }
{
    for byte in prefix {
        let is_shown = byte.is_ascii_graphic() || *byte == b' ';
        text.push(if is_shown { *byte } else { b'.' })?;
    }
    Ok(())
}

/// The bytes before the first line end, or all of them.
pub(crate) fn first_line(prefix: &[u8]) -> &[u8]
    ensures { result.now ≡ line_prefix prefix.now }
{
    for (i, byte) in prefix.iter().enumerate() {
        if *byte == b'\n' || *byte == b'\r' {
            return &prefix[..i];
        }
    }
    prefix
}

/// Returns the line that says what a file begins with.
pub fn prefix_line(alloc: Global, prefix: &[u8]) -> Result<Vec<u8>, AllocError>
    ensures { IfOk result (λ text. text.items ≡ prefix_told prefix.now) }
{
    let mut text = Vec::new(alloc);
    if prefix.is_empty() {
        text.extend_from_slice(b"  It is empty.\n")?;
        return Ok(text);
    }
    let line = first_line(prefix);
    text.extend_from_slice(b"  It begins with `")?;
    put_shown(&mut text, line)?;
    text.extend_from_slice(b"`")?;
    text.extend_from_slice(sort(line))?;
    text.extend_from_slice(b".\n")?;
    Ok(text)
}

/// A file of a plan, as it was opened.
type Opened = Result<ReadSource<Prefixed<File>>, OpenFault>;

fn reader_of(opened: Opened) -> Option<Prefixed<File>> {
    match opened {
        Ok(source) => Some(source.into_inner()),
        Err(_) => None,
    }
}

fn reader_beside(
    companion: Option<Companion<ReadSource<Prefixed<File>>>>,
) -> Option<Prefixed<File>> {
    match companion {
        Some(companion) => reader_of(companion.opened),
        None => None,
    }
}

/// Returns the reader of the plan's file if this line reports a fault of its first line.
pub fn faulty_reader(
    line: &[u8],
    files: AuditFiles<ReadSource<Prefixed<File>>>,
) -> Option<Prefixed<File>> {
    let AuditFiles {
        census: _,
        gal: _,
        plan,
        senate,
        congress,
    } = files;
    if line == b"plandesk: plan: B1 line 1\n".as_slice() {
        return reader_of(plan);
    }
    if line == b"plandesk: senate: B1 line 1\n".as_slice() {
        return reader_beside(senate);
    }
    if line == b"plandesk: congress: B1 line 1\n".as_slice() {
        return reader_beside(congress);
    }
    None
}
