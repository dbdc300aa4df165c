//! The arguments that the program is given, and what is printed if they ask for nothing.
ghost use Rattle.std.specs.Prelude.{◌≡◌, ◌<◌, ◌++◌, OnOk};
ghost use Rattle.file_commands.specs.Quotes.{all_escaped, hex_digit as digit_of};

use crate::faults::explain_line;
use command_line::words::Mistake;
use command_output::noting::LastLineWriter;
use command_output::status::Status;
use std::alloc::{AllocError, Global};
use std::env;
use std::env::Env;
use std::io::{ErrorKind, Write};
use std::str::from_utf8;

/// How many bytes Linux hands a program as one argument at most, with the one that ends it.
const LONGEST: usize = 131_072;

/// A digit of base 16.
fn hex_digit(number: u8) -> u8
    requires { number < 16 }
    ensures { result ≡ digit_of number }
{
    if number < 10 {
        b'0' + number
    } else {
        b'a' + (number - 10)
    }
}

/// Puts the bytes of an argument after a text, those that aren't printable in hexadecimal.
fn put_escaped(text: &mut Vec<u8>, bytes: &[u8]) -> Result<(), AllocError>
    ensures { OnOk result (text.new.items ≡ text.old.items ++ all_escaped bytes.now) }
{
    for byte in bytes {
        if byte.is_ascii_graphic() || *byte == b' ' {
            text.push(*byte)?;
        } else {
            text.extend_from_slice(&[b'\\', b'x', hex_digit(*byte / 16), hex_digit(*byte % 16)])?;
        }
    }
    Ok(())
}

/// What is printed of an argument that isn't UTF-8.
fn bad_word_text(alloc: Global, bytes: &[u8]) -> Result<Vec<u8>, AllocError> {
    let mut text = Vec::new(alloc);
    text.extend_from_slice(b"error: the argument '")?;
    put_escaped(&mut text, bytes)?;
    text.extend_from_slice(
        b"' is not valid UTF-8\n\nplandesk opens only files whose paths are UTF-8. Rename the file, or make a link to it: ln -s OLD NEW\n",
    )?;
    Ok(text)
}

/// Prints which argument isn't UTF-8, as far as that can be written.
fn tell_bad_word(rt: &HostRuntime) -> Result<(), AllocError> {
    let mut buffer = vec![in rt.alloc(); 0u8; LONGEST]?;
    for i in 0..usize::MAX {
        let Ok(length) = rt.arg(i, buffer.as_mut_slice()) else {
            return Ok(());
        };
        let bytes = &buffer.as_slice()[..length];
        if from_utf8(bytes).is_err() {
            let text = bad_word_text(rt.alloc(), bytes)?;
            let _ = rt.stderr().write_all(text.as_slice());
            return Ok(());
        }
    }
    Ok(())
}

/// The arguments of the command line, the program's name first. If one isn't UTF-8, it is named on standard error.
pub fn all_words(rt: &HostRuntime) -> Result<Vec<String>, Status> {
    match env::args(rt) {
        Ok(words) => {
            let mut all = Vec::new(rt.alloc());
            for word in words {
                if all.push(word).is_err() {
                    return Err(Status::Memory);
                }
            }
            Ok(all)
        }
        Err(e) => {
            if e.kind() == ErrorKind::OutOfMemory {
                return Err(Status::Memory);
            }
            match tell_bad_word(rt) {
                Ok(()) => Err(Status::Usage),
                Err(_) => Err(Status::Memory),
            }
        }
    }
}

/// Tells a text on standard error, as far as that can be written.
fn tell<E: Write>(errors: &mut E, text: &str) {
    let _ = errors.write_all(text.as_bytes());
}

/// Tells why nothing is done: help and the version on standard output, and what is wrong on standard error.
pub fn end_mistake(rt: &HostRuntime, mistake: &Mistake) -> Status {
    match mistake.status() {
        Status::Done => {
            let mut output = rt.stdout();
            match output.write_all(mistake.text().as_bytes()) {
                Ok(()) => Status::Done,
                Err(_) => Status::Stream,
            }
        }
        status => {
            let mut errors = LastLineWriter::new(rt.stderr());
            tell(&mut errors, mistake.text());
            explain_line(rt, &errors, false, &[], None);
            status
        }
    }
}
