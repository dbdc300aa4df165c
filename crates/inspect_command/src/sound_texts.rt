//! What is printed of a store that is sound.
ghost use Rattle.std.specs.Prelude.{◌≡◌, ◌++◌, decimal, OnOk, IfOk, []};
ghost use Rattle.inspect_command.specs.SoundTexts.{verified_text};

use crate::verifying::Verified;
use itoa::Buffer;
use std::alloc::{AllocError, Global};

/// More bytes than are printed.
const ROOM: usize = 128;

/// A text with room for what is printed.
pub fn room_for_text(alloc: Global) -> Result<Vec<u8>, AllocError>
    ensures { IfOk result (λ text. text.items ≡ []) }
{
    Vec::with_capacity(alloc, ROOM)
}

/// Adds words and a number after them.
fn push_number(text: &mut Vec<u8>, words: &[u8], number: u64) -> Result<(), AllocError>
    ensures { OnOk result (text.new.items ≡ text.old.items ++ (words.now ++ decimal number)) }
{
    let mut digits = Buffer::new();
    text.extend_from_slice(words)?;
    text.extend_from_slice(digits.format(number).as_bytes())
}

/// Adds what is printed to a text.
pub fn put_verified(text: &mut Vec<u8>, found: &Verified) -> Result<(), AllocError>
    ensures { OnOk result (text.new.items ≡ text.old.items ++ verified_text found.now) }
{
    text.extend_from_slice(b"sound yes\n")?;
    push_number(text, b"pages ", found.pages as u64)?;
    push_number(text, b"\nrows ", found.rows)?;
    text.extend_from_slice(b"\n")?;
    Ok(())
}
