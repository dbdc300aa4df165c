//! What is printed of a store.
ghost use Rattle.std.specs.Prelude.{◌≡◌, ◌≤◌, ◌+◌, ◌++◌, length, decimal, vec_capacity, vec_len, OnOk, IfOk};
ghost use Rattle.store_command.specs.Texts.{number_after, formatted_end, formatted_text as text_of_store, loaded_text as text_of_geography, rows_text, size_line as line_of_size};

use audit_report::total;
use desk_model::geography::Geography;
use itoa::Buffer;
use std::alloc::{AllocError, Global};

/// Room for what is printed of a number of rows, in bytes.
pub const ROOM: usize = 64;

/// A text in which there is such room, so that what is printed after the work takes no memory.
pub fn room_for_text(alloc: Global) -> Result<Vec<u8>, AllocError>
    ensures { IfOk result (λ text. ROOM ≤ vec_capacity text) }
{
    Vec::with_capacity(alloc, ROOM)
}

/// Appends words.
pub fn add(text: &mut Vec<u8>, words: &[u8])
    requires room { ROOM ≤ vec_capacity text.old }
    requires short { vec_len text.old + length words.now ≤ ROOM }
    ensures items { text.new.items ≡ text.old.items ++ words.now }
    ensures len { vec_len text.new ≡ vec_len text.old + length words.now }
    ensures room { ROOM ≤ vec_capacity text.new }
{
    let _ = text.extend_from_slice(words);
}

/// Appends a number.
pub fn add_number(text: &mut Vec<u8>, number: u64)
    requires room { ROOM ≤ vec_capacity text.old }
    requires short { vec_len text.old + 20 ≤ ROOM }
    ensures items { text.new.items ≡ text.old.items ++ decimal number }
    ensures len { vec_len text.new ≤ vec_len text.old + 20 }
    ensures room { ROOM ≤ vec_capacity text.new }
{
    let mut digits = Buffer::new();
    add(text, digits.format(number).as_bytes());
}

/// Replaces the text by the line of a number of rows.
pub fn put_rows(text: &mut Vec<u8>, words: &[u8], rows: u64)
    requires room { ROOM ≤ vec_capacity text.old }
    requires short { length words.now + 26 ≤ ROOM }
    ensures { text.new.items ≡ rows_text words.now rows }
{
    text.clear();
    add(text, words);
    add_number(text, rows);
    add(text, b" rows\n");
}

/// Adds words and a number after them.
fn push_number(text: &mut Vec<u8>, words: &[u8], number: u64) -> Result<(), AllocError>
    ensures { OnOk result (text.new.items ≡ text.old.items ++ number_after words.now number) }
{
    let mut digits = Buffer::new();
    text.extend_from_slice(words)?;
    text.extend_from_slice(digits.format(number).as_bytes())
}

/// Adds the end of the line of a store that was made, with its bytes where that is asked for.
fn push_end(text: &mut Vec<u8>, with_bytes: bool, sectors: u32) -> Result<(), AllocError>
    ensures { OnOk result (text.new.items ≡ text.old.items ++ formatted_end with_bytes sectors) }
{
    if !with_bytes {
        return text.extend_from_slice(b" journal pages\n");
    }
    push_number(text, b" journal pages, ", 4_096 * sectors as u64)?;
    text.extend_from_slice(b" bytes\n")
}

pub fn formatted_text(
    alloc: Global,
    with_bytes: bool,
    sectors: u32,
    journal_pages: u32,
) -> Result<Vec<u8>, AllocError>
    ensures { IfOk result (λ text. text.items ≡ text_of_store with_bytes sectors journal_pages) }
{
    let mut text = Vec::new(alloc);
    push_number(&mut text, b"formatted ", sectors as u64)?;
    push_number(&mut text, b" sectors, ", journal_pages as u64)?;
    push_end(&mut text, with_bytes, sectors)?;
    Ok(text)
}

/// Returns the line printed before a store of this many sectors is made.
pub fn size_line(alloc: Global, sectors: u32) -> Result<Vec<u8>, AllocError>
    ensures { IfOk result (λ text. text.items ≡ line_of_size sectors) }
{
    let mut text = Vec::new(alloc);
    push_number(&mut text, b"plandesk: format: ", 4_096 * sectors as u64)?;
    text.extend_from_slice(b" bytes to write\n")?;
    Ok(text)
}

pub fn loaded_text(alloc: Global, geography: &Geography) -> Result<Vec<u8>, AllocError>
    ensures { IfOk result (λ text. text.items ≡ text_of_geography geography.now) }
{
    let mut text = Vec::new(alloc);
    push_number(&mut text, b"loaded ", geography.blocks().len() as u64)?;
    push_number(&mut text, b" blocks, ", geography.counties().len() as u64)?;
    push_number(&mut text, b" counties, ", total(geography) as u64)?;
    text.extend_from_slice(b" people\n")?;
    Ok(text)
}
