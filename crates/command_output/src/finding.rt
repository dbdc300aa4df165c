//! The words for a line, and for a code.
ghost use Rattle.std.specs.Prelude.{◌≡◌, ◌++◌, map, IfOk, OnOk, codes};
ghost use Rattle.std.specs.Option.{option_copied, option_map};
ghost use Rattle.std.specs.Str.{str_eq_ignore_ascii_case};
ghost use Rattle.command_output.specs.Tables.{told, row_words, is_segment_role, is_plan_role, is_command, is_store_command, reason_at, place_at};
ghost use Rattle.command_output.specs.Lines.{rest_after, word_to, row_for, place_words, code_words, line_words, path_among, line_path, named};
ghost use Rattle.command_output.specs.Codes.{code_among as code_in_table, code_at as code_in_tables, code_of_word, prefix_word, begins_word, dotted_word, code_at_front, code_in as code_of_text};
ghost use Rattle.command_output.specs.Entries.{entries_among, entries_in, entries_for, all_among, all_in, all_entries, entries_asked};

use crate::explanation::{
    Explanation, FaultPlace, FaultRow, PLACES, Reason, case_of, explanation_of, name_of, put_entry,
    table_of,
};
use std::alloc::{AllocError, Global};

fn is_segment(role: &[u8]) -> bool
    ensures { result ≡ is_segment_role role.now }
{
    role == b"seg1".as_slice() || role == b"seg2".as_slice() || role == b"seg3".as_slice()
}

fn is_plan(role: &[u8]) -> bool
    ensures { result ≡ is_plan_role role.now }
{
    role == b"plan".as_slice() || role == b"senate".as_slice() || role == b"congress".as_slice()
}

fn is_command(role: &[u8]) -> bool
    ensures { result ≡ is_command role.now }
{
    role == b"check".as_slice()
        || role == b"explain".as_slice()
        || role == b"format".as_slice()
        || role == b"load".as_slice()
        || role == b"migrate".as_slice()
        || role == b"serve".as_slice()
        || role == b"stat".as_slice()
        || role == b"sweep".as_slice()
        || role == b"talk".as_slice()
        || role == b"verify".as_slice()
}

/// Whether it is a command that makes or changes a store and then prints what it did.
fn is_of_store(role: &[u8]) -> bool
    ensures { result ≡ is_store_command role.now }
{
    role == b"format".as_slice()
        || role == b"load".as_slice()
        || role == b"sweep".as_slice()
        || role == b"migrate".as_slice()
}

/// The reason of a fault of a role: such a command had done what it was asked for.
fn reason_of(role: &[u8], reason: Option<Reason>) -> Option<Reason>
    ensures { result ≡ reason_at role.now reason }
{
    if is_of_store(role) {
        return Some(Reason::Stands);
    }
    reason
}

/// Returns whose fault a line reports, by the word after the program's name: a file's role, or a
/// command.
#[tactic(auto, unfolding(crate::specs::Tables::place_at))]
fn place_of(role: &[u8]) -> Option<FaultPlace>
    ensures { result ≡ place_at role.now }
{
    if role == b"geo".as_slice() {
        return Some(FaultPlace::Geo);
    }
    if is_segment(role) {
        return Some(FaultPlace::Segment);
    }
    if role == b"join".as_slice() {
        return Some(FaultPlace::Join);
    }
    if role == b"gal".as_slice() {
        return Some(FaultPlace::Gal);
    }
    if is_plan(role) {
        return Some(FaultPlace::Plan);
    }
    if role == b"store".as_slice() {
        return Some(FaultPlace::Store);
    }
    if role == b"log".as_slice() {
        return Some(FaultPlace::Log);
    }
    if is_command(role) {
        return Some(FaultPlace::Command);
    }
    None
}

/// What a text has after its beginning, where that is this one.
fn after<'a>(text: &'a [u8], start: &[u8]) -> Option<&'a [u8]>
    ensures { option_copied result ≡ rest_after start.now text.now }
{
    text.strip_prefix(start)
}

/// The text before the first of two bytes, or all of it.
fn before(text: &[u8], first: u8, second: u8) -> &[u8]
    ensures { result.now ≡ word_to first second text.now }
{
    for (i, byte) in text.iter().enumerate() {
        if *byte == first || *byte == second {
            return &text[..i];
        }
    }
    text
}

/// What the first of these rows says that is of this code in this case.
fn among(table: &[FaultRow], code: &[u8], case: &str) -> Option<Explanation>
    ensures { option_map told result ≡ row_for code.now case.now (map row_words table.now) }
{
    for row in table {
        if row.0.as_bytes() == code && row.2 == case {
            return Some(explanation_of(row));
        }
    }
    None
}

/// The words of a place for a code, for this reason where there are such.
fn at_place(place: FaultPlace, code: &[u8], reason: Option<Reason>) -> Option<Explanation>
    ensures { option_map told result ≡ place_words place code.now reason }
{
    let table = table_of(place);
    match among(table, code, case_of(reason)) {
        Some(words) => Some(words),
        None => among(table, code, ""),
    }
}

/// The words of a place for the code that a line has after its role.
fn after_role(place: FaultPlace, text: &[u8], reason: Option<Reason>) -> Option<Explanation>
    ensures { option_map told result ≡ code_words place reason (rest_after (codes ": ") text.now) }
{
    let rest = after(text, b": ")?;
    let code = before(rest, b' ', b'\n');
    match at_place(place, code, reason) {
        Some(words) => Some(words),
        None => at_place(FaultPlace::EveryFile, code, None),
    }
}

/// The words for a fault's line, as `plandesk: geo: G1 line 2`: of `geo` and G1. A device's fault has some for its reason.
#[tactic(auto, unfolding(crate::specs::Lines::line_words))]
pub fn explained(line: &[u8], reason: Option<Reason>) -> Option<Explanation>
    ensures { option_map told result ≡ line_words line.now reason }
{
    let rest = after(line, b"plandesk: ")?;
    let role = before(rest, b':', b'\n');
    match place_of(role) {
        Some(place) => after_role(place, after(rest, role)?, reason_of(role, reason)),
        None => at_place(FaultPlace::Command, role, None),
    }
}

/// The path of a role's file.
fn path_of<'a>(role: &[u8], files: &[(&'static str, &'a str)]) -> Option<&'a str>
    ensures { option_copied result ≡ path_among role.now (map named files.now) }
{
    for file in files {
        if file.0.as_bytes() == role {
            return Some(file.1);
        }
    }
    None
}

/// Returns the path of the file whose fault a line reports, among the files of these roles.
#[tactic(auto, unfolding(crate::specs::Lines::line_path))]
pub fn path_in<'a>(line: &[u8], files: &[(&'static str, &'a str)]) -> Option<&'a str>
    ensures { option_copied result ≡ line_path line.now (map named files.now) }
{
    let rest = after(line, b"plandesk: ")?;
    path_of(before(rest, b':', b'\n'), files)
}

/// Whether two words are the same in any case.
fn is_alike(code: &[u8], word: &[u8]) -> bool
    ensures { result ≡ str_eq_ignore_ascii_case code.now word.now }
{
    code.eq_ignore_ascii_case(word)
}

/// The code of a table that a word is.
fn code_among(table: &[FaultRow], word: &[u8]) -> Option<&'static str>
    ensures { option_copied result ≡ code_in_table word.now (map row_words table.now) }
{
    for row in table {
        if is_alike(row.0.as_bytes(), word) {
            return Some(row.0);
        }
    }
    None
}

/// The same of the tables of these places.
fn code_at(places: &[FaultPlace], word: &[u8]) -> Option<&'static str>
    ensures { option_copied result ≡ code_in_tables word.now places.now }
{
    for place in places {
        match code_among(table_of(*place), word) {
            Some(code) => return Some(code),
            None => {}
        }
    }
    None
}

#[tactic(auto, unfolding(crate::specs::Codes::code_of_word))]
fn code_of(word: &[u8]) -> Option<&'static str>
    ensures { option_copied result ≡ code_of_word word.now }
{
    code_at(&PLACES, word)
}

/// The letters and digits at a text's start.
fn prefix_of(text: &[u8]) -> &[u8]
    ensures { result.now ≡ prefix_word text.now }
{
    for (i, byte) in text.iter().enumerate() {
        if !byte.is_ascii_alphanumeric() {
            return &text[..i];
        }
    }
    text
}

/// Whether a text begins with a letter or a digit.
fn begins_with_letter(text: &[u8]) -> bool
    ensures { result ≡ begins_word text.now }
{
    match text.first() {
        Some(byte) => byte.is_ascii_alphanumeric(),
        None => false,
    }
}

/// The letters and digits at a text's start, with dots between them: the name of a test in a report, as `42.4.3`.
fn dotted_of(text: &[u8]) -> &[u8]
    ensures { result.now ≡ dotted_word text.now }
{
    for (i, byte) in text.iter().enumerate() {
        if !byte.is_ascii_alphanumeric() && (*byte != b'.' || !begins_with_letter(&text[i + 1..])) {
            return &text[..i];
        }
    }
    text
}

/// The code at a text's start: that of its first word with dots, or otherwise of the part before the first dot.
#[tactic(auto, unfolding(crate::specs::Codes::code_at_front))]
fn code_in_front(text: &[u8]) -> Option<&'static str>
    ensures { option_copied result ≡ code_at_front text.now }
{
    match code_of(dotted_of(text)) {
        Some(code) => Some(code),
        None => code_of(prefix_of(text)),
    }
}

/// The code that a text has, as the tables write it: that of its first word of letters, digits and dots which is one in any case.
#[tactic(auto, unfolding(crate::specs::Codes::code_in))]
pub fn code_in(text: &[u8]) -> Option<&'static str>
    ensures { option_copied result ≡ code_of_text text.now }
{
    let mut in_word = false;
    for (i, byte) in text.iter().enumerate() {
        let is_letter = byte.is_ascii_alphanumeric();
        if is_letter && !in_word {
            match code_in_front(&text[i..]) {
                Some(code) => return Some(code),
                None => {}
            }
        }
        in_word = is_letter;
    }
    None
}

/// Puts what a table has of a code after a text.
fn put_among(
    text: &mut Vec<u8>,
    table: &[FaultRow],
    place: &str,
    code: &str,
) -> Result<(), AllocError>
    ensures { OnOk result (text.new.items ≡ text.old.items ++ entries_among code.now place.now (map row_words table.now)) }
{
    for row in table {
        if row.0 == code {
            put_entry(text, place, explanation_of(row))?;
        }
    }
    Ok(())
}

/// Puts what these places have of a code after a text.
fn put_all(text: &mut Vec<u8>, places: &[FaultPlace], code: &str) -> Result<(), AllocError>
    ensures { OnOk result (text.new.items ≡ text.old.items ++ entries_in code.now places.now) }
{
    for place in places {
        put_among(text, table_of(*place), name_of(*place), code)?;
    }
    Ok(())
}

/// What is known of a code, a line for each place and case.
#[tactic(auto, unfolding(crate::specs::Entries::entries_for))]
fn all_words(alloc: Global, code: &str) -> Result<Vec<u8>, AllocError>
    ensures { IfOk result (λ text. text.items ≡ entries_for code.now) }
{
    let mut text = Vec::new(alloc);
    put_all(&mut text, &PLACES, code)?;
    Ok(text)
}

/// Puts what a table has of all codes after a text.
fn put_table(text: &mut Vec<u8>, table: &[FaultRow], place: &str) -> Result<(), AllocError>
    ensures { OnOk result (text.new.items ≡ text.old.items ++ all_among place.now (map row_words table.now)) }
{
    for row in table {
        put_entry(text, place, explanation_of(row))?;
    }
    Ok(())
}

/// Puts what these places have of all codes after a text.
fn put_tables(text: &mut Vec<u8>, places: &[FaultPlace]) -> Result<(), AllocError>
    ensures { OnOk result (text.new.items ≡ text.old.items ++ all_in places.now) }
{
    for place in places {
        put_table(text, table_of(*place), name_of(*place))?;
    }
    Ok(())
}

/// What is known of all codes, a line for each.
#[tactic(auto, unfolding(crate::specs::Entries::all_entries))]
fn every_word(alloc: Global) -> Result<Vec<u8>, AllocError>
    ensures { IfOk result (λ text. text.items ≡ all_entries) }
{
    let mut text = Vec::new(alloc);
    put_tables(&mut text, &PLACES)?;
    Ok(text)
}

/// What is known of a code, or where none is asked for, of all codes.
pub fn words_for(alloc: Global, code: Option<&str>) -> Result<Vec<u8>, AllocError>
    ensures { IfOk result (λ text. text.items ≡ entries_asked (option_copied code.entry)) }
{
    match code {
        Some(code) => all_words(alloc, code),
        None => every_word(alloc),
    }
}
