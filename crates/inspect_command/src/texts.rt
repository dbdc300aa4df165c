//! What is printed of a store.
ghost use Rattle.std.specs.Prelude.{◌≡◌, ◌++◌, [], decimal, OnOk, IfOk};
ghost use Rattle.inspect_command.specs.Texts.{style_by, truth as truth_of, field, first_field, end_of, store_fields, desk_fields, row_fields, need_fields, figures_text};

use crate::figures::{Figures, Held};
use crate::needs::Need;
use crate::rows::Rows;
use itoa::Buffer;
use std::alloc::{AllocError, Global};

/// How figures are written: a line for each, or all as an object of JSON.
#[derive(Clone, Copy)]
pub enum Style {
    Lines,
    Json,
}

/// The style that is asked for.
pub fn style_of(json: bool) -> Style
    ensures { result ≡ style_by json }
{
    if json {
        return Style::Json;
    }
    Style::Lines
}

/// More bytes than figures have in either style.
const ROOM: usize = 2048;

/// A text with room for figures.
pub(crate) fn room_for_figures(alloc: Global) -> Result<Vec<u8>, AllocError>
    ensures { IfOk result (λ text. text.items ≡ []) }
{
    Vec::with_capacity(alloc, ROOM)
}

fn truth(style: Style, is: bool) -> &'static [u8]
    ensures { result.now ≡ truth_of style is }
{
    match style {
        Style::Lines => {
            if is {
                return b"yes";
            }
            b"no"
        }
        Style::Json => {
            if is {
                return b"true";
            }
            b"false"
        }
    }
}

/// Adds a figure under a key, which is given in two parts.
fn push_field(
    text: &mut Vec<u8>,
    style: Style,
    prefix: &[u8],
    key: &[u8],
    value: &[u8],
) -> Result<(), AllocError>
    ensures { OnOk result (text.new.items ≡ text.old.items ++ field style prefix.now key.now value.now) }
{
    match style {
        Style::Lines => {
            text.extend_from_slice(prefix)?;
            text.extend_from_slice(key)?;
            text.extend_from_slice(b" ")?;
            text.extend_from_slice(value)?;
            text.extend_from_slice(b"\n")?;
            Ok(())
        }
        Style::Json => {
            text.extend_from_slice(b",\"")?;
            text.extend_from_slice(prefix)?;
            text.extend_from_slice(key)?;
            text.extend_from_slice(b"\":")?;
            text.extend_from_slice(value)?;
            Ok(())
        }
    }
}

/// Adds a number.
fn push_number(
    text: &mut Vec<u8>,
    style: Style,
    prefix: &[u8],
    key: &[u8],
    number: u128,
) -> Result<(), AllocError>
    ensures { OnOk result (text.new.items ≡ text.old.items ++ field style prefix.now key.now (decimal number)) }
{
    let mut digits = Buffer::new();
    push_field(text, style, prefix, key, digits.format(number).as_bytes())
}

/// Adds the version, which is the first.
fn push_first(text: &mut Vec<u8>, style: Style) -> Result<(), AllocError>
    ensures { OnOk result (text.new.items ≡ text.old.items ++ first_field style) }
{
    match style {
        Style::Lines => text.extend_from_slice(b"version 2\n")?,
        Style::Json => text.extend_from_slice(b"{\"version\":2")?,
    }
    Ok(())
}

fn push_end(text: &mut Vec<u8>, style: Style) -> Result<(), AllocError>
    ensures { OnOk result (text.new.items ≡ text.old.items ++ end_of style) }
{
    match style {
        Style::Lines => Ok(()),
        Style::Json => {
            text.extend_from_slice(b"}\n")?;
            Ok(())
        }
    }
}

fn push_store(
    text: &mut Vec<u8>,
    style: Style,
    sectors: u32,
    held: &Held,
    rows: &Rows,
) -> Result<(), AllocError>
    ensures { OnOk result (text.new.items ≡ text.old.items ++ store_fields style sectors held.now rows.now) }
{
    push_number(text, style, b"", b"sectors", sectors as u128)?;
    push_number(
        text,
        style,
        b"",
        b"journal_pages",
        held.journal_pages as u128,
    )?;
    push_number(text, style, b"", b"pages", rows.pages as u128)?;
    push_number(text, style, b"", b"free_pages", held.free_pages as u128)?;
    Ok(())
}

fn push_desk(text: &mut Vec<u8>, style: Style, held: &Held) -> Result<(), AllocError>
    ensures { OnOk result (text.new.items ≡ text.old.items ++ desk_fields style held.now) }
{
    push_number(text, style, b"", b"blocks", held.blocks as u128)?;
    push_number(text, style, b"", b"counties", held.counties as u128)?;
    push_number(text, style, b"", b"pairs", held.pairs as u128)?;
    push_number(text, style, b"", b"plans", held.plans as u128)?;
    push_number(text, style, b"", b"revisions", held.revisions)
}

fn push_rows(text: &mut Vec<u8>, style: Style, rows: &Rows) -> Result<(), AllocError>
    ensures { OnOk result (text.new.items ≡ text.old.items ++ row_fields style rows.now) }
{
    push_number(text, style, b"", b"chunks", rows.chunks as u128)?;
    push_number(
        text,
        style,
        b"",
        b"deleted_plans",
        rows.deleted_plans as u128,
    )?;
    push_number(
        text,
        style,
        b"",
        b"stopped_loads",
        rows.stopped_loads as u128,
    )?;
    Ok(())
}

/// Adds a command's room, under keys with this prefix.
fn push_need(text: &mut Vec<u8>, style: Style, prefix: &[u8], need: &Need) -> Result<(), AllocError>
    ensures { OnOk result (text.new.items ≡ text.old.items ++ need_fields style prefix.now need.now) }
{
    push_field(text, style, prefix, b"_full", truth(style, need.is_full))?;
    push_number(text, style, prefix, b"_needs", need.pages)?;
    push_number(text, style, prefix, b"_short", need.short)?;
    push_number(text, style, prefix, b"_left", need.left)
}

/// Adds figures to a text.
pub(crate) fn put_figures(
    text: &mut Vec<u8>,
    style: Style,
    figures: &Figures,
) -> Result<(), AllocError>
    ensures { OnOk result (text.new.items ≡ text.old.items ++ figures_text style figures.now) }
{
    push_first(text, style)?;
    push_store(text, style, figures.sectors, &figures.held, &figures.rows)?;
    push_desk(text, style, &figures.held)?;
    push_rows(text, style, &figures.rows)?;
    push_need(text, style, b"revision", &figures.held.revision)?;
    push_need(text, style, b"patch", &figures.held.patch)?;
    push_need(text, style, b"fork", &figures.held.fork)?;
    push_end(text, style)?;
    Ok(())
}
