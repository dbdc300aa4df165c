//! Why a store is not found sound, and how that is printed.
ghost use Rattle.std.specs.Prelude.{◌≡◌, IfOk, IfSome};
ghost use Rattle.command_output.specs.Writing.{written_of};
ghost use Rattle.store_command.specs.declared.fault.StoreFault.TheVariants.{NotAStore};
ghost use Rattle.inspect_command.specs.SoundTexts.{IsLongLine, TellsRefusal, kind_word, page_line};

use byte_stream::sink::Sink;
use command_output::status::Status;
use command_output::telling::send_line;
use itoa::Buffer;
use page_btree::{PageFault, PageFaultKind};
use std::alloc::{AllocError, Global};
use store_command::fault::StoreFault;
use store_command::telling::{store_line, store_status};
use store_verification::WrongRow;

/// Why a store is not found sound. What is no store may have a wrong page or row. `is_stray` says
/// that one was found in a store whose desk may open.
#[derive(Drop)]
pub struct Refusal {
    pub fault: StoreFault,
    pub is_stray: bool,
    pub row: Option<WrongRow>,
    pub page: Option<PageFault>,
}

impl Refusal {
    ghost use Rattle.std.specs.Prelude.{◌≡◌, false, None};

    /// One without a page or a row.
    pub fn of(fault: StoreFault) -> Refusal
        ensures fault { result.fault ≡ fault }
        ensures opens { result.is_stray ≡ false }
        ensures whole { result.page ≡ None }
    {
        Refusal {
            fault,
            is_stray: false,
            row: None,
            page: None,
        }
    }
}

/// A digit of 16, of four bits.
fn digit(bits: u8) -> u8 {
    b"0123456789abcdef"[(bits % 16) as usize]
}

/// Adds bytes, two digits of 16 each.
fn push_hex(text: &mut Vec<u8>, bytes: &[u8]) -> Result<(), AllocError> {
    for byte in bytes {
        text.push(digit(*byte / 16))?;
        text.push(digit(*byte))?;
    }
    Ok(())
}

/// The line of a row that is wrong.
fn line_of(alloc: Global, row: &WrongRow) -> Result<Vec<u8>, AllocError> {
    let mut text = Vec::new(alloc);
    text.extend_from_slice(b"plandesk: store: NotAStore ")?;
    text.extend_from_slice(row.wrong.name().as_bytes())?;
    text.extend_from_slice(b" ")?;
    push_hex(&mut text, row.key.as_slice())?;
    text.extend_from_slice(b"\n")?;
    Ok(text)
}

/// What isn't so of a page.
fn word_of(kind: PageFaultKind) -> &'static [u8]
    ensures { result.now ≡ kind_word kind }
{
    match kind {
        PageFaultKind::BeyondTheEnd => b"BeyondTheEnd",
        PageFaultKind::NamedTwice => b"NamedTwice",
        PageFaultKind::NotFree => b"NotFree",
        PageFaultKind::ListGoesOn => b"ListGoesOn",
        PageFaultKind::NotANode => b"NotANode",
        PageFaultKind::WrongLevel => b"WrongLevel",
        PageFaultKind::KeysOutOfOrder => b"KeysOutOfOrder",
        PageFaultKind::Lost => b"Lost",
    }
}

/// The line of a page that is wrong.
fn line_of_page(alloc: Global, fault: &PageFault) -> Result<Vec<u8>, AllocError>
    ensures { IfOk result (λ text. text.items ≡ page_line fault.now) }
{
    let mut digits = Buffer::new();
    let mut text = Vec::new(alloc);
    text.extend_from_slice(b"plandesk: store: NotAStore ")?;
    text.extend_from_slice(word_of(fault.kind))?;
    text.extend_from_slice(b" page ")?;
    text.extend_from_slice(digits.format(fault.page as u64).as_bytes())?;
    text.extend_from_slice(b"\n")?;
    Ok(text)
}

/// The line of a refusal with its page or its row, if it has one; None also without memory for it.
fn long_line(alloc: Global, refusal: &Refusal) -> Option<Vec<u8>>
    ensures told { IfSome result (λ text. refusal.now.fault ≡ NotAStore) }
    ensures line { IfSome result (λ text. IsLongLine refusal.now.page refusal.now.row text.items) }
{
    match refusal.fault {
        StoreFault::NotAStore => match &refusal.page {
            Some(page) => match line_of_page(alloc, page) {
                Ok(text) => Some(text),
                Err(_) => None,
            },
            None => match &refusal.row {
                None => None,
                Some(row) => match line_of(alloc, row) {
                    Ok(text) => Some(text),
                    Err(_) => None,
                },
            },
        },
        _ => None,
    }
}

/// Prints why, as far as it can be written. Without memory for it only the fault's line is printed.
pub fn tell_refusal<E: Sink>(alloc: Global, refusal: &Refusal, errors: &mut E) -> Status
    ensures { TellsRefusal refusal.now result (written_of E.contents E.failures errors.old) (written_of E.contents E.failures errors.new) }
{
    match long_line(alloc, refusal) {
        Some(line) => {
            send_line(errors, line.as_slice());
            store_status(refusal.fault)
        }
        None => {
            send_line(errors, store_line(refusal.fault));
            store_status(refusal.fault)
        }
    }
}
