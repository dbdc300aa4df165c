//! What a code means and what to do, and where the code belongs.
ghost use Rattle.std.specs.Prelude.{◌≡◌, ◌++◌, map, IfOk};
ghost use Rattle.std.specs.Option.{option_copied};
ghost use Rattle.command_output.specs.Sentences.{words_of, head_of, sentence_of, case_text, carries_text, entry_of};
ghost use Rattle.command_output.specs.Tables.{told, row_words, case_at, words_at, place_name};

use crate::audits::AUDIT;
use crate::census::{GEO, JOIN, SEGMENT};
use crate::file_tools::{TOOL_NEIGHBOURS, TOOL_PLAN, TOOL_REPORT};
use crate::http::{BYTES, REQUESTS};
use crate::plans::{EVERY_FILE, GAL, LOG, PLAN};
use crate::server_tools::{TOOL_DESK, TOOL_EXPORT, TOOL_KEEP, TOOL_SERVER};
use crate::stores::{COMMAND, STORE, VERIFY};
use std::alloc::{AllocError, Global};

/// What a code means, and what to do.
#[derive(Clone, Copy)]
pub struct Explanation {
    pub code: &'static str,
    /// What follows the code in a fault's line, such as `line N`, or nothing.
    pub carries: &'static str,
    /// The reason, or the status of the answer, if the code has several; otherwise nothing.
    pub case: &'static str,
    /// What happened, in sentences.
    pub means: &'static str,
    /// What to do, in sentences.
    pub remedy: &'static str,
}

/// A row of a table: a code, what it carries, its case, what it means, and what to do.
pub(crate) type FaultRow = (
    &'static str,
    &'static str,
    &'static str,
    &'static str,
    &'static str,
);

/// What a row says.
pub(crate) fn explanation_of(row: &FaultRow) -> Explanation
    ensures { told result ≡ row_words row.now }
{
    let (code, carries, case, means, remedy) = *row;
    Explanation {
        code,
        carries,
        case,
        means,
        remedy,
    }
}

/// Why a device failed, if that is known, or what a command did before its fault.
#[derive(Clone, Copy)]
pub enum Reason {
    /// Another open of the file holds it.
    InUse,
    /// The file may not be read and written, or it is a folder or a pipe.
    NotPermitted,
    /// There is no room for it on the disk.
    NoRoom,
    /// The command had done with its store what it was asked for.
    Stands,
    /// The file is a store, and something else was wanted.
    IsStore,
}

/// The case of a reason, as the tables have it.
#[tactic(auto, unfolding(crate::specs::Tables::case_at))]
pub(crate) fn case_of(reason: Option<Reason>) -> &'static str
    ensures { result.now ≡ case_at reason }
{
    match reason {
        Some(Reason::InUse) => "in use",
        Some(Reason::NotPermitted) => "not permitted",
        Some(Reason::NoRoom) => "no room",
        Some(Reason::Stands) => "of `format`, `load`, `sweep` or `migrate`",
        Some(Reason::IsStore) => "a store",
        None => "",
    }
}

/// Where a code belongs.
#[derive(Clone, Copy)]
pub enum FaultPlace {
    EveryFile,
    Geo,
    Segment,
    Join,
    Gal,
    Plan,
    /// The file of a server's log.
    Log,
    Store,
    /// What `verify` prints of a damaged store.
    Verify,
    /// The standard streams and sockets of a command.
    Command,
    /// The bytes of a request.
    Bytes,
    /// What a request asks.
    Requests,
    /// The tests of an audit.
    Audit,
    ToolPlan,
    ToolReport,
    ToolNeighbours,
    /// Any tool that asks a server.
    ToolServer,
    ToolDesk,
    ToolExport,
    /// The tools that back up, watch and pack.
    ToolKeep,
}

/// All places, in the order in which `explain` lists them.
pub(crate) static PLACES: [FaultPlace; 20] = [
    FaultPlace::EveryFile,
    FaultPlace::Geo,
    FaultPlace::Segment,
    FaultPlace::Join,
    FaultPlace::Gal,
    FaultPlace::Plan,
    FaultPlace::Log,
    FaultPlace::Store,
    FaultPlace::Verify,
    FaultPlace::Command,
    FaultPlace::Bytes,
    FaultPlace::Requests,
    FaultPlace::Audit,
    FaultPlace::ToolPlan,
    FaultPlace::ToolReport,
    FaultPlace::ToolNeighbours,
    FaultPlace::ToolServer,
    FaultPlace::ToolDesk,
    FaultPlace::ToolExport,
    FaultPlace::ToolKeep,
];

/// The codes of a place.
#[tactic(auto, unfolding(crate::specs::Tables::words_at))]
pub(crate) fn table_of(place: FaultPlace) -> &'static [FaultRow]
    ensures { map row_words result.now ≡ words_at place }
{
    match place {
        FaultPlace::EveryFile => &EVERY_FILE,
        FaultPlace::Geo => &GEO,
        FaultPlace::Segment => &SEGMENT,
        FaultPlace::Join => &JOIN,
        FaultPlace::Gal => &GAL,
        FaultPlace::Plan => &PLAN,
        FaultPlace::Log => &LOG,
        FaultPlace::Store => &STORE,
        FaultPlace::Verify => &VERIFY,
        FaultPlace::Command => &COMMAND,
        FaultPlace::Bytes => &BYTES,
        FaultPlace::Requests => &REQUESTS,
        FaultPlace::Audit => &AUDIT,
        FaultPlace::ToolPlan => &TOOL_PLAN,
        FaultPlace::ToolReport => &TOOL_REPORT,
        FaultPlace::ToolNeighbours => &TOOL_NEIGHBOURS,
        FaultPlace::ToolServer => &TOOL_SERVER,
        FaultPlace::ToolDesk => &TOOL_DESK,
        FaultPlace::ToolExport => &TOOL_EXPORT,
        FaultPlace::ToolKeep => &TOOL_KEEP,
    }
}

/// What a place is called, without a comma and a colon, so that a script can cut a line of `explain` at these.
#[tactic(auto, unfolding(crate::specs::Tables::place_name))]
pub(crate) fn name_of(place: FaultPlace) -> &'static str
    ensures { result.now ≡ place_name place }
{
    match place {
        FaultPlace::EveryFile => "any file",
        FaultPlace::Geo => "geo",
        FaultPlace::Segment => "seg1 seg2 seg3",
        FaultPlace::Join => "join",
        FaultPlace::Gal => "gal",
        FaultPlace::Plan => "plan senate congress",
        FaultPlace::Log => "log",
        FaultPlace::Store => "store",
        FaultPlace::Verify => "verify",
        FaultPlace::Command => "standard streams and sockets",
        FaultPlace::Bytes => "bytes of an HTTP request",
        FaultPlace::Requests => "HTTP",
        FaultPlace::Audit => "test of an audit",
        FaultPlace::ToolPlan => "tools/plan",
        FaultPlace::ToolReport => "tools/report",
        FaultPlace::ToolNeighbours => "tools/neighbours",
        FaultPlace::ToolServer => "tools that ask a server",
        FaultPlace::ToolDesk => "tools/desk",
        FaultPlace::ToolExport => "tools/export and tools/import",
        FaultPlace::ToolKeep => "tools/backup and tools/health and tools/log and tools/release",
    }
}

/// Puts what is meant and what to do after a text.
fn put_words(text: &mut Vec<u8>, words: Explanation) -> Result<(), AllocError>
    ensures { IfOk result (λ _. text.new.items ≡ text.old.items ++ words_of (told words)) }
{
    text.extend_from_slice(words.means.as_bytes())?;
    text.extend_from_slice(b" What to do: ")?;
    text.extend_from_slice(words.remedy.as_bytes())?;
    text.extend_from_slice(b"\n")?;
    Ok(())
}

/// Puts the beginning of the line that follows a fault's line after a text.
fn put_head(text: &mut Vec<u8>, path: Option<&str>) -> Result<(), AllocError>
    ensures { IfOk result (λ _. text.new.items ≡ text.old.items ++ head_of (option_copied path.entry)) }
{
    match path {
        Some(path) => {
            text.extend_from_slice(b"  In ")?;
            text.extend_from_slice(path.as_bytes())?;
            text.extend_from_slice(b" it means: ")?;
            Ok(())
        }
        None => {
            text.extend_from_slice(b"  It means: ")?;
            Ok(())
        }
    }
}

/// The line that follows a fault's line, with the path of its file where one is concerned.
pub fn sentence(
    alloc: Global,
    path: Option<&str>,
    words: Explanation,
) -> Result<Vec<u8>, AllocError>
    ensures { IfOk result (λ text. text.items ≡ sentence_of (option_copied path.entry) (told words)) }
{
    let mut text = Vec::new(alloc);
    put_head(&mut text, path)?;
    put_words(&mut text, words)?;
    Ok(text)
}

/// Puts what a code carries after a text, if it carries something.
fn put_carries(text: &mut Vec<u8>, carries: &[u8]) -> Result<(), AllocError>
    ensures { IfOk result (λ _. text.new.items ≡ text.old.items ++ carries_text carries.now) }
{
    if carries.is_empty() {
        return Ok(());
    }
    text.extend_from_slice(b" ")?;
    text.extend_from_slice(carries)
}

/// Puts a case after a text, where there is one.
fn put_case(text: &mut Vec<u8>, case: &[u8]) -> Result<(), AllocError>
    ensures { IfOk result (λ _. text.new.items ≡ text.old.items ++ case_text case.now) }
{
    if case.is_empty() {
        return Ok(());
    }
    text.extend_from_slice(b", ")?;
    text.extend_from_slice(case)
}

/// Puts a code with what it carries, its place and its case after a text, and the words.
pub(crate) fn put_entry(
    text: &mut Vec<u8>,
    place: &str,
    words: Explanation,
) -> Result<(), AllocError>
    ensures { IfOk result (λ _. text.new.items ≡ text.old.items ++ entry_of place.now (told words)) }
{
    text.extend_from_slice(words.code.as_bytes())?;
    put_carries(text, words.carries.as_bytes())?;
    text.extend_from_slice(b", ")?;
    text.extend_from_slice(place.as_bytes())?;
    put_case(text, words.case.as_bytes())?;
    text.extend_from_slice(b": ")?;
    put_words(text, words)?;
    Ok(())
}
