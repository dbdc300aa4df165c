//! A look at the bytes that have come, for a head.
ghost use Rattle.std.specs.Prelude.{◌≡◌, ◌<◌, ◌≤◌, ◌+◌, length, true, false, drop};
ghost use Rattle.httparse.specs.Grammar.{HasNoRequest, NeverHasRequest, MayBecomeRequest};
ghost use Rattle.http_wire_intake.specs.claim.Limits.{window};
ghost use Rattle.http_wire.specs.claim.Prefix.{is_head as is_head_method};
ghost use Rattle.http_wire.specs.Look.{IsParsed, Sees};
ghost use Rattle.http_wire.specs.InTarget.{in_method, in_blank};
ghost use Rattle.httparse.specs.Grammar.{EndsInTarget, is_uri_byte};
ghost use Rattle.std.specs.List.{list_all};

use crate::connection::asks_to_close;
use crate::head::{Framing, judge};
use crate::interim::{expects_continue, has_body};
use http_wire_intake::bad_request::BadRequest;
use http_wire_intake::limits::{FIELD_LIMIT, HEAD_LIMIT};
use http_wire_intake::lines::{ends_line, head_lines};
use http_wire_intake::sought::{PrefixParser, Seen};
use httparse::spans::{EMPTY_HEADER_SPAN, HeaderSpan, RequestSpans, Span, parse_request};
use httparse::{Error, Status, is_method_token, is_uri_token};

/// Where the parts of a head are, counted from the start of the bytes.
#[derive(Clone, Copy)]
pub struct Head {
    pub method: Span,
    pub target: Span,
    /// The length of the head, where the body begins.
    pub len: usize,
    /// How the body is framed that it announces.
    pub framing: Framing,
    /// Whether the answer ends the connection.
    pub closes: bool,
    /// Whether the answer has no body: its method is HEAD.
    pub head_only: bool,
    /// Whether it asks for the interim answer 100 before its body.
    pub expects: bool,
}

/// Why the bytes do not begin with a valid head. The answer has no body if only a head is asked
/// for.
#[derive(Clone, Copy)]
pub struct HeadRefusal {
    pub fault: BadRequest,
    pub head_only: bool,
}

fn all_of_target(bytes: &[u8]) -> bool
    ensures { result ≡ list_all is_uri_byte bytes.now }
{
    bytes.iter().all(|b| is_uri_token(*b))
}

/// Whether they are a method, a space and bytes of a target.
fn ends_after_method(bytes: &[u8]) -> bool
    ensures { result ≡ in_method false bytes.now }
{
    for (i, b) in bytes.iter().enumerate() {
        if !is_method_token(*b) {
            return i > 0 && *b == b' ' && all_of_target(&bytes[i + 1..]);
        }
    }
    false
}

/// The same after empty lines.
fn ends_after_blank(bytes: &[u8]) -> bool
    ensures { result ≡ in_blank false bytes.now }
{
    let mut has_cr = false;
    for (i, b) in bytes.iter().enumerate() {
        match *b {
            b'\n' => has_cr = false,
            b'\r' if !has_cr => has_cr = true,
            _ => return !has_cr && ends_after_method(&bytes[i..]),
        }
    }
    false
}

/// Whether they end inside a request target.
fn ends_in_target(bytes: &[u8]) -> bool
    ensures yes { result ≡ true → EndsInTarget bytes.now }
    ensures no { result ≡ false → ¬ (EndsInTarget bytes.now) }
{
    ends_after_blank(bytes)
}

/// Whether the answer to the method has no body.
fn is_head(method: &[u8]) -> bool
    ensures { result ≡ is_head_method method.now }
{
    method == b"HEAD".as_slice()
}

/// A head that was parsed: what it says.
fn after_parse(
    bytes: &[u8],
    part: &[u8],
    head: RequestSpans,
    headers: &[HeaderSpan],
) -> Seen<Head, HeadRefusal>
    requires { IsParsed bytes.now part.now headers.now head }
    ensures { Sees bytes.now result }
{
    let head_only = is_head(head.method.of(bytes));
    match judge(head.version, part, headers) {
        Err(fault) => Seen::Refused(HeadRefusal { fault, head_only }),
        Ok(framing) => Seen::Found(Head {
            method: head.method,
            target: head.path,
            len: head.len,
            framing,
            closes: asks_to_close(head.version, part, headers),
            head_only,
            expects: has_body(framing) && expects_continue(head.version, part, headers),
        }),
    }
}

/// No head has come: whether one still may.
fn unfinished(bytes: &[u8], part: &[u8]) -> Seen<Head, HeadRefusal>
    requires part_is { part.now ≡ window bytes.now }
    requires none { HasNoRequest part.now }
    requires goes_on { MayBecomeRequest part.now }
    ensures { Sees bytes.now result }
{
    if bytes.len() >= HEAD_LIMIT {
        return Seen::Refused(HeadRefusal {
            fault: BadRequest::HeadTooLarge,
            head_only: false,
        });
    }
    if head_lines(part) >= FIELD_LIMIT + 2 {
        return Seen::Refused(HeadRefusal {
            fault: BadRequest::HeadTooLarge,
            head_only: false,
        });
    }
    Seen::Incomplete
}

/// No head can come, which only the end of a target would show where the bytes end in one.
fn after_error(bytes: &[u8], part: &[u8]) -> Seen<Head, HeadRefusal>
    requires part_is { part.now ≡ window bytes.now }
    requires never { NeverHasRequest part.now }
    ensures { Sees bytes.now result }
{
    if ends_in_target(part) {
        return unfinished(bytes, part);
    }
    Seen::Refused(HeadRefusal {
        fault: BadRequest::BadHead,
        head_only: false,
    })
}

/// Looks for a head at the start of the bytes, with room for where its lines are.
pub fn look_at(bytes: &[u8], headers: &mut [HeaderSpan]) -> Seen<Head, HeadRefusal>
    requires { length headers.old ≡ 64 }
    ensures { Sees bytes.now result }
{
    let part = &bytes[..bytes.len().min(HEAD_LIMIT)];
    match parse_request(part, headers) {
        Ok(Status::Complete(head)) => {
            let count = head.headers;
            after_parse(bytes, part, head, &headers[..count])
        }
        Ok(Status::Partial) => unfinished(bytes, part),
        Err(Error::TooManyHeaders) => Seen::Refused(HeadRefusal {
            fault: BadRequest::HeadTooLarge,
            head_only: false,
        }),
        Err(_) => after_error(bytes, part),
    }
}

/// A head is looked for.
pub struct HeadSought;

impl PrefixParser for HeadSought {
    ghost use Rattle.http_wire_intake.specs.claim.Lines.{IsWithinLine};
    ghost use Rattle.http_wire.specs.Look.{Sees};

    type Part = Head;

    type Refusal = HeadRefusal;

    ghost sees = { Sees };

    ghost waits = { IsWithinLine };

    #[tactic(auto, using(crate::proofs::LookLemmas::sees_short))]
    fn look(&self, bytes: &[u8]) -> Seen<Head, HeadRefusal> {
        let mut headers = [EMPTY_HEADER_SPAN; FIELD_LIMIT];
        look_at(bytes, &mut headers)
    }

    // A head is judged once for each of its lines, however many pieces they come in.
    #[tactic(auto, using(http_wire_intake::proofs::LineLemmas::no_line_ends))]
    fn is_due(&self, more: &[u8]) -> bool {
        ends_line(more)
    }
}
