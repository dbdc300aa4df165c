//! The answer to a request, put together before its first byte is written.
ghost use Rattle.std.specs.Prelude.{◌≡◌, ◌≤◌, ◌||◌, [], ℕ, length, codes, OnOk, OnErr, IfOk, Some, None, option_map, true, false, if◌then◌else◌};
ghost use Rattle.byte_stream.specs.claim.Sends.{failures_with};
ghost use Rattle.http_wire.specs.Queue.{Queues};
ghost use Rattle.http_wire.specs.Answer.{allowed_len};
ghost use Rattle.http_desk_streams.specs.claim.Bodies.{error_body};
ghost use Rattle.http_desk_routes.specs.claim.Methods.{methods_text};
ghost use Rattle.http_desk_streams.specs.claim.Answers.{bytes_of, saying, message_of, closes_after, error_message, error_name as error_name_of};
ghost use Rattle.http_desk_streams.specs.claim.Answers.{error_status as error_status_of, error_allow as error_allow_of, fault_message};
ghost use Rattle.http_desk_streams.specs.claim.Answers.{fault_name as fault_name_of, fault_status as fault_status_of, memory_text};
ghost use Rattle.http_desk_streams.specs.claim.Answers.{refusal_status as refusal_status_of, refusal_closes, MayStarve, Tells};

use crate::body::put_plans;
use crate::short::ShortText;
use byte_stream::sink::WriteFault;
use desk_model::reply::{Refusal, Reply};
use http::StatusCode;
use http_desk_routes::method::Methods;
use http_desk_routes::order::Error;
use http_wire::bad_request::BadRequest;
use http_wire::gather::GatherSink;
use http_wire::response::{ContentType, Response, WriteBuffer, write_response};
use std::alloc::{AllocError, Global};
use std::marker::Model;

/// The head of an answer.
#[derive(Clone, Copy)]
struct AnswerHead {
    status: StatusCode,
    kind: ContentType,
    allow: Option<Methods>,
    closes: bool,
    head_only: bool,
}

/// The answer that is written next. A long body keeps the memory that it came in.
#[derive(Drop)]
pub struct Answer {
    head: AnswerHead,
    is_long: bool,
    short: ShortText,
    long: Vec<u8>,
}

impl Model for Answer {
    ghost use Rattle.std.specs.Prelude.{List, ℕ, option_map, if◌then◌else◌};
    ghost use Rattle.http_wire.specs.claim.Answer.{answer_text};
    ghost use Rattle.http_desk_routes.specs.claim.Methods.{methods_text};

    ghost Value = { List ℕ };

    ghost view = { λ a. answer_text a.head.status a.head.kind (option_map methods_text a.head.allow) a.head.closes a.head.head_only (if a.is_long then a.long.items else a.short) };
}

fn refusal_status(refusal: Refusal) -> StatusCode
    ensures { result ≡ refusal_status_of refusal }
{
    match refusal {
        Refusal::NoPlan | Refusal::NoRevision => StatusCode::NOT_FOUND,
        Refusal::PlanExists | Refusal::Stale { .. } | Refusal::NotSealed => StatusCode::CONFLICT,
        Refusal::BadBody { .. }
        | Refusal::NotWholeCounty { .. }
        | Refusal::BadCompanion
        | Refusal::Limit => StatusCode::UNPROCESSABLE_ENTITY,
        Refusal::Full => StatusCode::INSUFFICIENT_STORAGE,
        Refusal::Memory | Refusal::Halted => StatusCode::SERVICE_UNAVAILABLE,
    }
}

fn error_name(error: Error) -> &'static [u8]
    ensures name { result.now ≡ error_name_of error }
    ensures short { length result.now ≤ 64 }
{
    match error {
        Error::UnknownMethod => b"UnknownMethod",
        Error::NoRoute => b"NoRoute",
        Error::MethodNotAllowed(_) => b"MethodNotAllowed",
        Error::BadName => b"BadName",
        Error::BadNumber => b"BadNumber",
        Error::BadQuery => b"BadQuery",
    }
}

fn error_status(error: Error) -> StatusCode
    ensures { result ≡ error_status_of error }
{
    match error {
        Error::UnknownMethod => StatusCode::NOT_IMPLEMENTED,
        Error::NoRoute => StatusCode::NOT_FOUND,
        Error::MethodNotAllowed(_) => StatusCode::METHOD_NOT_ALLOWED,
        Error::BadName | Error::BadNumber | Error::BadQuery => StatusCode::BAD_REQUEST,
    }
}

fn error_allow(error: Error) -> Option<Methods>
    ensures { result ≡ error_allow_of error }
{
    match error {
        Error::MethodNotAllowed(methods) => Some(methods),
        Error::UnknownMethod
        | Error::NoRoute
        | Error::BadName
        | Error::BadNumber
        | Error::BadQuery => None,
    }
}

/// Returns the names of the allowed methods, if the answer lists them.
fn allow_text(allow: Option<Methods>) -> Option<&'static str>
    ensures text { option_map (λ t. t.now) result ≡ option_map methods_text allow }
    ensures short { allowed_len (option_map (λ t. t.now) result) ≤ 64 }
{
    match allow {
        Some(methods) => Some(methods.text()),
        None => None,
    }
}

fn fault_name(fault: BadRequest) -> &'static [u8]
    ensures name { result.now ≡ fault_name_of fault }
    ensures short { length result.now ≤ 64 }
{
    match fault {
        BadRequest::BadHead => b"BadHead",
        BadRequest::HeadTooLarge => b"HeadTooLarge",
        BadRequest::BadHost => b"BadHost",
        BadRequest::BadLength => b"BadLength",
        BadRequest::BadCoding => b"BadCoding",
        BadRequest::BodyTooLarge => b"BodyTooLarge",
        BadRequest::BadTarget => b"BadTarget",
        BadRequest::BadChunk => b"BadChunk",
    }
}

fn fault_status(fault: BadRequest) -> StatusCode
    ensures { result ≡ fault_status_of fault }
{
    match fault {
        BadRequest::BadHead
        | BadRequest::BadHost
        | BadRequest::BadLength
        | BadRequest::BadTarget
        | BadRequest::BadChunk => StatusCode::BAD_REQUEST,
        BadRequest::HeadTooLarge => StatusCode::REQUEST_HEADER_FIELDS_TOO_LARGE,
        BadRequest::BadCoding => StatusCode::NOT_IMPLEMENTED,
        BadRequest::BodyTooLarge => StatusCode::PAYLOAD_TOO_LARGE,
    }
}

/// The body that is held.
fn body_of<'a>(is_long: bool, short: &'a [u8], long: &'a [u8]) -> &'a [u8]
    ensures { result.now ≡ (if is_long then long.now else short.now) }
{
    if is_long { long } else { short }
}

fn is_memory(refusal: Refusal) -> bool
    ensures { result ≡ refusal_closes refusal }
{
    matches!(refusal, Refusal::Memory)
}

/// The head of a JSON answer that allows nothing in particular.
fn json(status: StatusCode, closes: bool, head_only: bool) -> AnswerHead
    ensures { result ≡ record { status = status; kind = ContentType.Json; allow = None; closes = closes; head_only = head_only } }
{
    AnswerHead {
        status,
        kind: ContentType::Json,
        allow: None,
        closes,
        head_only,
    }
}

impl Answer {
    /// An answer with the room that each short body takes.
    pub fn new(alloc: Global) -> Result<Answer, AllocError> {
        Ok(Answer {
            head: json(StatusCode::OK, false, false),
            is_long: false,
            short: ShortText::new(alloc)?,
            long: Vec::new(alloc),
        })
    }

    /// Puts the answer after those that wait to be sent.
    pub fn send<W: GatherSink>(
        &self,
        writer: &mut W,
        write_buffer: &mut WriteBuffer,
    ) -> Result<(), WriteFault>
        ensures bytes { Queues (W.contents writer.old) (W.contents writer.new) write_buffer.old write_buffer.new result self.now }
        ensures failures { W.failures writer.new ≡ failures_with (W.failures writer.old) result }
    {
        let body = body_of(self.is_long, self.short.as_slice(), self.long.as_slice());
        let response = Response {
            status: self.head.status,
            kind: self.head.kind,
            allow: allow_text(self.head.allow),
            closes: self.head.closes,
            head_only: self.head.head_only,
            body,
        };
        write_response(writer, write_buffer, &response)
    }

    /// Puts a JSON error by its name.
    fn put_named(&mut self, status: StatusCode, name: &[u8], closes: bool, head_only: bool)
        requires { length name.now ≤ 64 }
        ensures { self.new ≡ bytes_of closes head_only (saying status ContentType.Json (error_body name.now)) }
    {
        self.short.put_error(name);
        self.head = json(status, closes, head_only);
        self.is_long = false;
    }

    /// Puts the answer that memory was refused.
    pub fn put_memory(&mut self, head_only: bool)
        ensures { self.new ≡ memory_text head_only }
    {
        self.put_named(StatusCode::SERVICE_UNAVAILABLE, b"Memory", true, head_only);
    }

    /// Puts the answer to a request that asks for nothing.
    pub fn put_order_error(&mut self, error: Error, closes: bool, head_only: bool)
        ensures { self.new ≡ bytes_of closes head_only (error_message error) }
    {
        self.short.put_error(error_name(error));
        self.head = AnswerHead {
            status: error_status(error),
            kind: ContentType::Json,
            allow: error_allow(error),
            closes,
            head_only,
        };
        self.is_long = false;
    }

    /// Puts the answer to a fault of the prefix.
    pub fn put_fault(&mut self, fault: BadRequest, head_only: bool)
        ensures { self.new ≡ bytes_of true head_only (fault_message fault) }
    {
        self.put_named(fault_status(fault), fault_name(fault), true, head_only);
    }

    /// Puts a body that may be long.
    fn put_long(&mut self, kind: ContentType, body: Vec<u8>, closes: bool, head_only: bool)
        ensures { self.new ≡ bytes_of closes head_only (saying 200 kind body.items) }
    {
        self.long = body;
        self.head = AnswerHead {
            status: StatusCode::OK,
            kind,
            allow: None,
            closes,
            head_only,
        };
        self.is_long = true;
    }

    /// Appends the answer to a reply and returns whether the connection closes after it: if the
    /// request asks for it, or if the reply does. Only an answer that may be long takes memory.
    fn put_reply(
        &mut self,
        reply: Reply,
        closing: bool,
        head_only: bool,
    ) -> Result<bool, AllocError>
        ensures text { OnOk result (self.new ≡ bytes_of (closes_after reply || closing) head_only (message_of reply)) }
        ensures closes { IfOk result (λ closes. closes ≡ (closes_after reply || closing)) }
        ensures out_of_memory { OnErr result (MayStarve reply) }
    {
        match reply {
            Reply::Created { plan, revisions } => {
                self.short.put_created(&plan, revisions);
                self.head = json(StatusCode::CREATED, closing, head_only);
                self.is_long = false;
                Ok(closing)
            }
            Reply::Retired { plan } => {
                self.short.put_retired(&plan);
                self.head = json(StatusCode::OK, closing, head_only);
                self.is_long = false;
                Ok(closing)
            }
            Reply::Plans(rows) => {
                put_plans(&mut self.long, rows.as_slice())?;
                self.head = json(StatusCode::OK, closing, head_only);
                self.is_long = true;
                Ok(closing)
            }
            Reply::Blocks(text) | Reply::Baf(text) => {
                self.put_long(ContentType::PlainText, text.into_vec(), closing, head_only);
                Ok(closing)
            }
            Reply::Audited(text) => {
                self.put_long(ContentType::Json, text.into_vec(), closing, head_only);
                Ok(closing)
            }
            Reply::Refused(refusal) => {
                let closes = is_memory(refusal) || closing;
                self.short.put_refusal(refusal);
                self.head = json(refusal_status(refusal), closes, head_only);
                self.is_long = false;
                Ok(closes)
            }
        }
    }

    /// Appends the answer to a reply, or that memory for it is missing, and returns whether the
    /// connection closes after it.
    pub fn tell(&mut self, reply: Reply, closing: bool, head_only: bool) -> bool
        ensures { Tells reply closing head_only self.new result }
    {
        let Ok(closes) = self.put_reply(reply, closing, head_only) else {
            self.put_memory(head_only);
            return true;
        };
        closes
    }
}
