//! Answers to bytes (RFC 9112, section 4).
ghost use Rattle.std.specs.Prelude.{◌≡◌, ℕ, ◌+◌, ◌<◌, ◌≤◌, List, [], ◌++◌, length, true, Option};
ghost use Rattle.std.specs.Prelude.{option_map, decimal, IfOk};
ghost use Rattle.byte_stream.specs.claim.Sends.{Sends, failures_with};
ghost use Rattle.http_wire.specs.Queue.{Queues};
ghost use Rattle.http_wire.specs.Adding.{Adds};
ghost use Rattle.http_wire.specs.claim.Phrases.{phrase_of};
ghost use Rattle.http_wire.specs.claim.Answer.{status_line, type_line, close_line, line_end};
ghost use Rattle.http_wire.specs.Answer.{start_text, after_line};
ghost use Rattle.http_wire.specs.claim.Answer.{sent_body};
ghost use Rattle.http_wire.specs.Answer.{response_text, head_of, allowed, allowed_len};

use crate::gather::GatherSink;
use byte_stream::sink::{Sink, WriteFault};
use http::StatusCode;
use itoa::Buffer;
use std::alloc::{AllocError, Global};
use std::marker::Model;

/// The media type of a body.
#[derive(Clone, Copy)]
pub enum ContentType {
    /// `application/json`
    Json,
    /// `text/plain`
    PlainText,
}

/// An answer.
#[derive(Clone, Copy)]
pub struct Response<'a> {
    pub status: StatusCode,
    pub kind: ContentType,
    /// The methods that an Allow line names.
    pub allow: Option<&'a str>,
    /// Whether the connection closes after it.
    pub closes: bool,
    /// Whether its body is omitted, though its length is given: it answers HEAD.
    pub head_only: bool,
    pub body: &'a [u8],
}

/// The largest number of bytes of answers that wait and are sent in one piece.
pub const WRITE_BUFFER_LEN: usize = 16_384;

/// Room for a head, in bytes.
const HEAD_LEN: usize = 500;

/// The buffer in which answers are built and wait until they are sent together, with all the room that it ever takes.
#[derive(Drop)]
pub struct WriteBuffer {
    bytes: Vec<u8>,
}

impl Model for WriteBuffer {
    ghost use Rattle.std.specs.Prelude.{List, ℕ, ◌≤◌, vec_capacity, vec_len};

    ghost Value = { List ℕ };

    ghost view = { λ a. a.bytes.items };

    ghost invariant = { λ a. (16384 ≤ vec_capacity a.bytes) × (vec_len a.bytes ≤ 16384) };
}

impl WriteBuffer {
    /// An empty one, with all the room that it ever takes.
    pub fn new(alloc: Global) -> Result<WriteBuffer, AllocError>
        ensures { IfOk result (λ write_buffer. write_buffer ≡ []) }
    {
        Ok(WriteBuffer {
            bytes: Vec::with_capacity(alloc, WRITE_BUFFER_LEN)?,
        })
    }

    /// Sends what waits. After a fault nothing waits either.
    pub fn flush<W: Sink>(&mut self, writer: &mut W) -> Result<(), WriteFault>
        ensures bytes { Sends (W.contents writer.old) (W.contents writer.new) result self.old }
        ensures emptied { self.new ≡ [] }
        ensures failures { W.failures writer.new ≡ failures_with (W.failures writer.old) result }
    {
        if self.bytes.is_empty() {
            return Ok(());
        }
        let result = writer.send(self.bytes.as_slice());
        self.bytes.clear();
        result
    }

    /// Returns whether a head and `len` bytes have room after what waits.
    fn has_room(&self, len: usize) -> bool
        ensures { result ≡ true → length self.now + 500 + len ≤ 16384 }
    {
        len <= WRITE_BUFFER_LEN - HEAD_LEN && self.bytes.len() <= WRITE_BUFFER_LEN - HEAD_LEN - len
    }

    /// Adds a text for which there is room.
    fn put(&mut self, text: &[u8])
        requires { length self.old + length text.now ≤ 16384 }
        ensures { Adds (length text.now) text.now self.old self.new }
    {
        let _ = self.bytes.extend_from_slice(text);
    }

    /// The line of a status.
    fn put_status(&mut self, status: StatusCode)
        requires { length self.old + 100 ≤ 16384 }
        ensures { Adds 100 (status_line status) self.old self.new }
    {
        self.put(b"HTTP/1.1 ");
        self.put(status.as_str().as_bytes());
        self.put(b" ");
        self.put(phrase(status).as_bytes());
        self.put(b"\r\n");
    }

    /// The line of the media type.
    fn put_type(&mut self, kind: ContentType)
        requires { length self.old + 100 ≤ 16384 }
        ensures { Adds 100 (type_line kind) self.old self.new }
    {
        match kind {
            ContentType::Json => self.put(b"Content-Type: application/json\r\n"),
            ContentType::PlainText => self.put(b"Content-Type: text/plain\r\n"),
        }
    }

    /// Appends what precedes the body's length. For an accepted request for JSON it is one piece.
    fn put_start(&mut self, status: StatusCode, kind: ContentType)
        requires { length self.old + 220 ≤ 16384 }
        ensures { Adds 220 (start_text status kind) self.old self.new }
    {
        match (status.as_u16(), kind) {
            (200, ContentType::Json) => {
                self.put(b"HTTP/1.1 200 OK\r\nContent-Type: application/json\r\nContent-Length: ");
            }
            (201, ContentType::Json) => {
                self.put(
                    b"HTTP/1.1 201 Created\r\nContent-Type: application/json\r\nContent-Length: ",
                );
            }
            _ => {
                self.put_status(status);
                self.put_type(kind);
                self.put(b"Content-Length: ");
            }
        }
    }

    /// The body's length.
    fn put_length(&mut self, n: usize)
        requires { length self.old + 20 ≤ 16384 }
        ensures { Adds 20 (decimal n) self.old self.new }
    {
        let mut digits = Buffer::new();
        self.put(digits.format(n).as_bytes());
    }

    /// The end of a line and then the allowed methods, if there are any.
    fn put_allow(&mut self, allow: Option<&str>)
        requires room { length self.old + 100 ≤ 16384 }
        requires short { allowed_len (option_map (λ methods. methods.now) allow) ≤ 64 }
        ensures { Adds 100 (after_line (option_map (λ methods. methods.now) allow.entry)) self.old self.new }
    {
        if let Some(methods) = allow {
            self.put(b"\r\nAllow: ");
            self.put(methods.as_bytes());
        }
    }

    /// Appends the end of a line, the line that announces the close, if the connection closes, and
    /// the empty line.
    fn put_end(&mut self, closes: bool)
        requires { length self.old + 100 ≤ 16384 }
        ensures { Adds 100 (line_end ++ close_line closes ++ line_end) self.old self.new }
    {
        if closes {
            self.put(b"\r\nConnection: close\r\n\r\n");
        } else {
            self.put(b"\r\n\r\n");
        }
    }

    /// The head.
    fn put_head(&mut self, response: &Response<'_>)
        requires room { length self.old + 500 ≤ 16384 }
        requires short { allowed_len (allowed response.now) ≤ 64 }
        ensures { Adds 500 (head_of response.now) self.old self.new }
    {
        self.put_start(response.status, response.kind);
        self.put_length(response.body.len());
        self.put_allow(response.allow);
        self.put_end(response.closes);
    }

    /// Puts a head and a body after what waits.
    fn put_answer(&mut self, response: &Response<'_>, body: &[u8])
        requires room { length self.old + 500 + length body.now ≤ 16384 }
        requires short { allowed_len (allowed response.now) ≤ 64 }
        ensures { self.new ≡ self.old ++ (head_of response.now ++ body.now) }
    {
        self.put_head(response);
        self.put(body);
    }

    /// Sends a head and a body that have no room together, both at once. Nothing waits before or after it.
    fn write_long<W: GatherSink>(
        &mut self,
        writer: &mut W,
        response: &Response<'_>,
        body: &[u8],
    ) -> Result<(), WriteFault>
        requires { allowed_len (allowed response.now) ≤ 64 }
        ensures bytes { Sends (W.contents writer.old) (W.contents writer.new) result (head_of response.now ++ body.now) }
        ensures emptied { self.new ≡ [] }
        ensures failures { W.failures writer.new ≡ failures_with (W.failures writer.old) result }
    {
        self.bytes.clear();
        self.put_head(response);
        let result = writer.send_both(self.bytes.as_slice(), body);
        self.bytes.clear();
        result
    }
}

/// The phrase of a status that the desk answers; other statuses have none.
fn phrase(status: StatusCode) -> &'static str
    ensures phrase { result.now ≡ phrase_of status }
    ensures short { length result.now ≤ 31 }
{
    match status.as_u16() {
        200 => "OK",
        201 => "Created",
        400 => "Bad Request",
        404 => "Not Found",
        405 => "Method Not Allowed",
        409 => "Conflict",
        413 => "Content Too Large",
        422 => "Unprocessable Content",
        431 => "Request Header Fields Too Large",
        501 => "Not Implemented",
        503 => "Service Unavailable",
        507 => "Insufficient Storage",
        _ => "",
    }
}

/// The part of the body that is sent.
fn sent<'a>(response: &Response<'a>) -> &'a [u8]
    ensures { result.now ≡ sent_body response.now.head_only response.now.body.now }
{
    if response.head_only {
        &[]
    } else {
        response.body
    }
}

/// Puts an answer after those that wait, and takes no memory for it. Where it has no room these are sent first; one that
/// has no room in the empty buffer either is sent at once, its head with its body. The names of the allowed methods have 64 bytes at most.
#[tactic(auto, using(crate::proofs::QueueLemmas::sent_cut))]
pub fn write_response<W: GatherSink>(
    writer: &mut W,
    write_buffer: &mut WriteBuffer,
    response: &Response<'_>,
) -> Result<(), WriteFault>
    requires { allowed_len (allowed response.now) ≤ 64 }
    ensures bytes { Queues (W.contents writer.old) (W.contents writer.new) write_buffer.old write_buffer.new result (response_text response.now) }
    ensures failures { W.failures writer.new ≡ failures_with (W.failures writer.old) result }
{
    let body = sent(response);
    if write_buffer.has_room(body.len()) {
        write_buffer.put_answer(response, body);
        return Ok(());
    }
    match write_buffer.flush(writer) {
        Ok(()) => {}
        Err(_) => return Err(WriteFault),
    }
    if write_buffer.has_room(body.len()) {
        write_buffer.put_answer(response, body);
        return Ok(());
    }
    write_buffer.write_long(writer, response, body)
}
