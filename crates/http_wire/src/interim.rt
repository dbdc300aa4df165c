//! The interim answer that asks for a body (RFC 9110, section 15.2.1).
ghost use Rattle.std.specs.Prelude.{◌≡◌, ◌≤◌, length, map, true, All, OnErr};
ghost use Rattle.httparse.specs.Spans.{header_bytes, IsHeaderWithin};
ghost use Rattle.byte_stream.specs.claim.Sends.{Sends, failures_with};
ghost use Rattle.http_wire.specs.claim.Interim.{continue_text, has_body as has_body_by, expects_continue as expects_continue_in};

use crate::head::Framing;
use crate::word::is_named;
use byte_stream::sink::{Sink, WriteFault};
use httparse::spans::HeaderSpan;

/// Whether a body follows. One in chunks always does.
pub(crate) fn has_body(framing: Framing) -> bool
    ensures { result ≡ has_body_by framing }
{
    match framing {
        Framing::Sized(n) => n != 0,
        Framing::Chunked => true,
    }
}

/// Whether a request of this version and these fields waits for the interim answer.
pub(crate) fn expects_continue(minor: u8, buf: &[u8], headers: &[HeaderSpan]) -> bool
    requires { All (IsHeaderWithin (length buf.now)) headers.now }
    ensures { result ≡ expects_continue_in minor (map (header_bytes buf.now) headers.now) }
{
    if minor == 0 {
        return false;
    }
    for h in headers {
        if is_named(b"expect", h.name.of(buf)) && is_named(b"100-continue", h.value.of(buf)) {
            return true;
        }
    }
    false
}

/// Writes the interim answer where it is asked for. It takes no memory.
pub(crate) fn write_interim<W: Sink>(writer: &mut W, is_asked: bool) -> Result<(), WriteFault>
    ensures bytes { Sends (W.contents writer.old) (W.contents writer.new) result (continue_text is_asked) }
    ensures failures { W.failures writer.new ≡ failures_with (W.failures writer.old) result }
    ensures asked { OnErr result (is_asked ≡ true) }
{
    if !is_asked {
        return Ok(());
    }
    writer.send(b"HTTP/1.1 100 Continue\r\n\r\n")
}
