//! Whether a request asks for the end of its connection.
ghost use Rattle.std.specs.Prelude.{◌≡◌, length, map, All};
ghost use Rattle.httparse.specs.Spans.{header_bytes, IsHeaderWithin};
ghost use Rattle.http_wire.specs.claim.Connection.{asks_to_close as asks_to_close_in};

use crate::lists::names_close;
use crate::word::is_named;
use httparse::spans::HeaderSpan;

/// Whether the answer to a request of this version and these fields ends the connection.
pub fn asks_to_close(minor: u8, buf: &[u8], headers: &[HeaderSpan]) -> bool
    requires { All (IsHeaderWithin (length buf.now)) headers.now }
    ensures { result ≡ asks_to_close_in minor (map (header_bytes buf.now) headers.now) }
{
    if minor == 0 {
        return true;
    }
    for h in headers {
        if is_named(b"connection", h.name.of(buf)) && names_close(h.value.of(buf)) {
            return true;
        }
    }
    false
}
