//! Requests that are answered without a copy of them.
ghost use Rattle.std.specs.Prelude.{◌≡◌, ◌<◌, ◌≤◌, length, true, Some, None, IfSome};
ghost use Rattle.httparse.specs.Spans.{span_bytes, IsWithin};
ghost use Rattle.http_wire.specs.claim.Target.{target_of};
ghost use Rattle.http_wire.specs.declared.head.Framing.TheVariants.{Sized};
ghost use Rattle.http_wire.specs.Plain.{IsPlain};

use crate::head::Framing;
use crate::header_slots::HeaderSlots;
use crate::look::{Head, look_at};
use http_wire_intake::law::chunk_law;
use http_wire_intake::read_buffer::ReadBuffer;
use http_wire_intake::sought::Seen;

/// Whether the head has just this method and this target, and no body.
fn is_plain(bytes: &[u8], head: Head, method: &[u8], target: &[u8]) -> bool
    requires method { IsWithin (length bytes.now) head.method }
    requires target { IsWithin (length bytes.now) head.target }
    ensures { result ≡ true → (span_bytes bytes.now head.method ≡ method.now) × (span_bytes bytes.now head.target ≡ target.now)
        × (head.framing ≡ Sized 0) }
{
    match head.framing {
        Framing::Sized(0) => head.method.of(bytes) == method && head.target.of(bytes) == target,
        _ => false,
    }
}

/// Takes the next request if it has come whole, has this method and target and no body, and returns
/// whether its answer closes. Otherwise returns `None` and takes nothing: `take_request` continues.
pub fn take_plain(
    read_buffer: &mut ReadBuffer,
    room: &mut HeaderSlots,
    method: &[u8],
    target: &[u8],
) -> Option<bool>
    requires { target_of target.now ≡ Some target.now }
    ensures taken { IfSome result (λ closes. IsPlain read_buffer.old method.now target.now closes read_buffer.new) }
    ensures less { IfSome result (λ _. length read_buffer.new < length read_buffer.old) }
    ensures none { result ≡ None → read_buffer.new ≡ read_buffer.old }
{
    chunk_law();
    let bytes = read_buffer.as_slice();
    let Seen::Found(head) = look_at(bytes, &mut room.headers) else {
        return None;
    };
    if !is_plain(bytes, head, method, target) {
        return None;
    }
    read_buffer.consume(head.len);
    Some(head.closes)
}
