//! CR LF after the data of a chunk.
ghost use Rattle.std.specs.Prelude.{◌≡◌, ◌<◌, length};
ghost use Rattle.http_wire_intake.specs.ChunkParts.{SeesEnd};

use crate::bad_request::BadRequest;
use crate::sought::{PrefixParser, Seen};

/// Looks for CR LF at the start of the bytes, and returns its length.
fn look_at_end(bytes: &[u8]) -> Seen<usize, BadRequest>
    ensures sees { SeesEnd bytes.now result }
    ensures short { result ≡ Seen.Incomplete → length bytes.now < 16384 }
{
    if bytes.is_empty() {
        return Seen::Incomplete;
    }
    if bytes[0] != b'\r' {
        return Seen::Refused(BadRequest::BadChunk);
    }
    if bytes.len() == 1 {
        return Seen::Incomplete;
    }
    if bytes[1] != b'\n' {
        return Seen::Refused(BadRequest::BadChunk);
    }
    Seen::Found(2)
}

/// CR LF is looked for.
pub struct EndSought;

impl PrefixParser for EndSought {
    ghost use Rattle.http_wire_intake.specs.ChunkParts.{SeesEnd};

    type Part = usize;

    type Refusal = BadRequest;

    ghost sees = { SeesEnd };

    ghost waits = { λ b. ⊥ };

    fn look(&self, bytes: &[u8]) -> Seen<usize, BadRequest> {
        look_at_end(bytes)
    }

    fn is_due(&self, _more: &[u8]) -> bool {
        true
    }
}
