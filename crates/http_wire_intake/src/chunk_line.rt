//! The line of a chunk.
ghost use Rattle.std.specs.Prelude.{◌≡◌, ◌<◌, length};
ghost use Rattle.http_wire_intake.specs.ChunkParts.{SeesLine};

use crate::bad_request::BadRequest;
use crate::sought::{PrefixParser, Seen};
use httparse::{Status, parse_chunk_size};

/// The largest number of bytes of a chunk's line.
pub const CHUNK_LINE_LIMIT: usize = 256;

/// A chunk's line.
#[derive(Clone, Copy)]
pub struct FoundLine {
    /// Its length, with its CR LF.
    pub len: usize,
    /// The size of the chunk's data, which is none in the last chunk.
    pub size: u64,
}

/// Looks for a chunk's line at the start of the bytes.
#[tactic(auto, using(crate::proofs::ChunkLookLemmas::line_window_is))]
fn look_at_line(bytes: &[u8]) -> Seen<FoundLine, BadRequest>
    ensures sees { SeesLine bytes.now result }
    ensures short { result ≡ Seen.Incomplete → length bytes.now < 16384 }
{
    let part = &bytes[..bytes.len().min(CHUNK_LINE_LIMIT)];
    match parse_chunk_size(part) {
        Ok(Status::Complete((len, size))) => Seen::Found(FoundLine { len, size }),
        Ok(Status::Partial) => {
            if bytes.len() >= CHUNK_LINE_LIMIT {
                return Seen::Refused(BadRequest::BadChunk);
            }
            Seen::Incomplete
        }
        Err(_) => Seen::Refused(BadRequest::BadChunk),
    }
}

/// The line of a chunk is looked for.
pub struct LineSought;

impl PrefixParser for LineSought {
    ghost use Rattle.http_wire_intake.specs.ChunkParts.{SeesLine};

    type Part = FoundLine;

    type Refusal = BadRequest;

    ghost sees = { SeesLine };

    ghost waits = { λ b. ⊥ };

    fn look(&self, bytes: &[u8]) -> Seen<FoundLine, BadRequest> {
        look_at_line(bytes)
    }

    fn is_due(&self, _more: &[u8]) -> bool {
        true
    }
}
