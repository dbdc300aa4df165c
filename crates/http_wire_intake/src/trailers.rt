//! The trailers of a body in chunks.
ghost use Rattle.std.specs.Prelude.{◌≡◌, ◌<◌, length};
ghost use Rattle.httparse.specs.Grammar.{HasNoSection, MayBecomeSection};
ghost use Rattle.http_wire_intake.specs.ChunkParts.{SeesTrailers};
ghost use Rattle.http_wire_intake.specs.claim.Limits.{window};

use crate::bad_request::BadRequest;
use crate::limits::{FIELD_LIMIT, HEAD_LIMIT};
use crate::lines::section_lines;
use crate::sought::{PrefixParser, Seen};
use httparse::spans::{EMPTY_HEADER_SPAN, parse_headers};
use httparse::{Error, Status};

/// No trailers have come: whether they still may.
#[tactic(auto, using(crate::proofs::ChunkLookLemmas::section_overflows_at))]
fn unfinished(bytes: &[u8], part: &[u8]) -> Seen<usize, BadRequest>
    requires part_is { part.now ≡ window bytes.now }
    requires none { HasNoSection part.now }
    requires goes_on { MayBecomeSection part.now }
    ensures sees { SeesTrailers bytes.now result }
    ensures short { result ≡ Seen.Incomplete → length bytes.now < 16384 }
{
    if bytes.len() >= HEAD_LIMIT {
        return Seen::Refused(BadRequest::HeadTooLarge);
    }
    if section_lines(part) > FIELD_LIMIT {
        return Seen::Refused(BadRequest::HeadTooLarge);
    }
    Seen::Incomplete
}

/// Looks for trailers at the start of the bytes, and returns their length.
fn look_at_trailers(bytes: &[u8]) -> Seen<usize, BadRequest>
    ensures sees { SeesTrailers bytes.now result }
    ensures short { result ≡ Seen.Incomplete → length bytes.now < 16384 }
{
    let mut headers = [EMPTY_HEADER_SPAN; FIELD_LIMIT];
    let part = &bytes[..bytes.len().min(HEAD_LIMIT)];
    match parse_headers(part, &mut headers) {
        Ok(Status::Complete((len, _))) => Seen::Found(len),
        Ok(Status::Partial) => unfinished(bytes, part),
        Err(Error::TooManyHeaders) => Seen::Refused(BadRequest::HeadTooLarge),
        Err(_) => Seen::Refused(BadRequest::BadHead),
    }
}

/// Trailers are looked for.
pub struct TrailersSought;

impl PrefixParser for TrailersSought {
    ghost use Rattle.http_wire_intake.specs.ChunkParts.{SeesTrailers};

    type Part = usize;

    type Refusal = BadRequest;

    ghost sees = { SeesTrailers };

    ghost waits = { λ b. ⊥ };

    fn look(&self, bytes: &[u8]) -> Seen<usize, BadRequest> {
        look_at_trailers(bytes)
    }

    fn is_due(&self, _more: &[u8]) -> bool {
        true
    }
}
