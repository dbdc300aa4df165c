//! What the definitions of a prefix have for all inputs, and at worked ones.
ghost use Rattle.http_wire.specs.Law.{PrefixLaw, WorkedPrefixes};

use http_wire_intake::law::chunk_law;

/// Each prefix of an input is exactly one of these: a request, one fault, or incomplete. Only more
/// than 64 lines may come with another fault of the head or the trailers.
pub fn prefix_law()
    ensures { PrefixLaw }
{
    chunk_law();
}

/// The prefixes of worked inputs.
pub fn worked_prefixes()
    ensures { WorkedPrefixes }
{}
