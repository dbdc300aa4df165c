//! What the definitions of chunks have for all inputs.
ghost use Rattle.http_wire_intake.specs.Chunks.{ChunkLaw};

/// Chunks are exactly one of these: one body, one fault, or incomplete; a body and a fault stay, whatever follows.
pub fn chunk_law()
    ensures { ChunkLaw }
{}
