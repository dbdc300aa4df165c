//! Numbers of chunks.

/// The number of a chunk: it names one list of districts for good.
#[derive(Clone, Copy, Debug, PartialEq, Eq)]
pub struct ChunkId {
    pub number: u64,
}
