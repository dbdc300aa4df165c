//! Room that is used again from head to head.
use http_wire_intake::limits::FIELD_LIMIT;
use httparse::spans::{EMPTY_HEADER_SPAN, HeaderSpan};

/// Room for where the lines of a head are, which is made once for a stream.
#[derive(Drop)]
pub struct HeaderSlots {
    pub headers: [HeaderSpan; FIELD_LIMIT],
}

impl HeaderSlots {
    /// Room for 64 lines.
    pub fn new() -> HeaderSlots {
        HeaderSlots {
            headers: [EMPTY_HEADER_SPAN; FIELD_LIMIT],
        }
    }
}
