//! Why a request is refused.

/// Why no request is taken. After an answer to any of these the connection closes.
#[derive(Clone, Copy)]
pub enum BadRequest {
    /// The first bytes are no head of HTTP/1.0 or 1.1, or those after the last chunk no trailers, whatever follows. 400
    BadHead,
    /// No head in the first 16,384 bytes, or more than 64 header lines; the same of trailers. 431
    HeadTooLarge,
    /// More than one Host line, or none in HTTP/1.1. 400
    BadHost,
    /// More than one Content-Length line, or one that is not 1 to 20 digits, or one with a
    /// Transfer-Encoding line; a Transfer-Encoding line whose last coding is not `chunked`, or in
    /// HTTP/1.0. 400
    BadLength,
    /// A coding before `chunked`, which comes last. 501
    BadCoding,
    /// A body of more than 33,554,432 bytes. 413
    BodyTooLarge,
    /// A target that begins with neither a slash nor `http://`, or has a byte outside ASCII. 400
    BadTarget,
    /// A line of a chunk that is none, or is longer than 256 bytes, or no CR LF after a chunk's data. 400
    BadChunk,
}
