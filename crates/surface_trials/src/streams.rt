//! Requests and answers on a stream that a clerk serves.
use crate::stores::sealed_clerk;
use byte_stream::sink::WriteSink;
use byte_stream::source::ReadSource;
use desk_model::gate::NoGate;
use desk_store::Clerk;
use http::{Method, StatusCode};
use http_desk::{Counter, serve};
use http_wire::read_buffer::ReadBuffer;
use http_wire::request::{Incoming, TURN_LIMIT, read_request};
use http_wire::response::{ContentType, Response, WriteBuffer, write_response};
use sector_memory::Fused;

/// A list of plans, and twice the command that makes plan a.
const ASKED: &[u8] =
    b"GET /plans HTTP/1.1\r\nHost: d\r\n\r\nPUT /plans/a?kind=congress&districts=2 HTTP/1.1\r\nHost: d\r\n\r\nPUT /plans/a?kind=congress&districts=2 HTTP/1.1\r\nHost: d\r\n\r\n";

const LISTED: &[u8] =
    b"HTTP/1.1 200 OK\r\nContent-Type: application/json\r\nContent-Length: 12\r\n\r\n{\"plans\":[]}";

const ANSWERED: &[u8] =
    b"HTTP/1.1 200 OK\r\nContent-Type: application/json\r\nContent-Length: 12\r\n\r\n{\"plans\":[]}HTTP/1.1 201 Created\r\nContent-Type: application/json\r\nContent-Length: 26\r\n\r\n{\"plan\":\"a\",\"revisions\":0}HTTP/1.1 409 Conflict\r\nContent-Type: application/json\r\nContent-Length: 22\r\n\r\n{\"error\":\"PlanExists\"}";

#[test]
fn a_request_is_read(rt: HostRuntime) {
    let rt = &rt;
    let alloc = rt.alloc();
    let mut reader = ReadSource::new(ASKED);
    let mut writer = WriteSink::new(Vec::new(alloc));
    let mut buffer = ReadBuffer::new(alloc).expect(rt, "no memory");
    let mut turns = TURN_LIMIT;
    let read = read_request(alloc, &mut reader, &mut writer, &mut buffer, &mut turns);
    let is_first = match read {
        Ok(Incoming::Request(request)) => {
            (request.method == Method::GET)
                & (request.target.as_slice() == b"/plans".as_slice())
                & !request.closes
                & request.body.is_empty()
        }
        _ => false,
    };
    holds!(rt; is_first & writer.into_inner().is_empty());
}

#[test]
fn a_response_is_written(rt: HostRuntime) {
    let rt = &rt;
    let alloc = rt.alloc();
    let mut writer = WriteSink::new(Vec::new(alloc));
    let mut buffer = WriteBuffer::new(alloc).expect(rt, "no memory");
    let response = Response {
        status: StatusCode::OK,
        kind: ContentType::Json,
        allow: None,
        closes: false,
        head_only: false,
        body: b"{\"plans\":[]}",
    };
    let written = write_response(&mut writer, &mut buffer, &response).is_ok();
    holds!(rt; written & buffer.flush(&mut writer).is_ok());
    holds!(rt; writer.into_inner().as_slice() == LISTED);
}

#[test]
fn a_stream_is_served(rt: HostRuntime) {
    let rt = &rt;
    let alloc = rt.alloc();
    let mut clerk = sealed_clerk(rt, alloc);
    holds!(rt; <Clerk<Fused> as Counter>::ALONE);
    let mut reader = ReadSource::new(ASKED);
    let mut writer = WriteSink::new(Vec::new(alloc));
    let served = serve(alloc, &mut reader, &mut writer, &mut clerk, &NoGate);
    holds!(rt; matches!(served, Ok(served) if served.requests == 3));
    holds!(rt; writer.into_inner().as_slice() == ANSWERED);
}
