//! The writer of a connection, which marks its answers.
ghost use Rattle.std.specs.Prelude.{◌≡◌, ◌++◌, nat_eq, codes};
ghost use Rattle.std.specs.List.{ends_with};
ghost use Rattle.byte_stream.specs.claim.Sends.{Sends, failures_with};
ghost use Rattle.http_desk_connections.specs.Answers.{is_answer as is_answer_text};

use crate::door::AcceptQueue;
use crate::mark::Mark;
use byte_stream::sink::{Sink, WriteFault};
use http_wire::gather::GatherSink;

/// The writer of a connection. It marks that the connection was answered, and reports to the door
/// if the store's device has failed.
#[derive(Drop)]
pub struct KeptSink<'a, W> {
    writer: W,
    mark: &'a Mark,
    door: &'a AcceptQueue,
}

/// Returns whether a text answers a request: an interim response, which is sent by itself, does
/// not.
fn is_answer(text: &[u8]) -> bool
    ensures { result ≡ is_answer_text text.now }
{
    if text.is_empty() {
        return false;
    }
    !text.starts_with(b"HTTP/1.1 1")
}

/// Whether the last answer in a text is the one to a command after a fault of the store's device.
fn tells_halt(text: &[u8]) -> bool
    ensures { result ≡ ends_with nat_eq text.now (codes "{\"error\":\"Halted\"}") }
{
    text.ends_with(b"{\"error\":\"Halted\"}")
}

/// Notes what a text answers, where it answers a request. The body of a refusal, and of hardly another answer, ends so.
fn note(mark: &Mark, text: &[u8]) {
    if !is_answer(text) {
        return;
    }
    if text.ends_with(b"\"}") {
        mark.note_refusal();
    } else {
        mark.note_answer();
    }
}

impl<'a, W: GatherSink> KeptSink<'a, W> {
    pub fn new(writer: W, mark: &'a Mark, door: &'a AcceptQueue) -> KeptSink<'a, W>
        ensures writer { result.writer ≡ writer }
    {
        KeptSink { writer, mark, door }
    }
}

impl<'a, W: GatherSink> Sink for KeptSink<'a, W> {
    ghost contents = { λ s. W.contents s.writer };

    ghost failures = { λ s. W.failures s.writer };

    fn send(&mut self, bytes: &[u8]) -> Result<(), WriteFault>
        ensures bytes { Sends (W.contents self.old.writer) (W.contents self.new.writer) result bytes.now }
        ensures failures { W.failures self.new.writer ≡ failures_with (W.failures self.old.writer) result }
    {
        note(self.mark, bytes);
        if tells_halt(bytes) {
            self.door.note_halt();
        }
        self.writer.send(bytes)
    }
}

impl<'a, W: GatherSink> GatherSink for KeptSink<'a, W> {
    fn send_both(&mut self, first: &[u8], second: &[u8]) -> Result<(), WriteFault>
        ensures bytes { Sends (W.contents self.old.writer) (W.contents self.new.writer) result (first.now ++ second.now) }
        ensures failures { W.failures self.new.writer ≡ failures_with (W.failures self.old.writer) result }
    {
        if is_answer(first) {
            self.mark.note_answer();
        }
        self.writer.send_both(first, second)
    }
}
