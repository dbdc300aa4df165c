//! `talk` over the standard streams.
use crate::faults::explain_line;
use byte_stream::sink::WriteSink;
use byte_stream::source::ReadSource;
use command_output::noting::LastLineWriter;
use command_output::status::Status;
use talk_command::talk::talk;

/// Serves standard input to standard output.
pub fn serve_talk(rt: &HostRuntime, with_words: bool) -> Status {
    let mut reader = ReadSource::new(rt.stdin());
    let mut writer = WriteSink::new(rt.stdout());
    let mut errors = LastLineWriter::new(rt.stderr());
    let status = talk(rt.alloc(), &mut reader, &mut writer, &mut errors);
    let _ = reader.into_inner();
    let _ = writer.into_inner();
    explain_line(rt, &errors, with_words, &[], None);
    status
}
