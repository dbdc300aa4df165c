//! `explain` over the standard streams.
use crate::faults::{explain_last, standard_error};
use byte_stream::sink::WriteSink;
use command_output::explaining::explain;
use command_output::status::Status;

/// Prints what is known of a code, or where none is asked for, of all codes.
pub fn explain_code(rt: &HostRuntime, with_words: bool, code: Option<&str>) -> Status {
    let mut writer = WriteSink::new(rt.stdout());
    let mut errors = standard_error(rt);
    let status = explain(rt.alloc(), code, &mut writer, &mut errors);
    let _ = writer.into_inner();
    explain_last(rt, errors, with_words, &[], None);
    status
}
