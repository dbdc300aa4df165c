//! Lines, written one after the other as far as that can be done.
ghost use Rattle.connection_log.specs.Lines.{TellsEntry, TellsEach, TellsEnd, TellsBatch};

use crate::line::{Ending, LineText, LogLine, Owed};
use crate::waiting::Taken;
use byte_stream::sink::Sink;

/// Writes an entry's line, after the number of lines dropped before it, and returns what the next
/// line has to report. A line that could not be written may be in the log in part, so the next text
/// begins with its end.
fn tell_entry<W: Sink>(writer: &mut W, text: &mut LineText, entry: &LogLine, dropped: Owed) -> Owed
    ensures { TellsEntry dropped entry.now result (W.contents writer.old) (W.contents writer.new) }
{
    text.clear();
    text.put_dropped(dropped, entry.moment());
    text.put_entry(entry);
    match writer.send(text.as_slice()) {
        Ok(()) => Owed {
            lines: 0,
            is_cut: false,
        },
        Err(_) => Owed {
            lines: dropped.lines.saturating_add(1),
            is_cut: true,
        },
    }
}

fn tell_each<W: Sink>(writer: &mut W, text: &mut LineText, lines: &[LogLine], dropped: Owed) -> Owed
    ensures { TellsEach dropped lines.now result (W.contents writer.old) (W.contents writer.new) }
{
    let mut left = dropped;
    for line in lines {
        left = tell_entry(writer, text, line, left);
    }
    left
}

fn tell_end<W: Sink>(
    writer: &mut W,
    text: &mut LineText,
    end: Option<Ending>,
    dropped: Owed,
) -> Owed
    ensures { TellsEnd dropped end result (W.contents writer.old) (W.contents writer.new) }
{
    match end {
        Some(ending) => tell_entry(writer, text, &LogLine::End(ending), dropped),
        None => dropped,
    }
}

/// Writes lines, and at the end the line of all connections. `refused` lines were dropped after
/// these. Returns the number of lines that the next one reports as dropped, including those that
/// could not be written.
pub fn tell_batch<W: Sink>(
    writer: &mut W,
    text: &mut LineText,
    lines: &[LogLine],
    taken: Taken,
    dropped: Owed,
) -> Owed
    ensures { TellsBatch dropped lines.now taken.refused taken.end result (W.contents writer.old) (W.contents writer.new) }
{
    let left = tell_each(writer, text, lines, dropped);
    let owed = Owed {
        lines: left.lines.saturating_add(taken.refused),
        is_cut: left.is_cut,
    };
    tell_end(writer, text, taken.end, owed)
}
