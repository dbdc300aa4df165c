//! A text as lines, and a line as fields.
ghost use Rattle.std.specs.Prelude.{◌≡◌};
ghost use Rattle.std.specs.Str.Lines.{lines};
ghost use Rattle.field_text.specs.claim.Fields.{fields};

use crate::field::Fields;
use crate::line::Lines;

/// Returns the lines of a text, each a slice of it with its number, counted from 1. A line ends with LF or CRLF; the
/// last may lack its end.
pub fn lines(text: &[u8]) -> Lines<'_>
    ensures number { result.number ≡ 0 }
    ensures left { result.left ≡ lines text.now }
{
    Lines::new(text)
}

/// Returns the fields of a line, each a slice of it: the parts between its bars.
pub fn fields(line: &[u8]) -> Fields<'_>
    ensures { result ≡ fields line.now }
{
    Fields::new(line)
}
