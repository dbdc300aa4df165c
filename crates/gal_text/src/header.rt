//! The header's line of a neighbour file.
ghost use Rattle.std.specs.Prelude.{◌≡◌};
ghost use Rattle.field_text.specs.claim.Digits.{number_of};
ghost use Rattle.byte_stream.specs.claim.Words.{words};
ghost use Rattle.gal_text.specs.claim.Units.{count_of_word, count_of_words, header_count};

use crate::fault::TextFault;
use byte_stream::reader::LINE_LIMIT;
use byte_stream::words::Words;
use field_text::digits::number;

fn count_of_word(word: &[u8]) -> Result<u64, TextFault>
    ensures { result ≡ count_of_word (number_of 10 word.now) }
{
    match number(word, 10) {
        Some(count) => Ok(count),
        None => Err(TextFault::Count(0)),
    }
}

/// The count in a line's words. Those after the fourth aren't looked at.
fn count_of_words(line: &[u8]) -> Result<u64, TextFault>
    ensures { result ≡ count_of_words (words line.now) }
{
    let mut words = Words::new(line);
    let Some(first) = words.next_word() else {
        return Err(TextFault::Header);
    };
    let Some(second) = words.next_word() else {
        return count_of_word(first);
    };
    let Some(_) = words.next_word() else {
        return Err(TextFault::Header);
    };
    let Some(_) = words.next_word() else {
        return Err(TextFault::Header);
    };
    count_of_word(second)
}

/// The number of units.
pub fn header_count(line: &[u8]) -> Result<u64, TextFault>
    ensures { result ≡ header_count line.now }
{
    if line.len() > LINE_LIMIT {
        return Err(TextFault::Header);
    }
    count_of_words(line)
}
