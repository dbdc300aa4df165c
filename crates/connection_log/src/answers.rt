//! How many answers stand in a piece of what is written, and how many of them refuse.
ghost use Rattle.std.specs.Prelude.{◌≡◌, ◌≤◌};
ghost use Rattle.connection_log.specs.Answers.{answers_in as answers_of_text, class_of, one_from};

/// How many answers begin in a text.
#[derive(Clone, Copy)]
pub struct Answers {
    /// With a status of 200 or above: the interim ones are none.
    pub all: u64,
    /// With a status of 400 or above.
    pub refusals: u64,
}

/// The first digit of the status whose line a text begins with, or 0 where it begins with none.
fn class(text: &[u8]) -> u8
    ensures { result ≡ class_of text.now }
{
    if text.len() < 10 || !text.starts_with(b"HTTP/1.1 ") {
        return 0;
    }
    text[9]
}

/// 1 where a digit is this one or above.
fn one(digit: u8, class: u8) -> u64
    ensures value { result ≡ one_from digit class }
    ensures few { result ≤ 1 }
{
    if class >= digit { 1 } else { 0 }
}

/// Counts the answers whose heads are in a text. No body of an answer contains the beginning of a
/// status line.
pub fn answers_in(text: &[u8]) -> Answers
    ensures { result ≡ answers_of_text text.now }
{
    let mut all = 0u64;
    let mut refusals = 0u64;
    for place in 0..text.len() {
        let class = class(&text[place..]);
        all += one(b'2', class);
        refusals += one(b'4', class);
    }
    Answers { all, refusals }
}
