//! Words in any case.
ghost use Rattle.std.specs.Prelude.{◌≡◌};
ghost use Rattle.http_wire.specs.claim.Target.{is_word};

/// Whether a field's name is the word, in any case.
pub fn is_named(word: &[u8], name: &[u8]) -> bool
    ensures { result ≡ is_word word.now name.now }
{
    name.eq_ignore_ascii_case(word)
}
