//! What is looked for at the start of the bytes that have come.
ghost use Rattle.std.specs.Prelude.{◌≡◌, ℕ, ◌<◌, List, length, All, Ok, Err, false, true, OnOk};
ghost use Rattle.std.specs.Io.KnownBytes.{IsAtEnd};
ghost use Rattle.http_wire_intake.specs.declared.sought.Seen.{Seen};
ghost use Rattle.http_wire_intake.specs.Draws.{Reads, SeesPrefix, WantsAtEnd, AddsWaiting, DrawsOnly};

use crate::fault::WireFault;
use crate::intake::Intake;
use crate::read_buffer::LOOK_LIMIT;
use byte_stream::source::Source;

/// What was found at the start of the bytes.
#[derive(Clone, Copy)]
pub enum Seen<T, E> {
    Found(T),
    Refused(E),
    /// More bytes are wanted.
    Incomplete,
}

/// A part that is looked for.
pub trait PrefixParser {
    /// The part that is found.
    type Part;

    /// Why none can come.
    type Refusal;

    // What each look finds in the bytes.
    ghost sees: { List ℕ → Seen Self.Part Self.Refusal → Type 0 };

    // The bytes that may come without a look.
    ghost waits: { ℕ → Type 0 };

    /// Looks for it at the start of the bytes. Fewer than 16,384 bytes want more.
    fn look(&self, bytes: &[u8]) -> Seen<Self::Part, Self::Refusal>
        ensures sees { sees bytes.now result }
        ensures short { result ≡ Seen.Incomplete → length bytes.now < 16384 };

    /// Whether to look again once these bytes have come.
    fn is_due(&self, more: &[u8]) -> bool
        ensures { result ≡ false → All waits more.now };
}

/// Reads until a look is due: 16,384 bytes are always looked at. Answers whether the reader is at its end.
fn read_until_due<S: PrefixParser, R: Source>(
    intake: &mut Intake<'_, R>,
    sought: &S,
) -> Result<bool, WireFault>
    requires { length intake.old.read_buffer.now < 16384 }
    ensures read { Reads R.remaining intake.old intake.new (λ input rest. rest ≡ input) }
    ensures end { result ≡ Ok true → IsAtEnd (R.remaining intake.new.reader.now) }
    ensures waiting { AddsWaiting S.waits intake.old.read_buffer.now intake.new.read_buffer.now result }
    ensures draws { DrawsOnly R.turns R.failures intake.old intake.new result }
    ensures fewer { OnOk result (intake.new.turns.now < intake.old.turns.now) }
{
    loop {
        let looked = intake.held().len();
        match intake.fill() {
            Ok(true) => return Ok(true),
            Ok(false) => {}
            Err(fault) => return Err(fault),
        }
        let held = intake.held();
        if held.len() >= LOOK_LIMIT || sought.is_due(&held[looked..]) {
            return Ok(false);
        }
    }
}

/// Reads until the part has come, or cannot come. `Incomplete` is the end of the input. A look is put off while only bytes come
/// that may wait, so that many pieces of one line are looked at once.
pub fn read_prefix<S: PrefixParser, R: Source>(
    intake: &mut Intake<'_, R>,
    sought: &S,
) -> Result<Seen<S::Part, S::Refusal>, WireFault>
    ensures read { Reads R.remaining intake.old intake.new (λ input rest. rest ≡ input) }
    ensures sees { SeesPrefix S.sees S.waits intake.new.read_buffer.now result }
    ensures end { WantsAtEnd (R.remaining intake.new.reader.now) result }
    ensures draws { DrawsOnly R.turns R.failures intake.old intake.new result }
{
    loop {
        match sought.look(intake.held()) {
            Seen::Found(part) => return Ok(Seen::Found(part)),
            Seen::Refused(refusal) => return Ok(Seen::Refused(refusal)),
            Seen::Incomplete => {}
        }
        match read_until_due(intake, sought) {
            Ok(true) => return Ok(sought.look(intake.held())),
            Ok(false) => {}
            Err(fault) => return Err(fault),
        }
    }
}
