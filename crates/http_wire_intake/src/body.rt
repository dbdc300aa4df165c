//! The body of a request, read into room of its own.
ghost use Rattle.std.specs.Prelude.{◌≡◌, ◌≢◌, ◌+◌, ◌-◌, ◌*◌, ◌<◌, ◌≤◌, [], take, vec_len, OnOk, Err};
ghost use Rattle.http_wire_intake.specs.Body.{PieceCame, ReadsBody};
ghost use Rattle.http_wire_intake.specs.Draws.{DrawsOnly};

use crate::fault::WireFault;
use crate::intake::Intake;
use crate::read_buffer::{READ_BUFFER_LEN, turn_at};
use byte_stream::source::{Source, Turn};

/// One turn into the room after the filled bytes. Answers how many bytes came, and `None` at the end.
fn read_piece<R: Source>(
    intake: &mut Intake<'_, R>,
    body: &mut Vec<u8>,
    filled: usize,
) -> Result<Option<usize>, WireFault>
    requires { filled < vec_len body.old }
    ensures len { vec_len body.new ≡ vec_len body.old }
    ensures bytes { PieceCame (R.remaining intake.old.reader.now) (R.remaining intake.new.reader.now) body.old.items body.new.items filled result }
    ensures draws { DrawsOnly R.turns R.failures intake.old intake.new result }
    ensures read_buffer { intake.new.read_buffer.now ≡ intake.old.read_buffer.now }
    ensures fewer { OnOk result (intake.new.turns.now + 1 ≡ intake.old.turns.now) }
{
    if *intake.turns == 0 {
        return Err(WireFault::TurnLimit);
    }
    *intake.turns -= 1;
    match turn_at(intake.reader, body.as_mut_slice(), filled) {
        Turn::Read(0) => Ok(None),
        Turn::Read(n) => Ok(Some(n)),
        Turn::Interrupted => Ok(Some(0)),
        Turn::Failed => Err(WireFault::Read),
    }
}

/// Room for more bytes after the filled ones, where there is none: as much again as has come, and 65,536 bytes at least.
fn make_room(body: &mut Vec<u8>, filled: usize, n: usize) -> Result<(), WireFault>
    requires filled_len { filled ≤ vec_len body.old }
    requires short { filled < n }
    requires within { vec_len body.old ≤ n }
    ensures prefix { take filled body.new.items ≡ take filled body.old.items }
    ensures room { OnOk result (filled < vec_len body.new) }
    ensures within { vec_len body.new ≤ n }
    ensures grows { vec_len body.old ≤ 2 * filled + 65536 → vec_len body.new ≤ 2 * filled + 65536 }
    ensures err { result ≢ Err WireFault.Read }
{
    if body.len() > filled {
        return Ok(());
    }
    let more = (n - filled).min(filled.max(READ_BUFFER_LEN));
    body.reserve_exact(more)?;
    body.resize(filled + more, 0u8)?;
    Ok(())
}

/// Reads until the body has n bytes, none of which are held. Answers whether it has.
fn read_more<R: Source>(
    intake: &mut Intake<'_, R>,
    body: &mut Vec<u8>,
    n: usize,
) -> Result<bool, WireFault>
    requires short { vec_len body.old < n }
    requires none { intake.old.read_buffer.now ≡ [] }
    ensures { ReadsBody R.remaining R.turns R.failures intake.old intake.new n body.old.items body.new result }
{
    let mut filled = body.len();
    while filled < n {
        let Ok(()) = make_room(body, filled, n) else {
            return Err(WireFault::Memory);
        };
        match read_piece(intake, body, filled) {
            Ok(Some(k)) => filled += k,
            Ok(None) => return Ok(false),
            Err(fault) => return Err(fault),
        }
    }
    Ok(true)
}

/// Reads until the body has n bytes: those that are held, and the rest from the reader. Answers whether it has. Room is made as
/// bytes come, at most as much again as has come and 65,536 more, whatever n is.
pub fn read_body<R: Source>(
    intake: &mut Intake<'_, R>,
    body: &mut Vec<u8>,
    n: usize,
) -> Result<bool, WireFault>
    requires { vec_len body.old ≤ n }
    ensures { ReadsBody R.remaining R.turns R.failures intake.old intake.new n body.old.items body.new result }
{
    let wanted = n - body.len();
    let bytes = intake.held();
    let held = bytes.len().min(wanted);
    let Ok(()) = body.extend_from_slice(&bytes[..held]) else {
        return Err(WireFault::Memory);
    };
    intake.consume(held);
    if held == wanted {
        return Ok(true);
    }
    read_more(intake, body, n)
}
