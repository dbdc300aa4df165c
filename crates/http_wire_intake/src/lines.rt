//! The lines that have come, up to the first empty one.
ghost use Rattle.std.specs.Prelude.{◌≡◌, ◌==◌};
ghost use Rattle.std.specs.List.{list_any};
ghost use Rattle.http_wire_intake.specs.claim.Lines.{begins_empty as begins_empty_line, lines_end as lines_end_in};
ghost use Rattle.http_wire_intake.specs.claim.Lines.{section_lines as section_lines_in, head_lines as head_lines_in};

/// Whether the line that begins here is empty.
fn begins_empty(bytes: &[u8]) -> bool
    ensures { result ≡ begins_empty_line bytes.now }
{
    if bytes.is_empty() {
        return false;
    }
    if bytes[0] == b'\n' {
        return true;
    }
    bytes[0] == b'\r' && bytes.len() > 1 && bytes[1] == b'\n'
}

/// How many lines end, up to the first empty one, where one has begun.
fn lines_end(bytes: &[u8]) -> usize
    ensures { result ≡ lines_end_in bytes.now }
{
    let mut count = 0usize;
    for (i, b) in bytes.iter().enumerate() {
        if *b == b'\n' {
            count += 1;
            if begins_empty(&bytes[i + 1..]) {
                return count;
            }
        }
    }
    count
}

/// The lines of trailers.
pub fn section_lines(bytes: &[u8]) -> usize
    ensures { result ≡ section_lines_in bytes.now }
{
    if begins_empty(bytes) {
        return 0;
    }
    lines_end(bytes)
}

/// The lines of a head, but for the empty ones before it.
pub fn head_lines(bytes: &[u8]) -> usize
    ensures { result ≡ head_lines_in bytes.now }
{
    for (i, b) in bytes.iter().enumerate() {
        if *b != b'\r' && *b != b'\n' {
            return lines_end(&bytes[i..]);
        }
    }
    0
}

/// Whether a line ends in them.
pub fn ends_line(bytes: &[u8]) -> bool
    ensures { result ≡ list_any (λ b. b == 10) bytes.now }
{
    bytes.iter().any(|b| *b == b'\n')
}
