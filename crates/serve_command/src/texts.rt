//! What is printed once a store is served.
ghost use Rattle.std.specs.Prelude.{◌≡◌, IfOk};
ghost use Rattle.serve_command.specs.Serving.{listening_text as text_of_port};

use itoa::Buffer;
use std::alloc::{AllocError, Global};

pub fn listening_text(alloc: Global, port: u16) -> Result<Vec<u8>, AllocError>
    ensures { IfOk result (λ text. text.items ≡ text_of_port port) }
{
    let mut digits = Buffer::new();
    let mut text = Vec::new(alloc);
    text.extend_from_slice(b"listening on 127.0.0.1:")?;
    text.extend_from_slice(digits.format(port).as_bytes())?;
    text.extend_from_slice(b"\n")?;
    Ok(text)
}
