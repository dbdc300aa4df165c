//! The path and the query that a target asks for.
ghost use Rattle.std.specs.Prelude.{◌≡◌, IfOk};
ghost use Rattle.std.specs.Option.{option_map};
ghost use Rattle.http_wire.specs.claim.Target.{is_ascii as is_ascii_text, begins_with_slash as begins_with_slash_in};
ghost use Rattle.http_wire.specs.claim.Target.{after_authority as after_authority_of, after_scheme as after_scheme_of, target_of};
ghost use Rattle.http_wire.specs.Target.{with_slash};

use crate::word::is_named;
use std::alloc::{AllocError, Global};

/// A path and a query as they lie in a head. An empty path lacks its slash.
#[derive(Clone, Copy)]
pub struct Target<'a> {
    lacks_slash: bool,
    bytes: &'a [u8],
}

fn is_ascii(bytes: &[u8]) -> bool
    ensures { result ≡ is_ascii_text bytes.now }
{
    bytes.iter().all(|b| *b < 128)
}

fn begins_with_slash(bytes: &[u8]) -> bool
    ensures { result ≡ begins_with_slash_in bytes.now }
{
    match bytes {
        [first, ..] => *first == b'/',
        [] => false,
    }
}

/// What follows `http://`, in any case.
fn after_scheme(target: &[u8]) -> Option<&[u8]>
    ensures { option_map (λ rest. rest.now) result ≡ after_scheme_of target.now }
{
    let len = target.len().min(7);
    if is_named(b"http://", &target[..len]) {
        Some(&target[len..])
    } else {
        None
    }
}

/// What follows the authority.
fn after_authority(bytes: &[u8]) -> &[u8]
    ensures { result.now ≡ after_authority_of bytes.now }
{
    for (i, b) in bytes.iter().enumerate() {
        if *b == b'/' || *b == b'?' {
            return &bytes[i..];
        }
    }
    &bytes[bytes.len()..]
}

/// What a target asks for: origin-form, or absolute-form of the scheme `http`, whose authority is dropped.
pub fn read_target(target: &[u8]) -> Option<Target<'_>>
    ensures { option_map (λ t. with_slash t.lacks_slash t.bytes.now) result ≡ target_of target.now }
{
    if !is_ascii(target) {
        return None;
    }
    if begins_with_slash(target) {
        return Some(Target {
            lacks_slash: false,
            bytes: target,
        });
    }
    let rest = after_scheme(target)?;
    let bytes = after_authority(rest);
    Some(Target {
        lacks_slash: !begins_with_slash(bytes),
        bytes,
    })
}

impl Target<'_> {
    /// Its bytes, as a copy.
    pub fn to_vec(&self, alloc: Global) -> Result<Vec<u8>, AllocError>
        ensures { IfOk result (λ v. v.items ≡ with_slash self.now.lacks_slash self.now.bytes.now) }
    {
        let mut bytes = Vec::with_capacity(alloc, self.bytes.len() + 1)?;
        if self.lacks_slash {
            bytes.push(b'/')?;
        }
        bytes.extend_from_slice(self.bytes)?;
        Ok(bytes)
    }
}
