//! A message on a stream: how long its text is, in four bytes with the highest first, and then the text. A stream
//! is bytes without boundaries (RFC 9000 section 2.2).

ghost use Rattle.std.specs.Prelude.{◌≡◌, IfOk, IfNone, OnErr};

use anyhow::{Context, Result};
use quic_values::{Bytes, OutOfMemory};

/// Appends a message. It is an error where the text has 2^32 bytes or more.
pub fn append_message(text: &[u8], out: &mut Bytes) -> Result<()> {
    let length = u32::try_from(text.len()).context("a message of 2^32 bytes or more")?;
    out.extend_from_slice(&length.to_be_bytes())?;
    Ok(out.extend_from_slice(text)?)
}

/// Takes the text of the first message off. `None`: it is not whole.
pub fn take_message(bytes: &mut Bytes) -> Result<Option<Bytes>, OutOfMemory>
    ensures kept { IfOk result (λ taken. IfNone taken (bytes.new ≡ bytes.old)) }
    ensures err { OnErr result (bytes.new ≡ bytes.old) }
{
    let [a, b, c, d, rest @ ..] = bytes.as_slice() else {
        return Ok(None);
    };
    let length = u32::from_be_bytes([*a, *b, *c, *d]) as usize;
    if rest.len() < length {
        return Ok(None);
    }
    let mut message = bytes.split_to(length + 4)?;
    message.advance(4);
    Ok(Some(message))
}
