ghost use Rattle.std.specs.Prelude.{◌≡◌, IfOk, IfSome, IfNone, string_bytes};
ghost use Rattle.quic_lines.specs.Field.{hex_form, SpellsNoBytes};

use hex::FromHexError;
use quic_wire::OutOfMemory;
use std::alloc::Global;

/// The bytes in lower-case hexadecimal, `-` for none.
pub fn hex_field(alloc: Global, bytes: &[u8]) -> Result<String, OutOfMemory>
    ensures { IfOk result (λ field. string_bytes field ≡ hex_form bytes.now) }
{
    if bytes.is_empty() {
        return Ok(String::from_str(alloc, "-")?);
    }
    Ok(hex::encode(alloc, bytes)?)
}

/// The bytes whose form in lower-case hexadecimal this is; none for any other text.
pub fn hex_bytes(alloc: Global, field: &str) -> Result<Option<Vec<u8>>, OutOfMemory>
    ensures bytes { IfOk result (λ found. IfSome found (λ v. hex_form v.items ≡ field.now)) }
    ensures none { IfOk result (λ found. IfNone found (SpellsNoBytes field.now)) }
{
    if field == "-" {
        return Ok(Some(Vec::new(alloc)));
    }
    let bytes = match hex::decode(alloc, field) {
        Ok(bytes) => bytes,
        Err(FromHexError::OutOfMemory) => return Err(OutOfMemory),
        Err(FromHexError::InvalidHexCharacter { .. }) => return Ok(None),
        Err(FromHexError::OddLength) => return Ok(None),
        Err(FromHexError::InvalidStringLength) => return Ok(None),
    };
    // Upper-case digits are no form of the bytes, and neither is an empty field.
    let form = hex_field(alloc, bytes.as_slice())?;
    if form.as_str() == field {
        Ok(Some(bytes))
    } else {
        Ok(None)
    }
}
