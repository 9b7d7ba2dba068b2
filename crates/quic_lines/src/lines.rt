ghost use Rattle.std.specs.Prelude.{◌≡◌, ◌≤◌, ◌<◌, ◌^◌, ◌↔◌, ℕ, ℤ, Bool, FitsSigned, IsTrue, IfOk, IfErr, IfSome, IfNone, length, map, slice_index};
ghost use Rattle.std.specs.Int.{w32};
ghost use Rattle.std.specs.Fmt.{decimal, signed_decimal};
ghost use Rattle.std.specs.List.{join_with_byte};
ghost use Rattle.std.specs.Str.{IsAscii};
ghost use Rattle.quic_lines.specs.Field.{hex_form, SpellsNoBytes, SpellsNoChunks};
ghost use Rattle.quic_lines.specs.Grammar.{end_text, letter_text, part_text, fields_of, limit_fields, MeansConfig, MeansNoConfig, IsConfigInRange, remembered_fields, MeansEarly, MeansNoEarly, IsEarlyInRange};
ghost use Rattle.quic_lines.specs.Line.{direction_text};

use crate::hexadecimal::hex_bytes;
use quic_outgoing::PeerLimits;
use quic_steps::{Config, End, PayloadPart};
use quic_values::ChunkList;
use quic_wire::{Bytes, Dir, MAX_STREAM_COUNT, OutOfMemory, StreamId, VarInt};
use std::alloc::{AllocError, AllocFailed, Global};

/// Why a line is not a step.
#[derive(Clone, Copy, Debug, PartialEq, Eq)]
pub enum LineError {
    Malformed,
    OutOfMemory,
}

impl From<OutOfMemory> for LineError {
    ghost use Rattle.std.specs.Prelude.{◌≡◌};
    ghost use Rattle.quic_lines.specs.declared.lines.LineError.TheVariants.{OutOfMemory};

    ghost from_gives = { λ _ error. error ≡ OutOfMemory };

    fn from(_error: OutOfMemory) -> Self {
        LineError::OutOfMemory
    }
}

impl From<AllocError> for LineError {
    ghost use Rattle.std.specs.Prelude.{◌≡◌};
    ghost use Rattle.quic_lines.specs.declared.lines.LineError.TheVariants.{OutOfMemory};

    ghost from_gives = { λ _ error. error ≡ OutOfMemory };

    fn from(_error: AllocError) -> Self {
        LineError::OutOfMemory
    }
}

impl<T: Drop> From<AllocFailed<T>> for LineError {
    ghost use Rattle.std.specs.Prelude.{◌≡◌};
    ghost use Rattle.quic_lines.specs.declared.lines.LineError.TheVariants.{OutOfMemory};

    ghost from_gives = { λ _ error. error ≡ OutOfMemory };

    fn from(_error: AllocFailed<T>) -> Self {
        LineError::OutOfMemory
    }
}

// The line of remembered limits has eight fields, and every other one fewer.
const MOST_FIELDS: usize = 8;

// The fields of a line, which single spaces part. A line of more than any step has is not taken apart.
pub(crate) fn fields_of<'a>(alloc: Global, line: &'a [u8]) -> Result<Vec<&'a str>, LineError>
    ensures none { IfErr result (λ error. error ≡ LineError.Malformed → IsAscii line.now → 8 < length (fields_of line.now)) }
    ensures ascii { IfOk result (λ fields. IsAscii line.now) }
    ensures fields { IfOk result (λ fields. map (λ field. field.now) fields.items ≡ fields_of line.now) }
{
    if !line.is_ascii() {
        return Err(LineError::Malformed);
    }
    let Ok(text) = str::from_utf8(line) else {
        return Err(LineError::Malformed);
    };
    parts_of(alloc, text)
}

fn parts_of(alloc: Global, text: &str) -> Result<Vec<&str>, LineError>
    ensures none { IfErr result (λ error. error ≡ LineError.Malformed → 8 < length (fields_of text.now)) }
    ensures parts { IfOk result (λ parts. map (λ part. part.now) parts.items ≡ fields_of text.now) }
{
    let mut parts = Vec::with_capacity(alloc, MOST_FIELDS)?;
    for part in text.split(' ') {
        if parts.len() == MOST_FIELDS {
            return Err(LineError::Malformed);
        }
        parts.push(part)?;
    }
    Ok(parts)
}

fn begins_as_number(text: &[u8]) -> bool
    ensures { IsTrue result ↔ ((49 ≤ slice_index text.now 0) × (slice_index text.now 0 ≤ 57)) }
{
    matches!(text, [b'1'..=b'9', ..])
}

fn begins_as_negative(text: &[u8]) -> bool
    ensures { IsTrue result ↔ ((slice_index text.now 0 ≡ 45) × (49 ≤ slice_index text.now 1) × (slice_index text.now 1 ≤ 57)) }
{
    matches!(text, [b'-', b'1'..=b'9', ..])
}

// A decimal number without sign or leading zeros.
pub(crate) fn number(field: &str) -> Result<u64, LineError>
    ensures text { IfOk result (λ n. field.now ≡ decimal n) }
    ensures none { IfErr result (λ error. (n : ℕ) → n < 2 ^ 64 → field.now ≡ decimal n → ⊥) }
{
    if field == "0" {
        return Ok(0);
    }
    if !begins_as_number(field.as_bytes()) {
        return Err(LineError::Malformed);
    }
    field.parse::<u64>().or(Err(LineError::Malformed))
}

pub(crate) fn size(field: &str) -> Result<usize, LineError>
    ensures text { IfOk result (λ n. field.now ≡ decimal n) }
    ensures none { IfErr result (λ error. (n : ℕ) → n < 2 ^ 64 → field.now ≡ decimal n → ⊥) }
{
    Ok(number(field)? as usize)
}

// A number below 2^62.
pub(crate) fn var_int(field: &str) -> Result<VarInt, LineError>
    ensures text { IfOk result (λ n. field.now ≡ decimal n) }
    ensures none { IfErr result (λ error. (n : ℕ) → n < 2 ^ 62 → field.now ≡ decimal n → ⊥) }
{
    VarInt::from_u64(number(field)?).ok_or(LineError::Malformed)
}

pub(crate) fn stream_id(field: &str) -> Result<StreamId, LineError>
    ensures text { IfOk result (λ id. field.now ≡ decimal id) }
    ensures none { IfErr result (λ error. (id : ℕ) → id < 2 ^ 62 → field.now ≡ decimal id → ⊥) }
{
    Ok(StreamId::from(var_int(field)?))
}

// A number of streams, at most 2^60.
pub(crate) fn count(field: &str) -> Result<VarInt, LineError>
    ensures small { IfOk result (λ n. n ≤ 2 ^ 60) }
    ensures text { IfOk result (λ n. field.now ≡ decimal n) }
    ensures none { IfErr result (λ error. (n : ℕ) → n ≤ 2 ^ 60 → field.now ≡ decimal n → ⊥) }
{
    let count = var_int(field)?;
    if count.into_inner() > MAX_STREAM_COUNT {
        return Err(LineError::Malformed);
    }
    Ok(count)
}

// A number of 32 bits, with `-` in front where it is negative.
pub(crate) fn priority(field: &str) -> Result<i32, LineError>
    ensures text { IfOk result (λ n. field.now ≡ signed_decimal n) }
    ensures none { IfErr result (λ error. (n : ℤ) → FitsSigned w32 n → field.now ≡ signed_decimal n → ⊥) }
{
    if field == "0" {
        return Ok(0);
    }
    if begins_as_number(field.as_bytes()) {
        return field.parse::<i32>().or(Err(LineError::Malformed));
    }
    if begins_as_negative(field.as_bytes()) {
        return field.parse::<i32>().or(Err(LineError::Malformed));
    }
    Err(LineError::Malformed)
}

// How many chunks a read asks for, from 1 to 65535.
pub(crate) fn times(field: &str) -> Result<u16, LineError>
    ensures some { IfOk result (λ n. 0 < n) }
    ensures text { IfOk result (λ n. field.now ≡ decimal n) }
    ensures none { IfErr result (λ error. (n : ℕ) → 0 < n → n ≤ 65535 → field.now ≡ decimal n → ⊥) }
{
    let times = number(field)?;
    if times == 0 || times > 65535 {
        return Err(LineError::Malformed);
    }
    Ok(times as u16)
}

pub(crate) fn end(field: &str) -> Result<End, LineError>
    ensures text { IfOk result (λ who. field.now ≡ end_text who) }
    ensures none { IfErr result (λ error. (who : End) → field.now ≡ end_text who → ⊥) }
{
    match field {
        "a" => Ok(End::A),
        "b" => Ok(End::B),
        _ => Err(LineError::Malformed),
    }
}

pub(crate) fn direction(field: &str) -> Result<Dir, LineError>
    ensures text { IfOk result (λ dir. field.now ≡ direction_text dir) }
    ensures none { IfErr result (λ error. (dir : Dir) → field.now ≡ direction_text dir → ⊥) }
{
    match field {
        "bi" => Ok(Dir::Bi),
        "uni" => Ok(Dir::Uni),
        _ => Err(LineError::Malformed),
    }
}

pub(crate) fn payload_part(field: &str) -> Result<PayloadPart, LineError>
    ensures text { IfOk result (λ part. field.now ≡ part_text part) }
    ensures none { IfErr result (λ error. (part : PayloadPart) → field.now ≡ part_text part → ⊥) }
{
    match field {
        "control" => Ok(PayloadPart::Control),
        "streams" => Ok(PayloadPart::Streams),
        _ => Err(LineError::Malformed),
    }
}

// One of two letters: whether it is the first.
pub(crate) fn is_first(field: &str, first: &str, second: &str) -> Result<bool, LineError>
    ensures text { IfOk result (λ b. field.now ≡ letter_text first.now second.now b) }
    ensures none { IfErr result (λ error. (b : Bool) → field.now ≡ letter_text first.now second.now b → ⊥) }
{
    if field == first {
        Ok(true)
    } else if field == second {
        Ok(false)
    } else {
        Err(LineError::Malformed)
    }
}

pub(crate) fn bytes(alloc: Global, field: &str) -> Result<Bytes, LineError>
    ensures text { IfOk result (λ bytes. field.now ≡ hex_form bytes) }
    ensures none { IfErr result (λ error. error ≡ LineError.Malformed → SpellsNoBytes field.now) }
{
    match hex_bytes(alloc, field)? {
        Some(bytes) => Ok(Bytes::from(bytes)),
        None => Err(LineError::Malformed),
    }
}

// Chunks of bytes that single commas part. Room for all of them is made first.
pub(crate) fn chunks(alloc: Global, field: &str) -> Result<ChunkList, LineError>
    ensures text { IfOk result (λ chunks. field.now ≡ join_with_byte 44 (map hex_form chunks)) }
    ensures none { IfErr result (λ error. error ≡ LineError.Malformed → SpellsNoChunks field.now) }
{
    let commas = field.bytes().filter(|byte| *byte == b',').count();
    let digits = field
        .bytes()
        .filter(|byte| byte.is_ascii_hexdigit())
        .count();
    let mut chunks = ChunkList::with_capacity(alloc, commas + 1, digits / 2)?;
    for part in field.split(',') {
        let chunk = bytes(alloc, part)?;
        chunks.push(chunk.as_slice())?;
    }
    Ok(chunks)
}

/// One of the first two lines: what the end `who` permits.
pub fn parse_config(alloc: Global, line: &[u8], who: End) -> Result<Config, LineError>
    ensures ascii { IfOk result (λ config. IsAscii line.now) }
    ensures means { IfOk result (MeansConfig line.now who) }
    ensures none { IfErr result (λ error. error ≡ LineError.Malformed → MeansNoConfig line.now who) }
{
    let fields = fields_of(alloc, line)?;
    match fields.as_slice() {
        ["config", name, limits @ ..] if end(name)? == who => config_of(limits),
        _ => Err(LineError::Malformed),
    }
}

// What stands behind the end in a config.
fn config_of(limits: &[&str]) -> Result<Config, LineError>
    ensures text { IfOk result (λ config. map (λ field. field.now) limits.now ≡ limit_fields config) }
    ensures none { IfErr result (λ error. (config : Config) → IsConfigInRange config → map (λ field. field.now) limits.now ≡ limit_fields config → ⊥) }
{
    match limits {
        [
            max_remote_uni,
            max_remote_bi,
            send_window,
            receive_window,
            stream_receive_window,
        ] => Ok(Config {
            max_remote_uni: count(max_remote_uni)?,
            max_remote_bi: count(max_remote_bi)?,
            send_window: number(send_window)?,
            receive_window: var_int(receive_window)?,
            stream_receive_window: var_int(stream_receive_window)?,
        }),
        _ => Err(LineError::Malformed),
    }
}

/// The third line, if it is one of the limits that the client remembers (RFC 9000 section 7.4.1); none for any other line.
pub fn parse_early(alloc: Global, line: &[u8]) -> Result<Option<PeerLimits>, OutOfMemory>
    ensures ascii { IfOk result (λ found. IfSome found (λ limits. IsAscii line.now)) }
    ensures means { IfOk result (λ found. IfSome found (MeansEarly line.now)) }
    ensures range { IfOk result (λ found. IfSome found IsEarlyInRange) }
    ensures none { IfOk result (λ found. IfNone found (MeansNoEarly line.now)) }
{
    match early_line(alloc, line) {
        Ok(limits) => Ok(Some(limits)),
        Err(LineError::Malformed) => Ok(None),
        Err(LineError::OutOfMemory) => Err(OutOfMemory),
    }
}

fn early_line(alloc: Global, line: &[u8]) -> Result<PeerLimits, LineError>
    ensures ascii { IfOk result (λ limits. IsAscii line.now) }
    ensures means { IfOk result (MeansEarly line.now) }
    ensures range { IfOk result IsEarlyInRange }
    ensures none { IfErr result (λ error. error ≡ LineError.Malformed → MeansNoEarly line.now) }
{
    let fields = fields_of(alloc, line)?;
    match fields.as_slice() {
        ["early", "a", limits @ ..] => remembered_of(limits),
        _ => Err(LineError::Malformed),
    }
}

// What stands behind the client in that line.
fn remembered_of(limits: &[&str]) -> Result<PeerLimits, LineError>
    ensures text { IfOk result (λ l. map (λ field. field.now) limits.now ≡ remembered_fields l) }
    ensures range { IfOk result IsEarlyInRange }
    ensures none { IfErr result (λ error. (l : PeerLimits) → IsEarlyInRange l → map (λ field. field.now) limits.now ≡ remembered_fields l → ⊥) }
{
    match limits {
        [data, bidi, uni, data_uni, data_local, data_remote] => Ok(PeerLimits {
            initial_max_data: var_int(data)?,
            initial_max_streams_bidi: count(bidi)?,
            initial_max_streams_uni: count(uni)?,
            initial_max_stream_data_uni: var_int(data_uni)?,
            initial_max_stream_data_bidi_local: var_int(data_local)?,
            initial_max_stream_data_bidi_remote: var_int(data_remote)?,
        }),
        _ => Err(LineError::Malformed),
    }
}
