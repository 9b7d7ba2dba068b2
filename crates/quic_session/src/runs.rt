//! Where the frames of the library stand in a payload that has other frames, too.

ghost use Rattle.std.specs.Prelude.{ℕ, List, [], ◌≡◌, ◌^◌, ◌<◌, ◌≤◌, ◌++◌, length, drop, true, None, IfSome};
ghost use Rattle.std.specs.Int.{w16, w32, w64};
ghost use Rattle.quic_wire.specs.declared.frame.Frame.{Frame as FrameValue};
ghost use Rattle.quic_wire.specs.Frames.{BeginsFrames};
ghost use Rattle.quic_wire.specs.Reading.{wide_at, number_at, two_at, offset_at, content_at, reset_at, stream_at, datagram_at, frame_at};
ghost use Rattle.quic_session.specs.Runs.{ParsesAs, bytes_behind, bytes_behind_two, begins_with, is_own_type, is_skipped_type, BeginsRun, BeginsSkipped, BeginsAs};

/// What the bytes of a payload begin with.
#[derive(Clone, Copy)]
pub(crate) enum Front {
    /// The payload has no more bytes.
    End,
    /// A frame that the host processes.
    Other,
    /// A frame that is skipped, of so many bytes.
    Skipped(usize),
    /// Frames of the library, of so many bytes together.
    Run(usize),
    /// A frame of the library or a skipped one, by its type, that cannot be read.
    Malformed,
}

// A number of two bytes (RFC 9000 section 16), and the bytes behind it.
#[inline(always)]
fn wide_two_at(bytes: &[u8]) -> Option<(u64, &[u8])>
    ensures { ParsesAs (λ x. (x.0, x.1.now)) result (wide_at w16 (2 ^ 14) bytes.now) }
{
    if bytes.len() < 2 {
        return None;
    }
    let (front, rest) = bytes.split_at(2);
    let number = u16::from_be_bytes([front[0], front[1]]) % (1 << 14);
    Some((u64::from(number), rest))
}

// A number of four bytes.
#[inline(always)]
fn wide_four_at(bytes: &[u8]) -> Option<(u64, &[u8])>
    ensures { ParsesAs (λ x. (x.0, x.1.now)) result (wide_at w32 (2 ^ 30) bytes.now) }
{
    if bytes.len() < 4 {
        return None;
    }
    let (front, rest) = bytes.split_at(4);
    let number = u32::from_be_bytes([front[0], front[1], front[2], front[3]]) % (1 << 30);
    Some((u64::from(number), rest))
}

// A number of eight bytes.
#[inline(always)]
fn wide_eight_at(bytes: &[u8]) -> Option<(u64, &[u8])>
    ensures { ParsesAs (λ x. (x.0, x.1.now)) result (wide_at w64 (2 ^ 62) bytes.now) }
{
    if bytes.len() < 8 {
        return None;
    }
    let (front, rest) = bytes.split_at(8);
    let number = u64::from_be_bytes([
        front[0], front[1], front[2], front[3], front[4], front[5], front[6], front[7],
    ]) % (1 << 62);
    Some((number, rest))
}

// A number, and the bytes behind it.
#[inline(always)]
#[tactic(auto, unfolding(quic_wire::specs::Reading::number_at))]
fn number_at(bytes: &[u8]) -> Option<(u64, &[u8])>
    ensures { ParsesAs (λ x. (x.0, x.1.now)) result (number_at bytes.now) }
{
    let [first, rest @ ..] = bytes else {
        return None;
    };
    if *first < 0x40 {
        return Some((u64::from(*first), rest));
    }
    if *first < 0x80 {
        return wide_two_at(bytes);
    }
    if *first < 0xc0 {
        return wide_four_at(bytes);
    }
    wide_eight_at(bytes)
}

// The bytes behind a number.
#[inline(always)]
fn behind_number(bytes: &[u8]) -> Option<&[u8]>
    ensures { ParsesAs (λ x. x.now) result (bytes_behind (number_at bytes.now)) }
{
    let (_, rest) = number_at(bytes)?;
    Some(rest)
}

// The bytes behind two numbers.
#[inline(always)]
#[tactic(auto, unfolding(quic_wire::specs::Reading::two_at))]
fn behind_two(bytes: &[u8]) -> Option<&[u8]>
    ensures { ParsesAs (λ x. x.now) result (bytes_behind_two (two_at bytes.now)) }
{
    let rest = behind_number(bytes)?;
    behind_number(rest)
}

// The bytes behind a length and the content, or, without a length, none.
#[inline(always)]
#[tactic(auto, unfolding(quic_wire::specs::Reading::content_at))]
fn behind_content(with_length: bool, bytes: &[u8]) -> Option<&[u8]>
    ensures { ParsesAs (λ x. x.now) result (bytes_behind (content_at with_length bytes.now)) }
{
    if !with_length {
        return Some(&[]);
    }
    let (length, rest) = number_at(bytes)?;
    let length = length as usize;
    if rest.len() < length {
        return None;
    }
    Some(&rest[length..])
}

// The bytes behind the fields of a RESET_STREAM frame.
#[inline(always)]
#[tactic(auto, unfolding(quic_wire::specs::Reading::reset_at))]
fn behind_reset(bytes: &[u8]) -> Option<&[u8]>
    ensures { ParsesAs (λ x. x.now) result (bytes_behind (reset_at bytes.now)) }
{
    let rest = behind_number(bytes)?;
    behind_two(rest)
}

// The bytes behind the fields of a STREAM frame.
#[inline(always)]
#[tactic(auto, unfolding(quic_wire::specs::Reading::stream_at, quic_wire::specs::Reading::offset_at))]
fn behind_stream(kind: u8, bytes: &[u8]) -> Option<&[u8]>
    ensures { ParsesAs (λ x. x.now) result (bytes_behind (stream_at kind bytes.now)) }
{
    let rest = behind_number(bytes)?;
    let rest = if kind & 0x04 != 0 {
        behind_number(rest)?
    } else {
        rest
    };
    behind_content(kind & 0x02 != 0, rest)
}

// The bytes behind a frame of the library.
#[inline(always)]
#[tactic(auto, unfolding(quic_wire::specs::Reading::frame_at, quic_wire::specs::Reading::stop_at, quic_wire::specs::Reading::max_data_at, quic_wire::specs::Reading::max_stream_data_at, quic_wire::specs::Reading::max_streams_at, quic_wire::specs::Reading::data_blocked_at, quic_wire::specs::Reading::stream_data_blocked_at, quic_wire::specs::Reading::datagram_at))]
fn behind_frame(bytes: &[u8]) -> Option<&[u8]>
    ensures { ParsesAs (λ x. x.now) result (bytes_behind (frame_at bytes.now)) }
{
    let [kind, fields @ ..] = bytes else {
        return None;
    };
    match *kind {
        0x04 => behind_reset(fields),
        0x05 | 0x11 | 0x15 => behind_two(fields),
        0x08..=0x0f => behind_stream(*kind, fields),
        0x10 | 0x12..=0x14 => behind_number(fields),
        0x30..=0x31 => behind_content(*kind & 0x01 != 0, fields),
        _ => None,
    }
}

// The bytes behind a skipped frame.
fn behind_skipped(bytes: &[u8]) -> Option<&[u8]>
    ensures some { begins_with is_skipped_type bytes.now ≡ true → IfSome result (λ rest. BeginsSkipped bytes.now rest.now) }
    ensures none { result ≡ None → (rest : List ℕ) → BeginsSkipped bytes.now rest → ⊥ }
{
    let [kind, fields @ ..] = bytes else {
        return None;
    };
    if *kind <= 0x01 {
        return Some(fields);
    }
    let (count, rest) = number_at(fields)?;
    if count > 1 << 60 {
        return None;
    }
    Some(rest)
}

// Whether a frame type is the library's.
#[inline(always)]
fn is_own_type(kind: u8) -> bool
    ensures { result ≡ is_own_type kind }
{
    matches!(kind, 0x04..=0x05 | 0x08..=0x15 | 0x30..=0x31)
}

// Whether a frame type is skipped.
fn is_skipped_type(kind: u8) -> bool
    ensures { result ≡ is_skipped_type kind }
{
    matches!(kind, 0x00..=0x01 | 0x16..=0x17)
}

// Whether some bytes begin with a frame of the library, by its type.
#[inline(always)]
fn begins_own(bytes: &[u8]) -> bool
    ensures { result ≡ begins_with is_own_type bytes.now }
{
    match bytes {
        [kind, ..] => is_own_type(*kind),
        [] => false,
    }
}

// How many bytes a run of frames has that stands in front.
fn run_length(bytes: &[u8]) -> Option<usize>
    ensures run { IfSome result (λ n. (n ≤ length bytes.now) × (fs : List FrameValue) × BeginsRun bytes.now fs (drop n bytes.now)) }
    ensures malformed { result ≡ None → (fs : List FrameValue) (rest : List ℕ) → BeginsRun bytes.now fs rest → ⊥ }
{
    let mut rest = bytes;
    while begins_own(rest) {
        rest = behind_frame(rest)?;
    }
    Some(bytes.len() - rest.len())
}

/// What the bytes of a payload begin with.
pub(crate) fn front_of(bytes: &[u8]) -> Front
    ensures { BeginsAs bytes.now result }
{
    let [kind, ..] = bytes else {
        return Front::End;
    };
    if is_own_type(*kind) {
        return match run_length(bytes) {
            Some(length) => Front::Run(length),
            None => Front::Malformed,
        };
    }
    if is_skipped_type(*kind) {
        return match behind_skipped(bytes) {
            Some(rest) => Front::Skipped(bytes.len() - rest.len()),
            None => Front::Malformed,
        };
    }
    Front::Other
}

/// Whether some bytes are frames of the library alone.
#[inline(always)]
pub(crate) fn is_one_run(bytes: &[u8]) -> bool
    ensures { result ≡ true → (begins_with is_own_type bytes.now ≡ true) × (fs : List FrameValue) × BeginsRun bytes.now fs [] }
{
    begins_own(bytes) && matches!(run_length(bytes), Some(length) if length == bytes.len())
}

/// Where the frame begins that has so many others of a run before it.
pub(crate) fn offset_of(bytes: &[u8], index: usize) -> usize
    ensures within { result ≤ length bytes.now }
    ensures parts { (fs gs : List FrameValue) (rest : List ℕ) → length fs ≡ index → BeginsFrames bytes.now (fs ++ gs) rest → BeginsFrames bytes.now fs (drop result bytes.now) × BeginsFrames (drop result bytes.now) gs rest }
{
    let mut rest = bytes;
    let mut left = index;
    while left > 0 {
        let Some(after) = behind_frame(rest) else {
            break;
        };
        rest = after;
        left -= 1;
    }
    bytes.len() - rest.len()
}
