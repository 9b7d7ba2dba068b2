ghost use Rattle.std.specs.Prelude.{◌≡◌, ◌+◌, ◌^◌, ◌<◌, ◌≤◌, All, List, [], None, length, IfOk, IfSome, IsErrOf, Some, false, ℕ};
ghost use Rattle.std.specs.Int.{w16, w32, w64};
ghost use Rattle.quic_wire.specs.declared.frame.Frame.{Frame as FrameValue};
ghost use Rattle.quic_wire.specs.Frames.{AreFrames, BeginsWith, IsFrameWithin, has_bit};
ghost use Rattle.quic_wire.specs.declared.frame.Frame.TheVariants as FrameValues;
ghost use Rattle.quic_wire.specs.Reading.{AreLast, ReadsAs, last_frame, with_last_frame, wide_at, number_at, two_at, offset_at, content_at, reset_at, stop_at, stream_at, max_data_at, max_stream_data_at, max_streams_at, data_blocked_at, stream_data_blocked_at, datagram_at, frame_at};

use crate::frame::{Datagram, DecodeError, Frame, ResetStream, StopSending, Stream};
use crate::memory::{ByteMemory, PieceMemory};
use quic_values::{Bytes, Dir, StreamId, VarInt};
use std::alloc::Global;

fn wide_two_at(bytes: &[u8]) -> Result<(u64, &[u8]), DecodeError>
    ensures read { ReadsAs (λ x. (x.0, x.1.now)) result (wide_at w16 (2 ^ 14) bytes.now) }
    ensures small { IfOk result (λ x. x.0 < 2 ^ 14) }
{
    if bytes.len() < 2 {
        return Err(DecodeError::Malformed);
    }
    let (front, rest) = bytes.split_at(2);
    let number = u16::from_be_bytes([front[0], front[1]]) % (1 << 14);
    Ok((u64::from(number), rest))
}

fn wide_four_at(bytes: &[u8]) -> Result<(u64, &[u8]), DecodeError>
    ensures read { ReadsAs (λ x. (x.0, x.1.now)) result (wide_at w32 (2 ^ 30) bytes.now) }
    ensures small { IfOk result (λ x. x.0 < 2 ^ 30) }
{
    if bytes.len() < 4 {
        return Err(DecodeError::Malformed);
    }
    let (front, rest) = bytes.split_at(4);
    let number = u32::from_be_bytes([front[0], front[1], front[2], front[3]]) % (1 << 30);
    Ok((u64::from(number), rest))
}

fn wide_eight_at(bytes: &[u8]) -> Result<(u64, &[u8]), DecodeError>
    ensures read { ReadsAs (λ x. (x.0, x.1.now)) result (wide_at w64 (2 ^ 62) bytes.now) }
    ensures small { IfOk result (λ x. x.0 < 2 ^ 62) }
{
    if bytes.len() < 8 {
        return Err(DecodeError::Malformed);
    }
    let (front, rest) = bytes.split_at(8);
    let number = u64::from_be_bytes([
        front[0], front[1], front[2], front[3], front[4], front[5], front[6], front[7],
    ]) % (1 << 62);
    Ok((number, rest))
}

#[tactic(auto, unfolding(crate::specs::Reading::number_at))]
fn number_at(bytes: &[u8]) -> Result<(u64, &[u8]), DecodeError>
    ensures read { ReadsAs (λ x. (x.0, x.1.now)) result (number_at bytes.now) }
    ensures small { IfOk result (λ x. x.0 < 2 ^ 62) }
{
    let [first, rest @ ..] = bytes else {
        return Err(DecodeError::Malformed);
    };
    if *first < 0x40 {
        return Ok((u64::from(*first), rest));
    }
    if *first < 0x80 {
        return wide_two_at(bytes);
    }
    if *first < 0xc0 {
        return wide_four_at(bytes);
    }
    wide_eight_at(bytes)
}

#[tactic(auto, unfolding(crate::specs::Reading::two_at))]
fn two_at(bytes: &[u8]) -> Result<(u64, u64, &[u8]), DecodeError>
    ensures read { ReadsAs (λ x. (x.0, x.1, x.2.now)) result (two_at bytes.now) }
    ensures small { IfOk result (λ x. (x.0 < 2 ^ 62) × (x.1 < 2 ^ 62)) }
{
    let (first, rest) = number_at(bytes)?;
    let (second, rest) = number_at(rest)?;
    Ok((first, second, rest))
}

#[tactic(auto, unfolding(crate::specs::Reading::offset_at))]
fn offset_at(with_offset: bool, bytes: &[u8]) -> Result<(u64, &[u8]), DecodeError>
    ensures { ReadsAs (λ x. (x.0, x.1.now)) result (offset_at with_offset bytes.now) }
{
    if !with_offset {
        return Ok((0, bytes));
    }
    let (offset, rest) = number_at(bytes)?;
    Ok((offset, rest))
}

#[inline(always)]
#[tactic(auto, unfolding(crate::specs::Reading::content_at))]
fn content_at<'a, M: ByteMemory>(
    memory: &mut M,
    payload_len: usize,
    with_length: bool,
    bytes: &'a [u8],
) -> Result<(Bytes, &'a [u8]), DecodeError>
    ensures { ReadsAs (λ x. (x.0, x.1.now)) result (content_at with_length bytes.now) }
{
    if !with_length {
        return Ok((Bytes::from(memory.copy_of(bytes, payload_len)?), &[]));
    }
    let (length, rest) = number_at(bytes)?;
    let length = length as usize;
    if rest.len() < length {
        return Err(DecodeError::Malformed);
    }
    let (content, rest) = rest.split_at(length);
    Ok((Bytes::from(memory.copy_of(content, payload_len)?), rest))
}

#[tactic(auto, unfolding(crate::specs::Reading::reset_at))]
fn reset_at(bytes: &[u8]) -> Result<(Frame, &[u8]), DecodeError>
    ensures { ReadsAs (λ x. (x.0, x.1.now)) result (reset_at bytes.now) }
{
    let (id, rest) = number_at(bytes)?;
    let (error_code, final_offset, rest) = two_at(rest)?;
    let frame = ResetStream {
        id: StreamId::from(VarInt::new(id)),
        error_code: VarInt::new(error_code),
        final_offset: VarInt::new(final_offset),
    };
    Ok((Frame::ResetStream(frame), rest))
}

#[tactic(auto, unfolding(crate::specs::Reading::stop_at))]
fn stop_at(bytes: &[u8]) -> Result<(Frame, &[u8]), DecodeError>
    ensures { ReadsAs (λ x. (x.0, x.1.now)) result (stop_at bytes.now) }
{
    let (id, error_code, rest) = two_at(bytes)?;
    let frame = StopSending {
        id: StreamId::from(VarInt::new(id)),
        error_code: VarInt::new(error_code),
    };
    Ok((Frame::StopSending(frame), rest))
}

#[tactic(auto, unfolding(crate::specs::Reading::stream_at))]
fn stream_at<'a, M: ByteMemory>(
    memory: &mut M,
    payload_len: usize,
    kind: u8,
    bytes: &'a [u8],
) -> Result<(Frame, &'a [u8]), DecodeError>
    ensures { ReadsAs (λ x. (x.0, x.1.now)) result (stream_at kind bytes.now) }
{
    let (id, rest) = number_at(bytes)?;
    let (offset, rest) = offset_at(kind & 0x04 != 0, rest)?;
    let (bytes, rest) = content_at(memory, payload_len, kind & 0x02 != 0, rest)?;
    let frame = Stream {
        id: StreamId::from(VarInt::new(id)),
        offset,
        fin: kind & 0x01 != 0,
        bytes,
    };
    Ok((Frame::Stream(frame), rest))
}

#[tactic(auto, unfolding(crate::specs::Reading::max_data_at))]
fn max_data_at(bytes: &[u8]) -> Result<(Frame, &[u8]), DecodeError>
    ensures { ReadsAs (λ x. (x.0, x.1.now)) result (max_data_at bytes.now) }
{
    let (limit, rest) = number_at(bytes)?;
    Ok((Frame::MaxData(VarInt::new(limit)), rest))
}

#[tactic(auto, unfolding(crate::specs::Reading::max_stream_data_at))]
fn max_stream_data_at(bytes: &[u8]) -> Result<(Frame, &[u8]), DecodeError>
    ensures { ReadsAs (λ x. (x.0, x.1.now)) result (max_stream_data_at bytes.now) }
{
    let (id, offset, rest) = two_at(bytes)?;
    let id = StreamId::from(VarInt::new(id));
    Ok((Frame::MaxStreamData { id, offset }, rest))
}

#[tactic(auto, unfolding(crate::specs::Reading::max_streams_at))]
fn max_streams_at(dir: Dir, bytes: &[u8]) -> Result<(Frame, &[u8]), DecodeError>
    ensures { ReadsAs (λ x. (x.0, x.1.now)) result (max_streams_at dir bytes.now) }
{
    let (count, rest) = number_at(bytes)?;
    Ok((Frame::MaxStreams { dir, count }, rest))
}

#[tactic(auto, unfolding(crate::specs::Reading::data_blocked_at))]
fn data_blocked_at(bytes: &[u8]) -> Result<(Frame, &[u8]), DecodeError>
    ensures { ReadsAs (λ x. (x.0, x.1.now)) result (data_blocked_at bytes.now) }
{
    let (offset, rest) = number_at(bytes)?;
    Ok((Frame::DataBlocked { offset }, rest))
}

#[tactic(auto, unfolding(crate::specs::Reading::stream_data_blocked_at))]
fn stream_data_blocked_at(bytes: &[u8]) -> Result<(Frame, &[u8]), DecodeError>
    ensures { ReadsAs (λ x. (x.0, x.1.now)) result (stream_data_blocked_at bytes.now) }
{
    let (id, offset, rest) = two_at(bytes)?;
    let id = StreamId::from(VarInt::new(id));
    Ok((Frame::StreamDataBlocked { id, offset }, rest))
}

#[tactic(auto, unfolding(crate::specs::Reading::datagram_at))]
fn datagram_at<'a, M: ByteMemory>(
    memory: &mut M,
    payload_len: usize,
    kind: u8,
    bytes: &'a [u8],
) -> Result<(Frame, &'a [u8]), DecodeError>
    ensures { ReadsAs (λ x. (x.0, x.1.now)) result (datagram_at kind bytes.now) }
{
    let (bytes, rest) = content_at(memory, payload_len, kind & 0x01 != 0, bytes)?;
    Ok((Frame::Datagram(Datagram { bytes }), rest))
}

#[tactic(auto, unfolding(crate::specs::Reading::frame_at))]
fn frame_at<'a, M: ByteMemory>(
    memory: &mut M,
    payload_len: usize,
    bytes: &'a [u8],
) -> Result<(Frame, &'a [u8]), DecodeError>
    ensures { ReadsAs (λ x. (x.0, x.1.now)) result (frame_at bytes.now) }
{
    let [kind, bytes @ ..] = bytes else {
        return Err(DecodeError::Malformed);
    };
    match *kind {
        0x04 => reset_at(bytes),
        0x05 => stop_at(bytes),
        0x08..=0x0f => stream_at(memory, payload_len, *kind, bytes),
        0x10 => max_data_at(bytes),
        0x11 => max_stream_data_at(bytes),
        0x12 => max_streams_at(Dir::Bi, bytes),
        0x13 => max_streams_at(Dir::Uni, bytes),
        0x14 => data_blocked_at(bytes),
        0x15 => stream_data_blocked_at(bytes),
        0x30..=0x31 => datagram_at(memory, payload_len, *kind, bytes),
        _ => Err(DecodeError::Malformed),
    }
}

// A STREAM frame that ends with a payload, without its data, and how many bytes come before these.
#[derive(Clone, Copy)]
struct LastStream {
    id: StreamId,
    offset: u64,
    fin: bool,
    skip: usize,
}

impl LastStream {
    // The same frame, with more bytes before its data.
    fn behind(self, more: usize) -> LastStream
        requires { self.skip + more < 2 ^ 64 }
        ensures { result ≡ record { id = self.id; offset = self.offset; fin = self.fin; skip = self.skip + more } }
    {
        LastStream {
            skip: self.skip + more,
            ..self
        }
    }

    // The frame, with its data out of the payload that they end.
    fn with_payload(self, payload: Vec<u8>) -> Frame
        requires { self.skip ≤ length payload.items }
        ensures { result ≡ last_frame self payload.items }
    {
        let mut bytes = Bytes::from(payload);
        bytes.advance(self.skip);
        Frame::Stream(Stream {
            id: self.id,
            offset: self.offset,
            fin: self.fin,
            bytes,
        })
    }
}

// The data of a frame that ends with them, if it ends there.
#[tactic(auto, unfolding(crate::specs::Reading::content_at))]
fn whole_content(with_length: bool, bytes: &[u8]) -> Option<&[u8]>
    ensures read { IfSome result (λ rest. content_at with_length bytes.now ≡ Some (rest.now, [])) }
    ensures behind { IfSome result (λ rest. AreLast rest.now bytes.now) }
{
    if !with_length {
        return Some(bytes);
    }
    let Ok((length, rest)) = number_at(bytes) else {
        return None;
    };
    if rest.len() as u64 != length {
        return None;
    }
    Some(rest)
}

// The STREAM frame that bytes are as a whole, if they are one.
fn whole_stream(bytes: &[u8]) -> Option<LastStream>
    ensures begins { IfSome result (λ w. BeginsWith bytes.now (last_frame w bytes.now) []) }
    ensures within { IfSome result (λ w. w.skip ≤ length bytes.now) }
{
    let [kind, fields @ ..] = bytes else {
        return None;
    };
    if *kind < 0x08 || *kind > 0x0f {
        return None;
    }
    let Ok((id, after)) = number_at(fields) else {
        return None;
    };
    let Ok((offset, rest)) = offset_at(*kind & 0x04 != 0, after) else {
        return None;
    };
    let Some(content) = whole_content(*kind & 0x02 != 0, rest) else {
        return None;
    };
    Some(LastStream {
        id: StreamId::from(VarInt::new(id)),
        offset,
        fin: *kind & 0x01 != 0,
        skip: bytes.len() - content.len(),
    })
}

// What `decode` answers, in a list that is given empty; where `keeps` is set, a STREAM frame that ends with the payload
// is handed out beside the list, its data not yet taken from the payload.
fn decode_front<M: ByteMemory>(
    memory: &mut M,
    payload: &[u8],
    keeps: bool,
    empty: Vec<Frame>,
) -> Result<(Vec<Frame>, Option<LastStream>), DecodeError>
    requires { empty.items ≡ [] }
    ensures found { IfOk result (λ d. AreFrames payload.now (with_last_frame d.0.items d.1 payload.now)) }
    ensures only { (fs : List FrameValue) → AreFrames payload.now fs → ReadsAs (λ d. with_last_frame d.0.items d.1 payload.now) result (Some fs) }
    ensures whole { keeps ≡ false → IfOk result (λ d. d.1 ≡ None) }
    ensures within { IfOk result (λ d. IfSome d.1 (λ w. w.skip ≤ length payload.now)) }
    ensures malformed { IsErrOf result DecodeError.Malformed → (fs : List FrameValue) → ¬ AreFrames payload.now fs }
{
    let mut frames = empty;
    let mut rest = payload;
    while !rest.is_empty() {
        if keeps {
            if let Some(last) = whole_stream(rest) {
                return Ok((frames, Some(last.behind(payload.len() - rest.len()))));
            }
        }
        let (frame, after) = frame_at(memory, payload.len(), rest)?;
        frames.push(frame)?;
        rest = after;
    }
    Ok((frames, None))
}

/// The frames that a payload consists of (RFC 9000 section 12.4). It is `Malformed` where the payload is no join of
/// the frames that are read here: RESET_STREAM, STOP_SENDING, STREAM, MAX_DATA, MAX_STREAM_DATA, MAX_STREAMS,
/// DATA_BLOCKED, STREAM_DATA_BLOCKED and DATAGRAM. A payload without bytes has no frames.
pub fn decode(alloc: Global, payload: &[u8]) -> Result<Vec<Frame>, DecodeError>
    // What is read is spelled so.
    ensures found { IfOk result (λ frames. AreFrames payload.now frames.items) }
    // What is spelled so is read, unless memory runs out.
    ensures only { (fs : List FrameValue) → AreFrames payload.now fs → ReadsAs (λ frames. frames.items) result (Some fs) }
    // No number is too large, and no data are longer than the payload.
    ensures within { IfOk result (λ frames. All (IsFrameWithin (length payload.now)) frames.items) }
    // Only what spells no frames is malformed.
    ensures malformed { IsErrOf result DecodeError.Malformed → (fs : List FrameValue) → ¬ AreFrames payload.now fs }
{
    let mut memory = alloc;
    let (frames, _) = decode_front(&mut memory, payload, false, Vec::new(alloc))?;
    Ok(frames)
}

/// The frames of a payload, as [`decode`] gives them. Where the last one is a STREAM frame, and the vector of the payload
/// has room for some fifth more bytes at most, the data of that frame keep this memory, and none of their bytes is copied.
pub fn decode_owned(alloc: Global, payload: Vec<u8>) -> Result<Vec<Frame>, DecodeError>
    ensures found { IfOk result (λ frames. AreFrames payload.items frames.items) }
    ensures only { (fs : List FrameValue) → AreFrames payload.items fs → ReadsAs (λ frames. frames.items) result (Some fs) }
    ensures within { IfOk result (λ frames. All (IsFrameWithin (length payload.items)) frames.items) }
    ensures malformed { IsErrOf result DecodeError.Malformed → (fs : List FrameValue) → ¬ AreFrames payload.items fs }
{
    decode_owned_into(alloc, payload, Vec::new(alloc))
}

/// What [`decode_owned`] answers, in the memory of a list that is given: what the list had is dropped first, and a caller
/// that gives back the list of the last payload asks for no memory for a list again.
pub fn decode_owned_into(
    alloc: Global,
    payload: Vec<u8>,
    list: Vec<Frame>,
) -> Result<Vec<Frame>, DecodeError>
    ensures found { IfOk result (λ frames. AreFrames payload.items frames.items) }
    ensures only { (fs : List FrameValue) → AreFrames payload.items fs → ReadsAs (λ frames. frames.items) result (Some fs) }
    ensures within { IfOk result (λ frames. All (IsFrameWithin (length payload.items)) frames.items) }
    ensures malformed { IsErrOf result DecodeError.Malformed → (fs : List FrameValue) → ¬ AreFrames payload.items fs }
{
    let mut memory = alloc;
    decode_within(&mut memory, payload, list)
}

/// The same, where data that are copied are put into memory that was used before, if some is fit for them. The memory of the
/// payload is kept there, if no frame keeps it.
pub fn decode_owned_reusing(
    memory: &mut PieceMemory,
    payload: Vec<u8>,
    list: Vec<Frame>,
) -> Result<Vec<Frame>, DecodeError>
    ensures found { IfOk result (λ frames. AreFrames payload.items frames.items) }
    ensures only { (fs : List FrameValue) → AreFrames payload.items fs → ReadsAs (λ frames. frames.items) result (Some fs) }
    ensures within { IfOk result (λ frames. All (IsFrameWithin (length payload.items)) frames.items) }
    ensures malformed { IsErrOf result DecodeError.Malformed → (fs : List FrameValue) → ¬ AreFrames payload.items fs }
{
    decode_within(memory, payload, list)
}

// The same, with memory of any kind for what is copied.
fn decode_within<M: ByteMemory>(
    memory: &mut M,
    payload: Vec<u8>,
    list: Vec<Frame>,
) -> Result<Vec<Frame>, DecodeError>
    ensures found { IfOk result (λ frames. AreFrames payload.items frames.items) }
    ensures only { (fs : List FrameValue) → AreFrames payload.items fs → ReadsAs (λ frames. frames.items) result (Some fs) }
    ensures within { IfOk result (λ frames. All (IsFrameWithin (length payload.items)) frames.items) }
    ensures malformed { IsErrOf result DecodeError.Malformed → (fs : List FrameValue) → ¬ AreFrames payload.items fs }
{
    let mut frames = list;
    frames.clear();
    let keeps = payload.capacity() / 6 <= payload.len() / 5;
    let (mut frames, last) = decode_front(memory, &payload, keeps, frames)?;
    let Some(last) = last else {
        memory.put(payload);
        return Ok(frames);
    };
    frames.push(last.with_payload(payload))?;
    Ok(frames)
}
