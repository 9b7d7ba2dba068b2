ghost use Rattle.std.specs.Prelude.{◌≡◌, ◌<◌, ◌≤◌, ◌-◌, ◌^◌, ◌+◌, ◌++◌, [], ◌∷◌, List, ℕ, true, false, length, take, vec_len, vec_capacity, OnOk, OnErr, IfSome};
ghost use Rattle.quic_values.specs.Numbers.{shortest};
ghost use Rattle.quic_wire.specs.declared.frame.Frame.{Frame as FrameValue};
ghost use Rattle.quic_wire.specs.declared.frame.Frame.TheVariants as FrameValues;
ghost use Rattle.quic_wire.specs.Frames.{BeginsWith};
ghost use Rattle.quic_wire.specs.Text.{CanEncode, HasSpelling, KeepsFront, text, stream_text, meta_text, stream_head, stream_kind, stream_of, size_bound, reset_text, stop_text, datagram_text, length_text, offset_text};

use crate::frame::{Datagram, Frame, ResetStream, StopSending, Stream, StreamMeta};
use quic_values::{Dir, OutOfMemory, StreamId, VarInt};

fn put_number(number: u64, buf: &mut Vec<u8>) -> Result<(), OutOfMemory>
    requires { number < 2 ^ 62 }
    ensures ok { OnOk result (buf.new.items ≡ buf.old.items ++ shortest number) }
    ensures err { OnErr result (buf.new.items ≡ buf.old.items) }
    ensures len { OnOk result (vec_len buf.new ≡ vec_len buf.old + length (shortest number)) }
    ensures capacity { vec_capacity buf.old ≤ vec_capacity buf.new }
    ensures full { OnErr result (vec_capacity buf.old < vec_len buf.old + length (shortest number)) }
{
    VarInt::new(number).encode(buf)
}

fn put_offset(offset: u64, buf: &mut Vec<u8>) -> Result<(), OutOfMemory>
    requires { offset < 2 ^ 62 }
    ensures ok { OnOk result (buf.new.items ≡ buf.old.items ++ offset_text offset) }
    ensures err { OnErr result (buf.new.items ≡ buf.old.items) }
    ensures len { OnOk result (vec_len buf.new ≡ vec_len buf.old + length (offset_text offset)) }
    ensures capacity { vec_capacity buf.old ≤ vec_capacity buf.new }
    ensures full { OnErr result (vec_capacity buf.old < vec_len buf.old + length (offset_text offset)) }
{
    if offset == 0 {
        return Ok(());
    }
    put_number(offset, buf)
}

fn put_length(data_length: Option<u64>, buf: &mut Vec<u8>) -> Result<(), OutOfMemory>
    requires { IfSome data_length (λ n. n < 2 ^ 62) }
    ensures ok { OnOk result (buf.new.items ≡ buf.old.items ++ length_text data_length) }
    ensures err { OnErr result (buf.new.items ≡ buf.old.items) }
    ensures len { OnOk result (vec_len buf.new ≡ vec_len buf.old + length (length_text data_length)) }
    ensures capacity { vec_capacity buf.old ≤ vec_capacity buf.new }
    ensures full { OnErr result (vec_capacity buf.old < vec_len buf.old + length (length_text data_length)) }
{
    match data_length {
        Some(length) => put_number(length, buf),
        None => Ok(()),
    }
}

fn stream_kind(offset: u64, fin: bool, length: Option<u64>) -> u8
    ensures { result ≡ stream_kind offset fin length }
{
    let offset_bit = if offset == 0 { 0x00 } else { 0x04 };
    let length_bit = if length.is_none() { 0x00 } else { 0x02 };
    let fin_bit = if fin { 0x01 } else { 0x00 };
    0x08 + offset_bit + length_bit + fin_bit
}

fn id_number(id: StreamId) -> u64
    ensures same { result ≡ id }
    ensures small { result < 2 ^ 62 }
{
    VarInt::from(id).into_inner()
}

// A STREAM frame up to its data.
fn put_head(
    id: u64,
    offset: u64,
    fin: bool,
    data_length: Option<u64>,
    buf: &mut Vec<u8>,
) -> Result<(), OutOfMemory>
    requires id { id < 2 ^ 62 }
    requires offset { offset < 2 ^ 62 }
    requires len { IfSome data_length (λ n. n < 2 ^ 62) }
    ensures ok { OnOk result (buf.new.items ≡ buf.old.items ++ stream_head id offset fin data_length) }
    ensures err { OnErr result (KeepsFront buf.old.items buf.new.items) }
    ensures len { OnOk result (vec_len buf.new ≡ vec_len buf.old + length (stream_head id offset fin data_length)) }
    ensures capacity { vec_capacity buf.old ≤ vec_capacity buf.new }
    ensures full { OnErr result (vec_capacity buf.old < vec_len buf.old + length (stream_head id offset fin data_length)) }
{
    buf.push(stream_kind(offset, fin, data_length))?;
    put_number(id, buf)?;
    put_offset(offset, buf)?;
    put_length(data_length, buf)?;
    Ok(())
}

// A type, and three numbers.
fn put_three(
    kind: u8,
    first: u64,
    second: u64,
    third: u64,
    buf: &mut Vec<u8>,
) -> Result<(), OutOfMemory>
    requires first { first < 2 ^ 62 }
    requires second { second < 2 ^ 62 }
    requires third { third < 2 ^ 62 }
    ensures ok { OnOk result (buf.new.items ≡ buf.old.items ++ kind ∷ (shortest first ++ shortest second ++ shortest third)) }
    ensures err { OnErr result (KeepsFront buf.old.items buf.new.items) }
    ensures capacity { vec_capacity buf.old ≤ vec_capacity buf.new }
    ensures full { OnErr result (vec_capacity buf.old < vec_len buf.old + length (kind ∷ (shortest first ++ shortest second ++ shortest third))) }
{
    buf.push(kind)?;
    put_number(first, buf)?;
    put_number(second, buf)?;
    put_number(third, buf)?;
    Ok(())
}

// A type, and two numbers.
fn put_two(kind: u8, first: u64, second: u64, buf: &mut Vec<u8>) -> Result<(), OutOfMemory>
    requires first { first < 2 ^ 62 }
    requires second { second < 2 ^ 62 }
    ensures ok { OnOk result (buf.new.items ≡ buf.old.items ++ kind ∷ (shortest first ++ shortest second)) }
    ensures err { OnErr result (KeepsFront buf.old.items buf.new.items) }
    ensures capacity { vec_capacity buf.old ≤ vec_capacity buf.new }
    ensures full { OnErr result (vec_capacity buf.old < vec_len buf.old + length (kind ∷ (shortest first ++ shortest second))) }
{
    buf.push(kind)?;
    put_number(first, buf)?;
    put_number(second, buf)?;
    Ok(())
}

// A type, and a number.
fn put_one(kind: u8, number: u64, buf: &mut Vec<u8>) -> Result<(), OutOfMemory>
    requires { number < 2 ^ 62 }
    ensures ok { OnOk result (buf.new.items ≡ buf.old.items ++ kind ∷ shortest number) }
    ensures err { OnErr result (KeepsFront buf.old.items buf.new.items) }
    ensures capacity { vec_capacity buf.old ≤ vec_capacity buf.new }
    ensures full { OnErr result (vec_capacity buf.old < vec_len buf.old + length (kind ∷ shortest number)) }
{
    buf.push(kind)?;
    put_number(number, buf)?;
    Ok(())
}

// What was done, and if it was refused, the buffer cut to what it was before.
fn take_back(
    done: Result<(), OutOfMemory>,
    len: usize,
    buf: &mut Vec<u8>,
) -> Result<(), OutOfMemory>
    ensures same { result ≡ done }
    ensures ok { OnOk result (buf.new.items ≡ buf.old.items) }
    ensures err { OnErr result (buf.new.items ≡ take len buf.old.items) }
    ensures capacity { vec_capacity buf.new ≡ vec_capacity buf.old }
{
    if done.is_err() {
        buf.truncate(len);
    }
    done
}

impl StreamMeta {
    /// Appends a STREAM frame up to its data, with their length or, for the last frame of a payload, without.
    /// If refused, nothing is appended.
    pub fn encode(&self, with_length: bool, buf: &mut Vec<u8>) -> Result<(), OutOfMemory>
        requires offset { self.now.offsets.start < 2 ^ 62 }
        requires ordered { self.now.offsets.start ≤ self.now.offsets.end }
        requires len { with_length ≡ true → self.now.offsets.end - self.now.offsets.start < 2 ^ 62 }
        ensures ok { OnOk result (buf.new.items ≡ buf.old.items ++ meta_text self.now with_length) }
        ensures err { OnErr result (buf.new.items ≡ buf.old.items) }

        // It is refused only where the buffer has no room for it.
        ensures capacity { vec_capacity buf.old ≤ vec_capacity buf.new }
        ensures full { OnErr result (vec_capacity buf.old < vec_len buf.old + length (meta_text self.now with_length)) }

        // With the data behind it, it is the frame.
        ensures spelled { (content rest : List ℕ) → length content ≡ self.now.offsets.end - self.now.offsets.start → (with_length ≡ false → rest ≡ []) → BeginsWith (meta_text self.now with_length ++ content ++ rest) (stream_of self.now content) rest }
        ensures bound { length (meta_text self.now with_length) ≤ Stream.SIZE_BOUND }
    {
        let length = if with_length {
            Some(self.offsets.end - self.offsets.start)
        } else {
            None
        };
        let id = id_number(self.id);
        let len = buf.len();
        let done = put_head(id, self.offsets.start, self.fin, length, buf);
        take_back(done, len, buf)
    }
}

impl Stream {
    fn put(&self, with_length: bool, buf: &mut Vec<u8>) -> Result<(), OutOfMemory>
        requires offset { self.now.offset < 2 ^ 62 }
        requires len { with_length ≡ true → length self.now.bytes < 2 ^ 62 }
        ensures ok { OnOk result (buf.new.items ≡ buf.old.items ++ stream_text self.now with_length) }
        ensures err { OnErr result (KeepsFront buf.old.items buf.new.items) }
        ensures capacity { vec_capacity buf.old ≤ vec_capacity buf.new }
        ensures full { OnErr result (vec_capacity buf.old < vec_len buf.old + length (stream_text self.now with_length)) }
        ensures small { self.now.id < 2 ^ 62 }
    {
        let id = id_number(self.id);
        let length = if with_length {
            Some(self.bytes.len() as u64)
        } else {
            None
        };
        put_head(id, self.offset, self.fin, length, buf)?;
        buf.extend_from_slice(self.bytes.as_slice())?;
        Ok(())
    }

    /// Appends the frame, with the length of its data or, for the last frame of a payload, without.
    /// If refused, nothing is appended.
    pub fn encode(&self, with_length: bool, buf: &mut Vec<u8>) -> Result<(), OutOfMemory>
        requires offset { self.now.offset < 2 ^ 62 }
        requires len { with_length ≡ true → length self.now.bytes < 2 ^ 62 }
        ensures ok { OnOk result (buf.new.items ≡ buf.old.items ++ stream_text self.now with_length) }
        ensures err { OnErr result (buf.new.items ≡ buf.old.items) }

        // It is refused only where the buffer has no room for it.
        ensures capacity { vec_capacity buf.old ≤ vec_capacity buf.new }
        ensures full { OnErr result (vec_capacity buf.old < vec_len buf.old + length (stream_text self.now with_length)) }

        // What is appended is the frame.
        ensures spelled { (rest : List ℕ) → (with_length ≡ false → rest ≡ []) → BeginsWith (stream_text self.now with_length ++ rest) (FrameValues.Stream self.now) rest }
        ensures bound { length (stream_text self.now with_length) ≤ Stream.SIZE_BOUND + length self.now.bytes }
    {
        let len = buf.len();
        let done = self.put(with_length, buf);
        take_back(done, len, buf)
    }
}

impl ResetStream {
    fn put(&self, buf: &mut Vec<u8>) -> Result<(), OutOfMemory>
        ensures ok { OnOk result (buf.new.items ≡ buf.old.items ++ reset_text self.now) }
        ensures err { OnErr result (KeepsFront buf.old.items buf.new.items) }
        ensures capacity { vec_capacity buf.old ≤ vec_capacity buf.new }
        ensures full { OnErr result (vec_capacity buf.old < vec_len buf.old + length (reset_text self.now)) }
        ensures spelling { HasSpelling (FrameValues.ResetStream self.now) }
    {
        let id = id_number(self.id);
        let error_code = self.error_code.into_inner();
        let final_offset = self.final_offset.into_inner();
        put_three(0x04, id, error_code, final_offset, buf)
    }

    /// Appends the frame. If refused, nothing is appended.
    pub fn encode(&self, buf: &mut Vec<u8>) -> Result<(), OutOfMemory>
        ensures ok { OnOk result (buf.new.items ≡ buf.old.items ++ reset_text self.now) }
        ensures err { OnErr result (buf.new.items ≡ buf.old.items) }

        // It is refused only where the buffer has no room for it.
        ensures capacity { vec_capacity buf.old ≤ vec_capacity buf.new }
        ensures full { OnErr result (vec_capacity buf.old < vec_len buf.old + length (reset_text self.now)) }

        // What is appended is the frame.
        ensures spelled { (rest : List ℕ) → BeginsWith (reset_text self.now ++ rest) (FrameValues.ResetStream self.now) rest }
        ensures bound { length (reset_text self.now) ≤ Self.SIZE_BOUND }
    {
        let len = buf.len();
        let done = self.put(buf);
        take_back(done, len, buf)
    }
}

impl StopSending {
    fn put(&self, buf: &mut Vec<u8>) -> Result<(), OutOfMemory>
        ensures ok { OnOk result (buf.new.items ≡ buf.old.items ++ stop_text self.now) }
        ensures err { OnErr result (KeepsFront buf.old.items buf.new.items) }
        ensures capacity { vec_capacity buf.old ≤ vec_capacity buf.new }
        ensures full { OnErr result (vec_capacity buf.old < vec_len buf.old + length (stop_text self.now)) }
        ensures spelling { HasSpelling (FrameValues.StopSending self.now) }
    {
        let id = id_number(self.id);
        let error_code = self.error_code.into_inner();
        put_two(0x05, id, error_code, buf)
    }

    /// Appends the frame. If refused, nothing is appended.
    pub fn encode(&self, buf: &mut Vec<u8>) -> Result<(), OutOfMemory>
        ensures ok { OnOk result (buf.new.items ≡ buf.old.items ++ stop_text self.now) }
        ensures err { OnErr result (buf.new.items ≡ buf.old.items) }

        // It is refused only where the buffer has no room for it.
        ensures capacity { vec_capacity buf.old ≤ vec_capacity buf.new }
        ensures full { OnErr result (vec_capacity buf.old < vec_len buf.old + length (stop_text self.now)) }

        // What is appended is the frame.
        ensures spelled { (rest : List ℕ) → BeginsWith (stop_text self.now ++ rest) (FrameValues.StopSending self.now) rest }
        ensures bound { length (stop_text self.now) ≤ Self.SIZE_BOUND }
    {
        let len = buf.len();
        let done = self.put(buf);
        take_back(done, len, buf)
    }
}

impl Datagram {
    /// How many bytes the frame takes.
    pub fn size(&self, with_length: bool) -> usize
        requires { length self.now.bytes < 2 ^ 62 }
        ensures { result ≡ length (datagram_text self.now with_length) }
    {
        let len = self.bytes.len();
        if with_length {
            1 + VarInt::new(len as u64).size() + len
        } else {
            1 + len
        }
    }

    fn put(&self, with_length: bool, buf: &mut Vec<u8>) -> Result<(), OutOfMemory>
        requires { with_length ≡ true → length self.now.bytes < 2 ^ 62 }
        ensures ok { OnOk result (buf.new.items ≡ buf.old.items ++ datagram_text self.now with_length) }
        ensures err { OnErr result (KeepsFront buf.old.items buf.new.items) }
        ensures capacity { vec_capacity buf.old ≤ vec_capacity buf.new }
        ensures full { OnErr result (vec_capacity buf.old < vec_len buf.old + length (datagram_text self.now with_length)) }
    {
        if with_length {
            buf.push(0x31)?;
            put_number(self.bytes.len() as u64, buf)?;
        } else {
            buf.push(0x30)?;
        }
        buf.extend_from_slice(self.bytes.as_slice())?;
        Ok(())
    }

    /// Appends the frame, with the length of its data or, for the last frame of a payload, without.
    /// If refused, nothing is appended.
    pub fn encode(&self, with_length: bool, buf: &mut Vec<u8>) -> Result<(), OutOfMemory>
        requires { with_length ≡ true → length self.now.bytes < 2 ^ 62 }
        ensures ok { OnOk result (buf.new.items ≡ buf.old.items ++ datagram_text self.now with_length) }
        ensures err { OnErr result (buf.new.items ≡ buf.old.items) }

        // It is refused only where the buffer has no room for it.
        ensures capacity { vec_capacity buf.old ≤ vec_capacity buf.new }
        ensures full { OnErr result (vec_capacity buf.old < vec_len buf.old + length (datagram_text self.now with_length)) }

        // What is appended is the frame.
        ensures spelled { (rest : List ℕ) → (with_length ≡ false → rest ≡ []) → BeginsWith (datagram_text self.now with_length ++ rest) (FrameValues.Datagram self.now) rest }
        ensures bound { length (datagram_text self.now with_length) ≤ Self.SIZE_BOUND + length self.now.bytes }
    {
        let len = buf.len();
        let done = self.put(with_length, buf);
        take_back(done, len, buf)
    }
}

impl Frame {
    fn put(&self, buf: &mut Vec<u8>) -> Result<(), OutOfMemory>
        requires { CanEncode self.now }
        ensures ok { OnOk result (buf.new.items ≡ buf.old.items ++ text self.now) }
        ensures err { OnErr result (KeepsFront buf.old.items buf.new.items) }
        ensures capacity { vec_capacity buf.old ≤ vec_capacity buf.new }
        ensures full { OnErr result (vec_capacity buf.old < vec_len buf.old + length (text self.now)) }
        ensures spelling { HasSpelling self.now }
    {
        match self {
            Frame::ResetStream(frame) => frame.put(buf),
            Frame::StopSending(frame) => frame.put(buf),
            Frame::Stream(frame) => frame.put(true, buf),
            Frame::MaxData(limit) => put_one(0x10, limit.into_inner(), buf),
            Frame::MaxStreamData { id, offset } => put_two(0x11, id_number(*id), *offset, buf),
            Frame::MaxStreams {
                dir: Dir::Bi,
                count,
            } => put_one(0x12, *count, buf),
            Frame::MaxStreams {
                dir: Dir::Uni,
                count,
            } => put_one(0x13, *count, buf),
            Frame::DataBlocked { offset } => put_one(0x14, *offset, buf),
            Frame::StreamDataBlocked { id, offset } => put_two(0x15, id_number(*id), *offset, buf),
            Frame::Datagram(frame) => frame.put(true, buf),
            _ => unreachable!(),
        }
    }

    /// Appends the frame; a STREAM and a DATAGRAM frame with the length of its data. If refused, nothing is appended.
    /// The kinds that can be written are those that [`decode`](crate::decode) reads.
    pub fn encode(&self, buf: &mut Vec<u8>) -> Result<(), OutOfMemory>
        requires { CanEncode self.now }
        ensures ok { OnOk result (buf.new.items ≡ buf.old.items ++ text self.now) }
        ensures err { OnErr result (buf.new.items ≡ buf.old.items) }

        // It is refused only where the buffer has no room for it.
        ensures capacity { vec_capacity buf.old ≤ vec_capacity buf.new }
        ensures full { OnErr result (vec_capacity buf.old < vec_len buf.old + length (text self.now)) }

        // What is appended is the frame.
        ensures spelled { (rest : List ℕ) → BeginsWith (text self.now ++ rest) self.now rest }
        ensures bound { length (text self.now) ≤ size_bound self.now }
    {
        let len = buf.len();
        let done = self.put(buf);
        take_back(done, len, buf)
    }
}
