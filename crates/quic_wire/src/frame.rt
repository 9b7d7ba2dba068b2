//! The frames (RFC 9000 section 19, RFC 9221 section 4).

ghost use Rattle.std.specs.Prelude.{◌≡◌, IfOk, false};
ghost use Rattle.quic_wire.specs.declared.frame.DecodeError.TheVariants.{OutOfMemory as out_of_memory};

use quic_values::{Bytes, Dir, OutOfMemory, StreamId, VarInt};
use std::alloc::AllocFailed;
use std::ops::Range;
use thiserror::Error;

/// STREAM: data of a stream, from an offset on (RFC 9000 section 19.8).
#[derive(Debug, Drop, PartialEq, Eq)]
pub struct Stream {
    pub id: StreamId,
    /// Where the data begin in the stream.
    pub offset: u64,
    pub bytes: Bytes,
    /// Whether the stream ends where the data end.
    pub fin: bool,
}

impl Stream {
    /// How many bytes there are at most before the data.
    pub const SIZE_BOUND: usize = 1 + 8 + 8 + 8;
}

/// A STREAM frame without its data: which bytes of which stream it carries.
#[derive(Clone, Debug, Drop, PartialEq, Eq)]
pub struct StreamMeta {
    pub id: StreamId,
    /// From where to where in the stream the data reach.
    pub offsets: Range<u64>,
    /// Whether the stream ends where the data end.
    pub fin: bool,
}

impl Default for StreamMeta {
    /// No data, of the client's first bidirectional stream.
    fn default() -> Self
        ensures { result ≡ record { id = 0; offsets = record { start = 0; end = 0 }; fin = false } }
    {
        StreamMeta {
            id: StreamId::from(VarInt::new(0)),
            offsets: 0..0,
            fin: false,
        }
    }
}

/// RESET_STREAM: the sender gives the stream up (RFC 9000 section 19.4).
#[derive(Clone, Copy, Debug, PartialEq, Eq)]
pub struct ResetStream {
    pub id: StreamId,
    /// Why, in the application's terms.
    pub error_code: VarInt,
    /// How many bytes of the stream count.
    pub final_offset: VarInt,
}

impl ResetStream {
    /// How many bytes it takes at most.
    pub const SIZE_BOUND: usize = 1 + 8 + 8 + 8;
}

/// STOP_SENDING: the receiver wants no more of the stream (RFC 9000 section 19.5).
#[derive(Clone, Copy, Debug, PartialEq, Eq)]
pub struct StopSending {
    pub id: StreamId,
    /// Why, in the application's terms.
    pub error_code: VarInt,
}

impl StopSending {
    /// How many bytes it takes at most.
    pub const SIZE_BOUND: usize = 1 + 8 + 8;
}

/// CRYPTO: data of the handshake, from an offset on (RFC 9000 section 19.6). Only carried, never written or read here.
#[derive(Debug, Drop, PartialEq, Eq)]
pub struct Crypto {
    pub offset: u64,
    pub bytes: Bytes,
}

impl Crypto {
    /// An equal frame.
    pub fn try_clone(&self) -> Result<Self, OutOfMemory>
        ensures { IfOk result (λ copy. copy ≡ self.now) }
    {
        Ok(Crypto {
            offset: self.offset,
            bytes: self.bytes.try_clone()?,
        })
    }
}

/// DATAGRAM: data that belong to no stream (RFC 9221 section 4).
#[derive(Debug, Drop, PartialEq, Eq)]
pub struct Datagram {
    pub bytes: Bytes,
}

impl Datagram {
    /// How many bytes there are at most before the data.
    pub const SIZE_BOUND: usize = 1 + 8;
}

/// A frame. The kinds that carry no streams are only named, so that they can be counted; some have fields in QUIC.
#[derive(Debug, Drop, PartialEq, Eq)]
pub enum Frame {
    Padding,
    Ping,
    Ack,
    ResetStream(ResetStream),
    StopSending(StopSending),
    Crypto(Crypto),
    NewToken,
    Stream(Stream),
    /// How many bytes of all streams the peer may send (RFC 9000 section 19.9).
    MaxData(VarInt),
    /// How many bytes of a stream the peer may send (RFC 9000 section 19.10).
    MaxStreamData { id: StreamId, offset: u64 },
    /// How many streams of a direction the peer may open (RFC 9000 section 19.11).
    MaxStreams { dir: Dir, count: u64 },
    /// The limit of all streams that holds data back (RFC 9000 section 19.12).
    DataBlocked { offset: u64 },
    /// The limit of a stream that holds data back (RFC 9000 section 19.13).
    StreamDataBlocked { id: StreamId, offset: u64 },
    StreamsBlocked { dir: Dir },
    NewConnectionId,
    RetireConnectionId,
    PathChallenge,
    PathResponse,
    Close,
    Datagram(Datagram),
    AckFrequency,
    ImmediateAck,
    HandshakeDone,
}

impl Frame {
    /// How many bytes a MAX_DATA frame takes at most.
    pub const MAX_DATA_SIZE_BOUND: usize = 1 + 8;
    /// How many bytes a MAX_STREAM_DATA frame takes at most.
    pub const MAX_STREAM_DATA_SIZE_BOUND: usize = 1 + 8 + 8;
    /// How many bytes a MAX_STREAMS frame takes at most.
    pub const MAX_STREAMS_SIZE_BOUND: usize = 1 + 8;
    /// How many bytes a DATA_BLOCKED frame takes at most.
    pub const DATA_BLOCKED_SIZE_BOUND: usize = 1 + 8;
    /// How many bytes a STREAM_DATA_BLOCKED frame takes at most.
    pub const STREAM_DATA_BLOCKED_SIZE_BOUND: usize = 1 + 8 + 8;
}

/// Why a payload was not decoded: it is `Malformed` where its bytes are no frames, or memory ran out.
#[derive(Clone, Copy, Debug, Error, PartialEq, Eq, Hash)]
pub enum DecodeError {
    #[error("malformed frame")]
    Malformed,
    #[error("out of memory")]
    OutOfMemory,
}

impl From<OutOfMemory> for DecodeError {
    ghost from_gives = { λ _ e. e ≡ out_of_memory };

    fn from(_error: OutOfMemory) -> DecodeError {
        DecodeError::OutOfMemory
    }
}

impl<T: Drop> From<AllocFailed<T>> for DecodeError {
    ghost from_gives = { λ _ e. e ≡ out_of_memory };

    fn from(_error: AllocFailed<T>) -> DecodeError {
        DecodeError::OutOfMemory
    }
}
