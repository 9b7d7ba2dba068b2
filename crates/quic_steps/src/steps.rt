ghost use Rattle.std.specs.Prelude.{◌≡◌, ◌≤◌, ◌^◌};

use quic_assembler::Chunk;
use quic_sending::send::Written;
use quic_values::ChunkList;
use quic_wire::{Bytes, Dir, OutOfMemory, ReceiveError, StreamEvent, StreamId, VarInt};
use std::alloc::{AllocError, AllocFailed};
use thiserror::Error;

/// One of the two ends: A is the client, B the server.
#[derive(Clone, Copy, Debug, PartialEq, Eq)]
pub enum End {
    A,
    B,
}

/// What an end permits and how much it keeps.
///
/// The other end is given `initial_max_data = receive_window`, the three stream limits
/// `= stream_receive_window`, and the two counts (RFC 9000 section 18.2).
#[derive(Clone, Copy, Debug, PartialEq, Eq)]
pub struct Config {
    /// How many unidirectional streams the other end may open, at most 2^60.
    pub max_remote_uni: VarInt,
    /// How many bidirectional streams the other end may open, at most 2^60.
    pub max_remote_bi: VarInt,
    /// How many bytes are kept until they are acknowledged.
    pub send_window: u64,
    /// How many received bytes of all streams may be unread.
    pub receive_window: VarInt,
    /// How many received bytes of one stream may be unread.
    pub stream_receive_window: VarInt,
    pub ghost uni_in_range: { max_remote_uni ≤ 2 ^ 60 },
    pub ghost bi_in_range: { max_remote_bi ≤ 2 ^ 60 },
}

/// The frames that a payload has, if it has those of one kind alone.
#[derive(Clone, Copy, Debug, PartialEq, Eq)]
pub enum PayloadPart {
    /// Frames beside STREAM and DATAGRAM (RFC 9000 sections 19.4, 19.5 and 19.9 to 19.13).
    Control,
    /// STREAM frames (RFC 9000 section 19.8).
    Streams,
}

/// What is done with the pair. `who` is the end that acts, `id` a stream that `Open` or `Accept`
/// gave on that end.
#[derive(Debug, Drop, PartialEq, Eq)]
pub enum Step {
    /// Opens a stream.
    Open {
        who: End,
        dir: Dir,
    },
    /// Takes a stream that the other end opened.
    Accept {
        who: End,
        dir: Dir,
    },
    /// Writes a beginning of the bytes.
    Write {
        who: End,
        id: StreamId,
        bytes: Bytes,
    },
    /// Writes a beginning of the chunks.
    WriteChunks {
        who: End,
        id: StreamId,
        chunks: ChunkList,
    },
    /// Ends the stream.
    Finish {
        who: End,
        id: StreamId,
    },
    /// Abandons the sending part of the stream (RFC 9000 section 19.4).
    Reset {
        who: End,
        id: StreamId,
        code: VarInt,
    },
    /// Asks the other end to stop sending (RFC 9000 section 19.5).
    Stop {
        who: End,
        id: StreamId,
        code: VarInt,
    },
    /// Sets the priority at which the stream is queued from now on.
    SetPriority {
        who: End,
        id: StreamId,
        priority: i32,
    },
    /// Reads up to `times` chunks of at most `max` bytes each.
    Read {
        who: End,
        id: StreamId,
        ordered: bool,
        max: usize,
        times: u16,
    },
    /// Asks whether the other end abandoned the stream.
    ReceivedReset {
        who: End,
        id: StreamId,
    },
    SetSendWindow {
        who: End,
        window: u64,
    },
    SetReceiveWindow {
        who: End,
        window: VarInt,
    },
    /// Sets how many streams of a direction the other end may have at once.
    SetMaxConcurrent {
        who: End,
        dir: Dir,
        count: VarInt,
    },
    /// Takes the next event.
    Poll {
        who: End,
    },
    /// Writes frames into a payload of at most `max_size` bytes.
    Emit {
        who: End,
        max_size: usize,
        fair: bool,
    },
    /// Writes the frames of one part alone into a payload of at most `max_size` bytes. Frames of the other part stay pending.
    EmitPart {
        who: End,
        max_size: usize,
        fair: bool,
        part: PayloadPart,
    },
    /// Hands one frame of a payload to the other end. May be done again, in any order.
    Deliver {
        payload: usize,
        frame: usize,
    },
    /// Reports a payload lost: what it carried is to be sent again.
    Lose {
        payload: usize,
    },
    /// Reports a payload acknowledged. Each of its frames was accepted.
    Ack {
        payload: usize,
    },
    /// The server accepts what the client sent before the handshake was done, 0-RTT (RFC 9000
    /// section 7.4.1): the client is given the server's limits, none of which may be below the one
    /// it remembered.
    EarlyAccept,
    /// The server rejects what the client sent before the handshake was done: all payloads leave the
    /// network, and the client's streams begin anew, with the server's limits.
    EarlyReject,
    /// The server asks the client to begin again (RFC 9000 section 17.2.5): all payloads leave the
    /// network, and all that the client sent is to be sent again.
    Retry,
}

/// How a read ended.
#[derive(Clone, Copy, Debug, PartialEq, Eq)]
pub enum Last {
    /// The next bytes have not come.
    Blocked,
    /// The stream ended and all was read.
    Ended,
    /// The other end abandoned the stream with this code.
    Reset(VarInt),
    /// There was no memory for the next chunk.
    Memory,
    /// As many chunks as were asked for were read.
    More,
}

/// What a step is answered.
#[derive(Debug, Drop, PartialEq, Eq)]
pub enum Reply {
    Done,
    /// Done, and the end that received has something to send for it.
    DoneTransmit,
    /// The frame was refused, and why.
    Fault(ReceiveError),
    Id(StreamId),
    Nothing,
    /// That many bytes were written.
    Wrote(usize),
    WroteChunks(Written),
    Blocked,
    /// The other end asked to stop, with this code.
    Stopped(VarInt),
    Closed,
    /// An ordered read after an unordered one.
    Illegal,
    /// What was read, how the read ended, and whether there is something to send for it.
    Read {
        chunks: Vec<Chunk>,
        last: Last,
        transmit: bool,
    },
    Code(VarInt),
    /// Whether the receive window was made larger.
    Expanded(bool),
    Event(StreamEvent),
    /// The payload's number, from 0 on over both ends, and its bytes.
    Payload {
        number: usize,
        bytes: Vec<u8>,
    },
}

/// Why a step was refused. Nothing changed then, but for what `OutOfMemory` says.
#[derive(Clone, Copy, Debug, Error, PartialEq, Eq)]
pub enum PairError {
    #[error("no such payload")]
    NoSuchPayload,
    #[error("no such frame")]
    NoSuchFrame,
    #[error("a frame was not accepted")]
    NotAccepted,
    #[error("unknown stream id")]
    UnknownId,
    /// Out of memory: the step was not taken. But an `Emit` or an `EmitPart` may have made its payload, with the
    /// frames that were written before, and a `Lose` or an `Ack` may have reported the first frames of its payload. That
    /// report may be asked again, and then goes on; the other of the two is refused from now on.
    #[error("out of memory")]
    OutOfMemory,
    /// The payload was reported lost or acknowledged, or the other of the two was begun.
    #[error("the payload is already settled")]
    AlreadySettled,
    /// A limit that the client remembered is above the one that the server gives (RFC 9000 section
    /// 7.4.1).
    #[error("a limit is below the one that was remembered")]
    LimitsBelow,
    /// Whether the server takes what the client sent before the handshake was done is not decided:
    /// until then the server does nothing, and nothing is delivered.
    #[error("the early data is not decided")]
    Undecided,
    /// It is decided whether the server takes what the client sent before the handshake was done, or
    /// the pair was made without such data.
    #[error("the early data is decided")]
    Decided,
}

impl PairError {
    ghost use Rattle.quic_steps.specs.Errors.{number_of};

    /// From 1 on.
    pub fn number(self) -> u8
        ensures { result ≡ number_of self }
    {
        match self {
            PairError::NoSuchPayload => 1,
            PairError::NoSuchFrame => 2,
            PairError::NotAccepted => 3,
            PairError::UnknownId => 4,
            PairError::OutOfMemory => 5,
            PairError::AlreadySettled => 6,
            PairError::LimitsBelow => 7,
            PairError::Undecided => 8,
            PairError::Decided => 9,
        }
    }
}

impl From<OutOfMemory> for PairError {
    ghost use Rattle.std.specs.Prelude.{◌≡◌};
    ghost use Rattle.quic_steps.specs.declared.steps.PairError.TheVariants.{OutOfMemory};

    ghost from_gives = { λ _ e. e ≡ OutOfMemory };

    fn from(_error: OutOfMemory) -> Self {
        PairError::OutOfMemory
    }
}

impl From<AllocError> for PairError {
    ghost use Rattle.std.specs.Prelude.{◌≡◌};
    ghost use Rattle.quic_steps.specs.declared.steps.PairError.TheVariants.{OutOfMemory};

    ghost from_gives = { λ _ e. e ≡ OutOfMemory };

    fn from(_error: AllocError) -> Self {
        PairError::OutOfMemory
    }
}

impl<T: Drop> From<AllocFailed<T>> for PairError {
    ghost use Rattle.std.specs.Prelude.{◌≡◌};
    ghost use Rattle.quic_steps.specs.declared.steps.PairError.TheVariants.{OutOfMemory};

    ghost from_gives = { λ _ e. e ≡ OutOfMemory };

    fn from(_error: AllocFailed<T>) -> Self {
        PairError::OutOfMemory
    }
}
