//! One end of a connection, without packets.

ghost use Rattle.std.specs.Prelude.{◌≤◌};

use crate::content::{PIECE, Seen};
use crate::refused::Refused;
use quic_assembler::Chunk;
use quic_receiving::ReadableError;
use quic_sending::WriteError;
use quic_streams::batches::ReadSome;
use quic_streams::progress::LastAnswer;
use quic_streams::recv_stream::RecvStream;
use quic_streams::send_stream::SendStream;
use quic_streams::state::StreamsState;
use quic_streams::stats::FrameStats;
use quic_streams::streams::{ConnState, Streams};
use quic_streams::{PeerLimits, Retransmits, SentPayload, StreamMetaVec, ThinRetransmits};
use quic_values::{Dir, OutOfMemory, Side, StreamId, VarInt};
use quic_wire::frame::Stream;
use quic_wire::{DecodeError, Frame, StreamEvent, decode_owned_into};
use std::alloc::Global;
use std::mem;

// Each window, and each limit of the peer but the number of streams.
const LIMIT: u32 = 1 << 20;

// The most chunks that are read at once. Their list is a small piece of memory.
const BATCH: u16 = 24;

/// An end, with what it has to send beside the data of streams.
#[derive(Drop)]
pub(crate) struct End {
    streams: StreamsState,
    pending: Retransmits,
    counters: FrameStats,
    // The list of the last payload's frames and that of the last read's chunks, whose memory is used again.
    frames: Vec<Frame>,
    chunks: Vec<Chunk>,
    alloc: Global,
}

/// A payload that is sent, and what has to be known of it when it is acknowledged or lost.
#[derive(Drop)]
pub(crate) struct Payload {
    pub bytes: Vec<u8>,
    pub sent: SentPayload,
}

/// What was read of a stream.
#[derive(Clone, Copy)]
pub(crate) struct Read {
    /// The bytes, with those seen before.
    pub seen: Seen,
    /// Whether the end was read.
    pub ended: bool,
}

// The state of an end that permits so many unidirectional streams at a time and no others, and is permitted as many.
fn new_state(alloc: Global, side: Side, count: u32) -> Result<StreamsState, OutOfMemory> {
    let (streams, none) = (VarInt::from(count), VarInt::from(0u32));
    let limit = VarInt::from(LIMIT);
    let window = u64::from(LIMIT);
    let mut state = StreamsState::new(alloc, side, streams, none, window, limit, limit)?;
    match permit(&mut state, count) {
        Ok(()) => Ok(state),
        Err(error) => Err(error),
    }
}

// The peer permits so many unidirectional streams at a time and no others.
#[inline(always)]
fn permit(state: &mut StreamsState, count: u32) -> Result<(), OutOfMemory> {
    let (streams, none) = (VarInt::from(count), VarInt::from(0u32));
    let limit = VarInt::from(LIMIT);
    state.set_params(&PeerLimits {
        initial_max_data: limit,
        initial_max_streams_bidi: none,
        initial_max_streams_uni: streams,
        initial_max_stream_data_uni: limit,
        initial_max_stream_data_bidi_local: limit,
        initial_max_stream_data_bidi_remote: limit,
    })
}

// Sees the chunks of a read. The first byte of the stream counts as that at an offset.
#[inline(always)]
fn see_chunks(seen: &mut Seen, first: u64, chunks: &[Chunk]) {
    for chunk in chunks {
        seen.see(first.wrapping_add(chunk.offset), chunk.bytes.as_slice());
    }
}

impl End {
    /// An end that permits so many unidirectional streams at a time and no others, and is permitted as many.
    pub(crate) fn new(alloc: Global, side: Side, count: u32) -> Result<Self, Refused> {
        let streams = new_state(alloc, side, count)?;
        Ok(End {
            streams,
            pending: Retransmits::new(alloc),
            counters: FrameStats::new(),
            frames: Vec::new(alloc),
            chunks: Vec::new(alloc),
            alloc,
        })
    }

    /// Opens a unidirectional stream, if the peer permits one.
    pub(crate) fn open(&mut self) -> Result<Option<StreamId>, Refused> {
        Ok(Streams::new(&mut self.streams, ConnState::Open).open(Dir::Uni)?)
    }

    /// Accepts a stream that the peer opened, if there is one.
    pub(crate) fn accept(&mut self, dir: Dir) -> Option<StreamId> {
        Streams::new(&mut self.streams, ConnState::Open).accept(dir)
    }

    /// Writes the first of some bytes, and answers how many: none where the stream is blocked.
    pub(crate) fn write(&mut self, id: StreamId, bytes: &[u8]) -> Result<usize, Refused> {
        match self.sender(id).write(bytes) {
            Ok(written) => Ok(written),
            Err(WriteError::Blocked) => Ok(0),
            Err(_) => Err(Refused),
        }
    }

    /// Ends a stream.
    pub(crate) fn finish(&mut self, id: StreamId) -> Result<(), Refused> {
        self.sender(id).finish()?;
        Ok(())
    }

    fn sender(&mut self, id: StreamId) -> SendStream<'_> {
        SendStream::new(id, &mut self.streams, &mut self.pending, ConnState::Open)
    }

    /// What the application is to be told next.
    pub(crate) fn poll(&mut self) -> Option<StreamEvent> {
        self.streams.poll()
    }

    /// Reads a stream in order as far as it goes. `None`: it is closed.
    pub(crate) fn read(
        &mut self,
        id: StreamId,
        first: u64,
        seen: Seen,
    ) -> Result<Option<Read>, Refused> {
        let mut read = Read { seen, ended: false };
        'batches: for _ in 0..u64::MAX {
            let Some(last) = self.read_batch(id, first, &mut read.seen)? else {
                return Ok(None);
            };
            match last {
                LastAnswer::More => {}
                LastAnswer::Blocked => break 'batches,
                LastAnswer::Ended => {
                    read.ended = true;
                    break 'batches;
                }
                LastAnswer::Reset(_) | LastAnswer::Memory => return Err(Refused),
            }
        }
        Ok(Some(read))
    }

    // Reads some chunks. Answers why they are no more. `None`: the stream is closed.
    #[inline(always)]
    fn read_batch(
        &mut self,
        id: StreamId,
        first: u64,
        seen: &mut Seen,
    ) -> Result<Option<LastAnswer>, Refused> {
        match self.read_chunks(id) {
            Ok(last) => {
                see_chunks(seen, first, &self.chunks);
                self.chunks.clear();
                Ok(Some(last))
            }
            Err(ReadableError::ClosedStream) => Ok(None),
            Err(_) => Err(Refused),
        }
    }

    // Reads some chunks into the list. Answers why they are no more.
    #[inline(always)]
    fn read_chunks(&mut self, id: StreamId) -> Result<LastAnswer, ReadableError> {
        let list = mem::replace(&mut self.chunks, Vec::new(self.alloc));
        let batch = self.read_into(id, list)?;
        self.chunks = batch.chunks;
        Ok(batch.last)
    }

    // The read itself.
    #[inline(always)]
    fn read_into(&mut self, id: StreamId, list: Vec<Chunk>) -> Result<ReadSome, ReadableError> {
        let mut stream = RecvStream::new(id, &mut self.streams, &mut self.pending);
        stream.read_some_into(true, usize::MAX, BATCH, list)
    }

    /// Writes a payload: control frames, then STREAM frames. It has no bytes where nothing is to be sent.
    pub(crate) fn emit(&mut self) -> Result<Payload, Refused> {
        let mut payload = Payload {
            bytes: Vec::with_capacity(self.alloc, PIECE)?,
            sent: SentPayload {
                streams: StreamMetaVec::new(self.alloc),
                control: ThinRetransmits::new(self.alloc),
            },
        };
        match self.write_frames(&mut payload) {
            Ok(()) => Ok(payload),
            Err(_) => Err(Refused),
        }
    }

    #[inline(always)]
    fn write_frames(&mut self, payload: &mut Payload) -> Result<(), OutOfMemory> {
        self.write_control(&mut payload.bytes, &mut payload.sent.control)?;
        self.write_data(&mut payload.bytes, &mut payload.sent.streams)
    }

    #[inline(always)]
    fn write_control(
        &mut self,
        bytes: &mut Vec<u8>,
        sent: &mut ThinRetransmits,
    ) -> Result<(), OutOfMemory> {
        self.streams
            .write_control_frames(bytes, &mut self.pending, sent, &mut self.counters, PIECE)
    }

    #[inline(always)]
    fn write_data(
        &mut self,
        bytes: &mut Vec<u8>,
        sent: &mut StreamMetaVec,
    ) -> Result<(), OutOfMemory> {
        self.streams.write_stream_frames(bytes, sent, PIECE, true)
    }

    /// Takes a payload of the peer.
    pub(crate) fn deliver(&mut self, payload: Vec<u8>) -> Result<(), Refused> {
        let payload_len = payload.len();
        self.decode(payload)?;
        take_all(
            &mut self.streams,
            &mut self.pending,
            &mut self.frames,
            payload_len,
        )?;
        self.queue_permits();
        Ok(())
    }

    // Reads the frames of a payload, in the list of the last one's.
    #[inline(always)]
    fn decode(&mut self, payload: Vec<u8>) -> Result<(), DecodeError> {
        let list = mem::replace(&mut self.frames, Vec::new(self.alloc));
        self.frames = decode_owned_into(self.alloc, payload, list)?;
        Ok(())
    }

    // Queues MAX_STREAMS where it is due.
    #[inline(always)]
    fn queue_permits(&mut self) {
        let _ = self.streams.queue_max_stream_id(&mut self.pending);
    }

    /// A payload was acknowledged.
    pub(crate) fn acknowledge(&mut self, sent: SentPayload) -> Result<(), Refused> {
        match self.streams.acked(sent) {
            Ok(()) => Ok(()),
            Err(_) => Err(Refused),
        }
    }

    /// A payload was lost.
    pub(crate) fn lose(&mut self, sent: SentPayload) -> Result<(), Refused> {
        match self.streams.lost(sent, &mut self.pending) {
            Ok(()) => Ok(()),
            Err(_) => Err(Refused),
        }
    }
}

// Takes the frames of a payload of so many bytes.
#[inline(always)]
fn take_all(
    streams: &mut StreamsState,
    pending: &mut Retransmits,
    frames: &mut Vec<Frame>,
    payload_len: usize,
) -> Result<(), Refused> {
    for frame in frames.drain(..) {
        take(streams, pending, frame, payload_len)?;
    }
    Ok(())
}

// Takes a frame of a payload of so many bytes.
fn take(
    streams: &mut StreamsState,
    pending: &mut Retransmits,
    frame: Frame,
    payload_len: usize,
) -> Result<(), Refused> {
    match frame {
        Frame::Stream(stream) => take_data(streams, pending, stream, payload_len),
        control => take_control(streams, &control),
    }
}

// Takes data of a payload of so many bytes.
#[inline(always)]
fn take_data(
    streams: &mut StreamsState,
    pending: &mut Retransmits,
    stream: Stream,
    payload_len: usize,
) -> Result<(), Refused> {
    if stream.bytes.len() > payload_len {
        return Err(Refused);
    }
    let answer = streams.received(stream, payload_len)?;
    pending.max_data |= answer.should_transmit();
    Ok(())
}

// Takes a frame that is no data.
#[inline(always)]
fn take_control(streams: &mut StreamsState, frame: &Frame) -> Result<(), Refused> {
    match frame {
        Frame::MaxData(limit) => {
            streams.received_max_data(*limit);
            Ok(())
        }
        Frame::MaxStreamData { id, offset } => raise_stream(streams, *id, *offset),
        Frame::MaxStreams { dir, count } => permit_streams(streams, *dir, *count),
        Frame::DataBlocked { .. } | Frame::StreamDataBlocked { .. } => Ok(()),
        _ => Err(Refused),
    }
}

// Takes the limit of a stream.
#[inline(always)]
fn raise_stream(streams: &mut StreamsState, id: StreamId, limit: u64) -> Result<(), Refused> {
    Ok(streams.received_max_stream_data(id, limit)?)
}

// Takes the number of streams of a direction.
#[inline(always)]
fn permit_streams(streams: &mut StreamsState, dir: Dir, count: u64) -> Result<(), Refused> {
    Ok(streams.received_max_streams(dir, count)?)
}
