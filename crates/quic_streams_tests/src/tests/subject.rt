//! The calls on one end.
use super::frames::id;
use quic_receiving::{Chunk, HandleError, ReadError, ReadableError, ShouldTransmit};
use quic_sending::{FinishError, WriteError, Written};
use quic_streams::batches::ReadSome;
use quic_streams::pending::PendingFrames;
use quic_streams::reading::Chunks;
use quic_streams::recv_stream::RecvStream;
use quic_streams::send_stream::SendStream;
use quic_streams::state::StreamsState;
use quic_streams::stats::FrameStats;
use quic_streams::streams::{ConnState, Streams};
use quic_streams::{PeerLimits, Retransmits, StreamMetaVec, ThinRetransmits};
use quic_values::{Bytes, Dir, OutOfMemory, Side, StreamId, VarInt};
use quic_wire::frame::{ResetStream, Stream, StreamMeta};
use quic_wire::{ReceiveError, StreamEvent};
use std::alloc::Global;

/// One end, and its pending control frames.
#[derive(Drop)]
pub struct Subject {
    pub state: StreamsState,
    pub pending: Retransmits,
    /// Whether its connection is open.
    pub conn: ConnState,
    /// How many bytes the peer may send at first.
    pub window: u64,
}

// The peer permits so many streams of each direction, bytes in all, and bytes on each stream.
fn limits(streams: u32, data: u32, stream_data: u32) -> PeerLimits {
    let limit = VarInt::from(stream_data);
    PeerLimits {
        initial_max_data: VarInt::from(data),
        initial_max_streams_bidi: VarInt::from(streams),
        initial_max_streams_uni: VarInt::from(streams),
        initial_max_stream_data_uni: limit,
        initial_max_stream_data_bidi_local: limit,
        initial_max_stream_data_bidi_remote: limit,
    }
}

fn new_state(
    alloc: Global,
    side: Side,
    streams: u32,
    send_window: u64,
    window: VarInt,
    stream_window: VarInt,
) -> Result<StreamsState, OutOfMemory> {
    let streams = VarInt::from(streams);
    StreamsState::new(
        alloc,
        side,
        streams,
        streams,
        send_window,
        window,
        stream_window,
    )
}

pub fn nothing_pending(alloc: Global) -> Retransmits {
    Retransmits::new(alloc)
}

pub fn nothing_noted(alloc: Global) -> ThinRetransmits {
    ThinRetransmits::new(alloc)
}

pub fn next_chunk(chunks: &mut Chunks<'_>, most: usize) -> Result<Option<Chunk>, ReadError> {
    chunks.next(most)
}

// Ends a reader. Answers whether to transmit.
pub fn finalize(chunks: Chunks<'_>) -> bool {
    chunks.finalize().should_transmit()
}

// How an end is made, and what it is told of its peer.
impl Subject {
    // An end that permits its peer so many streams of each direction.
    pub fn new(
        alloc: Global,
        side: Side,
        streams: u32,
        send_window: u64,
        window: VarInt,
        stream_window: VarInt,
    ) -> Result<Subject, OutOfMemory> {
        let state = new_state(alloc, side, streams, send_window, window, stream_window)?;
        Ok(Subject {
            state,
            pending: nothing_pending(alloc),
            conn: ConnState::Open,
            window: window.into_inner(),
        })
    }

    // The peer permits so many streams of each direction, bytes in all, and bytes on each stream.
    pub fn permit(&mut self, streams: u32, data: u32, stream_data: u32) -> Result<(), OutOfMemory> {
        self.state.set_params(&limits(streams, data, stream_data))
    }

    pub fn retransmit_all_for_0rtt(&mut self) -> Result<(), OutOfMemory> {
        self.state.retransmit_all_for_0rtt()
    }

    pub fn poll(&mut self) -> Option<StreamEvent> {
        self.state.poll()
    }
}

// The streams.
impl Subject {
    fn streams(&mut self) -> Streams<'_> {
        let conn = self.conn;
        Streams::new(&mut self.state, conn)
    }

    pub fn open(&mut self, dir: Dir) -> Result<Option<StreamId>, OutOfMemory> {
        self.streams().open(dir)
    }

    pub fn accept(&mut self, dir: Dir) -> Option<StreamId> {
        self.streams().accept(dir)
    }

    pub fn send_streams(&mut self) -> usize {
        self.streams().send_streams()
    }
}

// The sending side of a stream.
impl Subject {
    fn sending(&mut self, stream: u32) -> SendStream<'_> {
        let conn = self.conn;
        SendStream::new(id(stream), &mut self.state, &mut self.pending, conn)
    }

    pub fn write(&mut self, stream: u32, bytes: &[u8]) -> Result<usize, WriteError> {
        self.sending(stream).write(bytes)
    }

    pub fn write_chunks(
        &mut self,
        stream: u32,
        chunks: &mut [Bytes],
    ) -> Result<Written, WriteError> {
        self.sending(stream).write_chunks(chunks)
    }

    pub fn finish(&mut self, stream: u32) -> Result<(), FinishError> {
        self.sending(stream).finish()
    }

    pub fn reset(&mut self, stream: u32, code: u32) -> Result<(), HandleError> {
        self.sending(stream).reset(VarInt::from(code))
    }

    // The priority, where the half is held.
    pub fn priority(&mut self, stream: u32) -> Option<i32> {
        self.sending(stream).priority().ok()
    }
}

// The receiving side of a stream.
impl Subject {
    fn receiving(&mut self, stream: u32) -> RecvStream<'_> {
        RecvStream::new(id(stream), &mut self.state, &mut self.pending)
    }

    pub fn stop(&mut self, stream: u32, code: u32) -> Result<(), HandleError> {
        self.receiving(stream).stop(VarInt::from(code))
    }

    pub fn read_some(
        &mut self,
        stream: u32,
        ordered: bool,
        most: usize,
        times: u16,
    ) -> Result<ReadSome, ReadableError> {
        self.receiving(stream).read_some(ordered, most, times)
    }

    pub fn read_some_into(
        &mut self,
        stream: u32,
        most: usize,
        times: u16,
        list: Vec<Chunk>,
    ) -> Result<ReadSome, ReadableError> {
        self.receiving(stream)
            .read_some_into(true, most, times, list)
    }

    pub fn add_read_credits(&mut self, credits: u64) -> ShouldTransmit {
        self.state.add_read_credits(credits)
    }
}

// The frames that come.
impl Subject {
    pub fn received(&mut self, frame: Stream) -> Result<ShouldTransmit, ReceiveError> {
        let length = frame.bytes.len();
        self.state.received(frame, length)
    }

    pub fn received_reset(&mut self, frame: ResetStream) -> Result<ShouldTransmit, ReceiveError> {
        self.state.received_reset(frame)
    }

    pub fn received_max_data(&mut self, limit: u32) {
        self.state.received_max_data(VarInt::from(limit));
    }
}

// What becomes of the frames that were sent.
impl Subject {
    pub fn received_ack_of(&mut self, frame: StreamMeta) -> Result<(), OutOfMemory> {
        self.state.received_ack_of(frame)
    }

    pub fn retransmit(&mut self, frame: StreamMeta) -> Result<(), OutOfMemory> {
        self.state.retransmit(frame)
    }

    pub fn reset_acked(&mut self, stream: u32) -> Result<(), OutOfMemory> {
        self.state.reset_acked(id(stream))
    }
}

// The frames that leave.
impl Subject {
    pub fn write_stream_frames(
        &mut self,
        buf: &mut Vec<u8>,
        sent: &mut StreamMetaVec,
        max_size: usize,
        fair: bool,
    ) -> Result<(), OutOfMemory> {
        self.state.write_stream_frames(buf, sent, max_size, fair)
    }

    pub fn write_control_frames(
        &mut self,
        buf: &mut Vec<u8>,
        sent: &mut ThinRetransmits,
        stats: &mut FrameStats,
        max_size: usize,
    ) -> Result<(), OutOfMemory> {
        self.state
            .write_control_frames(buf, &mut self.pending, sent, stats, max_size)
    }

    pub fn has_nothing_of(&self, pending: &Retransmits) -> bool {
        pending.is_empty(&self.state)
    }

    pub fn has_nothing_of_thin(&self, thin: &ThinRetransmits) -> bool {
        thin.is_empty(&self.state)
    }
}

// What is set.
impl Subject {
    pub fn set_send_window(&mut self, window: u64) {
        self.state.set_send_window(window);
    }
}

// What is told.
impl Subject {
    pub fn local_max_data(&self) -> u64 {
        self.state.local_max_data()
    }

    pub fn data_recvd(&self) -> u64 {
        self.state.data_recvd()
    }

    pub fn write_limit(&self) -> u64 {
        self.state.write_limit()
    }

    pub fn max_remote(&self, dir: Dir) -> u64 {
        self.state.max_remote(dir)
    }

    pub fn next_remote(&self, dir: Dir) -> u64 {
        self.state.next_remote(dir)
    }

    pub fn can_send_stream_data(&self) -> bool {
        self.state.can_send_stream_data()
    }

    pub fn can_send_data_blocked(&self) -> bool {
        self.state.can_send_data_blocked()
    }
}
