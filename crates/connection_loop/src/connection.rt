//! One end of a connection: what a connection layer keeps of its streams, and when it calls them.

use anyhow::{Result, ensure};
use quic_streams::SentPayload;
use quic_streams::recv::ShouldTransmit;
use quic_streams::retransmits::{Retransmits, ThinRetransmits};
use quic_streams::stats::FrameStats;
use quic_streams::streams::{PeerLimits, StreamMetaVec, StreamsState};
use quic_streams::wire::{Dir, Frame, OutOfMemory, Side, TransportError, VarInt, decode};
use std::alloc::Global;
use std::collections::BTreeMap;

/// One end: its streams, what is pending beside their data, what was sent and not heard of, and its application's text.
#[derive(Drop)]
pub struct Connection {
    pub side: Side,
    pub streams: StreamsState,
    pub pending: Retransmits,
    pub sent: BTreeMap<u64, SentPayload>,
    pub left: &'static [u8],
    pub read: Vec<u8>,
    pub alloc: Global,
}

impl Connection {
    /// An end that permits what its peer permits. From a handshake the peer's limits come as transport parameters.
    pub fn new(alloc: Global, side: Side, text: &'static str) -> Result<Self> {
        let (count, window, each) = (VarInt::from(4u32), VarInt::from(48u32), VarInt::from(32u32));
        let mut streams = StreamsState::new(alloc, side, count, count, 64, window, each)?;
        streams.set_params(&PeerLimits {
            initial_max_data: window,
            initial_max_streams_bidi: count,
            initial_max_streams_uni: count,
            initial_max_stream_data_uni: each,
            initial_max_stream_data_bidi_local: each,
            initial_max_stream_data_bidi_remote: each,
        })?;
        Ok(Connection {
            side,
            streams,
            pending: Retransmits::new(alloc),
            sent: BTreeMap::new(alloc),
            left: text.as_bytes(),
            read: Vec::new(alloc),
            alloc,
        })
    }

    /// A payload came: each of its frames is handed on. An error closes the connection.
    pub fn receive(&mut self, payload: &[u8]) -> Result<()> {
        let frames = decode(self.alloc, payload)?;
        for frame in frames {
            let answer = match frame {
                Frame::Stream(frame) => self.streams.received(frame, payload.len())?,
                Frame::ResetStream(frame) => self.streams.received_reset(frame)?,
                frame => take_notice(&mut self.streams, self.side, &frame)?,
            };
            self.pending.queue_max_data(answer.should_transmit());
            self.streams.queue_max_stream_id(&mut self.pending);
        }
        Ok(())
    }

    /// Writes what is to be sent into a payload of at most 40 bytes, and remembers what it carries.
    pub fn send(&mut self, number: u64) -> Result<Vec<u8>> {
        let (mut payload, mut counts) = (Vec::new(self.alloc), FrameStats::new());
        let mut control = ThinRetransmits::new(self.alloc);
        let mut streams = StreamMetaVec::new(self.alloc);
        let (state, pending, size) = (&mut self.streams, &mut self.pending, 40);
        state.write_control_frames(&mut payload, pending, &mut control, &mut counts, size)?;
        state.write_stream_frames(&mut payload, &mut streams, size, true)?;
        if !payload.is_empty() {
            self.sent.insert(number, SentPayload { streams, control })?;
        }
        Ok(payload)
    }

    /// A payload was acknowledged: what it carried need not be kept.
    pub fn acknowledged(&mut self, sent: SentPayload) -> Result<()> {
        self.streams.acked(sent).or(Err(OutOfMemory))?;
        self.streams.queue_max_stream_id(&mut self.pending);
        Ok(())
    }

    /// A payload was lost: what it carried is to be sent again.
    pub fn lost(&mut self, sent: SentPayload) -> Result<()> {
        Ok(
            self.streams
                .lost(sent, &mut self.pending)
                .or(Err(OutOfMemory))?,
        )
    }
}

// Hands on a frame that calls for no answer. STOP_SENDING is for a stream on which this end sends, STREAM_DATA_BLOCKED for
// one on which its peer does (RFC 9000 sections 19.5 and 19.13).
fn take_notice(streams: &mut StreamsState, side: Side, frame: &Frame) -> Result<ShouldTransmit> {
    let wrong = TransportError::stream_state_error("no such frame for this stream");
    match frame {
        Frame::StopSending(stop) => {
            let is_own = stop.id.initiator() == side;
            ensure!(is_own || stop.id.dir() == Dir::Bi, wrong);
            ensure!(!is_own || !streams.is_local_unopened(stop.id), wrong);
            streams.received_stop_sending(stop.id, stop.error_code)?;
        }
        Frame::MaxData(limit) => streams.received_max_data(*limit),
        Frame::MaxStreamData { id, offset } => streams.received_max_stream_data(*id, *offset)?,
        Frame::MaxStreams { dir, count } => streams.received_max_streams(*dir, *count)?,
        Frame::StreamDataBlocked { id, .. } => {
            ensure!(id.initiator() != side || id.dir() == Dir::Bi, wrong);
        }
        _ => {}
    }
    Ok(ShouldTransmit(false))
}
