//! A plain record of what an endpoint received and advertised, and of how it has to answer the next frame.

use crate::arrival::{Arrival, Part};
use crate::flow::{Counts, Flow, Phase, is_own};
use quic_ranges::RangeSet;
use quic_streams::state::StreamsState;
use quic_values::{Dir, OutOfMemory, StreamId};
use quic_wire::{Frame, TransportError};
use std::alloc::Global;

/// How many streams of each direction the peer may use at a time.
pub const STREAMS: u32 = 16;

/// How many bytes the peer may send beyond those that were read, on all streams.
pub const WINDOW: u32 = 1 << 18;

/// The same on each stream.
pub const STREAM_WINDOW: u32 = 1 << 14;

/// The limits of the peer: how many bytes it allows at first, on all streams and on each.
pub const PEER_LIMIT: u32 = 4096;

/// The longest datagram.
pub const DATAGRAM: u16 = 1000;

// How many bytes a stream can have, and one more (RFC 9000 section 4.5).
const END_OF_OFFSETS: u64 = 1 << 62;

// More buffered segments of a stream are too many.
const SEGMENTS: u64 = 1024;

/// How a frame has to be answered.
#[derive(Clone, Copy, Debug, PartialEq, Eq)]
pub enum Verdict {
    Taken,
    // The code of an error.
    Refused(u64),
}

/// What an endpoint received.
#[derive(Drop)]
pub struct Record {
    flows: Vec<Flow>,
    // The indices of streams whose receive side is freed: of the peer's of both directions, and of this endpoint's.
    freed: [RangeSet; 3],
    // The peer's bidirectional streams among them that are not over: their send side may be there.
    halves: Vec<StreamId>,
    // The streams of the peer that are over, and those that it opened.
    over: Counts,
    remote: Counts,
    // The streams that this endpoint opened, and how many it may open.
    own: Counts,
    allowed: Counts,
    // How many bytes were received, and for how many the credit was given back.
    received: u64,
    consumed: u64,
    // How many bytes were written, and how many may be.
    written: u64,
    max_data: u64,
}

fn class_of(id: StreamId) -> usize {
    match (is_own(id), id.dir()) {
        (false, Dir::Bi) => 0,
        (false, Dir::Uni) => 1,
        (true, _) => 2,
    }
}

// The error of a frame, if there is one.
fn verdict_of(error: Option<u64>) -> Verdict {
    match error {
        Some(code) => Verdict::Refused(code),
        None => Verdict::Taken,
    }
}

fn refuse_if(is_wrong: bool, code: u64) -> Option<u64> {
    if is_wrong { Some(code) } else { None }
}

impl Record {
    /// One in which nothing was received.
    pub fn new(alloc: Global) -> Self {
        let (none, streams) = (Counts::new(0), Counts::new(u64::from(STREAMS)));
        Record {
            flows: Vec::new(alloc),
            freed: [
                RangeSet::new(alloc),
                RangeSet::new(alloc),
                RangeSet::new(alloc),
            ],
            halves: Vec::new(alloc),
            over: none,
            remote: none,
            own: none,
            allowed: streams,
            received: 0,
            consumed: 0,
            written: 0,
            max_data: u64::from(PEER_LIMIT),
        }
    }

    /// What is known of a stream, also if nothing was received on it. `None`: its receive side is freed.
    pub fn flow(&self, id: StreamId) -> Option<Flow> {
        for flow in self.flows.iter() {
            if flow.id == id {
                return Some(*flow);
            }
        }
        match self.freed.get(class_of(id)) {
            Some(freed) if freed.contains(id.index()) => None,
            _ => Some(Flow::untouched(id, u64::from(STREAM_WINDOW))),
        }
    }

    /// How many streams of a direction the peer may have opened (RFC 9000 section 4.6).
    pub fn limit(&self, dir: Dir) -> u64 {
        u64::from(STREAMS).saturating_add(self.over.of(dir))
    }

    /// How many streams of a direction this endpoint opened.
    pub fn own(&self, dir: Dir) -> u64 {
        self.own.of(dir)
    }

    // How many bytes the peer may have sent (RFC 9000 section 4.1).
    fn credit(&self) -> u64 {
        u64::from(WINDOW).saturating_add(self.consumed)
    }

    // The error of a stream of the peer that is beyond the limit (RFC 9000 section 4.6).
    fn count_error(&self, id: StreamId) -> Option<u64> {
        refuse_if(
            id.index() >= self.limit(id.dir()),
            TransportError::STREAM_LIMIT_ERROR,
        )
    }

    // The error of a stream of this endpoint that it did not open.
    fn unopened_error(&self, id: StreamId) -> Option<u64> {
        refuse_if(
            id.index() >= self.own(id.dir()),
            TransportError::STREAM_STATE_ERROR,
        )
    }

    // The error of data or a reset for a stream (RFC 9000 sections 4.6, 19.4 and 19.8).
    fn receive_error(&self, id: StreamId) -> Option<u64> {
        match (is_own(id), id.dir()) {
            (true, Dir::Uni) => Some(TransportError::STREAM_STATE_ERROR),
            (true, Dir::Bi) => self.unopened_error(id),
            (false, _) => self.count_error(id),
        }
    }

    // The error of STOP_SENDING or MAX_STREAM_DATA for a stream (RFC 9000 sections 4.6, 19.5 and 19.10).
    fn send_error(&self, id: StreamId) -> Option<u64> {
        match (is_own(id), id.dir()) {
            (true, _) => self.unopened_error(id),
            (false, Dir::Uni) => Some(TransportError::STREAM_STATE_ERROR),
            (false, Dir::Bi) => self.count_error(id),
        }
    }

    // The error of STREAM_DATA_BLOCKED for a stream (RFC 9000 sections 4.6 and 19.13). Section 19.13 has none for a stream
    // of this endpoint that is not open, if the peer could send on it.
    fn blocked_error(&self, id: StreamId) -> Option<u64> {
        match (is_own(id), id.dir()) {
            (true, Dir::Uni) => Some(TransportError::STREAM_STATE_ERROR),
            (true, Dir::Bi) => None,
            (false, _) => self.count_error(id),
        }
    }

    // The error of bytes up to an offset, above the highest ones that were received (RFC 9000 section 4.1).
    fn flow_error(&self, flow: Flow, end: u64) -> Option<u64> {
        let grown = end.saturating_sub(flow.high);
        let received = self.received.saturating_add(grown);
        refuse_if(
            end > flow.limit || received > self.credit(),
            TransportError::FLOW_CONTROL_ERROR,
        )
    }

    // The error of data (RFC 9000 sections 4.1, 4.5 and 19.8).
    fn data_error(&self, part: &Part) -> Option<u64> {
        if let Some(code) = self.receive_error(part.id) {
            return Some(code);
        }
        let flow = self.flow(part.id)?;
        if flow.phase == Phase::Reset {
            return None;
        }
        let end = part.end();
        if end >= END_OF_OFFSETS {
            return Some(TransportError::FLOW_CONTROL_ERROR);
        }
        let is_beyond = match flow.size {
            Some(size) => end > size || (part.fin && end != size),
            None => part.fin && end < flow.high,
        };
        if is_beyond {
            return Some(TransportError::FINAL_SIZE_ERROR);
        }
        self.flow_error(flow, end)
    }

    // The error of a reset (RFC 9000 sections 4.5 and 19.4).
    fn reset_error(&self, id: StreamId, size: u64) -> Option<u64> {
        if let Some(code) = self.receive_error(id) {
            return Some(code);
        }
        let flow = self.flow(id)?;
        let is_other = match flow.size {
            Some(known) => known != size,
            None => size < flow.high,
        };
        if is_other {
            return Some(TransportError::FINAL_SIZE_ERROR);
        }
        self.flow_error(flow, size)
    }

    /// How the endpoint has to answer a frame.
    pub fn judge(&self, arrival: &Arrival) -> Verdict {
        verdict_of(match arrival {
            Arrival::Data(part) => self.data_error(part),
            Arrival::Reset { id, size } => self.reset_error(*id, *size),
            Arrival::StopSending(id) => self.send_error(*id),
            Arrival::MaxStreamData { id, .. } => self.send_error(*id),
            Arrival::StreamDataBlocked { id, .. } => self.blocked_error(*id),
            // RFC 9000 section 19.11.
            Arrival::MaxStreams { count, .. } => {
                refuse_if(*count > 1 << 60, TransportError::FRAME_ENCODING_ERROR)
            }
            // RFC 9221 section 3.
            Arrival::Datagram(count) => {
                refuse_if(*count > DATAGRAM, TransportError::PROTOCOL_VIOLATION)
            }
            Arrival::MaxData(_) | Arrival::DataBlocked(_) => None,
        })
    }

    /// Whether there may be too many segments of the stream of a frame, with its own.
    pub fn is_crowded(&self, arrival: &Arrival) -> bool {
        let Arrival::Data(part) = arrival else {
            return false;
        };
        match self.flow(part.id) {
            Some(flow) => flow.kept >= SEGMENTS,
            None => false,
        }
    }

    // Notes what is known of a stream.
    fn put(&mut self, flow: Flow) -> Result<(), OutOfMemory> {
        for entry in self.flows.iter_mut() {
            if entry.id == flow.id {
                *entry = flow;
                return Ok(());
            }
        }
        self.flows.push(flow)?;
        Ok(())
    }

    /// The receive side of a stream is freed. One of the peer's is over then, if it is unidirectional.
    pub fn free(&mut self, id: StreamId) -> Result<(), OutOfMemory> {
        self.flows.retain(|flow| flow.id != id);
        let index = id.index();
        if let Some(freed) = self.freed.get_mut(class_of(id)) {
            freed.insert(index..index.saturating_add(1))?;
        }
        match class_of(id) {
            0 => self.halves.push(id)?,
            1 => self.over.add_one(Dir::Uni),
            _ => {}
        }
        Ok(())
    }

    /// Counts the bidirectional streams of the peer that are over: of those without a receive side, the ones without a send
    /// side. No frame frees a send side.
    pub fn count_over(&mut self, streams: &StreamsState) {
        let before = self.halves.len();
        self.halves.retain(|id| streams.has_send_side(*id));
        for _ in self.halves.len()..before {
            self.over.add_one(Dir::Bi);
        }
    }

    /// Notes a frame that was accepted.
    pub fn note(&mut self, arrival: &Arrival) -> Result<(), OutOfMemory> {
        self.note_opened(arrival);
        match arrival {
            Arrival::Data(part) => self.note_data(part)?,
            Arrival::Reset { id, size } => self.note_reset(*id, *size)?,
            Arrival::MaxData(limit) => self.max_data = self.max_data.max(*limit),
            Arrival::MaxStreams { dir, count } => self.allowed.raise(*dir, *count),
            _ => {}
        }
        Ok(())
    }

    // The peer opens a stream with each frame for it but STREAM_DATA_BLOCKED, and all with lower ids (RFC 9000 section 2.1).
    fn note_opened(&mut self, arrival: &Arrival) {
        if let Arrival::StreamDataBlocked { .. } = arrival {
            return;
        }
        if let Some(id) = arrival.named()
            && !is_own(id)
        {
            self.remote.raise(id.dir(), id.index().saturating_add(1));
        }
    }

    fn note_data(&mut self, part: &Part) -> Result<(), OutOfMemory> {
        let Some(flow) = self.flow(part.id) else {
            return Ok(());
        };
        if flow.phase == Phase::Reset {
            return Ok(());
        }
        let end = part.end();
        let grown = end.saturating_sub(flow.high);
        self.received = self.received.saturating_add(grown);
        if flow.phase == Phase::Stopped {
            self.consumed = self.consumed.saturating_add(grown);
            if part.fin {
                return self.free(part.id);
            }
        }
        self.put(Flow {
            high: flow.high.max(end),
            size: if part.fin { Some(end) } else { flow.size },
            kept: flow.kept.saturating_add(1),
            ..flow
        })
    }

    fn note_reset(&mut self, id: StreamId, size: u64) -> Result<(), OutOfMemory> {
        let Some(flow) = self.flow(id) else {
            return Ok(());
        };
        if flow.phase == Phase::Reset {
            return Ok(());
        }
        let was_stopped = flow.phase == Phase::Stopped;
        let credited = if was_stopped { flow.high } else { flow.read };
        self.received = self.received.saturating_add(size.saturating_sub(flow.high));
        self.consumed = self.consumed.saturating_add(size.saturating_sub(credited));
        if was_stopped {
            return self.free(id);
        }
        self.put(Flow {
            phase: Phase::Reset,
            high: size,
            size: Some(size),
            ..flow
        })
    }
}

// What the record notes of calls of the application and of payloads that the endpoint sends.
impl Record {
    /// Bytes of a stream were read.
    pub fn note_read(&mut self, id: StreamId, count: u64) -> Result<(), OutOfMemory> {
        self.consumed = self.consumed.saturating_add(count);
        match self.flow(id) {
            Some(flow) if count > 0 => self.put(Flow {
                read: flow.read.saturating_add(count),
                ..flow
            }),
            _ => Ok(()),
        }
    }

    /// A stream was stopped.
    pub fn note_stop(&mut self, id: StreamId) -> Result<(), OutOfMemory> {
        let Some(flow) = self.flow(id) else {
            return Ok(());
        };
        if flow.phase == Phase::Open {
            let unread = flow.high.saturating_sub(flow.read);
            self.consumed = self.consumed.saturating_add(unread);
        }
        if flow.size.is_some() {
            return self.free(id);
        }
        self.put(Flow {
            phase: Phase::Stopped,
            ..flow
        })
    }

    /// The application asked for a stream. Whether the peer allows what it was given.
    pub fn note_open(&mut self, dir: Dir, opened: &Option<StreamId>) -> bool {
        let next = self.own.of(dir);
        let is_allowed = next < self.allowed.of(dir);
        match opened {
            None => !is_allowed,
            Some(id) => {
                self.own.add_one(dir);
                is_allowed && is_own(*id) && id.dir() == dir && id.index() == next
            }
        }
    }

    /// Bytes were written.
    pub fn note_write(&mut self, count: usize) {
        self.written = self.written.saturating_add(count as u64);
    }

    /// A frame was sent. Whether the limit that it advertises, if it does, is the one that is enforced.
    pub fn note_sent(&mut self, frame: &Frame) -> Result<bool, OutOfMemory> {
        match frame {
            Frame::MaxData(limit) => Ok(limit.into_inner() == self.credit()),
            Frame::MaxStreams { dir, count } => Ok(*count == self.limit(*dir)),
            Frame::MaxStreamData { id, offset } => self.note_limit(*id, *offset),
            _ => Ok(true),
        }
    }

    // The limit of a stream was advertised.
    fn note_limit(&mut self, id: StreamId, limit: u64) -> Result<bool, OutOfMemory> {
        let Some(flow) = self.flow(id) else {
            return Ok(false);
        };
        self.put(Flow { limit, ..flow })?;
        let permitted = flow.read.saturating_add(u64::from(STREAM_WINDOW));
        Ok(flow.phase == Phase::Open && limit == permitted)
    }

    /// Whether credit, bytes and streams are those of the record.
    pub fn is_in_step(&self, streams: &StreamsState) -> bool {
        let left = self.max_data.saturating_sub(self.written);
        streams.local_max_data() == self.credit()
            && streams.data_recvd() == self.received
            && streams.write_limit() <= left
            && self.has_counts(streams, Dir::Bi)
            && self.has_counts(streams, Dir::Uni)
    }

    fn has_counts(&self, streams: &StreamsState, dir: Dir) -> bool {
        streams.max_remote(dir) == self.limit(dir)
            && streams.next_remote(dir) == self.remote.of(dir)
    }
}
