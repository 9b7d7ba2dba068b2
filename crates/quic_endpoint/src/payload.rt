//! Payloads that an end writes.

ghost use Rattle.std.specs.Prelude.{List, [], ◌≡◌, ◌⊎◌, ◌<◌, ◌≤◌, ◌+◌, length, OnOk, OnErr};
ghost use Rattle.quic_history.specs.World.{Made};
ghost use Rattle.quic_history.specs.History.{Event, From};
ghost use Rattle.quic_history.specs.declared.control.ControlKind.{ControlKind};
ghost use Rattle.quic_queue.specs.SendOrder.{line};
ghost use Rattle.quic_retransmits.specs.Pending.{nothing};
ghost use Rattle.quic_retransmits.specs.Settling.{noted_in};
ghost use Rattle.quic_endpoint.specs.Shown.{endpoint_view};
ghost use Rattle.quic_streams.specs.Payload.{WritesKinds, WritesEntries, IsKindDone, LeavesKind, control_order};
ghost use Rattle.quic_streams.specs.Transmitting.{WritesStreamFrames, GoesOnWithTurns, end_writer, told_bytes};
ghost use Rattle.quic_writing.specs.Appended.{AppendsFrames};
ghost use Rattle.quic_endpoint.specs.Emitting.{payload_view, place_at, EmitsAt};

use crate::endpoint::Endpoint;
use quic_streams::stats::FrameStats;
use quic_streams::{SentPayload, StreamMetaVec, ThinRetransmits};
use quic_values::OutOfMemory;
use std::alloc::Global;

/// A payload that an end wrote, and what is to be reported of it.
#[derive(Drop)]
pub struct Payload {
    /// The frames, spelled one after another.
    pub bytes: Vec<u8>,
    /// What a report of the payload uses up: [`Endpoint::acknowledge`], or [`Endpoint::lose`].
    pub sent: SentPayload,
}

impl Payload {
    // One without frames.
    fn new(alloc: Global) -> Self
        ensures bytes { result.bytes.items ≡ [] }
        ensures streams { result.sent.streams.items ≡ [] }
        ensures control { noted_in result.sent.control ≡ nothing }
    {
        Payload::reusing(alloc, Vec::new(alloc))
    }

    /// One without frames, which are written into `memory`. The bytes there are dropped.
    pub fn reusing(alloc: Global, memory: Vec<u8>) -> Self
        ensures bytes { result.bytes.items ≡ [] }
        ensures streams { result.sent.streams.items ≡ [] }
        ensures control { noted_in result.sent.control ≡ nothing }
    {
        let mut bytes = memory;
        bytes.clear();
        Payload {
            bytes,
            sent: SentPayload {
                streams: StreamMetaVec::new(alloc),
                control: ThinRetransmits::new(alloc),
            },
        }
    }
}

#[tactic(auto, unfolding(crate::specs::Shown::endpoint_view))]
impl Endpoint {
    /// Writes what is to be sent into a payload of at most `max_size` bytes: control frames first, as
    /// [`Endpoint::write_control`], then STREAM frames, as [`Endpoint::write_streams`]. Out of memory, the frames that were
    /// written before stand in the payload.
    pub fn emit(&mut self, max_size: usize, fair: bool) -> (Payload, Result<(), OutOfMemory>)
        ensures emits { EmitsAt max_size fair (endpoint_view self.old) (payload_view result.0) result.1 (endpoint_view self.new) }
        ensures within { (m : Made) (h : List Event) → From m h (endpoint_view self.old).streams → length result.0.bytes.items ≤ max_size }
    {
        let mut payload = Payload::new(self.alloc);
        let mut counters = FrameStats::new();
        let written = self.write_control(&mut payload, &mut counters, max_size);
        if let Err(error) = written {
            return (payload, Err(error));
        }
        let answer = self.write_streams(&mut payload, max_size, fair);
        (payload, answer)
    }

    /// Appends the pending control frames to a payload of at most `max_size` bytes, and counts them, as
    /// [`quic_streams::state::StreamsState::write_control_frames`].
    pub fn write_control(
        &mut self,
        payload: &mut Payload,
        counters: &mut FrameStats,
        max_size: usize,
    ) -> Result<(), OutOfMemory>
        ensures writes { WritesKinds max_size control_order (place_at (endpoint_view self.old) payload.old.bytes.items (noted_in payload.old.sent.control) counters.old) result (place_at (endpoint_view self.new) payload.new.bytes.items (noted_in payload.new.sent.control) counters.new) }
        ensures full { OnOk result ((kind : ControlKind) → IsKindDone kind max_size (place_at (endpoint_view self.new) payload.new.bytes.items (noted_in payload.new.sent.control) counters.new)) }
        ensures refused { OnErr result (LeavesKind max_size (place_at (endpoint_view self.new) payload.new.bytes.items (noted_in payload.new.sent.control) counters.new)) }
        ensures within { length payload.old.bytes.items ≤ max_size → length payload.new.bytes.items ≤ max_size }
        ensures from { WritesEntries (place_at (endpoint_view self.old) payload.old.bytes.items (noted_in payload.old.sent.control) counters.old).sheet (place_at (endpoint_view self.new) payload.new.bytes.items (noted_in payload.new.sent.control) counters.new).sheet (endpoint_view self.old).streams (endpoint_view self.new).streams }
        ensures streams { payload.new.sent.streams.items ≡ payload.old.sent.streams.items }
    {
        self.streams.write_control_frames(
            &mut payload.bytes,
            &mut self.pending,
            &mut payload.sent.control,
            counters,
            max_size,
        )
    }

    /// Appends STREAM frames to a payload of at most `max_size` bytes, as
    /// [`quic_streams::state::StreamsState::write_stream_frames`].
    pub fn write_streams(
        &mut self,
        payload: &mut Payload,
        max_size: usize,
        fair: bool,
    ) -> Result<(), OutOfMemory>
        ensures writes { WritesStreamFrames max_size fair (endpoint_view self.old).streams payload.old.bytes.items payload.old.sent.streams.items (endpoint_view self.new).streams payload.new.bytes.items payload.new.sent.streams.items }
        ensures full { OnOk result ((line (endpoint_view self.new).streams.queue ≡ []) ⊎ (max_size ≤ length payload.new.bytes.items + 25)) }
        ensures refused { OnErr result ((0 < length (line (endpoint_view self.new).streams.queue)) × (length payload.new.bytes.items + 25 < max_size)) }
        ensures carries { (m : Made) (h : List Event) → From m h (endpoint_view self.old).streams
            → AppendsFrames (told_bytes m h) max_size (end_writer (endpoint_view self.old).streams payload.old.bytes.items payload.old.sent.streams.items) (end_writer (endpoint_view self.new).streams payload.new.bytes.items payload.new.sent.streams.items) }
        ensures from { GoesOnWithTurns max_size fair payload.old.sent.streams.items payload.new.sent.streams.items (endpoint_view self.old).streams (endpoint_view self.new).streams }
        ensures pending { (endpoint_view self.new).pending ≡ (endpoint_view self.old).pending }
        ensures control { noted_in payload.new.sent.control ≡ noted_in payload.old.sent.control }
    {
        let (bytes, streams) = (&mut payload.bytes, &mut payload.sent.streams);
        self.streams
            .write_stream_frames(bytes, streams, max_size, fair)
    }
}
