//! The frames beside STREAM that an end writes.

ghost use Rattle.std.specs.Prelude.{◌≡◌, ◌<◌, ◌≤◌, ◌+◌, ◌^◌, ℕ, List, true, false, Ok, IfSome, IfOk, OnOk, OnErr, length};
ghost use Rattle.quic_retransmits.specs.Pending.{pending_view};
ghost use Rattle.quic_retransmits.specs.Settling.{entry_count};
ghost use Rattle.quic_limits.specs.Remote.{streams_announced};
ghost use Rattle.quic_history.specs.World.{remote_of, with_remote};
ghost use Rattle.quic_history.specs.Control.{kind_bound, HasNoneOf, IsOfKind, reset_frame, window_frame, data_blocked_frame, stream_blocked_frame};
ghost use Rattle.quic_streams.specs.Shown.{streams_view};
ghost use Rattle.quic_streams.specs.Payload.{sheet_of, Tries, SettlesSome, IsKindDone, WritesKinds, WritesEntries, LeavesKind, control_order, place_of};

use crate::payload::ControlPayload;
use crate::state::StreamsState;
use quic_history::control::ControlKind;
use quic_pieces::stats::FrameStats;
use quic_retransmits::{Retransmits, ThinRetransmits};
use quic_values::{Dir, OutOfMemory, StreamId, VarInt};
use quic_wire::Frame;
use quic_wire::frame::ResetStream;
use std::mem;

#[tactic(auto, unfolding(crate::specs::Shown::streams_view))]
impl StreamsState {
    /// Appends the frames of `pending` to a payload that is to have at most `max_size` bytes (RFC 9000 section 19):
    /// RESET_STREAM, STOP_SENDING, MAX_DATA, MAX_STREAM_DATA, MAX_STREAMS of both directions, DATA_BLOCKED and
    /// STREAM_DATA_BLOCKED, in this order, each kind while its longest frame ends below `max_size`. What is written is
    /// noted in `sent` and counted in `stats`. Limits are those that are enforced now. What is of no use any more is
    /// dropped: RESET_STREAM of a freed half, MAX_STREAM_DATA where no more data can come or are wanted, and the BLOCKED
    /// frames of a limit that is not held any more.
    ///
    /// If refused, the frames that were written before stand in the payload and are noted, and the next one was not begun.
    /// It is refused only where something is left whose longest frame fits.
    pub fn write_control_frames(
        &mut self,
        buf: &mut Vec<u8>,
        pending: &mut Retransmits,
        sent: &mut ThinRetransmits,
        stats: &mut FrameStats,
        max_size: usize,
    ) -> Result<(), OutOfMemory>
        ensures writes { WritesKinds max_size control_order (place_of self.old pending.old buf.old sent.old stats.old) result (place_of self.new pending.new buf.new sent.new stats.new) }
        ensures full { OnOk result ((kind : ControlKind) → IsKindDone kind max_size (place_of self.new pending.new buf.new sent.new stats.new)) }
        ensures refused { OnErr result (LeavesKind max_size (place_of self.new pending.new buf.new sent.new stats.new)) }
        ensures within { length buf.old.items ≤ max_size → length buf.new.items ≤ max_size }
        ensures from { WritesEntries (place_of self.old pending.old buf.old sent.old stats.old).sheet (place_of self.new pending.new buf.new sent.new stats.new).sheet (streams_view self.old) (streams_view self.new) }
    {
        self.write_control(buf, pending, sent, stats, max_size)
    }

    // The same, by its exact step.
    fn write_control(
        &mut self,
        buf: &mut Vec<u8>,
        pending: &mut Retransmits,
        sent: &mut ThinRetransmits,
        stats: &mut FrameStats,
        max_size: usize,
    ) -> Result<(), OutOfMemory>
        ensures writes { WritesKinds max_size control_order (place_of self.old pending.old buf.old sent.old stats.old) result (place_of self.new pending.new buf.new sent.new stats.new) }
        ensures refused { OnErr result (LeavesKind max_size (place_of self.new pending.new buf.new sent.new stats.new)) }
    {
        if !has_control(pending) {
            return Ok(());
        }
        let alloc = self.receive.alloc;
        let mut payload = ControlPayload {
            bytes: mem::replace(buf, Vec::new(alloc)),
            sent: mem::replace(sent, ThinRetransmits::new(alloc)),
        };
        let result = self.write_kinds(pending, &mut payload, stats, max_size);
        *buf = payload.bytes;
        *sent = payload.sent;
        result
    }

    // The RESET_STREAM of a stream whose half is held.
    #[inline]
    fn reset_frame(&self, id: StreamId, error_code: VarInt) -> Option<Frame>
        ensures frame { result ≡ reset_frame id error_code ((streams_view self.now).out.halves id) }
        ensures kind { IfSome result (IsOfKind ControlKind.ResetStream) }
    {
        match self.outgoing.final_size(id) {
            None => None,
            Some(final_offset) => Some(Frame::ResetStream(ResetStream {
                id,
                error_code,
                final_offset,
            })),
        }
    }

    // The MAX_STREAM_DATA of a stream on which more data may come and are wanted.
    #[inline]
    fn window_frame(&self, id: StreamId) -> Option<Frame>
        ensures frame { result ≡ window_frame (streams_view self.now).window id ((streams_view self.now).receive id) }
        ensures kind { IfSome result (IsOfKind ControlKind.MaxStreamData) }
    {
        match self.receive.announced_end(id) {
            None => None,
            Some(offset) => Some(Frame::MaxStreamData { id, offset }),
        }
    }

    // The DATA_BLOCKED for the limit that is held, if it was queued for that.
    #[inline]
    fn data_blocked_frame(&self) -> Option<Frame>
        ensures frame { result ≡ data_blocked_frame (streams_view self.now) }
        ensures kind { IfSome result (IsOfKind ControlKind.DataBlocked) }
    {
        if !self.outgoing.can_send_data_blocked() {
            return None;
        }
        let offset = self.outgoing.max_data().into_inner();
        Some(Frame::DataBlocked { offset })
    }

    // The STREAM_DATA_BLOCKED for the limit that a stream holds, if it was queued for that.
    #[inline]
    fn stream_blocked_frame(&self, id: StreamId) -> Option<Frame>
        ensures frame { result ≡ stream_blocked_frame id ((streams_view self.now).out.halves id) }
        ensures kind { IfSome result (IsOfKind ControlKind.StreamDataBlocked) }
    {
        match self.outgoing.stream_data_blocked_limit(id) {
            None => None,
            Some(limit) => Some(Frame::StreamDataBlocked {
                id,
                offset: limit.into_inner(),
            }),
        }
    }

    // That count was announced.
    #[inline]
    fn announce_streams(&mut self, dir: Dir)
        ensures { streams_view self.new ≡ with_remote (streams_view self.old) dir (streams_announced (remote_of (streams_view self.old) dir)) }
    {
        match dir {
            Dir::Bi => self.bi.announce(),
            Dir::Uni => self.uni.announce(),
        }
    }

    // The RESET_STREAM that was queued last is written, or dropped where its half was freed.
    #[inline]
    fn settle_reset(
        &mut self,
        pending: &mut Retransmits,
        payload: &mut ControlPayload,
        stats: &mut FrameStats,
    ) -> Result<bool, OutOfMemory>
        ensures tries { Tries ControlKind.ResetStream (record { end = streams_view self.old; pending = pending_view pending.old; sheet = sheet_of payload.old stats.old }) result (record { end = streams_view self.new; pending = pending_view pending.new; sheet = sheet_of payload.new stats.new }) }
        ensures fewer { IfOk result (λ some. some ≡ true → entry_count pending.new < entry_count pending.old) }
        ensures wanted { OnErr result (HasNoneOf ControlKind.ResetStream (pending_view pending.old) → ⊥) }
    {
        let Some((id, error_code)) = pending.next_reset() else {
            return Ok(false);
        };
        payload.append_if(
            &ControlKind::ResetStream,
            self.reset_frame(id, error_code),
            stats,
        )?;
        pending.settle_reset();
        Ok(true)
    }

    // The STOP_SENDING that was queued last is written.
    #[inline]
    fn settle_stop(
        &mut self,
        pending: &mut Retransmits,
        payload: &mut ControlPayload,
        stats: &mut FrameStats,
    ) -> Result<bool, OutOfMemory>
        ensures tries { Tries ControlKind.StopSending (record { end = streams_view self.old; pending = pending_view pending.old; sheet = sheet_of payload.old stats.old }) result (record { end = streams_view self.new; pending = pending_view pending.new; sheet = sheet_of payload.new stats.new }) }
        ensures fewer { IfOk result (λ some. some ≡ true → entry_count pending.new < entry_count pending.old) }
        ensures wanted { OnErr result (HasNoneOf ControlKind.StopSending (pending_view pending.old) → ⊥) }
    {
        let Some(stop) = pending.next_stop() else {
            return Ok(false);
        };
        payload.append_if(
            &ControlKind::StopSending,
            Some(Frame::StopSending(stop)),
            stats,
        )?;
        pending.settle_stop();
        Ok(true)
    }

    // MAX_DATA is written with the limit that is enforced.
    #[inline]
    fn settle_max_data(
        &mut self,
        pending: &mut Retransmits,
        payload: &mut ControlPayload,
        stats: &mut FrameStats,
    ) -> Result<bool, OutOfMemory>
        ensures tries { Tries ControlKind.MaxData (record { end = streams_view self.old; pending = pending_view pending.old; sheet = sheet_of payload.old stats.old }) result (record { end = streams_view self.new; pending = pending_view pending.new; sheet = sheet_of payload.new stats.new }) }
        ensures fewer { IfOk result (λ some. some ≡ true → entry_count pending.new < entry_count pending.old) }
        ensures wanted { OnErr result (HasNoneOf ControlKind.MaxData (pending_view pending.old) → ⊥) }
    {
        if !pending.max_data {
            return Ok(false);
        }
        let limit = self.credit.max_data();
        payload.append_if(&ControlKind::MaxData, Some(Frame::MaxData(limit)), stats)?;
        self.credit.announce();
        pending.settle_max_data();
        Ok(true)
    }

    // The MAX_STREAM_DATA of a stream is written, or dropped where it is of no use.
    #[inline]
    fn settle_window(
        &mut self,
        pending: &mut Retransmits,
        payload: &mut ControlPayload,
        stats: &mut FrameStats,
    ) -> Result<bool, OutOfMemory>
        ensures tries { Tries ControlKind.MaxStreamData (record { end = streams_view self.old; pending = pending_view pending.old; sheet = sheet_of payload.old stats.old }) result (record { end = streams_view self.new; pending = pending_view pending.new; sheet = sheet_of payload.new stats.new }) }
        ensures fewer { IfOk result (λ some. some ≡ true → entry_count pending.new < entry_count pending.old) }
        ensures wanted { OnErr result (HasNoneOf ControlKind.MaxStreamData (pending_view pending.old) → ⊥) }
    {
        let Some(id) = pending.next_window() else {
            return Ok(false);
        };
        payload.append_if(&ControlKind::MaxStreamData, self.window_frame(id), stats)?;
        self.receive.announce(id);
        pending.settle_window(id);
        Ok(true)
    }

    // MAX_STREAMS of a direction is written with the count that is enforced.
    #[inline]
    fn settle_max_streams(
        &mut self,
        pending: &mut Retransmits,
        payload: &mut ControlPayload,
        stats: &mut FrameStats,
        dir: Dir,
    ) -> Result<bool, OutOfMemory>
        ensures tries { Tries (ControlKind.MaxStreams dir) (record { end = streams_view self.old; pending = pending_view pending.old; sheet = sheet_of payload.old stats.old }) result (record { end = streams_view self.new; pending = pending_view pending.new; sheet = sheet_of payload.new stats.new }) }
        ensures fewer { IfOk result (λ some. some ≡ true → entry_count pending.new < entry_count pending.old) }
        ensures wanted { OnErr result (HasNoneOf (ControlKind.MaxStreams dir) (pending_view pending.old) → ⊥) }
    {
        if !pending.has_max_streams(dir) {
            return Ok(false);
        }
        let count = self.max_remote(dir);
        let frame = Frame::MaxStreams { dir, count };
        payload.append_if(&ControlKind::MaxStreams(dir), Some(frame), stats)?;
        self.announce_streams(dir);
        pending.settle_max_streams(dir);
        Ok(true)
    }

    // DATA_BLOCKED is written, or dropped where the limit is not held any more.
    #[inline]
    fn settle_data_blocked(
        &mut self,
        pending: &mut Retransmits,
        payload: &mut ControlPayload,
        stats: &mut FrameStats,
    ) -> Result<bool, OutOfMemory>
        ensures tries { Tries ControlKind.DataBlocked (record { end = streams_view self.old; pending = pending_view pending.old; sheet = sheet_of payload.old stats.old }) result (record { end = streams_view self.new; pending = pending_view pending.new; sheet = sheet_of payload.new stats.new }) }
        ensures fewer { IfOk result (λ some. some ≡ true → entry_count pending.new < entry_count pending.old) }
        ensures wanted { OnErr result (HasNoneOf ControlKind.DataBlocked (pending_view pending.old) → ⊥) }
    {
        if !pending.data_blocked {
            return Ok(false);
        }
        payload.append_if(&ControlKind::DataBlocked, self.data_blocked_frame(), stats)?;
        pending.settle_data_blocked();
        Ok(true)
    }

    // The STREAM_DATA_BLOCKED of a stream is written, or dropped where its limit is not held any more.
    #[inline]
    fn settle_stream_blocked(
        &mut self,
        pending: &mut Retransmits,
        payload: &mut ControlPayload,
        stats: &mut FrameStats,
    ) -> Result<bool, OutOfMemory>
        ensures tries { Tries ControlKind.StreamDataBlocked (record { end = streams_view self.old; pending = pending_view pending.old; sheet = sheet_of payload.old stats.old }) result (record { end = streams_view self.new; pending = pending_view pending.new; sheet = sheet_of payload.new stats.new }) }
        ensures fewer { IfOk result (λ some. some ≡ true → entry_count pending.new < entry_count pending.old) }
        ensures wanted { OnErr result (HasNoneOf ControlKind.StreamDataBlocked (pending_view pending.old) → ⊥) }
    {
        let Some(id) = pending.next_stream_blocked() else {
            return Ok(false);
        };
        payload.append_if(
            &ControlKind::StreamDataBlocked,
            self.stream_blocked_frame(id),
            stats,
        )?;
        pending.settle_stream_blocked(id);
        Ok(true)
    }

    // An entry of a kind leaves what is pending, if there is one.
    #[inline(always)]
    fn settle(
        &mut self,
        kind: &ControlKind,
        pending: &mut Retransmits,
        payload: &mut ControlPayload,
        stats: &mut FrameStats,
    ) -> Result<bool, OutOfMemory>
        ensures tries { Tries kind.now (record { end = streams_view self.old; pending = pending_view pending.old; sheet = sheet_of payload.old stats.old }) result (record { end = streams_view self.new; pending = pending_view pending.new; sheet = sheet_of payload.new stats.new }) }
        ensures fewer { IfOk result (λ some. some ≡ true → entry_count pending.new < entry_count pending.old) }
        ensures wanted { OnErr result (HasNoneOf kind.now (pending_view pending.old) → ⊥) }
    {
        match kind {
            ControlKind::ResetStream => self.settle_reset(pending, payload, stats),
            ControlKind::StopSending => self.settle_stop(pending, payload, stats),
            ControlKind::MaxData => self.settle_max_data(pending, payload, stats),
            ControlKind::MaxStreamData => self.settle_window(pending, payload, stats),
            ControlKind::MaxStreams(dir) => self.settle_max_streams(pending, payload, stats, *dir),
            ControlKind::DataBlocked => self.settle_data_blocked(pending, payload, stats),
            ControlKind::StreamDataBlocked => self.settle_stream_blocked(pending, payload, stats),
        }
    }

    // Entries of a kind leave what is pending while the longest frame of the kind fits below the maximum.
    #[inline(always)]
    fn write_kind(
        &mut self,
        kind: &ControlKind,
        pending: &mut Retransmits,
        payload: &mut ControlPayload,
        stats: &mut FrameStats,
        max_size: usize,
    ) -> Result<(), OutOfMemory>
        ensures turns { SettlesSome kind.now max_size (record { end = streams_view self.old; pending = pending_view pending.old; sheet = sheet_of payload.old stats.old }) (record { end = streams_view self.new; pending = pending_view pending.new; sheet = sheet_of payload.new stats.new }) }
        ensures done { OnOk result (IsKindDone kind.now max_size (record { end = streams_view self.new; pending = pending_view pending.new; sheet = sheet_of payload.new stats.new })) }
        ensures refused { OnErr result (IsKindDone kind.now max_size (record { end = streams_view self.new; pending = pending_view pending.new; sheet = sheet_of payload.new stats.new }) → ⊥) }
    {
        while payload.bytes.len() + kind.size_bound() < max_size {
            if !self.settle(kind, pending, payload, stats)? {
                break;
            }
        }
        Ok(())
    }

    // All kinds, one after another.
    fn write_kinds(
        &mut self,
        pending: &mut Retransmits,
        payload: &mut ControlPayload,
        stats: &mut FrameStats,
        max_size: usize,
    ) -> Result<(), OutOfMemory>
        ensures writes { WritesKinds max_size control_order (record { end = streams_view self.old; pending = pending_view pending.old; sheet = sheet_of payload.old stats.old }) result (record { end = streams_view self.new; pending = pending_view pending.new; sheet = sheet_of payload.new stats.new }) }
        ensures refused { OnErr result (LeavesKind max_size (record { end = streams_view self.new; pending = pending_view pending.new; sheet = sheet_of payload.new stats.new })) }
    {
        self.write_kind(&ControlKind::ResetStream, pending, payload, stats, max_size)?;
        self.write_kind(&ControlKind::StopSending, pending, payload, stats, max_size)?;
        self.write_kind(&ControlKind::MaxData, pending, payload, stats, max_size)?;
        self.write_kind(
            &ControlKind::MaxStreamData,
            pending,
            payload,
            stats,
            max_size,
        )?;
        self.write_kind(
            &ControlKind::MaxStreams(Dir::Bi),
            pending,
            payload,
            stats,
            max_size,
        )?;
        self.write_kind(
            &ControlKind::MaxStreams(Dir::Uni),
            pending,
            payload,
            stats,
            max_size,
        )?;
        self.write_kind(&ControlKind::DataBlocked, pending, payload, stats, max_size)?;
        self.write_kind(
            &ControlKind::StreamDataBlocked,
            pending,
            payload,
            stats,
            max_size,
        )?;
        Ok(())
    }
}

// Whether something is pending of a kind that is written here.
fn has_control(pending: &Retransmits) -> bool
    ensures { result ≡ false → (kind : ControlKind) → HasNoneOf kind (pending_view pending.now) }
{
    let [bi, uni] = pending.max_stream_id;
    if pending.max_data || pending.data_blocked || bi || uni {
        return true;
    }
    if !pending.reset_stream.is_empty() || !pending.stop_sending.is_empty() {
        return true;
    }
    pending.next_window().is_some() || pending.next_stream_blocked().is_some()
}
