//! Reports of whole payloads.

ghost use Rattle.std.specs.Prelude.{ℕ, List, ◌∷◌, ◌≡◌, ◌≤◌, drop, OnOk, IfErr};
ghost use Rattle.smallvec.specs.SmallVec.{small_vec_len};
ghost use Rattle.quic_wire.specs.declared.frame.StreamMeta.{StreamMeta};
ghost use Rattle.quic_retransmits.specs.Pending.{pending_view, thin_view};
ghost use Rattle.quic_streams.specs.Shown.{streams_view};
ghost use Rattle.quic_streams.specs.Sent.{sent_view, report_view, StopsAfter, StopsAfterResets};
ghost use Rattle.quic_history.specs.World.{Made};
ghost use Rattle.quic_history.specs.History.{Event, From};
ghost use Rattle.quic_streams.specs.Settling.{EachInOrder, AcksMeta, LosesMeta, AcksResetOf, RefusesAck, RefusesLoss, RefusesReset, resets_of};
ghost use Rattle.quic_streams.specs.Settling.{AcksWhole, LosesWhole, acks_told, losses_told};

use crate::state::StreamsState;
use quic_retransmits::{Retransmits, ThinRetransmits};
use quic_values::{StreamId, VarInt};
use quic_wire::frame::StreamMeta;
use quic_writing::StreamMetaVec;

/// What the writers of frames handed back for a payload. A report that the payload was acknowledged or lost uses it up.
#[derive(Drop)]
pub struct SentPayload {
    /// What each STREAM frame carries, in their order.
    pub streams: StreamMetaVec,
    /// What was noted of the other frames.
    pub control: ThinRetransmits,
}

impl StreamsState {
    /// A payload was acknowledged (RFC 9000 section 13.3): each STREAM frame of it, in their order, as
    /// [`StreamsState::received_ack_of`] reports it, then each RESET_STREAM frame as [`StreamsState::reset_acked`] does.
    ///
    /// Where memory runs out, what is unreported comes back, to be reported again: the frame whose report was refused,
    /// and all behind it. Nothing stays of the report that was refused.
    pub fn acked(&mut self, sent: SentPayload) -> Result<(), SentPayload>
        ensures acks { AcksWhole (streams_view self.old) (sent_view sent) (report_view result) (streams_view self.new) }
        ensures from { (m : Made) (h : List Event) → From m h (streams_view self.old)
            → From m (acks_told (sent_view sent) (report_view result) h) (streams_view self.new) }
    {
        self.take_acked(sent)
    }

    // The same, each way out.
    fn take_acked(&mut self, sent: SentPayload) -> Result<(), SentPayload>
        ensures { AcksWhole (streams_view self.old) (sent_view sent) (report_view result) (streams_view self.new) }
    {
        let SentPayload {
            mut streams,
            mut control,
        } = sent;
        if let Err(told) = self.ack_frames(streams.as_slice()) {
            let streams = without_first(streams, told);
            return Err(SentPayload { streams, control });
        }
        match self.ack_noted(&control) {
            Ok(()) => Ok(()),
            Err(count) => {
                control.drop_resets(count);
                streams.clear();
                Err(SentPayload { streams, control })
            }
        }
    }

    // The STREAM frames of a list were acknowledged. A refusal answers how many were reported before it.
    fn ack_frames(&mut self, frames: &[StreamMeta]) -> Result<(), usize>
        ensures ok { OnOk result (EachInOrder AcksMeta (streams_view self.old) frames.now (streams_view self.new)) }
        ensures err { IfErr result (StopsAfter StreamMeta AcksMeta RefusesAck (streams_view self.old) frames.now (streams_view self.new)) }
    {
        for index in 0..frames.len() {
            self.ack_frame(&frames[index], index)?;
        }
        Ok(())
    }

    // The same of one that so many stand before.
    fn ack_frame(&mut self, frame: &StreamMeta, index: usize) -> Result<(), usize>
        ensures ok { OnOk result (AcksMeta (streams_view self.old) frame.now (streams_view self.new)) }
        ensures err { IfErr result (λ before. (before ≡ index) × RefusesAck (streams_view self.old) frame.now × (streams_view self.new ≡ streams_view self.old)) }
    {
        match self.take_ack(same_frame(frame)) {
            Ok(()) => Ok(()),
            Err(_) => Err(index),
        }
    }

    // The RESET_STREAM frames that were noted were acknowledged. A refusal answers how many were reported before it.
    fn ack_noted(&mut self, control: &ThinRetransmits) -> Result<(), usize>
        ensures ok { OnOk result (EachInOrder AcksResetOf (streams_view self.old) (resets_of (thin_view control.now)) (streams_view self.new)) }
        ensures err { IfErr result (StopsAfterResets (streams_view self.old) (thin_view control.now) (streams_view self.new)) }
    {
        match control.get() {
            None => Ok(()),
            Some(noted) => self.ack_resets(noted.reset_stream.as_slice()),
        }
    }

    // The same of a list.
    fn ack_resets(&mut self, resets: &[(StreamId, VarInt)]) -> Result<(), usize>
        ensures ok { OnOk result (EachInOrder AcksResetOf (streams_view self.old) resets.now (streams_view self.new)) }
        ensures err { IfErr result (StopsAfter (ℕ × ℕ) AcksResetOf RefusesReset (streams_view self.old) resets.now (streams_view self.new)) }
    {
        for index in 0..resets.len() {
            self.ack_reset(resets[index], index)?;
        }
        Ok(())
    }

    // The same of one that so many stand before.
    fn ack_reset(&mut self, reset: (StreamId, VarInt), index: usize) -> Result<(), usize>
        ensures ok { OnOk result (AcksResetOf (streams_view self.old) reset (streams_view self.new)) }
        ensures err { IfErr result (λ before. (before ≡ index) × RefusesReset (streams_view self.old) reset × (streams_view self.new ≡ streams_view self.old)) }
    {
        match self.take_reset_ack(reset.0) {
            Ok(()) => Ok(()),
            Err(_) => Err(index),
        }
    }

    /// A payload was lost (RFC 9000 section 13.3): each STREAM frame of it, in their order, as
    /// [`StreamsState::retransmit`] reports it; then what was noted of the other frames is joined to what is pending, to be
    /// sent again.
    ///
    /// Where memory runs out, what is unreported comes back, to be reported again: the frame whose report was refused,
    /// all behind it, and what was noted of the others. Nothing stays of the report that was refused.
    pub fn lost(&mut self, sent: SentPayload, pending: &mut Retransmits) -> Result<(), SentPayload>
        ensures loses { LosesWhole (streams_view self.old) (pending_view pending.old) (sent_view sent) (report_view result) (streams_view self.new) (pending_view pending.new) }
        ensures from { (m : Made) (h : List Event) → From m h (streams_view self.old)
            → From m (losses_told (sent_view sent) (report_view result) h) (streams_view self.new) }
    {
        self.take_lost(sent, pending)
    }

    // The same, each way out.
    fn take_lost(&mut self, sent: SentPayload, pending: &mut Retransmits) -> Result<(), SentPayload>
        ensures { LosesWhole (streams_view self.old) (pending_view pending.old) (sent_view sent) (report_view result) (streams_view self.new) (pending_view pending.new) }
    {
        let SentPayload {
            mut streams,
            control,
        } = sent;
        if let Err(count) = self.lose_frames(streams.as_slice()) {
            let streams = without_first(streams, count);
            return Err(SentPayload { streams, control });
        }
        match pending.merge_thin(control) {
            Ok(()) => Ok(()),
            Err(control) => {
                streams.clear();
                Err(SentPayload { streams, control })
            }
        }
    }

    // The STREAM frames of a list were lost. A refusal answers how many were reported before it.
    fn lose_frames(&mut self, frames: &[StreamMeta]) -> Result<(), usize>
        ensures ok { OnOk result (EachInOrder LosesMeta (streams_view self.old) frames.now (streams_view self.new)) }
        ensures err { IfErr result (StopsAfter StreamMeta LosesMeta RefusesLoss (streams_view self.old) frames.now (streams_view self.new)) }
    {
        for index in 0..frames.len() {
            self.lose_frame(&frames[index], index)?;
        }
        Ok(())
    }

    // The same of one that so many stand before.
    fn lose_frame(&mut self, frame: &StreamMeta, index: usize) -> Result<(), usize>
        ensures ok { OnOk result (LosesMeta (streams_view self.old) frame.now (streams_view self.new)) }
        ensures err { IfErr result (λ before. (before ≡ index) × RefusesLoss (streams_view self.old) frame.now × (streams_view self.new ≡ streams_view self.old)) }
    {
        match self.take_loss(same_frame(frame)) {
            Ok(()) => Ok(()),
            Err(_) => Err(index),
        }
    }
}

// A list without its first frames, so many. Takes no memory.
fn without_first(streams: StreamMetaVec, count: usize) -> StreamMetaVec
    requires { count ≤ small_vec_len streams }
    ensures { result.items ≡ drop count streams.items }
{
    let mut streams = streams;
    streams.as_mut_slice().rotate_left(count);
    streams.truncate(streams.len() - count);
    streams
}

// The same frame again.
#[inline]
fn same_frame(frame: &StreamMeta) -> StreamMeta
    ensures { result ≡ frame.now }
{
    StreamMeta {
        id: frame.id,
        offsets: frame.offsets.start..frame.offsets.end,
        fin: frame.fin,
    }
}
