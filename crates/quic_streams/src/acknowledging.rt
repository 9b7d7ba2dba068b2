//! Acknowledgements and losses of what this end sent.

ghost use Rattle.std.specs.Prelude.{ℕ, List, ◌∷◌, ◌≡◌, ◌≤◌, ◌⊎◌, OnOk, OnErr, IsOk, is_some, true, false};
ghost use Rattle.quic_outgoing.specs.Acknowledging.{MayWantMemory, LossMayWantMemory};
ghost use Rattle.quic_streams.specs.Writing.{MayWantPlace};
ghost use Rattle.quic_streams.specs.Room.{rooms, HasEventRoom};
ghost use Rattle.quic_streams.specs.Shown.{streams_view};
ghost use Rattle.quic_history.specs.World.{Made, is_own};
ghost use Rattle.quic_history.specs.Acknowledged.{AcksOwn, LosesOwn, AcksReset, with_send_freed, without_sender, without_send_half};
ghost use Rattle.quic_history.specs.SendEvents.{AckedOwn, LostOwn, ResetAckedOwn};
ghost use Rattle.quic_history.specs.History.{Event, Sending, From};

use crate::state::StreamsState;
use quic_values::{Dir, OutOfMemory, StreamId};
use quic_wire::{StreamEvent, frame};

#[tactic(auto, unfolding(crate::specs::Shown::streams_view, crate::specs::Room::rooms, crate::specs::Room::HasEventRoom))]
impl StreamsState {
    /// A STREAM frame was acknowledged (RFC 9000 section 13.3): its data are not sent again, and count no more for the
    /// send window. Where by this the end and every byte of a stream are acknowledged, its send half is freed, the
    /// application is told that it is finished, and one of the peer that is wholly freed by it makes room for another.
    ///
    /// The report of a stream that is freed or was reset, or of data that were not sent, changes nothing. If refused, all
    /// is as it was; of a stream that is freed none is. Where there is room for an event and for another stream, only data
    /// behind a gap need memory, and a stream on which nothing was done.
    pub fn received_ack_of(&mut self, frame: frame::StreamMeta) -> Result<(), OutOfMemory>
        ensures acks { AcksOwn (streams_view self.old) frame.id frame.offsets frame.fin result (streams_view self.new) }
        ensures memory { OnErr result (1 ≤ rooms self.old → HasEventRoom self.old → MayWantMemory frame.offsets ((streams_view self.old).out.halves frame.id)) }
        ensures from { (m : Made) (h : List Event) → From m h (streams_view self.old)
            → From m (Sending (AckedOwn frame.id frame.offsets frame.fin result) ∷ h) (streams_view self.new) }
    {
        self.take_ack(frame)
    }

    // The same, each way out.
    pub(crate) fn take_ack(&mut self, frame: frame::StreamMeta) -> Result<(), OutOfMemory>
        ensures acks { AcksOwn (streams_view self.old) frame.id frame.offsets frame.fin result (streams_view self.new) }
        ensures memory { OnErr result (1 ≤ rooms self.old → HasEventRoom self.old → MayWantMemory frame.offsets ((streams_view self.old).out.halves frame.id)) }
    {
        let id = frame.id;
        if !self.is_permitted(id) {
            return Ok(());
        }
        if let Err(refused) = self.make_ack_room(id) {
            return self.refuse_held(id, refused);
        }
        if self.outgoing.ack(id, frame.offsets, frame.fin)? {
            self.free_send(id);
            self.events.push_back_reserved(StreamEvent::Finished { id });
        }
        Ok(())
    }

    // Makes the room that an acknowledgement may need: for an event, and for a stream in the place of one of the peer.
    #[inline]
    fn make_ack_room(&mut self, id: StreamId) -> Result<(), OutOfMemory>
        ensures same { streams_view self.new ≡ streams_view self.old }
        ensures rooms { OnOk result (is_own (streams_view self.old) id ≡ false → 1 ≤ rooms self.new) }
        ensures events { OnOk result (HasEventRoom self.new) }
        ensures unneeded { 1 ≤ rooms self.old → HasEventRoom self.old → IsOk result }
    {
        self.make_room_for_next(id)?;
        self.events.reserve(1)?;
        Ok(())
    }

    // Makes room for a stream in the place of one of the peer.
    #[inline]
    fn make_room_for_next(&mut self, id: StreamId) -> Result<(), OutOfMemory>
        ensures same { streams_view self.new ≡ streams_view self.old }
        ensures rooms { OnOk result (is_own (streams_view self.old) id ≡ false → 1 ≤ rooms self.new) }
        ensures unneeded { 1 ≤ rooms self.old → IsOk result }
        ensures events { HasEventRoom self.old → HasEventRoom self.new }
    {
        if self.is_own(id) {
            return Ok(());
        }
        self.make_stream_room()
    }

    // There is no memory for the report of a frame. Of a stream that is freed none is refused.
    #[inline(never)]
    fn refuse_held(&self, id: StreamId, refused: OutOfMemory) -> Result<(), OutOfMemory>
        ensures freed { OnOk result (is_some ((streams_view self.now).out.halves id) ≡ false) }
        ensures held { OnErr result (is_some ((streams_view self.now).out.halves id) ≡ true) }
    {
        if self.outgoing.contains(id) {
            Err(refused)
        } else {
            Ok(())
        }
    }

    /// A STREAM frame was lost (RFC 9000 section 13.3): those of its data that are not acknowledged are to be sent again,
    /// and the end of the stream, if the frame had it. The stream is queued where nothing was to be sent on it before.
    ///
    /// The report of a stream that is freed or was reset, or of data that were not sent, changes nothing. If refused, all
    /// is as it was; of a stream that is freed none is. Where something is to be sent on the stream already, only data that
    /// are not acknowledged need memory.
    pub fn retransmit(&mut self, frame: frame::StreamMeta) -> Result<(), OutOfMemory>
        ensures loses { LosesOwn (streams_view self.old) frame.id frame.offsets frame.fin result (streams_view self.new) }
        ensures memory { OnErr result (MayWantPlace ((streams_view self.old).out.halves frame.id) ⊎ LossMayWantMemory frame.offsets ((streams_view self.old).out.halves frame.id)) }
        ensures from { (m : Made) (h : List Event) → From m h (streams_view self.old)
            → From m (Sending (LostOwn frame.id frame.offsets frame.fin result) ∷ h) (streams_view self.new) }
    {
        self.take_loss(frame)
    }

    // The same, each way out.
    pub(crate) fn take_loss(&mut self, frame: frame::StreamMeta) -> Result<(), OutOfMemory>
        ensures loses { LosesOwn (streams_view self.old) frame.id frame.offsets frame.fin result (streams_view self.new) }
        ensures memory { OnErr result (MayWantPlace ((streams_view self.old).out.halves frame.id) ⊎ LossMayWantMemory frame.offsets ((streams_view self.old).out.halves frame.id)) }
    {
        let id = frame.id;
        self.reserve_place(id)?;
        match self.outgoing.lose(id, frame.offsets, frame.fin) {
            Err(error) => {
                self.queue.release();
                Err(error)
            }
            Ok(queue_at) => {
                self.queue_at(id, queue_at);
                Ok(())
            }
        }
    }

    /// The RESET_STREAM of a stream was acknowledged (RFC 9000 section 3.1): the send half of one that was reset is
    /// freed, and one of the peer that is wholly freed by it makes room for another. If refused, all is as it was; where
    /// there is room for another it is not.
    pub fn reset_acked(&mut self, id: StreamId) -> Result<(), OutOfMemory>
        ensures acks { AcksReset (streams_view self.old) id result (streams_view self.new) }
        ensures unneeded { 1 ≤ rooms self.old → IsOk result }
        ensures from { (m : Made) (h : List Event) → From m h (streams_view self.old) → From m (Sending (ResetAckedOwn id result) ∷ h) (streams_view self.new) }
    {
        self.take_reset_ack(id)
    }

    // The same, each way out.
    pub(crate) fn take_reset_ack(&mut self, id: StreamId) -> Result<(), OutOfMemory>
        ensures acks { AcksReset (streams_view self.old) id result (streams_view self.new) }
        ensures unneeded { 1 ≤ rooms self.old → IsOk result }
    {
        let frees = self.is_permitted(id) && self.outgoing.is_reset(id);
        if !frees {
            return Ok(());
        }
        self.make_room_for_next(id)?;
        let _ = self.outgoing.reset_acked(id);
        self.free_send(id);
        Ok(())
    }

    // The send half of a stream was let go. There is room for a stream in the place of one of the peer.
    fn free_send(&mut self, id: StreamId)
        requires { is_own (streams_view self.old) id ≡ false → 1 ≤ rooms self.old }
        ensures freed { streams_view self.new ≡ with_send_freed (streams_view self.old) id }
        ensures events { HasEventRoom self.old → HasEventRoom self.new }
    {
        self.discount(id);
        self.release_send(id);
    }

    // It counts no more, if it was opened or accepted.
    fn discount(&mut self, id: StreamId)
        ensures discounted { streams_view self.new ≡ without_sender (streams_view self.old) id }
        ensures rooms { rooms self.new ≡ rooms self.old }
        ensures events { HasEventRoom self.old → HasEventRoom self.new }
    {
        if self.was_given(id) {
            self.send_streams = self.send_streams.saturating_sub(1);
        }
    }

    // A stream of the peer is wholly freed, unless its receive half is held.
    fn release_send(&mut self, id: StreamId)
        requires { is_own (streams_view self.old) id ≡ false → 1 ≤ rooms self.old }
        ensures released { streams_view self.new ≡ without_send_half (streams_view self.old) id }
        ensures events { HasEventRoom self.old → HasEventRoom self.new }
    {
        if self.is_own(id) {
            return;
        }
        match id.dir() {
            Dir::Uni => {}
            Dir::Bi => {
                if !self.receive.contains(id) {
                    self.replace_bi();
                }
            }
        }
    }
}
