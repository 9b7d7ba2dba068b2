//! What the peer sends: frames with data and resets, and the credit that it is given.

ghost use Rattle.std.specs.Prelude.{ℕ, List, ◌∷◌, ◌≡◌, ◌==◌, ◌+◌, ◌<◌, ◌≤◌, ◌^◌, ◌||◌, ◌&&◌, not, length, true, is_some, Some, None, if◌then◌else◌};
ghost use Rattle.quic_limits.specs.Credit.{is_max_data_due};
ghost use Rattle.quic_limits.specs.Remote.{is_max_streams_due};
ghost use Rattle.quic_streams.specs.Room.{rooms, HasEventRoom};
ghost use Rattle.quic_retransmits.specs.Queueing.{window_rooms};
ghost use Rattle.quic_streams.specs.InPlace.{TellsFrame};
ghost use Rattle.quic_streams.specs.Shown.{streams_view};
ghost use Rattle.quic_history.specs.World.{Made, id_refusal, with_freed, with_credit, with_receive};
ghost use Rattle.quic_history.specs.History.{Event, Received, ReceivedReset, AddedCredits, From};
ghost use Rattle.quic_retransmits.specs.Pending.{pending_view};
ghost use Rattle.quic_streams.specs.Accounting.{CountsPieces};
ghost use Rattle.quic_history.specs.Receiving.{Receives, ReceivesReset, with_max_streams, with_rest};

use crate::halves::Ingested;
use crate::state::StreamsState;
use quic_receiving::{Recv, ShouldTransmit};
use quic_retransmits::Retransmits;
use quic_values::StreamId;
use quic_wire::{ReceiveError, frame};

#[tactic(auto, using(quic_history::proofs::WorldSteps::world_steps))]
impl StreamsState {
    /// Takes a STREAM frame (RFC 9000 section 19.8), of a payload of `payload_len` bytes. Answers whether MAX_DATA is
    /// to be sent.
    ///
    /// A frame on a stream that was freed or reset is dropped. With an internal error (too many pieces) and with
    /// [`ReceiveError::CompactionMemory`] the frame is kept and counts all the same; other refusals change nothing. The
    /// data keep the whole payload alive, so that `payload_len` is their allocation size.
    pub fn received(
        &mut self,
        frame: frame::Stream,
        payload_len: usize,
    ) -> Result<ShouldTransmit, ReceiveError>
        requires { length frame.bytes ≤ payload_len }
        ensures receives { Receives (streams_view self.old) frame.id frame.offset frame.bytes frame.fin result (streams_view self.new) }
        ensures accounts { CountsPieces (streams_view self.old) frame.id frame.offset frame.bytes frame.fin payload_len result (streams_view self.new) }
        ensures from { (m : Made) (h : List Event) → From m h (streams_view self.old)
            → From m (Received frame.id frame.offset frame.bytes frame.fin result ∷ h) (streams_view self.new) }
    {
        self.receive_frame(frame, payload_len)
    }

    // The same, each way out.
    #[inline]
    #[tactic(auto, using(quic_history::proofs::WorldSteps::world_steps, crate::proofs::InPlace::accounts_rules))]
    fn receive_frame(
        &mut self,
        frame: frame::Stream,
        payload_len: usize,
    ) -> Result<ShouldTransmit, ReceiveError>
        requires { length frame.bytes ≤ payload_len }
        ensures receives { Receives (streams_view self.old) frame.id frame.offset frame.bytes frame.fin result (streams_view self.new) }
        ensures accounts { CountsPieces (streams_view self.old) frame.id frame.offset frame.bytes frame.fin payload_len result (streams_view self.new) }
    {
        let id = frame.id;
        if let Err(error) = self.validate_receive_id(id) {
            return Err(ReceiveError::Transport(error));
        }
        if self.make_room().is_err() {
            return Err(ReceiveError::OutOfMemory);
        }
        let (received, permitted) = self.received_of_permitted();
        match self.ingest_in_place(frame, payload_len, received, permitted) {
            Err(_) => Err(ReceiveError::OutOfMemory),
            Ok(None) => Ok(ShouldTransmit(false)),
            Ok(Some(taken)) => self.tell_frame(id, taken),
        }
    }

    // Counts what a frame brought that reached a half, and tells of it.
    #[inline]
    fn tell_frame(&mut self, id: StreamId, taken: Ingested) -> Result<ShouldTransmit, ReceiveError>
        requires known { id_refusal (streams_view self.old) id ≡ None }
        requires count { (streams_view self.old).credit.data_recvd + taken.grown < 2 ^ 64 }
        requires events { HasEventRoom self.old }
        requires rooms { 1 ≤ rooms self.old }
        ensures { TellsFrame (streams_view self.old) id taken.stopped taken.grown taken.answer result (streams_view self.new) }
    {
        let Ingested {
            answer,
            grown,
            stopped,
        } = taken;
        self.count(grown);
        match answer {
            Err(error) => Err(error),
            Ok((_, closed)) => {
                if stopped {
                    return Ok(self.discard(id, grown, closed));
                }
                self.notice(id, true);
                Ok(ShouldTransmit(false))
            }
        }
    }

    // Bytes that came on a stopped stream give credit at once, and its end frees it.
    fn discard(&mut self, id: StreamId, new_bytes: u64, closed: bool) -> ShouldTransmit
        requires { 1 ≤ rooms self.old }
        ensures discarded { streams_view self.new ≡ with_credit (if closed then with_freed (streams_view self.old) id else streams_view self.old) new_bytes }
        ensures due { result.0 ≡ is_max_data_due (streams_view self.new).credit }
    {
        if closed {
            self.free_receive(id);
        }
        self.add_read_credits(new_bytes)
    }

    /// Takes a RESET_STREAM frame (RFC 9000 section 19.4). Answers whether MAX_DATA is to be sent.
    ///
    /// What is held is let go, and what gave no credit yet up to the final size gives it. A further one changes
    /// nothing.
    pub fn received_reset(
        &mut self,
        frame: frame::ResetStream,
    ) -> Result<ShouldTransmit, ReceiveError>
        ensures receives { ReceivesReset (streams_view self.old) frame.id frame.error_code frame.final_offset result (streams_view self.new) }
        ensures from { (m : Made) (h : List Event) → From m h (streams_view self.old)
            → From m (ReceivedReset frame.id frame.error_code frame.final_offset result ∷ h) (streams_view self.new) }
    {
        self.receive_reset(frame)
    }

    // The same, each way out.
    fn receive_reset(&mut self, frame: frame::ResetStream) -> Result<ShouldTransmit, ReceiveError>
        ensures { ReceivesReset (streams_view self.old) frame.id frame.error_code frame.final_offset result (streams_view self.new) }
    {
        let id = frame.id;
        if let Err(error) = self.validate_receive_id(id) {
            return Err(ReceiveError::Transport(error));
        }
        if self.make_room().is_err() {
            return Err(ReceiveError::OutOfMemory);
        }
        let (received, permitted) = self.received_of_permitted();
        match self.take_half(id) {
            Err(_) => Err(ReceiveError::OutOfMemory),
            Ok(None) => Ok(ShouldTransmit(false)),
            Ok(Some(half)) => self.reset_on(half, frame, received, permitted),
        }
    }

    // Takes a RESET_STREAM frame on a half that was taken out.
    fn reset_on(
        &mut self,
        half: Box<Recv>,
        frame: frame::ResetStream,
        received: u64,
        permitted: u64,
    ) -> Result<ShouldTransmit, ReceiveError>
        requires known { id_refusal (streams_view self.old) frame.id ≡ None }
        requires there { is_some ((streams_view self.old).receive frame.id) ≡ true }
        requires received { received ≡ (streams_view self.old).credit.data_recvd }
        requires permitted { permitted ≡ (streams_view self.old).credit.local_max_data }
        requires events { HasEventRoom self.old }
        requires rooms { 1 ≤ rooms self.old }
        ensures { ReceivesReset (with_receive (streams_view self.old) frame.id (Some half.value)) frame.id frame.error_code frame.final_offset result (streams_view self.new) }
    {
        let id = frame.id;
        let mut half = half;
        let (high, stopped) = (half.end(), half.is_stopped());
        let credited = if stopped { high } else { half.bytes_read() };
        let answer = half.reset(frame.error_code, frame.final_offset, received, permitted);
        let end = half.end();
        self.put_half(id, half);
        match answer {
            Err(error) => Err(ReceiveError::Transport(error)),
            Ok(false) => Ok(ShouldTransmit(false)),
            Ok(true) => {
                self.count(end - high);
                self.notice(id, !stopped);
                if stopped {
                    self.free_receive(id);
                }
                Ok(self.add_rest(end.saturating_sub(credited)))
            }
        }
    }

    // Gives credit for bytes, if they are some.
    fn add_rest(&mut self, rest: u64) -> ShouldTransmit
        ensures credit { streams_view self.new ≡ with_rest (streams_view self.old) rest }
        ensures due { result.0 ≡ (not (rest == 0) && is_max_data_due (streams_view self.new).credit) }
    {
        if rest == 0 {
            return ShouldTransmit(false);
        }
        self.add_read_credits(rest)
    }
}

#[tactic(auto, unfolding(crate::specs::Shown::streams_view, crate::specs::Room::rooms))]
impl StreamsState {
    /// Gives credit for bytes that were consumed (RFC 9000 section 4.2). Answers whether MAX_DATA is to be sent.
    #[inline]
    pub fn add_read_credits(&mut self, credits: u64) -> ShouldTransmit
        ensures credit { streams_view self.new ≡ with_credit (streams_view self.old) credits }
        ensures due { result.0 ≡ is_max_data_due (streams_view self.new).credit }
        ensures rooms { rooms self.new ≡ rooms self.old }
        ensures from { (m : Made) (h : List Event) → From m h (streams_view self.old) → From m (AddedCredits credits result ∷ h) (streams_view self.new) }
    {
        ShouldTransmit(self.credit.add(credits))
    }

    /// Queues MAX_STREAMS for each direction in which enough streams were permitted since the last (RFC 9000 section
    /// 4.6). Answers whether one was due.
    pub fn queue_max_stream_id(&self, pending: &mut Retransmits) -> bool
        ensures pending { pending_view pending.new ≡ with_max_streams (streams_view self.now) (pending_view pending.old) }
        ensures rooms { (id : ℕ) → window_rooms pending.new id ≡ window_rooms pending.old id }
        ensures due { result ≡ (is_max_streams_due (streams_view self.now).bi || is_max_streams_due (streams_view self.now).uni) }
    {
        let (bi, uni) = (self.bi.is_max_streams_due(), self.uni.is_max_streams_due());
        let [had_bi, had_uni] = pending.max_stream_id;
        pending.max_stream_id = [had_bi | bi, had_uni | uni];
        bi | uni
    }
}
