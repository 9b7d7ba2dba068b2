//! The receive half of a stream, for the application.

ghost use Rattle.std.specs.Prelude.{◌≡◌, ◌≤◌, is_some, IfOk, IfErr, Ok, Err, Some, true, List, ◌∷◌};
ghost use Rattle.quic_history.specs.History.{Event, Began, Stopped, ToldReset, From};
ghost use Rattle.quic_history.specs.World.{Made, World, with_receive};
ghost use Rattle.quic_streams.specs.Shown.{streams_view};
ghost use Rattle.quic_retransmits.specs.Pending.{pending_view};
ghost use Rattle.quic_history.specs.Reading.{Begins, Stops, TellsReset};
ghost use Rattle.quic_streams.specs.Room.{rooms};
ghost use Rattle.quic_retransmits.specs.Queueing.{stop_rooms};

use crate::reading::Chunks;
use crate::state::StreamsState;
use quic_history::progress::Progress;
use quic_receiving::{HandleError, ReadableError, Recv};
use quic_retransmits::Retransmits;
use quic_values::{StreamId, VarInt};

/// The receive half of a stream.
#[derive(Drop)]
pub struct RecvStream<'a> {
    pub(crate) id: StreamId,
    pub(crate) state: &'a mut StreamsState,
    pub(crate) pending: &'a mut Retransmits,
}

impl<'a> RecvStream<'a> {
    /// The receive half of a stream. What is to be sent is queued in `pending`.
    pub fn new(id: StreamId, state: &'a mut StreamsState, pending: &'a mut Retransmits) -> Self
        ensures same_state { result.state.ghost_name ≡ state.entry.ghost_name }
        ensures same_pending { result.pending.ghost_name ≡ pending.entry.ghost_name }
        ensures state { result.state.now ≡ state.old }
        ensures pending { result.pending.now ≡ pending.old }
        ensures id { result.id ≡ id }
    {
        RecvStream { id, state, pending }
    }

    /// Opens the stream for reads, ordered or unordered. A stream that was read unordered cannot be read in order again.
    ///
    /// This reserves what the reader may need, so that ending the reader takes no memory. The calls of the reader say
    /// what they do to the state. On error nothing changes but reserved capacity; if memory ran out as the mode changed,
    /// the same bytes may be buffered in other segments.
    ///
    /// No postcondition of this call says what an error leaves: the result borrows `self`, so `self` has no value after
    /// the call. Those of [`RecvStream::read_some`] and [`RecvStream::read_with`], which open the stream in the same way,
    /// say it (`refused`, `refused_pending`).
    pub fn read(&mut self, ordered: bool) -> Result<Chunks<'_>, ReadableError>
        ensures begins { IfOk result (λ chunks. Begins (streams_view self.old.state.now) self.old.id ordered (Ok tt) (streams_view chunks.streams.now)) }
        ensures refused { IfErr result (λ error. (after : World) × Begins (streams_view self.old.state.now) self.old.id ordered (Err error) after) }
        ensures pending { IfOk result (λ chunks. pending_view chunks.pending.now ≡ pending_view self.old.pending.now) }
        ensures id { IfOk result (λ chunks. chunks.id ≡ self.old.id) }
        ensures ordered { IfOk result (λ chunks. chunks.ordered ≡ ordered) }
        ensures progress { IfOk result (λ chunks. chunks.progress ≡ Progress.Readable) }
        ensures read { IfOk result (λ chunks. chunks.read ≡ 0) }
        ensures from { IfOk result (λ chunks. (m : Made) (h : List Event) → From m h (streams_view self.old.state.now)
            → From m (Began self.old.id ordered (Ok tt) ∷ h) (streams_view chunks.streams.now)) }
    {
        self.state.begin(self.pending, self.id, ordered)?;
        let RecvStream { id, state, pending } = self;
        Ok(Chunks::new(state, pending, *id, ordered))
    }

    /// Stops the stream: what was not read is let go and gives credit, and the peer is asked to send no more, with this
    /// code (RFC 9000 section 3.5).
    pub fn stop(&mut self, error_code: VarInt) -> Result<(), HandleError>
        ensures same_state { self.new.state.ghost_name ≡ self.old.state.ghost_name }
        ensures same_pending { self.new.pending.ghost_name ≡ self.old.pending.ghost_name }
        ensures id { self.new.id ≡ self.old.id }
        ensures stops { Stops (streams_view self.old.state.now) self.old.id error_code (pending_view self.old.pending.now) result (streams_view self.new.state.now) (pending_view self.new.pending.now) }
        ensures from { (m : Made) (h : List Event) → From m h (streams_view self.old.state.now) → From m (Stopped self.old.id error_code result ∷ h) (streams_view self.new.state.now) }
    {
        self.state.stop(self.pending, self.id, error_code)
    }

    /// The code with which the peer gave the stream up, if it did. Then the half is freed.
    pub fn received_reset(&mut self) -> Result<Option<VarInt>, HandleError>
        ensures same_state { self.new.state.ghost_name ≡ self.old.state.ghost_name }
        ensures same_pending { self.new.pending.ghost_name ≡ self.old.pending.ghost_name }
        ensures id { self.new.id ≡ self.old.id }
        ensures tells { TellsReset (streams_view self.old.state.now) self.old.id (pending_view self.old.pending.now) result (streams_view self.new.state.now) (pending_view self.new.pending.now) }
        ensures from { (m : Made) (h : List Event) → From m h (streams_view self.old.state.now) → From m (ToldReset self.old.id result ∷ h) (streams_view self.new.state.now) }
    {
        self.state.tell_reset(self.pending, self.id)
    }
}

#[tactic(auto, using(quic_history::proofs::WorldSteps::world_steps))]
impl StreamsState {
    // Stops a receive half.
    pub(crate) fn stop(
        &mut self,
        pending: &mut Retransmits,
        id: StreamId,
        error_code: VarInt,
    ) -> Result<(), HandleError>
        ensures { Stops (streams_view self.old) id error_code (pending_view pending.old) result (streams_view self.new) (pending_view pending.new) }
    {
        if pending.reserve_stop().is_err() {
            return Err(HandleError::OutOfMemory);
        }
        if self.make_stream_room().is_err() {
            return Err(HandleError::OutOfMemory);
        }
        match self.take_half(id) {
            Err(_) => Err(HandleError::OutOfMemory),
            Ok(None) => Err(HandleError::ClosedStream),
            Ok(Some(half)) => self.stop_half(pending, id, half, error_code),
        }
    }

    // Stops a half that was taken out.
    fn stop_half(
        &mut self,
        pending: &mut Retransmits,
        id: StreamId,
        half: Box<Recv>,
        error_code: VarInt,
    ) -> Result<(), HandleError>
        requires there { is_some ((streams_view self.old).receive id) ≡ true }
        requires rooms { 1 ≤ rooms self.old }
        requires stop_room { 1 ≤ stop_rooms pending.old }
        ensures { Stops (with_receive (streams_view self.old) id (Some half.value)) id error_code (pending_view pending.old) result (streams_view self.new) (pending_view pending.new) }
    {
        let mut half = half;
        let ended = !half.final_offset_unknown();
        let answer = half.stop();
        self.put_half(id, half);
        match answer {
            Err(_) => Err(HandleError::ClosedStream),
            Ok((credit, transmit)) => {
                if ended {
                    self.free_receive(id);
                }
                let due = self.add_read_credits(credit).should_transmit();
                pending.queue_stop(id, error_code, transmit.should_transmit());
                pending.queue_max_data(due);
                Ok(())
            }
        }
    }

    // Tells the code of a reset, and frees the half.
    pub(crate) fn tell_reset(
        &mut self,
        pending: &mut Retransmits,
        id: StreamId,
    ) -> Result<Option<VarInt>, HandleError>
        ensures { TellsReset (streams_view self.old) id (pending_view pending.old) result (streams_view self.new) (pending_view pending.new) }
    {
        match self.reset_code(id) {
            Err(_) => Err(HandleError::ClosedStream),
            Ok(None) => Ok(None),
            Ok(Some(code)) => {
                if self.make_stream_room().is_err() {
                    return Err(HandleError::OutOfMemory);
                }
                self.free_receive(id);
                let _ = self.queue_max_stream_id(pending);
                Ok(Some(code))
            }
        }
    }
}
