//! The send half of a stream, for the application.

ghost use Rattle.std.specs.Prelude.{ℕ, List, ◌∷◌, ◌≡◌, ◌≤◌, IfOk, IfErr, OnOk, OnErr, Ok, Err, None, Some, is_some, true, false};
ghost use Rattle.quic_sending.specs.Source.{slice_lists, without_first};
ghost use Rattle.quic_outgoing.specs.Calls.{told_of_half, end_refusal, is_reset_or_gone};
ghost use Rattle.quic_outgoing.specs.Writing.{refusal_to_stay};
ghost use Rattle.quic_retransmits.specs.Pending.{Pending, pending_view};
ghost use Rattle.quic_streams.specs.Connection.{is_shut};
ghost use Rattle.quic_streams.specs.Shown.{streams_view};
ghost use Rattle.quic_streams.specs.Writing.{IsWrittenAs};
ghost use Rattle.quic_history.specs.World.{Made, World};
ghost use Rattle.quic_history.specs.Writes.{WritesOwn, FinishesOwn, ResetsOwn, SetsOwnPriority};
ghost use Rattle.quic_history.specs.SendEvents.{WroteOwn, FinishedOwn, ResetOwn, SetOwnPriority};
ghost use Rattle.quic_history.specs.History.{Event, Sending, From};

use crate::state::StreamsState;
use crate::streams::ConnState;
use quic_receiving::HandleError;
use quic_retransmits::Retransmits;
use quic_sending::{BytesSource, ClosedStream, FinishError, WriteError, Written};
use quic_values::{Bytes, StreamId, VarInt};

/// The send half of a stream.
#[derive(Drop)]
pub struct SendStream<'a> {
    pub(crate) id: StreamId,
    pub(crate) state: &'a mut StreamsState,
    pub(crate) pending: &'a mut Retransmits,
    pub(crate) conn: ConnState,
}

impl<'a> SendStream<'a> {
    /// The send half of a stream, on a connection that is open or closed. What is to be sent is queued in `pending`.
    pub fn new(
        id: StreamId,
        state: &'a mut StreamsState,
        pending: &'a mut Retransmits,
        conn: ConnState,
    ) -> Self
        ensures same_state { result.state.ghost_name ≡ state.entry.ghost_name }
        ensures same_pending { result.pending.ghost_name ≡ pending.entry.ghost_name }
        ensures state { result.state.now ≡ state.old }
        ensures pending { result.pending.now ≡ pending.old }
        ensures id { result.id ≡ id }
        ensures conn { result.conn ≡ conn }
    {
        SendStream {
            id,
            state,
            pending,
            conn,
        }
    }

    /// Writes the first of `bytes`, and answers how many (RFC 9000 section 2.2): the least of what there is, of what
    /// the limits of the connection and of the stream leave, and of what the send window leaves. Without bytes it takes
    /// none, where there is room. `Blocked`: no room, or the connection is closed; an event tells when there is some.
    pub fn write(&mut self, bytes: &[u8]) -> Result<usize, WriteError>
        ensures same_state { self.new.state.ghost_name ≡ self.old.state.ghost_name }
        ensures same_pending { self.new.pending.ghost_name ≡ self.old.pending.ghost_name }
        ensures id { self.new.id ≡ self.old.id }
        ensures conn { self.new.conn ≡ self.old.conn }
        ensures writes { IsWrittenAs result (λ written. (left : List (List ℕ)) × WritesOwn (streams_view self.old.state.now) self.old.id (slice_lists bytes.now) (is_shut self.old.conn) (pending_view self.old.pending.now) written (streams_view self.new.state.now) left (pending_view self.new.pending.now)) }
        ensures memory { result ≡ Err WriteError.OutOfMemory → refusal_to_stay (streams_view self.old.state.now).out ((streams_view self.old.state.now).out.halves self.old.id) ≡ None }
        ensures from { IsWrittenAs result (λ written. (m : Made) (h : List Event) → From m h (streams_view self.old.state.now)
            → From m (Sending (WroteOwn self.old.id (slice_lists bytes.now) (is_shut self.old.conn) written) ∷ h) (streams_view self.new.state.now)) }
    {
        self.state
            .write_bytes(self.pending, self.id, bytes, self.conn)
    }

    /// Writes the first bytes of some chunks, one after another, and answers how many bytes were written and how many
    /// chunks were taken whole. Those are empty afterwards; one that was cut keeps the rest. Else as
    /// [`SendStream::write`].
    pub fn write_chunks(&mut self, chunks: &mut [Bytes]) -> Result<Written, WriteError>
        ensures same_state { self.new.state.ghost_name ≡ self.old.state.ghost_name }
        ensures same_pending { self.new.pending.ghost_name ≡ self.old.pending.ghost_name }
        ensures id { self.new.id ≡ self.old.id }
        ensures conn { self.new.conn ≡ self.old.conn }
        ensures writes { (left : List (List ℕ)) × WritesOwn (streams_view self.old.state.now) self.old.id chunks.old (is_shut self.old.conn) (pending_view self.old.pending.now) result (streams_view self.new.state.now) left (pending_view self.new.pending.now) }
        ensures left { IfOk result (λ written. chunks.new ≡ without_first written.bytes chunks.old) }
        ensures kept { OnErr result (chunks.new ≡ chunks.old) }
        ensures memory { result ≡ Err WriteError.OutOfMemory → refusal_to_stay (streams_view self.old.state.now).out ((streams_view self.old.state.now).out.halves self.old.id) ≡ None }
        ensures from { (m : Made) (h : List Event) → From m h (streams_view self.old.state.now)
            → From m (Sending (WroteOwn self.old.id chunks.old (is_shut self.old.conn) result) ∷ h) (streams_view self.new.state.now) }
    {
        self.state
            .write_lists(self.pending, self.id, chunks, self.conn)
    }

    /// The code of the first STOP_SENDING that came for the stream, if one did (RFC 9000 section 19.5).
    #[tactic(auto, unfolding(crate::specs::Shown::streams_view))]
    pub fn stopped(&self) -> Result<Option<VarInt>, ClosedStream>
        ensures { result ≡ told_of_half (λ s. s.stop_reason) ((streams_view self.now.state.now).out.halves self.now.id) }
    {
        self.state.outgoing.stopped(self.id)
    }

    /// Ends the stream: nothing more is written, and its end is sent (RFC 9000 section 3.1). A refusal changes nothing.
    pub fn finish(&mut self) -> Result<(), FinishError>
        ensures same_state { self.new.state.ghost_name ≡ self.old.state.ghost_name }
        ensures pending { self.new.pending ≡ self.old.pending }
        ensures id { self.new.id ≡ self.old.id }
        ensures conn { self.new.conn ≡ self.old.conn }
        ensures finishes { FinishesOwn (streams_view self.old.state.now) self.old.id result (streams_view self.new.state.now) }
        ensures memory { result ≡ Err FinishError.OutOfMemory → end_refusal ((streams_view self.old.state.now).out.halves self.old.id) ≡ None }
        ensures from { (m : Made) (h : List Event) → From m h (streams_view self.old.state.now) → From m (Sending (FinishedOwn self.old.id result) ∷ h) (streams_view self.new.state.now) }
    {
        self.state.finish(self.id)
    }

    /// Gives the stream up: what was not acknowledged is let go, and RESET_STREAM is queued with this code (RFC 9000
    /// sections 3.1 and 19.4). A refusal changes nothing.
    pub fn reset(&mut self, error_code: VarInt) -> Result<(), HandleError>
        ensures same_state { self.new.state.ghost_name ≡ self.old.state.ghost_name }
        ensures same_pending { self.new.pending.ghost_name ≡ self.old.pending.ghost_name }
        ensures id { self.new.id ≡ self.old.id }
        ensures conn { self.new.conn ≡ self.old.conn }
        ensures resets { ResetsOwn (streams_view self.old.state.now) self.old.id error_code (pending_view self.old.pending.now) result (streams_view self.new.state.now) (pending_view self.new.pending.now) }
        ensures memory { result ≡ Err HandleError.OutOfMemory → is_reset_or_gone ((streams_view self.old.state.now).out.halves self.old.id) ≡ false }
        ensures from { (m : Made) (h : List Event) → From m h (streams_view self.old.state.now) → From m (Sending (ResetOwn self.old.id error_code result) ∷ h) (streams_view self.new.state.now) }
    {
        self.state.reset_sending(self.pending, self.id, error_code)
    }

    /// Sets the priority at which the stream is queued from now on: those of a higher number are sent on first. Where it
    /// is queued already it stays.
    pub fn set_priority(&mut self, priority: i32) -> Result<(), HandleError>
        ensures same_state { self.new.state.ghost_name ≡ self.old.state.ghost_name }
        ensures pending { self.new.pending ≡ self.old.pending }
        ensures id { self.new.id ≡ self.old.id }
        ensures conn { self.new.conn ≡ self.old.conn }
        ensures sets { SetsOwnPriority (streams_view self.old.state.now) self.old.id priority result (streams_view self.new.state.now) }
        ensures memory { result ≡ Err HandleError.OutOfMemory → is_some ((streams_view self.old.state.now).out.halves self.old.id) ≡ true }
        ensures from { (m : Made) (h : List Event) → From m h (streams_view self.old.state.now) → From m (Sending (SetOwnPriority self.old.id priority result) ∷ h) (streams_view self.new.state.now) }
    {
        self.state.set_priority(self.id, priority)
    }

    /// The priority that was set last; 0 at first.
    #[tactic(auto, unfolding(crate::specs::Shown::streams_view))]
    pub fn priority(&self) -> Result<i32, ClosedStream>
        ensures { result ≡ told_of_half (λ s. s.priority) ((streams_view self.now.state.now).out.halves self.now.id) }
    {
        self.state.outgoing.priority(self.id)
    }
}
