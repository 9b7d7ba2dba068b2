//! Writes, ends and resets of a stream, on the state.

ghost use Rattle.std.specs.Prelude.{ℕ, ℤ, List, ◌∷◌, ◌≡◌, ◌≤◌, OnErr, OnOk, IfOk, None, Some, Ok, Err, is_some, true, false};
ghost use Rattle.quic_sending.specs.Source.{slice_lists, without_first};
ghost use Rattle.quic_retransmits.specs.Pending.{pending_view};
ghost use Rattle.quic_outgoing.specs.Calls.{end_refusal, is_reset_or_gone};
ghost use Rattle.quic_outgoing.specs.Writing.{refusal_to_stay};
ghost use Rattle.quic_streams.specs.Connection.{is_shut};
ghost use Rattle.quic_streams.specs.Shown.{streams_view};
ghost use Rattle.quic_streams.specs.Writing.{IsWrittenAs, HasPlace, HasPlaceAt, MayWantPlace};
ghost use Rattle.quic_history.specs.Writes.{WritesOwn, FinishesOwn, ResetsOwn, SetsOwnPriority, with_queued};

use crate::state::StreamsState;
use crate::streams::ConnState;
use quic_receiving::HandleError;
use quic_retransmits::Retransmits;
use quic_sending::{ByteSlice, BytesArray, BytesSource, FinishError, WriteError, Written};
use quic_values::{Bytes, OutOfMemory, StreamId, VarInt};

#[tactic(auto, unfolding(crate::specs::Shown::streams_view), using(crate::proofs::Places::place_rules))]
impl StreamsState {
    // Writes the first bytes of a slice.
    pub(crate) fn write_bytes(
        &mut self,
        pending: &mut Retransmits,
        id: StreamId,
        bytes: &[u8],
        conn: ConnState,
    ) -> Result<usize, WriteError>
        ensures writes { IsWrittenAs result (λ written. (left : List (List ℕ)) × WritesOwn (streams_view self.old) id (slice_lists bytes.now) (is_shut conn) (pending_view pending.old) written (streams_view self.new) left (pending_view pending.new)) }
        ensures memory { result ≡ Err WriteError.OutOfMemory → refusal_to_stay (streams_view self.old).out ((streams_view self.old).out.halves id) ≡ None }
    {
        let mut source = ByteSlice::from_slice(self.receive.alloc, bytes);
        match self.write_source(pending, id, &mut source, conn) {
            Ok(written) => Ok(written.bytes),
            Err(error) => Err(error),
        }
    }

    // Writes the first bytes of some chunks, and leaves the others in them.
    pub(crate) fn write_lists(
        &mut self,
        pending: &mut Retransmits,
        id: StreamId,
        chunks: &mut [Bytes],
        conn: ConnState,
    ) -> Result<Written, WriteError>
        ensures writes { (left : List (List ℕ)) × WritesOwn (streams_view self.old) id chunks.old (is_shut conn) (pending_view pending.old) result (streams_view self.new) left (pending_view pending.new) }
        ensures left { IfOk result (λ written. chunks.new ≡ without_first written.bytes chunks.old) }
        ensures kept { OnErr result (chunks.new ≡ chunks.old) }
        ensures memory { result ≡ Err WriteError.OutOfMemory → refusal_to_stay (streams_view self.old).out ((streams_view self.old).out.halves id) ≡ None }
    {
        let mut part = Bytes::new(self.receive.alloc);
        let mut source = BytesArray::from_chunks(self.receive.alloc, chunks, &mut part);
        self.write_source(pending, id, &mut source, conn)
    }

    // Writes the first bytes of a source, and queues the stream where nothing was to be sent on it.
    fn write_source<S: BytesSource>(
        &mut self,
        pending: &mut Retransmits,
        id: StreamId,
        source: &mut S,
        conn: ConnState,
    ) -> Result<Written, WriteError>
        ensures writes { WritesOwn (streams_view self.old) id (S.lists source.old) (is_shut conn) (pending_view pending.old) result (streams_view self.new) (S.lists source.new) (pending_view pending.new) }
        ensures memory { result ≡ Err WriteError.OutOfMemory → refusal_to_stay (streams_view self.old).out ((streams_view self.old).out.halves id) ≡ None }
        ensures borrow { S.borrow source.new ≡ S.borrow source.old }
        ensures list_count { S.list_count source.new ≡ S.list_count source.old }
    {
        if matches!(conn, ConnState::Closed) {
            return Err(WriteError::Blocked);
        }
        match self.outgoing.write(pending, &mut self.queue, id, source) {
            Err(error) => {
                self.queue.release();
                Err(error)
            }
            Ok(wrote) => {
                self.queue_at(id, wrote.queue_at);
                Ok(wrote.written)
            }
        }
    }

    // Makes the room to queue a stream at its priority, where it is held and nothing is to be sent on it.
    #[inline]
    pub(crate) fn reserve_place(&mut self, id: StreamId) -> Result<(), OutOfMemory>
        ensures same { streams_view self.new ≡ streams_view self.old }
        ensures ok { OnOk result (HasPlace self.new id) }
        ensures held { OnErr result (is_some ((streams_view self.old).out.halves id) ≡ true) }
        ensures memory { OnErr result (MayWantPlace ((streams_view self.old).out.halves id)) }
    {
        match self.outgoing.queue_place(id) {
            None => Ok(()),
            Some(priority) => self.queue.reserve(priority),
        }
    }

    // Queues a stream at its priority where that is asked for, in room that was made.
    #[inline]
    pub(crate) fn queue_at(&mut self, id: StreamId, priority: Option<i32>)
        requires { HasPlaceAt self.old priority }
        ensures { streams_view self.new ≡ with_queued (streams_view self.old) id priority }
    {
        match priority {
            Some(priority) => self.queue.put(id, priority),
            None => self.queue.release(),
        }
    }

    // Ends a stream.
    pub(crate) fn finish(&mut self, id: StreamId) -> Result<(), FinishError>
        ensures finishes { FinishesOwn (streams_view self.old) id result (streams_view self.new) }
        ensures memory { result ≡ Err FinishError.OutOfMemory → end_refusal ((streams_view self.old).out.halves id) ≡ None }
    {
        match self.outgoing.finish(&mut self.queue, id) {
            Err(error) => {
                self.queue.release();
                Err(error)
            }
            Ok(queue_at) => {
                self.queue_at(id, queue_at);
                Ok(())
            }
        }
    }

    // Gives a stream up.
    pub(crate) fn reset_sending(
        &mut self,
        pending: &mut Retransmits,
        id: StreamId,
        error_code: VarInt,
    ) -> Result<(), HandleError>
        ensures resets { ResetsOwn (streams_view self.old) id error_code (pending_view pending.old) result (streams_view self.new) (pending_view pending.new) }
        ensures memory { result ≡ Err HandleError.OutOfMemory → is_reset_or_gone ((streams_view self.old).out.halves id) ≡ false }
    {
        self.outgoing.reset(pending, id, error_code)
    }

    // Gives a stream a priority.
    pub(crate) fn set_priority(&mut self, id: StreamId, priority: i32) -> Result<(), HandleError>
        ensures sets { SetsOwnPriority (streams_view self.old) id priority result (streams_view self.new) }
        ensures memory { result ≡ Err HandleError.OutOfMemory → is_some ((streams_view self.old).out.halves id) ≡ true }
    {
        self.outgoing.set_priority(id, priority)
    }
}
