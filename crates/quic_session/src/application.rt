//! The calls of the application of a session. Each on a stream fails with `ClosedStream` unless the application was given
//! the stream: it was opened by [`Session::open`] or accepted by [`Session::accept`].

ghost use Rattle.std.specs.Prelude.{ℕ, List, ◌∷◌, ◌≡◌, true, false, is_some, length, None, Ok, Err, IfOk, IfErr, OnErr};
ghost use Rattle.quic_history.specs.World.{Made};
ghost use Rattle.quic_history.specs.Acknowledged.{was_given};
ghost use Rattle.quic_history.specs.History.{Event, Sending, Accepted, Stopped, ToldReset, Began, From, with_reads};
ghost use Rattle.quic_history.specs.SendEvents.{OpenedOwn, WroteOwn, FinishedOwn, ResetOwn, SetOwnPriority};
ghost use Rattle.quic_history.specs.Sends.{OpensOwn};
ghost use Rattle.quic_history.specs.Writes.{WritesOwn};
ghost use Rattle.quic_history.specs.Permitting.{with_accepted, acceptable};
ghost use Rattle.quic_outgoing.specs.Calls.{end_refusal, is_reset_or_gone, told_of_half};
ghost use Rattle.quic_outgoing.specs.Writing.{refusal_to_stay};
ghost use Rattle.quic_sending.specs.Source.{slice_lists, without_first};
ghost use Rattle.quic_streams.specs.Connection.{is_shut};
ghost use Rattle.quic_streams.specs.Writing.{IsWrittenAs};
ghost use Rattle.quic_endpoint.specs.Ends.{with_world, FinishesAt, ResetsAt, SetsPriorityAt, StopsReading, TellsResetAt, ReadsAt, RefusesRead};
ghost use Rattle.quic_session.specs.Sessions.{end_of, beside_of};
ghost use Rattle.quic_session.specs.Reading.{ReadsInto, CopiesChunk, AreFew};
ghost use Rattle.quic_session.specs.Users.{users_view};
ghost use Rattle.quic_session.specs.Closing.{with_opened_stream, with_given_stream, touched_if, touched_by_read};

use crate::closing::touch_by_read;
use crate::memory::put_chunks;
use crate::session::Session;
use quic_receiving::{HandleError, ReadableError};
use quic_sending::{ClosedStream, FinishError, WriteError, Written};
use quic_streams::batches::ReadSome;
use quic_streams::progress::LastAnswer;
use quic_values::{Bytes, Dir, OutOfMemory, StreamId, VarInt};
use std::mem;

impl Session {
    /// Opens the next stream of a direction, as [`Endpoint::open_in`](quic_endpoint::Endpoint::open_in).
    pub fn open(&mut self, dir: Dir) -> Result<Option<StreamId>, OutOfMemory>
        ensures opens { OpensOwn (end_of self.old).streams dir (is_shut self.old.conn) result (end_of self.new).streams }
        ensures pending { (end_of self.new).pending ≡ (end_of self.old).pending }
        ensures from { (m : Made) (h : List Event) → From m h (end_of self.old).streams → From m (Sending (OpenedOwn dir (is_shut self.old.conn) result) ∷ h) (end_of self.new).streams }
        ensures beside { beside_of self.new ≡ beside_of self.old }
        ensures users { users_view self.new.users ≡ with_opened_stream result (users_view self.old.users) }
    {
        let opened = self.endpoint.open_in(self.conn, dir);
        if let Ok(Some(id)) = &opened {
            self.users.add(*id);
        }
        opened
    }

    /// Accepts the next stream of a direction that the peer opened (RFC 9000 section 2.1).
    pub fn accept(&mut self, dir: Dir) -> Option<StreamId>
        ensures id { result ≡ acceptable (end_of self.old).streams dir }
        ensures accepted { end_of self.new ≡ with_world (end_of self.old) (with_accepted (end_of self.old).streams dir) }
        ensures from { (m : Made) (h : List Event) → From m h (end_of self.old).streams → From m (Accepted dir result ∷ h) (end_of self.new).streams }
        ensures beside { beside_of self.new ≡ beside_of self.old }
        ensures users { users_view self.new.users ≡ with_given_stream result (users_view self.old.users) }
    {
        let accepted = self.endpoint.accept(dir);
        if let Some(id) = accepted {
            self.users.add(id);
        }
        accepted
    }

    /// Writes the first of `bytes` to a stream, and returns how many.
    pub fn write(&mut self, id: StreamId, bytes: &[u8]) -> Result<usize, WriteError>
        ensures writes { was_given (end_of self.old).streams id ≡ true → IsWrittenAs result (λ written. (left : List (List ℕ))
            × WritesOwn (end_of self.old).streams id (slice_lists bytes.now) (is_shut self.old.conn) (end_of self.old).pending written (end_of self.new).streams left (end_of self.new).pending) }
        ensures unknown { was_given (end_of self.old).streams id ≡ false → (result ≡ Err WriteError.ClosedStream) × (end_of self.new ≡ end_of self.old) }
        ensures memory { result ≡ Err WriteError.OutOfMemory → refusal_to_stay (end_of self.old).streams.out ((end_of self.old).streams.out.halves id) ≡ None }
        ensures from { was_given (end_of self.old).streams id ≡ true → IsWrittenAs result (λ written. (m : Made) (h : List Event) → From m h (end_of self.old).streams
            → From m (Sending (WroteOwn id (slice_lists bytes.now) (is_shut self.old.conn) written) ∷ h) (end_of self.new).streams) }
        ensures beside { beside_of self.new ≡ beside_of self.old }
        ensures users { self.new.users ≡ self.old.users }
    {
        if !self.was_given(id) {
            return Err(WriteError::ClosedStream);
        }
        self.endpoint.write_in(self.conn, id, bytes)
    }

    /// Writes the first bytes of some chunks to a stream. What was written is gone from the chunks.
    pub fn write_chunks(
        &mut self,
        id: StreamId,
        chunks: &mut [Bytes],
    ) -> Result<Written, WriteError>
        ensures writes { was_given (end_of self.old).streams id ≡ true → (left : List (List ℕ))
            × WritesOwn (end_of self.old).streams id chunks.old (is_shut self.old.conn) (end_of self.old).pending result (end_of self.new).streams left (end_of self.new).pending }
        ensures unknown { was_given (end_of self.old).streams id ≡ false → (result ≡ Err WriteError.ClosedStream) × (end_of self.new ≡ end_of self.old) }
        ensures memory { result ≡ Err WriteError.OutOfMemory → refusal_to_stay (end_of self.old).streams.out ((end_of self.old).streams.out.halves id) ≡ None }
        ensures from { was_given (end_of self.old).streams id ≡ true → (m : Made) (h : List Event) → From m h (end_of self.old).streams
            → From m (Sending (WroteOwn id chunks.old (is_shut self.old.conn) result) ∷ h) (end_of self.new).streams }
        ensures left { IfOk result (λ written. chunks.new ≡ without_first written.bytes chunks.old) }
        ensures kept { OnErr result (chunks.new ≡ chunks.old) }
        ensures beside { beside_of self.new ≡ beside_of self.old }
        ensures users { self.new.users ≡ self.old.users }
    {
        if !self.was_given(id) {
            return Err(WriteError::ClosedStream);
        }
        self.endpoint.write_chunks_in(self.conn, id, chunks)
    }

    /// Ends the send side of a stream (RFC 9000 section 3.1).
    pub fn finish(&mut self, id: StreamId) -> Result<(), FinishError>
        ensures finishes { was_given (end_of self.old).streams id ≡ true → FinishesAt (end_of self.old) id result (end_of self.new) }
        ensures unknown { was_given (end_of self.old).streams id ≡ false → (result ≡ Err FinishError.ClosedStream) × (end_of self.new ≡ end_of self.old) }
        ensures memory { result ≡ Err FinishError.OutOfMemory → end_refusal ((end_of self.old).streams.out.halves id) ≡ None }
        ensures from { was_given (end_of self.old).streams id ≡ true → (m : Made) (h : List Event) → From m h (end_of self.old).streams → From m (Sending (FinishedOwn id result) ∷ h) (end_of self.new).streams }
        ensures beside { beside_of self.new ≡ beside_of self.old }
        ensures users { self.new.users ≡ self.old.users }
    {
        if !self.was_given(id) {
            return Err(FinishError::ClosedStream);
        }
        self.endpoint.finish(id)
    }

    /// Resets the send side of a stream (RFC 9000 section 19.4).
    pub fn reset(&mut self, id: StreamId, error_code: VarInt) -> Result<(), HandleError>
        ensures resets { was_given (end_of self.old).streams id ≡ true → ResetsAt (end_of self.old) id error_code result (end_of self.new) }
        ensures unknown { was_given (end_of self.old).streams id ≡ false → (result ≡ Err HandleError.ClosedStream) × (end_of self.new ≡ end_of self.old) }
        ensures memory { result ≡ Err HandleError.OutOfMemory → is_reset_or_gone ((end_of self.old).streams.out.halves id) ≡ false }
        ensures from { was_given (end_of self.old).streams id ≡ true → (m : Made) (h : List Event) → From m h (end_of self.old).streams → From m (Sending (ResetOwn id error_code result) ∷ h) (end_of self.new).streams }
        ensures beside { beside_of self.new ≡ beside_of self.old }
        ensures users { self.new.users ≡ self.old.users }
    {
        if !self.was_given(id) {
            return Err(HandleError::ClosedStream);
        }
        self.endpoint.reset(id, error_code)
    }

    /// Sets the priority of a stream. Streams of a higher priority are sent first.
    pub fn set_priority(&mut self, id: StreamId, priority: i32) -> Result<(), HandleError>
        ensures sets { was_given (end_of self.old).streams id ≡ true → SetsPriorityAt (end_of self.old) id priority result (end_of self.new) }
        ensures unknown { was_given (end_of self.old).streams id ≡ false → (result ≡ Err HandleError.ClosedStream) × (end_of self.new ≡ end_of self.old) }
        ensures memory { result ≡ Err HandleError.OutOfMemory → is_some ((end_of self.old).streams.out.halves id) ≡ true }
        ensures from { was_given (end_of self.old).streams id ≡ true → (m : Made) (h : List Event) → From m h (end_of self.old).streams → From m (Sending (SetOwnPriority id priority result) ∷ h) (end_of self.new).streams }
        ensures beside { beside_of self.new ≡ beside_of self.old }
        ensures users { self.new.users ≡ self.old.users }
    {
        if !self.was_given(id) {
            return Err(HandleError::ClosedStream);
        }
        self.endpoint.set_priority(id, priority)
    }

    /// The priority of a stream: the one that was set last, 0 at first.
    pub fn priority(&self, id: StreamId) -> Result<i32, ClosedStream>
        ensures told { was_given (end_of self.now).streams id ≡ true → result ≡ told_of_half (λ s. s.priority) ((end_of self.now).streams.out.halves id) }
        ensures unknown { was_given (end_of self.now).streams id ≡ false → result ≡ Err (record {}) }
    {
        if !self.was_given(id) {
            return Err(ClosedStream);
        }
        self.endpoint.streams().priority(id)
    }

    /// The code of the first STOP_SENDING that the peer sent for a stream (RFC 9000 section 19.5).
    pub fn stopped(&self, id: StreamId) -> Result<Option<VarInt>, ClosedStream>
        ensures told { was_given (end_of self.now).streams id ≡ true → result ≡ told_of_half (λ s. s.stop_reason) ((end_of self.now).streams.out.halves id) }
        ensures unknown { was_given (end_of self.now).streams id ≡ false → result ≡ Err (record {}) }
    {
        if !self.was_given(id) {
            return Err(ClosedStream);
        }
        self.endpoint.streams().stopped(id)
    }

    /// Stops the receive side of a stream (RFC 9000 section 3.5). MAX_STREAMS is queued if it is due.
    pub fn stop(&mut self, id: StreamId, error_code: VarInt) -> Result<(), HandleError>
        ensures stops { was_given (end_of self.old).streams id ≡ true → StopsReading (end_of self.old) id error_code result (end_of self.new) }
        ensures unknown { was_given (end_of self.old).streams id ≡ false → (result ≡ Err HandleError.ClosedStream) × (end_of self.new ≡ end_of self.old) }
        ensures from { was_given (end_of self.old).streams id ≡ true → (m : Made) (h : List Event) → From m h (end_of self.old).streams → From m (Stopped id error_code result ∷ h) (end_of self.new).streams }
        ensures beside { beside_of self.new ≡ beside_of self.old }
        ensures users { users_view self.new.users ≡ touched_if (was_given (end_of self.old).streams id) id (users_view self.old.users) }
    {
        if !self.was_given(id) {
            return Err(HandleError::ClosedStream);
        }
        let answer = self.endpoint.stop(id, error_code);
        self.users.touch(id);
        answer
    }

    /// The code with which the peer reset a stream, if it did (RFC 9000 section 19.4). The first answer frees the stream, and
    /// MAX_STREAMS is queued if it is due.
    pub fn received_reset(&mut self, id: StreamId) -> Result<Option<VarInt>, HandleError>
        ensures tells { was_given (end_of self.old).streams id ≡ true → TellsResetAt (end_of self.old) id result (end_of self.new) }
        ensures unknown { was_given (end_of self.old).streams id ≡ false → (result ≡ Err HandleError.ClosedStream) × (end_of self.new ≡ end_of self.old) }
        ensures from { was_given (end_of self.old).streams id ≡ true → (m : Made) (h : List Event) → From m h (end_of self.old).streams → From m (ToldReset id result ∷ h) (end_of self.new).streams }
        ensures beside { beside_of self.new ≡ beside_of self.old }
        ensures users { users_view self.new.users ≡ touched_if (was_given (end_of self.old).streams id) id (users_view self.old.users) }
    {
        if !self.was_given(id) {
            return Err(HandleError::ClosedStream);
        }
        let answer = self.endpoint.received_reset(id);
        self.users.touch(id);
        answer
    }

    /// Reads at most `times` chunks of a stream, each of at most `most` bytes, in order or as they were received.
    /// MAX_STREAMS is queued if it is due.
    pub fn read(
        &mut self,
        id: StreamId,
        ordered: bool,
        most: usize,
        times: u16,
    ) -> Result<ReadSome, ReadableError>
        ensures reads { was_given (end_of self.old).streams id ≡ true → IfOk result (λ r. ReadsAt (end_of self.old) id most times ordered r.chunks.items r.last r.transmit.0 (end_of self.new)) }
        ensures refused { was_given (end_of self.old).streams id ≡ true → IfErr result (λ error. RefusesRead (end_of self.old) id ordered error (end_of self.new)) }
        ensures unknown { was_given (end_of self.old).streams id ≡ false → (result ≡ Err ReadableError.ClosedStream) × (end_of self.new ≡ end_of self.old) }
        ensures from { was_given (end_of self.old).streams id ≡ true → IfOk result (λ r. (m : Made) (h : List Event) → From m h (end_of self.old).streams
            → From m (with_reads id most ordered r.chunks.items r.last h) (end_of self.new).streams) }
        ensures from_refused { was_given (end_of self.old).streams id ≡ true → IfErr result (λ error. (m : Made) (h : List Event) → From m h (end_of self.old).streams
            → From m (Began id ordered (Err error) ∷ h) (end_of self.new).streams) }
        ensures beside { beside_of self.new ≡ beside_of self.old }
        ensures users { IfOk result (λ r. users_view self.new.users ≡ touched_by_read id r.last (users_view self.old.users)) }
        ensures kept { OnErr result (users_view self.new.users ≡ users_view self.old.users) }
    {
        if !self.was_given(id) {
            return Err(ReadableError::ClosedStream);
        }
        let answer = self.endpoint.read(id, ordered, most, times);
        if let Ok(some) = &answer {
            touch_by_read(&mut self.users, id, some.last);
        }
        answer
    }
}

/// What a read put into a buffer.
#[derive(Clone, Copy, Debug, PartialEq, Eq)]
pub struct ReadInto {
    /// How many bytes.
    pub count: usize,
    /// Where the first of them stands in the stream.
    pub offset: u64,
    /// Why they are no more.
    pub last: LastAnswer,
}

impl Session {
    /// Reads the next chunk of a stream, of at most as many bytes as `out` has, and puts it there.
    pub fn read_into(
        &mut self,
        id: StreamId,
        ordered: bool,
        out: &mut [u8],
    ) -> Result<ReadInto, ReadableError>
        ensures reads { ReadsInto self.old id ordered out.old result self.new out.new }
        ensures beside { beside_of self.new ≡ beside_of self.old }
        ensures users { IfOk result (λ r. users_view self.new.users ≡ touched_by_read id r.last (users_view self.old.users)) }
        ensures kept { OnErr result (users_view self.new.users ≡ users_view self.old.users) }
    {
        if !self.was_given(id) {
            return Err(ReadableError::ClosedStream);
        }
        let list = mem::replace(&mut self.chunks, Vec::new(self.alloc));
        let some = self.endpoint.read_reusing(id, ordered, out.len(), 1, list)?;
        touch_by_read(&mut self.users, id, some.last);
        let read = put_chunk(&some, out);
        let mut list = some.chunks;
        put_chunks(&mut self.pieces, &mut list);
        self.chunks = list;
        Ok(read)
    }
}

// The first chunk of a read is copied out.
fn put_chunk(some: &ReadSome, out: &mut [u8]) -> ReadInto
    requires { AreFew some.now.chunks.items (length out.old) }
    ensures copies { CopiesChunk some.now.chunks.items result out.old out.new }
    ensures last { result.last ≡ some.now.last }
{
    let Some(chunk) = some.chunks.first() else {
        return ReadInto {
            count: 0,
            offset: 0,
            last: some.last,
        };
    };
    let count = chunk.bytes.len();
    out[..count].copy_from_slice(chunk.bytes.as_slice());
    ReadInto {
        count,
        offset: chunk.offset,
        last: some.last,
    }
}
