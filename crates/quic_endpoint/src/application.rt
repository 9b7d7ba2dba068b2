//! The calls of the application of an end.

ghost use Rattle.std.specs.Prelude.{ℕ, List, ◌∷◌, ◌≡◌, true, false, is_some, None, Ok, Err, IfOk, IfErr, OnErr};
ghost use Rattle.quic_outgoing.specs.Calls.{end_refusal, is_reset_or_gone, told_of_half};
ghost use Rattle.quic_outgoing.specs.Writing.{refusal_to_stay};
ghost use Rattle.quic_history.specs.World.{Made};
ghost use Rattle.quic_history.specs.History.{Event, Sending, Accepted, Stopped, ToldReset, Began, From, with_reads};
ghost use Rattle.quic_history.specs.SendEvents.{OpenedOwn, WroteOwn, FinishedOwn, ResetOwn, SetOwnPriority};
ghost use Rattle.quic_history.specs.Sends.{OpensOwn};
ghost use Rattle.quic_history.specs.Writes.{WritesOwn};
ghost use Rattle.quic_history.specs.Permitting.{with_accepted, acceptable};
ghost use Rattle.quic_history.specs.Reading.{Stops, TellsReset, ReadsSome, Begins};
ghost use Rattle.quic_sending.specs.Source.{slice_lists, without_first};
ghost use Rattle.quic_streams.specs.Connection.{is_shut};
ghost use Rattle.quic_streams.specs.Writing.{IsWrittenAs};
ghost use Rattle.quic_endpoint.specs.Shown.{endpoint_view};
ghost use Rattle.quic_endpoint.specs.Ends.{with_world, OpensAt, WritesAt, FinishesAt, ResetsAt, SetsPriorityAt, StopsReading, TellsResetAt, ReadsAt, RefusesRead, is_handled, not_for_memory};

use crate::endpoint::Endpoint;
use quic_assembler::Chunk;
use quic_receiving::{HandleError, ReadableError};
use quic_sending::{ClosedStream, FinishError, WriteError, Written};
use quic_streams::batches::ReadSome;
use quic_streams::recv_stream::RecvStream;
use quic_streams::send_stream::SendStream;
use quic_streams::streams::{ConnState, Streams};
use quic_values::{Bytes, Dir, OutOfMemory, StreamId, VarInt};

#[tactic(auto, unfolding(crate::specs::Shown::endpoint_view))]
impl Endpoint {
    /// Opens the next stream of a direction, as [`Streams::open`] while the connection is open.
    pub fn open(&mut self, dir: Dir) -> Result<Option<StreamId>, OutOfMemory>
        ensures opens { OpensAt (endpoint_view self.old) dir result (endpoint_view self.new) }
        ensures from { (m : Made) (h : List Event) → From m h (endpoint_view self.old).streams → From m (Sending (OpenedOwn dir false result) ∷ h) (endpoint_view self.new).streams }
    {
        self.open_in(ConnState::Open, dir)
    }

    /// Opens the next stream of a direction, unless the connection is closed, as [`Streams::open`].
    pub fn open_in(&mut self, conn: ConnState, dir: Dir) -> Result<Option<StreamId>, OutOfMemory>
        ensures opens { OpensOwn (endpoint_view self.old).streams dir (is_shut conn) result (endpoint_view self.new).streams }
        ensures pending { (endpoint_view self.new).pending ≡ (endpoint_view self.old).pending }
        ensures from { (m : Made) (h : List Event) → From m h (endpoint_view self.old).streams → From m (Sending (OpenedOwn dir (is_shut conn) result) ∷ h) (endpoint_view self.new).streams }
    {
        Streams::new(&mut self.streams, conn).open(dir)
    }

    /// Accepts the next stream of a direction, as [`Streams::accept`].
    pub fn accept(&mut self, dir: Dir) -> Option<StreamId>
        ensures id { result ≡ acceptable (endpoint_view self.old).streams dir }
        ensures accepted { endpoint_view self.new ≡ with_world (endpoint_view self.old) (with_accepted (endpoint_view self.old).streams dir) }
        ensures from { (m : Made) (h : List Event) → From m h (endpoint_view self.old).streams → From m (Accepted dir result ∷ h) (endpoint_view self.new).streams }
    {
        Streams::new(&mut self.streams, ConnState::Open).accept(dir)
    }

    /// Writes the first of `bytes`, as [`SendStream::write`] while the connection is open.
    pub fn write(&mut self, id: StreamId, bytes: &[u8]) -> Result<usize, WriteError>
        ensures writes { IsWrittenAs result (λ written. WritesAt (endpoint_view self.old) id (slice_lists bytes.now) written (endpoint_view self.new)) }
        ensures memory { result ≡ Err WriteError.OutOfMemory → refusal_to_stay (endpoint_view self.old).streams.out ((endpoint_view self.old).streams.out.halves id) ≡ None }
        ensures from { IsWrittenAs result (λ written. (m : Made) (h : List Event) → From m h (endpoint_view self.old).streams
            → From m (Sending (WroteOwn id (slice_lists bytes.now) false written) ∷ h) (endpoint_view self.new).streams) }
    {
        self.write_in(ConnState::Open, id, bytes)
    }

    /// Writes the first of `bytes`, unless the connection is closed, as [`SendStream::write`].
    pub fn write_in(
        &mut self,
        conn: ConnState,
        id: StreamId,
        bytes: &[u8],
    ) -> Result<usize, WriteError>
        ensures writes { IsWrittenAs result (λ written. (left : List (List ℕ)) × WritesOwn (endpoint_view self.old).streams id (slice_lists bytes.now) (is_shut conn) (endpoint_view self.old).pending written (endpoint_view self.new).streams left (endpoint_view self.new).pending) }
        ensures memory { result ≡ Err WriteError.OutOfMemory → refusal_to_stay (endpoint_view self.old).streams.out ((endpoint_view self.old).streams.out.halves id) ≡ None }
        ensures from { IsWrittenAs result (λ written. (m : Made) (h : List Event) → From m h (endpoint_view self.old).streams
            → From m (Sending (WroteOwn id (slice_lists bytes.now) (is_shut conn) written) ∷ h) (endpoint_view self.new).streams) }
    {
        let (streams, pending) = (&mut self.streams, &mut self.pending);
        SendStream::new(id, streams, pending, conn).write(bytes)
    }

    /// Writes the first bytes of some chunks, as [`SendStream::write_chunks`] while the connection is open.
    pub fn write_chunks(
        &mut self,
        id: StreamId,
        chunks: &mut [Bytes],
    ) -> Result<Written, WriteError>
        ensures writes { WritesAt (endpoint_view self.old) id chunks.old result (endpoint_view self.new) }
        ensures memory { result ≡ Err WriteError.OutOfMemory → refusal_to_stay (endpoint_view self.old).streams.out ((endpoint_view self.old).streams.out.halves id) ≡ None }
        ensures from { (m : Made) (h : List Event) → From m h (endpoint_view self.old).streams → From m (Sending (WroteOwn id chunks.old false result) ∷ h) (endpoint_view self.new).streams }
        ensures left { IfOk result (λ written. chunks.new ≡ without_first written.bytes chunks.old) }
        ensures kept { OnErr result (chunks.new ≡ chunks.old) }
    {
        self.write_chunks_in(ConnState::Open, id, chunks)
    }

    /// Writes the first bytes of some chunks, unless the connection is closed, as [`SendStream::write_chunks`].
    pub fn write_chunks_in(
        &mut self,
        conn: ConnState,
        id: StreamId,
        chunks: &mut [Bytes],
    ) -> Result<Written, WriteError>
        ensures writes { (left : List (List ℕ)) × WritesOwn (endpoint_view self.old).streams id chunks.old (is_shut conn) (endpoint_view self.old).pending result (endpoint_view self.new).streams left (endpoint_view self.new).pending }
        ensures memory { result ≡ Err WriteError.OutOfMemory → refusal_to_stay (endpoint_view self.old).streams.out ((endpoint_view self.old).streams.out.halves id) ≡ None }
        ensures from { (m : Made) (h : List Event) → From m h (endpoint_view self.old).streams → From m (Sending (WroteOwn id chunks.old (is_shut conn) result) ∷ h) (endpoint_view self.new).streams }
        ensures left { IfOk result (λ written. chunks.new ≡ without_first written.bytes chunks.old) }
        ensures kept { OnErr result (chunks.new ≡ chunks.old) }
    {
        let (streams, pending) = (&mut self.streams, &mut self.pending);
        SendStream::new(id, streams, pending, conn).write_chunks(chunks)
    }

    /// Ends a stream, as [`SendStream::finish`].
    pub fn finish(&mut self, id: StreamId) -> Result<(), FinishError>
        ensures finishes { FinishesAt (endpoint_view self.old) id result (endpoint_view self.new) }
        ensures memory { result ≡ Err FinishError.OutOfMemory → end_refusal ((endpoint_view self.old).streams.out.halves id) ≡ None }
        ensures from { (m : Made) (h : List Event) → From m h (endpoint_view self.old).streams → From m (Sending (FinishedOwn id result) ∷ h) (endpoint_view self.new).streams }
    {
        let (streams, pending) = (&mut self.streams, &mut self.pending);
        SendStream::new(id, streams, pending, ConnState::Open).finish()
    }

    /// Gives a stream up, as [`SendStream::reset`].
    pub fn reset(&mut self, id: StreamId, error_code: VarInt) -> Result<(), HandleError>
        ensures resets { ResetsAt (endpoint_view self.old) id error_code result (endpoint_view self.new) }
        ensures memory { result ≡ Err HandleError.OutOfMemory → is_reset_or_gone ((endpoint_view self.old).streams.out.halves id) ≡ false }
        ensures from { (m : Made) (h : List Event) → From m h (endpoint_view self.old).streams → From m (Sending (ResetOwn id error_code result) ∷ h) (endpoint_view self.new).streams }
    {
        let (streams, pending) = (&mut self.streams, &mut self.pending);
        SendStream::new(id, streams, pending, ConnState::Open).reset(error_code)
    }

    /// Sets the priority of a stream, as [`SendStream::set_priority`].
    pub fn set_priority(&mut self, id: StreamId, priority: i32) -> Result<(), HandleError>
        ensures sets { SetsPriorityAt (endpoint_view self.old) id priority result (endpoint_view self.new) }
        ensures memory { result ≡ Err HandleError.OutOfMemory → is_some ((endpoint_view self.old).streams.out.halves id) ≡ true }
        ensures from { (m : Made) (h : List Event) → From m h (endpoint_view self.old).streams → From m (Sending (SetOwnPriority id priority result) ∷ h) (endpoint_view self.new).streams }
    {
        let (streams, pending) = (&mut self.streams, &mut self.pending);
        SendStream::new(id, streams, pending, ConnState::Open).set_priority(priority)
    }

    /// The priority that was set last, as [`SendStream::priority`].
    pub fn priority(&mut self, id: StreamId) -> Result<i32, ClosedStream>
        ensures told { result ≡ told_of_half (λ s. s.priority) ((endpoint_view self.old).streams.out.halves id) }
        ensures same { endpoint_view self.new ≡ endpoint_view self.old }
    {
        let (streams, pending) = (&mut self.streams, &mut self.pending);
        SendStream::new(id, streams, pending, ConnState::Open).priority()
    }

    /// The code of the first STOP_SENDING that was received for a stream, as [`SendStream::stopped`].
    pub fn stopped(&mut self, id: StreamId) -> Result<Option<VarInt>, ClosedStream>
        ensures told { result ≡ told_of_half (λ s. s.stop_reason) ((endpoint_view self.old).streams.out.halves id) }
        ensures same { endpoint_view self.new ≡ endpoint_view self.old }
    {
        let (streams, pending) = (&mut self.streams, &mut self.pending);
        SendStream::new(id, streams, pending, ConnState::Open).stopped()
    }

    /// Stops a stream, as [`RecvStream::stop`], and queues MAX_STREAMS where it is due, unless memory ran out.
    pub fn stop(&mut self, id: StreamId, error_code: VarInt) -> Result<(), HandleError>
        ensures stops { StopsReading (endpoint_view self.old) id error_code result (endpoint_view self.new) }
        ensures from { (m : Made) (h : List Event) → From m h (endpoint_view self.old).streams → From m (Stopped id error_code result ∷ h) (endpoint_view self.new).streams }
    {
        let answer = self.stop_stream(id, error_code);
        self.tell_counts_if(is_handled(&answer));
        answer
    }

    // The same, with what it queues itself.
    fn stop_stream(&mut self, id: StreamId, error_code: VarInt) -> Result<(), HandleError>
        ensures { Stops (endpoint_view self.old).streams id error_code (endpoint_view self.old).pending result (endpoint_view self.new).streams (endpoint_view self.new).pending }
    {
        let (streams, pending) = (&mut self.streams, &mut self.pending);
        RecvStream::new(id, streams, pending).stop(error_code)
    }

    /// Asks for the code with which the peer gave a stream up, as [`RecvStream::received_reset`], and queues MAX_STREAMS
    /// where it is due, unless memory ran out.
    pub fn received_reset(&mut self, id: StreamId) -> Result<Option<VarInt>, HandleError>
        ensures tells { TellsResetAt (endpoint_view self.old) id result (endpoint_view self.new) }
        ensures from { (m : Made) (h : List Event) → From m h (endpoint_view self.old).streams → From m (ToldReset id result ∷ h) (endpoint_view self.new).streams }
    {
        let answer = self.take_reset(id);
        self.tell_counts_if(is_handled(&answer));
        answer
    }

    // The same, with what it queues itself.
    fn take_reset(&mut self, id: StreamId) -> Result<Option<VarInt>, HandleError>
        ensures { TellsReset (endpoint_view self.old).streams id (endpoint_view self.old).pending result (endpoint_view self.new).streams (endpoint_view self.new).pending }
    {
        let (streams, pending) = (&mut self.streams, &mut self.pending);
        RecvStream::new(id, streams, pending).received_reset()
    }

    /// Reads a stream, as [`RecvStream::read_some`], and queues MAX_STREAMS where it is due, unless there was no memory to
    /// open the reader.
    pub fn read(
        &mut self,
        id: StreamId,
        ordered: bool,
        max_length: usize,
        times: u16,
    ) -> Result<ReadSome, ReadableError>
        ensures reads { IfOk result (λ r. ReadsAt (endpoint_view self.old) id max_length times ordered r.chunks.items r.last r.transmit.0 (endpoint_view self.new)) }
        ensures refused { IfErr result (λ error. RefusesRead (endpoint_view self.old) id ordered error (endpoint_view self.new)) }
        ensures from { IfOk result (λ r. (m : Made) (h : List Event) → From m h (endpoint_view self.old).streams
            → From m (with_reads id max_length ordered r.chunks.items r.last h) (endpoint_view self.new).streams) }
        ensures from_refused { IfErr result (λ error. (m : Made) (h : List Event) → From m h (endpoint_view self.old).streams
            → From m (Began id ordered (Err error) ∷ h) (endpoint_view self.new).streams) }
    {
        let list = Vec::new(self.alloc);
        self.read_reusing(id, ordered, max_length, times, list)
    }

    /// Reads a stream as [`Endpoint::read`] does, and puts the chunks into `list`, whose elements are dropped first. An
    /// error drops the list.
    pub fn read_reusing(
        &mut self,
        id: StreamId,
        ordered: bool,
        max_length: usize,
        times: u16,
        list: Vec<Chunk>,
    ) -> Result<ReadSome, ReadableError>
        ensures reads { IfOk result (λ r. ReadsAt (endpoint_view self.old) id max_length times ordered r.chunks.items r.last r.transmit.0 (endpoint_view self.new)) }
        ensures refused { IfErr result (λ error. RefusesRead (endpoint_view self.old) id ordered error (endpoint_view self.new)) }
        ensures from { IfOk result (λ r. (m : Made) (h : List Event) → From m h (endpoint_view self.old).streams
            → From m (with_reads id max_length ordered r.chunks.items r.last h) (endpoint_view self.new).streams) }
        ensures from_refused { IfErr result (λ error. (m : Made) (h : List Event) → From m h (endpoint_view self.old).streams
            → From m (Began id ordered (Err error) ∷ h) (endpoint_view self.new).streams) }
    {
        match self.read_stream(id, ordered, max_length, times, list) {
            // The read queued MAX_STREAMS if it was due.
            Ok(some) => Ok(some),
            Err(error) => {
                self.tell_counts_if(not_for_memory(error));
                Err(error)
            }
        }
    }

    // Reads a stream, and leaves out what is queued where the read is refused.
    fn read_stream(
        &mut self,
        id: StreamId,
        ordered: bool,
        max_length: usize,
        times: u16,
        list: Vec<Chunk>,
    ) -> Result<ReadSome, ReadableError>
        ensures reads { IfOk result (λ r. ReadsSome (endpoint_view self.old).streams id max_length times ordered (endpoint_view self.old).pending r.chunks.items r.last r.transmit.0 (endpoint_view self.new).streams (endpoint_view self.new).pending) }
        ensures refused { IfErr result (λ error. Begins (endpoint_view self.old).streams id ordered (Err error) (endpoint_view self.new).streams) }
        ensures refused_pending { IfErr result (λ error. (endpoint_view self.new).pending ≡ (endpoint_view self.old).pending) }
        ensures from { IfOk result (λ r. (m : Made) (h : List Event) → From m h (endpoint_view self.old).streams
            → From m (with_reads id max_length ordered r.chunks.items r.last h) (endpoint_view self.new).streams) }
        ensures from_refused { IfErr result (λ error. (m : Made) (h : List Event) → From m h (endpoint_view self.old).streams
            → From m (Began id ordered (Err error) ∷ h) (endpoint_view self.new).streams) }
    {
        let (streams, pending) = (&mut self.streams, &mut self.pending);
        RecvStream::new(id, streams, pending).read_some_into(ordered, max_length, times, list)
    }
}

// Whether a call was not refused for lack of memory.
fn is_handled<T>(answer: &Result<T, HandleError>) -> bool
    ensures { result ≡ is_handled answer.now }
{
    !matches!(answer, Err(HandleError::OutOfMemory))
}

// Whether a reader was refused, and not for lack of memory.
fn not_for_memory(error: ReadableError) -> bool
    ensures { result ≡ not_for_memory error }
{
    !matches!(error, ReadableError::OutOfMemory)
}
