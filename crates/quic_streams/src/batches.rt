//! Several reads of a stream in one call.

ghost use Rattle.std.specs.Prelude.{List, ◌∷◌, ◌≡◌, ◌≤◌, true, false, Err, IfOk, IfErr};
ghost use Rattle.quic_history.specs.World.{Made, with_freed};
ghost use Rattle.quic_history.specs.History.{Event, Began, From, with_reads};
ghost use Rattle.quic_history.specs.Reading.{Begins, ReadsSome, is_ended, progress_of};
ghost use Rattle.quic_retransmits.specs.Pending.{pending_view};
ghost use Rattle.quic_streams.specs.Room.{rooms};
ghost use Rattle.quic_streams.specs.Shown.{streams_view};

use crate::reading::give_credit;
use crate::recv_stream::RecvStream;
use crate::state::StreamsState;
use quic_assembler::Chunk;
use quic_history::progress::LastAnswer;
use quic_receiving::{ReadableError, ShouldTransmit};
use quic_retransmits::Retransmits;
use quic_values::StreamId;
use std::alloc::Global;

/// What several reads of a stream gave.
#[derive(Debug, Drop)]
pub struct ReadSome {
    /// The chunks, one after another.
    pub chunks: Vec<Chunk>,
    /// Why they are no more.
    pub last: LastAnswer,
    /// Whether a frame was queued that tells the peer what it may send.
    pub transmit: ShouldTransmit,
}

impl RecvStream<'_> {
    /// Opens the stream for reads, in order or as bytes come, asks at most `times` times for a chunk of at most
    /// `max_length` bytes, and ends the reader, which gives the peer credit for what was read (RFC 9000 section 4.2).
    ///
    /// This is [`RecvStream::read`], then calls of `next`, then `finalize`, with room for all chunks made first. A
    /// refusal changes nothing.
    pub fn read_some(
        &mut self,
        ordered: bool,
        max_length: usize,
        times: u16,
    ) -> Result<ReadSome, ReadableError>
        ensures same_state { self.new.state.ghost_name ≡ self.old.state.ghost_name }
        ensures same_pending { self.new.pending.ghost_name ≡ self.old.pending.ghost_name }
        ensures id { self.new.id ≡ self.old.id }
        ensures reads { IfOk result (λ r. ReadsSome (streams_view self.old.state.now) self.old.id max_length times ordered (pending_view self.old.pending.now) r.chunks.items r.last r.transmit.0 (streams_view self.new.state.now) (pending_view self.new.pending.now)) }
        ensures refused { IfErr result (λ error. Begins (streams_view self.old.state.now) self.old.id ordered (Err error) (streams_view self.new.state.now)) }
        ensures refused_pending { IfErr result (λ error. pending_view self.new.pending.now ≡ pending_view self.old.pending.now) }
        ensures from { IfOk result (λ r. (m : Made) (h : List Event) → From m h (streams_view self.old.state.now)
            → From m (with_reads self.old.id max_length ordered r.chunks.items r.last h) (streams_view self.new.state.now)) }
        ensures from_refused { IfErr result (λ error. (m : Made) (h : List Event) → From m h (streams_view self.old.state.now)
            → From m (Began self.old.id ordered (Err error) ∷ h) (streams_view self.new.state.now)) }
    {
        let list = Vec::new(self.state.receive.alloc);
        self.read_some_into(ordered, max_length, times, list)
    }

    /// The same, in the memory of a list that is given: what the list had is dropped first, and a caller that gives back
    /// the list of its last read asks for no memory for a list again. A refusal drops the list.
    pub fn read_some_into(
        &mut self,
        ordered: bool,
        max_length: usize,
        times: u16,
        list: Vec<Chunk>,
    ) -> Result<ReadSome, ReadableError>
        ensures same_state { self.new.state.ghost_name ≡ self.old.state.ghost_name }
        ensures same_pending { self.new.pending.ghost_name ≡ self.old.pending.ghost_name }
        ensures id { self.new.id ≡ self.old.id }
        ensures reads { IfOk result (λ r. ReadsSome (streams_view self.old.state.now) self.old.id max_length times ordered (pending_view self.old.pending.now) r.chunks.items r.last r.transmit.0 (streams_view self.new.state.now) (pending_view self.new.pending.now)) }
        ensures refused { IfErr result (λ error. Begins (streams_view self.old.state.now) self.old.id ordered (Err error) (streams_view self.new.state.now)) }
        ensures refused_pending { IfErr result (λ error. pending_view self.new.pending.now ≡ pending_view self.old.pending.now) }
        ensures from { IfOk result (λ r. (m : Made) (h : List Event) → From m h (streams_view self.old.state.now)
            → From m (with_reads self.old.id max_length ordered r.chunks.items r.last h) (streams_view self.new.state.now)) }
        ensures from_refused { IfErr result (λ error. (m : Made) (h : List Event) → From m h (streams_view self.old.state.now)
            → From m (Began self.old.id ordered (Err error) ∷ h) (streams_view self.new.state.now)) }
    {
        self.state
            .read_some(self.pending, self.id, ordered, max_length, times, list)
    }
}

impl StreamsState {
    // The same, on the state.
    fn read_some(
        &mut self,
        pending: &mut Retransmits,
        id: StreamId,
        ordered: bool,
        max_length: usize,
        times: u16,
        list: Vec<Chunk>,
    ) -> Result<ReadSome, ReadableError>
        ensures reads { IfOk result (λ r. ReadsSome (streams_view self.old) id max_length times ordered (pending_view pending.old) r.chunks.items r.last r.transmit.0 (streams_view self.new) (pending_view pending.new)) }
        ensures refused { IfErr result (λ error. Begins (streams_view self.old) id ordered (Err error) (streams_view self.new)) }
        ensures refused_pending { IfErr result (λ error. pending_view pending.new ≡ pending_view pending.old) }
    {
        let mut chunks = list;
        chunks.clear();
        if chunks.reserve(times as usize).is_err() {
            return Err(ReadableError::OutOfMemory);
        }
        if pending.reserve_window(id).is_err() {
            return Err(ReadableError::OutOfMemory);
        }
        if self.make_stream_room().is_err() {
            return Err(ReadableError::OutOfMemory);
        }
        match self.read_some_in_place(id, ordered, max_length, times, chunks) {
            Ok(reads) => {
                self.free_if_ended(id, &reads.last);
                let transmit = give_credit(self, pending, id, reads.window_due, reads.read);
                Ok(ReadSome {
                    chunks: reads.chunks,
                    last: reads.last,
                    transmit,
                })
            }
            Err(error) => Err(error),
        }
    }

    // The half of a stream is freed where nothing more comes on it. There is room for a stream in its place.
    #[inline]
    fn free_if_ended(&mut self, id: StreamId, last: &LastAnswer)
        requires { 1 ≤ rooms self.old }
        ensures ended { is_ended (progress_of last.now) ≡ true → streams_view self.new ≡ with_freed (streams_view self.old) id }
        ensures going { is_ended (progress_of last.now) ≡ false → streams_view self.new ≡ streams_view self.old }
    {
        if last.progress().is_ended() {
            self.free_receive(id);
        }
    }
}
