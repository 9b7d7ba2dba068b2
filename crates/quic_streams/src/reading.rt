//! Reading of streams.

ghost use Rattle.std.specs.Prelude.{◌≡◌, ◌+◌, ◌<◌, ◌≤◌, ◌^◌, true, Err, OnOk, List, ◌∷◌};
ghost use Rattle.quic_streams.specs.Shown.{streams_view};
ghost use Rattle.quic_history.specs.World.{Made, with_credit};
ghost use Rattle.quic_retransmits.specs.Pending.{pending_view};
ghost use Rattle.quic_history.specs.Reading.{Begins, Nexts, ReadsHalf, is_reading, needed, pending_after, is_transmit_due, is_window_queued, progress_after, given_by};
ghost use Rattle.quic_history.specs.History.{Event, Ended, From, given, with_next};
ghost use Rattle.quic_streams.specs.HalfReads.{credit_queued, is_credit_queued};
ghost use Rattle.quic_streams.specs.Room.{rooms};
ghost use Rattle.quic_retransmits.specs.Queueing.{window_rooms};

use crate::state::StreamsState;
use quic_assembler::Chunk;
use quic_history::progress::Progress;
use quic_receiving::{ReadError, ReadableError, ShouldTransmit};
use quic_retransmits::Retransmits;
use quic_values::{StreamId, VarInt};

/// The chunks of a stream, one after another.
///
/// What was read gives credit to the peer once [`Chunks::finalize`] is called, or this is dropped.
pub struct Chunks<'a> {
    streams: &'a mut StreamsState,
    pending: &'a mut Retransmits,
    id: StreamId,
    ordered: bool,
    progress: Progress,
    // How many bytes were read.
    read: u64,
    ghost reading: { is_reading progress ((streams_view streams.now).receive id) ordered read ≡ true },
    ghost room: { needed progress ≤ rooms streams.now },
    ghost window_room: { needed progress ≤ window_rooms pending.now id },
}

impl<'a> Chunks<'a> {
    // A reader of a stream that was opened for it.
    pub(crate) fn new(
        streams: &'a mut StreamsState,
        pending: &'a mut Retransmits,
        id: StreamId,
        ordered: bool,
    ) -> Chunks<'a>
        requires reading { is_reading Progress.Readable ((streams_view streams.old).receive id) ordered 0 ≡ true }
        requires room { 1 ≤ rooms streams.old }
        requires window_room { 1 ≤ window_rooms pending.old id }
        ensures same_streams { result.streams.ghost_name ≡ streams.entry.ghost_name }
        ensures same_pending { result.pending.ghost_name ≡ pending.entry.ghost_name }
        ensures streams { result.streams.now ≡ streams.old }
        ensures pending { result.pending.now ≡ pending.old }
        ensures id { result.id ≡ id }
        ensures ordered { result.ordered ≡ ordered }
        ensures progress { result.progress ≡ Progress.Readable }
        ensures read { result.read ≡ 0 }
    {
        Chunks {
            streams,
            pending,
            id,
            ordered,
            progress: Progress::Readable,
            read: 0,
        }
    }

    /// Gives the next chunk, of at most `max_length` bytes: `None` at the end of the stream.
    ///
    /// The end and a reset free the stream, and are told again if asked again.
    #[tactic(auto, using(quic_history::proofs::ReadingSteps::next_steps))]
    pub fn next(&mut self, max_length: usize) -> Result<Option<Chunk>, ReadError>
        ensures same_streams { self.new.streams.ghost_name ≡ self.old.streams.ghost_name }
        ensures same_pending { self.new.pending.ghost_name ≡ self.old.pending.ghost_name }
        ensures pending { self.new.pending.now ≡ self.old.pending.now }
        ensures id { self.new.id ≡ self.old.id }
        ensures ordered { self.new.ordered ≡ self.old.ordered }
        ensures next { Nexts self.old.progress (streams_view self.old.streams.now) self.old.id max_length self.old.ordered result (streams_view self.new.streams.now) }
        ensures progress { self.new.progress ≡ progress_after result }
        ensures read { self.new.read ≡ self.old.read + given_by result }
        ensures from { (m : Made) (h : List Event) → From m h (streams_view self.old.streams.now)
            → From m (with_next self.old.progress self.old.id max_length self.old.ordered result h) (streams_view self.new.streams.now) }
    {
        if self.progress.is_ended() {
            return self.progress.last_answer();
        }
        let answer = self
            .streams
            .read_half(self.id, max_length, self.ordered, self.read);
        self.read += given(&answer);
        self.progress = progress_after(&answer);
        answer
    }

    /// Gives the peer credit for what was read, and queues the frames that tell it. Takes no memory. Answers whether
    /// one was queued.
    pub fn finalize(self) -> ShouldTransmit
        ensures streams { streams_view self.exit.0.now ≡ with_credit (streams_view self.entry.streams.now) self.entry.read }
        ensures pending { pending_view self.exit.1.0.now ≡ pending_after self.entry.progress (streams_view self.entry.streams.now) self.entry.id self.entry.read (pending_view self.entry.pending.now) }
        ensures transmit { result.0 ≡ is_transmit_due self.entry.progress (streams_view self.entry.streams.now) self.entry.id self.entry.read }
        ensures from { (m : Made) (h : List Event) → From m h (streams_view self.entry.streams.now) → self.entry.read ≡ given h
            → From m (Ended self.entry.id self.entry.read ∷ h) (streams_view self.exit.0.now) }
    {
        let Chunks {
            streams,
            pending,
            id,
            ordered: _,
            progress,
            read,
        } = self;
        finish(streams, pending, id, progress, read)
    }
}

impl Drop for Chunks<'_> {
    fn drop(self)
        ensures streams { streams_view self.exit.0.now ≡ with_credit (streams_view self.entry.streams.now) self.entry.read }
        ensures pending { pending_view self.exit.1.0.now ≡ pending_after self.entry.progress (streams_view self.entry.streams.now) self.entry.id self.entry.read (pending_view self.entry.pending.now) }
        ensures from { (m : Made) (h : List Event) → From m h (streams_view self.entry.streams.now) → self.entry.read ≡ given h
            → From m (Ended self.entry.id self.entry.read ∷ h) (streams_view self.exit.0.now) }
    {
        let Chunks {
            streams,
            pending,
            id,
            ordered: _,
            progress,
            read,
        } = self;
        let _ = finish(streams, pending, id, progress, read);
    }
}

// How many bytes an answer gives.
fn given(answer: &Result<Option<Chunk>, ReadError>) -> u64
    ensures { result ≡ given_by answer.now }
{
    match answer {
        Ok(Some(chunk)) => chunk.bytes.len() as u64,
        Ok(None) => 0,
        Err(_) => 0,
    }
}

// Where a reader is after an answer.
fn progress_after(answer: &Result<Option<Chunk>, ReadError>) -> Progress
    ensures { result ≡ progress_after answer.now }
{
    match answer {
        Ok(Some(_)) => Progress::Readable,
        Ok(None) => Progress::Finished,
        Err(error) => progress_after_error(*error),
    }
}

// Where a reader is after a read that was refused.
fn progress_after_error(error: ReadError) -> Progress
    ensures { result ≡ progress_after (Err error) }
{
    match error {
        ReadError::Blocked => Progress::Readable,
        ReadError::Reset(code) => Progress::Reset(code),
        ReadError::OutOfMemory => Progress::Readable,
    }
}

// A reader ended.
pub(crate) fn finish(
    streams: &mut StreamsState,
    pending: &mut Retransmits,
    id: StreamId,
    progress: Progress,
    read: u64,
) -> ShouldTransmit
    requires { needed progress ≤ window_rooms pending.old id }
    ensures streams { streams_view streams.new ≡ with_credit (streams_view streams.old) read }
    ensures rooms { rooms streams.new ≡ rooms streams.old }
    ensures pending { pending_view pending.new ≡ pending_after progress (streams_view streams.old) id read (pending_view pending.old) }
    ensures window_room { needed progress ≤ window_rooms pending.new id }
    ensures transmit { result.0 ≡ is_transmit_due progress (streams_view streams.old) id read }
{
    let window_due = streams.is_window_queued(progress, id);
    give_credit(streams, pending, id, window_due, read)
}

// Gives credit for so many bytes that were read, and queues the frames that tell it: MAX_STREAM_DATA where that is due.
pub(crate) fn give_credit(
    streams: &mut StreamsState,
    pending: &mut Retransmits,
    id: StreamId,
    window_due: bool,
    read: u64,
) -> ShouldTransmit
    requires { window_due ≡ true → 1 ≤ window_rooms pending.old id }
    ensures streams { streams_view streams.new ≡ with_credit (streams_view streams.old) read }
    ensures rooms { rooms streams.new ≡ rooms streams.old }
    ensures pending { pending_view pending.new ≡ credit_queued window_due (streams_view streams.old) id read (pending_view pending.old) }
    ensures window_room { 1 ≤ window_rooms pending.old id → 1 ≤ window_rooms pending.new id }
    ensures transmit { result.0 ≡ is_credit_queued window_due (streams_view streams.old) read }
{
    let streams_due = streams.queue_max_stream_id(pending);
    pending.queue_window(id, window_due);
    let data_due = streams.add_read_credits(read).should_transmit();
    pending.queue_max_data(data_due);
    ShouldTransmit(streams_due | (window_due | data_due))
}

#[tactic(auto, using(quic_history::proofs::WorldSteps::world_steps))]
impl StreamsState {
    // Opens a stream for a reader, with the room that its end may need.
    pub(crate) fn begin(
        &mut self,
        pending: &mut Retransmits,
        id: StreamId,
        ordered: bool,
    ) -> Result<(), ReadableError>
        ensures begins { Begins (streams_view self.old) id ordered result (streams_view self.new) }
        ensures pending { pending_view pending.new ≡ pending_view pending.old }
        ensures reading { OnOk result (is_reading Progress.Readable ((streams_view self.new).receive id) ordered 0 ≡ true) }
        ensures rooms { OnOk result (1 ≤ rooms self.new) }
        ensures window_room { OnOk result (1 ≤ window_rooms pending.new id) }
    {
        if pending.reserve_window(id).is_err() {
            return Err(ReadableError::OutOfMemory);
        }
        if self.make_stream_room().is_err() {
            return Err(ReadableError::OutOfMemory);
        }
        self.ask_in_place(id, ordered)
    }

    // Whether MAX_STREAM_DATA is to be queued at the end of a reader.
    fn is_window_queued(&self, progress: Progress, id: StreamId) -> bool
        ensures { result ≡ is_window_queued progress (streams_view self.now) ((streams_view self.now).receive id) }
    {
        match progress {
            Progress::Readable => self.is_window_due(id),
            Progress::Reset(_) => false,
            Progress::Finished => false,
        }
    }

    // Reads the half of a stream that was opened for a reader which read so many bytes. It is freed at its end and
    // after a reset.
    #[inline]
    pub(crate) fn read_half(
        &mut self,
        id: StreamId,
        max_length: usize,
        ordered: bool,
        read: u64,
    ) -> Result<Option<Chunk>, ReadError>
        requires reading { is_reading Progress.Readable ((streams_view self.old).receive id) ordered read ≡ true }
        requires rooms { 1 ≤ rooms self.old }
        ensures reads { ReadsHalf (streams_view self.old) id max_length ordered result (streams_view self.new) }
        ensures reading { is_reading (progress_after result) ((streams_view self.new).receive id) ordered (read + given_by result) ≡ true }
        ensures rooms { needed (progress_after result) ≤ rooms self.new }
        ensures bound { read + given_by result < 2 ^ 64 }
    {
        let answer = self.read_in_place(id, max_length, ordered);
        if progress_after(&answer).is_ended() {
            self.free_receive(id);
        }
        answer
    }
}
