//! The receive half of a stream.

ghost use Rattle.std.specs.Prelude.{◌≡◌, ◌+◌, ◌-◌, ◌<◌, ◌≤◌, ◌^◌, ◌&&◌, ◌||◌, ℕ, length, not, true, false, None, Some, is_none, is_some, max, nat_lt, if◌then◌else◌, SomeIff, IfOk, IfErr, OnOk, Ok};
ghost use Rattle.quic_receiving.specs.Half.{IsHalf, new_half, Refused, Taken, verdict, reset_verdict, is_unfit, is_beyond, is_open, is_all, window_end, is_window_due};
ghost use Rattle.quic_values.specs.Offsets.{is_past};
ghost use Rattle.quic_ordered.specs.Assembly.{TellsPieces};
ghost use Rattle.quic_receiving.specs.State.{known_size, reset_code_of};
ghost use Rattle.quic_receiving.specs.Calls.{IsFresh, Ingests, buffer_answer, StopsHalf, Resets, Reads, Orders};

mod queries;

use crate::errors::ReadError;
use crate::state::RecvState;
use crate::transmit::ShouldTransmit;
use quic_assembler::{Chunk, EnsureError, InsertError};
use quic_ordered::Assembler;
use quic_sending::ClosedStream;
use quic_values::VarInt;
use quic_wire::{ReceiveError, TransportError, frame};
use std::alloc::Global;
use std::marker::Model;

/// The receive half of a stream: the data that came and were not read, how much may come, and what is known of the end
/// (RFC 9000 section 3.2).
#[derive(Drop)]
pub struct Recv {
    state: RecvState,
    assembler: Assembler,
    sent_max_stream_data: u64,
    // The highest offset received.
    end: u64,
    stopped: bool,
}

impl Model for Recv {
    ghost use Rattle.quic_receiving.specs.Half.{Half, IsHalf};
    ghost use Rattle.quic_receiving.specs.State.{known_size, reset_code_of};

    ghost Value = { Half };

    ghost view = { λ r. record {
      buffer = r.assembler;
      size = known_size r.state;
      reset = reset_code_of r.state;
      end = r.end;
      sent_max = r.sent_max_stream_data;
      stopped = r.stopped;
    } };

    ghost invariant = { λ r. IsHalf (record {
      buffer = r.assembler;
      size = known_size r.state;
      reset = reset_code_of r.state;
      end = r.end;
      sent_max = r.sent_max_stream_data;
      stopped = r.stopped;
    }) };
}

impl Recv {
    /// A half to which nothing came, in ordered mode. `initial_max_data` is how many bytes the peer was permitted to
    /// send when the stream began. Takes no memory.
    pub fn new(alloc: Global, initial_max_data: u64) -> Self
        requires { initial_max_data < 2 ^ 62 }
        ensures fresh { IsFresh initial_max_data result }
        ensures new { result ≡ new_half initial_max_data }
    {
        Recv {
            state: RecvState::default(),
            assembler: Assembler::new(alloc),
            sent_max_stream_data: initial_max_data,
            end: 0,
            stopped: false,
        }
    }

    /// Makes it as [`Recv::new`] does.
    pub fn reinit(&mut self, initial_max_data: u64)
        requires { initial_max_data < 2 ^ 62 }
        ensures { IsFresh initial_max_data self.new }
    {
        self.assembler.reinit();
        self.state = RecvState::default();
        self.end = 0;
        self.sent_max_stream_data = initial_max_data;
        self.stopped = false;
    }

    /// Takes a STREAM frame (RFC 9000 sections 4.1, 4.5 and 19.8), of a payload of `payload_len` bytes. `received` is
    /// how many bytes of all streams the connection received, of `max_data` that it permits.
    ///
    /// Answers how many bytes lie above the highest offset received before, and whether the frame closes a stopped
    /// half. Where too many pieces are held (an internal error), or there is no memory to compact them, the frame is
    /// kept and counts all the same: the new bytes are then what `end` grew by. Other refusals change nothing. The data
    /// keep the whole payload alive, so that this is their allocation size.
    #[inline]
    pub fn ingest(
        &mut self,
        frame: frame::Stream,
        payload_len: usize,
        received: u64,
        max_data: u64,
    ) -> Result<(u64, bool), ReceiveError>
        requires running { self.old.reset ≡ None }
        requires within { length frame.bytes ≤ payload_len }
        ensures ingests { Ingests self.old frame.offset frame.bytes frame.fin received max_data result self.new }
        ensures accounts { self.old.stopped ≡ false → verdict self.old frame.offset (length frame.bytes) frame.fin received max_data ≡ Taken → TellsPieces self.old.buffer frame.offset frame.bytes payload_len (buffer_answer result) self.new.buffer }
        ensures grows { self.old.end ≤ self.new.end }
        ensures permitted { self.old.end < self.new.end → received + (self.new.end - self.old.end) ≤ max_data }
        ensures sound { IsHalf self.new }
    {
        let len = frame.bytes.len();
        let end = self.judge(frame.offset, len, frame.fin, received, max_data)?;
        let new_bytes = end.saturating_sub(self.end);
        if self.stopped {
            count(&mut self.state, &mut self.end, end, frame.fin);
            return Ok((new_bytes, frame.fin));
        }
        match self
            .assembler
            .insert(frame.offset, frame.bytes, payload_len)
        {
            Ok(()) => {
                count(&mut self.state, &mut self.end, end, frame.fin);
                Ok((new_bytes, false))
            }
            Err(InsertError::TooManyChunks) => {
                count(&mut self.state, &mut self.end, end, frame.fin);
                let error = TransportError::internal_error("too many gaps in stream buffer");
                Err(ReceiveError::Transport(error))
            }
            Err(InsertError::CompactionMemory) => {
                count(&mut self.state, &mut self.end, end, frame.fin);
                Err(ReceiveError::CompactionMemory)
            }
            Err(InsertError::OutOfMemory) => Err(ReceiveError::OutOfMemory),
        }
    }

    // Where a frame ends, or the error that it is.
    #[inline]
    fn judge(
        &self,
        offset: u64,
        count: usize,
        fin: bool,
        received: u64,
        max_data: u64,
    ) -> Result<u64, TransportError>
        ensures end { IfOk result (λ end. end ≡ offset + count) }
        ensures ok { IfOk result (λ _. verdict self.now offset count fin received max_data ≡ Taken) }
        ensures err { IfErr result (λ error. verdict self.now offset count fin received max_data ≡ Refused error.code) }
    {
        let Some(end) = end_of(offset, count) else {
            return Err(TransportError::flow_control_error("maximum stream offset too large"));
        };
        if is_past(self.state.final_size(), end, fin) {
            return Err(TransportError::final_size_error("not the final size"));
        }
        if fin && end < self.end {
            return Err(TransportError::final_size_error("lower than high water mark"));
        }
        if self.is_beyond(end, received, max_data) {
            return Err(TransportError::flow_control_error("more than permitted"));
        }
        Ok(end)
    }

    // Whether data up to an offset go above a limit.
    #[inline]
    fn is_beyond(&self, end: u64, received: u64, max_data: u64) -> bool
        ensures { result ≡ is_beyond self.now.end self.now.sent_max end received max_data }
    {
        if end > self.sent_max_stream_data {
            return true;
        }
        match received.checked_add(end.saturating_sub(self.end)) {
            Some(total) => total > max_data,
            None => true,
        }
    }

    /// The application wants no more of the stream. Answers how many bytes it gives credit for, and whether
    /// STOP_SENDING is of use (RFC 9000 section 3.5). What is held is let go.
    pub fn stop(&mut self) -> Result<(u64, ShouldTransmit), ClosedStream>
        ensures { StopsHalf self.old result self.new }
    {
        if self.stopped {
            return Err(ClosedStream);
        }
        self.stopped = true;
        self.assembler.clear();
        let receiving = self.is_receiving();
        let credit = if receiving {
            self.end - self.assembler.bytes_read()
        } else {
            0
        };
        Ok((credit, ShouldTransmit(receiving)))
    }

    /// Takes a RESET_STREAM (RFC 9000 sections 4.5 and 19.4). Answers whether it is the first: then what is held is let
    /// go, and the final size counts as received. A further one changes nothing. `received` and `max_data` are as for
    /// [`Recv::ingest`].
    pub fn reset(
        &mut self,
        error_code: VarInt,
        final_offset: VarInt,
        received: u64,
        max_data: u64,
    ) -> Result<bool, TransportError>
        ensures resets { Resets self.old error_code final_offset received max_data result self.new }
        ensures grows { self.old.end ≤ self.new.end }
        ensures permitted { self.old.end < self.new.end → received + (self.new.end - self.old.end) ≤ max_data }
        ensures sound { IsHalf self.new }
    {
        let size = final_offset.into_inner();
        if is_unfit(self.state.final_size(), self.end, size) {
            return Err(TransportError::final_size_error("inconsistent value"));
        }
        if self.is_beyond(size, received, max_data) {
            return Err(TransportError::flow_control_error("more than permitted"));
        }
        if !self.is_receiving() {
            return Ok(false);
        }
        self.state = RecvState::ResetRecvd { size, error_code };
        self.end = size;
        self.assembler.clear();
        Ok(true)
    }

    /// The limit to announce in a MAX_STREAM_DATA frame (RFC 9000 section 4.1) where `window` bytes may wait to be
    /// read, and whether it is worth a frame: more data may come and are wanted, and the limit is above the last one
    /// sent by an eighth of the window or more. Where it is not, it is sent again only for a frame that was lost.
    #[inline]
    pub fn max_stream_data(&self, window: u64) -> (u64, ShouldTransmit)
        ensures limit { result.0 ≡ window_end self.now window }
        ensures due { result.1.0 ≡ is_window_due self.now window }
        ensures bound { result.0 < 2 ^ 62 }
    {
        let limit = self
            .assembler
            .bytes_read()
            .saturating_add(window)
            .min(VarInt::MAX.into_inner());
        let gain = limit.saturating_sub(self.sent_max_stream_data);
        let is_due = self.can_send_flow_control() && gain >= window / 8;
        (limit, ShouldTransmit(is_due))
    }

    /// A MAX_STREAM_DATA frame with this limit was sent.
    pub fn record_sent_max_stream_data(&mut self, sent_value: u64)
        requires { sent_value < 2 ^ 62 }
        ensures { self.new ≡ record self.old { sent_max = max self.old.sent_max sent_value } }
    {
        self.sent_max_stream_data = self.sent_max_stream_data.max(sent_value);
    }

    /// Asks for a mode of reading. There is no way back from unordered reads.
    pub fn ensure_ordering(&mut self, ordered: bool) -> Result<(), EnsureError>
        ensures orders { Orders self.old ordered result self.new }
        ensures same { ordered ≡ self.old.buffer.ordered → result ≡ Ok tt }
        ensures mode { OnOk result (self.new.buffer.ordered ≡ ordered) }
    {
        self.assembler.ensure_ordering(ordered)
    }

    /// Gives the next bytes, at most `max_length`: in ordered mode those that follow what was read, in unordered mode
    /// those of the lowest offset. `None` where the stream ended and all was read. `ordered` is the mode.
    ///
    /// Of a stream that was reset nothing is given (RFC 9000 section 3.2). Memory is wanted only to cut a chunk, so only
    /// where more than `max_length` bytes in a row are at hand.
    #[inline]
    pub fn next(&mut self, max_length: usize, ordered: bool) -> Result<Option<Chunk>, ReadError>
        requires { ordered ≡ self.old.buffer.ordered }
        ensures reads { Reads self.old max_length result self.new }
        ensures mode { self.new.buffer.ordered ≡ ordered }
    {
        match self.reset_code() {
            Some(code) => Err(ReadError::Reset(code)),
            None => self.next_held(max_length, ordered),
        }
    }

    // The next bytes of a half that was not reset.
    #[inline]
    fn next_held(&mut self, max_length: usize, ordered: bool) -> Result<Option<Chunk>, ReadError>
        requires mode { ordered ≡ self.old.buffer.ordered }
        requires running { self.old.reset ≡ None }
        ensures reads { Reads self.old max_length result self.new }
        ensures mode { self.new.buffer.ordered ≡ ordered }
    {
        if let Some(chunk) = self.assembler.read(max_length, ordered)? {
            return Ok(Some(chunk));
        }
        if is_all(self.state.final_size(), self.assembler.bytes_read()) {
            return Ok(None);
        }
        Err(ReadError::Blocked)
    }
}

// Counts a frame that ends there.
#[inline]
fn count(state: &mut RecvState, high: &mut u64, end: u64, fin: bool)
    requires { reset_code_of state.old ≡ None }
    ensures high { high.new ≡ max high.old end }
    ensures size { known_size state.new ≡ (if fin then Some end else known_size state.old) }
    ensures code { reset_code_of state.new ≡ reset_code_of state.old }
{
    *high = (*high).max(end);
    if fin {
        *state = RecvState::Recv { size: Some(end) };
    }
}

// Where a frame ends, unless that is 2^62 or more.
#[inline]
fn end_of(offset: u64, count: usize) -> Option<u64>
    ensures { SomeIff result (offset + count < 2 ^ 62) (offset + count) }
{
    let end = offset.checked_add(count as u64)?;
    if end > VarInt::MAX.into_inner() {
        return None;
    }
    Some(end)
}

// Whether a frame that ends there lies past a final size, or ends the stream elsewhere.
#[inline]
fn is_past(final_size: Option<u64>, end: u64, fin: bool) -> bool
    ensures { result ≡ is_past final_size end fin }
{
    match final_size {
        Some(size) => end > size || fin && end != size,
        None => false,
    }
}

// Whether a final size differs from the known one, or is below the highest offset received.
fn is_unfit(final_size: Option<u64>, high: u64, size: u64) -> bool
    ensures { result ≡ is_unfit final_size high size }
{
    match final_size {
        Some(known) => size != known,
        None => size < high,
    }
}

// Whether so many bytes are all that there are.
#[inline]
fn is_all(final_size: Option<u64>, count: u64) -> bool
    ensures { result ≡ is_all final_size count }
{
    match final_size {
        Some(size) => size == count,
        None => false,
    }
}
