ghost use Rattle.std.specs.Prelude.{◌≡◌, ◌+◌, ◌-◌, ◌<◌, ◌≤◌, ◌^◌, ◌↔◌, ◌==◌, ℕ, List, [], ◌++◌, ◌&&◌, ◌||◌, not, IsTrue, IfOk, OnOk, OnErr, IfErr, length, min, true, false, if◌then◌else◌, Some, None, Option, is_none, unwrap_or, ◌⊎◌, pos};
ghost use Rattle.quic_ranges.specs.Runs.{lies_in};
ghost use Rattle.quic_sending.specs.Buffer.{HasCuts, IsSound, HasDue, HasNoneDue, is_acked, is_lost, total_length, uncovered};
ghost use Rattle.quic_sending.specs.Source.{Appends, rest_of};

use crate::send_buffer::SendBuffer;
use crate::source::BytesSource;
use quic_values::{OutOfMemory, VarInt};
use std::alloc::Global;
use std::io;
use std::ops::Range;
use thiserror::Error;

/// What the send half of a stream is in (RFC 9000 section 3.1).
#[derive(Clone, Copy, Debug, PartialEq, Eq)]
pub enum SendState {
    /// New data may be written.
    Ready,
    /// It was finished: no new data is written, what was lost is sent again.
    DataSent {
        /// Whether the end was acknowledged.
        finish_acked: bool,
    },
    /// It was reset: nothing but the reset is sent.
    ResetSent,
}

/// How much a write took.
#[derive(Clone, Copy, Debug, Default, PartialEq, Eq)]
pub struct Written {
    /// How many bytes were written.
    pub bytes: usize,
    /// How many chunks were taken whole. A chunk that was cut does not count.
    pub chunks: usize,
}

/// Why a write took nothing.
#[derive(Clone, Copy, Debug, Error, PartialEq, Eq, PartialOrd, Ord, Hash)]
pub enum WriteError {
    /// A limit of the peer or of the connection leaves no room.
    #[error("unable to accept further writes")]
    Blocked,
    /// The peer sent STOP_SENDING with this code.
    #[error("stopped by peer: code {0}")]
    Stopped(quic_values::VarInt),
    /// The stream was not opened, or it was finished or reset.
    #[error("closed stream")]
    ClosedStream,
    /// No memory was there. Nothing was taken.
    #[error("out of memory")]
    OutOfMemory,
}

impl From<OutOfMemory> for WriteError {
    ghost use Rattle.std.specs.Prelude.{◌≡◌};
    ghost use Rattle.quic_sending.specs.declared.send.WriteError.TheVariants as write_error;

    ghost from_gives = { λ _ error. error ≡ write_error.OutOfMemory };

    fn from(_error: OutOfMemory) -> WriteError {
        WriteError::OutOfMemory
    }
}

/// Why a stream was not finished.
#[derive(Clone, Copy, Debug, Error, PartialEq, Eq)]
pub enum FinishError {
    /// The peer sent STOP_SENDING with this code.
    #[error("stopped by peer: code {0}")]
    Stopped(quic_values::VarInt),
    /// The stream was not opened, or it was finished or reset.
    #[error("closed stream")]
    ClosedStream,
    /// No memory was there. Nothing was finished.
    #[error("out of memory")]
    OutOfMemory,
}

impl From<OutOfMemory> for FinishError {
    ghost use Rattle.std.specs.Prelude.{◌≡◌};
    ghost use Rattle.quic_sending.specs.declared.send.FinishError.TheVariants as finish_error;

    ghost from_gives = { λ _ error. error ≡ finish_error.OutOfMemory };

    fn from(_error: OutOfMemory) -> FinishError {
        FinishError::OutOfMemory
    }
}

/// The stream was not opened, or it is closed.
#[derive(Clone, Copy, Debug, Default, Error, PartialEq, Eq, PartialOrd, Ord, Hash)]
#[error("closed stream")]
pub struct ClosedStream;

impl From<ClosedStream> for io::Error {
    ghost use Rattle.std.specs.Prelude.{◌≡◌};
    ghost use Rattle.std.specs.IoError.{error_kind};
    ghost use Rattle.std.specs.declared.io.ErrorKind.TheVariants.{NotConnected};

    ghost from_gives = { λ _ error. error_kind error ≡ NotConnected };

    fn from(_error: ClosedStream) -> io::Error {
        io::Error::from(io::ErrorKind::NotConnected)
    }
}

/// The send half of a stream.
#[derive(Drop)]
pub struct Send {
    /// The greatest number of bytes that the peer permits on this stream.
    pub max_data: VarInt,
    pub state: SendState,
    /// What was written and is not acknowledged.
    pub pending: SendBuffer,
    /// The order in the send queue: streams of a higher number come first.
    pub priority: i32,
    /// Whether a frame with FIN is to be sent, also without new data.
    pub fin_pending: bool,
    /// Whether the stream is on the connection's list of blocked streams.
    pub connection_blocked: bool,
    /// The limit for which STREAM_DATA_BLOCKED was queued last.
    pub data_blocked_limit: Option<u64>,
    /// The code of the first STOP_SENDING.
    pub stop_reason: Option<VarInt>,
}

impl Send {
    ghost use Rattle.quic_sending.specs.Sending.{is_ready, is_reset_sent, permitted, write_refusal, IsWriteRefusal, finish_refusal, after_ack, is_finish_acked};

    /// The send half of a stream to which nothing was written. Takes no memory.
    pub fn new(alloc: Global, max_data: VarInt) -> Self
        ensures fields { result ≡ record {
          max_data = max_data;
          state = SendState.Ready;
          pending = result.pending;
          priority = pos 0;
          fin_pending = false;
          connection_blocked = false;
          data_blocked_limit = None;
          stop_reason = None;
        } }
        ensures empty { result.pending ≡ record {
          offset = 0;
          unsent = 0;
          prefix = 0;
          later = [];
          lost = [];
          held = [];
          gone = 0;
          room = result.pending.room;
        } }
        ensures sound { IsSound result.pending }
        ensures cuts { HasCuts [] result.pending }
    {
        Send {
            max_data,
            state: SendState::Ready,
            pending: SendBuffer::new(alloc),
            priority: 0,
            fin_pending: false,
            connection_blocked: false,
            data_blocked_limit: None,
            stop_reason: None,
        }
    }

    /// Makes it as [`Send::new`] does. It keeps memory for at most four pieces.
    pub fn renew(&mut self, max_data: VarInt)
        ensures fields { self.new ≡ record {
          max_data = max_data;
          state = SendState.Ready;
          pending = self.new.pending;
          priority = pos 0;
          fin_pending = false;
          connection_blocked = false;
          data_blocked_limit = None;
          stop_reason = None;
        } }
        ensures empty { self.new.pending ≡ record {
          offset = 0;
          unsent = 0;
          prefix = 0;
          later = [];
          lost = [];
          held = [];
          gone = 0;
          room = self.new.pending.room;
        } }
        ensures sound { IsSound self.new.pending }
        ensures cuts { HasCuts [] self.new.pending }
    {
        self.pending.renew();
        self.max_data = max_data;
        self.state = SendState::Ready;
        self.priority = 0;
        self.fin_pending = false;
        self.connection_blocked = false;
        self.data_blocked_limit = None;
        self.stop_reason = None;
    }

    /// Whether the stream was reset.
    #[inline]
    pub fn is_reset(&self) -> bool
        ensures { result ≡ is_reset_sent self.now.state }
    {
        matches!(self.state, SendState::ResetSent)
    }

    /// Whether the stream was neither finished nor reset.
    #[inline]
    pub fn is_writable(&self) -> bool
        ensures { result ≡ is_ready self.now.state }
    {
        matches!(self.state, SendState::Ready)
    }

    /// The offset at which the next write begins.
    #[inline]
    pub fn offset(&self) -> u64
        ensures offset { result ≡ self.now.pending.offset }
        ensures small { result < 2 ^ 62 }
    {
        self.pending.offset()
    }

    /// Whether something is to be sent: a lost or an unsent offset, or the end.
    #[inline]
    pub fn is_pending(&self) -> bool
        ensures some { result ≡ true → self.now.fin_pending ≡ false → HasDue self.now.pending }
        ensures none { result ≡ false → (self.now.fin_pending ≡ false) × HasNoneDue self.now.pending }
    {
        self.pending.has_unsent_data() || self.fin_pending
    }

    /// Writes the first bytes of a source: the least of what it has, of `limit`, and of what the
    /// stream's limit leaves. If refused, nothing is taken.
    pub fn write<S: BytesSource>(
        &mut self,
        source: &mut S,
        limit: u64,
    ) -> Result<Written, WriteError>
        ensures ok { OnOk result (write_refusal self.old ≡ None) }
        ensures err { IfErr result (λ e. IsWriteRefusal self.old e) }
        ensures written { OnOk result (Appends (permitted self.old limit) (S.lists source.old) self.old.pending self.new.pending) }
        ensures others { OnOk result (self.new ≡ record self.old { pending = self.new.pending }) }
        ensures bytes { IfOk result (λ w. w.bytes ≡ min (permitted self.old limit) (total_length (S.lists source.old))) }
        ensures chunks { IfOk result (λ w. w.chunks + length (S.lists source.new) ≡ length (S.lists source.old)) }
        ensures left { OnOk result (S.lists source.new ≡ rest_of (permitted self.old limit) (S.lists source.old)) }
        ensures unchanged { OnErr result (S.lists source.new ≡ S.lists source.old) }
        ensures borrow { S.borrow source.new ≡ S.borrow source.old }
        ensures list_count { S.list_count source.new ≡ S.list_count source.old }
        ensures same { OnErr result (self.new ≡ record self.old {
          pending = record self.old.pending { room = self.new.pending.room };
        }) }
        ensures sound { OnOk result (IsSound self.new.pending) }
    {
        if !self.is_writable() {
            return Err(WriteError::ClosedStream);
        }
        if let Some(code) = self.stop_reason {
            return Err(WriteError::Stopped(code));
        }
        let max_data = self.max_data.into_inner();
        let offset = self.offset();
        if max_data <= offset {
            return Err(WriteError::Blocked);
        }
        let limit = limit.min(max_data - offset);
        Ok(write_source(&mut self.pending, source, limit as usize)?)
    }

    /// Ends the stream: its end is to be sent, and nothing more is written. If refused, all is as it
    /// was.
    pub fn finish(&mut self) -> Result<(), FinishError>
        ensures ok { OnOk result (finish_refusal self.old ≡ None) }
        ensures err { IfErr result (λ e. finish_refusal self.old ≡ Some e) }
        ensures finished { OnOk result (self.new
            ≡ record self.old { state = SendState.DataSent false; fin_pending = true }) }
        ensures same { OnErr result (self.new ≡ self.old) }
    {
        if let Some(code) = self.stop_reason {
            return Err(FinishError::Stopped(code));
        }
        if !self.is_writable() {
            return Err(FinishError::ClosedStream);
        }
        self.state = SendState::DataSent {
            finish_acked: false,
        };
        self.fin_pending = true;
        Ok(())
    }

    /// Drops what was written. Nothing is sent any more but the reset. Of a stream that was reset
    /// already nothing changes.
    pub fn reset(&mut self)
        ensures reset { is_reset_sent self.old.state ≡ false → self.new ≡ record self.old {
          state = SendState.ResetSent;
          fin_pending = false;
          pending = record {
            offset = self.old.pending.offset;
            unsent = self.old.pending.offset;
            prefix = self.old.pending.offset;
            later = [];
            lost = [];
            held = [];
            gone = self.old.pending.offset;
            room = self.new.pending.room;
          };
        } }
        ensures same { is_reset_sent self.old.state ≡ true → self.new ≡ self.old }
        ensures cuts { (cuts : List (List ℕ)) → HasCuts cuts self.old.pending → HasCuts cuts self.new.pending }
    {
        if self.is_reset() {
            return;
        }
        self.state = SendState::ResetSent;
        self.pending.discard();
        self.fin_pending = false;
    }

    /// The peer sent STOP_SENDING. Answers whether it is the first; the code of the first stays.
    pub fn try_stop(&mut self, error_code: VarInt) -> bool
        ensures first { result ≡ is_none self.old.stop_reason }
        ensures code { self.new ≡ record self.old {
          stop_reason = Some (unwrap_or self.old.stop_reason
              error_code);
        } }
    {
        if self.stop_reason.is_some() {
            return false;
        }
        self.stop_reason = Some(error_code);
        true
    }

    /// A frame with these offsets, and with the end or not, is acknowledged. Answers whether by now
    /// the end and every byte are: never so of a stream that was not finished, or that was reset. Only offsets behind a
    /// gap need memory.
    pub fn ack(&mut self, offsets: Range<u64>, fin: bool) -> Result<bool, OutOfMemory>
        requires { offsets.end ≤ self.old.pending.unsent }
        ensures done { IfOk result (λ done. IsTrue done ↔ ((is_finish_acked self.new.state ≡ true)
            × (self.new.pending.prefix ≡ self.new.pending.offset))) }
        ensures state { OnOk result (self.new.state ≡ after_ack self.old.state fin) }
        ensures same { self.new ≡ record self.old { state = self.new.state; pending = self.new.pending } }
        ensures err { OnErr result (self.new ≡ self.old) }
        ensures memory { OnErr result ((self.old.pending.prefix < offsets.start) × (offsets.start < offsets.end)) }
        ensures acked { OnOk result ((n : ℕ) →
            is_acked self.new.pending n ≡ (is_acked self.old.pending n || lies_in offsets n)) }
        ensures lost { OnOk result ((n : ℕ) →
            is_lost self.new.pending n ≡ (is_lost self.old.pending n && not (lies_in offsets n))) }
        ensures held { self.new.pending.held
            ≡ uncovered (self.new.pending.prefix - self.old.pending.gone) self.old.pending.held }
        ensures unsent { (self.new.pending.unsent ≡ self.old.pending.unsent) × (self.new.pending.offset
            ≡ self.old.pending.offset) }
        ensures room { self.old.pending.room ≤ self.new.pending.room }
        ensures cuts { (cuts : List (List ℕ)) → HasCuts cuts self.old.pending → HasCuts cuts self.new.pending }
        ensures sound { IsSound self.new.pending }
    {
        self.pending.ack(offsets)?;
        match self.state {
            SendState::DataSent { finish_acked } => {
                let finish_acked = finish_acked || fin;
                self.state = SendState::DataSent { finish_acked };
                Ok(finish_acked && self.pending.is_fully_acked())
            }
            SendState::Ready | SendState::ResetSent => Ok(false),
        }
    }

    /// The peer sent MAX_STREAM_DATA. Answers whether that lets a blocked stream be written again.
    /// A limit does not fall, and a greater one than 2^62 - 1, the greatest offset there is, counts
    /// as that.
    pub fn increase_max_data(&mut self, offset: u64) -> bool
        ensures raised { is_ready self.old.state ≡ true → self.old.max_data < min offset (2 ^ 62 - 1) →
            (self.new ≡ record self.old { max_data = min offset (2 ^ 62 - 1) }) × (result
            ≡ (self.old.pending.offset == self.old.max_data)) }
        ensures closed { is_ready self.old.state ≡ false → (self.new ≡ self.old) × (result ≡ false) }
        ensures no_rise { min offset (2 ^ 62 - 1) ≤ self.old.max_data → (self.new ≡ self.old) × (result ≡ false) }
    {
        let limit = VarInt::from_u64(offset).unwrap_or(VarInt::MAX);
        if limit.into_inner() <= self.max_data.into_inner() || !self.is_writable() {
            return false;
        }
        let was_blocked = self.offset() == self.max_data.into_inner();
        self.max_data = limit;
        was_blocked
    }
}

// Writes the first bytes of a source, at most `limit`. Where memory is refused, the buffer and the
// source are as they were.
fn write_source<S: BytesSource>(
    buffer: &mut SendBuffer,
    source: &mut S,
    limit: usize,
) -> Result<Written, OutOfMemory>
    requires { buffer.old.offset + limit < 2 ^ 62 }
    ensures written { OnOk result (Appends limit (S.lists source.old) buffer.old buffer.new) }
    ensures bytes { IfOk result (λ w. w.bytes ≡ min limit (total_length (S.lists source.old))) }
    ensures chunks { IfOk result (λ w. w.chunks + length (S.lists source.new) ≡ length (S.lists source.old)) }
    ensures left { OnOk result (S.lists source.new ≡ rest_of limit (S.lists source.old)) }
    ensures borrow { S.borrow source.new ≡ S.borrow source.old }
    ensures list_count { S.list_count source.new ≡ S.list_count source.old }
    ensures err { OnErr result ((S.lists source.new ≡ S.lists source.old) × (buffer.new
        ≡ record buffer.old { room = buffer.new.room })) }
    ensures sound { OnOk result (IsSound buffer.new) }
{
    let count = source.prepare(limit)?;
    buffer.reserve(count)?;
    let mut chunks = 0;
    let mut left = limit;
    loop {
        let (chunk, ended) = source.pop_chunk(left);
        chunks += ended;
        let len = chunk.len();
        if len == 0 {
            return Ok(Written {
                bytes: limit - left,
                chunks,
            });
        }
        left -= len;
        buffer.write_reserved(chunk);
    }
}
