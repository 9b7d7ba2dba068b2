//! Frames and payloads of the peer that come to a session.

ghost use Rattle.std.specs.Prelude.{List, ◌≡◌, ◌≤◌, ◌∷◌, ◌&&◌, true, false, not, nat_le, max, length, take, All, OnOk, IfOk, IfErr, IsErrOf, Some, None};
ghost use Rattle.quic_values.specs.Ids.{dir_of, index_of};
ghost use Rattle.quic_wire.specs.Codes.{STREAM_LIMIT_ERROR};
ghost use Rattle.quic_wire.specs.declared.frame.Frame.{Frame as FrameValue};
ghost use Rattle.quic_wire.specs.Frames.{AreFrames, IsFrameWithin};
ghost use Rattle.quic_wire.specs.Reading.{ReadsAs};
ghost use Rattle.quic_history.specs.Sends.{sending_refusal};
ghost use Rattle.quic_history.specs.World.{Made, remote_of};
ghost use Rattle.quic_history.specs.History.{Event, From};
ghost use Rattle.quic_endpoint.specs.Receiving.{data_length, with_call_made};
ghost use Rattle.quic_session.specs.Counts.{counts_of};
ghost use Rattle.quic_session.specs.Sessions.{end_of, datagrams_view};
ghost use Rattle.quic_session.specs.Receiving.{KeepsDatagram, ProcessesFrame, ReceivesFrame, ReceivesOnly, ReceivesPayload, ReceivesFrames, ReceivesFrom, payload_answer, blocked_refusal, direction_refusal, call_of};

use crate::buffer::Buffer;
use crate::closing::touch_by_frame;
use crate::session::Session;
use quic_receiving::ShouldTransmit;
use quic_values::{Bytes, Dir, OutOfMemory, StreamId};
use quic_wire::frame::Datagram;
use quic_wire::memory::is_fit;
use quic_wire::{DecodeError, Frame, ReceiveError, TransportError, decode_owned_reusing};
use std::mem;
use thiserror::Error;

/// Why a payload was not taken to its end.
#[derive(Clone, Copy, Debug, Error, PartialEq, Eq)]
pub enum PayloadError {
    /// Its bytes are no frames: the connection is to be closed with FRAME_ENCODING_ERROR (RFC 9000 section 12.4).
    #[error("malformed frame")]
    Malformed,
    /// A frame breaks the protocol: the connection is to be closed.
    #[error(transparent)]
    Transport(TransportError),
    /// There was no memory.
    #[error("out of memory")]
    OutOfMemory,
}

/// What came of a payload.
#[derive(Clone, Copy, Debug, PartialEq, Eq)]
pub struct Received {
    /// The place of the first frame that was not taken.
    pub next: usize,
    /// Why it was not, if there is one.
    pub answer: Result<(), PayloadError>,
}

impl Session {
    /// Takes a whole payload (RFC 9000 section 12.4), from the frame at place `first` on, until one is refused. Where
    /// memory ran out, the call can be made again from the frame that was refused.
    pub fn receive(&mut self, payload: &[u8], first: usize) -> Received
        ensures receives { ReceivesPayload self.old payload.now first result self.new }
        ensures others { ReceivesOnly self.old self.new }
    {
        match self.pieces.copy_of(payload, payload.len()) {
            Ok(bytes) => self.receive_owned(bytes, first),
            Err(_) => Received {
                next: first,
                answer: Err(PayloadError::OutOfMemory),
            },
        }
    }

    /// The same for the first `len` bytes of a buffer, whose memory is kept, and not copied, where the payload leaves at most
    /// an eighth of it free. The buffer has other memory then, with any bytes. Where memory ran out, the payload may be gone.
    pub fn receive_buffer(&mut self, buffer: &mut Buffer, len: usize, first: usize) -> Received
        requires { len ≤ length buffer.old.bytes.items }
        ensures receives { ReceivesPayload self.old (take len buffer.old.bytes.items) first result self.new }
        ensures others { ReceivesOnly self.old self.new }
    {
        if !is_fit(buffer.bytes.capacity(), len) {
            return self.receive(&buffer.bytes[..len], first);
        }
        let spare = self.pieces.spare();
        let mut payload = mem::replace(&mut buffer.bytes, spare);
        payload.truncate(len);
        self.receive_owned(payload, first)
    }

    // The same, in the memory of the payload.
    fn receive_owned(&mut self, payload: Vec<u8>, first: usize) -> Received
        ensures receives { ReceivesPayload self.old payload.items first result self.new }
        ensures others { ReceivesOnly self.old self.new }
    {
        let payload_len = payload.len();
        match self.frames_of(payload) {
            Ok(frames) => self.receive_frames(frames, payload_len, first),
            Err(DecodeError::Malformed) => Received {
                next: first,
                answer: Err(PayloadError::Malformed),
            },
            Err(DecodeError::OutOfMemory) => Received {
                next: first,
                answer: Err(PayloadError::OutOfMemory),
            },
        }
    }

    // The frames of a payload. Their list and the data that are copied are in memory that was used before, if some is fit.
    fn frames_of(&mut self, payload: Vec<u8>) -> Result<Vec<Frame>, DecodeError>
        ensures found { IfOk result (λ frames. AreFrames payload.items frames.items) }
        ensures only { (fs : List FrameValue) → AreFrames payload.items fs → ReadsAs (λ frames. frames.items) result (Some fs) }
        ensures within { IfOk result (λ frames. All (IsFrameWithin (length payload.items)) frames.items) }
        ensures malformed { IsErrOf result DecodeError.Malformed → (fs : List FrameValue) → ¬ AreFrames payload.items fs }
        ensures same { self.new ≡ self.old }
    {
        let list = self.frames.take(self.alloc);
        decode_owned_reusing(&mut self.pieces, payload, list)
    }

    /// A copy of the data of a frame, as for [`Session::receive_frame`]. It takes memory that was used before, where there is
    /// some.
    #[inline(always)]
    pub fn copy_of(&mut self, bytes: &[u8]) -> Result<Bytes, OutOfMemory>
        ensures copy { IfOk result (λ copy. copy ≡ bytes.now) }
        ensures same { self.new ≡ self.old }
    {
        Ok(Bytes::from(self.pieces.copy_of(bytes, bytes.len())?))
    }

    // Takes the frames of a payload, from a place on.
    fn receive_frames(&mut self, frames: Vec<Frame>, payload_len: usize, first: usize) -> Received
        requires { All (IsFrameWithin payload_len) frames.items }
        ensures receives { ReceivesFrames payload_len first frames.items self.old result self.new }
        ensures others { ReceivesOnly self.old self.new }
    {
        let mut list = frames;
        list.reverse();
        let mut next: usize = 0;
        while let Some(frame) = list.pop() {
            if let Err(error) = self.receive_from(next, first, frame, payload_len) {
                return Received {
                    next,
                    answer: Err(error),
                };
            }
            next = next.saturating_add(1);
        }
        self.frames.put(list);
        Received {
            next,
            answer: Ok(()),
        }
    }

    // Takes the frame at a place, where those below another are passed over.
    fn receive_from(
        &mut self,
        at: usize,
        first: usize,
        frame: Frame,
        payload_len: usize,
    ) -> Result<(), PayloadError>
        requires { data_length frame ≤ payload_len }
        ensures receives { ReceivesFrom at first self.old frame payload_len result self.new }
        ensures others { ReceivesOnly self.old self.new }
    {
        if at < first {
            return Ok(());
        }
        payload_answer(&self.receive_frame(frame, payload_len))
    }

    /// The same as [`Session::receive_frame`], for any length: one below that of the data counts as that of the data.
    pub fn receive_frame_within(
        &mut self,
        frame: Frame,
        payload_len: usize,
    ) -> Result<ShouldTransmit, ReceiveError>
        ensures receives { ReceivesFrame self.old frame (max payload_len (data_length frame)) result self.new }
        ensures from { (m : Made) (h : List Event) → From m h (end_of self.old).streams → From m (with_call_made (call_of frame result) h) (end_of self.new).streams }
        ensures others { ReceivesOnly self.old self.new }
    {
        let length = payload_len.max(data_length(&frame));
        self.receive_frame(frame, length)
    }

    /// Takes a frame of the peer that came in a payload of so many bytes (RFC 9000 section 19): data, a reset, a stop and
    /// limits are handed to the streams, a datagram is kept, any other frame changes nothing. Where the answer asks for
    /// MAX_DATA it is queued, and MAX_STREAMS where it is due, unless memory ran out. The frame is counted, also if it is
    /// rejected.
    ///
    /// A frame that names a stream on which the peer may not send it is an error, and nothing else changes.
    /// STREAM_STATE_ERROR: STOP_SENDING for a stream on which only the peer sends, or for one of this endpoint that is not
    /// open (section 19.5); STREAM_DATA_BLOCKED for a stream on which only this endpoint sends (section 19.13).
    /// STREAM_LIMIT_ERROR: either of them for a stream of the peer beyond the limit that was advertised (section 4.6).
    pub fn receive_frame(
        &mut self,
        frame: Frame,
        payload_len: usize,
    ) -> Result<ShouldTransmit, ReceiveError>
        requires { data_length frame ≤ payload_len }
        ensures receives { ReceivesFrame self.old frame payload_len result self.new }
        ensures from { (m : Made) (h : List Event) → From m h (end_of self.old).streams → From m (with_call_made (call_of frame result) h) (end_of self.new).streams }
        ensures others { ReceivesOnly self.old self.new }
    {
        self.counts.add_received(&frame);
        self.process_frame(frame, payload_len)
    }

    // Processes a frame that was counted.
    fn process_frame(
        &mut self,
        frame: Frame,
        payload_len: usize,
    ) -> Result<ShouldTransmit, ReceiveError>
        requires { data_length frame ≤ payload_len }
        ensures receives { ProcessesFrame self.old frame payload_len result self.new }
        ensures from { (m : Made) (h : List Event) → From m h (end_of self.old).streams → From m (with_call_made (call_of frame result) h) (end_of self.new).streams }
        ensures others { ReceivesOnly self.old self.new }
    {
        match frame {
            Frame::Datagram(datagram) => self.receive_datagram(datagram),
            frame => match self.validate_direction(&frame) {
                Err(error) => Err(ReceiveError::Transport(error)),
                Ok(()) => {
                    touch_by_frame(&mut self.users, &frame);
                    self.endpoint.receive(frame, payload_len)
                }
            },
        }
    }

    // The error of a frame that names a stream on which the peer may not send it.
    fn validate_direction(&self, frame: &Frame) -> Result<(), TransportError>
        ensures ok { OnOk result (direction_refusal (end_of self.now).streams frame.now ≡ None) }
        ensures err { IfErr result (λ error. direction_refusal (end_of self.now).streams frame.now ≡ Some error.code) }
    {
        match frame {
            Frame::StopSending(frame) => self.validate_stop(frame.id),
            Frame::StreamDataBlocked { id, .. } => self.validate_blocked(*id),
            _ => Ok(()),
        }
    }

    // The error of STOP_SENDING for a stream (RFC 9000 sections 4.6 and 19.5).
    fn validate_stop(&self, id: StreamId) -> Result<(), TransportError>
        ensures ok { OnOk result (sending_refusal (end_of self.now).streams id ≡ None) }
        ensures err { IfErr result (λ error. sending_refusal (end_of self.now).streams id ≡ Some error.code) }
    {
        let streams = self.endpoint.streams();
        if streams.is_own(id) {
            if streams.is_local_unopened(id) {
                return Err(TransportError::stream_state_error("STOP_SENDING on unopened stream"));
            }
            return Ok(());
        }
        match id.dir() {
            Dir::Uni => Err(TransportError::stream_state_error("STOP_SENDING on recv-only stream")),
            Dir::Bi => self.validate_limit(id),
        }
    }

    // The error of STREAM_DATA_BLOCKED for a stream (RFC 9000 sections 4.6 and 19.13).
    fn validate_blocked(&self, id: StreamId) -> Result<(), TransportError>
        ensures ok { OnOk result (blocked_refusal (end_of self.now).streams id ≡ None) }
        ensures err { IfErr result (λ error. blocked_refusal (end_of self.now).streams id ≡ Some error.code) }
    {
        if !self.endpoint.streams().is_own(id) {
            return self.validate_limit(id);
        }
        match id.dir() {
            Dir::Uni => Err(TransportError::stream_state_error(
                "STREAM_DATA_BLOCKED on send-only stream",
            )),
            Dir::Bi => Ok(()),
        }
    }

    // The error of a stream of the peer beyond the limit that was advertised (RFC 9000 section 4.6).
    fn validate_limit(&self, id: StreamId) -> Result<(), TransportError>
        ensures ok { OnOk result (nat_le (remote_of (end_of self.now).streams (dir_of id)).max_remote (index_of id) ≡ false) }
        ensures err { IfErr result (λ error. (nat_le (remote_of (end_of self.now).streams (dir_of id)).max_remote (index_of id) ≡ true) × (error.code ≡ STREAM_LIMIT_ERROR)) }
    {
        if id.index() >= self.endpoint.streams().max_remote(id.dir()) {
            return Err(TransportError::stream_limit_error(""));
        }
        Ok(())
    }

    // Takes a datagram (RFC 9221 section 4).
    fn receive_datagram(&mut self, datagram: Datagram) -> Result<ShouldTransmit, ReceiveError>
        ensures keeps { KeepsDatagram (datagrams_view self.old) datagram result (datagrams_view self.new) }
        ensures end { end_of self.new ≡ end_of self.old }
        ensures others { ReceivesOnly self.old self.new }
        ensures counts { counts_of self.new ≡ counts_of self.old }
        ensures users { self.new.users ≡ self.old.users }
    {
        let was_empty = self.datagrams.received(datagram, &self.limits.receive)?;
        self.tell_received_if(was_empty);
        Ok(ShouldTransmit(false))
    }

    // That a datagram came is to be told, if none waited.
    fn tell_received_if(&mut self, was_empty: bool)
        ensures told { datagrams_view self.new ≡ record (datagrams_view self.old) { told_received = self.old.told_received && not was_empty } }
        ensures end { end_of self.new ≡ end_of self.old }
        ensures others { ReceivesOnly self.old self.new }
        ensures counts { counts_of self.new ≡ counts_of self.old }
        ensures users { self.new.users ≡ self.old.users }
    {
        if was_empty {
            self.told_received = false;
        }
    }
}

// How many bytes of data a frame has.
fn data_length(frame: &Frame) -> usize
    ensures { result ≡ data_length frame.now }
{
    match frame {
        Frame::Stream(stream) => stream.bytes.len(),
        _ => 0,
    }
}

// The result for the payload. A frame that could not be compacted for lack of memory is buffered and raised no event: it is to
// be processed again.
fn payload_answer(answer: &Result<ShouldTransmit, ReceiveError>) -> Result<(), PayloadError>
    ensures { result ≡ payload_answer answer.now }
{
    match answer {
        Ok(_) => Ok(()),
        Err(ReceiveError::Transport(error)) => Err(PayloadError::Transport(*error)),
        Err(ReceiveError::OutOfMemory | ReceiveError::CompactionMemory) => {
            Err(PayloadError::OutOfMemory)
        }
    }
}
