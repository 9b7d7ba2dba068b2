//! Payloads that a session writes.

ghost use Rattle.std.specs.Prelude.{◌≡◌, ◌≤◌, ◌<◌, ◌+◌, ◌++◌, min, take, drop, IfOk, IfSome, OnOk, OnErr, [], length};
ghost use Rattle.std.specs.Vec.{vec_ptr};
ghost use Rattle.quic_retransmits.specs.Pending.{nothing};
ghost use Rattle.quic_session.specs.Counts.{counts_of, with_sent_frames};
ghost use Rattle.quic_session.specs.Sessions.{end_of, datagrams_view, beside_of, with_counts};
ghost use Rattle.quic_session.specs.Tokens.{unsettled, places, KeepsNew};
ghost use Rattle.quic_session.specs.Emitting.{payload_of, writing_of, WritesControl, WritesDatagrams, WritesStreams, SendsOldest, AreSent, with_datagrams_sent, IfAsked, WritesParts, EmitsPayload, EmitsLent, KeepsBuffer, IsLent, GoesOnWithFrames};
ghost use Rattle.quic_session.specs.Slots.{EmitsReserved};

use crate::buffer::Buffer;
use crate::session::Session;
use quic_datagrams::DatagramState;
use quic_endpoint::Payload;
use quic_values::OutOfMemory;
use quic_wire::frame::Datagram;
use quic_wire::memory::{is_kept, room_for};
use std::alloc::Global;
use std::mem;

/// Which frames are to be written.
#[derive(Clone, Copy, Debug, PartialEq, Eq)]
pub struct Parts {
    /// Control frames: resets, stops, limits.
    pub control: bool,
    /// Datagrams (RFC 9221).
    pub datagrams: bool,
    /// Data of streams.
    pub streams: bool,
}

/// What was written.
#[derive(Clone, Copy, Debug, PartialEq, Eq)]
pub struct Emitted {
    /// What stands for the payload until it is settled.
    pub token: u64,
    /// Whether nothing may stand behind it in its packet: its last frame may be a STREAM frame without a length.
    pub ends: bool,
    /// Whether memory ran out behind its last frame: more may be due than it has.
    pub cut: bool,
    /// How many bytes.
    pub len: usize,
}

// A payload without frames, in the memory of one that was sent. That is made fit for `max_size` bytes, if these are few and
// there is memory.
fn blank_payload(alloc: Global, memory: Vec<u8>, max_size: usize) -> Payload
    ensures { payload_of result ≡ record { bytes = []; control = nothing; streams = [] } }
{
    let mut payload = Payload::reusing(alloc, memory);
    if payload.bytes.capacity() < max_size && is_kept(max_size) {
        let _ = payload.bytes.reserve_exact(room_for(max_size));
    }
    payload
}

impl Session {
    /// Writes what is to be sent into `out`: of the parts that are named, control frames, then datagrams, then data.
    /// `None` where there was nothing. Where memory runs out, the frames that were written before are the payload, and
    /// the call is refused only where there were none.
    pub fn emit(
        &mut self,
        out: &mut [u8],
        parts: Parts,
        fair: bool,
    ) -> Result<Option<Emitted>, OutOfMemory>
        ensures emits { EmitsPayload self.old parts fair out.old result self.new out.new }
        ensures from { GoesOnWithFrames (length out.old) fair (end_of self.old).streams (end_of self.new).streams }
        ensures conn { self.new.conn ≡ self.old.conn }
        ensures users { self.new.users ≡ self.old.users }
    {
        let Some(emitted) = self.emit_lent(out.len(), parts, fair)? else {
            return Ok(None);
        };
        Ok(Some(self.put_out(emitted, out)))
    }

    // The payload that is lent is copied out.
    fn put_out(&self, emitted: Emitted, out: &mut [u8]) -> Emitted
        ensures len { result.len ≡ min (length self.now.bytes.items) (length out.old) }
        ensures copied { out.new ≡ take result.len self.now.bytes.items ++ drop result.len out.old }
        ensures token { result.token ≡ emitted.token }
        ensures ends { result.ends ≡ emitted.ends }
        ensures cut { result.cut ≡ emitted.cut }
    {
        let len = self.bytes.len().min(out.len());
        out[..len].copy_from_slice(&self.bytes[..len]);
        Emitted { len, ..emitted }
    }

    /// The same for a payload of at most `max_size` bytes that is not copied: it stands in the memory of the session, at
    /// [`Session::lent`], until the next payload is written.
    pub fn emit_lent(
        &mut self,
        max_size: usize,
        parts: Parts,
        fair: bool,
    ) -> Result<Option<Emitted>, OutOfMemory>
        ensures emits { EmitsLent max_size self.old parts fair result self.new self.new.bytes.items }
        ensures reserved { 0 < places self.old.unsettled → EmitsReserved max_size self.old parts fair result self.new }
        ensures from { GoesOnWithFrames max_size fair (end_of self.old).streams (end_of self.new).streams }
        ensures conn { self.new.conn ≡ self.old.conn }
        ensures users { self.new.users ≡ self.old.users }
    {
        self.unsettled.reserve()?;
        let memory = mem::replace(&mut self.bytes, Vec::new(self.alloc));
        let mut draft = blank_payload(self.alloc, memory, max_size);
        let answer = self.write_parts(&mut draft, max_size, parts, fair);
        if draft.bytes.is_empty() {
            self.bytes = draft.bytes;
            answer?;
            return Ok(None);
        }
        Ok(Some(self.lend(draft, max_size, answer.is_err())))
    }

    /// The same for a payload that stands in a buffer then, which gets its memory for its own. The buffer stays where there is
    /// no payload.
    pub fn emit_buffer(
        &mut self,
        buffer: &mut Buffer,
        max_size: usize,
        parts: Parts,
        fair: bool,
    ) -> Result<Option<Emitted>, OutOfMemory>
        ensures emits { EmitsLent max_size self.old parts fair result self.new buffer.new.bytes.items }
        ensures reserved { 0 < places self.old.unsettled → EmitsReserved max_size self.old parts fair result self.new }
        ensures buffer { KeepsBuffer result buffer.old buffer.new }
        ensures from { GoesOnWithFrames max_size fair (end_of self.old).streams (end_of self.new).streams }
        ensures conn { self.new.conn ≡ self.old.conn }
        ensures users { self.new.users ≡ self.old.users }
    {
        let Some(emitted) = self.emit_lent(max_size, parts, fair)? else {
            return Ok(None);
        };
        self.exchange(buffer);
        Ok(Some(emitted))
    }

    // The payload that is lent and the bytes of a buffer change places.
    fn exchange(&mut self, buffer: &mut Buffer)
        ensures given { buffer.new.bytes ≡ self.old.bytes }
        ensures end { end_of self.new ≡ end_of self.old }
        ensures beside { beside_of self.new ≡ beside_of self.old }
        ensures users { self.new.users ≡ self.old.users }
    {
        mem::swap(&mut self.bytes, &mut buffer.bytes);
    }

    // A payload is lent, and what is to be reported of it is kept under the next token.
    fn lend(&mut self, draft: Payload, max_size: usize, cut: bool) -> Emitted
        requires { 0 < places self.old.unsettled }
        ensures lent { IsLent max_size (payload_of draft) result self.new.bytes.items }
        ensures cut { result.cut ≡ cut }
        ensures keeps { KeepsNew (unsettled self.old.unsettled) self.old.unsettled.next draft.sent result.token (unsettled self.new.unsettled) self.new.unsettled.next }
        ensures end { end_of self.new ≡ end_of self.old }
        ensures conn { self.new.conn ≡ self.old.conn }
        ensures users { self.new.users ≡ self.old.users }
        ensures counts { counts_of self.new ≡ counts_of self.old }
        ensures datagrams { datagrams_view self.new ≡ datagrams_view self.old }
    {
        let Payload { bytes, sent } = draft;
        let len = bytes.len();
        self.bytes = bytes;
        let ends = len >= max_size && !sent.streams.is_empty();
        let token = self.unsettled.keep(sent);
        Emitted {
            token,
            ends,
            cut,
            len,
        }
    }

    /// Where the payload that was written last stands.
    pub fn lent(&self) -> *const u8
        ensures { result ≡ vec_ptr self.now.bytes }
    {
        self.bytes.as_ptr()
    }

    // Writes the parts one after another.
    fn write_parts(
        &mut self,
        draft: &mut Payload,
        max_size: usize,
        parts: Parts,
        fair: bool,
    ) -> Result<(), OutOfMemory>
        ensures writes { WritesParts max_size parts fair (writing_of self.old draft.old) result (writing_of self.new draft.new) }
        ensures counts { counts_of self.new ≡ with_sent_frames (counts_of self.old) (counts_of self.new).sent }
        ensures payloads { self.new.unsettled ≡ self.old.unsettled }
        ensures conn { self.new.conn ≡ self.old.conn }
        ensures users { self.new.users ≡ self.old.users }
    {
        self.write_control(draft, max_size, parts.control)?;
        self.write_datagrams(draft, max_size, parts.datagrams)?;
        self.write_streams(draft, max_size, fair, parts.streams)
    }

    // Writes the control frames, if they were asked for.
    fn write_control(
        &mut self,
        draft: &mut Payload,
        max_size: usize,
        asked: bool,
    ) -> Result<(), OutOfMemory>
        ensures writes { IfAsked asked (WritesControl max_size) (writing_of self.old draft.old) result (writing_of self.new draft.new) }
        ensures beside { beside_of self.new ≡ with_counts (beside_of self.old) (with_sent_frames (counts_of self.old) (counts_of self.new).sent) }
        ensures users { self.new.users ≡ self.old.users }
    {
        if !asked {
            return Ok(());
        }
        self.endpoint
            .write_control(draft, &mut self.counts.sent, max_size)
    }

    // Writes the datagrams that fit, if they were asked for.
    fn write_datagrams(
        &mut self,
        draft: &mut Payload,
        max_size: usize,
        asked: bool,
    ) -> Result<(), OutOfMemory>
        ensures writes { IfAsked asked (WritesDatagrams max_size) (writing_of self.old draft.old) result (writing_of self.new draft.new) }
        ensures counts { counts_of self.new ≡ with_sent_frames (counts_of self.old) (counts_of self.new).sent }
        ensures payloads { self.new.unsettled ≡ self.old.unsettled }
        ensures conn { self.new.conn ≡ self.old.conn }
        ensures users { self.new.users ≡ self.old.users }
    {
        if !asked {
            return Ok(());
        }
        let before = self.datagrams.outgoing.len();
        let (sent, answer) = write_waiting(&mut self.datagrams, &mut draft.bytes, max_size);
        let count = before.saturating_sub(self.datagrams.outgoing.len());
        self.counts.add_sent_datagrams(count);
        self.tell_room_if(sent);
        answer
    }

    // A blocked sender is to be told that there is room, if datagrams were written.
    fn tell_room_if(&mut self, sent: bool)
        ensures told { datagrams_view self.new ≡ with_datagrams_sent (datagrams_view self.old) sent self.old.datagrams.outgoing }
        ensures end { end_of self.new ≡ end_of self.old }
        ensures counts { counts_of self.new ≡ counts_of self.old }
        ensures payloads { self.new.unsettled ≡ self.old.unsettled }
        ensures conn { self.new.conn ≡ self.old.conn }
        ensures users { self.new.users ≡ self.old.users }
    {
        if sent && self.datagrams.send_blocked {
            self.datagrams.send_blocked = false;
            self.told_room = false;
        }
    }

    // Writes data of streams, if they were asked for.
    fn write_streams(
        &mut self,
        draft: &mut Payload,
        max_size: usize,
        fair: bool,
        asked: bool,
    ) -> Result<(), OutOfMemory>
        ensures writes { IfAsked asked (WritesStreams max_size fair) (writing_of self.old draft.old) result (writing_of self.new draft.new) }
        ensures beside { beside_of self.new ≡ with_counts (beside_of self.old) (with_sent_frames (counts_of self.old) (counts_of self.new).sent) }
        ensures users { self.new.users ≡ self.old.users }
    {
        if !asked {
            return Ok(());
        }
        let before = draft.sent.streams.len();
        let answer = self.endpoint.write_streams(draft, max_size, fair);
        let count = draft.sent.streams.len().saturating_sub(before);
        self.counts.add_sent_streams(count);
        answer
    }
}

// Writes the datagrams that fit, while one with the greatest head begins below the maximum. Says whether there were any.
fn write_waiting(
    datagrams: &mut DatagramState,
    bytes: &mut Vec<u8>,
    max_size: usize,
) -> (bool, Result<(), OutOfMemory>)
    ensures sends { SendsOldest max_size datagrams.old.outgoing bytes.old.items result.0 datagrams.new.outgoing bytes.new.items }
    ensures full { OnOk result.1 (AreSent max_size datagrams.new.outgoing bytes.new.items) }
    ensures refused { OnErr result.1 (length bytes.new.items + 9 < max_size) }
    ensures same { datagrams.new ≡ record datagrams.old { outgoing = datagrams.new.outgoing } }
{
    let mut sent = false;
    'waiting: while bytes.len() < max_size && max_size - bytes.len() > Datagram::SIZE_BOUND {
        match datagrams.write(bytes, max_size) {
            Ok(true) => sent = true,
            Ok(false) => return (sent, Ok(())),
            Err(error) => return (sent, Err(error)),
        }
    }
    (sent, Ok(()))
}
