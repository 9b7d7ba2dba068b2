//! STREAM frames, one at a time.

ghost use Rattle.std.specs.Prelude.{◌≡◌, ◌≢◌, ◌+◌, ◌-◌, ◌<◌, ◌≤◌, ◌^◌, ◌++◌, ◌&&◌, ◌==◌, not, ℕ, List, [], IfOk, IfErr, IfSome, OnOk, OnErr, Ok, Err, is_some, true, false, Some, None, length, vec_len, vec_capacity};
ghost use Rattle.quic_values.specs.Numbers.{size_of};
ghost use Rattle.quic_wire.specs.Frames.{BeginsWith};
ghost use Rattle.quic_wire.specs.Text.{meta_text, stream_of};
ghost use Rattle.quic_outgoing.specs.Senders.{bare, raised};
ghost use Rattle.quic_outgoing.specs.Seen.{senders, sender_room, sender_in};
ghost use Rattle.quic_outgoing.specs.History.{Transmitted, Continues};
ghost use Rattle.quic_outgoing.specs.Transmitting.{AppendsFrame, TransmitsFrame, Transmits, SendsAt, TransmitsAt, sending_priority, is_data_sent};
ghost use Rattle.quic_outgoing.specs.Shown.{outgoing_view, permit_room};

use crate::entries::SendEntries;
use crate::outgoing::OutgoingStreams;
use crate::spare::SpareHalves;
use quic_sending::{Send, SendState};
use quic_values::{OutOfMemory, StreamId, VarInt};
use quic_wire::frame::StreamMeta;

/// A STREAM frame that was written.
#[derive(Clone, Debug, Drop, PartialEq, Eq)]
pub struct WrittenFrame {
    /// Which bytes of which stream it carries.
    pub meta: StreamMeta,
    /// Whether more is to be sent on the stream: bytes, or its end.
    pub has_more: bool,
}

#[tactic(auto, unfolding(crate::specs::Shown::outgoing_view, crate::specs::Shown::permit_room), using(crate::proofs::SenderMaps::sender_steps, crate::proofs::Histories::continues))]
impl OutgoingStreams {
    /// The priority of a stream on which data may be sent. `None`: it is not held, or it was reset.
    #[inline]
    pub fn sending_priority(&self, id: StreamId) -> Option<i32>
        ensures { result ≡ sending_priority ((outgoing_view self.now).halves id) }
    {
        self.halves.sending_priority(id)
    }

    /// Appends the next STREAM frame of a held stream to a payload of at most `max_size` bytes (RFC 9000 section 19.8),
    /// also where nothing is to be sent on it: the front of the lowest range that was lost or, where none was, of the
    /// bytes that were never sent. They count as sent then. If refused, nothing changes.
    #[inline]
    pub fn write_frame(
        &mut self,
        id: StreamId,
        max_size: usize,
        buf: &mut Vec<u8>,
    ) -> Result<WrittenFrame, OutOfMemory>
        requires held { is_some ((outgoing_view self.old).halves id) ≡ true }
        requires room { length buf.old.items + 25 < max_size }
        ensures transmits { Transmits (outgoing_view self.old) id max_size buf.old.items result (outgoing_view self.new) buf.new.items }
        ensures from { Continues (outgoing_view self.old) (Transmitted id max_size result) (outgoing_view self.new) }
        ensures room { permit_room self.new ≡ permit_room self.old }
    {
        self.halves.write_frame(id, max_size, buf)
    }

    /// The same of a stream on which data may be sent and whose priority is this one. `None`: data may not be sent on it,
    /// or its priority is another, and nothing changes.
    #[inline]
    pub fn write_frame_at(
        &mut self,
        id: StreamId,
        priority: i32,
        max_size: usize,
        buf: &mut Vec<u8>,
    ) -> Result<Option<WrittenFrame>, OutOfMemory>
        requires room { length buf.old.items + 25 < max_size }
        ensures transmits { TransmitsAt (outgoing_view self.old) id priority max_size buf.old.items result (outgoing_view self.new) buf.new.items }
        ensures from { IfOk result (λ answer. IfSome answer (λ frame. Continues (outgoing_view self.old) (Transmitted id max_size (Ok frame)) (outgoing_view self.new))) }
        ensures refused { IfErr result (λ e. Continues (outgoing_view self.old) (Transmitted id max_size (Err e)) (outgoing_view self.new)) }
        ensures room { permit_room self.new ≡ permit_room self.old }
    {
        self.halves.write_frame_at(id, priority, max_size, buf)
    }
}

#[tactic(auto, unfolding(crate::specs::Seen::senders))]
impl SendEntries {
    // The priority of a stream on which data may be sent.
    #[inline]
    fn sending_priority(&self, id: StreamId) -> Option<i32>
        ensures { result ≡ sending_priority (senders self.now id) }
    {
        match self.entries.get(&id) {
            None => None,
            Some(None) => Some(0),
            Some(Some(half)) => {
                if half.is_reset() {
                    None
                } else {
                    Some(half.priority)
                }
            }
        }
    }

    // Appends the next frame of a held stream. If refused, nothing changes.
    #[inline]
    fn write_frame(
        &mut self,
        id: StreamId,
        max_size: usize,
        buf: &mut Vec<u8>,
    ) -> Result<WrittenFrame, OutOfMemory>
        requires held { is_some (senders self.old id) ≡ true }
        requires room { length buf.old.items + 25 < max_size }
        ensures ok { IfOk result (λ frame. TransmitsFrame (senders self.old) id max_size buf.old.items frame (senders self.new) buf.new.items) }
        ensures halves { OnErr result (senders self.new ≡ senders self.old) }
        ensures bytes { OnErr result (buf.new.items ≡ buf.old.items) }
        ensures side { self.new.side ≡ self.old.side }
        ensures first { self.new.first ≡ self.old.first }
        ensures room { sender_room self.new ≡ sender_room self.old }
    {
        let limit = self.first_limit(id);
        match self.entries.get_mut(&id) {
            None => unreachable!(),
            Some(entry) => append_of_entry(&mut self.spare, limit, entry, id, max_size, buf),
        }
    }

    // Appends the next frame of a stream whose priority is this one. `None`: data may not be sent on it, or its priority is
    // another. If `None` or refused, nothing changes.
    #[inline]
    fn write_frame_at(
        &mut self,
        id: StreamId,
        priority: i32,
        max_size: usize,
        buf: &mut Vec<u8>,
    ) -> Result<Option<WrittenFrame>, OutOfMemory>
        requires room { length buf.old.items + 25 < max_size }
        ensures sends { SendsAt (senders self.old) id priority max_size buf.old.items result (senders self.new) buf.new.items }
        ensures side { self.new.side ≡ self.old.side }
        ensures first { self.new.first ≡ self.old.first }
        ensures room { sender_room self.new ≡ sender_room self.old }
    {
        let first_limit = self.first_limit(id);
        let Some(entry) = self.entries.get_mut(&id) else {
            return Ok(None);
        };
        if !is_sending_at(entry, priority) {
            return Ok(None);
        }
        let frame = append_of_entry(&mut self.spare, first_limit, entry, id, max_size, buf)?;
        Ok(Some(frame))
    }
}

// Whether data may be sent on the stream of an entry, and its priority is this one.
#[inline]
fn is_sending_at(entry: &Option<Box<Send>>, priority: i32) -> bool
    ensures yes { result ≡ true → (limit : ℕ) → sending_priority (Some (sender_in limit entry.now)) ≡ Some priority }
    ensures no { result ≡ false → (limit : ℕ) → sending_priority (Some (sender_in limit entry.now)) ≢ Some priority }
{
    match entry {
        None => priority == 0,
        Some(half) => half.priority == priority && !half.is_reset(),
    }
}

// Takes the half of an entry out, to be put back. It is made where nothing was written yet.
#[inline]
pub(crate) fn take_half(
    spare: &mut SpareHalves,
    limit: VarInt,
    entry: &mut Option<Box<Send>>,
) -> Result<Box<Send>, OutOfMemory>
    ensures ok { IfOk result (λ half. sender_in limit entry.old ≡ raised limit (bare half.value)) }
    ensures err { OnErr result (entry.new ≡ entry.old) }
    ensures made { OnErr result (entry.old ≡ None) }
{
    match entry.take() {
        Some(half) => Ok(half),
        None => {
            let half = spare.make(limit)?;
            Ok(half)
        }
    }
}

// Appends the next frame of an entry's half. If refused, nothing changes.
#[inline(always)]
fn append_of_entry(
    spare: &mut SpareHalves,
    limit: VarInt,
    entry: &mut Option<Box<Send>>,
    id: StreamId,
    max_size: usize,
    buf: &mut Vec<u8>,
) -> Result<WrittenFrame, OutOfMemory>
    requires { length buf.old.items + 25 < max_size }
    ensures ok { IfOk result (λ frame. AppendsFrame max_size id (sender_in limit entry.old) buf.old.items frame (sender_in limit entry.new) buf.new.items) }
    ensures half { OnErr result (sender_in limit entry.new ≡ sender_in limit entry.old) }
    ensures bytes { OnErr result (buf.new.items ≡ buf.old.items) }
{
    let mut half = take_half(spare, limit, entry)?;
    let written = append_frame(&mut half, id, max_size, buf);
    *entry = Some(half);
    written
}

// Appends the next frame of a half to a payload. If refused, nothing changes.
#[inline(always)]
fn append_frame(
    half: &mut Send,
    id: StreamId,
    max_size: usize,
    buf: &mut Vec<u8>,
) -> Result<WrittenFrame, OutOfMemory>
    requires { length buf.old.items + 25 < max_size }
    ensures ok { IfOk result (λ frame. AppendsFrame max_size id half.old buf.old.items frame half.new buf.new.items) }
    ensures half { OnErr result (half.new ≡ half.old) }
    ensures bytes { OnErr result (buf.new.items ≡ buf.old.items) }
{
    let room = room_behind_id(id, max_size, buf.len());
    let (range, with_length) = half.pending.next_transmit(room);
    let fin = is_end(half, range.end);
    let meta = StreamMeta {
        id,
        offsets: range.start..range.end,
        fin,
    };
    append_head(&meta, with_length, buf)?;
    half.pending.mark_sent(range.start..range.end);
    match half.pending.append_range(range.start..range.end, buf) {
        Ok(()) => {}
        Err(_) => unreachable!(),
    }
    half.fin_pending = left_pending(half.fin_pending, fin);
    let has_more = half.is_pending();
    Ok(WrittenFrame { meta, has_more })
}

// The room for a frame behind its type and its id.
#[inline]
fn room_behind_id(id: StreamId, max_size: usize, len: usize) -> usize
    requires { len + 25 < max_size }
    ensures room { result ≡ max_size - len - 1 - size_of id }
    ensures large { 16 ≤ result }
{
    max_size - len - 1 - VarInt::from(id).size()
}

// Whether the stream of a half is finished and ends at an offset.
#[inline]
fn is_end(half: &Send, offset: u64) -> bool
    ensures { result ≡ (is_data_sent half.now.state && (offset == half.now.pending.offset)) }
{
    matches!(half.state, SendState::DataSent { .. }) && offset == half.offset()
}

// Whether the end is still to be sent, once a frame was written that has it or not.
#[inline]
fn left_pending(pending: bool, fin: bool) -> bool
    ensures { result ≡ (pending && not fin) }
{
    pending && !fin
}

// Appends a STREAM frame up to its data, and makes room for these. If refused, nothing is appended.
#[inline(always)]
fn append_head(meta: &StreamMeta, with_length: bool, buf: &mut Vec<u8>) -> Result<(), OutOfMemory>
    requires ordered { meta.now.offsets.start ≤ meta.now.offsets.end }
    requires small { meta.now.offsets.end < 2 ^ 62 }
    ensures ok { OnOk result (buf.new.items ≡ buf.old.items ++ meta_text meta.now with_length) }
    ensures spelled { OnOk result ((content rest : List ℕ) → length content ≡ meta.now.offsets.end - meta.now.offsets.start → (with_length ≡ false → rest ≡ []) → BeginsWith (meta_text meta.now with_length ++ content ++ rest) (stream_of meta.now content) rest) }
    ensures room { OnOk result (vec_len buf.new + (meta.now.offsets.end - meta.now.offsets.start) ≤ vec_capacity buf.new) }
    ensures err { OnErr result (buf.new.items ≡ buf.old.items) }
{
    let len = buf.len();
    meta.encode(with_length, buf)?;
    match buf.reserve((meta.offsets.end - meta.offsets.start) as usize) {
        Ok(()) => Ok(()),
        Err(_) => {
            buf.truncate(len);
            Err(OutOfMemory)
        }
    }
}
