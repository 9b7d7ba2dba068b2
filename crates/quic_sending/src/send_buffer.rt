ghost use Rattle.std.specs.Prelude.{◌≡◌, ◌+◌, ◌-◌, ◌<◌, ◌≤◌, ◌^◌, ◌↔◌, ℕ, [], ◌++◌, ◌&&◌, ◌||◌, not, IsTrue, IsOk, OnOk, OnErr, length, nat_lt, true, false, IfOk, max, List, take, drop, vec_len, vec_capacity};
ghost use Rattle.std.specs.List.{concat};
ghost use Rattle.quic_ranges.specs.Runs.{contains, lies_in};
ghost use Rattle.quic_sending.specs.Buffer.{HasCuts, IsFrontAt, is_due, IsNextRange, IsFrontOfNext, frame_end, has_length, cut_of, total_length, is_acked, is_lost, piece_part, uncovered, IsSound};

use crate::outcomes::Outcomes;
use crate::piece_queue::PieceQueue;
use quic_values::{Bytes, OutOfMemory, VarInt};
use std::alloc::Global;
use std::marker::Model;
use std::ops::Range;

/// The written bytes of one stream that are not acknowledged yet, with what was sent of them and
/// what was lost (RFC 9000 sections 2.2 and 13.3).
#[derive(Drop)]
pub struct SendBuffer {
    pieces: PieceQueue,
    // The first offset that was never sent.
    unsent: u64,
    // Which of the offsets before it are acknowledged, and which are lost.
    outcomes: Outcomes,
    alloc: Global,
}

impl Model for SendBuffer {
    ghost use Rattle.quic_sending.specs.Buffer.{Buffered, IsSound};

    ghost Value = { Buffered };

    ghost view = { λ s. record {
      offset = s.pieces.end;
      unsent = s.unsent;
      prefix = s.outcomes.prefix;
      later = s.outcomes.later;
      lost = s.outcomes.lost;
      held = s.pieces.held;
      gone = s.pieces.gone;
      room = s.pieces.room;
    } };

    ghost invariant = { λ s. IsSound (record {
      offset = s.pieces.end;
      unsent = s.unsent;
      prefix = s.outcomes.prefix;
      later = s.outcomes.later;
      lost = s.outcomes.lost;
      held = s.pieces.held;
      gone = s.pieces.gone;
      room = s.pieces.room;
    }) };
}

impl SendBuffer {
    /// A buffer to which nothing was written. Takes no memory.
    pub fn new(alloc: Global) -> Self
        ensures empty { result ≡ record {
          offset = 0;
          unsent = 0;
          prefix = 0;
          later = [];
          lost = [];
          held = [];
          gone = 0;
          room = result.room;
        } }
        ensures sound { IsSound result }
        ensures cuts { HasCuts [] result }
    {
        SendBuffer {
            pieces: PieceQueue::new(alloc),
            unsent: 0,
            outcomes: Outcomes::up_to(alloc, 0),
            alloc,
        }
    }

    /// The offset at which the next write begins.
    #[inline]
    pub fn offset(&self) -> u64
        ensures offset { result ≡ self.now.offset }
        ensures small { result < 2 ^ 62 }
    {
        self.pieces.end()
    }

    /// The first offset that was never sent.
    #[inline]
    pub fn unsent(&self) -> u64
        ensures { result ≡ self.now.unsent }
    {
        self.unsent
    }

    /// The end of the acknowledged prefix: the first offset that is not acknowledged.
    #[inline]
    pub fn acked_prefix(&self) -> u64
        ensures { result ≡ self.now.prefix }
    {
        self.outcomes.prefix()
    }

    /// Whether all that was written is acknowledged.
    #[inline]
    pub fn is_fully_acked(&self) -> bool
        ensures { IsTrue result ↔ (self.now.prefix ≡ self.now.offset) }
    {
        self.acked_prefix() == self.offset()
    }

    /// Whether nothing that was sent is acknowledged.
    #[inline]
    pub fn none_acked(&self) -> bool
        ensures none { result ≡ true → (n : ℕ) → is_acked self.now n ≡ false }
        ensures some { result ≡ false → (n : ℕ) × (is_acked self.now n ≡ true) }
    {
        let _ = &self.unsent;
        self.outcomes.none_acked()
    }

    /// How many bytes are retained: those of the written pieces that the acknowledged prefix does
    /// not wholly cover.
    #[inline]
    pub fn buffered(&self) -> u64
        ensures held { result ≡ total_length self.now.held }
        ensures cuts { (cuts : List (List ℕ)) → HasCuts cuts self.now →
            result ≡ total_length (uncovered self.now.prefix cuts) }
    {
        self.offset() - self.pieces.gone()
    }

    /// Makes room, so that as many writes then take no memory.
    #[inline]
    pub fn reserve(&mut self, pieces: usize) -> Result<(), OutOfMemory>
        ensures ok { OnOk result (pieces ≤ self.new.room) }
        ensures roomy { pieces ≤ self.old.room → IsOk result }
        ensures same { self.new ≡ record self.old { room = self.new.room } }
        ensures room { self.old.room ≤ self.new.room }
        ensures sound { IsSound self.new }
    {
        self.pieces.reserve(pieces)
    }

    /// Appends bytes, unsent. An empty piece is not kept.
    #[inline]
    pub fn write(&mut self, piece: Bytes) -> Result<(), OutOfMemory>
        requires { self.old.offset + length piece < 2 ^ 62 }
        ensures ok { OnOk result (self.new ≡ record self.old {
          offset = self.old.offset + length piece;
          held = self.old.held ++ cut_of piece;
          room = self.new.room;
        }) }
        ensures err { OnErr result (self.new ≡ record self.old { room = self.new.room }) }
        ensures roomy { 0 < self.old.room → IsOk result × (self.old.room ≤ self.new.room + 1) }
        ensures cuts { OnOk result ((cuts : List (List ℕ)) → HasCuts cuts self.old →
            HasCuts (cuts ++ cut_of piece) self.new) }
        ensures sound { IsSound self.new }
    {
        if !piece.is_empty() {
            self.pieces.push(piece)?;
        }
        Ok(())
    }

    // Appends bytes for which `reserve` made room.
    #[inline]
    pub(crate) fn write_reserved(&mut self, piece: Bytes)
        requires room { 0 < self.old.room }
        requires small { self.old.offset + length piece < 2 ^ 62 }
        ensures same { self.new ≡ record self.old {
          offset = self.old.offset + length piece;
          held = self.old.held ++ cut_of piece;
          room = self.new.room;
        } }
        ensures room { self.old.room ≤ self.new.room + 1 }
        ensures cuts { (cuts : List (List ℕ)) → HasCuts cuts self.old → HasCuts (cuts ++ cut_of piece) self.new }
        ensures sound { IsSound self.new }
    {
        match self.write(piece) {
            Ok(()) => {}
            Err(_) => unreachable!(),
        }
    }

    /// Sent offsets of this range are lost: those that are not acknowledged are to be sent again. None are below the
    /// acknowledged prefix, so a range that ends by there needs no memory.
    pub fn retransmit(&mut self, range: Range<u64>) -> Result<(), OutOfMemory>
        requires { range.end ≤ self.old.unsent }
        ensures ok { OnOk result ((n : ℕ) →
            is_lost self.new n ≡ (is_lost self.old n
            || (lies_in range n && not (is_acked self.old n)))) }
        ensures same { self.new ≡ record self.old { lost = self.new.lost } }
        ensures err { OnErr result (self.new ≡ self.old) }
        ensures memory { OnErr result ((range.start < range.end) × (self.old.prefix < range.end)) }
        ensures sound { IsSound self.new }
    {
        let _ = &self.unsent;
        self.outcomes.lose(range)
    }

    /// Sent offsets of this range are acknowledged. They are never sent again. Only a range behind a gap needs memory.
    pub fn ack(&mut self, range: Range<u64>) -> Result<(), OutOfMemory>
        requires { range.end ≤ self.old.unsent }
        ensures acked { OnOk result ((n : ℕ) → is_acked self.new n ≡ (is_acked self.old n || lies_in range n)) }
        ensures lost { OnOk result ((n : ℕ) →
            is_lost self.new n ≡ (is_lost self.old n && not (lies_in range n))) }
        ensures held { self.new.held ≡ uncovered (self.new.prefix - self.old.gone) self.old.held }
        ensures unsent { (self.new.unsent ≡ self.old.unsent) × (self.new.offset ≡ self.old.offset) }
        ensures room { self.old.room ≤ self.new.room }
        ensures err { OnErr result (self.new ≡ self.old) }
        ensures memory { OnErr result ((self.old.prefix < range.start) × (range.start < range.end)) }
        ensures cuts { (cuts : List (List ℕ)) → HasCuts cuts self.old → HasCuts cuts self.new }
        ensures sound { IsSound self.new }
    {
        self.outcomes.ack(range)?;
        self.pieces.drop_covered(self.outcomes.prefix());
        Ok(())
    }

    /// The written bytes of a range, as far as the piece goes that holds its start. Nothing, where
    /// the start lies in the acknowledged prefix or was not written.
    #[inline]
    pub fn get(&self, range: Range<u64>) -> &[u8]
        ensures acked { range.start < self.now.prefix → result.now ≡ [] }
        ensures unwritten { self.now.offset ≤ range.start → result.now ≡ [] }
        ensures most { length result.now ≤ range.end - range.start }
        ensures some { self.now.prefix ≤ range.start → range.start < self.now.offset →
            range.start < range.end → 0 < length result.now }
        ensures piece { (cuts : List (List ℕ)) → HasCuts cuts self.now → self.now.prefix ≤ range.start →
            result.now ≡ piece_part cuts range.start (range.end - range.start) }
        ensures bytes { (cuts : List (List ℕ)) → HasCuts cuts self.now → self.now.prefix ≤ range.start →
            IsFrontAt (concat cuts) range.start (range.end - range.start) result.now }
    {
        if range.start < self.acked_prefix() {
            return &[];
        }
        let most = range.end.saturating_sub(range.start);
        self.pieces.part(range.start, most)
    }

    /// Appends the written bytes of a range, none of them in the acknowledged prefix. If refused,
    /// nothing is appended.
    #[inline(always)]
    pub fn append_range(&self, range: Range<u64>, out: &mut Vec<u8>) -> Result<(), OutOfMemory>
        requires kept { self.now.prefix ≤ range.start }
        requires ordered { range.start ≤ range.end }
        requires written { range.end ≤ self.now.offset }
        ensures ok { (cuts : List (List ℕ)) → HasCuts cuts self.now →
            OnOk result (out.new.items
            ≡ out.old.items ++ take (range.end - range.start) (drop range.start (concat cuts))) }
        ensures len { OnOk result (vec_len out.new ≡ vec_len out.old + (range.end - range.start)) }
        ensures err { OnErr result (out.new.items ≡ out.old.items) }
        ensures capacity { vec_capacity out.old ≤ vec_capacity out.new }
        ensures succeeds { vec_len out.old + (range.end - range.start) ≤ vec_capacity out.old → IsOk result }
    {
        out.reserve((range.end - range.start) as usize)?;
        let mut at = range.start;
        while at < range.end {
            let part = self.get(at..range.end);
            at += part.len() as u64;
            append(out, part);
        }
        Ok(())
    }

    /// Whether some offset is lost or was never sent.
    #[inline]
    pub fn has_unsent_data(&self) -> bool
        ensures some { result ≡ true → ((n : ℕ) × (is_due self.now n ≡ true)) }
        ensures none { result ≡ false → (n : ℕ) → is_due self.now n ≡ false }
    {
        let lost = self.outcomes.next_lost();
        self.unsent != self.offset() || lost.start < lost.end
    }

    // The lowest lost range, or else the range that was never sent.
    #[inline]
    fn next_range(&self) -> Range<u64>
        ensures next { IsNextRange self.now result.start result.end }
        ensures ordered { result.start ≤ result.end }
        ensures small { result.end < 2 ^ 62 }
    {
        let lost = self.outcomes.next_lost();
        if lost.start < lost.end {
            return lost;
        }
        self.unsent..self.offset()
    }

    /// The range to be sent next in a frame whose offset, length and data may take `max_len` bytes,
    /// and whether the frame has a length (RFC 9000 section 19.8). The range is then sent, and not
    /// lost.
    #[inline]
    pub fn poll_transmit(&mut self, max_len: usize) -> (Range<u64>, bool)
        requires { 16 ≤ max_len }
        ensures next { (e : ℕ) × IsNextRange self.old result.0.start e × (result.0.end
            ≡ frame_end result.0.start e max_len) × (result.1 ≡ has_length result.0.start e max_len) }
        ensures within { (self.old.prefix ≤ result.0.start) × (result.0.start ≤ result.0.end)
            × (result.0.end ≤ self.old.offset) }
        ensures lost { (n : ℕ) → is_lost self.new n ≡ (is_lost self.old n && not (lies_in result.0 n)) }
        ensures sent { self.new.unsent ≡ max self.old.unsent result.0.end }
        ensures same { self.new ≡ record self.old { lost = self.new.lost; unsent = self.new.unsent } }
        ensures sound { IsSound self.new }
    {
        let (range, has_length) = self.next_transmit(max_len);
        self.mark_sent(range.start..range.end);
        (range, has_length)
    }

    /// What `poll_transmit` would answer. Nothing changes.
    #[inline]
    pub fn next_transmit(&self, max_len: usize) -> (Range<u64>, bool)
        requires { 16 ≤ max_len }
        ensures next { (e : ℕ) × IsNextRange self.now result.0.start e × (result.0.end ≡ frame_end result.0.start e max_len) × (result.1 ≡ has_length result.0.start e max_len) }
        ensures front { IsFrontOfNext self.now result.0.start result.0.end }
        ensures within { (self.now.prefix ≤ result.0.start) × (result.0.start ≤ result.0.end) × (result.0.end ≤ self.now.offset) }
        ensures small { self.now.offset < 2 ^ 62 }
    {
        let _ = &self.unsent;
        let next = self.next_range();
        let (end, has_length) = cut_to_frame(next.start, next.end, max_len);
        (next.start..end, has_length)
    }

    /// A front of the range that is to be sent next was sent, and is not lost any more.
    #[inline(always)]
    pub fn mark_sent(&mut self, range: Range<u64>)
        requires { IsFrontOfNext self.old range.start range.end }
        ensures lost { (n : ℕ) → is_lost self.new n ≡ (is_lost self.old n && not (lies_in range n)) }
        ensures sent { self.new.unsent ≡ max self.old.unsent range.end }
        ensures same { self.new ≡ record self.old { lost = self.new.lost; unsent = self.new.unsent } }
        ensures sound { IsSound self.new }
    {
        if range.start < self.unsent {
            self.outcomes.resend(range);
            return;
        }
        self.pieces.seek(range.start);
        self.unsent = range.end;
    }

    /// All that was written counts as not sent, and nothing as lost.
    pub fn retransmit_all_for_0rtt(&mut self)
        requires { (n : ℕ) → is_acked self.old n ≡ false }
        ensures same { self.new ≡ record self.old { lost = []; unsent = 0 } }
        ensures sound { IsSound self.new }
    {
        self.outcomes.lose_nothing(self.alloc);
        self.unsent = 0;
    }

    /// Makes it as [`SendBuffer::new`] does. It keeps memory for at most four pieces.
    pub fn renew(&mut self)
        ensures empty { self.new ≡ record {
          offset = 0;
          unsent = 0;
          prefix = 0;
          later = [];
          lost = [];
          held = [];
          gone = 0;
          room = self.new.room;
        } }
        ensures sound { IsSound self.new }
        ensures cuts { HasCuts [] self.new }
    {
        self.pieces.renew(self.alloc);
        self.unsent = 0;
        self.outcomes = Outcomes::up_to(self.alloc, 0);
    }

    /// Drops all bytes. Every offset counts as sent and acknowledged.
    pub fn discard(&mut self)
        ensures same { self.new ≡ record {
          offset = self.old.offset;
          unsent = self.old.offset;
          prefix = self.old.offset;
          later = [];
          lost = [];
          held = [];
          gone = self.old.offset;
          room = self.new.room;
        } }
        ensures room { self.old.room ≤ self.new.room }
        ensures cuts { (cuts : List (List ℕ)) → HasCuts cuts self.old → HasCuts cuts self.new }
        ensures sound { IsSound self.new }
    {
        let offset = self.offset();
        self.pieces.clear();
        self.outcomes = Outcomes::up_to(self.alloc, offset);
        self.unsent = offset;
    }
}

/// Where the front of a range ends that fits a STREAM frame with so many bytes behind its type and id, and whether the
/// frame has a length (RFC 9000 section 19.8).
#[inline]
pub fn cut_to_frame(start: u64, end: u64, max_len: usize) -> (u64, bool)
    requires ordered { start ≤ end }
    requires small { end < 2 ^ 62 }
    requires room { 16 ≤ max_len }
    ensures end { result.0 ≡ frame_end start end max_len }
    ensures length { result.1 ≡ has_length start end max_len }
    ensures within { (start ≤ result.0) × (result.0 ≤ end) }
{
    let mut room = max_len as u64;
    if start != 0 {
        room -= VarInt::new(start).size() as u64;
    }
    let has_length = end - start < room;
    if has_length {
        room -= 8;
    }
    (end.min(room.saturating_add(start)), has_length)
}

// Appends bytes for which there is room.
#[inline]
fn append(out: &mut Vec<u8>, bytes: &[u8])
    requires { vec_len out.old + length bytes.now ≤ vec_capacity out.old }
    ensures items { out.new.items ≡ out.old.items ++ bytes.now }
    ensures len { vec_len out.new ≡ vec_len out.old + length bytes.now }
    ensures capacity { vec_capacity out.old ≤ vec_capacity out.new }
{
    match out.extend_from_slice(bytes) {
        Ok(()) => {}
        Err(_) => unreachable!(),
    }
}
