ghost use Rattle.std.specs.Prelude.{◌≡◌, ◌+◌, ◌-◌, ◌<◌, ◌≤◌, ◌^◌, ℕ, ◌++◌, ◌∷◌, [], OnOk, OnErr, IsOk, length};
ghost use Rattle.std.specs.VecDeque.{deque_len, deque_capacity};
ghost use Rattle.quic_sending.specs.Buffer.{Queued, total_length, AreFilled, IsInFirst, piece_part, uncovered};
ghost use Rattle.quic_sending.specs.Pieces.{contents, IsLaidOut, IsCountUpTo, IsBetween};

use quic_values::{Bytes, OutOfMemory};
use std::alloc::Global;
use std::collections::VecDeque;
use std::marker::Model;

// A queue that is used again keeps memory for at most so many pieces.
const KEPT_PIECES: usize = 4;

// A written piece, and the offset of its first byte.
#[derive(Drop)]
struct Piece {
    start: u64,
    bytes: Bytes,
}

/// The pieces of a stream that are still held, none of them empty. A piece is found by a binary
/// search, and its bytes never move.
#[derive(Drop)]
pub(crate) struct PieceQueue {
    pieces: VecDeque<Piece>,
    // The offset at which the first piece starts.
    gone: u64,
    // The offset behind the last piece.
    end: u64,
    // The index of a piece where the next search begins. It need not be right.
    hint: usize,
}

impl Model for PieceQueue {
    ghost use Rattle.std.specs.Prelude.{◌≡◌, ◌+◌, ◌-◌, ◌<◌, ◌^◌};
    ghost use Rattle.std.specs.VecDeque.{deque_len, deque_capacity};
    ghost use Rattle.quic_sending.specs.Buffer.{Queued, total_length};
    ghost use Rattle.quic_sending.specs.Pieces.{contents, IsLaidOut};

    ghost Value = { Queued };

    ghost view = { λ s. record {
      held = contents s.pieces.items;
      gone = s.gone;
      end = s.end;
      room = deque_capacity s.pieces - deque_len s.pieces;
    } };

    ghost invariant = { λ s. IsLaidOut s.gone s.pieces.items × (s.gone + total_length (contents s.pieces.items) ≡ s.end) × (s.end < 2 ^ 62) };
}

impl PieceQueue {
    #[inline]
    pub(crate) fn new(alloc: Global) -> Self
        ensures { result ≡ record { held = []; gone = 0; end = 0; room = result.room } }
    {
        PieceQueue {
            pieces: VecDeque::new(alloc),
            gone: 0,
            end: 0,
            hint: 0,
        }
    }

    #[inline]
    pub(crate) fn gone(&self) -> u64
        ensures { result ≡ self.now.gone }
    {
        self.gone
    }

    #[inline]
    pub(crate) fn end(&self) -> u64
        ensures { result ≡ self.now.end }
    {
        self.end
    }

    #[inline]
    pub(crate) fn reserve(&mut self, pieces: usize) -> Result<(), OutOfMemory>
        ensures ok { OnOk result (pieces ≤ self.new.room) }
        ensures roomy { pieces ≤ self.old.room → IsOk result }
        ensures same { self.new ≡ record self.old { room = self.new.room } }
        ensures room { self.old.room ≤ self.new.room }
    {
        self.pieces.reserve(pieces)?;
        Ok(())
    }

    /// Appends a piece that is not empty.
    #[inline]
    pub(crate) fn push(&mut self, piece: Bytes) -> Result<(), OutOfMemory>
        requires filled { 0 < length piece }
        requires small { self.old.end + length piece < 2 ^ 62 }
        ensures ok { OnOk result (self.new ≡ record self.old {
          held = self.old.held ++ piece ∷ [];
          end = self.old.end + length piece;
          room = self.new.room;
        }) }
        ensures err { OnErr result (self.new ≡ record self.old { room = self.new.room }) }
        ensures roomy { 0 < self.old.room → IsOk result × (self.old.room ≤ self.new.room + 1) }
    {
        let len = piece.len() as u64;
        self.pieces.push_back(Piece {
            start: self.end,
            bytes: piece,
        })?;
        self.end += len;
        Ok(())
    }

    /// Drops the pieces that end at `prefix` or below.
    #[inline]
    pub(crate) fn drop_covered(&mut self, prefix: u64)
        requires { (self.old.gone ≤ prefix) × (prefix ≤ self.old.end) }
        ensures held { self.new.held ≡ uncovered (prefix - self.old.gone) self.old.held }
        ensures end { self.new.end ≡ self.old.end }
        ensures lengths { self.new.gone + total_length self.new.held ≡ self.new.end }
        ensures filled { AreFilled self.new.held }
        ensures first { IsInFirst (prefix - self.new.gone) self.new.held }
        ensures gone { self.new.gone ≤ prefix }
        ensures room { self.old.room ≤ self.new.room }
    {
        let before = self.pieces.len();
        drop_covered(&mut self.pieces, &mut self.gone, prefix);
        self.hint = self.hint.saturating_sub(before - self.pieces.len());
    }

    /// Lets the next search begin at the piece that holds `offset`, if it lies ahead.
    #[inline]
    pub(crate) fn seek(&mut self, offset: u64)
        ensures { self.new ≡ self.old }
    {
        self.hint = advance_hint(&self.pieces, self.hint, offset);
    }

    /// At most `most` bytes from offset `start` on, of the piece that holds that offset.
    #[inline]
    pub(crate) fn part(&self, start: u64, most: u64) -> &[u8]
        requires { self.now.gone ≤ start }
        ensures { result.now ≡ piece_part self.now.held (start - self.now.gone) most }
    {
        let count = count_up_to(&self.pieces, self.hint, start);
        if count == 0 {
            return &[];
        }
        let piece = &self.pieces[count - 1];
        let at = start - piece.start;
        let len = piece.bytes.len() as u64;
        if at >= len {
            return &[];
        }
        let end = at + most.min(len - at);
        &piece.bytes.as_slice()[at as usize..end as usize]
    }

    /// Makes it as [`PieceQueue::new`] does. It keeps memory for at most four pieces.
    #[inline]
    pub(crate) fn renew(&mut self, alloc: Global)
        ensures { self.new ≡ record { held = []; gone = 0; end = 0; room = self.new.room } }
    {
        empty(&mut self.pieces, alloc);
        self.gone = 0;
        self.end = 0;
        self.hint = 0;
    }

    /// Drops all pieces. The end stays.
    pub(crate) fn clear(&mut self)
        ensures same { self.new ≡ record self.old { held = []; gone = self.old.end; room = self.new.room } }
        ensures room { self.old.room ≤ self.new.room }
    {
        self.pieces.clear();
        self.gone = self.end;
    }
}

// Lets all pieces go, and memory for more than a few.
#[inline]
fn empty(pieces: &mut VecDeque<Piece>, alloc: Global)
    ensures { pieces.new.items ≡ [] }
{
    if pieces.capacity() > KEPT_PIECES {
        *pieces = VecDeque::new(alloc);
    } else {
        pieces.clear();
    }
}

// The index of the last piece from `hint` on that starts at an offset or before it.
#[inline]
fn advance_hint(pieces: &VecDeque<Piece>, hint: usize, offset: u64) -> usize {
    let mut hint = hint;
    while hint < pieces.len() && pieces.len() - hint > 1 && pieces[hint + 1].start <= offset {
        hint += 1;
    }
    hint
}

// How many of the pieces start at an offset or before it.
#[inline]
fn count_up_to(pieces: &VecDeque<Piece>, hint: usize, offset: u64) -> usize
    requires { (from : ℕ) × IsLaidOut from pieces.now.items }
    ensures { IsCountUpTo pieces.now.items offset result }
{
    let (mut low, mut high) = bounds_at(pieces, hint, offset);
    while low < high {
        let middle = low + (high - low) / 2;
        if pieces[middle].start <= offset {
            low = middle + 1;
        } else {
            high = middle;
        }
    }
    low
}

// Bounds on how many of the pieces start at an offset or before it, by those at `hint`.
#[inline]
fn bounds_at(pieces: &VecDeque<Piece>, hint: usize, offset: u64) -> (usize, usize)
    requires { (from : ℕ) × IsLaidOut from pieces.now.items }
    ensures { IsBetween pieces.now.items offset result.0 result.1 }
{
    let len = pieces.len();
    if hint >= len {
        return (0, len);
    }
    if offset < pieces[hint].start {
        return (0, hint);
    }
    let next = hint + 1;
    if next < len && offset < pieces[next].start {
        return (next, next);
    }
    (next, len)
}

// Drops the pieces at the front that end at `prefix` or below.
fn drop_covered(pieces: &mut VecDeque<Piece>, gone: &mut u64, prefix: u64)
    requires gone_acked { gone.old ≤ prefix }
    requires laid_out { IsLaidOut gone.old pieces.old.items }
    requires small { gone.old + total_length (contents pieces.old.items) < 2 ^ 62 }
    requires acked_written { prefix ≤ gone.old + total_length (contents pieces.old.items) }
    ensures held { contents pieces.new.items ≡ uncovered (prefix - gone.old) (contents pieces.old.items) }
    ensures laid_out { IsLaidOut gone.new pieces.new.items }
    ensures lengths { gone.new + total_length (contents pieces.new.items) ≡ gone.old + total_length (contents pieces.old.items) }
    ensures first { IsInFirst (prefix - gone.new) (contents pieces.new.items) }
    ensures gone_acked { gone.new ≤ prefix }
    ensures room { (deque_len pieces.new ≤ deque_len pieces.old) × (deque_capacity pieces.new
        ≡ deque_capacity pieces.old) }
{
    while let Some(front) = pieces.front() {
        let len = front.bytes.len() as u64;
        if prefix - *gone < len {
            break;
        }
        *gone += len;
        pieces.pop_front();
    }
}
