// The pieces that are held, the lowest offset first.
ghost use Rattle.std.specs.Prelude.{◌≡◌, ℕ, ◌+◌, ◌-◌, ◌^◌, ◌<◌, ◌≤◌, ◌↔◌, true, false, [], ◌∷◌, ◌++◌, length, vec_len, slice_index_or, take, drop, nat_lt, min, IfOk, OnOk, OnErr, IfSome, IfNone, IsTrue, MatchOption, sum_by};
ghost use Rattle.std.specs.List.{Any, All};
ghost use Rattle.std.specs.List.Sorted.{IsPermutation};
ghost use Rattle.quic_assembler.specs.Compact.{Compacts, slots, with_run};
ghost use Rattle.quic_assembler.specs.Reassembly.{covered, IsCompacted};
ghost use Rattle.quic_ranges.specs.Runs.{contains};
ghost use Rattle.quic_assembler.specs.Piece.{PieceView, Covers, RunHolds, cover_count, bit, Queue, IsSome, IsPieceSound, IsLowest, run_end, run_length, run_allocation, sums_of, cut_at, advance_by, KeepsFrom, CoversMore, IsFreshFrom, NoneHoldsAt, TakesSome, TakesNone, Sheds, ReadsOff};

use crate::piece::Piece;
use quic_ranges::RangeSet;
use quic_values::{Bytes, OutOfMemory};
use std::alloc::Global;
use std::collections::BinaryHeap;
use std::marker::Model;
use std::mem;

mod compact;

const MAX_CHUNKS: u128 = 1024;

const MIN_RETAINED_CHUNK_SIZE: u128 = 128;

#[derive(Drop)]
pub(crate) struct Pieces {
    heap: BinaryHeap<Piece>,
    // The sum of the lengths.
    total: u128,
    // The sum of the allocation sizes.
    allocated: u128,
}

impl Model for Pieces {
    ghost use Rattle.std.specs.BinaryHeap.{heap_items, heap_capacity};
    ghost use Rattle.quic_assembler.specs.Piece.{Queue, IsQueue};

    ghost Value = { Queue };

    ghost view = { λ p. record { runs = heap_items p.heap; room = heap_capacity p.heap } };

    ghost invariant = { λ p. IsQueue p.total p.allocated (heap_items p.heap) };
}

impl Pieces {
    pub(crate) fn new(alloc: Global) -> Self
        ensures { result.runs ≡ [] }
    {
        Pieces {
            heap: BinaryHeap::new(alloc),
            total: 0,
            allocated: 0,
        }
    }

    /// Has room for so many pieces.
    pub(crate) fn with_capacity(alloc: Global, count: usize) -> Result<Self, OutOfMemory>
        ensures runs { IfOk result (λ pieces. pieces.runs ≡ []) }
        ensures room { IfOk result (λ pieces. count ≤ pieces.room) }
    {
        Ok(Pieces {
            heap: BinaryHeap::with_capacity(alloc, count)?,
            total: 0,
            allocated: 0,
        })
    }

    #[inline]
    pub(crate) fn len(&self) -> usize
        ensures { result ≡ length self.now.runs }
    {
        self.heap.len()
    }

    #[inline]
    pub(crate) fn total(&self) -> u128
        ensures { result ≡ sum_by run_length self.now.runs }
    {
        self.total
    }

    #[inline]
    pub(crate) fn allocated(&self) -> u128
        ensures { result ≡ sum_by run_allocation self.now.runs }
    {
        self.allocated
    }

    pub(crate) fn clear(&mut self)
        ensures { self.new.runs ≡ [] }
    {
        self.heap.clear();
        self.total = 0;
        self.allocated = 0;
    }

    pub(crate) fn reserve(&mut self, count: usize) -> Result<(), OutOfMemory>
        ensures runs { self.new.runs ≡ self.old.runs }
        ensures room { OnOk result (length self.new.runs + count ≤ self.new.room) }
    {
        self.heap.reserve(count)?;
        Ok(())
    }

    #[inline]
    pub(crate) fn push(&mut self, piece: Piece) -> Result<(), OutOfMemory>
        requires { 0 < length piece.bytes }
        ensures ok { OnOk result (IsPermutation (piece ∷ self.old.runs) self.new.runs) }
        ensures err { OnErr result (self.new.runs ≡ self.old.runs) }
        ensures room { self.old.room ≤ self.new.room }
        ensures succeeds { length self.old.runs < self.old.room → OnErr result ⊥ }
    {
        let length = piece.len() as u128;
        let allocated = piece.allocation_size() as u128;
        self.heap.push(piece)?;
        self.total += length;
        self.allocated += allocated;
        Ok(())
    }

    /// There is room.
    pub(crate) fn put(&mut self, piece: Piece)
        requires some { 0 < length piece.bytes }
        requires room { length self.old.runs < self.old.room }
        ensures put { IsPermutation (piece ∷ self.old.runs) self.new.runs }
        ensures room { self.old.room ≤ self.new.room }
    {
        if self.push(piece).is_err() {
            unreachable!();
        }
    }

    /// Puts a piece, unless it is empty. There is room.
    pub(crate) fn put_some(&mut self, piece: Piece)
        requires { slots piece self.old.runs ≤ self.old.room }
        ensures put { IsPermutation (with_run piece self.old.runs) self.new.runs }
        ensures room { self.old.room ≤ self.new.room }
    {
        if piece.len() > 0 {
            self.put(piece);
        }
    }

    /// Puts all of some pieces. There is room.
    pub(crate) fn put_all(&mut self, pieces: Vec<Piece>)
        requires some { All IsSome pieces.items }
        requires room { length self.old.runs + vec_len pieces ≤ self.old.room }
        ensures put { IsPermutation (pieces.items ++ self.old.runs) self.new.runs }
        ensures room { self.old.room ≤ self.new.room }
    {
        for piece in pieces {
            self.put(piece);
        }
    }

    #[inline]
    pub(crate) fn pop_first(&mut self) -> Piece
        requires { 0 < length self.old.runs }
        ensures first { result ≡ slice_index_or self.old.runs 0 result }
        ensures popped { IsPermutation self.old.runs (result ∷ self.new.runs) }
        ensures lowest { IsLowest result self.old.runs }
        ensures sound { IsPieceSound result }
        ensures others { All IsSome self.new.runs }
        ensures room { length self.new.runs < self.new.room }
    {
        let piece = self.heap.pop().unwrap();
        self.total -= piece.len() as u128;
        self.allocated -= piece.allocation_size() as u128;
        piece
    }

    /// Puts the pieces in a row without what an earlier one has, and joins small ones that touch. If refused, all
    /// pieces are there as before.
    pub(crate) fn compact(&mut self, alloc: Global) -> Result<(), OutOfMemory>
        ensures compacts { OnOk result (Compacts self.old.runs self.new.runs) }
        ensures compacted { OnOk result (IsCompacted (covered self.old.runs) (sums_of self.new.runs)) }
        ensures len { length self.new.runs ≤ length self.old.runs }
        ensures err { OnErr result (IsPermutation self.old.runs self.new.runs) }
    {
        let least = self.total.div_ceil(MAX_CHUNKS).max(MIN_RETAINED_CHUNK_SIZE);
        let mut out = Pieces::with_capacity(alloc, self.heap.len())?;
        let heap = mem::replace(&mut self.heap, BinaryHeap::new(alloc));
        let mut pieces = heap.into_vec();
        pieces.sort_unstable();
        match compact::join_small(&pieces, least, alloc) {
            Err(refused) => {
                self.heap = BinaryHeap::from(pieces);
                Err(refused)
            }
            Ok(copies) => {
                compact::keep_large(pieces, least, &mut out);
                out.put_all(copies);
                *self = out;
                Ok(())
            }
        }
    }

    // Whether the first piece ends at or below the floor.
    fn is_stale(&self, floor: u64) -> bool
        ensures some { IsTrue result → 0 < length self.now.runs }
        ensures value { (d : PieceView) → 0 < length self.now.runs → IsTrue result ↔ (run_end (slice_index_or self.now.runs 0 d) ≤ floor) }
    {
        match self.heap.peek() {
            None => false,
            Some(first) => first.end() <= floor,
        }
    }

    // Whether the first piece starts at or below the floor.
    fn reaches(&self, floor: u64) -> bool
        ensures some { IsTrue result → 0 < length self.now.runs }
        ensures yes { (d : PieceView) → IsTrue result → (slice_index_or self.now.runs 0 d).offset ≤ floor }
        ensures no { result ≡ false → All (λ q. floor < q.offset) self.now.runs }
    {
        match self.heap.peek() {
            None => false,
            Some(first) => first.offset() <= floor,
        }
    }

    /// The lowest offset.
    pub(crate) fn first_offset(&self) -> Option<u64>
        ensures covered { IfSome result (λ o. Any (Covers o) self.now.runs) }
        ensures lowest { IfSome result (λ o. All (λ q. o ≤ q.offset) self.now.runs) }
        ensures none { IfNone result (self.now.runs ≡ []) }
    {
        match self.heap.peek() {
            None => None,
            Some(first) => Some(first.offset()),
        }
    }

    // Lets go of the pieces at the front that end at or below the floor.
    fn drop_stale(&mut self, floor: u64)
        ensures kept { KeepsFrom floor self.old.runs self.new.runs }
        ensures fresh { IsFreshFrom floor self.new.runs }
        ensures sheds { Sheds floor self.old.runs self.new.runs }
        ensures len { length self.new.runs ≤ length self.old.runs }
    {
        while self.is_stale(floor) {
            self.pop_first();
        }
    }

    // Gives the first bytes of a piece that was popped, and puts back what is left.
    fn take_front(&mut self, mut piece: Piece, max_length: usize) -> Result<Bytes, OutOfMemory>
        requires some { 0 < length piece.bytes }
        requires room { length self.old.runs < self.old.room }
        ensures value { IfOk result (λ v. v ≡ take max_length piece.bytes) }
        ensures part { OnOk result (max_length < length piece.bytes → IsPermutation (advance_by max_length piece ∷ self.old.runs) self.new.runs) }
        ensures whole { OnOk result (length piece.bytes ≤ max_length → self.new.runs ≡ self.old.runs) }
        ensures err { OnErr result (IsPermutation (piece ∷ self.old.runs) self.new.runs) }
        ensures err_part { OnErr result (max_length < length piece.bytes) }
        ensures len { length self.new.runs ≤ length self.old.runs + 1 }
    {
        if piece.len() <= max_length {
            return Ok(piece.into_bytes());
        }
        let front = piece.split_to(max_length);
        self.put(piece);
        front
    }

    /// Takes the bytes from the floor on out of the first piece. Pieces that end at or below it go.
    pub(crate) fn take_first(
        &mut self,
        floor: u64,
        max_length: usize,
    ) -> Result<Option<Bytes>, OutOfMemory>
        ensures ok { IfOk result (λ given. MatchOption given (TakesNone floor self.old.runs self.new.runs) (λ v. TakesSome floor max_length v self.old.runs self.new.runs)) }
        ensures off { IfOk result (λ given. MatchOption given (Sheds floor self.old.runs self.new.runs) (λ v. ReadsOff floor max_length v self.old.runs self.new.runs)) }
        ensures err { OnErr result (KeepsFrom floor self.old.runs self.new.runs) }
        ensures err_more { OnErr result (CoversMore floor max_length self.old.runs) }
        ensures len { length self.new.runs ≤ length self.old.runs }
    {
        self.drop_stale(floor);
        if !self.reaches(floor) {
            return Ok(None);
        }
        let mut piece = self.pop_first();
        piece.cut_below(floor);
        let bytes = self.take_front(piece, max_length)?;
        Ok(Some(bytes))
    }

    /// Drops what lies below the floor, of pieces that do not overlap.
    pub(crate) fn drop_below(&mut self, floor: u64)
        requires { (at : ℕ) → cover_count at self.old.runs ≤ 1 }
        ensures kept { KeepsFrom floor self.old.runs self.new.runs }
        ensures below { (at : ℕ) → at < floor → cover_count at self.new.runs ≡ 0 }
        ensures len { length self.new.runs ≤ length self.old.runs }
    {
        self.drop_stale(floor);
        if self.reaches(floor) {
            let mut piece = self.pop_first();
            piece.cut_below(floor);
            self.put(piece);
        }
    }

    /// The offsets below a floor, and those of all pieces.
    pub(crate) fn offsets(&self, floor: u64, alloc: Global) -> Result<RangeSet, OutOfMemory>
        ensures { IfOk result (λ set. (at : ℕ) → bit (contains set at) ≡ min 1 (bit (nat_lt at floor) + cover_count at self.now.runs)) }
    {
        let mut set = RangeSet::new(alloc);
        set.insert(0..floor)?;
        for piece in self.heap.as_slice() {
            set.insert(piece.offset()..piece.end())?;
        }
        Ok(set)
    }
}
