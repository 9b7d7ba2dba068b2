// An assembler over a heap of pieces.
ghost use Rattle.std.specs.Prelude.{◌≡◌, ◌≢◌, ℕ, ◌+◌, ◌-◌, ◌^◌, ◌<◌, ◌≤◌, ◌↔◌, ◌⊎◌, ◌||◌, ◌&&◌, true, false, length, max, OnOk, OnErr, IfSome, IfNone, [], IsTrue, MatchOption, Ok, Err};
ghost use Rattle.quic_assembler.specs.Piece.{PieceView, run_end, lies, TakesOff};
ghost use Rattle.quic_assembler.specs.Reassembly.{Reassembly, fresh, Holds, IsDone, is_done, IsHeld, IsWithin, HoldsMore, Takes, Gives, SameHeld, KeepsOffsets, IsSameButHeld, HoldsNothing, HoldsOnce, MatchInsert, IfGiven, OnNothing, IsStale, run_count, piece_count, Keeps, LeavesOrder, IsNext, is_wasteful, sums, covered, with_piece, covered_with, IsCompacted, Settles};

use crate::chunk::Chunk;
use crate::errors::{EnsureError, InsertError};
use crate::piece::Piece;
use crate::pieces::Pieces;
use crate::reassemble::Reassemble;
use crate::unreceived::hold_unreceived;
use quic_ranges::RangeSet;
use quic_values::{Bytes, OutOfMemory};
use std::alloc::Global;
use std::marker::Model;

const COMPACT_THRESHOLD: usize = 2048;

const MAX_CHUNKS: usize = 1024;

const ALLOWED_WASTE: u128 = 32768;

/// Puts the bytes of one stream into order, with its pieces in a heap, where they may overlap. It begins in ordered mode:
/// reads give the stream from its beginning on, without a gap. In unordered mode reads give what is held, each offset once.
///
/// Memory stays bounded: where too many pieces are held, or pieces keep too much memory alive, they are compacted.
#[derive(Drop)]
pub struct HeapAssembler {
    pieces: Pieces,
    // In unordered mode the offsets ever received or read, else none.
    received: RangeSet,
    ordered: bool,
    bytes_read: u64,
    highest: u64,
    // How many pieces came.
    sequence: u64,
    alloc: Global,
}

impl Model for HeapAssembler {
    ghost use Rattle.quic_assembler.specs.Reassembly.{Reassembly, IsAssembler};

    ghost Value = { Reassembly };

    ghost view = { λ a. record { runs = a.pieces.runs; received = a.received; bytes_read = a.bytes_read; ordered = a.ordered; highest = a.highest } };

    ghost invariant = { λ a. IsAssembler a.pieces.runs a.received a.ordered a.bytes_read };
}

impl HeapAssembler {
    /// An assembler that holds nothing, in ordered mode. Takes no memory.
    pub fn new(alloc: Global) -> Self
        ensures fresh { result ≡ fresh }
        ensures empty { HoldsNothing (Holds result) }
        ensures bytes_read { result.bytes_read ≡ 0 }
        ensures ordered { result.ordered ≡ true }
        ensures highest { result.highest ≡ 0 }
        ensures pieces { piece_count result ≡ 0 }
    {
        HeapAssembler {
            pieces: Pieces::new(alloc),
            received: RangeSet::new(alloc),
            ordered: true,
            bytes_read: 0,
            highest: 0,
            sequence: 0,
            alloc,
        }
    }

    /// Makes it as [`HeapAssembler::new`] does.
    pub fn reinit(&mut self)
        ensures fresh { self.new ≡ fresh }
        ensures empty { HoldsNothing (Holds self.new) }
        ensures bytes_read { self.new.bytes_read ≡ 0 }
        ensures ordered { self.new.ordered ≡ true }
        ensures highest { self.new.highest ≡ 0 }
        ensures pieces { piece_count self.new ≡ 0 }
    {
        self.pieces.clear();
        self.received = RangeSet::new(self.alloc);
        self.ordered = true;
        self.bytes_read = 0;
        self.highest = 0;
        self.sequence = 0;
    }

    /// How many bytes were read.
    #[inline]
    pub fn bytes_read(&self) -> u64
        ensures { result ≡ self.now.bytes_read }
    {
        self.bytes_read
    }

    /// How many pieces are held.
    #[inline]
    pub fn pieces(&self) -> usize
        ensures { result ≡ piece_count self.now }
    {
        self.pieces.len()
    }

    /// Lets go of all that is held.
    pub fn clear(&mut self)
        ensures empty { HoldsNothing (Holds self.new) }
        ensures bytes_read { self.new.bytes_read ≡ self.old.bytes_read }
        ensures ordered { self.new.ordered ≡ self.old.ordered }
        ensures highest { self.new.highest ≡ self.old.highest }
        ensures done { (at : ℕ) → is_done self.new at ≡ is_done self.old at }
        ensures pieces { piece_count self.new ≡ 0 }
    {
        self.pieces.clear();
    }

    /// Takes bytes that came at an offset (RFC 9000, section 19.8). `allocation_size` is how much memory they keep
    /// alive. What is done is dropped: in ordered mode what lies below the bytes that were read, in unordered mode
    /// what was received before. Afterwards pieces are compacted where more than 2048 are held, or where they keep
    /// much more memory alive than they have bytes.
    ///
    /// With `TooManyChunks` and `CompactionMemory` the bytes are kept all the same; with `OutOfMemory` nothing
    /// changes. In ordered mode bytes that are empty or were read before need no memory.
    pub fn insert(
        &mut self,
        offset: u64,
        bytes: Bytes,
        allocation_size: usize,
    ) -> Result<(), InsertError>
        requires fits { offset + length bytes < 2 ^ 62 }
        requires allocated { length bytes ≤ allocation_size }
        ensures kept { MatchInsert result (Takes (Holds self.old) (Holds self.new) (IsDone self.old) offset bytes) (self.new ≡ self.old) }
        ensures highest { MatchInsert result (self.new.highest ≡ max self.old.highest (offset + length bytes)) (self.new.highest ≡ self.old.highest) }
        ensures done { (at : ℕ) → self.old.ordered ≡ false → MatchInsert result (is_done self.new at ≡ (is_done self.old at || lies offset (offset + length bytes) at)) (is_done self.new at ≡ is_done self.old at) }

        ensures unneeded { self.old.ordered ≡ true → offset + length bytes ≤ max offset self.old.bytes_read → result ≡ Err InsertError.OutOfMemory → ⊥ }
        ensures many { result ≡ Err InsertError.TooManyChunks → 1024 < piece_count self.new }
        ensures few { OnOk result (IsStale self.old offset bytes ⊎ (piece_count self.new ≤ 2048)) }
        ensures stale { IsStale self.old offset bytes → piece_count self.new ≡ piece_count self.old }
        ensures stale_ok { IsStale self.old offset bytes → result ≡ Ok tt }
        ensures stale_sums { IsStale self.old offset bytes → sums self.new ≡ sums self.old }
        ensures settles { IsStale self.old offset bytes ⊎ Settles result (is_wasteful (with_piece self.old offset bytes allocation_size) (max self.old.highest (offset + length bytes) - self.old.bytes_read)) (with_piece self.old offset bytes allocation_size) (covered_with self.old offset bytes) (sums self.new) }
        ensures pieces { IsTrue self.old.ordered → piece_count self.new ≤ piece_count self.old + 1 }
        ensures pieces_unordered { self.old.ordered ≡ false → piece_count self.new ≤ piece_count self.old + run_count (is_done self.old) offset (length bytes) }

        ensures bytes_read { self.new.bytes_read ≡ self.old.bytes_read }
        ensures ordered { self.new.ordered ≡ self.old.ordered }
    {
        let end = offset + bytes.len() as u64;
        if self.ordered && offset < self.bytes_read && end <= self.bytes_read {
            self.highest = self.highest.max(end);
            return Ok(());
        }
        self.hold(offset, bytes, allocation_size)?;
        self.relieve()
    }

    // Keeps what is not done.
    fn hold(&mut self, offset: u64, bytes: Bytes, allocation_size: usize) -> Result<(), OutOfMemory>
        requires { offset + length bytes < 2 ^ 62 }
        ensures ok { OnOk result (Keeps self.old self.new offset bytes allocation_size) }
        ensures err { OnErr result (self.new ≡ self.old) }
        ensures unneeded { OnErr result (self.old.ordered ≡ true → offset + length bytes ≤ max offset self.old.bytes_read → ⊥) }
    {
        if self.ordered {
            return self.hold_unread(offset, bytes, allocation_size);
        }
        let end = offset + bytes.len() as u64;
        let piece = Piece::new(offset, bytes, allocation_size, self.sequence);
        hold_unreceived(&mut self.pieces, &mut self.received, piece, self.alloc)?;
        self.sequence = self.sequence.wrapping_add(1);
        self.highest = self.highest.max(end);
        Ok(())
    }

    // In ordered mode keeps what lies above the bytes that were read.
    fn hold_unread(
        &mut self,
        offset: u64,
        bytes: Bytes,
        allocation_size: usize,
    ) -> Result<(), OutOfMemory>
        requires fits { offset + length bytes < 2 ^ 62 }
        requires mode { self.old.ordered ≡ true }
        ensures ok { OnOk result (Keeps self.old self.new offset bytes allocation_size) }
        ensures err { OnErr result (self.new ≡ self.old) }
        ensures unneeded { OnErr result (offset + length bytes ≤ max offset self.old.bytes_read → ⊥) }
    {
        let end = offset + bytes.len() as u64;
        if end <= offset.max(self.bytes_read) {
            self.highest = self.highest.max(end);
            return Ok(());
        }
        let mut piece = Piece::new(offset, bytes, allocation_size, self.sequence);
        piece.cut_below(self.bytes_read);
        self.pieces.push(piece)?;
        self.sequence = self.sequence.wrapping_add(1);
        self.highest = self.highest.max(end);
        Ok(())
    }

    // Whether too many pieces are held, or they keep too much memory alive.
    fn is_wasteful(&self) -> bool
        ensures exact { result ≡ is_wasteful (sums self.now) (self.now.highest - self.now.bytes_read) }
        ensures few { result ≡ false → piece_count self.now ≤ 2048 }
    {
        if self.pieces.len() > COMPACT_THRESHOLD {
            return true;
        }
        let unread = self.highest.saturating_sub(self.bytes_read) as u128;
        let used = self.pieces.total().min(unread);
        let waste = self.pieces.allocated().saturating_sub(used);
        waste > ALLOWED_WASTE.max(used * 3 / 2)
    }

    // Compacts where that is due.
    fn relieve(&mut self) -> Result<(), InsertError>
        ensures idle { is_wasteful (sums self.old) (self.old.highest - self.old.bytes_read) ≡ false → (result ≡ Ok tt) × (self.new ≡ self.old) }
        ensures settles { Settles result (is_wasteful (sums self.old) (self.old.highest - self.old.bytes_read)) (sums self.old) (covered self.old.runs) (sums self.new) }
        ensures held { KeepsOffsets (Holds self.old) (Holds self.new) }
        ensures kept { MatchInsert result (Unit {0}) ⊥ }
        ensures many { result ≡ Err InsertError.TooManyChunks → 1024 < piece_count self.new }
        ensures few { OnOk result (piece_count self.new ≤ 2048) }
        ensures pieces { piece_count self.new ≤ piece_count self.old }
        ensures others { IsSameButHeld self.old self.new }
    {
        if !self.is_wasteful() {
            return Ok(());
        }
        if self.defragment().is_err() {
            return Err(InsertError::CompactionMemory);
        }
        if self.pieces.len() > MAX_CHUNKS {
            return Err(InsertError::TooManyChunks);
        }
        Ok(())
    }

    /// Compacts what is held: of two bytes at one offset one goes, and small pieces that touch are joined.
    pub fn defragment(&mut self) -> Result<(), OutOfMemory>
        ensures held { KeepsOffsets (Holds self.old) (Holds self.new) }
        ensures once { OnOk result (HoldsOnce (Holds self.new)) }
        ensures compacted { OnOk result (IsCompacted (covered self.old.runs) (sums self.new)) }
        ensures err { OnErr result (SameHeld (Holds self.old) (Holds self.new)) }
        ensures err_sums { OnErr result (sums self.new ≡ sums self.old) }
        ensures pieces { piece_count self.new ≤ piece_count self.old }
        ensures others { IsSameButHeld self.old self.new }
    {
        self.pieces.compact(self.alloc)
    }

    /// Gives the first `max_length` bytes of the first piece, or all of it where it has fewer: in ordered mode those
    /// that follow what was read, in unordered mode those of lowest offset. `None` where there are none. `ordered` is
    /// the mode.
    ///
    /// A piece that is given whole is not copied. Memory is wanted only to cut one, so only where more than `max_length`
    /// bytes in a row are at hand. Where there is none, nothing is given, and only pieces that were wholly read before
    /// may be gone.
    pub fn read(&mut self, max_length: usize, ordered: bool) -> Result<Option<Chunk>, OutOfMemory>
        requires { ordered ≡ self.old.ordered }
        ensures given { IfGiven result (λ chunk. Gives (Holds self.old) (Holds self.new) chunk.offset chunk.bytes) }
        ensures here { IfGiven result (λ chunk. IsHeld (Holds self.old) chunk.offset) }
        ensures limit { IfGiven result (λ chunk. length chunk.bytes ≤ max_length) }
        ensures some { IfGiven result (λ chunk. 0 < max_length → 0 < length chunk.bytes) }
        ensures start { IfGiven result (λ chunk. IsTrue ordered → chunk.offset ≡ self.old.bytes_read) }
        ensures lowest { IfGiven result (λ chunk. (at : ℕ) → at < chunk.offset → IsHeld (Holds self.old) at → ⊥) }
        ensures moves { IfGiven result (λ chunk. self.new.bytes_read ≡ self.old.bytes_read + length chunk.bytes) }
        ensures taken { IfGiven result (λ chunk. (at : ℕ) → IsWithin chunk.offset chunk.bytes at → IsDone self.new at) }

        ensures sums { IfGiven result (λ chunk. TakesOff (length chunk.bytes) (sums self.old) (sums self.new)) }

        ensures none { OnNothing result (IsTrue ordered → IsHeld (Holds self.old) self.old.bytes_read → ⊥) }
        ensures none_unordered { OnNothing result (ordered ≡ false → HoldsNothing (Holds self.old)) }
        ensures none_held { OnNothing result (SameHeld (Holds self.old) (Holds self.new)) }
        ensures none_read { OnNothing result (self.new.bytes_read ≡ self.old.bytes_read) }

        ensures err_held { OnErr result (SameHeld (Holds self.old) (Holds self.new)) }
        ensures err_read { OnErr result (self.new.bytes_read ≡ self.old.bytes_read) }
        ensures err_more { OnErr result (HoldsMore (Holds self.old) ordered self.old.bytes_read max_length) }

        ensures done { (at : ℕ) → self.old.ordered ≡ false → is_done self.new at ≡ is_done self.old at }
        ensures ordered { self.new.ordered ≡ self.old.ordered }
        ensures highest { self.new.highest ≡ self.old.highest }
        ensures pieces { piece_count self.new ≤ piece_count self.old }
    {
        let Some(offset) = self.next_offset(ordered) else {
            return Ok(None);
        };
        match self.pieces.take_first(offset, max_length)? {
            None => Ok(None),
            Some(bytes) => {
                self.bytes_read += bytes.len() as u64;
                Ok(Some(Chunk { offset, bytes }))
            }
        }
    }

    // Where the next chunk starts, if there is one.
    fn next_offset(&self, ordered: bool) -> Option<u64>
        requires { ordered ≡ self.now.ordered }
        ensures next { IfSome result (IsNext self.now) }
        ensures none { IfNone result (self.now.ordered ≡ false) }
        ensures nothing { IfNone result (self.now.runs ≡ []) }
    {
        if ordered {
            return Some(self.bytes_read);
        }
        self.pieces.first_offset()
    }

    /// Asks for a mode. From ordered mode unordered mode is entered: pieces are compacted, what was read is dropped,
    /// and what was read or is held counts as received. There is no way back.
    pub fn ensure_ordering(&mut self, ordered: bool) -> Result<(), EnsureError>
        ensures refused { (result ≡ Err EnsureError.IllegalOrderedRead) ↔ ((ordered ≡ true) × (self.old.ordered ≡ false)) }
        ensures illegal { result ≡ Err EnsureError.IllegalOrderedRead → self.new ≡ self.old }
        ensures ok { OnOk result (self.new.ordered ≡ ordered) }
        ensures same { OnOk result (ordered ≡ self.old.ordered → self.new ≡ self.old) }
        ensures same_ok { ordered ≡ self.old.ordered → result ≡ Ok tt }
        ensures done { OnOk result (ordered ≡ false → self.old.ordered ≡ true → (at : ℕ) → IsDone self.new at ↔ ((at < self.old.bytes_read) ⊎ IsHeld (Holds self.old) at)) }
        ensures held { KeepsOffsets (Holds self.old) (Holds self.new) }
        ensures err { OnErr result (SameHeld (Holds self.old) (Holds self.new)) }
        ensures err_others { OnErr result (IsSameButHeld self.old self.new) }
        ensures bytes_read { self.new.bytes_read ≡ self.old.bytes_read }
        ensures highest { self.new.highest ≡ self.old.highest }
        ensures pieces { piece_count self.new ≤ piece_count self.old }
    {
        if ordered == self.ordered {
            return Ok(());
        }
        if ordered {
            return Err(EnsureError::IllegalOrderedRead);
        }
        self.leave_order()?;
        Ok(())
    }

    // Goes from ordered mode into unordered mode.
    fn leave_order(&mut self) -> Result<(), OutOfMemory>
        requires { self.old.ordered ≡ true }
        ensures ok { OnOk result (LeavesOrder self.old self.new) }
        ensures err { OnErr result (SameHeld (Holds self.old) (Holds self.new)) }
        ensures err_others { OnErr result (IsSameButHeld self.old self.new) }
        ensures pieces { piece_count self.new ≤ piece_count self.old }
    {
        let received = self.pieces.offsets(self.bytes_read, self.alloc)?;
        self.pieces.compact(self.alloc)?;
        self.pieces.drop_below(self.bytes_read);
        self.received = received;
        self.ordered = false;
        Ok(())
    }
}

impl Reassemble for HeapAssembler {
    ghost use Rattle.std.specs.Prelude.{length, OnErr};
    ghost use Rattle.quic_assembler.specs.Piece.{TakesOff};
    ghost use Rattle.quic_assembler.specs.Reassembly.{Holds, is_done, piece_count, sums, Accounts, IfGiven, IsSameButHeld};
    ghost use Rattle.quic_assembler.specs.Laws.{done_below, held_above, held_or_not};

    ghost holds = { Holds };

    ghost is_done = { is_done };

    ghost read_count = { λ a. a.bytes_read };

    ghost is_ordered = { λ a. a.ordered };

    ghost highest = { λ a. a.highest };

    ghost piece_count = { piece_count };

    ghost inserts = { Accounts };

    ghost reads = { λ a most result b. IfGiven result (λ chunk. TakesOff (length chunk.bytes) (sums a) (sums b)) };

    ghost orders = { λ a ordered result b. OnErr result (IsSameButHeld a b) };

    ghost done_below = { done_below };

    ghost held_above = { held_above };

    ghost held_or_not = { held_or_not };

    fn insert(
        &mut self,
        offset: u64,
        bytes: Bytes,
        allocation_size: usize,
    ) -> Result<(), InsertError> {
        HeapAssembler::insert(self, offset, bytes, allocation_size)
    }

    fn read(&mut self, max_length: usize, ordered: bool) -> Result<Option<Chunk>, OutOfMemory> {
        HeapAssembler::read(self, max_length, ordered)
    }

    fn ensure_ordering(&mut self, ordered: bool) -> Result<(), EnsureError> {
        HeapAssembler::ensure_ordering(self, ordered)
    }

    fn bytes_read(&self) -> u64 {
        HeapAssembler::bytes_read(self)
    }

    fn clear(&mut self) {
        HeapAssembler::clear(self)
    }

    fn pieces(&self) -> usize {
        HeapAssembler::pieces(self)
    }
}
