// An assembler over pieces that do not overlap.
ghost use Rattle.std.specs.Prelude.{◌≡◌, ℕ, ◌+◌, ◌-◌, ◌^◌, ◌<◌, ◌≤◌, ◌↔◌, ◌⊎◌, ◌||◌, true, false, [], ◌∷◌, length, max, OnOk, OnErr, IfOk, IsTrue, Ok, Err};
ghost use Rattle.std.specs.List.{All, Any};
ghost use Rattle.quic_assembler.specs.Piece.{PieceView, lies, sums_of};
ghost use Rattle.quic_assembler.specs.Reassembly.{Reassembly, fresh, Holds, IsDone, is_done, IsHeld, IsWithin, HoldsMore, Takes, Gives, SameHeld, KeepsOffsets, IsSameButHeld, HoldsNothing, HoldsOnce, MatchInsert, IfGiven, OnNothing, IsStale, IsNext, run_count, piece_count, LeavesOrder, is_wasteful};
ghost use Rattle.quic_ordered.specs.Assembly.{KeepsPiece, IsJoined, Relieves, Settled, FormMoreRuns};
ghost use Rattle.quic_ordered.specs.Rows.{IsKeptOrOwn, GivesFirst, HoldSame, Encloses};

use crate::pieces::OrderedPieces;
use quic_assembler::{Chunk, EnsureError, InsertError, Reassemble};
use quic_ranges::RangeSet;
use quic_values::{Bytes, OutOfMemory};
use std::alloc::Global;
use std::marker::Model;

const COMPACT_THRESHOLD: usize = 2048;

const MAX_CHUNKS: usize = 1024;

const ALLOWED_WASTE: u128 = 32768;

/// Puts the bytes of one stream into order (RFC 9000, section 2.2), and holds no offset twice. It begins in ordered
/// mode: reads give the stream from its beginning on, without a gap. In unordered mode reads give what is held, each
/// offset once.
///
/// Memory stays bounded by what is held, not by what comes: bytes that lie within one held piece take none, and where
/// too many pieces are held, or pieces keep too much memory alive, they are compacted.
#[derive(Drop)]
pub struct Assembler {
    pieces: OrderedPieces,
    // In unordered mode the offsets ever received or read, else none.
    received: RangeSet,
    ordered: bool,
    bytes_read: u64,
    highest: u64,
    alloc: Global,
}

impl Model for Assembler {
    ghost use Rattle.quic_assembler.specs.Reassembly.{Reassembly};
    ghost use Rattle.quic_ordered.specs.Assembly.{IsApartAssembler};

    ghost Value = { Reassembly };

    ghost view = { λ a. record { runs = a.pieces; received = a.received; bytes_read = a.bytes_read; ordered = a.ordered; highest = a.highest } };

    ghost invariant = { λ a. IsApartAssembler a.pieces a.received a.ordered a.bytes_read };
}

impl Assembler {
    /// An assembler that holds nothing, in ordered mode. Takes no memory.
    pub fn new(alloc: Global) -> Self
        ensures fresh { result ≡ fresh }
        ensures empty { HoldsNothing (Holds result) }
        ensures bytes_read { result.bytes_read ≡ 0 }
        ensures ordered { result.ordered ≡ true }
        ensures highest { result.highest ≡ 0 }
        ensures pieces { piece_count result ≡ 0 }
    {
        Assembler {
            pieces: OrderedPieces::new(alloc),
            received: RangeSet::new(alloc),
            ordered: true,
            bytes_read: 0,
            highest: 0,
            alloc,
        }
    }

    /// Makes it as [`Assembler::new`] does.
    pub fn reinit(&mut self)
        ensures fresh { self.new ≡ fresh }
        ensures empty { HoldsNothing (Holds self.new) }
        ensures bytes_read { self.new.bytes_read ≡ 0 }
        ensures ordered { self.new.ordered ≡ true }
        ensures highest { self.new.highest ≡ 0 }
        ensures pieces { piece_count self.new ≡ 0 }
    {
        self.pieces = OrderedPieces::new(self.alloc);
        self.received = RangeSet::new(self.alloc);
        self.ordered = true;
        self.bytes_read = 0;
        self.highest = 0;
    }

    /// How many bytes were read.
    #[inline]
    pub fn bytes_read(&self) -> u64
        ensures { result ≡ self.now.bytes_read }
    {
        self.bytes_read
    }

    /// How many pieces are held.
    #[inline]
    pub fn pieces(&self) -> usize
        ensures { result ≡ piece_count self.now }
    {
        self.pieces.len()
    }

    /// Lets go of all that is held.
    pub fn clear(&mut self)
        ensures empty { HoldsNothing (Holds self.new) }
        ensures bytes_read { self.new.bytes_read ≡ self.old.bytes_read }
        ensures ordered { self.new.ordered ≡ self.old.ordered }
        ensures highest { self.new.highest ≡ self.old.highest }
        ensures done { (at : ℕ) → is_done self.new at ≡ is_done self.old at }
        ensures pieces { piece_count self.new ≡ 0 }
    {
        self.pieces.clear();
    }

    /// Takes bytes that came at an offset (RFC 9000, section 19.8). `allocation_size` is how much memory they keep
    /// alive. In ordered mode what lies below the bytes that were read is cut off, and the rest is joined with all
    /// pieces that it overlaps; where two bytes meet the held one stays. In unordered mode what was received before is
    /// dropped. Afterwards pieces are compacted where more than 2048 are held, or where they keep much more memory
    /// alive than they have bytes.
    ///
    /// With `TooManyChunks` and `CompactionMemory` the bytes are kept all the same; with `OutOfMemory` nothing
    /// changes. In ordered mode bytes that are empty, were read before or lie within one held piece need no memory.
    /// `TooManyChunks` comes only where the offsets that are held form more than 1024 runs without neighbours.
    #[inline(always)]
    pub fn insert(
        &mut self,
        offset: u64,
        bytes: Bytes,
        allocation_size: usize,
    ) -> Result<(), InsertError>
        requires fits { offset + length bytes < 2 ^ 62 }
        requires allocated { length bytes ≤ allocation_size }
        ensures kept { MatchInsert result (Takes (Holds self.old) (Holds self.new) (IsDone self.old) offset bytes) (self.new ≡ self.old) }
        ensures highest { MatchInsert result (self.new.highest ≡ max self.old.highest (offset + length bytes)) (self.new.highest ≡ self.old.highest) }
        ensures done { (at : ℕ) → self.old.ordered ≡ false → MatchInsert result (is_done self.new at ≡ (is_done self.old at || lies offset (offset + length bytes) at)) (is_done self.new at ≡ is_done self.old at) }
        ensures unneeded { self.old.ordered ≡ true → offset + length bytes ≤ max offset self.old.bytes_read → result ≡ Err InsertError.OutOfMemory → ⊥ }
        ensures within { self.old.ordered ≡ true → Any (Encloses (max offset self.old.bytes_read) (offset + length bytes)) self.old.runs → result ≡ Err InsertError.OutOfMemory → ⊥ }
        ensures many { result ≡ Err InsertError.TooManyChunks → 1024 < piece_count self.new }
        ensures runs { result ≡ Err InsertError.TooManyChunks → FormMoreRuns 1024 (Holds self.new) }
        ensures few { OnOk result (IsStale self.old offset bytes ⊎ (piece_count self.new ≤ 2048)) }
        ensures stale { IsStale self.old offset bytes → piece_count self.new ≡ piece_count self.old }
        ensures stale_runs { IsStale self.old offset bytes → self.new.runs ≡ self.old.runs }
        ensures stale_ok { IsStale self.old offset bytes → result ≡ Ok tt }
        ensures settled { MatchInsert result (IsStale self.old offset bytes ⊎ Settled self.old offset bytes allocation_size result self.new) (Unit {0}) }
        ensures pieces { IsTrue self.old.ordered → piece_count self.new ≤ piece_count self.old + 1 }
        ensures pieces_unordered { self.old.ordered ≡ false → piece_count self.new ≤ piece_count self.old + run_count (is_done self.old) offset (length bytes) }
        ensures bytes_read { self.new.bytes_read ≡ self.old.bytes_read }
        ensures ordered { self.new.ordered ≡ self.old.ordered }
    {
        if self.ordered && offset < self.bytes_read {
            return self.insert_below(offset, bytes, allocation_size);
        }
        self.hold(offset, bytes, allocation_size)?;
        self.relieve()
    }

    // In ordered mode takes bytes that begin below those that were read.
    #[inline(never)]
    fn insert_below(
        &mut self,
        offset: u64,
        bytes: Bytes,
        allocation_size: usize,
    ) -> Result<(), InsertError>
        requires mode { self.old.ordered ≡ true }
        requires below { offset < self.old.bytes_read }
        requires fits { offset + length bytes < 2 ^ 62 }
        requires allocated { length bytes ≤ allocation_size }
        ensures kept { MatchInsert result (Takes (Holds self.old) (Holds self.new) (IsDone self.old) offset bytes) (self.new ≡ self.old) }
        ensures highest { MatchInsert result (self.new.highest ≡ max self.old.highest (offset + length bytes)) (self.new.highest ≡ self.old.highest) }
        ensures done { (at : ℕ) → self.old.ordered ≡ false → MatchInsert result (is_done self.new at ≡ (is_done self.old at || lies offset (offset + length bytes) at)) (is_done self.new at ≡ is_done self.old at) }
        ensures unneeded { self.old.ordered ≡ true → offset + length bytes ≤ max offset self.old.bytes_read → result ≡ Err InsertError.OutOfMemory → ⊥ }
        ensures within { self.old.ordered ≡ true → Any (Encloses (max offset self.old.bytes_read) (offset + length bytes)) self.old.runs → result ≡ Err InsertError.OutOfMemory → ⊥ }
        ensures many { result ≡ Err InsertError.TooManyChunks → 1024 < piece_count self.new }
        ensures runs { result ≡ Err InsertError.TooManyChunks → FormMoreRuns 1024 (Holds self.new) }
        ensures few { OnOk result (IsStale self.old offset bytes ⊎ (piece_count self.new ≤ 2048)) }
        ensures stale { IsStale self.old offset bytes → piece_count self.new ≡ piece_count self.old }
        ensures stale_runs { IsStale self.old offset bytes → self.new.runs ≡ self.old.runs }
        ensures stale_ok { IsStale self.old offset bytes → result ≡ Ok tt }
        ensures settled { MatchInsert result (IsStale self.old offset bytes ⊎ Settled self.old offset bytes allocation_size result self.new) (Unit {0}) }
        ensures pieces { IsTrue self.old.ordered → piece_count self.new ≤ piece_count self.old + 1 }
        ensures pieces_unordered { self.old.ordered ≡ false → piece_count self.new ≤ piece_count self.old + run_count (is_done self.old) offset (length bytes) }
        ensures bytes_read { self.new.bytes_read ≡ self.old.bytes_read }
        ensures ordered { self.new.ordered ≡ self.old.ordered }
    {
        let end = offset + bytes.len() as u64;
        if end <= self.bytes_read {
            self.highest = self.highest.max(end);
            return Ok(());
        }
        self.hold_above(offset, bytes, allocation_size)?;
        self.relieve()
    }

    // Keeps what lies above the bytes that were read, of bytes that begin below and end behind that.
    #[inline(always)]
    fn hold_above(
        &mut self,
        offset: u64,
        bytes: Bytes,
        allocation_size: usize,
    ) -> Result<(), OutOfMemory>
        requires fits { offset + length bytes < 2 ^ 62 }
        requires mode { self.old.ordered ≡ true }
        requires below { offset < self.old.bytes_read }
        requires on { self.old.bytes_read < offset + length bytes }
        ensures ok { OnOk result (KeepsPiece self.old self.new offset bytes allocation_size) }
        ensures err { OnErr result (self.new ≡ self.old) }
        ensures unneeded { OnErr result (offset + length bytes ≤ max offset self.old.bytes_read → ⊥) }
        ensures within { OnErr result (Any (Encloses (max offset self.old.bytes_read) (offset + length bytes)) self.old.runs → ⊥) }
    {
        let start = self.bytes_read;
        let mut rest = bytes;
        rest.advance((start - offset) as usize);
        self.hold_unread(start, rest, allocation_size)
    }

    // Keeps what is not done.
    #[inline(always)]
    fn hold(&mut self, offset: u64, bytes: Bytes, allocation_size: usize) -> Result<(), OutOfMemory>
        requires fits { offset + length bytes < 2 ^ 62 }
        requires above { self.old.ordered ≡ true → self.old.bytes_read ≤ offset }
        ensures ok { OnOk result (KeepsPiece self.old self.new offset bytes allocation_size) }
        ensures err { OnErr result (self.new ≡ self.old) }
        ensures unneeded { OnErr result (self.old.ordered ≡ true → offset + length bytes ≤ max offset self.old.bytes_read → ⊥) }
        ensures within { OnErr result (self.old.ordered ≡ true → Any (Encloses (max offset self.old.bytes_read) (offset + length bytes)) self.old.runs → ⊥) }
    {
        if self.ordered {
            return self.hold_unread(offset, bytes, allocation_size);
        }
        let end = offset + bytes.len() as u64;
        self.pieces
            .insert_unreceived(offset, bytes, allocation_size, &mut self.received)?;
        self.highest = self.highest.max(end);
        Ok(())
    }

    // In ordered mode keeps bytes that lie above those that were read.
    #[inline(always)]
    fn hold_unread(
        &mut self,
        offset: u64,
        bytes: Bytes,
        allocation_size: usize,
    ) -> Result<(), OutOfMemory>
        requires fits { offset + length bytes < 2 ^ 62 }
        requires mode { self.old.ordered ≡ true }
        requires above { self.old.bytes_read ≤ offset }
        ensures ok { OnOk result (KeepsPiece self.old self.new offset bytes allocation_size) }
        ensures err { OnErr result (self.new ≡ self.old) }
        ensures unneeded { OnErr result (offset + length bytes ≤ max offset self.old.bytes_read → ⊥) }
        ensures within { OnErr result (Any (Encloses (max offset self.old.bytes_read) (offset + length bytes)) self.old.runs → ⊥) }
    {
        let end = offset + bytes.len() as u64;
        self.pieces.insert(offset, bytes, allocation_size)?;
        self.highest = self.highest.max(end);
        Ok(())
    }

    // Whether too many pieces are held, or they keep too much memory alive.
    #[inline(always)]
    fn is_wasteful(&self) -> bool
        ensures exact { result ≡ is_wasteful (sums_of self.now.runs) (self.now.highest - self.now.bytes_read) }
        ensures few { result ≡ false → piece_count self.now ≤ 2048 }
    {
        if self.pieces.len() > COMPACT_THRESHOLD {
            return true;
        }
        let allocated = self.pieces.allocated();
        if allocated <= ALLOWED_WASTE {
            return false;
        }
        let unread = self.highest.saturating_sub(self.bytes_read) as u128;
        let used = self.pieces.total().min(unread);
        let waste = allocated.saturating_sub(used);
        waste > ALLOWED_WASTE && waste > used * 3 / 2
    }

    // Compacts where that is due.
    #[inline(always)]
    fn relieve(&mut self) -> Result<(), InsertError>
        ensures relieved { Relieves result (is_wasteful (sums_of self.old.runs) (self.old.highest - self.old.bytes_read)) self.old.runs self.new.runs }
        ensures held { SameHeld (Holds self.old) (Holds self.new) }
        ensures kept { MatchInsert result (Unit {0}) ⊥ }
        ensures many { result ≡ Err InsertError.TooManyChunks → 1024 < piece_count self.new }
        ensures runs { result ≡ Err InsertError.TooManyChunks → FormMoreRuns 1024 (Holds self.new) }
        ensures few { OnOk result (piece_count self.new ≤ 2048) }
        ensures pieces { piece_count self.new ≤ piece_count self.old }
        ensures others { IsSameButHeld self.old self.new }
    {
        if !self.is_wasteful() {
            return Ok(());
        }
        if self.defragment().is_err() {
            return Err(InsertError::CompactionMemory);
        }
        if self.pieces.len() > MAX_CHUNKS {
            return Err(InsertError::TooManyChunks);
        }
        Ok(())
    }

    /// Compacts what is held: pieces that touch are joined, and each other one that keeps more than a fifth more memory
    /// alive than it has bytes is copied. If refused, the same bytes are held, in as many pieces or fewer.
    #[inline(never)]
    pub fn defragment(&mut self) -> Result<(), OutOfMemory>
        ensures held { KeepsOffsets (Holds self.old) (Holds self.new) }
        ensures same { SameHeld (Holds self.old) (Holds self.new) }
        ensures once { OnOk result (HoldsOnce (Holds self.new)) }
        ensures joined { OnOk result (IsJoined self.old.runs self.new.runs) }
        ensures runs { OnOk result ((n : ℕ) → n < piece_count self.new → FormMoreRuns n (Holds self.new)) }
        ensures err { OnErr result (SameHeld (Holds self.old) (Holds self.new)) }
        ensures err_runs { OnErr result (HoldSame self.old.runs self.new.runs) }
        ensures memory { All (IsKeptOrOwn self.old.runs) self.new.runs }
        ensures pieces { piece_count self.new ≤ piece_count self.old }
        ensures others { IsSameButHeld self.old self.new }
    {
        let _count = self.pieces.len();
        self.pieces.compact()
    }

    /// Gives the first `max_length` bytes of the first piece, or all of it where it has fewer: in ordered mode those
    /// that follow what was read, in unordered mode those of lowest offset. `None` where there are none. `ordered` is
    /// the mode.
    ///
    /// A piece that is given whole is not copied. Memory is wanted only to cut one, so only where more than `max_length`
    /// bytes in a row are at hand. If refused, or where nothing is given, all is as it was.
    #[inline(always)]
    pub fn read(&mut self, max_length: usize, ordered: bool) -> Result<Option<Chunk>, OutOfMemory>
        requires { ordered ≡ self.old.ordered }
        ensures first { IfGiven result (λ chunk. GivesFirst max_length self.old.runs chunk.offset chunk.bytes self.new.runs) }
        ensures given { IfGiven result (λ chunk. Gives (Holds self.old) (Holds self.new) chunk.offset chunk.bytes) }
        ensures here { IfGiven result (λ chunk. IsHeld (Holds self.old) chunk.offset) }
        ensures limit { IfGiven result (λ chunk. length chunk.bytes ≤ max_length) }
        ensures some { IfGiven result (λ chunk. 0 < max_length → 0 < length chunk.bytes) }
        ensures start { IfGiven result (λ chunk. IsTrue ordered → chunk.offset ≡ self.old.bytes_read) }
        ensures lowest { IfGiven result (λ chunk. (at : ℕ) → at < chunk.offset → IsHeld (Holds self.old) at → ⊥) }
        ensures moves { IfGiven result (λ chunk. self.new.bytes_read ≡ self.old.bytes_read + length chunk.bytes) }
        ensures taken { IfGiven result (λ chunk. (at : ℕ) → IsWithin chunk.offset chunk.bytes at → IsDone self.new at) }
        ensures none { OnNothing result (IsTrue ordered → IsHeld (Holds self.old) self.old.bytes_read → ⊥) }
        ensures none_unordered { OnNothing result (ordered ≡ false → HoldsNothing (Holds self.old)) }
        ensures none_same { OnNothing result (self.new ≡ self.old) }
        ensures none_held { OnNothing result (SameHeld (Holds self.old) (Holds self.new)) }
        ensures none_read { OnNothing result (self.new.bytes_read ≡ self.old.bytes_read) }
        ensures err { OnErr result (self.new ≡ self.old) }
        ensures err_held { OnErr result (SameHeld (Holds self.old) (Holds self.new)) }
        ensures err_read { OnErr result (self.new.bytes_read ≡ self.old.bytes_read) }
        ensures err_more { OnErr result (HoldsMore (Holds self.old) ordered self.old.bytes_read max_length) }
        ensures done { (at : ℕ) → self.old.ordered ≡ false → is_done self.new at ≡ is_done self.old at }
        ensures ordered { self.new.ordered ≡ self.old.ordered }
        ensures highest { self.new.highest ≡ self.old.highest }
        ensures pieces { piece_count self.new ≤ piece_count self.old }
    {
        if !self.has_next(ordered) {
            return Ok(None);
        }
        match self.pieces.take_first(max_length)? {
            None => unreachable!(),
            Some(chunk) => {
                self.bytes_read += chunk.bytes.len() as u64;
                Ok(Some(chunk))
            }
        }
    }

    // Whether there is a chunk to be read.
    #[inline(always)]
    fn has_next(&self, ordered: bool) -> bool
        requires { ordered ≡ self.now.ordered }
        ensures yes { result ≡ true → (first : PieceView) × (rest : _) × (self.now.runs ≡ first ∷ rest) × IsNext self.now first.offset }
        ensures no { result ≡ false → ordered ≡ true → IsHeld (Holds self.now) self.now.bytes_read → ⊥ }
        ensures none { result ≡ false → ordered ≡ false → self.now.runs ≡ [] }
    {
        let _count = self.pieces.len();
        match self.pieces.first_offset() {
            Some(offset) => !ordered || offset == self.bytes_read,
            None => false,
        }
    }

    /// Asks for a mode. From ordered mode unordered mode is entered: pieces are compacted, and what was read or is held
    /// counts as received. There is no way back.
    pub fn ensure_ordering(&mut self, ordered: bool) -> Result<(), EnsureError>
        ensures refused { (result ≡ Err EnsureError.IllegalOrderedRead) ↔ ((ordered ≡ true) × (self.old.ordered ≡ false)) }
        ensures illegal { result ≡ Err EnsureError.IllegalOrderedRead → self.new ≡ self.old }
        ensures ok { OnOk result (self.new.ordered ≡ ordered) }
        ensures same { OnOk result (ordered ≡ self.old.ordered → self.new ≡ self.old) }
        ensures same_ok { ordered ≡ self.old.ordered → result ≡ Ok tt }
        ensures done { OnOk result (ordered ≡ false → self.old.ordered ≡ true → (at : ℕ) → IsDone self.new at ↔ ((at < self.old.bytes_read) ⊎ IsHeld (Holds self.old) at)) }
        ensures held { KeepsOffsets (Holds self.old) (Holds self.new) }
        ensures same_held { SameHeld (Holds self.old) (Holds self.new) }
        ensures err { OnErr result (SameHeld (Holds self.old) (Holds self.new)) }
        ensures joined { OnOk result (ordered ≡ false → self.old.ordered ≡ true → IsJoined self.old.runs self.new.runs) }
        ensures err_others { OnErr result (IsSameButHeld self.old self.new) }
        ensures bytes_read { self.new.bytes_read ≡ self.old.bytes_read }
        ensures highest { self.new.highest ≡ self.old.highest }
        ensures pieces { piece_count self.new ≤ piece_count self.old }
    {
        if ordered == self.ordered {
            return Ok(());
        }
        if ordered {
            return Err(EnsureError::IllegalOrderedRead);
        }
        self.leave_order()?;
        Ok(())
    }

    // Goes from ordered mode into unordered mode.
    fn leave_order(&mut self) -> Result<(), OutOfMemory>
        requires { self.old.ordered ≡ true }
        ensures ok { OnOk result (LeavesOrder self.old self.new) }
        ensures joined { OnOk result (IsJoined self.old.runs self.new.runs) }
        ensures held { SameHeld (Holds self.old) (Holds self.new) }
        ensures err_others { OnErr result (IsSameButHeld self.old self.new) }
        ensures pieces { piece_count self.new ≤ piece_count self.old }
    {
        let _count = self.pieces.len();
        let received = self.pieces.offsets(self.bytes_read)?;
        self.pieces.compact()?;
        self.received = received;
        self.ordered = false;
        Ok(())
    }
}

impl Reassemble for Assembler {
    ghost use Rattle.std.specs.Prelude.{OnErr};
    ghost use Rattle.quic_assembler.specs.Reassembly.{Holds, is_done, piece_count, IfGiven, IsSameButHeld};
    ghost use Rattle.quic_assembler.specs.Laws.{done_below, held_above, held_or_not};
    ghost use Rattle.quic_ordered.specs.Rows.{GivesFirst};
    ghost use Rattle.quic_ordered.specs.Assembly.{TellsPieces};

    ghost holds = { Holds };

    ghost is_done = { is_done };

    ghost read_count = { λ a. a.bytes_read };

    ghost is_ordered = { λ a. a.ordered };

    ghost highest = { λ a. a.highest };

    ghost piece_count = { piece_count };

    ghost inserts = { TellsPieces };

    ghost reads = { λ a most result b. IfGiven result (λ chunk. GivesFirst most a.runs chunk.offset chunk.bytes b.runs) };

    ghost orders = { λ a ordered result b. OnErr result (IsSameButHeld a b) };

    ghost done_below = { done_below };

    ghost held_above = { held_above };

    ghost held_or_not = { held_or_not };

    fn insert(
        &mut self,
        offset: u64,
        bytes: Bytes,
        allocation_size: usize,
    ) -> Result<(), InsertError> {
        Assembler::insert(self, offset, bytes, allocation_size)
    }

    fn read(&mut self, max_length: usize, ordered: bool) -> Result<Option<Chunk>, OutOfMemory> {
        Assembler::read(self, max_length, ordered)
    }

    fn ensure_ordering(&mut self, ordered: bool) -> Result<(), EnsureError> {
        Assembler::ensure_ordering(self, ordered)
    }

    fn bytes_read(&self) -> u64 {
        Assembler::bytes_read(self)
    }

    fn clear(&mut self) {
        Assembler::clear(self)
    }

    fn pieces(&self) -> usize {
        Assembler::pieces(self)
    }
}
