// What a reassembler does, however it keeps its pieces.
ghost use Rattle.std.specs.Prelude.{◌≡◌, ℕ, ◌+◌, ◌^◌, ◌<◌, ◌≤◌, ◌↔◌, ◌⊎◌, ◌||◌, Bool, true, false, max, length, OnOk, OnErr, IsTrue, Ok, Err};
ghost use Rattle.quic_assembler.specs.Piece.{lies};
ghost use Rattle.quic_assembler.specs.Reassembly.{IsHeld, IsWithin, HoldsMore, Takes, Gives, SameHeld, KeepsOffsets, HoldsNothing, IsBehind, MatchInsert, IfGiven, OnNothing, run_count};
ghost use Rattle.quic_assembler.specs.Steps.{InsertCall, ReadCall, OrderCall};

use crate::chunk::Chunk;
use crate::errors::{EnsureError, InsertError};
use quic_values::{Bytes, OutOfMemory};

/// Puts the bytes of one stream into order. It is said by what is held, a relation of offsets to bytes, and by which
/// offsets are done; how pieces are kept is left open.
pub trait Reassemble {
    // A byte that is held at an offset. Two may be held at one.
    ghost holds: { Self → ℕ → ℕ → Type 0 };

    // Whether an offset is taken no more.
    ghost is_done: { Self → ℕ → Bool };

    // How many offsets were read.
    ghost read_count: { Self → ℕ };

    ghost is_ordered: { Self → Bool };

    // The highest end of what was inserted.
    ghost highest: { Self → ℕ };

    ghost piece_count: { Self → ℕ };

    // What each call with its answer leads from and to. A body may say here more than the clauses do.
    ghost inserts: { InsertCall Self };

    ghost reads: { ReadCall Self };

    ghost orders: { OrderCall Self };

    /// Takes bytes that came at an offset.
    fn insert(
        &mut self,
        offset: u64,
        bytes: Bytes,
        allocation_size: usize,
    ) -> Result<(), InsertError>
        requires fits { offset + length bytes < 2 ^ 62 }
        requires allocated { length bytes ≤ allocation_size }
        ensures inserts { inserts self.old offset bytes allocation_size result self.new }
        ensures kept { MatchInsert result (Takes (holds self.old) (holds self.new) (λ at. is_done self.old at ≡ true) offset bytes) (self.new ≡ self.old) }
        ensures top { MatchInsert result (highest self.new ≡ max (highest self.old) (offset + length bytes)) (highest self.new ≡ highest self.old) }
        ensures done { (at : ℕ) → is_ordered self.old ≡ false → MatchInsert result (is_done self.new at ≡ (is_done self.old at || lies offset (offset + length bytes) at)) (is_done self.new at ≡ is_done self.old at) }
        ensures unneeded { is_ordered self.old ≡ true → offset + length bytes ≤ max offset (read_count self.old) → result ≡ Err InsertError.OutOfMemory → ⊥ }
        ensures many { result ≡ Err InsertError.TooManyChunks → 1024 < piece_count self.new }
        ensures few { OnOk result (IsBehind (is_ordered self.old) (read_count self.old) offset bytes ⊎ (piece_count self.new ≤ 2048)) }
        ensures stale { IsBehind (is_ordered self.old) (read_count self.old) offset bytes → piece_count self.new ≡ piece_count self.old }
        ensures stale_ok { IsBehind (is_ordered self.old) (read_count self.old) offset bytes → result ≡ Ok tt }
        ensures pieces { is_ordered self.old ≡ true → piece_count self.new ≤ piece_count self.old + 1 }
        ensures pieces_unordered { is_ordered self.old ≡ false → piece_count self.new ≤ piece_count self.old + run_count (is_done self.old) offset (length bytes) }
        ensures read_count { read_count self.new ≡ read_count self.old }
        ensures is_ordered { is_ordered self.new ≡ is_ordered self.old };

    /// Gives the next bytes, at most so many. `ordered` is the mode.
    fn read(&mut self, max_length: usize, ordered: bool) -> Result<Option<Chunk>, OutOfMemory>
        requires { ordered ≡ is_ordered self.old }
        ensures reads { reads self.old max_length result self.new }
        ensures given { IfGiven result (λ chunk. Gives (holds self.old) (holds self.new) chunk.offset chunk.bytes) }
        ensures here { IfGiven result (λ chunk. IsHeld (holds self.old) chunk.offset) }
        ensures limit { IfGiven result (λ chunk. length chunk.bytes ≤ max_length) }
        ensures some { IfGiven result (λ chunk. 0 < max_length → 0 < length chunk.bytes) }
        ensures start { IfGiven result (λ chunk. IsTrue ordered → chunk.offset ≡ read_count self.old) }
        ensures lowest { IfGiven result (λ chunk. (at : ℕ) → at < chunk.offset → IsHeld (holds self.old) at → ⊥) }
        ensures moves { IfGiven result (λ chunk. read_count self.new ≡ read_count self.old + length chunk.bytes) }
        ensures taken { IfGiven result (λ chunk. (at : ℕ) → IsWithin chunk.offset chunk.bytes at → is_done self.new at ≡ true) }
        ensures none { OnNothing result (IsTrue ordered → IsHeld (holds self.old) (read_count self.old) → ⊥) }
        ensures none_unordered { OnNothing result (ordered ≡ false → HoldsNothing (holds self.old)) }
        ensures none_held { OnNothing result (SameHeld (holds self.old) (holds self.new)) }
        ensures none_read { OnNothing result (read_count self.new ≡ read_count self.old) }
        ensures err_held { OnErr result (SameHeld (holds self.old) (holds self.new)) }
        ensures err_read { OnErr result (read_count self.new ≡ read_count self.old) }
        ensures err_more { OnErr result (HoldsMore (holds self.old) ordered (read_count self.old) max_length) }
        ensures done { (at : ℕ) → is_ordered self.old ≡ false → is_done self.new at ≡ is_done self.old at }
        ensures is_ordered { is_ordered self.new ≡ is_ordered self.old }
        ensures top { highest self.new ≡ highest self.old }
        ensures pieces { piece_count self.new ≤ piece_count self.old };

    /// Asks for a mode.
    fn ensure_ordering(&mut self, ordered: bool) -> Result<(), EnsureError>
        ensures orders { orders self.old ordered result self.new }
        ensures refused { (result ≡ Err EnsureError.IllegalOrderedRead) ↔ ((ordered ≡ true) × (is_ordered self.old ≡ false)) }
        ensures illegal { result ≡ Err EnsureError.IllegalOrderedRead → self.new ≡ self.old }
        ensures ok { OnOk result (is_ordered self.new ≡ ordered) }
        ensures same { OnOk result (ordered ≡ is_ordered self.old → self.new ≡ self.old) }
        ensures same_ok { ordered ≡ is_ordered self.old → result ≡ Ok tt }
        ensures done { OnOk result (ordered ≡ false → is_ordered self.old ≡ true → (at : ℕ) → (is_done self.new at ≡ true) ↔ ((at < read_count self.old) ⊎ IsHeld (holds self.old) at)) }
        ensures held { KeepsOffsets (holds self.old) (holds self.new) }
        ensures err { OnErr result (SameHeld (holds self.old) (holds self.new)) }
        ensures err_done { OnErr result ((at : ℕ) → is_done self.new at ≡ is_done self.old at) }
        ensures err_ordered { OnErr result (is_ordered self.new ≡ is_ordered self.old) }
        ensures read_count { read_count self.new ≡ read_count self.old }
        ensures top { highest self.new ≡ highest self.old }
        ensures pieces { piece_count self.new ≤ piece_count self.old };

    /// How many bytes were read.
    fn bytes_read(&self) -> u64
        ensures { result ≡ read_count self.now };

    /// Lets go of all that is held.
    fn clear(&mut self)
        ensures empty { HoldsNothing (holds self.new) }
        ensures done { (at : ℕ) → is_done self.new at ≡ is_done self.old at }
        ensures read_count { read_count self.new ≡ read_count self.old }
        ensures is_ordered { is_ordered self.new ≡ is_ordered self.old }
        ensures top { highest self.new ≡ highest self.old }
        ensures pieces { piece_count self.new ≡ 0 };

    /// How many pieces are held.
    fn pieces(&self) -> usize
        ensures { result ≡ piece_count self.now };

    // In ordered mode what is done is what was read, and none of it is held.
    ghost done_below: { (a : Self) (at : ℕ) → is_ordered a ≡ true → (is_done a at ≡ true) ↔ (at < read_count a) };

    ghost held_above: { (a : Self) (at byte : ℕ) → is_ordered a ≡ true → holds a at byte → read_count a ≤ at };

    // Whether a byte is held can be told.
    ghost held_or_not: { (a : Self) (at : ℕ) → IsHeld (holds a) at ⊎ (IsHeld (holds a) at → ⊥) };
}
