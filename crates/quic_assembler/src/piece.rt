// A piece of a stream that an assembler holds.
ghost use Rattle.std.specs.Prelude.{◌≡◌, ◌++◌, ◌+◌, ◌-◌, ◌*◌, ◌/◌, ◌^◌, ◌<◌, ◌≤◌, ◌||◌, nat_le, true, false, length, take, drop, IfOk, OnOk, OnErr, vec_len, IsTrue};
ghost use Rattle.std.specs.Ordering.{as_partial_cmp};
ghost use Rattle.quic_assembler.specs.Piece.{PieceView, run_end, run_cmp, run_eq, cut_at, advance_by, HoldsSame};
ghost use Rattle.quic_assembler.specs.Compact.{stays, IsTight};

use quic_values::{Bytes, OutOfMemory};
use std::cmp::Ordering;
use std::marker::Model;

/// Bytes from an offset on that are held.
#[derive(Drop)]
pub(crate) struct Piece {
    offset: u64,
    bytes: Bytes,
    allocation_size: usize,
    // Compaction made it or kept it.
    compact: bool,
    // Of two alike the one with the lower number came first.
    sequence: u64,
}

impl Model for Piece {
    ghost use Rattle.std.specs.Prelude.{◌+◌, ◌^◌, ◌<◌, length};
    ghost use Rattle.quic_assembler.specs.Piece.{PieceView};

    ghost Value = { PieceView };

    ghost view = { λ p. record { offset = p.offset; bytes = p.bytes; allocation_size = p.allocation_size; compact = p.compact; sequence = p.sequence } };

    ghost invariant = { λ p. p.offset + length p.bytes < 2 ^ 62 };
}

impl Piece {
    #[inline]
    pub(crate) fn new(offset: u64, bytes: Bytes, allocation_size: usize, sequence: u64) -> Self
        requires { offset + length bytes < 2 ^ 62 }
        ensures { result ≡ record { offset = offset; bytes = bytes; allocation_size = allocation_size; compact = false; sequence = sequence } }
    {
        Piece {
            offset,
            bytes,
            allocation_size,
            compact: false,
            sequence,
        }
    }

    pub(crate) fn offset(&self) -> u64
        ensures { result ≡ self.now.offset }
    {
        self.offset
    }

    #[inline]
    pub(crate) fn len(&self) -> usize
        ensures value { result ≡ length self.now.bytes }
        ensures bound { run_end self.now < 2 ^ 62 }
    {
        self.bytes.len()
    }

    pub(crate) fn end(&self) -> u64
        ensures value { result ≡ run_end self.now }
        ensures bound { run_end self.now < 2 ^ 62 }
    {
        self.offset + self.bytes.len() as u64
    }

    /// Drops what lies below `floor`.
    pub(crate) fn cut_below(&mut self, floor: u64)
        requires { floor ≤ run_end self.old }
        ensures cut { self.new ≡ cut_at floor self.old }
        ensures bound { run_end self.old < 2 ^ 62 }
    {
        if self.offset < floor {
            self.bytes.advance((floor - self.offset) as usize);
            self.offset = floor;
        }
    }

    /// Takes a copy of the first `count` bytes, which are then let go.
    pub(crate) fn split_to(&mut self, count: usize) -> Result<Bytes, OutOfMemory>
        requires { count ≤ length self.old.bytes }
        ensures front { IfOk result (λ front. front ≡ take count self.old.bytes) }
        ensures rest { OnOk result (self.new ≡ advance_by count self.old) }
        ensures err { OnErr result (self.new ≡ self.old) }
    {
        let front = self.bytes.split_to(count)?;
        self.offset += count as u64;
        Ok(front)
    }

    /// Takes what lies before `end` off, as a piece of its own.
    pub(crate) fn split_front(&mut self, end: u64) -> Result<Piece, OutOfMemory>
        requires from { self.old.offset ≤ end }
        requires to { end ≤ run_end self.old }
        ensures offset { IfOk result (λ front. front.offset ≡ self.old.offset) }
        ensures bytes { IfOk result (λ front. front.bytes ≡ take (end - self.old.offset) self.old.bytes) }
        ensures memory { IfOk result (λ front. front.allocation_size ≡ self.old.allocation_size) }
        ensures rest { OnOk result (HoldsSame (cut_at end self.old) self.new) }
        ensures rest_memory { OnOk result (self.new.allocation_size ≡ self.old.allocation_size) }
        ensures err { OnErr result (self.new ≡ self.old) }
    {
        let offset = self.offset;
        let bytes = self.split_to((end - offset) as usize)?;
        Ok(Piece::new(offset, bytes, self.allocation_size, self.sequence))
    }

    pub(crate) fn allocation_size(&self) -> usize
        ensures value { result ≡ self.now.allocation_size }
        ensures bound { self.now.allocation_size < 2 ^ 64 }
    {
        self.allocation_size
    }

    pub(crate) fn sequence(&self) -> u64
        ensures { result ≡ self.now.sequence }
    {
        self.sequence
    }

    /// A piece that compaction made.
    pub(crate) fn joined(offset: u64, bytes: Bytes, sequence: u64) -> Self
        requires { offset + length bytes < 2 ^ 62 }
        ensures offset { result.offset ≡ offset }
        ensures bytes { result.bytes ≡ bytes }
        ensures tight { IsTight result }
    {
        Piece {
            offset,
            allocation_size: bytes.len(),
            bytes,
            compact: true,
            sequence,
        }
    }

    // Whether a part of so many bytes uses most of the memory.
    fn is_compact(&self, length: u64) -> bool
        ensures { result ≡ (self.now.compact || nat_le self.now.allocation_size (length * 6 / 5)) }
    {
        if self.compact {
            return true;
        }
        self.allocation_size as u128 * 5 <= length as u128 * 6
    }

    /// Whether compaction lets the piece stay, once what lies below `end` is cut off: it uses most of its memory, and has
    /// at least so many bytes, or touches neither what ends there nor what starts at `next`.
    pub(crate) fn is_kept(&self, end: u64, next: Option<u64>, least: u128) -> bool
        requires { end ≤ run_end self.now }
        ensures { result ≡ stays least end self.now next }
    {
        let stop = self.offset + self.bytes.len() as u64;
        let length = stop - self.offset.max(end);
        if !self.is_compact(length) {
            return false;
        }
        if length as u128 >= least {
            return true;
        }
        match next {
            None => end < self.offset,
            Some(next) => end < self.offset && stop < next,
        }
    }

    /// Cuts off what lies below `floor`, and is compact from then on.
    pub(crate) fn keep_from(&mut self, floor: u64)
        requires { floor ≤ run_end self.old }
        ensures same { HoldsSame (cut_at floor self.old) self.new }
        ensures tight { IsTight self.new }
    {
        self.cut_below(floor);
        self.allocation_size = self.bytes.len();
        self.compact = true;
    }

    /// The bytes from an offset on.
    pub(crate) fn bytes_from(&self, start: u64) -> &[u8]
        requires from { self.now.offset ≤ start }
        requires to { start ≤ run_end self.now }
        ensures value { result.now ≡ drop (start - self.now.offset) self.now.bytes }
        ensures bound { run_end self.now < 2 ^ 62 }
    {
        &self.bytes.as_slice()[(start - self.offset) as usize..]
    }

    /// Puts a copy of bytes behind its own.
    pub(crate) fn extend(&mut self, more: &[u8]) -> Result<(), OutOfMemory>
        requires { run_end self.old + length more.now < 2 ^ 62 }
        ensures offset { OnOk result (self.new.offset ≡ self.old.offset) }
        ensures bytes { OnOk result (self.new.bytes ≡ self.old.bytes ++ more.now) }
        ensures tight { OnOk result (self.old.compact ≡ true → IsTight self.new) }
        ensures err { OnErr result (self.new ≡ self.old) }
    {
        self.bytes.extend_from_slice(more)?;
        self.allocation_size = self.bytes.len();
        Ok(())
    }

    /// The bytes, without taking memory.
    pub(crate) fn into_bytes(self) -> Bytes
        ensures { result ≡ self.bytes }
    {
        let Piece { bytes, .. } = self;
        bytes
    }
}

impl Ord for Piece {
    ghost use Rattle.std.specs.Cmp.Rules.{comparing};
    ghost use Rattle.std.proofs.Common.{rules};
    ghost use Rattle.quic_assembler.specs.Piece.{run_cmp};

    ghost cmp = { run_cmp };

    ghost total = { Prim.search (comparing, rules) depth 9 };

    ghost matches_partial_cmp = { Prim.search (comparing, rules) depth 9 };

    ghost matches_eq = { Prim.search (comparing, rules) depth 9 };

    #[inline]
    fn cmp(&self, other: &Piece) -> Ordering {
        if self.offset < other.offset {
            return Ordering::Greater;
        }
        if other.offset < self.offset {
            return Ordering::Less;
        }
        self.bytes
            .len()
            .cmp(&other.bytes.len())
            .then(other.sequence.cmp(&self.sequence))
    }
}

impl PartialOrd for Piece {
    ghost use Rattle.std.specs.Ordering.{as_partial_cmp};
    ghost use Rattle.std.specs.Cmp.{partial_order_from_own_ties};
    ghost use Rattle.std.specs.Cmp.Rules.{comparing};
    ghost use Rattle.std.proofs.Common.{rules};
    ghost use Rattle.quic_assembler.specs.Piece.{run_cmp};

    ghost partial_cmp = { as_partial_cmp run_cmp };

    ghost laws = { partial_order_from_own_ties (Prim.search (comparing, rules) depth 9) (Prim.search (comparing, rules) depth 9) };

    fn partial_cmp(&self, other: &Piece) -> Option<Ordering> {
        Some(self.cmp(other))
    }
}

impl Eq for Piece {
    ghost use Rattle.std.specs.Cmp.Rules.{comparing};
    ghost use Rattle.std.proofs.Common.{rules};

    ghost laws = { Prim.search (comparing, rules) depth 9 };
}

impl PartialEq for Piece {
    ghost use Rattle.std.specs.Cmp.{partial_equiv_from_equiv};
    ghost use Rattle.std.specs.Cmp.Rules.{comparing};
    ghost use Rattle.std.proofs.Common.{rules};
    ghost use Rattle.quic_assembler.specs.Piece.{run_eq};

    ghost eq = { run_eq };

    ghost laws = { partial_equiv_from_equiv (Prim.search (comparing, rules) depth 9) };

    fn eq(&self, other: &Piece) -> bool {
        self.offset() == other.offset()
            && self.len() == other.len()
            && self.sequence == other.sequence
    }
}
