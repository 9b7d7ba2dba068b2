// All that is held of one stream.
ghost use Rattle.std.specs.Prelude.{◌≡◌, ℕ, ◌+◌, ◌^◌, ◌<◌, ◌≤◌, ◌||◌, [], ◌∷◌, ◌++◌, length, sum_by, option_to_list, IfOk, OnOk, OnErr, IfSome, IfNone, Some, None, Ok, true, false, min, nat_lt, take};
ghost use Rattle.std.specs.List.{All, Any};
ghost use Rattle.quic_ranges.specs.Runs.{contains};
ghost use Rattle.quic_assembler.specs.Piece.{PieceView, run_end, run_length, run_allocation, TakesSome, left_of, cover_count, bit, lies};
ghost use Rattle.quic_assembler.specs.Reassembly.{IfGiven, OnNothing, TakesFresh};
ghost use Rattle.quic_ordered.specs.Rows.{FitsWords, LieInOrder, Merges, HoldSame, LieWithGaps, IsTidy, Encloses, JoinsAll, AddsOnly, GivesFirst, StemsFrom, StaysApart, IsKeptOrOwn, IsFronted};
ghost use Rattle.quic_ordered.specs.Entries.{piece_of};

use crate::piece::Piece;
use crate::store::PieceStore;
use quic_assembler::Chunk;
use quic_ranges::RangeSet;
use quic_values::{Bytes, OutOfMemory};
use std::alloc::Global;
use std::marker::Model;

/// Pieces of one stream, none of which overlaps another. Contracts see them by rising offset.
///
/// A piece of which a part was read stands apart, before all others, so that the next read finds it at once, and so
/// does one that came where nothing was held. Where bytes come that overlap it or lie before it, it goes to the others.
#[derive(Drop)]
pub struct OrderedPieces {
    // The piece that is being read.
    first: Option<Piece>,
    // The pieces behind it.
    rest: PieceStore,
}

impl Model for OrderedPieces {
    ghost use Rattle.std.specs.Prelude.{List, ◌++◌, option_to_list};
    ghost use Rattle.quic_assembler.specs.Piece.{PieceView};
    ghost use Rattle.quic_ordered.specs.Rows.{IsFronted};

    ghost Value = { List PieceView };

    ghost view = { λ p. option_to_list p.first ++ p.rest };

    ghost invariant = { λ p. IsFronted p.first p.rest };
}

// Whether a piece has all offsets from one up to another.
#[inline(always)]
fn has_all(first: &Option<Piece>, offset: u64, end: u64) -> bool
    ensures yes { result ≡ true → Any (Encloses offset end) (option_to_list first.now) }
    ensures no { result ≡ false → Any (Encloses offset end) (option_to_list first.now) → ⊥ }
{
    match first {
        Some(piece) => piece.offset() <= offset && end <= piece.end(),
        None => false,
    }
}

// Whether a piece ends behind an offset.
#[inline(always)]
fn reaches(first: &Option<Piece>, offset: u64) -> bool
    ensures no { result ≡ false → All (λ r. run_end r ≤ offset) (option_to_list first.now) }
    ensures yes { result ≡ true → All (λ r. run_end r ≤ offset) (option_to_list first.now) → ⊥ }
{
    match first {
        Some(piece) => offset < piece.end(),
        None => false,
    }
}

// Puts the piece that is being read back to the others.
#[inline(never)]
fn put_back(first: &mut Option<Piece>, rest: &mut PieceStore) -> Result<(), OutOfMemory>
    requires { IsFronted first.old rest.old }
    ensures same { option_to_list first.new ++ rest.new ≡ option_to_list first.old ++ rest.old }
    ensures none { OnOk result (first.new ≡ None) }
{
    let Some(piece) = first.take() else {
        return Ok(());
    };
    if let Err(piece) = rest.put_first(piece) {
        *first = Some(piece);
        return Err(OutOfMemory);
    }
    Ok(())
}

// Puts the piece that is being read back where it ends behind an offset.
#[inline(always)]
fn make_way(
    first: &mut Option<Piece>,
    rest: &mut PieceStore,
    offset: u64,
) -> Result<(), OutOfMemory>
    requires { IsFronted first.old rest.old }
    ensures same { option_to_list first.new ++ rest.new ≡ option_to_list first.old ++ rest.old }
    ensures clear { OnOk result (All (λ r. run_end r ≤ offset) (option_to_list first.new)) }
    ensures kept { All (λ r. run_end r ≤ offset) (option_to_list first.old) → (result ≡ Ok tt) × (first.new ≡ first.old) × (rest.new ≡ rest.old) }
{
    if !reaches(first, offset) {
        return Ok(());
    }
    put_back(first, rest)
}

// All bytes of a piece, and the offset at which it begins.
#[inline(always)]
fn whole(piece: Piece) -> Chunk
    ensures { result ≡ record { offset = piece.offset; bytes = piece.bytes } }
{
    let offset = piece.offset();
    let bytes = piece.into_bytes();
    Chunk { offset, bytes }
}

// Gives so many bytes of the piece that is being read, or all where it has no more, and leaves the rest of it there. If
// refused, all is as it was.
#[inline(always)]
fn give(first: &mut Option<Piece>, most: usize) -> Result<Option<Chunk>, OutOfMemory>
    ensures given { IfGiven result (λ chunk. (p : PieceView) × (first.old ≡ Some p) × (chunk.offset ≡ p.offset) × (chunk.bytes ≡ take most p.bytes) × (option_to_list first.new ≡ left_of most p)) }
    ensures none { OnNothing result ((first.old ≡ None) × (first.new ≡ None)) }
    ensures err { OnErr result (first.new ≡ first.old) }
    ensures err_part { OnErr result ((p : PieceView) × (first.old ≡ Some p) × (most < length p.bytes)) }
{
    if let Some(piece) = first {
        if piece.len() > most {
            let offset = piece.offset();
            let bytes = piece.split_to(most)?;
            return Ok(Some(Chunk { offset, bytes }));
        }
    }
    match first.take() {
        Some(piece) => Ok(Some(whole(piece))),
        None => Ok(None),
    }
}

impl OrderedPieces {
    /// Holds nothing. Takes no memory.
    pub fn new(alloc: Global) -> Self
        ensures { result ≡ [] }
    {
        OrderedPieces {
            first: None,
            rest: PieceStore::new(alloc),
        }
    }

    /// How many pieces are held.
    #[inline(always)]
    pub fn len(&self) -> usize
        ensures len { result ≡ length self.now }
        ensures small { result ≤ 2 ^ 62 }
        ensures fits { All FitsWords self.now }
        ensures order { LieInOrder 0 self.now }
    {
        let count = self.rest.len();
        match &self.first {
            Some(first) => {
                let _end = first.end();
                let _allocated = first.allocation_size();
                count + 1
            }
            None => count,
        }
    }

    /// The sum of the lengths.
    #[inline]
    pub fn total(&self) -> u128
        ensures { result ≡ sum_by run_length self.now }
    {
        let _count = self.rest.len();
        let total = self.rest.total();
        match &self.first {
            Some(first) => total + first.len() as u128,
            None => total,
        }
    }

    /// The sum of the allocation sizes.
    #[inline(always)]
    pub fn allocated(&self) -> u128
        ensures { result ≡ sum_by run_allocation self.now }
    {
        let _count = self.rest.len();
        let allocated = self.rest.allocated();
        match &self.first {
            Some(first) => allocated + first.allocation_size() as u128,
            None => allocated,
        }
    }

    /// Lets go of all.
    pub fn clear(&mut self)
        ensures { self.new ≡ [] }
    {
        self.first = None;
        self.rest.clear();
    }

    /// Takes bytes that came at an offset, and that keep so much memory alive. They are joined with all pieces that
    /// they overlap; where two bytes meet the held one stays. Bytes that touch a piece and overlap none are a piece of
    /// their own. Bytes that lie within one piece need no memory.
    #[inline(always)]
    pub fn insert(
        &mut self,
        offset: u64,
        bytes: Bytes,
        allocation_size: usize,
    ) -> Result<(), OutOfMemory>
        requires { offset + length bytes < 2 ^ 62 }
        ensures merges { OnOk result (Merges self.old (piece_of offset bytes allocation_size) self.new) }
        ensures stems { OnOk result (All (StemsFrom self.old (piece_of offset bytes allocation_size)) self.new) }
        ensures joined { OnOk result (0 < length bytes → JoinsAll self.old (piece_of offset bytes allocation_size) self.new) }
        ensures stays { OnOk result (All (StaysApart offset (offset + length bytes) self.new) self.old) }
        ensures order { (low : ℕ) → low ≤ offset → LieInOrder low self.old → LieInOrder low self.new }
        ensures pieces { length self.new ≤ length self.old + 1 }
        ensures within { Any (Encloses offset (offset + length bytes)) self.old → (result ≡ Ok tt) × (self.new ≡ self.old) }
        ensures empty { length bytes ≡ 0 → (result ≡ Ok tt) × (self.new ≡ self.old) }
        ensures err { OnErr result (self.new ≡ self.old) }
    {
        let end = offset + bytes.len() as u64;
        if end == offset || has_all(&self.first, offset, end) {
            return Ok(());
        }
        if self.len() == 0 {
            self.hold_alone(Piece::new(offset, bytes, allocation_size));
            return Ok(());
        }
        make_way(&mut self.first, &mut self.rest, offset)?;
        self.rest.insert(offset, bytes, allocation_size)
    }

    // Takes a piece where nothing is held.
    #[inline(always)]
    fn hold_alone(&mut self, piece: Piece)
        requires none { self.old ≡ [] }
        requires some { 0 < length piece.bytes }
        ensures { self.new ≡ piece ∷ [] }
    {
        self.first = Some(piece);
    }

    /// Takes of bytes that came at an offset, and that keep so much memory alive, what was not received, each longest
    /// run of it as a piece, and counts all of them as received. What is held was received. If refused, all is as it
    /// was.
    #[inline(never)]
    pub fn insert_unreceived(
        &mut self,
        offset: u64,
        bytes: Bytes,
        allocation_size: usize,
        received: &mut RangeSet,
    ) -> Result<(), OutOfMemory>
        requires fits { offset + length bytes < 2 ^ 62 }
        requires once { (at : ℕ) → cover_count at self.old ≤ bit (contains received.old at) }
        ensures fresh { OnOk result (TakesFresh received.old (piece_of offset bytes allocation_size) self.old self.new) }
        ensures adds { OnOk result (AddsOnly allocation_size self.old self.new) }
        ensures received { OnOk result ((n : ℕ) → contains received.new n ≡ (contains received.old n || lies offset (offset + length bytes) n)) }
        ensures err { OnErr result (self.new ≡ self.old) }
        ensures err_received { OnErr result (received.new ≡ received.old) }
    {
        put_back(&mut self.first, &mut self.rest)?;
        let taken = self
            .rest
            .insert_unreceived(offset, bytes, allocation_size, received);
        let _count = self.rest.len();
        taken
    }

    /// Where the first piece begins.
    #[inline(always)]
    pub fn first_offset(&self) -> Option<u64>
        ensures first { IfSome result (λ offset. (first : PieceView) × (rest : _) × (self.now ≡ first ∷ rest) × (offset ≡ first.offset)) }
        ensures none { IfNone result (self.now ≡ []) }
    {
        match &self.first {
            Some(first) => Some(first.offset()),
            None => self.rest.first_offset(),
        }
    }

    /// Gives the first `max_length` bytes of the first piece, or all of it where it has fewer, and the offset at which
    /// it begins. A piece that is given whole is not copied. If refused, all is as it was.
    #[inline(always)]
    pub fn take_first(&mut self, max_length: usize) -> Result<Option<Chunk>, OutOfMemory>
        ensures first { IfGiven result (λ chunk. GivesFirst max_length self.old chunk.offset chunk.bytes self.new) }
        ensures takes { IfGiven result (λ chunk. TakesSome chunk.offset max_length chunk.bytes self.old self.new) }
        ensures none { OnNothing result ((self.old ≡ []) × (self.new ≡ [])) }
        ensures err { OnErr result (self.new ≡ self.old) }
        ensures err_part { OnErr result ((first : PieceView) (rest : _) → self.old ≡ first ∷ rest → max_length < length first.bytes) }
    {
        let _count = self.len();
        if self.first.is_some() {
            return give(&mut self.first, max_length);
        }
        let Some(mut piece) = self.rest.pop_first() else {
            return Ok(None);
        };
        if piece.len() <= max_length {
            return Ok(Some(whole(piece)));
        }
        let offset = piece.offset();
        let given = piece.split_to(max_length);
        self.first = Some(piece);
        let bytes = given?;
        Ok(Some(Chunk { offset, bytes }))
    }

    /// The offsets below a floor, and those of all pieces.
    pub fn offsets(&mut self, floor: u64) -> Result<RangeSet, OutOfMemory>
        ensures set { IfOk result (λ set. (at : ℕ) → bit (contains set at) ≡ min 1 (bit (nat_lt at floor) + cover_count at self.old)) }
        ensures same { self.new ≡ self.old }
    {
        put_back(&mut self.first, &mut self.rest)?;
        self.rest.offsets(floor)
    }

    /// Joins all pieces that touch, and copies each other one that keeps more than a fifth more memory alive than it
    /// has bytes. If refused, the same bytes are held, in as many pieces or fewer.
    pub fn compact(&mut self) -> Result<(), OutOfMemory>
        ensures same { HoldSame self.old self.new }
        ensures order { (low : ℕ) → LieInOrder low self.old → LieInOrder low self.new }
        ensures pieces { length self.new ≤ length self.old }
        ensures apart { OnOk result (LieWithGaps 0 self.new) }
        ensures tidy { OnOk result (All IsTidy self.new) }
        ensures memory { All (IsKeptOrOwn self.old) self.new }
    {
        put_back(&mut self.first, &mut self.rest)?;
        self.rest.compact()
    }
}
