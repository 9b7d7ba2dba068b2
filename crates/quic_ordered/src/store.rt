// Pieces that do not overlap, in a map and a row.
ghost use Rattle.std.specs.Prelude.{◌≡◌, ℕ, ◌+◌, ◌-◌, ◌^◌, ◌<◌, ◌≤◌, ◌⊎◌, ◌||◌, List, [], ◌∷◌, ◌++◌, length, sum_by, option_to_list, IfOk, OnOk, OnErr, IfErr, IfSome, IfNone, Some, None, Ok, true, false, min, nat_lt, take, drop};
ghost use Rattle.std.specs.Map.{values_of, keys_of};
ghost use Rattle.std.specs.List.{All, Any};
ghost use Rattle.std.specs.List.Sorted.{IsPermutation};
ghost use Rattle.quic_ranges.specs.Runs.{contains, lies_in};
ghost use Rattle.quic_assembler.specs.Piece.{PieceView, run_end, run_length, run_allocation, IsSome, cover_count, bit, lies};
ghost use Rattle.quic_assembler.specs.Reassembly.{TakesFresh};
ghost use Rattle.quic_ordered.specs.Rows.{FitsWords, RiseByKey, IsStore, BeginUpTo, LieInOrder, Merges, HoldSame, LieWithGaps, IsTidy, IsGathered, Encloses, JoinsAll, AddsOnly, StemsFrom, StaysApart, IsKeptOrOwn};
ghost use Rattle.quic_ordered.specs.Entries.{piece_of};

use crate::compaction::compact;
use crate::gaps;
use crate::map::PieceMap;
use crate::piece::Piece;
use crate::placing::{place_all, take_out};
use crate::row::PieceRow;
use crate::unreceived::cut_all;
use quic_ranges::RangeSet;
use quic_values::{Bytes, OutOfMemory};
use std::alloc::Global;
use std::marker::Model;
use std::ops::Range;

// The most bytes of the pieces of a map that are joined where they lie.
const MOST_IN_PLACE: u128 = 1 << 21;

/// Pieces of one stream, none of which overlaps another. Contracts see them by rising offset.
///
/// What comes behind all that is held goes to the end of a row, and what overlaps nothing and comes near one end of the
/// row is put between its pieces, while nothing is in the map. Where another piece comes, the pieces of the row that begin
/// below its end go over to a map by offset, and it is joined with those that it overlaps.
#[derive(Drop)]
pub(crate) struct PieceStore {
    // The first pieces, by their offsets.
    gaps: PieceMap,
    // The pieces behind them.
    row: PieceRow,
    alloc: Global,
}

impl Model for PieceStore {
    ghost use Rattle.std.specs.Prelude.{List, ◌++◌};
    ghost use Rattle.std.specs.Map.{values_of};
    ghost use Rattle.quic_assembler.specs.Piece.{PieceView};
    ghost use Rattle.quic_ordered.specs.Rows.{IsStore};

    ghost Value = { List PieceView };

    ghost view = { λ p. values_of p.gaps ++ p.row.runs };

    ghost invariant = { λ p. IsStore p.gaps p.row.runs };
}

// Moves the pieces of the row that begin below `end` into the map.
fn clear_way(gaps: &mut PieceMap, row: &mut PieceRow, end: u64) -> Result<(), OutOfMemory>
    requires { IsStore gaps.old row.old.runs }
    ensures store { IsStore gaps.new row.new.runs }
    ensures same { values_of gaps.new ++ row.new.runs ≡ values_of gaps.old ++ row.old.runs }
    ensures clear { OnOk result (LieInOrder end row.new.runs) }
    ensures kept { LieInOrder end row.old.runs → (result ≡ Ok tt) × (gaps.new ≡ gaps.old) × (row.new.runs ≡ row.old.runs) }
{
    while let Some(offset) = row.first_offset() {
        if offset >= end {
            break;
        }
        let Some(piece) = row.pop_front() else {
            unreachable!();
        };
        if let Err(piece) = gaps.put_last(piece) {
            row.put_front(piece);
            return Err(OutOfMemory);
        }
    }
    Ok(())
}

// Whether a piece goes into the map, which has some, and no piece of the row has to go over for it: it ends before the row,
// or the row is empty and it does not come behind the map.
#[inline(always)]
fn is_clear(gaps: &PieceMap, row: &PieceRow, piece: &Piece) -> bool
    requires { IsStore gaps.now row.now.runs }
    ensures { result ≡ true → LieInOrder (run_end piece.now) row.now.runs }
{
    if gaps.len() == 0 {
        return false;
    }
    match row.first_offset() {
        Some(first) => piece.end() <= first,
        None => match gaps.last_end() {
            Some(end) => piece.offset() < end,
            None => false,
        },
    }
}

// Behind how many pieces of the row a piece can be put that overlaps none of all, if few have to be moved. So many of them
// begin up to its offset. It is `None` where there are others in the map: then most pieces come in no order.
fn place_in_row(gaps: &PieceMap, row: &PieceRow, count: usize, piece: &Piece) -> Option<usize>
    requires store { IsStore gaps.now row.now.runs }
    requires counted { BeginUpTo row.now.runs piece.now.offset count }
    ensures fits { IfSome result (λ n. n ≤ length row.now.runs) }
    ensures before { IfSome result (λ n. All (λ r. run_end r ≤ piece.now.offset) (values_of gaps.now ++ take n row.now.runs)) }
    ensures behind { IfSome result (λ n. LieInOrder (run_end piece.now) (drop n row.now.runs)) }
{
    if gaps.len() > 0 {
        return None;
    }
    row.place_for(count, piece.offset(), piece.end())
}

// Moves all pieces of the map into the row.
fn gather(gaps: &mut PieceMap, row: &mut PieceRow) -> Result<(), OutOfMemory>
    requires { IsStore gaps.old row.old.runs }
    ensures store { IsStore gaps.new row.new.runs }
    ensures same { values_of gaps.new ++ row.new.runs ≡ values_of gaps.old ++ row.old.runs }
    ensures empty { OnOk result (gaps.new ≡ []) }
{
    row.reserve(gaps.len())?;
    while let Some(piece) = gaps.pop_last() {
        row.put_front(piece);
    }
    Ok(())
}

// Moves the pieces of a row to the end of another, and joins those that touch.
fn join_touching(row: &mut PieceRow, out: &mut PieceRow) -> Result<(), OutOfMemory>
    requires { length out.old.runs + length row.old.runs ≤ out.old.room }
    ensures gathered { (all : List PieceView) → IsGathered all out.old.runs row.old.runs → IsGathered all out.new.runs row.new.runs }
    ensures all { OnOk result (row.new.runs ≡ []) }
    ensures room { out.new.room ≡ out.old.room }
    ensures fits { length out.new.runs + length row.new.runs ≤ out.new.room }
{
    while let Some(piece) = row.pop_front() {
        if let Err(piece) = out.join_last(piece) {
            row.put_front(piece);
            return Err(OutOfMemory);
        }
    }
    Ok(())
}

// Puts pieces behind those of a row. There is room.
fn put_behind(row: &mut PieceRow, mut rest: PieceRow)
    requires { length row.old.runs + length rest.runs ≤ row.old.room }
    ensures { row.new.runs ≡ row.old.runs ++ rest.runs }
{
    while let Some(piece) = rest.pop_front() {
        row.put_back(piece);
    }
}

impl PieceStore {
    /// Holds nothing. Takes no memory.
    pub(crate) fn new(alloc: Global) -> Self
        ensures { result ≡ [] }
    {
        PieceStore {
            gaps: PieceMap::new(alloc),
            row: PieceRow::new(alloc),
            alloc,
        }
    }

    /// How many pieces are held.
    #[inline]
    pub(crate) fn len(&self) -> usize
        ensures len { result ≡ length self.now }
        ensures small { result ≤ 2 ^ 62 }
        ensures fits { All FitsWords self.now }
        ensures order { LieInOrder 0 self.now }
    {
        self.gaps.len() + self.row.len()
    }

    /// The sum of the lengths.
    #[inline]
    pub(crate) fn total(&self) -> u128
        ensures { result ≡ sum_by run_length self.now }
    {
        let _count = self.gaps.len() + self.row.len();
        self.gaps.total() + self.row.total()
    }

    /// The sum of the allocation sizes.
    #[inline]
    pub(crate) fn allocated(&self) -> u128
        ensures { result ≡ sum_by run_allocation self.now }
    {
        let _count = self.gaps.len() + self.row.len();
        self.gaps.allocated() + self.row.allocated()
    }

    /// Lets go of all.
    pub(crate) fn clear(&mut self)
        ensures { self.new ≡ [] }
    {
        self.gaps.clear();
        self.row.clear();
    }

    // Whether nothing is held at an offset or behind it.
    #[inline]
    fn is_behind(&self, offset: u64) -> bool
        ensures { result ≡ true → All (λ r. run_end r ≤ offset) self.now }
    {
        match self.row.last_end() {
            Some(end) => end <= offset,
            None => match self.gaps.last_end() {
                Some(end) => end <= offset,
                None => true,
            },
        }
    }

    /// Takes bytes that came at an offset, and that keep so much memory alive. They are joined with all pieces that
    /// they overlap; where two bytes meet the held one stays. Bytes that touch a piece and overlap none are a piece of
    /// their own. Bytes that lie within one piece need no memory.
    #[inline(never)]
    pub(crate) fn insert(
        &mut self,
        offset: u64,
        bytes: Bytes,
        allocation_size: usize,
    ) -> Result<(), OutOfMemory>
        requires { offset + length bytes < 2 ^ 62 }
        ensures merges { OnOk result (Merges self.old (piece_of offset bytes allocation_size) self.new) }
        ensures stems { OnOk result (All (StemsFrom self.old (piece_of offset bytes allocation_size)) self.new) }
        ensures joined { OnOk result (0 < length bytes → JoinsAll self.old (piece_of offset bytes allocation_size) self.new) }
        ensures stays { OnOk result (All (StaysApart offset (offset + length bytes) self.new) self.old) }
        ensures order { (low : ℕ) → low ≤ offset → LieInOrder low self.old → LieInOrder low self.new }
        ensures pieces { length self.new ≤ length self.old + 1 }
        ensures within { Any (Encloses offset (offset + length bytes)) self.old → (result ≡ Ok tt) × (self.new ≡ self.old) }
        ensures empty { length bytes ≡ 0 → (result ≡ Ok tt) × (self.new ≡ self.old) }
        ensures err { OnErr result (self.new ≡ self.old) }
    {
        let end = offset + bytes.len() as u64;
        if end == offset {
            return Ok(());
        }
        self.hold(Piece::new(offset, bytes, allocation_size))
    }

    // Takes a piece.
    #[inline(always)]
    fn hold(&mut self, piece: Piece) -> Result<(), OutOfMemory>
        requires { 0 < length piece.bytes }
        ensures merges { OnOk result (Merges self.old piece self.new) }
        ensures stems { OnOk result (All (StemsFrom self.old piece) self.new) }
        ensures joined { OnOk result (JoinsAll self.old piece self.new) }
        ensures stays { OnOk result (All (StaysApart piece.offset (run_end piece) self.new) self.old) }
        ensures order { (low : ℕ) → low ≤ piece.offset → LieInOrder low self.old → LieInOrder low self.new }
        ensures pieces { length self.new ≤ length self.old + 1 }
        ensures within { Any (Encloses piece.offset (run_end piece)) self.old → (result ≡ Ok tt) × (self.new ≡ self.old) }
        ensures err { OnErr result (self.new ≡ self.old) }
    {
        if is_clear(&self.gaps, &self.row, &piece) {
            return gaps::hold(&mut self.gaps, piece, false, self.alloc);
        }
        if self.is_behind(piece.offset()) {
            return self.row.push_back(piece);
        }
        self.hold_between(piece)
    }

    // Takes a piece that comes before the end of all that is held.
    #[inline(never)]
    fn hold_between(&mut self, piece: Piece) -> Result<(), OutOfMemory>
        requires { 0 < length piece.bytes }
        ensures merges { OnOk result (Merges self.old piece self.new) }
        ensures stems { OnOk result (All (StemsFrom self.old piece) self.new) }
        ensures joined { OnOk result (JoinsAll self.old piece self.new) }
        ensures stays { OnOk result (All (StaysApart piece.offset (run_end piece) self.new) self.old) }
        ensures order { (low : ℕ) → low ≤ piece.offset → LieInOrder low self.old → LieInOrder low self.new }
        ensures pieces { length self.new ≤ length self.old + 1 }
        ensures within { Any (Encloses piece.offset (run_end piece)) self.old → (result ≡ Ok tt) × (self.new ≡ self.old) }
        ensures err { OnErr result (self.new ≡ self.old) }
    {
        let count = self.row.count_up_to(piece.offset());
        if self.row.encloses(count, piece.end()) {
            return Ok(());
        }
        if let Some(index) = place_in_row(&self.gaps, &self.row, count, &piece) {
            return self.row.put_at(index, piece);
        }
        clear_way(&mut self.gaps, &mut self.row, piece.end())?;
        gaps::hold(&mut self.gaps, piece, true, self.alloc)
    }

    // Takes a piece that comes behind all that is held, and a range into a set, or neither.
    fn hold_behind(
        &mut self,
        piece: Piece,
        received: &mut RangeSet,
        range: Range<u64>,
    ) -> Result<(), OutOfMemory>
        requires some { 0 < length piece.bytes }
        requires behind { All (λ r. run_end r ≤ piece.offset) self.old }
        ensures ok { OnOk result (self.new ≡ self.old ++ piece ∷ []) }
        ensures received { OnOk result ((n : ℕ) → contains received.new n ≡ (contains received.old n || lies_in range n)) }
        ensures err { OnErr result (self.new ≡ self.old) }
        ensures err_received { OnErr result (received.new ≡ received.old) }
    {
        self.row.reserve(1)?;
        received.insert(range)?;
        self.row.put_back(piece);
        Ok(())
    }

    // Takes pieces none of which overlaps another or one that is held, and a range into a set, or neither. They end by
    // the end of the range.
    fn hold_parts(
        &mut self,
        parts: Vec<Piece>,
        received: &mut RangeSet,
        range: Range<u64>,
    ) -> Result<(), OutOfMemory>
        requires some { All IsSome parts.items }
        requires within { All (λ p. run_end p ≤ range.end) parts.items }
        requires once { (at : ℕ) → cover_count at (parts.items ++ self.old) ≤ 1 }
        ensures ok { OnOk result (IsPermutation (parts.items ++ self.old) self.new) }
        ensures received { OnOk result ((n : ℕ) → contains received.new n ≡ (contains received.old n || lies_in range n)) }
        ensures err { OnErr result (self.new ≡ self.old) }
        ensures err_received { OnErr result (received.new ≡ received.old) }
    {
        clear_way(&mut self.gaps, &mut self.row, range.end)?;
        let offsets = place_all(&mut self.gaps, parts, self.alloc)?;
        if let Err(refused) = received.insert(range) {
            take_out(&mut self.gaps, offsets.as_slice());
            return Err(refused);
        }
        Ok(())
    }

    /// Takes of bytes that came at an offset, and that keep so much memory alive, what was not received, each longest
    /// run of it as a piece, and counts all of them as received. What is held was received. If refused, all is as it
    /// was.
    pub(crate) fn insert_unreceived(
        &mut self,
        offset: u64,
        bytes: Bytes,
        allocation_size: usize,
        received: &mut RangeSet,
    ) -> Result<(), OutOfMemory>
        requires fits { offset + length bytes < 2 ^ 62 }
        requires once { (at : ℕ) → cover_count at self.old ≤ bit (contains received.old at) }
        ensures fresh { OnOk result (TakesFresh received.old (piece_of offset bytes allocation_size) self.old self.new) }
        ensures adds { OnOk result (AddsOnly allocation_size self.old self.new) }
        ensures received { OnOk result ((n : ℕ) → contains received.new n ≡ (contains received.old n || lies offset (offset + length bytes) n)) }
        ensures err { OnErr result (self.new ≡ self.old) }
        ensures err_received { OnErr result (received.new ≡ received.old) }
    {
        let range = offset..offset + bytes.len() as u64;
        let mut rest = Piece::new(offset, bytes, allocation_size);
        let mut parts = Vec::new(self.alloc);
        cut_all(received, &mut rest, &mut parts)?;
        if rest.len() == 0 {
            if parts.is_empty() {
                return Ok(());
            }
            return self.hold_parts(parts, received, range);
        }
        if parts.is_empty() && self.is_behind(rest.offset()) {
            return self.hold_behind(rest, received, range);
        }
        parts.push(rest)?;
        self.hold_parts(parts, received, range)
    }

    /// Where the first piece begins.
    #[inline]
    pub(crate) fn first_offset(&self) -> Option<u64>
        ensures first { IfSome result (λ offset. (first : PieceView) × (rest : _) × (self.now ≡ first ∷ rest) × (offset ≡ first.offset)) }
        ensures none { IfNone result (self.now ≡ []) }
    {
        match self.gaps.first_key() {
            Some(offset) => Some(offset),
            None => self.row.first_offset(),
        }
    }

    // Takes the first piece out.
    #[inline(always)]
    pub(crate) fn pop_first(&mut self) -> Option<Piece>
        ensures popped { self.old ≡ option_to_list result ++ self.new }
        ensures none { IfNone result (self.new ≡ []) }
    {
        match self.gaps.pop_first() {
            Some(piece) => Some(piece),
            None => self.row.pop_front(),
        }
    }

    // Puts a piece before all others, or gives it back.
    pub(crate) fn put_first(&mut self, piece: Piece) -> Result<(), Piece>
        requires { LieInOrder 0 (piece ∷ self.old) }
        ensures put { OnOk result (self.new ≡ piece ∷ self.old) }
        ensures back { IfErr result (λ given. given ≡ piece) }
        ensures err { OnErr result (self.new ≡ self.old) }
    {
        if self.gaps.len() > 0 {
            return self.gaps.put_first(piece);
        }
        if self.row.reserve(1).is_err() {
            return Err(piece);
        }
        self.row.put_front(piece);
        Ok(())
    }

    /// The offsets below a floor, and those of all pieces.
    pub(crate) fn offsets(&mut self, floor: u64) -> Result<RangeSet, OutOfMemory>
        ensures set { IfOk result (λ set. (at : ℕ) → bit (contains set at) ≡ min 1 (bit (nat_lt at floor) + cover_count at self.old)) }
        ensures same { self.new ≡ self.old }
    {
        gather(&mut self.gaps, &mut self.row)?;
        let mut set = RangeSet::new(self.alloc);
        set.insert(0..floor)?;
        self.row.add_offsets(&mut set)?;
        Ok(set)
    }

    /// Joins all pieces that touch, and copies each other one that keeps more than a fifth more memory alive than it
    /// has bytes. If refused, the same bytes are held, in as many pieces or fewer.
    ///
    /// Where most pieces are in the map, and they are not long together, they are joined where they lie, and those of the
    /// row go to them. Else all go to the row, where the shorter one of two that touch is copied, so that no order in which
    /// pieces come makes the longest one move again and again.
    pub(crate) fn compact(&mut self) -> Result<(), OutOfMemory>
        ensures same { HoldSame self.old self.new }
        ensures order { (low : ℕ) → LieInOrder low self.old → LieInOrder low self.new }
        ensures pieces { length self.new ≤ length self.old }
        ensures apart { OnOk result (LieWithGaps 0 self.new) }
        ensures tidy { OnOk result (All IsTidy self.new) }
        ensures memory { All (IsKeptOrOwn self.old) self.new }
    {
        if self.gaps.len() <= self.row.len() || self.gaps.total() > MOST_IN_PLACE {
            return self.compact_row();
        }
        self.compact_map()
    }

    // The same, with all pieces in the map.
    fn compact_map(&mut self) -> Result<(), OutOfMemory>
        ensures same { HoldSame self.old self.new }
        ensures order { (low : ℕ) → LieInOrder low self.old → LieInOrder low self.new }
        ensures pieces { length self.new ≤ length self.old }
        ensures apart { OnOk result (LieWithGaps 0 self.new) }
        ensures tidy { OnOk result (All IsTidy self.new) }
        ensures memory { All (IsKeptOrOwn self.old) self.new }
    {
        clear_way(&mut self.gaps, &mut self.row, u64::MAX)?;
        let _count = self.row.len();
        compact(&mut self.gaps, self.alloc)
    }

    // The same, with all pieces in the row. Those before the first that is to be changed are not moved.
    fn compact_row(&mut self) -> Result<(), OutOfMemory>
        ensures same { HoldSame self.old self.new }
        ensures order { (low : ℕ) → LieInOrder low self.old → LieInOrder low self.new }
        ensures pieces { length self.new ≤ length self.old }
        ensures apart { OnOk result (LieWithGaps 0 self.new) }
        ensures tidy { OnOk result (All IsTidy self.new) }
        ensures memory { All (IsKeptOrOwn self.old) self.new }
    {
        gather(&mut self.gaps, &mut self.row)?;
        let kept = self.row.count_tidy();
        let mut rest = self.row.split_off(kept, self.alloc)?;
        let joined = join_touching(&mut rest, &mut self.row);
        put_behind(&mut self.row, rest);
        joined
    }
}
