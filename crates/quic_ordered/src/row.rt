// Pieces in a row, with their sums.
ghost use Rattle.std.specs.Prelude.{◌≡◌, ℕ, ◌+◌, ◌-◌, ◌^◌, ◌<◌, ◌≤◌, [], ◌∷◌, ◌++◌, length, sum_by, option_to_list, IfOk, OnOk, OnErr, IfSome, IfNone, IsSome, Some, None, IfErr, slice_index_or, true, false, min, take, drop};
ghost use Rattle.std.specs.List.{All, Any};
ghost use Rattle.quic_assembler.specs.Piece.{PieceView, run_end, run_length, run_allocation, bit, cover_count};
ghost use Rattle.quic_ranges.specs.Runs.{contains};
ghost use Rattle.quic_ordered.specs.Rows.{Row, FitsWords, JoinsLast, LieInOrder, BeginUpTo, LieWithGaps, IsTidy, Encloses, tidied, joined_with};

use crate::piece::Piece;
use quic_ranges::RangeSet;
use quic_values::OutOfMemory;
use std::alloc::Global;
use std::collections::VecDeque;
use std::marker::Model;

// The most pieces that are moved to make a place for one.
const MOST_MOVED: usize = 10;

#[derive(Drop)]
pub(crate) struct PieceRow {
    pieces: VecDeque<Piece>,
    // The sum of the lengths.
    total: u128,
    // The sum of the allocation sizes.
    allocated: u128,
}

impl Model for PieceRow {
    ghost use Rattle.std.specs.VecDeque.{deque_capacity};
    ghost use Rattle.quic_ordered.specs.Rows.{Row, AreSums};

    ghost Value = { Row };

    ghost view = { λ r. record { runs = r.pieces.items; room = deque_capacity r.pieces } };

    ghost invariant = { λ r. AreSums r.total r.allocated r.pieces.items };
}

impl PieceRow {
    pub(crate) fn new(alloc: Global) -> Self
        ensures { result.runs ≡ [] }
    {
        PieceRow {
            pieces: VecDeque::new(alloc),
            total: 0,
            allocated: 0,
        }
    }

    /// Has room for so many pieces.
    pub(crate) fn with_capacity(alloc: Global, count: usize) -> Result<Self, OutOfMemory>
        ensures runs { IfOk result (λ row. row.runs ≡ []) }
        ensures room { IfOk result (λ row. count ≤ row.room) }
    {
        Ok(PieceRow {
            pieces: VecDeque::with_capacity(alloc, count)?,
            total: 0,
            allocated: 0,
        })
    }

    #[inline]
    pub(crate) fn len(&self) -> usize
        ensures len { result ≡ length self.now.runs }
        ensures fits { All FitsWords self.now.runs }
        ensures room { length self.now.runs ≤ self.now.room }
    {
        let _total = self.total;
        self.pieces.len()
    }

    #[inline]
    pub(crate) fn total(&self) -> u128
        ensures { result ≡ sum_by run_length self.now.runs }
    {
        self.total
    }

    #[inline]
    pub(crate) fn allocated(&self) -> u128
        ensures { result ≡ sum_by run_allocation self.now.runs }
    {
        self.allocated
    }

    pub(crate) fn clear(&mut self)
        ensures { self.new.runs ≡ [] }
    {
        self.pieces.clear();
        self.total = 0;
        self.allocated = 0;
    }

    pub(crate) fn reserve(&mut self, count: usize) -> Result<(), OutOfMemory>
        ensures runs { self.new.runs ≡ self.old.runs }
        ensures room { OnOk result (length self.new.runs + count ≤ self.new.room) }
    {
        self.pieces.reserve(count)?;
        Ok(())
    }

    /// Where the first piece begins.
    #[inline]
    pub(crate) fn first_offset(&self) -> Option<u64>
        ensures some { IfSome result (λ offset. (first : PieceView) × (rest : _) × (self.now.runs ≡ first ∷ rest) × (offset ≡ first.offset)) }
        ensures none { IfNone result (self.now.runs ≡ []) }
    {
        match self.pieces.front() {
            Some(first) => Some(first.offset()),
            None => None,
        }
    }

    /// Where the last piece ends.
    #[inline]
    pub(crate) fn last_end(&self) -> Option<u64>
        ensures some { IfSome result (λ end. (others : _) × (last : PieceView) × (self.now.runs ≡ others ++ last ∷ []) × (end ≡ run_end last)) }
        ensures none { IfNone result (self.now.runs ≡ []) }
    {
        match self.pieces.back() {
            Some(last) => Some(last.end()),
            None => None,
        }
    }

    /// How many pieces begin at an offset or before it. Where that is one at most, it needs no search.
    #[inline]
    pub(crate) fn count_up_to(&self, offset: u64) -> usize
        requires { LieInOrder 0 self.now.runs }
        ensures { BeginUpTo self.now.runs offset result }
    {
        if self.pieces.len() > 1 && offset < self.pieces[1].offset() {
            if offset < self.pieces[0].offset() {
                return 0;
            }
            return 1;
        }
        self.search(offset)
    }

    // The same, by a search.
    fn search(&self, offset: u64) -> usize
        requires { LieInOrder 0 self.now.runs }
        ensures { BeginUpTo self.now.runs offset result }
    {
        let mut low = 0;
        let mut high = self.pieces.len();
        while low < high {
            let middle = low + (high - low) / 2;
            if self.pieces[middle].offset() <= offset {
                low = middle + 1;
            } else {
                high = middle;
            }
        }
        low
    }

    /// Whether one of the pieces has all offsets from one up to another, where so many pieces begin up to the first of them.
    pub(crate) fn encloses(&self, count: usize, end: u64) -> bool
        requires order { LieInOrder 0 self.now.runs }
        requires fits { count ≤ length self.now.runs }
        ensures yes { result ≡ true → (offset : ℕ) → BeginUpTo self.now.runs offset count → Any (Encloses offset end) self.now.runs }
        ensures no { result ≡ false → (offset : ℕ) → offset < end → BeginUpTo self.now.runs offset count → Any (Encloses offset end) self.now.runs → ⊥ }
    {
        if count == 0 {
            return false;
        }
        end <= self.pieces[count - 1].end()
    }

    /// How many pieces lie before the offsets from one up to another, where no piece has any of them, and few have to be
    /// moved to put one there. So many begin up to the first of them.
    pub(crate) fn place_for(&self, count: usize, offset: u64, end: u64) -> Option<usize>
        requires order { LieInOrder 0 self.now.runs }
        requires counted { BeginUpTo self.now.runs offset count }
        ensures fits { IfSome result (λ n. n ≤ length self.now.runs) }
        ensures before { IfSome result (λ n. All (λ r. run_end r ≤ offset) (take n self.now.runs)) }
        ensures behind { IfSome result (λ n. LieInOrder end (drop n self.now.runs)) }
    {
        let behind = self.pieces.len() - count;
        if count.min(behind) > MOST_MOVED {
            return None;
        }
        if count > 0 && self.pieces[count - 1].end() > offset {
            return None;
        }
        if behind > 0 && self.pieces[count].offset() < end {
            return None;
        }
        Some(count)
    }

    /// Puts a piece behind so many others.
    pub(crate) fn put_at(&mut self, index: usize, piece: Piece) -> Result<(), OutOfMemory>
        requires { index ≤ length self.old.runs }
        ensures ok { OnOk result (self.new.runs ≡ take index self.old.runs ++ piece ∷ drop index self.old.runs) }
        ensures err { OnErr result (self.new.runs ≡ self.old.runs) }
    {
        let _count = self.pieces.len();
        let length = piece.len() as u128;
        let allocated = piece.allocation_size() as u128;
        self.pieces.insert(index, piece)?;
        self.total += length;
        self.allocated += allocated;
        Ok(())
    }

    #[inline]
    pub(crate) fn push_back(&mut self, piece: Piece) -> Result<(), OutOfMemory>
        ensures ok { OnOk result (self.new.runs ≡ self.old.runs ++ piece ∷ []) }
        ensures err { OnErr result (self.new.runs ≡ self.old.runs) }
    {
        let _count = self.pieces.len();
        let length = piece.len() as u128;
        let allocated = piece.allocation_size() as u128;
        self.pieces.push_back(piece)?;
        self.total += length;
        self.allocated += allocated;
        Ok(())
    }

    /// There is room.
    pub(crate) fn put_back(&mut self, piece: Piece)
        requires { length self.old.runs < self.old.room }
        ensures put { self.new.runs ≡ self.old.runs ++ piece ∷ [] }
        ensures room { self.new.room ≡ self.old.room }
    {
        let _count = self.pieces.len();
        self.total += piece.len() as u128;
        self.allocated += piece.allocation_size() as u128;
        self.pieces.push_back_reserved(piece);
    }

    /// There is room.
    pub(crate) fn put_front(&mut self, piece: Piece)
        requires { length self.old.runs < self.old.room }
        ensures put { self.new.runs ≡ piece ∷ self.old.runs }
        ensures room { self.new.room ≡ self.old.room }
    {
        let _count = self.pieces.len();
        self.total += piece.len() as u128;
        self.allocated += piece.allocation_size() as u128;
        self.pieces.push_front_reserved(piece);
    }

    #[inline]
    pub(crate) fn pop_front(&mut self) -> Option<Piece>
        ensures popped { self.old.runs ≡ option_to_list result ++ self.new.runs }
        ensures none { IfNone result (self.new.runs ≡ []) }
        ensures fits { IfSome result FitsWords }
        ensures room { self.new.room ≡ self.old.room }
        ensures spare { IfSome result (λ _. length self.new.runs < self.new.room) }
    {
        let first = self.pieces.pop_front();
        if let Some(piece) = &first {
            self.total -= piece.len() as u128;
            self.allocated -= piece.allocation_size() as u128;
        }
        first
    }

    #[inline]
    pub(crate) fn pop_back(&mut self) -> Option<Piece>
        ensures popped { self.old.runs ≡ self.new.runs ++ option_to_list result }
        ensures none { IfNone result (self.new.runs ≡ []) }
        ensures fits { IfSome result FitsWords }
        ensures room { self.new.room ≡ self.old.room }
        ensures spare { IfSome result (λ _. length self.new.runs < self.new.room) }
    {
        let last = self.pieces.pop_back();
        if let Some(piece) = &last {
            self.total -= piece.len() as u128;
            self.allocated -= piece.allocation_size() as u128;
        }
        last
    }

    /// Puts the offsets of all pieces into a set.
    pub(crate) fn add_offsets(&self, set: &mut RangeSet) -> Result<(), OutOfMemory>
        ensures { OnOk result ((at : ℕ) → bit (contains set.new at) ≡ min 1 (bit (contains set.old at) + cover_count at self.now.runs)) }
    {
        let mut index = 0;
        while index < self.pieces.len() {
            let piece = &self.pieces[index];
            set.insert(piece.offset()..piece.end())?;
            index += 1;
        }
        Ok(())
    }

    /// How many pieces, from the first on, stay as they are when all are compacted: none touches the one before it or keeps
    /// much memory alive.
    pub(crate) fn count_tidy(&self) -> usize
        requires { LieInOrder 0 self.now.runs }
        ensures fits { result ≤ length self.now.runs }
        ensures apart { LieWithGaps 0 (take result self.now.runs) }
        ensures tidy { All IsTidy (take result self.now.runs) }
    {
        let mut floor = 0;
        let mut index = 0;
        while index < self.pieces.len() {
            let piece = &self.pieces[index];
            if piece.offset() < floor || !piece.is_little() {
                break;
            }
            floor = piece.end() + 1;
            index += 1;
        }
        index
    }

    /// Takes the pieces behind so many out, as a row of their own. If refused, all is as it was.
    pub(crate) fn split_off(&mut self, kept: usize, alloc: Global) -> Result<Self, OutOfMemory>
        requires { kept ≤ length self.old.runs }
        ensures front { OnOk result (self.new.runs ≡ take kept self.old.runs) }
        ensures rest { IfOk result (λ rest. rest.runs ≡ drop kept self.old.runs) }
        ensures room { self.new.room ≡ self.old.room }
        ensures fits { length self.old.runs ≤ self.old.room }
        ensures err { OnErr result (self.new.runs ≡ self.old.runs) }
    {
        let mut rest = PieceRow::with_capacity(alloc, self.pieces.len() - kept)?;
        while self.pieces.len() > kept {
            let Some(piece) = self.pop_back() else {
                unreachable!();
            };
            rest.put_front(piece);
        }
        Ok(rest)
    }

    // Puts a piece behind all others, in memory of its own where it keeps too much alive, or gives it back.
    fn put_tidy(&mut self, mut piece: Piece) -> Result<(), Piece>
        requires { length self.old.runs < self.old.room }
        ensures put { OnOk result (self.new.runs ≡ self.old.runs ++ tidied piece ∷ []) }
        ensures room { self.new.room ≡ self.old.room }
        ensures back { IfErr result (λ given. given ≡ piece) }
        ensures err { OnErr result (self.new.runs ≡ self.old.runs) }
    {
        if piece.tidy().is_err() {
            return Err(piece);
        }
        self.put_back(piece);
        Ok(())
    }

    /// Joins a piece that comes behind all others with the last one where they touch, else puts it there. There is
    /// room. Without memory the piece is given back.
    pub(crate) fn join_last(&mut self, piece: Piece) -> Result<(), Piece>
        requires { length self.old.runs < self.old.room }
        ensures joins { OnOk result (JoinsLast self.old.runs piece self.new.runs) }
        ensures room { self.new.room ≡ self.old.room }
        ensures back { IfErr result (λ given. given ≡ piece) }
        ensures err { OnErr result (self.new.runs ≡ self.old.runs) }
    {
        let touches = match self.pieces.back() {
            Some(last) => last.end() == piece.offset(),
            None => false,
        };
        if !touches {
            return self.put_tidy(piece);
        }
        let Some(mut last) = self.pop_back() else {
            unreachable!();
        };
        if last.len() < piece.len() {
            return self.put_joined_behind(last, piece);
        }
        let joined = last.append(&piece);
        self.put_back(last);
        match joined {
            Ok(()) => Ok(()),
            Err(_) => Err(piece),
        }
    }

    // Joins two pieces, the second of which begins where the first one ends and is as long or longer, and puts them behind
    // all others. There is room. Without memory the first one is put there, and the second given back.
    fn put_joined_behind(&mut self, first: Piece, mut second: Piece) -> Result<(), Piece>
        requires room { length self.old.runs < self.old.room }
        requires touch { run_end first ≡ second.offset }
        requires short { length first.bytes ≤ length second.bytes }
        ensures put { OnOk result (self.new.runs ≡ self.old.runs ++ joined_with first second ∷ []) }
        ensures back { IfErr result (λ given. given ≡ second) }
        ensures err { OnErr result (self.new.runs ≡ self.old.runs ++ first ∷ []) }
        ensures room { self.new.room ≡ self.old.room }
    {
        if second.prepend(&first).is_err() {
            self.put_back(first);
            return Err(second);
        }
        self.put_back(second);
        Ok(())
    }
}
