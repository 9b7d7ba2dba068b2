// Pieces by the offsets at which they begin, with their sums.
ghost use Rattle.std.specs.Prelude.{List, ◌≡◌, ℕ, ◌+◌, ◌-◌, ◌^◌, ◌<◌, ◌≤◌, ◌⊎◌, [], ◌∷◌, ◌++◌, length, sum_by, IfOk, OnOk, OnErr, IfSome, IfNone, IsSome, Some, None, is_some, if◌then◌else◌, IfErr};
ghost use Rattle.std.specs.Map.{values_of, keys_of, set_value};
ghost use Rattle.std.specs.List.{All};
ghost use Rattle.std.specs.BTreeMap.{insert_entry, is_at};
ghost use Rattle.std.specs.Ordering.{nat_cmp};
ghost use Rattle.quic_assembler.specs.Piece.{PieceView, run_end, run_length, run_allocation};
ghost use Rattle.quic_ordered.specs.Entries.{piece_at, piece_of, NoPieceBegins, IsLastPiece, IsFirstPiece, IsFreeFor};
ghost use Rattle.quic_ordered.specs.Rows.{RiseByKey, FitsWords, tidied, joined_with};
ghost use Rattle.quic_ordered.specs.Sweeping.{IsSwept, IsNextRun};

use crate::piece::Piece;
use crate::slots::PieceSlots;
use block_map::Place;
use quic_values::OutOfMemory;
use std::alloc::Global;
use std::marker::Model;

/// A piece, and behind it those that touch, one behind another, from its end on up to an offset.
#[derive(Clone, Copy)]
pub(crate) struct Run {
    pub base: u64,
    pub from: u64,
    pub stop: u64,
    // Where the piece lies, as a hint for searches.
    pub hint: Place,
}

/// Where the last piece that is done begins and ends, and what is to be done next, if something is.
#[derive(Clone, Copy)]
pub(crate) struct Passed {
    pub last: Option<u64>,
    pub end: u64,
    pub next: Option<Run>,
}

impl Run {
    fn new(base: u64, from: u64, stop: u64, hint: Place) -> Self
        ensures { result ≡ record { base = base; from = from; stop = stop; hint = hint } }
    {
        Run {
            base,
            from,
            stop,
            hint,
        }
    }
}

impl Passed {
    fn new(last: Option<u64>, end: u64, next: Option<Run>) -> Self
        ensures { result ≡ record { last = last; end = end; next = next } }
    {
        Passed { last, end, next }
    }
}

#[derive(Drop)]
pub(crate) struct PieceMap {
    pieces: PieceSlots,
    // The sum of the lengths.
    total: u128,
    // The sum of the allocation sizes.
    allocated: u128,
}

impl Model for PieceMap {
    ghost use Rattle.std.specs.Prelude.{List, ℕ};
    ghost use Rattle.quic_assembler.specs.Piece.{PieceView};
    ghost use Rattle.quic_ordered.specs.Rows.{IsSummedMap};

    ghost Value = { List (ℕ × PieceView) };

    ghost view = { λ m. m.pieces.entries };

    ghost invariant = { λ m. IsSummedMap m.total m.allocated m.pieces.entries };
}

impl PieceMap {
    pub(crate) fn new(alloc: Global) -> Self
        ensures empty { result ≡ [] }
        ensures rises { RiseByKey result }
    {
        PieceMap {
            pieces: PieceSlots::new(alloc),
            total: 0,
            allocated: 0,
        }
    }

    #[inline]
    pub(crate) fn len(&self) -> usize
        ensures len { result ≡ length self.now }
        ensures small { result < 2 ^ 63 }
        ensures rises { RiseByKey self.now }
        ensures fits { All FitsWords (values_of self.now) }
    {
        let _total = self.total;
        self.pieces.len()
    }

    #[inline]
    pub(crate) fn total(&self) -> u128
        ensures { result ≡ sum_by run_length (values_of self.now) }
    {
        self.total
    }

    #[inline]
    pub(crate) fn allocated(&self) -> u128
        ensures { result ≡ sum_by run_allocation (values_of self.now) }
    {
        self.allocated
    }

    pub(crate) fn clear(&mut self)
        ensures empty { self.new ≡ [] }
        ensures rises { RiseByKey self.new }
    {
        self.pieces.clear();
        self.total = 0;
        self.allocated = 0;
    }

    /// Gives back memory of places that few pieces have. If refused, all is as it was.
    pub(crate) fn refill(&mut self) -> Result<(), OutOfMemory>
        ensures same { self.new ≡ self.old }
        ensures rises { RiseByKey self.new }
    {
        let _count = self.pieces.len();
        self.pieces.refill()
    }

    /// The last piece that begins at `n` or before: where it begins and ends.
    pub(crate) fn last_up_to(&self, n: u64) -> Option<(u64, u64)>
        ensures found { IfSome result (λ r. IsLastPiece self.now r.0 r.1 n) }
        ensures none { IfNone result (NoPieceBegins self.now 0 n) }
        ensures bound { IfSome result (λ r. r.1 < 2 ^ 62) }
    {
        match self.pieces.last_up_to(n) {
            Some((start, piece)) => Some((start, piece.end())),
            None => None,
        }
    }

    /// Where the first piece begins that begins at `n` or behind it.
    pub(crate) fn first_from(&self, n: u64) -> Option<u64>
        ensures found { IfSome result (λ start. IsFirstPiece self.now start n) }
        ensures none { IfNone result ((q : ℕ) → n ≤ q → piece_at self.now q ≡ None) }
    {
        self.pieces.first_from(n)
    }

    /// Passes over the pieces from `end` on that are to stay as they are, up to the first that touches the one before it
    /// or keeps much memory alive. Copies the bytes of those that touch it, one behind another. `hint` says where the last
    /// one lies.
    pub(crate) fn pass_over(
        &self,
        last: Option<u64>,
        end: u64,
        hint: Place,
        bytes: &mut Vec<u8>,
    ) -> Result<Passed, OutOfMemory>
        requires { (all : List PieceView) × IsSwept all last end self.now }
        ensures swept { IfOk result (λ passed. (all : List PieceView) → IsSwept all last end self.now → IsSwept all passed.last passed.end self.now) }
        ensures found { IfOk result (λ passed. IfSome passed.next (λ run. IsNextRun self.now passed.last passed.end run.base run.from run.stop bytes.new.items)) }
        ensures none { IfOk result (λ passed. IfNone passed.next ((q : ℕ) → passed.end ≤ q → piece_at self.now q ≡ None)) }
        ensures on { IfOk result (λ passed. end ≤ passed.end) }
    {
        bytes.clear();
        let (mut last, mut floor) = (last, end);
        let mut found: Option<Run> = None;
        let mut place = self.pieces.place_from(hint, end);
        let mut before = hint;
        let mut here = place.unwrap_or(hint);
        while let Some((start, piece)) = self.pieces.step(&mut place) {
            let stop = piece.end();
            match found {
                None => match last {
                    Some(base) if floor == start => {
                        bytes.extend_from_slice(piece.as_slice())?;
                        found = Some(Run::new(base, floor, stop, before));
                    }
                    _ => {
                        if piece.is_little() {
                            last = Some(start);
                            floor = stop;
                        } else {
                            found = Some(Run::new(start, stop, stop, here));
                        }
                    }
                },
                Some(run) => {
                    if run.stop != start {
                        return Ok(Passed::new(last, floor, found));
                    }
                    bytes.extend_from_slice(piece.as_slice())?;
                    found = Some(Run { stop, ..run });
                }
            }
            before = here;
            here = place.unwrap_or(here);
        }
        Ok(Passed::new(last, floor, found))
    }

    /// Puts a piece at its offset, and gives the one that stood there. Memory is wanted only where none did.
    pub(crate) fn insert(&mut self, piece: Piece) -> Result<Option<Piece>, OutOfMemory>
        ensures old { IfOk result (λ old. old ≡ piece_at self.old piece.offset) }
        ensures here { OnOk result (piece_at self.new piece.offset ≡ Some piece) }
        ensures others { OnOk result ((q : ℕ) → (q ≡ piece.offset → ⊥) → piece_at self.new q ≡ piece_at self.old q) }
        ensures entries { OnOk result (self.new ≡ insert_entry nat_cmp self.old piece.offset piece) }
        ensures absent { OnErr result (piece_at self.old piece.offset ≡ None) }
        ensures err { OnErr result (self.new ≡ self.old) }
        ensures len { IfOk result (λ old. length self.new ≡ length self.old + (if is_some old then 0 else 1)) }
        ensures rises { RiseByKey self.new }
    {
        let _count = self.pieces.len();
        if self.pieces.contains(piece.offset()) {
            return Ok(Some(self.replace(piece)));
        }
        let Ok(()) = self.put_new(piece) else {
            return Err(OutOfMemory);
        };
        Ok(None)
    }

    /// Puts a piece in the place of the one that begins at its offset, and gives that.
    pub(crate) fn replace(&mut self, piece: Piece) -> Piece
        requires { piece_at self.old piece.offset ≡ None → ⊥ }
        ensures old { piece_at self.old piece.offset ≡ Some result }
        ensures here { piece_at self.new piece.offset ≡ Some piece }
        ensures others { (q : ℕ) → (q ≡ piece.offset → ⊥) → piece_at self.new q ≡ piece_at self.old q }
        ensures len { length self.new ≡ length self.old }
        ensures entries { self.new ≡ set_value (is_at (nat_cmp piece.offset)) self.old piece }
        ensures rises { RiseByKey self.new }
    {
        let _count = self.pieces.len();
        let length = piece.len() as u128;
        let allocated = piece.allocation_size() as u128;
        let old = self.pieces.replace(piece);
        self.total = self.total + length - old.len() as u128;
        self.allocated = self.allocated + allocated - old.allocation_size() as u128;
        old
    }

    /// Copies the piece that begins at an offset where it keeps much more memory alive than it has bytes. If refused,
    /// all is as it was.
    pub(crate) fn tidy(&mut self, offset: u64) -> Result<(), OutOfMemory>
        requires { piece_at self.old offset ≡ None → ⊥ }
        ensures tidied { OnOk result ((v : PieceView) → piece_at self.old offset ≡ Some v → piece_at self.new offset ≡ Some (tidied v)) }
        ensures others { (q : ℕ) → (q ≡ offset → ⊥) → piece_at self.new q ≡ piece_at self.old q }
        ensures err { OnErr result (self.new ≡ self.old) }
        ensures rises { RiseByKey self.new }
    {
        let _count = self.pieces.len();
        let (before, after) = self.pieces.tidy(offset)?;
        self.allocated = self.allocated + after as u128 - before as u128;
        Ok(())
    }

    /// Appends bytes to the piece that begins at an offset. If refused, all is as it was. A hint of where it lies saves a
    /// search.
    pub(crate) fn append(
        &mut self,
        offset: u64,
        hint: Place,
        bytes: &[u8],
    ) -> Result<(), OutOfMemory>
        requires { (v : PieceView) × (piece_at self.old offset ≡ Some v) × (run_end v + length bytes.now < 2 ^ 62) }
        ensures joined { OnOk result ((v : PieceView) → piece_at self.old offset ≡ Some v → piece_at self.new offset ≡ Some (joined_with v (piece_of 0 bytes.now 0))) }
        ensures others { (q : ℕ) → (q ≡ offset → ⊥) → piece_at self.new q ≡ piece_at self.old q }
        ensures err { OnErr result (self.new ≡ self.old) }
        ensures rises { RiseByKey self.new }
    {
        let _count = self.pieces.len();
        let length = bytes.len() as u128;
        let (before, after) = self.pieces.append(offset, hint, bytes)?;
        self.total += length;
        self.allocated = self.allocated + after as u128 - before as u128;
        Ok(())
    }

    /// Takes the piece that begins at an offset out.
    #[inline]
    pub(crate) fn remove(&mut self, offset: u64) -> Option<Piece>
        ensures value { result ≡ piece_at self.old offset }
        ensures gone { piece_at self.new offset ≡ None }
        ensures others { (q : ℕ) → (q ≡ offset → ⊥) → piece_at self.new q ≡ piece_at self.old q }
        ensures len { length self.new + (if is_some result then 1 else 0) ≡ length self.old }
        ensures rises { RiseByKey self.new }
    {
        let old = self.pieces.remove(offset);
        if let Some(piece) = &old {
            self.total -= piece.len() as u128;
            self.allocated -= piece.allocation_size() as u128;
        }
        old
    }

    /// As [`PieceMap::remove`]. A hint of where the piece lies saves a search.
    #[inline]
    pub(crate) fn remove_near(&mut self, hint: Place, offset: u64) -> Option<Piece>
        ensures value { result ≡ piece_at self.old offset }
        ensures gone { piece_at self.new offset ≡ None }
        ensures others { (q : ℕ) → (q ≡ offset → ⊥) → piece_at self.new q ≡ piece_at self.old q }
        ensures len { length self.new + (if is_some result then 1 else 0) ≡ length self.old }
        ensures rises { RiseByKey self.new }
    {
        let old = self.pieces.remove_near(hint, offset);
        if let Some(piece) = &old {
            self.total -= piece.len() as u128;
            self.allocated -= piece.allocation_size() as u128;
        }
        old
    }

    // Puts a piece where none begins, or gives it back.
    fn put_new(&mut self, piece: Piece) -> Result<(), Piece>
        requires { piece_at self.old piece.offset ≡ None }
        ensures entries { OnOk result (self.new ≡ insert_entry nat_cmp self.old piece.offset piece) }
        ensures back { IfErr result (λ given. given ≡ piece) }
        ensures err { OnErr result (self.new ≡ self.old) }
        ensures rises { RiseByKey self.new }
    {
        let length = piece.len() as u128;
        let allocated = piece.allocation_size() as u128;
        let _count = self.pieces.len();
        match self.pieces.put_new(piece) {
            Ok(()) => {
                self.total += length;
                self.allocated += allocated;
                Ok(())
            }
            Err(piece) => Err(piece),
        }
    }

    /// Puts a piece in. Where the last one that begins below its end begins from its offset on, or ends behind it, gives it
    /// back, with where that one begins and ends. Where that one is likely to be the last of all, it is tried first.
    #[inline(always)]
    pub(crate) fn put_free(
        &mut self,
        piece: Piece,
        is_likely: bool,
    ) -> Result<Option<(Piece, u64, u64)>, OutOfMemory>
        requires { 0 < length piece.bytes }
        ensures entries { IfOk result (λ r. IfNone r (self.new ≡ insert_entry nat_cmp self.old piece.offset piece)) }
        ensures free { IfOk result (λ r. IfNone r (IsFreeFor self.old piece)) }
        ensures back { IfOk result (λ r. IfSome r (λ t. t.0 ≡ piece)) }
        ensures last { IfOk result (λ r. IfSome r (λ t. IsLastPiece self.old t.1 t.2 (run_end piece - 1))) }
        ensures near { IfOk result (λ r. IfSome r (λ t. (piece.offset ≤ t.1) ⊎ (piece.offset < t.2))) }
        ensures bound { IfOk result (λ r. IfSome r (λ t. t.2 < 2 ^ 62)) }
        ensures same { IfOk result (λ r. IfSome r (λ _. self.new ≡ self.old)) }
        ensures free_err { OnErr result (IsFreeFor self.old piece) }
        ensures err { OnErr result (self.new ≡ self.old) }
        ensures rises { RiseByKey self.new }
    {
        let length = piece.len() as u128;
        let allocated = piece.allocation_size() as u128;
        let _count = self.pieces.len();
        match self.pieces.put_free(piece, is_likely)? {
            Some(found) => Ok(Some(found)),
            None => {
                self.total += length;
                self.allocated += allocated;
                Ok(None)
            }
        }
    }

    /// Puts a piece behind all others, or gives it back.
    pub(crate) fn put_last(&mut self, piece: Piece) -> Result<(), Piece>
        requires { All (λ key. key < piece.offset) (keys_of self.old) }
        ensures put { OnOk result (self.new ≡ self.old ++ (piece.offset, piece) ∷ []) }
        ensures back { IfErr result (λ given. given ≡ piece) }
        ensures err { OnErr result (self.new ≡ self.old) }
        ensures rises { RiseByKey self.new }
    {
        let length = piece.len() as u128;
        let allocated = piece.allocation_size() as u128;
        let _count = self.pieces.len();
        match self.pieces.put_last(piece) {
            Ok(()) => {
                self.total += length;
                self.allocated += allocated;
                Ok(())
            }
            Err(piece) => Err(piece),
        }
    }

    /// Puts a piece before all others, or gives it back.
    pub(crate) fn put_first(&mut self, piece: Piece) -> Result<(), Piece>
        requires { (q : ℕ) (v : PieceView) → piece_at self.old q ≡ Some v → piece.offset < q }
        ensures put { OnOk result (self.new ≡ (piece.offset, piece) ∷ self.old) }
        ensures back { IfErr result (λ given. given ≡ piece) }
        ensures err { OnErr result (self.new ≡ self.old) }
        ensures rises { RiseByKey self.new }
    {
        self.put_new(piece)
    }

    /// The offset under which the first piece stands.
    #[inline(always)]
    pub(crate) fn first_key(&self) -> Option<u64>
        ensures some { IfSome result (λ key. (piece : PieceView) × (rest : _) × (self.now ≡ (key, piece) ∷ rest)) }
        ensures none { IfNone result (self.now ≡ []) }
    {
        self.pieces.first_key()
    }

    /// Where the last piece ends.
    #[inline]
    pub(crate) fn last_end(&self) -> Option<u64>
        ensures some { IfSome result (λ end. (others : _) × (key : ℕ) × (last : PieceView) × (self.now ≡ others ++ (key, last) ∷ []) × (end ≡ run_end last)) }
        ensures none { IfNone result (self.now ≡ []) }
    {
        match self.pieces.last() {
            Some(piece) => Some(piece.end()),
            None => None,
        }
    }

    /// Takes the first piece out.
    #[inline(always)]
    pub(crate) fn pop_first(&mut self) -> Option<Piece>
        ensures some { IfSome result (λ piece. (key : ℕ) × (self.old ≡ (key, piece) ∷ self.new)) }
        ensures none { IfNone result ((self.old ≡ []) × (self.new ≡ [])) }
        ensures fits { IfSome result FitsWords }
        ensures rises { RiseByKey self.new }
    {
        match self.pieces.pop_first() {
            Some(piece) => {
                self.total -= piece.len() as u128;
                self.allocated -= piece.allocation_size() as u128;
                Some(piece)
            }
            None => None,
        }
    }

    /// Takes the last piece out.
    pub(crate) fn pop_last(&mut self) -> Option<Piece>
        ensures some { IfSome result (λ piece. (key : ℕ) × (self.old ≡ self.new ++ (key, piece) ∷ [])) }
        ensures none { IfNone result ((self.old ≡ []) × (self.new ≡ [])) }
        ensures rises { RiseByKey self.new }
    {
        match self.pieces.pop_last() {
            Some(piece) => {
                self.total -= piece.len() as u128;
                self.allocated -= piece.allocation_size() as u128;
                Some(piece)
            }
            None => None,
        }
    }
}
