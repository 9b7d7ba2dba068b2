// Pieces by the offsets at which they begin, each in a slot of a slab.
ghost use Rattle.std.specs.Prelude.{◌≡◌, ℕ, ◌+◌, ◌-◌, ◌^◌, ◌<◌, ◌≤◌, ◌⊎◌, [], ◌∷◌, ◌++◌, length, slice_index_or, if◌then◌else◌, IfOk, IfErr, IfSome, IfNone, OnOk, OnErr, Some, None, is_some, true};
ghost use Rattle.std.specs.BTreeMap.{insert_entry, is_at};
ghost use Rattle.std.specs.BTreeMap.Range.{entries_between};
ghost use Rattle.std.specs.Map.{remove_entry, set_value, keys_of};
ghost use Rattle.std.specs.List.{All};
ghost use Rattle.std.specs.Ordering.{nat_cmp};
ghost use Rattle.std.specs.declared.ops.Bound.TheVariants.{Included, Unbounded};
ghost use Rattle.slab.specs.Slab.{ContainsKey, HasRoomFor, Updates};
ghost use Rattle.block_map.specs.Rows.{IsPlace, place_among};
ghost use Rattle.block_map.specs.Sorted.{KeyAndValue, KeysRise, IsLastUpTo};
ghost use Rattle.quic_assembler.specs.Piece.{PieceView, run_end};
ghost use Rattle.quic_ordered.specs.Entries.{piece_at, piece_of, NoPieceBegins, IsFirstPiece, IsLastPiece, IsFreeFor};
ghost use Rattle.quic_ordered.specs.Rows.{RiseByKey, tidied, joined_with};
ghost use Rattle.quic_ordered.specs.Slotted.{in_slot, IsPlaceOrEnd, from_place};

use crate::piece::Piece;
use block_map::{BlockMap, Place};
use quic_values::OutOfMemory;
use slab::Slab;
use std::alloc::{AllocError, Global};
use std::marker::Model;
use std::mem;

// The piece in a slot.
#[inline(always)]
fn piece_in(pieces: &Slab<Piece>, slot: u64) -> &Piece
    requires { ContainsKey pieces.now slot }
    ensures { result.now ≡ in_slot pieces.now slot }
{
    match pieces.get(slot as usize) {
        Some(piece) => piece,
        None => unreachable!(),
    }
}

// Makes room for one more.
#[inline(always)]
fn make_room(places: &mut BlockMap, pieces: &mut Slab<Piece>) -> Result<(), AllocError>
    ensures items { places.new.items ≡ places.old.items }
    ensures rows { places.new.rows ≡ places.old.rows }
    ensures slots { pieces.new.slots ≡ pieces.old.slots }
    ensures room { OnOk result (places.new.room ≡ true) }
    ensures few { OnOk result (length places.new.items < 2 ^ 62) }
    ensures slot { OnOk result (HasRoomFor pieces.new 1) }
{
    places.reserve()?;
    pieces.reserve(1)?;
    Ok(())
}

// The place of the last entry with a key up to `n`. Where that is likely to be the last of all, it is tried first.
#[inline(always)]
fn find_last(places: &BlockMap, n: u64, is_likely: bool) -> Option<Place>
    ensures place { IfSome result (λ p. IsPlace places.now.rows p.block p.index) }
    ensures last { IfSome result (λ p. IsLastUpTo places.now.items n (place_among places.now.rows p.block p.index)) }
    ensures none { IfNone result ((k : ℕ) (d : KeyAndValue) → k < length places.now.items → n < (slice_index_or places.now.items k d).0) }
    ensures rises { KeysRise places.now.items }
{
    if is_likely {
        if let Some(place) = places.last_place() {
            let _count = places.len();
            if places.entry(place).0 <= n {
                return Some(place);
            }
        }
    }
    places.find(n)
}

// Puts a piece in the place of the one in a slot, and gives that.
#[inline(always)]
fn replace_in(pieces: &mut Slab<Piece>, slot: u64, piece: Piece) -> Piece
    requires { ContainsKey pieces.old slot }
    ensures value { result ≡ in_slot pieces.old slot }
    ensures updates { Updates pieces.old pieces.new slot (Some piece) }
{
    match pieces.get_mut(slot as usize) {
        Some(place) => mem::replace(place, piece),
        None => unreachable!(),
    }
}

// Copies the piece in a slot where it keeps much more memory alive than it has bytes. Gives how much it keeps alive before
// and afterwards. If refused, all is as it was.
#[inline(always)]
fn tidy_in(pieces: &mut Slab<Piece>, slot: u64) -> Result<(usize, usize), OutOfMemory>
    requires { ContainsKey pieces.old slot }
    ensures ok { OnOk result (Updates pieces.old pieces.new slot (Some (tidied (in_slot pieces.old slot)))) }
    ensures before { IfOk result (λ r. r.0 ≡ (in_slot pieces.old slot).allocation_size) }
    ensures after { IfOk result (λ r. r.1 ≡ (tidied (in_slot pieces.old slot)).allocation_size) }
    ensures err { OnErr result (pieces.new ≡ pieces.old) }
{
    match pieces.get_mut(slot as usize) {
        Some(piece) => {
            let before = piece.allocation_size();
            piece.tidy()?;
            Ok((before, piece.allocation_size()))
        }
        None => unreachable!(),
    }
}

// Appends bytes to the piece in a slot. Gives how much memory it keeps alive before and afterwards. If refused, all is as
// it was.
#[inline(always)]
fn append_in(
    pieces: &mut Slab<Piece>,
    slot: u64,
    bytes: &[u8],
) -> Result<(usize, usize), OutOfMemory>
    requires held { ContainsKey pieces.old slot }
    requires bound { run_end (in_slot pieces.old slot) + length bytes.now < 2 ^ 62 }
    ensures ok { OnOk result (Updates pieces.old pieces.new slot (Some (joined_with (in_slot pieces.old slot) (piece_of 0 bytes.now 0)))) }
    ensures before { IfOk result (λ r. r.0 ≡ (in_slot pieces.old slot).allocation_size) }
    ensures after { IfOk result (λ r. r.1 ≡ (joined_with (in_slot pieces.old slot) (piece_of 0 bytes.now 0)).allocation_size) }
    ensures err { OnErr result (pieces.new ≡ pieces.old) }
{
    match pieces.get_mut(slot as usize) {
        Some(piece) => {
            let before = piece.allocation_size();
            piece.append_bytes(bytes)?;
            Ok((before, piece.allocation_size()))
        }
        None => unreachable!(),
    }
}

#[derive(Drop)]
pub(crate) struct PieceSlots {
    // The slot of each offset.
    places: BlockMap,
    pieces: Slab<Piece>,
    alloc: Global,
}

impl Model for PieceSlots {
    ghost use Rattle.quic_ordered.specs.Slotted.{Slots, as_slots, AreSlots};

    ghost Value = { Slots };

    ghost view = { λ m. as_slots m.pieces m.places.items m.places.rows };

    ghost invariant = { λ m. AreSlots m.places.items m.pieces };
}

impl PieceSlots {
    pub(crate) fn new(alloc: Global) -> Self
        ensures { result.entries ≡ [] }
    {
        PieceSlots {
            places: BlockMap::new(alloc),
            pieces: Slab::new(alloc),
            alloc,
        }
    }

    #[inline]
    pub(crate) fn len(&self) -> usize
        ensures len { result ≡ length self.now.entries }
        ensures small { result ≤ 2 ^ 62 }
        ensures rises { RiseByKey self.now.entries }
    {
        let _pieces = &self.pieces;
        self.places.len()
    }

    /// Lets go of all, and frees the memory.
    pub(crate) fn clear(&mut self)
        ensures { self.new.entries ≡ [] }
    {
        self.places.clear();
        self.pieces = Slab::new(self.alloc);
    }

    /// Joins blocks that have few entries. If refused, all is as it was.
    pub(crate) fn refill(&mut self) -> Result<(), OutOfMemory>
        ensures { self.new.entries ≡ self.old.entries }
    {
        let done = self.places.refill();
        let _count = self.places.len();
        match done {
            Ok(()) => Ok(()),
            Err(_) => Err(OutOfMemory),
        }
    }

    /// Whether a piece begins at an offset.
    pub(crate) fn contains(&self, offset: u64) -> bool
        ensures { result ≡ is_some (piece_at self.now.entries offset) }
    {
        match self.places.get(offset) {
            Some(_) => true,
            None => false,
        }
    }

    /// The last piece that begins at `n` or before, and where it begins.
    #[inline]
    pub(crate) fn last_up_to(&self, n: u64) -> Option<(u64, &Piece)>
        ensures found { IfSome result (λ r. piece_at self.now.entries r.0 ≡ Some r.1.now) }
        ensures up_to { IfSome result (λ r. r.0 ≤ n) }
        ensures last { IfSome result (λ r. NoPieceBegins self.now.entries (r.0 + 1) n) }
        ensures none { IfNone result (NoPieceBegins self.now.entries 0 n) }
    {
        match self.places.find(n) {
            Some(place) => {
                let (offset, slot) = self.places.entry(place);
                Some((offset, piece_in(&self.pieces, slot)))
            }
            None => None,
        }
    }

    /// Where the first piece begins that begins at `n` or behind it.
    pub(crate) fn first_from(&self, n: u64) -> Option<u64>
        ensures found { IfSome result (λ start. IsFirstPiece self.now.entries start n) }
        ensures none { IfNone result ((q : ℕ) → n ≤ q → piece_at self.now.entries q ≡ None) }
    {
        match self.places.find_from(n) {
            Some(place) => Some(self.places.entry(place).0),
            None => None,
        }
    }

    /// The place of the first piece that begins at `n` or behind it. A hint of where it lies saves a search.
    pub(crate) fn place_from(&self, hint: Place, n: u64) -> Option<Place>
        ensures place { IsPlaceOrEnd self.now result }
        ensures rest { from_place self.now result ≡ entries_between nat_cmp (Included n) Unbounded self.now.entries }
    {
        let _pieces = &self.pieces;
        match self.places.find_from_near(hint, n) {
            Some(place) => Some(place),
            None => None,
        }
    }

    /// The piece at a place, and where it begins. Goes on to the next place.
    #[inline(always)]
    pub(crate) fn step(&self, place: &mut Option<Place>) -> Option<(u64, &Piece)>
        requires { IsPlaceOrEnd self.now place.old }
        ensures some { IfSome result (λ r. from_place self.now place.old ≡ (r.0, r.1.now) ∷ from_place self.now place.new) }
        ensures none { IfNone result (from_place self.now place.old ≡ []) }
        ensures place { IsPlaceOrEnd self.now place.new }
    {
        match *place {
            Some(here) => {
                let (offset, slot) = self.places.entry(here);
                *place = self.places.next(here);
                Some((offset, piece_in(&self.pieces, slot)))
            }
            None => None,
        }
    }

    /// Puts a piece where none begins, or gives it back.
    #[inline]
    pub(crate) fn put_new(&mut self, piece: Piece) -> Result<(), Piece>
        requires { piece_at self.old.entries piece.offset ≡ None }
        ensures entries { OnOk result (self.new.entries ≡ insert_entry nat_cmp self.old.entries piece.offset piece) }
        ensures back { IfErr result (λ given. given ≡ piece) }
        ensures err { OnErr result (self.new ≡ self.old) }
        ensures rises { RiseByKey self.new.entries }
    {
        match make_room(&mut self.places, &mut self.pieces) {
            Ok(()) => {
                let offset = piece.offset();
                let slot = self.pieces.insert_reserved(piece);
                self.places.insert(offset, slot as u64);
                let _count = self.places.len();
                Ok(())
            }
            Err(_) => {
                let _left = self.places.len();
                Err(piece)
            }
        }
    }

    /// The same, of a piece that comes behind all others. It needs no search.
    #[inline]
    pub(crate) fn put_last(&mut self, piece: Piece) -> Result<(), Piece>
        requires { All (λ key. key < piece.offset) (keys_of self.old.entries) }
        ensures entries { OnOk result (self.new.entries ≡ insert_entry nat_cmp self.old.entries piece.offset piece) }
        ensures back { IfErr result (λ given. given ≡ piece) }
        ensures err { OnErr result (self.new ≡ self.old) }
        ensures rises { RiseByKey self.new.entries }
    {
        match make_room(&mut self.places, &mut self.pieces) {
            Ok(()) => {
                let offset = piece.offset();
                let slot = self.pieces.insert_reserved(piece);
                self.places.put_last(offset, slot as u64);
                let _count = self.places.len();
                Ok(())
            }
            Err(_) => {
                let _left = self.places.len();
                Err(piece)
            }
        }
    }

    /// Puts a piece in. Where the last one that begins below its end begins from its offset on, or ends behind it, gives it
    /// back, with where that one begins and ends. Where that one is likely to be the last of all, it is tried first.
    #[inline(always)]
    pub(crate) fn put_free(
        &mut self,
        piece: Piece,
        is_likely: bool,
    ) -> Result<Option<(Piece, u64, u64)>, OutOfMemory>
        requires { 0 < length piece.bytes }
        ensures entries { IfOk result (λ r. IfNone r (self.new.entries ≡ insert_entry nat_cmp self.old.entries piece.offset piece)) }
        ensures free { IfOk result (λ r. IfNone r (IsFreeFor self.old.entries piece)) }
        ensures absent { IfOk result (λ r. IfNone r (piece_at self.old.entries piece.offset ≡ None)) }
        ensures back { IfOk result (λ r. IfSome r (λ t. t.0 ≡ piece)) }
        ensures last { IfOk result (λ r. IfSome r (λ t. IsLastPiece self.old.entries t.1 t.2 (run_end piece - 1))) }
        ensures near { IfOk result (λ r. IfSome r (λ t. (piece.offset ≤ t.1) ⊎ (piece.offset < t.2))) }
        ensures bound { IfOk result (λ r. IfSome r (λ t. t.2 < 2 ^ 62)) }
        ensures same { IfOk result (λ r. IfSome r (λ _. self.new ≡ self.old)) }
        ensures free_err { OnErr result (IsFreeFor self.old.entries piece) }
        ensures err { OnErr result (self.new ≡ self.old) }
        ensures rises { RiseByKey self.new.entries }
    {
        let offset = piece.offset();
        let last = find_last(&self.places, piece.end() - 1, is_likely);
        if let Some(place) = last {
            let (start, slot) = self.places.entry(place);
            let end = piece_in(&self.pieces, slot).end();
            if offset <= start || offset < end {
                return Ok(Some((piece, start, end)));
            }
        }
        match make_room(&mut self.places, &mut self.pieces) {
            Ok(()) => {
                let slot = self.pieces.insert_reserved(piece);
                self.places.put_next(last, offset, slot as u64);
                let _count = self.places.len();
                Ok(None)
            }
            Err(_) => {
                let _left = self.places.len();
                Err(OutOfMemory)
            }
        }
    }

    /// Puts a piece in the place of the one that begins at its offset, and gives that.
    pub(crate) fn replace(&mut self, piece: Piece) -> Piece
        requires { piece_at self.old.entries piece.offset ≡ None → ⊥ }
        ensures old { piece_at self.old.entries piece.offset ≡ Some result }
        ensures entries { self.new.entries ≡ set_value (is_at (nat_cmp piece.offset)) self.old.entries piece }
        ensures rises { RiseByKey self.new.entries }
    {
        let _count = self.places.len();
        match self.places.get(piece.offset()) {
            Some(slot) => replace_in(&mut self.pieces, slot, piece),
            None => unreachable!(),
        }
    }

    /// Copies the piece that begins at an offset where it keeps much more memory alive than it has bytes. Gives how much it
    /// keeps alive before and afterwards. If refused, all is as it was.
    pub(crate) fn tidy(&mut self, offset: u64) -> Result<(usize, usize), OutOfMemory>
        requires { piece_at self.old.entries offset ≡ None → ⊥ }
        ensures ok { OnOk result ((v : PieceView) → piece_at self.old.entries offset ≡ Some v → self.new.entries ≡ set_value (is_at (nat_cmp offset)) self.old.entries (tidied v)) }
        ensures before { IfOk result (λ r. (v : PieceView) → piece_at self.old.entries offset ≡ Some v → r.0 ≡ v.allocation_size) }
        ensures after { IfOk result (λ r. (v : PieceView) → piece_at self.old.entries offset ≡ Some v → r.1 ≡ (tidied v).allocation_size) }
        ensures err { OnErr result (self.new ≡ self.old) }
        ensures rises { RiseByKey self.new.entries }
    {
        let _count = self.places.len();
        match self.places.get(offset) {
            Some(slot) => tidy_in(&mut self.pieces, slot),
            None => unreachable!(),
        }
    }

    /// Appends bytes to the piece that begins at an offset. Gives how much memory it keeps alive before and afterwards. If
    /// refused, all is as it was. A hint of where it lies saves a search.
    pub(crate) fn append(
        &mut self,
        offset: u64,
        hint: Place,
        bytes: &[u8],
    ) -> Result<(usize, usize), OutOfMemory>
        requires { (v : PieceView) × (piece_at self.old.entries offset ≡ Some v) × (run_end v + length bytes.now < 2 ^ 62) }
        ensures ok { OnOk result ((v : PieceView) → piece_at self.old.entries offset ≡ Some v → self.new.entries ≡ set_value (is_at (nat_cmp offset)) self.old.entries (joined_with v (piece_of 0 bytes.now 0))) }
        ensures before { IfOk result (λ r. (v : PieceView) → piece_at self.old.entries offset ≡ Some v → r.0 ≡ v.allocation_size) }
        ensures after { IfOk result (λ r. (v : PieceView) → piece_at self.old.entries offset ≡ Some v → r.1 ≡ (joined_with v (piece_of 0 bytes.now 0)).allocation_size) }
        ensures err { OnErr result (self.new ≡ self.old) }
        ensures rises { RiseByKey self.new.entries }
    {
        let _count = self.places.len();
        match self.places.place_near(hint, offset) {
            Some(place) => append_in(&mut self.pieces, self.places.entry(place).1, bytes),
            None => unreachable!(),
        }
    }

    /// Takes the piece that begins at an offset out.
    #[inline]
    pub(crate) fn remove(&mut self, offset: u64) -> Option<Piece>
        ensures value { result ≡ piece_at self.old.entries offset }
        ensures entries { self.new.entries ≡ remove_entry (is_at (nat_cmp offset)) self.old.entries }
        ensures rises { RiseByKey self.new.entries }
    {
        let found = self.places.remove(offset);
        let _count = self.places.len();
        match found {
            Some(slot) => Some(self.pieces.remove(slot as usize)),
            None => None,
        }
    }

    /// Where the first piece begins.
    #[inline(always)]
    pub(crate) fn first_key(&self) -> Option<u64>
        ensures some { IfSome result (λ key. (piece : PieceView) × (rest : _) × (self.now.entries ≡ (key, piece) ∷ rest)) }
        ensures none { IfNone result (self.now.entries ≡ []) }
    {
        let _pieces = &self.pieces;
        self.places.first_key()
    }

    /// Takes the piece that begins at an offset out. A hint of where it lies saves a search.
    #[inline]
    pub(crate) fn remove_near(&mut self, hint: Place, offset: u64) -> Option<Piece>
        ensures value { result ≡ piece_at self.old.entries offset }
        ensures entries { self.new.entries ≡ remove_entry (is_at (nat_cmp offset)) self.old.entries }
        ensures rises { RiseByKey self.new.entries }
    {
        let found = self.places.place_near(hint, offset);
        let _count = self.places.len();
        match found {
            Some(place) => {
                let entry = self.places.remove_at(place);
                let _left = self.places.len();
                Some(self.pieces.remove(entry.1 as usize))
            }
            None => None,
        }
    }

    /// The last piece.
    #[inline]
    pub(crate) fn last(&self) -> Option<&Piece>
        ensures some { IfSome result (λ piece. (others : _) × (key : ℕ) × (self.now.entries ≡ others ++ (key, piece.now) ∷ [])) }
        ensures none { IfNone result (self.now.entries ≡ []) }
    {
        match self.places.last() {
            Some(entry) => Some(piece_in(&self.pieces, entry.1)),
            None => None,
        }
    }

    /// Takes the first piece out.
    #[inline(always)]
    pub(crate) fn pop_first(&mut self) -> Option<Piece>
        ensures some { IfSome result (λ piece. (key : ℕ) × (self.old.entries ≡ (key, piece) ∷ self.new.entries)) }
        ensures none { IfNone result ((self.old.entries ≡ []) × (self.new.entries ≡ [])) }
        ensures rises { RiseByKey self.new.entries }
    {
        let first = self.places.pop_first();
        let _count = self.places.len();
        match first {
            Some(entry) => Some(self.pieces.remove(entry.1 as usize)),
            None => None,
        }
    }

    /// Takes the last piece out.
    pub(crate) fn pop_last(&mut self) -> Option<Piece>
        ensures some { IfSome result (λ piece. (key : ℕ) × (self.old.entries ≡ self.new.entries ++ (key, piece) ∷ [])) }
        ensures none { IfNone result ((self.old.entries ≡ []) × (self.new.entries ≡ [])) }
        ensures rises { RiseByKey self.new.entries }
    {
        let place = self.places.last_place();
        let _count = self.places.len();
        match place {
            Some(place) => {
                let entry = self.places.remove_at(place);
                let _left = self.places.len();
                Some(self.pieces.remove(entry.1 as usize))
            }
            None => None,
        }
    }
}
