ghost use Rattle.std.specs.Prelude.{◌≡◌, ◌+◌, ◌-◌, ◌<◌, ◌≤◌, ℕ, List, [], ◌∷◌, ◌++◌, length, slice_index_or, IfSome, IfNone, Some, None, true, false, ◌↔◌, IsTrue};
ghost use Rattle.std.specs.Map.{lookup};
ghost use Rattle.std.specs.BTreeMap.{is_at};
ghost use Rattle.std.specs.Ordering.{nat_cmp};
ghost use Rattle.block_map.specs.Sorted.{KeyAndValue, KeysRise, IsLastUpTo, IsFirstFrom};
ghost use Rattle.block_map.specs.Rows.{flat, place_among, IsPlace, first_key};

use crate::block::Block;
use crate::search::last_row;
use std::alloc::Global;
use std::marker::Model;

/// Where an entry lies: in which row, and behind how many others of it. A change of the map that puts entries in, takes
/// some out or refills rows makes it worthless.
#[derive(Clone, Copy)]
pub struct Place {
    pub block: usize,
    pub index: usize,
}

/// A map from numbers to numbers. Contracts see its entries by rising keys, in the rows that they lie in, and whether it has
/// room for one more.
#[derive(Drop)]
pub struct BlockMap {
    pub(crate) blocks: Vec<Block>,
    // How many entries there are.
    pub(crate) len: usize,
    // The memory of the next block, if there is some.
    pub(crate) spare: Vec<(u64, u64)>,
    // There is room for an entry.
    pub(crate) ready: bool,
    pub(crate) alloc: Global,
}

impl Model for BlockMap {
    ghost use Rattle.std.specs.Prelude.{List, vec_capacity, ℕ};
    ghost use Rattle.block_map.specs.Sorted.{KeyAndValue};
    ghost use Rattle.block_map.specs.Rows.{Entries, as_entries, IsMap};

    ghost Value = { Entries };

    ghost view = { λ m. as_entries m.blocks.items m.ready };

    ghost invariant = { λ m. IsMap m.blocks.items m.len m.spare.items m.ready (vec_capacity m.blocks) (vec_capacity m.spare) };
}

impl BlockMap {
    /// Takes no memory.
    pub fn new(alloc: Global) -> Self
        ensures items { result.items ≡ [] }
        ensures rows { result.rows ≡ [] }
    {
        BlockMap {
            blocks: Vec::new(alloc),
            len: 0,
            spare: Vec::new(alloc),
            ready: false,
            alloc,
        }
    }

    #[inline(always)]
    pub fn len(&self) -> usize
        ensures len { result ≡ length self.now.items }
        ensures rises { KeysRise self.now.items }
    {
        self.len
    }

    #[inline(always)]
    pub fn is_empty(&self) -> bool
        ensures empty { result ≡ true → self.now.items ≡ [] }
        ensures some { result ≡ false → 0 < length self.now.items }
    {
        self.len == 0
    }

    /// The place of the last entry with a key up to `n`.
    #[inline(always)]
    pub fn find(&self, n: u64) -> Option<Place>
        ensures place { IfSome result (λ p. IsPlace self.now.rows p.block p.index) }
        ensures last { IfSome result (λ p. IsLastUpTo self.now.items n (place_among self.now.rows p.block p.index)) }
        ensures none { IfNone result ((k : ℕ) (d : KeyAndValue) → k < length self.now.items → n < (slice_index_or self.now.items k d).0) }
        ensures rises { KeysRise self.now.items }
    {
        if self.blocks.is_empty() {
            return None;
        }
        if self.blocks[0].first() > n {
            return None;
        }
        let block = last_row(self.blocks.as_slice(), n);
        let index = self.blocks[block].find(n);
        Some(Place { block, index })
    }

    // The same, as a call.
    #[inline(never)]
    fn search(&self, n: u64) -> Option<Place>
        ensures place { IfSome result (λ p. IsPlace self.now.rows p.block p.index) }
        ensures last { IfSome result (λ p. IsLastUpTo self.now.items n (place_among self.now.rows p.block p.index)) }
        ensures none { IfNone result ((k : ℕ) (d : KeyAndValue) → k < length self.now.items → n < (slice_index_or self.now.items k d).0) }
        ensures rises { KeysRise self.now.items }
    {
        self.find(n)
    }

    /// As [`BlockMap::find`]. It needs no search if the place is `hint` or the one behind it, and not the last of its row.
    /// Any hint will do.
    #[inline(always)]
    pub fn find_near(&self, hint: Place, n: u64) -> Option<Place>
        ensures place { IfSome result (λ p. IsPlace self.now.rows p.block p.index) }
        ensures last { IfSome result (λ p. IsLastUpTo self.now.items n (place_among self.now.rows p.block p.index)) }
        ensures none { IfNone result ((k : ℕ) (d : KeyAndValue) → k < length self.now.items → n < (slice_index_or self.now.items k d).0) }
        ensures rises { KeysRise self.now.items }
    {
        let block = hint.block;
        if block < self.blocks.len() {
            if let Some(index) = self.blocks[block].find_near(hint.index, n) {
                return Some(Place { block, index });
            }
        }
        self.search(n)
    }

    // The place of the first entry with a key from `n` on, where that of the last one with a key up to `n` was found.
    #[inline(always)]
    fn first_from(&self, found: Option<Place>, n: u64) -> Option<Place>
        requires found { IfSome found (λ p. IsPlace self.now.rows p.block p.index) }
        requires last { IfSome found (λ p. IsLastUpTo self.now.items n (place_among self.now.rows p.block p.index)) }
        requires absent { IfNone found ((k : ℕ) (d : KeyAndValue) → k < length self.now.items → n < (slice_index_or self.now.items k d).0) }
        ensures place { IfSome result (λ p. IsPlace self.now.rows p.block p.index) }
        ensures first { IfSome result (λ p. IsFirstFrom self.now.items n (place_among self.now.rows p.block p.index)) }
        ensures none { IfNone result ((k : ℕ) (d : KeyAndValue) → k < length self.now.items → (slice_index_or self.now.items k d).0 < n) }
        ensures rises { KeysRise self.now.items }
    {
        let _count = self.len();
        let Some(place) = found else {
            let first = self.first_place()?;
            return Some(first);
        };
        if self.entry(place).0 == n {
            return Some(place);
        }
        let next = self.next(place)?;
        Some(next)
    }

    /// As [`BlockMap::find_from`], by a hint as in [`BlockMap::find_near`].
    #[inline]
    pub fn find_from_near(&self, hint: Place, n: u64) -> Option<Place>
        ensures place { IfSome result (λ p. IsPlace self.now.rows p.block p.index) }
        ensures first { IfSome result (λ p. IsFirstFrom self.now.items n (place_among self.now.rows p.block p.index)) }
        ensures none { IfNone result ((k : ℕ) (d : KeyAndValue) → k < length self.now.items → (slice_index_or self.now.items k d).0 < n) }
        ensures rises { KeysRise self.now.items }
    {
        self.first_from(self.find_near(hint, n), n)
    }

    /// As [`BlockMap::place_of`], by a hint as in [`BlockMap::find_near`].
    #[inline]
    pub fn place_near(&self, hint: Place, key: u64) -> Option<Place>
        ensures place { IfSome result (λ p. IsPlace self.now.rows p.block p.index) }
        ensures fits { IfSome result (λ p. place_among self.now.rows p.block p.index < length self.now.items) }
        ensures key { IfSome result (λ p. (d : KeyAndValue) → (slice_index_or self.now.items (place_among self.now.rows p.block p.index) d).0 ≡ key) }
        ensures none { IfNone result (lookup (is_at (nat_cmp key)) self.now.items ≡ None) }
        ensures rises { KeysRise self.now.items }
    {
        match self.find_near(hint, key) {
            Some(place) => {
                if self.entry(place).0 == key {
                    return Some(place);
                }
                None
            }
            None => None,
        }
    }

    /// The place of the first entry with a key from `n` on.
    #[inline]
    pub fn find_from(&self, n: u64) -> Option<Place>
        ensures place { IfSome result (λ p. IsPlace self.now.rows p.block p.index) }
        ensures first { IfSome result (λ p. IsFirstFrom self.now.items n (place_among self.now.rows p.block p.index)) }
        ensures none { IfNone result ((k : ℕ) (d : KeyAndValue) → k < length self.now.items → (slice_index_or self.now.items k d).0 < n) }
        ensures rises { KeysRise self.now.items }
    {
        self.first_from(self.find(n), n)
    }

    /// The entry at a place.
    #[inline(always)]
    pub fn entry(&self, place: Place) -> (u64, u64)
        requires { IsPlace self.now.rows place.block place.index }
        ensures { (d : KeyAndValue) → result ≡ slice_index_or self.now.items (place_among self.now.rows place.block place.index) d }
    {
        self.blocks[place.block].get(place.index)
    }

    /// The place behind one.
    #[inline]
    pub fn next(&self, place: Place) -> Option<Place>
        requires { IsPlace self.now.rows place.block place.index }
        ensures place { IfSome result (λ p. IsPlace self.now.rows p.block p.index) }
        ensures next { IfSome result (λ p. place_among self.now.rows p.block p.index ≡ place_among self.now.rows place.block place.index + 1) }
        ensures fits { IfSome result (λ _. place_among self.now.rows place.block place.index + 1 < length self.now.items) }
        ensures none { IfNone result (length self.now.items ≡ place_among self.now.rows place.block place.index + 1) }
    {
        let len = self.blocks[place.block].len();
        let index = place.index + 1;
        if index < len {
            return Some(Place {
                block: place.block,
                index,
            });
        }
        let block = place.block + 1;
        if block < self.blocks.len() {
            let _len = self.blocks[block].len();
            return Some(Place { block, index: 0 });
        }
        None
    }

    /// The place of the first entry.
    #[inline]
    pub fn first_place(&self) -> Option<Place>
        ensures place { IfSome result (λ p. IsPlace self.now.rows p.block p.index) }
        ensures first { IfSome result (λ p. place_among self.now.rows p.block p.index ≡ 0) }
        ensures some { IfSome result (λ _. 0 < length self.now.items) }
        ensures none { IfNone result (self.now.items ≡ []) }
    {
        if self.blocks.is_empty() {
            return None;
        }
        let _len = self.blocks[0].len();
        Some(Place { block: 0, index: 0 })
    }

    /// The place of the last entry.
    #[inline]
    pub fn last_place(&self) -> Option<Place>
        ensures place { IfSome result (λ p. IsPlace self.now.rows p.block p.index) }
        ensures last { IfSome result (λ p. place_among self.now.rows p.block p.index + 1 ≡ length self.now.items) }
        ensures none { IfNone result (self.now.items ≡ []) }
    {
        if self.blocks.is_empty() {
            return None;
        }
        let block = self.blocks.len() - 1;
        let index = self.blocks[block].len() - 1;
        Some(Place { block, index })
    }

    /// The entry with the lowest key.
    #[inline]
    pub fn first(&self) -> Option<(u64, u64)>
        ensures some { IfSome result (λ e. (rest : List KeyAndValue) × (self.now.items ≡ e ∷ rest)) }
        ensures none { IfNone result (self.now.items ≡ []) }
    {
        match self.first_place() {
            Some(place) => Some(self.entry(place)),
            None => None,
        }
    }

    /// The lowest key.
    #[inline(always)]
    pub fn first_key(&self) -> Option<u64>
        ensures some { IfSome result (λ key. (value : ℕ) × (rest : List KeyAndValue) × (self.now.items ≡ (key, value) ∷ rest)) }
        ensures none { IfNone result (self.now.items ≡ []) }
    {
        if self.blocks.is_empty() {
            return None;
        }
        Some(self.blocks[0].first())
    }

    /// The entry with the highest key.
    #[inline]
    pub fn last(&self) -> Option<(u64, u64)>
        ensures some { IfSome result (λ e. (rest : List KeyAndValue) × (self.now.items ≡ rest ++ e ∷ [])) }
        ensures none { IfNone result (self.now.items ≡ []) }
    {
        match self.last_place() {
            Some(place) => Some(self.entry(place)),
            None => None,
        }
    }

    /// The place of the entry with a key.
    #[inline]
    pub fn place_of(&self, key: u64) -> Option<Place>
        ensures place { IfSome result (λ p. IsPlace self.now.rows p.block p.index) }
        ensures fits { IfSome result (λ p. place_among self.now.rows p.block p.index < length self.now.items) }
        ensures key { IfSome result (λ p. (d : KeyAndValue) → (slice_index_or self.now.items (place_among self.now.rows p.block p.index) d).0 ≡ key) }
        ensures none { IfNone result (lookup (is_at (nat_cmp key)) self.now.items ≡ None) }
        ensures rises { KeysRise self.now.items }
    {
        match self.find(key) {
            Some(place) => {
                if self.entry(place).0 == key {
                    return Some(place);
                }
                None
            }
            None => None,
        }
    }

    /// The value of a key.
    #[inline]
    pub fn get(&self, key: u64) -> Option<u64>
        ensures { result ≡ lookup (is_at (nat_cmp key)) self.now.items }
    {
        match self.place_of(key) {
            Some(place) => Some(self.entry(place).1),
            None => None,
        }
    }
}
