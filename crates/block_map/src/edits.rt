// Changes of a map.
ghost use Rattle.std.specs.Prelude.{◌≡◌, ◌+◌, ◌-◌, ◌<◌, ◌≤◌, ℕ, List, [], ◌∷◌, ◌++◌, length, slice_index_or, slice_set, insert, take, drop, option_to_list, IfOk, IfSome, IfNone, OnOk, OnErr, Ok, Some, None, true, false, ◌^◌, vec_capacity};
ghost use Rattle.std.specs.Map.{lookup};
ghost use Rattle.std.specs.Map.{remove_entry as without_entry};
ghost use Rattle.std.specs.List.{remove_range};
ghost use Rattle.std.specs.BTreeMap.{is_at, insert_entry};
ghost use Rattle.std.specs.Ordering.{nat_cmp};
ghost use Rattle.block_map.specs.Sorted.{KeyAndValue, KeysRise, IsLastUpTo, GoesAt, FitsAt, without_keys};
ghost use Rattle.block_map.specs.Rows.{place_among, IsPlace, AreFull};

use crate::block::{Block, FEW, MOST};
use crate::map::{BlockMap, Place};
use crate::rows::{
    are_full, count_between, has_spare, is_small, joined, pop_entry, put_alone, put_entry,
    remove_entries, remove_entry,
};
use std::alloc::AllocError;

// More entries than memory has bytes.
const TOO_MANY: usize = 1 << 62;

// Refuses what never happens: that there are too many entries to count one more.
#[inline(always)]
fn check_count(blocks: &mut Vec<Block>, len: usize) -> Result<(), AllocError>
    ensures items { blocks.new.items ≡ blocks.old.items }
    ensures capacity { vec_capacity blocks.old ≤ vec_capacity blocks.new }
    ensures few { OnOk result (len < 2 ^ 62) }
{
    if len >= TOO_MANY {
        blocks.reserve(usize::MAX)?;
    }
    Ok(())
}

impl BlockMap {
    /// Makes room for one entry. If refused, all is as it was.
    #[inline(always)]
    pub fn reserve(&mut self) -> Result<(), AllocError>
        ensures items { self.new.items ≡ self.old.items }
        ensures rows { self.new.rows ≡ self.old.rows }
        ensures room { OnOk result (self.new.room ≡ true) }
        ensures few { OnOk result (length self.new.items < 2 ^ 62) }
        ensures roomy { self.old.room ≡ true → result ≡ Ok tt }
        ensures err { OnErr result (self.new ≡ self.old) }
    {
        if self.ready {
            return Ok(());
        }
        self.make_ready()
    }

    // Makes room where there may be none.
    #[inline(never)]
    fn make_ready(&mut self) -> Result<(), AllocError>
        requires { self.old.room ≡ false }
        ensures items { self.new.items ≡ self.old.items }
        ensures rows { self.new.rows ≡ self.old.rows }
        ensures room { OnOk result (self.new.room ≡ true) }
        ensures few { OnOk result (length self.new.items < 2 ^ 62) }
        ensures err { OnErr result (self.new ≡ self.old) }
    {
        check_count(&mut self.blocks, self.len)?;
        if is_small(self.blocks.as_slice()) {
            self.ready = true;
            return Ok(());
        }
        self.blocks.reserve(1)?;
        let most = if self.blocks.is_empty() { FEW } else { MOST };
        if self.spare.capacity() < most {
            self.spare = Vec::with_capacity(self.alloc, most)?;
        }
        self.ready = true;
        Ok(())
    }

    // Puts an entry into a row. There is room.
    #[inline(always)]
    fn put_at(&mut self, block: usize, index: usize, key: u64, value: u64)
        requires room { self.old.room ≡ true }
        requires block { block < length self.old.rows }
        requires index { index ≤ length (slice_index_or self.old.rows block []) }
        requires goes { GoesAt self.old.items (place_among self.old.rows block index) key }
        ensures { self.new.items ≡ insert self.old.items (place_among self.old.rows block index) (key, value) }
    {
        self.ready = false;
        self.len += 1;
        put_entry(
            &mut self.blocks,
            &mut self.spare,
            self.alloc,
            block,
            index,
            key,
            value,
        );
        self.ready = self.len < TOO_MANY && has_spare(&self.blocks, &self.spare);
    }

    /// Puts an entry behind another. There is room.
    #[inline]
    pub fn put_behind(&mut self, place: Place, key: u64, value: u64)
        requires room { self.old.room ≡ true }
        requires place { IsPlace self.old.rows place.block place.index }
        requires above { (d : KeyAndValue) → (slice_index_or self.old.items (place_among self.old.rows place.block place.index) d).0 < key }
        requires below { (k : ℕ) (d : KeyAndValue) → place_among self.old.rows place.block place.index < k → k < length self.old.items → key < (slice_index_or self.old.items k d).0 }
        ensures { self.new.items ≡ insert self.old.items (place_among self.old.rows place.block place.index + 1) (key, value) }
    {
        let _len = self.blocks[place.block].len();
        self.put_at(place.block, place.index + 1, key, value);
    }

    /// Puts an entry before all others. There is room.
    #[inline]
    pub fn put_first(&mut self, key: u64, value: u64)
        requires room { self.old.room ≡ true }
        requires below { (k : ℕ) (d : KeyAndValue) → k < length self.old.items → key < (slice_index_or self.old.items k d).0 }
        ensures { self.new.items ≡ (key, value) ∷ self.old.items }
    {
        if self.blocks.is_empty() {
            self.ready = false;
            self.len += 1;
            put_alone(&mut self.blocks, &mut self.spare, self.alloc, key, value);
        } else {
            self.put_at(0, 0, key, value);
        }
    }

    /// Puts an entry behind all others. There is room.
    #[inline]
    pub fn put_last(&mut self, key: u64, value: u64)
        requires room { self.old.room ≡ true }
        requires above { (k : ℕ) (d : KeyAndValue) → k < length self.old.items → (slice_index_or self.old.items k d).0 < key }
        ensures { self.new.items ≡ self.old.items ++ (key, value) ∷ [] }
    {
        match self.last_place() {
            Some(place) => self.put_behind(place, key, value),
            None => self.put_first(key, value),
        }
    }

    /// Puts an entry behind the last one with a lower key, or before all where none has one. There is room.
    #[inline(always)]
    pub fn put_next(&mut self, last: Option<Place>, key: u64, value: u64)
        requires room { self.old.room ≡ true }
        requires place { IfSome last (λ p. IsPlace self.old.rows p.block p.index) }
        requires fits { IfSome last (λ p. place_among self.old.rows p.block p.index < length self.old.items) }
        requires above { IfSome last (λ p. (d : KeyAndValue) → (slice_index_or self.old.items (place_among self.old.rows p.block p.index) d).0 < key) }
        requires below { IfSome last (λ p. (k : ℕ) (d : KeyAndValue) → place_among self.old.rows p.block p.index < k → k < length self.old.items → key < (slice_index_or self.old.items k d).0) }
        requires none { IfNone last ((k : ℕ) (d : KeyAndValue) → k < length self.old.items → key < (slice_index_or self.old.items k d).0) }
        ensures { self.new.items ≡ insert_entry nat_cmp self.old.items key value }
    {
        let _count = self.len();
        match last {
            Some(place) => self.put_behind(place, key, value),
            None => self.put_first(key, value),
        }
    }

    /// Sets the value of a key, and gives the one that it had. There is room.
    #[inline]
    pub fn insert(&mut self, key: u64, value: u64) -> Option<u64>
        requires { self.old.room ≡ true }
        ensures items { self.new.items ≡ insert_entry nat_cmp self.old.items key value }
        ensures value { result ≡ lookup (is_at (nat_cmp key)) self.old.items }
    {
        match self.find(key) {
            Some(place) => {
                let (found, old) = self.entry(place);
                if found == key {
                    self.set_value(place, value);
                    return Some(old);
                }
                self.put_behind(place, key, value);
            }
            None => self.put_first(key, value),
        }
        None
    }

    /// Writes an entry over the one at a place. Its key lies between those of the neighbours.
    #[inline]
    pub fn set(&mut self, place: Place, key: u64, value: u64)
        requires place { IsPlace self.old.rows place.block place.index }
        requires fits { FitsAt self.old.items (place_among self.old.rows place.block place.index) key }
        ensures items { self.new.items ≡ slice_set self.old.items (place_among self.old.rows place.block place.index) (key, value) }
        ensures places { (b i : ℕ) → place_among self.new.rows b i ≡ place_among self.old.rows b i }
        ensures still { (b i : ℕ) → IsPlace self.old.rows b i → IsPlace self.new.rows b i }
        ensures room { self.new.room ≡ self.old.room }
    {
        self.blocks[place.block].set(place.index, key, value);
    }

    /// Sets the value of the entry at a place.
    #[inline]
    pub fn set_value(&mut self, place: Place, value: u64)
        requires { IsPlace self.old.rows place.block place.index }
        ensures items { (d : KeyAndValue) → self.new.items ≡ slice_set self.old.items (place_among self.old.rows place.block place.index) ((slice_index_or self.old.items (place_among self.old.rows place.block place.index) d).0, value) }
        ensures places { (b i : ℕ) → place_among self.new.rows b i ≡ place_among self.old.rows b i }
        ensures still { (b i : ℕ) → IsPlace self.old.rows b i → IsPlace self.new.rows b i }
        ensures room { self.new.room ≡ self.old.room }
    {
        let _len = self.len;
        let key = self.entry(place).0;
        self.set(place, key, value);
    }

    /// Gives the entry at a place another key. It lies between those of the neighbours.
    #[inline]
    pub fn set_key(&mut self, place: Place, key: u64)
        requires place { IsPlace self.old.rows place.block place.index }
        requires fits { FitsAt self.old.items (place_among self.old.rows place.block place.index) key }
        ensures items { (d : KeyAndValue) → self.new.items ≡ slice_set self.old.items (place_among self.old.rows place.block place.index) (key, (slice_index_or self.old.items (place_among self.old.rows place.block place.index) d).1) }
        ensures places { (b i : ℕ) → place_among self.new.rows b i ≡ place_among self.old.rows b i }
        ensures still { (b i : ℕ) → IsPlace self.old.rows b i → IsPlace self.new.rows b i }
        ensures room { self.new.room ≡ self.old.room }
    {
        let value = self.entry(place).1;
        self.set(place, key, value);
    }

    // Takes the entry at a place out.
    #[inline(always)]
    fn take_out(&mut self, place: Place)
        requires { IsPlace self.old.rows place.block place.index }
        ensures { self.new.items ≡ remove_range self.old.items (place_among self.old.rows place.block place.index) (place_among self.old.rows place.block place.index + 1) }
    {
        let _len = self.blocks[place.block].len();
        self.ready = false;
        self.len -= 1;
        remove_entry(&mut self.blocks, &mut self.spare, place.block, place.index);
    }

    /// Takes the entry with the lowest key out.
    #[inline(always)]
    pub fn pop_first(&mut self) -> Option<(u64, u64)>
        ensures popped { self.old.items ≡ option_to_list result ++ self.new.items }
        ensures none { IfNone result ((self.old.items ≡ []) × (self.new.items ≡ [])) }
    {
        if self.blocks.is_empty() {
            return None;
        }
        let entry = self.blocks[0].get(0);
        self.ready = false;
        self.len -= 1;
        pop_entry(&mut self.blocks, &mut self.spare);
        Some(entry)
    }

    /// Takes the entry at a place out.
    #[inline]
    pub fn remove_at(&mut self, place: Place) -> (u64, u64)
        requires { IsPlace self.old.rows place.block place.index }
        ensures value { (d : KeyAndValue) → result ≡ slice_index_or self.old.items (place_among self.old.rows place.block place.index) d }
        ensures items { self.new.items ≡ remove_range self.old.items (place_among self.old.rows place.block place.index) (place_among self.old.rows place.block place.index + 1) }
    {
        let entry = self.entry(place);
        self.take_out(place);
        entry
    }

    /// Takes the entry with a key out, if there is one, and gives its value.
    #[inline]
    pub fn remove(&mut self, key: u64) -> Option<u64>
        ensures items { self.new.items ≡ without_entry (is_at (nat_cmp key)) self.old.items }
        ensures value { result ≡ lookup (is_at (nat_cmp key)) self.old.items }
    {
        let place = self.place_of(key)?;
        Some(self.remove_at(place).1)
    }

    /// Takes the entries from one place to another out, both included.
    pub fn remove_run(&mut self, first: Place, last: Place)
        requires first { IsPlace self.old.rows first.block first.index }
        requires last { IsPlace self.old.rows last.block last.index }
        requires order { place_among self.old.rows first.block first.index ≤ place_among self.old.rows last.block last.index }
        ensures { self.new.items ≡ remove_range self.old.items (place_among self.old.rows first.block first.index) (place_among self.old.rows last.block last.index + 1) }
    {
        let first = (first.block, first.index);
        let last = (last.block, last.index);
        let count = count_between(self.blocks.as_slice(), first, last);
        remove_entries(&mut self.blocks, first, last);
        self.len -= count + 1;
        self.ready = false;
    }

    /// Takes the entries out whose keys lie between two numbers, both included.
    pub fn remove_keys(&mut self, from: u64, to: u64)
        ensures { self.new.items ≡ without_keys self.old.items from to }
    {
        let first = match self.find_from(from) {
            Some(place) => place,
            None => return,
        };
        let last = match self.find(to) {
            Some(place) => place,
            None => return,
        };
        if self.entry(first).0 <= self.entry(last).0 {
            self.remove_run(first, last);
        }
    }

    /// Takes all entries out, and frees their memory.
    pub fn clear(&mut self)
        ensures items { self.new.items ≡ [] }
        ensures rows { self.new.rows ≡ [] }
    {
        self.blocks = Vec::new(self.alloc);
        self.spare = Vec::new(self.alloc);
        self.len = 0;
        self.ready = false;
    }

    /// An equal map, filled as by `refill`.
    pub fn try_clone(&self) -> Result<Self, AllocError>
        ensures items { IfOk result (λ copy. copy.items ≡ self.now.items) }
        ensures full { IfOk result (λ copy. AreFull copy.rows) }
    {
        Ok(BlockMap {
            blocks: joined(self.blocks.as_slice(), self.alloc)?,
            len: self.len,
            spare: Vec::new(self.alloc),
            ready: false,
            alloc: self.alloc,
        })
    }

    /// Joins neighbours that fit into one row, in one pass. If refused, all is as it was.
    pub fn refill(&mut self) -> Result<(), AllocError>
        ensures items { self.new.items ≡ self.old.items }
        ensures full { OnOk result (AreFull self.new.rows) }
        ensures err { OnErr result (self.new ≡ self.old) }
    {
        if are_full(self.blocks.as_slice()) {
            return Ok(());
        }
        self.blocks = joined(self.blocks.as_slice(), self.alloc)?;
        self.ready = false;
        Ok(())
    }
}
