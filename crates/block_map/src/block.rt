// A row of entries by rising keys, in memory that has room for more.
ghost use Rattle.std.specs.Prelude.{◌≡◌, ◌+◌, ◌-◌, ◌/◌, ◌<◌, ◌≤◌, ℕ, List, [], ◌∷◌, ◌++◌, length, slice_index_or, slice_set, insert, take, drop, IfSome, IfOk, OnOk, OnErr, vec_capacity, false, true};
ghost use Rattle.std.specs.List.{remove_range};
ghost use Rattle.block_map.specs.Sorted.{KeyAndValue, KeysRise, IsLastUpTo, GoesAt, FitsAt};
ghost use Rattle.block_map.specs.Rows.{first_key, IsRowMemory};

use crate::search::{last_up_to, near};
use std::alloc::{AllocError, Global};
use std::marker::Model;
use std::mem;

/// The most entries of a block.
pub(crate) const MOST: usize = 64;

/// The most entries of a block in little memory.
pub(crate) const FEW: usize = 4;

// Moves the entries from `start` on into memory for the most, unless they have that. Answers how many before them are gone.
fn move_into(entries: &mut Vec<(u64, u64)>, start: usize, spare: &mut Vec<(u64, u64)>) -> usize
    requires within { start ≤ length entries.old.items }
    requires fits { length entries.old.items ≤ 64 }
    requires empty { spare.old.items ≡ [] }
    requires room { 64 ≤ vec_capacity spare.old }
    ensures same { drop result entries.new.items ≡ drop start entries.old.items }
    ensures within { result ≤ length entries.new.items }
    ensures fits { length entries.new.items ≤ 64 }
    ensures room { 64 ≤ vec_capacity entries.new }
    ensures empty { spare.new.items ≡ [] }
{
    match spare.extend_from_slice(&entries.as_slice()[start..]) {
        Ok(()) => {}
        Err(_) => unreachable!(),
    }
    mem::swap(entries, spare);
    spare.clear();
    0
}

// Sees to memory for one entry more, of which enough was reserved. Answers how many entries are gone.
#[inline(always)]
fn grow(entries: &mut Vec<(u64, u64)>, start: usize, spare: &mut Vec<(u64, u64)>) -> usize
    requires within { start ≤ length entries.old.items }
    requires fits { length entries.old.items ≤ 64 }
    requires memory { IsRowMemory (vec_capacity entries.old) (length entries.old.items - start) }
    requires empty { spare.old.items ≡ [] }
    requires room { length entries.old.items - start ≡ 4 → 64 ≤ vec_capacity spare.old }
    ensures same { drop result entries.new.items ≡ drop start entries.old.items }
    ensures within { result ≤ length entries.new.items }
    ensures fits { length entries.new.items ≤ 64 }
    ensures memory { IsRowMemory (vec_capacity entries.new) (length entries.old.items - start + 1) }
    ensures empty { spare.new.items ≡ [] }
{
    if entries.len() - start != FEW {
        return start;
    }
    if entries.capacity() >= MOST {
        return start;
    }
    move_into(entries, start, spare)
}

// Moves the entries from `start` on into new memory for the most, unless they have that. Answers how many before them are
// gone. If refused, all is as it was.
fn widen(entries: &mut Vec<(u64, u64)>, start: usize, alloc: Global) -> Result<usize, AllocError>
    requires within { start ≤ length entries.old.items }
    requires fits { length entries.old.items ≤ 64 }
    ensures same { IfOk result (λ gone. drop gone entries.new.items ≡ drop start entries.old.items) }
    ensures within { IfOk result (λ gone. gone ≤ length entries.new.items) }
    ensures fits { OnOk result (length entries.new.items ≤ 64) }
    ensures room { OnOk result (64 ≤ vec_capacity entries.new) }
    ensures err { OnErr result (entries.new ≡ entries.old) }
{
    if entries.capacity() >= MOST {
        return Ok(start);
    }
    let mut spare = Vec::with_capacity(alloc, MOST)?;
    Ok(move_into(entries, start, &mut spare))
}

// Makes room for some more behind all others, where the entries below `start` are gone. Answers how many still are.
#[inline(always)]
fn make_room(entries: &mut Vec<(u64, u64)>, start: usize, count: usize) -> usize
    requires within { start ≤ length entries.old.items }
    requires fits { length entries.old.items - start + count ≤ 64 }
    requires memory { length entries.old.items - start + count ≤ vec_capacity entries.old }
    ensures same { drop result entries.new.items ≡ drop start entries.old.items }
    ensures within { result ≤ length entries.new.items }
    ensures room { length entries.new.items + count ≤ 64 }
    ensures memory { length entries.new.items + count ≤ vec_capacity entries.new }
    ensures capacity { vec_capacity entries.new ≡ vec_capacity entries.old }
{
    let total = entries.len() + count;
    if total <= MOST && total <= entries.capacity() {
        return start;
    }
    let left = entries.len() - start;
    entries.as_mut_slice().copy_within(start.., 0);
    entries.truncate(left);
    0
}

// Puts an entry before the one at a place. There is room.
#[inline(always)]
fn put_in(entries: &mut Vec<(u64, u64)>, place: usize, key: u64, value: u64)
    requires within { place ≤ length entries.old.items }
    requires room { length entries.old.items < vec_capacity entries.old }
    ensures items { entries.new.items ≡ insert entries.old.items place (key, value) }
    ensures capacity { vec_capacity entries.new ≡ vec_capacity entries.old }
{
    let last = entries.len();
    entries.push_reserved((key, value));
    entries.as_mut_slice().copy_within(place..last, place + 1);
    entries[place] = (key, value);
}

// Puts entries behind all others, where those below `start` are gone. Answers how many are gone then. There is room, and memory.
#[inline(always)]
fn put_all_behind(entries: &mut Vec<(u64, u64)>, start: usize, more: &[(u64, u64)]) -> usize
    requires within { start ≤ length entries.old.items }
    requires fits { length entries.old.items - start + length more.now ≤ 64 }
    requires memory { length entries.old.items - start + length more.now ≤ vec_capacity entries.old }
    ensures items { drop result entries.new.items ≡ drop start entries.old.items ++ more.now }
    ensures within { result ≤ length entries.new.items }
    ensures fits { length entries.new.items ≤ 64 }
    ensures capacity { vec_capacity entries.old ≤ vec_capacity entries.new }
{
    let gone = make_room(entries, start, more.len());
    match entries.extend_from_slice(more) {
        Ok(()) => {}
        Err(_) => unreachable!(),
    }
    gone
}

// Puts two runs of entries into memory that was reserved.
fn put_both(spare: &mut Vec<(u64, u64)>, low: &[(u64, u64)], high: &[(u64, u64)])
    requires empty { spare.old.items ≡ [] }
    requires room { length low.now + length high.now ≤ vec_capacity spare.old }
    ensures items { spare.new.items ≡ low.now ++ high.now }
    ensures capacity { vec_capacity spare.old ≤ vec_capacity spare.new }
{
    match spare.extend_from_slice(low) {
        Ok(()) => {}
        Err(_) => unreachable!(),
    }
    match spare.extend_from_slice(high) {
        Ok(()) => {}
        Err(_) => unreachable!(),
    }
}

// Takes entries out, where those below `start` are gone. Answers how many are gone then.
#[inline(always)]
fn take_out(entries: &mut Vec<(u64, u64)>, start: usize, from: usize, to: usize) -> usize
    requires within { start + to ≤ length entries.old.items }
    requires order { from ≤ to }
    ensures items { drop result entries.new.items ≡ remove_range (drop start entries.old.items) from to }
    ensures within { result ≤ length entries.new.items }
    ensures fewer { length entries.new.items ≤ length entries.old.items }
    ensures capacity { vec_capacity entries.new ≡ vec_capacity entries.old }
{
    if from == 0 {
        return start + to;
    }
    let left = entries.len() - (to - from);
    entries
        .as_mut_slice()
        .copy_within(start + to.., start + from);
    entries.truncate(left);
    start
}

#[derive(Drop)]
pub(crate) struct Block {
    // The key of the first entry.
    first: u64,
    // The entries below this index are gone.
    start: usize,
    entries: Vec<(u64, u64)>,
}

impl Model for Block {
    ghost use Rattle.std.specs.Prelude.{List, ℕ, ◌-◌, drop, length, vec_capacity};
    ghost use Rattle.block_map.specs.Sorted.{KeyAndValue};
    ghost use Rattle.block_map.specs.Rows.{IsBlock, IsRowMemory};

    ghost Value = { List KeyAndValue };

    ghost view = { λ b. drop b.start b.entries.items };

    ghost invariant = { λ b. IsBlock 64 b.first b.start b.entries.items × IsRowMemory (vec_capacity b.entries) (length b.entries.items - b.start) };
}

impl Block {
    /// One entry, in memory that was reserved.
    pub(crate) fn new(spare: Vec<(u64, u64)>, key: u64, value: u64) -> Self
        requires empty { spare.items ≡ [] }
        requires room { 4 ≤ vec_capacity spare }
        ensures { result ≡ (key, value) ∷ [] }
    {
        let mut entries = spare;
        entries.push_reserved((key, value));
        Block {
            first: key,
            start: 0,
            entries,
        }
    }

    /// A copy.
    pub(crate) fn copied(&self, alloc: Global) -> Result<Self, AllocError>
        ensures { IfOk result (λ b. b ≡ self.now) }
    {
        let count = self.entries.len() - self.start;
        let mut entries = Vec::with_capacity(alloc, if count > FEW { MOST } else { FEW })?;
        entries.extend_from_slice(&self.entries.as_slice()[self.start..])?;
        Ok(Block {
            first: self.first,
            start: 0,
            entries,
        })
    }

    /// The key of the first entry.
    #[inline(always)]
    pub(crate) fn first(&self) -> u64
        ensures key { result ≡ first_key self.now }
        ensures some { 0 < length self.now }
        ensures rises { KeysRise self.now }
    {
        self.first
    }

    #[inline(always)]
    pub(crate) fn len(&self) -> usize
        ensures len { result ≡ length self.now }
        ensures some { 0 < length self.now }
        ensures most { length self.now ≤ 64 }
    {
        self.entries.len() - self.start
    }

    /// The entry at a place.
    #[inline(always)]
    pub(crate) fn get(&self, index: usize) -> (u64, u64)
        requires { index < length self.now }
        ensures { result ≡ slice_index_or self.now index result }
    {
        self.entries[self.start + index]
    }

    /// The place of the last entry with a key up to `n`. The first has one.
    #[inline(always)]
    pub(crate) fn find(&self, n: u64) -> usize
        requires { first_key self.now ≤ n }
        ensures { IsLastUpTo self.now n result }
    {
        let _first = self.first;
        last_up_to(&self.entries.as_slice()[self.start..], n)
    }

    /// The place of the last entry with a key up to `n`, if it is a place or the one behind it, and another entry follows.
    #[inline(always)]
    pub(crate) fn find_near(&self, index: usize, n: u64) -> Option<usize>
        ensures fits { IfSome result (λ i. i + 1 < length self.now) }
        ensures up_to { IfSome result (λ i. (d : KeyAndValue) → (slice_index_or self.now i d).0 ≤ n) }
        ensures above { IfSome result (λ i. (d : KeyAndValue) → n < (slice_index_or self.now (i + 1) d).0) }
    {
        let _first = self.first;
        near(&self.entries.as_slice()[self.start..], index, n)
    }

    /// Whether no entry can be put behind the others where they lie.
    #[inline(always)]
    pub(crate) fn is_full(&self) -> bool
        ensures room { result ≡ false → length self.now < 64 }
    {
        self.entries.len() >= MOST
    }

    /// Puts an entry in, where there is memory for the most, and room behind the others. Else nothing changes.
    #[inline(always)]
    pub(crate) fn try_put(&mut self, index: usize, key: u64, value: u64) -> bool
        requires { GoesAt self.old index key }
        ensures put { result ≡ true → self.new ≡ insert self.old index (key, value) }
        ensures left { result ≡ false → self.new ≡ self.old }
    {
        if self.entries.len() >= MOST || self.entries.capacity() < MOST {
            return false;
        }
        put_in(&mut self.entries, self.start + index, key, value);
        if index == 0 {
            self.first = key;
        }
        true
    }

    /// Puts an entry in. There is room, or memory that was reserved.
    #[inline(always)]
    pub(crate) fn put(&mut self, spare: &mut Vec<(u64, u64)>, index: usize, key: u64, value: u64)
        requires room { length self.old < 64 }
        requires empty { spare.old.items ≡ [] }
        requires memory { length self.old ≡ 4 → 64 ≤ vec_capacity spare.old }
        requires goes { GoesAt self.old index key }
        ensures put { self.new ≡ insert self.old index (key, value) }
        ensures empty { spare.new.items ≡ [] }
    {
        self.start = grow(&mut self.entries, self.start, spare);
        self.start = make_room(&mut self.entries, self.start, 1);
        put_in(&mut self.entries, self.start + index, key, value);
        self.first = self.entries[self.start].0;
    }

    /// Writes an entry over another.
    #[inline(always)]
    pub(crate) fn set(&mut self, index: usize, key: u64, value: u64)
        requires { FitsAt self.old index key }
        ensures { self.new ≡ slice_set self.old index (key, value) }
    {
        let place = self.start + index;
        self.entries[place] = (key, value);
        self.first = self.entries[self.start].0;
    }

    /// Takes the entries from a place on out, in memory that was reserved. There are some before it, and some from it on.
    pub(crate) fn split(&mut self, index: usize, spare: Vec<(u64, u64)>) -> Self
        requires some { 0 < index }
        requires rest { index < length self.old }
        requires empty { spare.items ≡ [] }
        requires room { 64 ≤ vec_capacity spare }
        ensures low { self.new ≡ take index self.old }
        ensures high { result ≡ drop index self.old }
    {
        let mut entries = spare;
        let place = self.start + index;
        match entries.extend_from_slice(&self.entries.as_slice()[place..]) {
            Ok(()) => {}
            Err(_) => unreachable!(),
        }
        self.entries.truncate(place);
        Block {
            first: entries[0].0,
            start: 0,
            entries,
        }
    }

    /// Takes the entries from one place up to another out. Some are left.
    #[inline(always)]
    pub(crate) fn cut(&mut self, from: usize, to: usize)
        requires order { from ≤ to }
        requires fits { to ≤ length self.old }
        requires left { to - from < length self.old }
        ensures { self.new ≡ remove_range self.old from to }
    {
        self.start = take_out(&mut self.entries, self.start, from, to);
        self.first = self.entries[self.start].0;
    }

    /// Takes the first entry out. Some are left.
    #[inline(always)]
    pub(crate) fn pop(&mut self)
        requires { 1 < length self.old }
        ensures { self.new ≡ drop 1 self.old }
    {
        self.start += 1;
        self.first = self.entries[self.start].0;
    }

    /// Puts the entries of another behind these, which is at most a full row.
    pub(crate) fn append(&mut self, other: &Block, alloc: Global) -> Result<(), AllocError>
        requires room { length self.old + length other.now ≤ 64 }
        requires rises { KeysRise (self.old ++ other.now) }
        ensures { OnOk result (self.new ≡ self.old ++ other.now) }
    {
        let more = &other.entries.as_slice()[other.start..];
        self.start = widen(&mut self.entries, self.start, alloc)?;
        self.start = put_all_behind(&mut self.entries, self.start, more);
        Ok(())
    }

    /// As [`Block::append`], where there is memory for the most. Else nothing changes, and there are few entries.
    pub(crate) fn try_append(&mut self, other: &Block) -> bool
        requires room { length self.old + length other.now ≤ 64 }
        requires rises { KeysRise (self.old ++ other.now) }
        ensures put { result ≡ true → self.new ≡ self.old ++ other.now }
        ensures left { result ≡ false → self.new ≡ self.old }
        ensures few { result ≡ false → length self.old ≤ 4 }
    {
        if self.entries.capacity() < MOST {
            return false;
        }
        let more = &other.entries.as_slice()[other.start..];
        self.start = put_all_behind(&mut self.entries, self.start, more);
        true
    }

    /// Takes the first entries of the next row, so many. There is room for them, and some are left there.
    fn take_front(&mut self, next: &mut Block, count: usize)
        requires many { 4 < length self.old }
        requires room { length self.old + count ≤ 64 }
        requires left { count < length next.old }
        requires rises { KeysRise (self.old ++ next.old) }
        ensures own { self.new ≡ self.old ++ take count next.old }
        ensures rest { next.new ≡ drop count next.old }
    {
        let _len = self.len();
        let end = next.start + count;
        let more = &next.entries.as_slice()[next.start..end];
        self.start = put_all_behind(&mut self.entries, self.start, more);
        next.start = end;
        next.first = next.entries[end].0;
    }

    /// Gives the entries from a place on to the next row, where there is room for them. Some are left here. The spare memory
    /// goes to that row, and what it had is spare then.
    fn give_back(&mut self, index: usize, next: &mut Block, spare: &mut Vec<(u64, u64)>)
        requires some { 0 < index }
        requires fits { index ≤ length self.old }
        requires room { length self.old - index + length next.old ≤ 64 }
        requires rises { KeysRise (self.old ++ next.old) }
        requires empty { spare.old.items ≡ [] }
        requires memory { 64 ≤ vec_capacity spare.old }
        ensures own { self.new ≡ take index self.old }
        ensures rest { next.new ≡ drop index self.old ++ next.old }
        ensures empty { spare.new.items ≡ [] }
    {
        let place = self.start + index;
        put_both(
            spare,
            &self.entries.as_slice()[place..],
            &next.entries.as_slice()[next.start..],
        );
        mem::swap(&mut next.entries, spare);
        spare.clear();
        next.start = 0;
        next.first = next.entries[0].0;
        self.entries.truncate(place);
    }

    /// Moves entries from this row to the next one, or from that to this, so that they have as many each, or the next one
    /// has one more.
    pub(crate) fn even_out(&mut self, next: &mut Block, spare: &mut Vec<(u64, u64)>)
        requires many { 4 < length self.old }
        requires room { length self.old + length next.old ≤ 126 }
        requires rises { KeysRise (self.old ++ next.old) }
        requires empty { spare.old.items ≡ [] }
        requires memory { 64 ≤ vec_capacity spare.old }
        ensures same { self.new ++ next.new ≡ self.old ++ next.old }
        ensures half { length self.new ≡ (length self.old + length next.old) / 2 }
        ensures empty { spare.new.items ≡ [] }
    {
        let half = (self.len() + next.len()) / 2;
        let len = self.len();
        if len < half {
            self.take_front(next, half - len);
        } else {
            self.give_back(half, next, spare);
        }
    }

    /// Its memory, with no entry.
    pub(crate) fn into_spare(self) -> Vec<(u64, u64)>
        ensures empty { result.items ≡ [] }
    {
        let mut entries = self.entries;
        entries.clear();
        entries
    }
}
