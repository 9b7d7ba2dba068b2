// Changes of the rows of a map.
ghost use Rattle.std.specs.Prelude.{◌≡◌, ◌≢◌, ◌⊎◌, ◌+◌, ◌-◌, ◌/◌, ◌^◌, ◌<◌, ◌≤◌, ℕ, List, [], ◌∷◌, ◌++◌, length, slice_index_or, slice_set, insert, take, drop, IfOk, IfSome, OnOk, vec_capacity, false, true};
ghost use Rattle.std.specs.List.{remove_range};
ghost use Rattle.block_map.specs.Sorted.{KeyAndValue, KeysRise, GoesAt, FitsAt};
ghost use Rattle.block_map.specs.Rows.{flat, place_among, IsPlace, HasSome, HasRoomForOne, AreFull};

use crate::block::{Block, FEW, MOST};
use std::alloc::{AllocError, Global};
use std::mem;

// A row with fewer entries is not split, and two neighbours with no more entries together may be joined.
const HALF: usize = MOST / 2;

// Where fewer entries are left in a row when one goes, its neighbours are looked at.
const SPARSE: usize = HALF / 4;

// Where there are more rows, a full one shares with a neighbour before it is split, since each new row moves those behind it.
const MANY: usize = 64;

// The most entries of a row that takes some of a full one: then both have room for one more.
const ROOMY: usize = MOST - 2;

/// Whether all entries lie in one row, and are few, with memory for one more.
#[inline(always)]
pub(crate) fn is_small(blocks: &[Block]) -> bool
    ensures { result ≡ true → (length blocks.now ≡ 1) × ((length (slice_index_or blocks.now 0 []) < 32) × (length (slice_index_or blocks.now 0 []) ≢ 4)) }
{
    blocks.len() == 1 && blocks[0].len() < HALF && blocks[0].len() != FEW
}

/// Whether there is memory for a new row, and a place for it.
#[inline(always)]
pub(crate) fn has_spare(blocks: &Vec<Block>, spare: &Vec<(u64, u64)>) -> bool
    ensures place { result ≡ true → length blocks.now.items < vec_capacity blocks.now }
    ensures memory { result ≡ true → 64 ≤ vec_capacity spare.now }
{
    spare.capacity() >= MOST && blocks.len() < blocks.capacity()
}

// Puts an entry into a row that has room.
#[inline(always)]
fn put_in_row(
    blocks: &mut Vec<Block>,
    spare: &mut Vec<(u64, u64)>,
    block: usize,
    index: usize,
    key: u64,
    value: u64,
)
    requires some { HasSome blocks.old.items }
    requires empty { spare.old.items ≡ [] }
    requires memory { length (slice_index_or blocks.old.items block []) ≡ 4 → 64 ≤ vec_capacity spare.old }
    requires block { block < length blocks.old.items }
    requires index { index ≤ length (slice_index_or blocks.old.items block []) }
    requires room { length (slice_index_or blocks.old.items block []) < 64 }
    requires goes { GoesAt (flat blocks.old.items) (place_among blocks.old.items block index) key }
    ensures items { flat blocks.new.items ≡ insert (flat blocks.old.items) (place_among blocks.old.items block index) (key, value) }
    ensures some { HasSome blocks.new.items }
    ensures empty { spare.new.items ≡ [] }
{
    blocks[block].put(spare, index, key, value);
}

// Puts an entry alone behind all rows. There is memory.
fn push_row(blocks: &mut Vec<Block>, spare: Vec<(u64, u64)>, key: u64, value: u64)
    requires some { HasSome blocks.old.items }
    requires memory { length blocks.old.items < vec_capacity blocks.old }
    requires empty { spare.items ≡ [] }
    requires room { 4 ≤ vec_capacity spare }
    ensures items { flat blocks.new.items ≡ flat blocks.old.items ++ (key, value) ∷ [] }
    ensures some { HasSome blocks.new.items }
{
    blocks.push_reserved(Block::new(spare, key, value));
}

// Puts an entry alone before all rows. There is memory.
fn push_row_before(blocks: &mut Vec<Block>, spare: Vec<(u64, u64)>, key: u64, value: u64)
    requires some { HasSome blocks.old.items }
    requires memory { length blocks.old.items < vec_capacity blocks.old }
    requires empty { spare.items ≡ [] }
    requires room { 4 ≤ vec_capacity spare }
    ensures items { flat blocks.new.items ≡ (key, value) ∷ flat blocks.old.items }
    ensures some { HasSome blocks.new.items }
{
    match blocks.insert(0, Block::new(spare, key, value)) {
        Ok(()) => {}
        Err(_) => unreachable!(),
    }
}

// Makes two rows of one, the second with the entries from a place on. There is memory.
fn split_row(blocks: &mut Vec<Block>, spare: Vec<(u64, u64)>, block: usize, index: usize)
    requires some { HasSome blocks.old.items }
    requires memory { length blocks.old.items < vec_capacity blocks.old }
    requires empty { spare.items ≡ [] }
    requires room { 64 ≤ vec_capacity spare }
    requires block { block < length blocks.old.items }
    requires low { 0 < index }
    requires high { index < length (slice_index_or blocks.old.items block []) }
    ensures rows { blocks.new.items ≡ take block blocks.old.items ++ take index (slice_index_or blocks.old.items block []) ∷ drop index (slice_index_or blocks.old.items block []) ∷ drop (block + 1) blocks.old.items }
    ensures some { HasSome blocks.new.items }
{
    let high = blocks[block].split(index, spare);
    match blocks.insert(block + 1, high) {
        Ok(()) => {}
        Err(_) => unreachable!(),
    }
}

// Makes two rows of one, and puts an entry into one of them. There is memory.
fn split_and_put(
    blocks: &mut Vec<Block>,
    memory: Vec<(u64, u64)>,
    spare: &mut Vec<(u64, u64)>,
    block: usize,
    index: usize,
    key: u64,
    value: u64,
)
    requires some { HasSome blocks.old.items }
    requires place { length blocks.old.items < vec_capacity blocks.old }
    requires memory { memory.items ≡ [] }
    requires room { 64 ≤ vec_capacity memory }
    requires empty { spare.old.items ≡ [] }
    requires block { block < length blocks.old.items }
    requires index { index ≤ length (slice_index_or blocks.old.items block []) }
    requires many { 32 ≤ length (slice_index_or blocks.old.items block []) }
    requires most { length (slice_index_or blocks.old.items block []) ≤ 64 }
    requires goes { GoesAt (flat blocks.old.items) (place_among blocks.old.items block index) key }
    ensures items { flat blocks.new.items ≡ insert (flat blocks.old.items) (place_among blocks.old.items block index) (key, value) }
    ensures some { HasSome blocks.new.items }
    ensures empty { spare.new.items ≡ [] }
{
    let middle = blocks[block].len() / 2;
    split_row(blocks, memory, block, middle);
    if index <= middle {
        put_in_row(blocks, spare, block, index, key, value);
    } else {
        put_in_row(blocks, spare, block + 1, index - middle, key, value);
    }
}

// Of a full row and a neighbour that has room for some of its entries, the second.
fn neighbour_with_room(blocks: &[Block], block: usize) -> Option<usize>
    requires fits { block < length blocks.now }
    requires many { 4 < length (slice_index_or blocks.now block []) }
    ensures low { IfSome result (λ high. 0 < high) }
    ensures high { IfSome result (λ high. high < length blocks.now) }
    ensures one { IfSome result (λ high. (high ≡ block) ⊎ (high ≡ block + 1)) }
    ensures some { IfSome result (λ high. 4 < length (slice_index_or blocks.now (high - 1) [])) }
    ensures whole { IfSome result (λ high. length (slice_index_or blocks.now block []) ≤ length (slice_index_or blocks.now (high - 1) []) + length (slice_index_or blocks.now high [])) }
    ensures most { IfSome result (λ high. length (slice_index_or blocks.now (high - 1) []) + length (slice_index_or blocks.now high []) ≤ 126) }
{
    let _len = blocks[block].len();
    if block > 0 {
        let len = blocks[block - 1].len();
        if len > FEW && len <= ROOMY {
            return Some(block);
        }
    }
    if block + 1 < blocks.len() && blocks[block + 1].len() <= ROOMY {
        return Some(block + 1);
    }
    None
}

// How far behind the first of two neighbours a place of one of them is.
fn offset_of(blocks: &[Block], high: usize, block: usize, index: usize) -> usize
    requires low { 0 < high }
    requires high { high < length blocks.now }
    requires one { (high ≡ block) ⊎ (high ≡ block + 1) }
    requires index { index ≤ length (slice_index_or blocks.now block []) }
    ensures place { place_among blocks.now (high - 1) result ≡ place_among blocks.now block index }
    ensures fits { result ≤ length (slice_index_or blocks.now (high - 1) []) + length (slice_index_or blocks.now high []) }
{
    let _len = blocks[block].len();
    if high == block {
        return blocks[high - 1].len() + index;
    }
    index
}

// Moves entries between two neighbours, so that they have as many each, or the second has one more.
fn even_out(blocks: &mut Vec<Block>, spare: &mut Vec<(u64, u64)>, high: usize)
    requires some { HasSome blocks.old.items }
    requires rises { KeysRise (flat blocks.old.items) }
    requires empty { spare.old.items ≡ [] }
    requires memory { 64 ≤ vec_capacity spare.old }
    requires low { 0 < high }
    requires high { high < length blocks.old.items }
    requires many { 4 < length (slice_index_or blocks.old.items (high - 1) []) }
    requires most { length (slice_index_or blocks.old.items (high - 1) []) + length (slice_index_or blocks.old.items high []) ≤ 126 }
    ensures items { flat blocks.new.items ≡ flat blocks.old.items }
    ensures before { take (high - 1) blocks.new.items ≡ take (high - 1) blocks.old.items }
    ensures count { length blocks.new.items ≡ length blocks.old.items }
    ensures both { length (slice_index_or blocks.new.items (high - 1) []) + length (slice_index_or blocks.new.items high []) ≡ length (slice_index_or blocks.old.items (high - 1) []) + length (slice_index_or blocks.old.items high []) }
    ensures half { length (slice_index_or blocks.new.items (high - 1) []) ≡ (length (slice_index_or blocks.old.items (high - 1) []) + length (slice_index_or blocks.old.items high [])) / 2 }
    ensures some { HasSome blocks.new.items }
    ensures empty { spare.new.items ≡ [] }
{
    let (front, rest) = blocks.as_mut_slice().split_at_mut(high);
    front[high - 1].even_out(&mut rest[0], spare);
}

// Puts an entry into one of two neighbours, so far behind the first entry of both. They share their entries first.
fn put_in_pair(
    blocks: &mut Vec<Block>,
    spare: &mut Vec<(u64, u64)>,
    high: usize,
    offset: usize,
    key: u64,
    value: u64,
)
    requires some { HasSome blocks.old.items }
    requires rises { KeysRise (flat blocks.old.items) }
    requires empty { spare.old.items ≡ [] }
    requires memory { 64 ≤ vec_capacity spare.old }
    requires low { 0 < high }
    requires high { high < length blocks.old.items }
    requires many { 4 < length (slice_index_or blocks.old.items (high - 1) []) }
    requires full { 32 ≤ length (slice_index_or blocks.old.items (high - 1) []) + length (slice_index_or blocks.old.items high []) }
    requires most { length (slice_index_or blocks.old.items (high - 1) []) + length (slice_index_or blocks.old.items high []) ≤ 126 }
    requires offset { offset ≤ length (slice_index_or blocks.old.items (high - 1) []) + length (slice_index_or blocks.old.items high []) }
    requires goes { GoesAt (flat blocks.old.items) (place_among blocks.old.items (high - 1) offset) key }
    ensures items { flat blocks.new.items ≡ insert (flat blocks.old.items) (place_among blocks.old.items (high - 1) offset) (key, value) }
    ensures some { HasSome blocks.new.items }
    ensures empty { spare.new.items ≡ [] }
{
    even_out(blocks, spare, high);
    let len = blocks[high - 1].len();
    if offset <= len {
        put_in_row(blocks, spare, high - 1, offset, key, value);
    } else {
        put_in_row(blocks, spare, high, offset - len, key, value);
    }
}

// Puts an entry into a row that is full, or has little memory. There is room.
#[inline(never)]
fn put_slowly(
    blocks: &mut Vec<Block>,
    spare: &mut Vec<(u64, u64)>,
    alloc: Global,
    block: usize,
    index: usize,
    key: u64,
    value: u64,
)
    requires some { HasSome blocks.old.items }
    requires rises { KeysRise (flat blocks.old.items) }
    requires empty { spare.old.items ≡ [] }
    requires room { HasRoomForOne blocks.old.items (vec_capacity blocks.old) (vec_capacity spare.old) }
    requires block { block < length blocks.old.items }
    requires index { index ≤ length (slice_index_or blocks.old.items block []) }
    requires goes { GoesAt (flat blocks.old.items) (place_among blocks.old.items block index) key }
    ensures items { flat blocks.new.items ≡ insert (flat blocks.old.items) (place_among blocks.old.items block index) (key, value) }
    ensures some { HasSome blocks.new.items }
    ensures empty { spare.new.items ≡ [] }
{
    let len = blocks[block].len();
    if !blocks[block].is_full() || len < HALF {
        return put_in_row(blocks, spare, block, index, key, value);
    }
    if blocks.len() > MANY {
        if let Some(high) = neighbour_with_room(blocks.as_slice(), block) {
            let offset = offset_of(blocks.as_slice(), high, block, index);
            return put_in_pair(blocks, spare, high, offset, key, value);
        }
    }
    let memory = mem::replace(spare, Vec::new(alloc));
    if index == len && block + 1 == blocks.len() {
        return push_row(blocks, memory, key, value);
    }
    if index == 0 && block == 0 {
        return push_row_before(blocks, memory, key, value);
    }
    split_and_put(blocks, memory, spare, block, index, key, value);
}

/// Puts an entry into a row. There is room.
#[inline(always)]
pub(crate) fn put_entry(
    blocks: &mut Vec<Block>,
    spare: &mut Vec<(u64, u64)>,
    alloc: Global,
    block: usize,
    index: usize,
    key: u64,
    value: u64,
)
    requires some { HasSome blocks.old.items }
    requires rises { KeysRise (flat blocks.old.items) }
    requires empty { spare.old.items ≡ [] }
    requires room { HasRoomForOne blocks.old.items (vec_capacity blocks.old) (vec_capacity spare.old) }
    requires block { block < length blocks.old.items }
    requires index { index ≤ length (slice_index_or blocks.old.items block []) }
    requires goes { GoesAt (flat blocks.old.items) (place_among blocks.old.items block index) key }
    ensures items { flat blocks.new.items ≡ insert (flat blocks.old.items) (place_among blocks.old.items block index) (key, value) }
    ensures some { HasSome blocks.new.items }
    ensures empty { spare.new.items ≡ [] }
{
    if blocks[block].try_put(index, key, value) {
        return;
    }
    put_slowly(blocks, spare, alloc, block, index, key, value);
}

/// Puts an entry where there is none. There is room.
pub(crate) fn put_alone(
    blocks: &mut Vec<Block>,
    spare: &mut Vec<(u64, u64)>,
    alloc: Global,
    key: u64,
    value: u64,
)
    requires none { blocks.old.items ≡ [] }
    requires empty { spare.old.items ≡ [] }
    requires room { HasRoomForOne blocks.old.items (vec_capacity blocks.old) (vec_capacity spare.old) }
    ensures items { flat blocks.new.items ≡ (key, value) ∷ [] }
    ensures some { HasSome blocks.new.items }
    ensures empty { spare.new.items ≡ [] }
{
    let memory = mem::replace(spare, Vec::new(alloc));
    push_row(blocks, memory, key, value);
}

// Takes entries out of a row, and the row where none is left.
#[inline(always)]
fn cut_row(blocks: &mut Vec<Block>, block: usize, from: usize, to: usize)
    requires some { HasSome blocks.old.items }
    requires block { block < length blocks.old.items }
    requires order { from ≤ to }
    requires fits { to ≤ length (slice_index_or blocks.old.items block []) }
    ensures items { flat blocks.new.items ≡ remove_range (flat blocks.old.items) (place_among blocks.old.items block from) (place_among blocks.old.items block to) }
    ensures some { HasSome blocks.new.items }
    ensures before { take block blocks.new.items ≡ take block blocks.old.items }
    ensures fits { block ≤ length blocks.new.items }
{
    if to - from < blocks[block].len() {
        blocks[block].cut(from, to);
        return;
    }
    drop(blocks.remove(block));
}

// Joins a row to the one before it, where both have few entries together, and that one has memory for them.
fn join_few(blocks: &mut Vec<Block>, block: usize)
    requires some { HasSome blocks.old.items }
    requires rises { KeysRise (flat blocks.old.items) }
    ensures items { flat blocks.new.items ≡ flat blocks.old.items }
    ensures some { HasSome blocks.new.items }
{
    if block == 0 || block >= blocks.len() {
        return;
    }
    if blocks[block - 1].len() + blocks[block].len() > HALF {
        return;
    }
    let (low, high) = blocks.as_mut_slice().split_at_mut(block);
    if low[block - 1].try_append(&high[0]) {
        drop(blocks.remove(block));
    }
}

// Joins rows that may have few entries: the one at a place, the one before it, and two behind it.
fn join_around(blocks: &mut Vec<Block>, block: usize)
    requires some { HasSome blocks.old.items }
    requires rises { KeysRise (flat blocks.old.items) }
    ensures items { flat blocks.new.items ≡ flat blocks.old.items }
    ensures some { HasSome blocks.new.items }
{
    if block < blocks.len() {
        join_few(blocks, block + 2);
        join_few(blocks, block + 1);
        join_few(blocks, block);
    }
}

// Takes the entry at a place out of a row of which few are left, or none.
#[inline(never)]
fn remove_from_few(blocks: &mut Vec<Block>, spare: &mut Vec<(u64, u64)>, block: usize, index: usize)
    requires some { HasSome blocks.old.items }
    requires rises { KeysRise (flat blocks.old.items) }
    requires empty { spare.old.items ≡ [] }
    requires place { IsPlace blocks.old.items block index }
    ensures items { flat blocks.new.items ≡ remove_range (flat blocks.old.items) (place_among blocks.old.items block index) (place_among blocks.old.items block index + 1) }
    ensures some { HasSome blocks.new.items }
    ensures empty { spare.new.items ≡ [] }
{
    if blocks[block].len() > 1 {
        cut_row(blocks, block, index, index + 1);
        join_around(blocks, block);
        return;
    }
    remove_row(blocks, spare, block);
}

// Whether others than a row are to be looked at once an entry of it goes: few are left, or none.
#[inline(always)]
fn is_sparse(blocks: &[Block], block: usize) -> bool
    requires { block < length blocks.now }
    ensures some { result ≡ false → 1 < length (slice_index_or blocks.now block []) }
    ensures most { length (slice_index_or blocks.now block []) ≤ 64 }
{
    let len = blocks[block].len();
    len <= 1 || len <= SPARSE && blocks.len() > 1
}

/// Takes the entry at a place out.
#[inline(always)]
pub(crate) fn remove_entry(
    blocks: &mut Vec<Block>,
    spare: &mut Vec<(u64, u64)>,
    block: usize,
    index: usize,
)
    requires some { HasSome blocks.old.items }
    requires rises { KeysRise (flat blocks.old.items) }
    requires empty { spare.old.items ≡ [] }
    requires place { IsPlace blocks.old.items block index }
    ensures items { flat blocks.new.items ≡ remove_range (flat blocks.old.items) (place_among blocks.old.items block index) (place_among blocks.old.items block index + 1) }
    ensures some { HasSome blocks.new.items }
    ensures empty { spare.new.items ≡ [] }
{
    if is_sparse(blocks.as_slice(), block) {
        return remove_from_few(blocks, spare, block, index);
    }
    blocks[block].cut(index, index + 1);
}

// Takes a row out, and keeps its memory.
#[inline(never)]
fn remove_row(blocks: &mut Vec<Block>, spare: &mut Vec<(u64, u64)>, block: usize)
    requires block { block < length blocks.old.items }
    requires some { HasSome blocks.old.items }
    ensures rows { blocks.new.items ≡ remove_range blocks.old.items block (block + 1) }
    ensures some { HasSome blocks.new.items }
    ensures empty { spare.new.items ≡ [] }
{
    *spare = blocks.remove(block).into_spare();
}

/// Takes the first entry out.
#[inline(always)]
pub(crate) fn pop_entry(blocks: &mut Vec<Block>, spare: &mut Vec<(u64, u64)>)
    requires rows { 0 < length blocks.old.items }
    requires some { HasSome blocks.old.items }
    requires empty { spare.old.items ≡ [] }
    ensures items { flat blocks.new.items ≡ drop 1 (flat blocks.old.items) }
    ensures some { HasSome blocks.new.items }
    ensures empty { spare.new.items ≡ [] }
{
    if blocks[0].len() > 1 {
        blocks[0].pop();
        return;
    }
    remove_row(blocks, spare, 0);
}

// How many entries the rows from one up to another have.
fn count_rows(blocks: &[Block], from: usize, to: usize) -> usize
    requires order { from ≤ to }
    requires fits { to ≤ length blocks.now }
    requires few { length (flat blocks.now) < 2 ^ 64 }
    ensures { place_among blocks.now from 0 + result ≡ place_among blocks.now to 0 }
{
    let mut count = 0;
    for block in from..to {
        count += blocks[block].len();
    }
    count
}

/// How many entries lie from one place up to another.
pub(crate) fn count_between(blocks: &[Block], from: (usize, usize), to: (usize, usize)) -> usize
    requires from { IsPlace blocks.now from.0 from.1 }
    requires to { IsPlace blocks.now to.0 to.1 }
    requires order { place_among blocks.now from.0 from.1 ≤ place_among blocks.now to.0 to.1 }
    requires few { length (flat blocks.now) < 2 ^ 64 }
    ensures { place_among blocks.now from.0 from.1 + result ≡ place_among blocks.now to.0 to.1 }
{
    count_rows(blocks, from.0, to.0) + to.1 - from.1
}

// Takes rows out.
fn drop_rows(blocks: &mut Vec<Block>, from: usize, to: usize)
    requires order { from ≤ to }
    requires fits { to ≤ length blocks.old.items }
    ensures { blocks.new.items ≡ remove_range blocks.old.items from to }
{
    drop(blocks.drain(from..to));
}

// Takes the entries from a place up to a later row out.
fn cut_rows(blocks: &mut Vec<Block>, block: usize, index: usize, to: usize)
    requires some { HasSome blocks.old.items }
    requires place { IsPlace blocks.old.items block index }
    requires order { block < to }
    requires fits { to ≤ length blocks.old.items }
    ensures items { flat blocks.new.items ≡ remove_range (flat blocks.old.items) (place_among blocks.old.items block index) (place_among blocks.old.items to 0) }
    ensures some { HasSome blocks.new.items }
{
    drop_rows(blocks, block + 1, to);
    let len = blocks[block].len();
    cut_row(blocks, block, index, len);
}

// Takes the entries from one place to another out, both included.
fn cut_entries(blocks: &mut Vec<Block>, first: (usize, usize), last: (usize, usize))
    requires some { HasSome blocks.old.items }
    requires first { IsPlace blocks.old.items first.0 first.1 }
    requires last { IsPlace blocks.old.items last.0 last.1 }
    requires order { place_among blocks.old.items first.0 first.1 ≤ place_among blocks.old.items last.0 last.1 }
    ensures items { flat blocks.new.items ≡ remove_range (flat blocks.old.items) (place_among blocks.old.items first.0 first.1) (place_among blocks.old.items last.0 last.1 + 1) }
    ensures some { HasSome blocks.new.items }
{
    let _len = blocks[last.0].len();
    if first.0 >= last.0 {
        cut_row(blocks, first.0, first.1, last.1 + 1);
        return;
    }
    cut_row(blocks, last.0, 0, last.1 + 1);
    cut_rows(blocks, first.0, first.1, last.0);
}

/// Takes the entries from one place to another out, both included. Rows that are left with few are joined.
pub(crate) fn remove_entries(blocks: &mut Vec<Block>, first: (usize, usize), last: (usize, usize))
    requires some { HasSome blocks.old.items }
    requires rises { KeysRise (flat blocks.old.items) }
    requires first { IsPlace blocks.old.items first.0 first.1 }
    requires last { IsPlace blocks.old.items last.0 last.1 }
    requires order { place_among blocks.old.items first.0 first.1 ≤ place_among blocks.old.items last.0 last.1 }
    ensures items { flat blocks.new.items ≡ remove_range (flat blocks.old.items) (place_among blocks.old.items first.0 first.1) (place_among blocks.old.items last.0 last.1 + 1) }
    ensures some { HasSome blocks.new.items }
{
    cut_entries(blocks, first, last);
    join_around(blocks, first.0);
}

// Whether the last row has room for the entries of another.
fn has_room(rows: &[Block], block: &Block) -> bool
    ensures yes { result ≡ true → (0 < length rows.now) × (length (slice_index_or rows.now (length rows.now - 1) []) + length block.now ≤ 64) }
    ensures no { result ≡ false → (i : ℕ) → i + 1 ≡ length rows.now → 64 < length (slice_index_or rows.now i []) + length block.now }
{
    let count = rows.len();
    if count == 0 {
        return false;
    }
    rows[count - 1].len() + block.len() <= MOST
}

/// Whether no two neighbours fit into one row.
pub(crate) fn are_full(blocks: &[Block]) -> bool
    ensures { result ≡ true → AreFull blocks.now }
{
    let mut block = 1;
    while block < blocks.len() {
        if blocks[block - 1].len() + blocks[block].len() <= MOST {
            return false;
        }
        block += 1;
    }
    true
}

// Puts a copy of a row behind the others, or its entries behind those of the last row where that has room.
fn join_row(rows: &mut Vec<Block>, block: &Block, alloc: Global) -> Result<(), AllocError>
    requires some { HasSome rows.old.items }
    requires full { AreFull rows.old.items }
    requires rises { KeysRise (flat rows.old.items ++ block.now) }
    ensures items { OnOk result (flat rows.new.items ≡ flat rows.old.items ++ block.now) }
    ensures some { OnOk result (HasSome rows.new.items) }
    ensures full { OnOk result (AreFull rows.new.items) }
{
    let _len = block.len();
    if has_room(rows.as_slice(), block) {
        let last = rows.len() - 1;
        rows[last].append(block, alloc)?;
        return Ok(());
    }
    rows.push(block.copied(alloc)?)?;
    Ok(())
}

/// Copies of rows, where two neighbours are one if that has room for both.
pub(crate) fn joined(blocks: &[Block], alloc: Global) -> Result<Vec<Block>, AllocError>
    requires { KeysRise (flat blocks.now) }
    ensures items { IfOk result (λ rows. flat rows.items ≡ flat blocks.now) }
    ensures some { IfOk result (λ rows. HasSome rows.items) }
    ensures full { IfOk result (λ rows. AreFull rows.items) }
{
    let mut rows: Vec<Block> = Vec::with_capacity(alloc, blocks.len())?;
    for block in blocks {
        join_row(&mut rows, block, alloc)?;
    }
    Ok(rows)
}
