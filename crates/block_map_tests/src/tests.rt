//! A map in blocks beside std's tree: each call has to answer what the tree does.
ghost use Rattle.std.specs.Prelude.{◌<◌, IfSome};
ghost use Rattle.block_map.specs.Rows.{IsPlace};

use block_map::{BlockMap, Place};
use std::alloc::{AllocError, Global};
use std::collections::BTreeMap;
use std::fmt::Debug;
use std::process::Abort;
use std::test::Fail;

// Both are the same, or the test fails and shows them.
fn same<T: PartialEq + Debug + Drop>(rt: &impl Abort, found: T, wanted: T) {
    assert_eq!(rt; found, wanted);
}

fn is_true(rt: &impl Abort, holds: bool) {
    assert!(rt; holds);
}

// Numbers that are drawn, always the same.
#[derive(Drop)]
struct Drawn {
    state: u64,
}

impl Drawn {
    fn below(&mut self, bound: u64) -> u64
        requires { 0 < bound }
        ensures { result < bound }
    {
        self.state = self
            .state
            .wrapping_mul(6364136223846793005)
            .wrapping_add(1442695040888963407);
        (self.state >> 33) % bound
    }
}

fn put(map: &mut BlockMap, key: u64, value: u64) -> Result<Option<u64>, AllocError> {
    if map.reserve().is_err() {
        map.reserve()?;
    }
    Ok(map.insert(key, value))
}

fn pair(entry: Option<(&u64, &u64)>) -> Option<(u64, u64)> {
    match entry {
        Some((key, value)) => Some((*key, *value)),
        None => None,
    }
}

fn at(map: &BlockMap, place: Option<Place>) -> Option<(u64, u64)>
    requires { IfSome place (λ p. IsPlace map.now.rows p.block p.index) }
{
    match place {
        Some(place) => Some(map.entry(place)),
        None => None,
    }
}

// The entries of both, one behind another.
fn are_same(rt: &impl Abort, map: &BlockMap, tree: &BTreeMap<u64, u64>) {
    same(rt, map.len(), tree.len());
    same(rt, map.is_empty(), tree.is_empty());
    same(rt, map.first(), pair(tree.first_key_value()));
    same(rt, map.last(), pair(tree.last_key_value()));
    let mut place = map.first_place();
    for (key, value) in tree {
        let Some(here) = place else {
            return is_true(rt, false);
        };
        same(rt, map.entry(here), (*key, *value));
        place = map.next(here);
    }
    is_true(rt, place.is_none());
}

// The same searches in both.
fn search(rt: &impl Abort, map: &BlockMap, tree: &BTreeMap<u64, u64>, key: u64) {
    same(rt, map.get(key), tree.get(&key).copied());
    same(
        rt,
        at(map, map.find(key)),
        pair(tree.range(..=key).next_back()),
    );
    same(
        rt,
        at(map, map.find_from(key)),
        pair(tree.range(key..).next()),
    );
}

#[test]
fn drawn_calls_are_answered_as_by_a_tree(rt: HostRuntime) -> Result<(), Fail> {
    let mut drawn = Drawn { state: 1 };
    for span in [20u64, 300, 5000, 100_000] {
        let mut map = BlockMap::new(rt.alloc());
        let mut tree = BTreeMap::new(rt.alloc());
        for step in 0..4000u32 {
            let key = drawn.below(span);
            match drawn.below(8) {
                0..=3 => same(
                    &rt,
                    put(&mut map, key, u64::from(step))?,
                    tree.insert(key, u64::from(step))?,
                ),
                4 => same(&rt, map.remove(key), tree.remove(&key)),
                5 => same(&rt, map.pop_first(), tree.pop_first()),
                6 if step % 64 == 0 => map.refill()?,
                _ => search(&rt, &map, &tree, key),
            }
            if step % 256 == 0 {
                are_same(&rt, &map, &tree);
            }
        }
        are_same(&rt, &map, &tree);
        let copy = map.try_clone()?;
        are_same(&rt, &copy, &tree);
        map.clear();
        tree.clear();
        are_same(&rt, &map, &tree);
    }
    Ok(())
}

// A map and a tree of the keys below a number.
fn filled(alloc: Global, count: u64) -> Result<(BlockMap, BTreeMap<u64, u64>), AllocError> {
    let mut map = BlockMap::new(alloc);
    let mut tree = BTreeMap::new(alloc);
    for key in 0..count {
        put(&mut map, key, !key)?;
        tree.insert(key, !key)?;
    }
    Ok((map, tree))
}

// Takes out of both what has keys up to a number, and what has keys from another on.
fn cut(map: &mut BlockMap, tree: &mut BTreeMap<u64, u64>, low: u64, high: u64) {
    if let Some(first) = map.first_place()
        && let Some(last) = map.find(low)
    {
        map.remove_run(first, last);
    }
    if let Some(first) = map.find_from(high)
        && let Some(last) = map.last_place()
    {
        map.remove_run(first, last);
    }
    tree.retain(|key, _| low < *key && *key < high);
}

#[test]
fn runs_are_taken_out(rt: HostRuntime) -> Result<(), Fail> {
    let (mut map, mut tree) = filled(rt.alloc(), 1000)?;
    for (low, high) in [(0u64, 999u64), (62, 940), (63, 939), (300, 301)] {
        cut(&mut map, &mut tree, low, high);
        are_same(&rt, &map, &tree);
    }
    is_true(&rt, map.is_empty());
    Ok(())
}

#[test]
fn values_are_set_where_they_stand(rt: HostRuntime) -> Result<(), Fail> {
    let (mut map, mut tree) = filled(rt.alloc(), 200)?;
    for key in [0u64, 63, 64, 199, 200] {
        if let Some(place) = map.find(key) {
            map.set_value(place, key);
            if let Some((_, value)) = tree.range_mut(..=key).next_back() {
                *value = key;
            }
        }
        are_same(&rt, &map, &tree);
    }
    Ok(())
}

// Puts one entry in the place of those with keys from one up to another, as pieces that are joined are one.
fn join(map: &mut BlockMap, low: u64, high: u64) -> Result<(), AllocError> {
    map.remove_keys(low, high);
    put(map, low, high)?;
    Ok(())
}

// How many rows there are before the last one, or 0.
fn rows_before(map: &BlockMap) -> usize {
    match map.last_place() {
        Some(place) => place.block,
        None => 0,
    }
}

#[test]
fn rows_with_few_entries_are_joined(rt: HostRuntime) -> Result<(), Fail> {
    // So many neighbours become one, 128 times, and the next ones lie so many such runs behind.
    for (size, step) in [(64u64, 1u64), (64, 127), (48, 77), (100, 1), (100, 127)] {
        let mut map = BlockMap::new(rt.alloc());
        let mut tree = BTreeMap::new(rt.alloc());
        for key in 0..size * 128 {
            put(&mut map, key, 0)?;
        }
        for turn in 0..128u64 {
            let low = size * (turn * step % 128);
            join(&mut map, low, low + size - 1)?;
            tree.insert(low, low + size - 1)?;
        }
        are_same(&rt, &map, &tree);
        is_true(&rt, rows_before(&map) <= 128 / 8);
    }
    Ok(())
}

#[test]
fn rows_are_joined_as_entries_go_one_by_one(rt: HostRuntime) -> Result<(), Fail> {
    for (size, step) in [(64u64, 1u64), (64, 4095), (50, 1), (50, 2731)] {
        let (mut map, mut tree) = filled(rt.alloc(), 4096)?;
        for turn in 0..4096u64 {
            let key = turn * step % 4096;
            if key % size != 0 {
                map.remove(key);
            }
        }
        tree.retain(|key, _| *key % size == 0);
        are_same(&rt, &map, &tree);
        is_true(&rt, rows_before(&map) <= 4096 / 64 / 8);
    }
    Ok(())
}

#[test]
fn full_rows_share_with_their_neighbours(rt: HostRuntime) -> Result<(), Fail> {
    // Each tenth entry comes at the end. If each full row were split, there would be 450 rows.
    for step in [1u64, 1009] {
        let mut map = BlockMap::new(rt.alloc());
        let mut tree = BTreeMap::new(rt.alloc());
        for key in 0..16_000u64 {
            if key % 10 != 0 {
                put(&mut map, key, key)?;
                tree.insert(key, key)?;
            }
        }
        for turn in 0..1600u64 {
            let key = turn * step % 1600 * 10;
            put(&mut map, key, key)?;
            tree.insert(key, key)?;
        }
        are_same(&rt, &map, &tree);
        is_true(&rt, rows_before(&map) <= 350);
    }
    Ok(())
}
