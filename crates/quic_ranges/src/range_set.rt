ghost use Rattle.std.specs.Prelude.{List, ◌≡◌, ◌+◌, ◌<◌, ◌≤◌, ◌↔◌, ℕ, [], IsTrue, IfSome, IfNone, IsSome, IsSomeAnd, ◌-◌, OnOk, OnErr, IfOk, None, Some, ◌||◌, ◌&&◌, not, true, false, MatchOption, length, slice_index_or};
ghost use Rattle.std.specs.BTreeMap.{insert_entry};
ghost use Rattle.std.specs.Ordering.{nat_cmp};
ghost use Rattle.block_map.specs.Sorted.{KeysRise, IsLastUpTo, IsFirstFrom};
ghost use Rattle.block_map.specs.Rows.{place_among, IsPlace};
ghost use Rattle.quic_ranges.specs.Runs.{Run, contains, is_in, lies_in, without, AreRuns, IsRunOf, EndBefore, EndBy, IsLast, NoneBegins, EndUpTo, with_right, with_left, end_at};

use block_map::{BlockMap, Place};
use quic_values::OutOfMemory;
use std::alloc::Global;
use std::marker::Model;
use std::ops::Range;

/// A set of numbers, kept as ranges.
#[derive(Drop)]
pub struct RangeSet {
    // The start and the end of each range. No two ranges overlap or touch.
    runs: BlockMap,
}

impl Model for RangeSet {
    ghost use Rattle.std.specs.Prelude.{List};
    ghost use Rattle.quic_ranges.specs.Runs.{Run, AreRuns};

    ghost Value = { List Run };

    ghost view = { λ s. s.runs.items };

    ghost invariant = { λ s. AreRuns 0 s.runs.items };
}

// The last run that begins at `n` or before.
fn last_up_to(runs: &BlockMap, n: u64) -> Option<(u64, u64)>
    ensures found { IfSome result (λ r. IsLast runs.now.items r.0 r.1 n) }
    ensures none { IfNone result (NoneBegins runs.now.items 0 n) }
{
    match runs.find(n) {
        Some(place) => Some(runs.entry(place)),
        None => None,
    }
}

// Removes the runs that begin between two numbers, both included. `last` begins up to the second, and none behind it does.
fn clear_runs(runs: &mut BlockMap, last: u64, from: u64, to: u64)
    requires up_to { last ≤ to }
    requires last { NoneBegins runs.now.items (last + 1) to }
    ensures { runs.new.items ≡ without runs.old.items from to }
{
    if from <= last {
        runs.remove_keys(from, to);
    }
}

// Where the run begins that a run from `n` on is joined to: `n` itself, where no run reaches it. And the place of the first
// run that begins from there on.
#[inline(always)]
fn start_of(runs: &BlockMap, n: u64) -> Option<(u64, Place)>
    requires { AreRuns 0 runs.now.items }
    ensures up_to { IfSome result (λ r. r.0 ≤ n) }
    ensures before { IfSome result (λ r. EndBefore runs.now.items r.0) }
    ensures covered { IfSome result (λ r. (k : ℕ) → r.0 ≤ k → k < n → contains runs.now.items k ≡ true) }
    ensures place { IfSome result (λ r. IsPlace runs.now.rows r.1.block r.1.index) }
    ensures first { IfSome result (λ r. IsFirstFrom runs.now.items r.0 (place_among runs.now.rows r.1.block r.1.index)) }
    ensures none { IfNone result ((k : ℕ) (d : Run) → k < length runs.now.items → (slice_index_or runs.now.items k d).0 < n) }
{
    let Some(place) = runs.find(n) else {
        let first = runs.first_place()?;
        return Some((n, first));
    };
    let (start, end) = runs.entry(place);
    if n <= end {
        return Some((start, place));
    }
    let next = runs.next(place)?;
    Some((n, next))
}

// Where the run ends that a run up to `n` is joined to: `n` itself, where no run reaches beyond it. At the place is the last
// run that begins up to `n`.
#[inline(always)]
fn end_of(runs: &BlockMap, last: Place, n: u64) -> u64
    requires runs { AreRuns 0 runs.now.items }
    requires rises { KeysRise runs.now.items }
    requires place { IsPlace runs.now.rows last.block last.index }
    requires last { IsLastUpTo runs.now.items n (place_among runs.now.rows last.block last.index) }
    ensures from { n ≤ result }
    ensures ends { EndBy runs.now.items result }
    ensures covered { (k : ℕ) → n ≤ k → k < result → contains runs.now.items k ≡ true }
    ensures last { IsLastUpTo runs.now.items result (place_among runs.now.rows last.block last.index) }
{
    let (start, end) = runs.entry(last);
    if n < end { end } else { n }
}

// Puts a run over those that begin from its start up to its end, which there are.
fn put_over(runs: &mut BlockMap, first: Place, last: Place, start: u64, end: u64)
    requires rises { KeysRise runs.old.items }
    requires front { IsPlace runs.old.rows first.block first.index }
    requires back { IsPlace runs.old.rows last.block last.index }
    requires first { IsFirstFrom runs.old.items start (place_among runs.old.rows first.block first.index) }
    requires last { IsLastUpTo runs.old.items end (place_among runs.old.rows last.block last.index) }
    requires order { place_among runs.old.rows first.block first.index ≤ place_among runs.old.rows last.block last.index }
    ensures { runs.new.items ≡ without (insert_entry nat_cmp runs.old.items start end) (start + 1) end }
{
    let low = runs.entry(first).0;
    let high = runs.entry(last).0;
    runs.set(first, start, end);
    if low < high {
        if let Some(next) = runs.next(first) {
            runs.remove_run(next, last);
        }
    }
}

// Adds the numbers of a range. At the place is the last run that begins up to its end, and that begins behind its start.
fn put_among(runs: &mut BlockMap, range: Range<u64>, last: Place)
    requires some { range.start < range.end }
    requires runs { AreRuns 0 runs.old.items }
    requires rises { KeysRise runs.old.items }
    requires place { IsPlace runs.old.rows last.block last.index }
    requires last { IsLastUpTo runs.old.items range.end (place_among runs.old.rows last.block last.index) }
    requires behind { (d : Run) → range.start < (slice_index_or runs.old.items (place_among runs.old.rows last.block last.index) d).0 }
    ensures runs { AreRuns 0 runs.new.items }
    ensures set { (n : ℕ) → contains runs.new.items n ≡ (contains runs.old.items n || lies_in range n) }
{
    let end = end_of(runs, last, range.end);
    let Some((start, first)) = start_of(runs, range.start) else {
        return;
    };
    put_over(runs, first, last, start, end);
}

// The run behind the last one that begins up to `n`, and that ends by then.
fn next_run(runs: &BlockMap, place: Place, n: u64) -> Option<Range<u64>>
    requires rises { KeysRise runs.now.items }
    requires place { IsPlace runs.now.rows place.block place.index }
    requires last { IsLastUpTo runs.now.items n (place_among runs.now.rows place.block place.index) }
    requires before { (d : Run) → (slice_index_or runs.now.items (place_among runs.now.rows place.block place.index) d).0 < n }
    ensures found { IfSome result (λ r. end_at runs.now.items r.start ≡ Some r.end) }
    ensures from { IfSome result (λ r. n ≤ r.start) }
    ensures first { IfSome result (λ r. (k : ℕ) → k < r.start → NoneBegins runs.now.items n k) }
    ensures none { IfNone result ((k : ℕ) → NoneBegins runs.now.items n k) }
{
    let next = runs.next(place)?;
    let (start, end) = runs.entry(next);
    Some(start..end)
}

// The first run, which begins behind `n`.
fn first_run(runs: &BlockMap, n: u64) -> Option<Range<u64>>
    requires rises { KeysRise runs.now.items }
    requires above { (k : ℕ) (d : Run) → k < length runs.now.items → n < (slice_index_or runs.now.items k d).0 }
    ensures found { IfSome result (λ r. end_at runs.now.items r.start ≡ Some r.end) }
    ensures from { IfSome result (λ r. n ≤ r.start) }
    ensures first { IfSome result (λ r. (k : ℕ) → k < r.start → NoneBegins runs.now.items n k) }
    ensures none { IfNone result ((k : ℕ) → NoneBegins runs.now.items n k) }
{
    let first = runs.first_place()?;
    let (start, end) = runs.entry(first);
    Some(start..end)
}

// The beginning of the run that begins before `n` and goes on behind it.
fn start_over(runs: &BlockMap, n: u64) -> Option<u64>
    requires { AreRuns 0 runs.now.items }
    ensures found { IfSome result (λ s. (e : ℕ) × (end_at runs.now.items s ≡ Some e) × (s < n) × (n < e)) }
    ensures none { IfNone result (EndUpTo runs.now.items n) }
{
    match last_up_to(runs, n) {
        Some((start, end)) if start < n && n < end => Some(start),
        _ => None,
    }
}

// The beginning of the run that begins before `n` and goes on behind it. `last` begins the run that reaches `end`, behind `n`.
fn left_over(runs: &BlockMap, last: u64, end: u64, n: u64) -> Option<u64>
    requires runs { AreRuns 0 runs.now.items }
    requires found { end_at runs.now.items last ≡ Some end }
    requires behind { n < end }
    ensures found { IfSome result (λ s. (e : ℕ) × (end_at runs.now.items s ≡ Some e) × (s < n) × (n < e)) }
    ensures up_to { IfSome result (λ s. s ≤ last) }
    ensures none { IfNone result (EndUpTo runs.now.items n) }
{
    if n < last {
        start_over(runs, n)
    } else if last < n {
        Some(last)
    } else {
        None
    }
}

// Adds a run, unless it is empty.
fn keep_right(runs: &mut BlockMap, start: u64, end: u64) -> Result<(), OutOfMemory>
    ensures ok { OnOk result (runs.new.items ≡ with_right runs.old.items start end) }
    ensures err { OnErr result (runs.new.items ≡ runs.old.items) }
    ensures before { OnOk result ((q : ℕ) → q < start → end_at runs.new.items q ≡ end_at runs.old.items q) }
{
    if start < end {
        runs.reserve()?;
        runs.insert(start, end);
    }
    Ok(())
}

// Sets the end of a run.
fn keep_left(runs: &mut BlockMap, start: Option<u64>, end: u64)
    requires { IfSome start (λ s. IsSome (end_at runs.old.items s)) }
    ensures ok { runs.new.items ≡ with_left runs.old.items start end }
    ensures others { (q : ℕ) → IfSome start (λ s. s < q) → end_at runs.new.items q ≡ end_at runs.old.items q }
{
    if let Some(start) = start {
        if let Some(place) = runs.place_of(start) {
            runs.set_value(place, end);
        }
    }
}

impl RangeSet {
    /// The empty set.
    pub fn new(alloc: Global) -> Self
        ensures { result ≡ [] }
    {
        RangeSet {
            runs: BlockMap::new(alloc),
        }
    }

    /// An equal set.
    pub fn try_clone(&self) -> Result<Self, OutOfMemory>
        ensures { IfOk result (λ copy. copy ≡ self.now) }
    {
        Ok(RangeSet {
            runs: self.runs.try_clone()?,
        })
    }

    /// Whether a number is in the set.
    pub fn contains(&self, number: u64) -> bool
        ensures { result ≡ contains self.now number }
    {
        match last_up_to(&self.runs, number) {
            Some((_, end)) => number < end,
            None => false,
        }
    }

    /// Adds the numbers of a range. Answers whether the set changed.
    pub fn insert(&mut self, range: Range<u64>) -> Result<bool, OutOfMemory>
        ensures set { OnOk result ((n : ℕ) → contains self.new n ≡ (contains self.old n || lies_in range n)) }
        ensures changed { IfOk result (λ changed. IsTrue changed → (n : ℕ) × (lies_in range n ≡ true) × (contains self.old n ≡ false)) }
        ensures same { IfOk result (λ changed. changed ≡ false → self.new ≡ self.old) }
        ensures err { OnErr result (self.new ≡ self.old) }
    {
        if range.start >= range.end {
            return Ok(false);
        }
        let Some(place) = self.runs.find(range.end) else {
            self.runs.reserve()?;
            self.runs.put_first(range.start, range.end);
            return Ok(true);
        };
        let (start, end) = self.runs.entry(place);
        if range.start < start {
            put_among(&mut self.runs, range, place);
            return Ok(true);
        }
        if end < range.start {
            self.runs.reserve()?;
            self.runs.put_behind(place, range.start, range.end);
            return Ok(true);
        }
        if range.end <= end {
            return Ok(false);
        }
        self.runs.set_value(place, range.end);
        Ok(true)
    }

    /// Takes the numbers of a range out. Answers whether the set changed.
    pub fn remove(&mut self, range: Range<u64>) -> Result<bool, OutOfMemory>
        ensures set { OnOk result ((n : ℕ) → contains self.new n ≡ (contains self.old n && not (lies_in range n))) }
        ensures changed { IfOk result (λ changed. IsTrue changed → (n : ℕ) × (lies_in range n ≡ true) × (contains self.old n ≡ true)) }
        ensures same { IfOk result (λ changed. changed ≡ false → self.new ≡ self.old) }
        ensures err { OnErr result (self.new ≡ self.old) }
    {
        if range.start >= range.end {
            return Ok(false);
        }
        let Some((last, end)) = last_up_to(&self.runs, range.end - 1) else {
            return Ok(false);
        };
        if end <= range.start {
            return Ok(false);
        }
        let left = left_over(&self.runs, last, end, range.start);
        keep_right(&mut self.runs, range.end, end)?;
        keep_left(&mut self.runs, left, range.start);
        clear_runs(&mut self.runs, last, range.start, range.end - 1);
        Ok(true)
    }

    pub fn is_empty(&self) -> bool
        ensures { IsTrue result ↔ ((n : ℕ) → contains self.now n ≡ false) }
    {
        self.runs.is_empty()
    }

    /// The lowest number.
    pub fn min(&self) -> Option<u64>
        ensures found { IfSome result (λ m. contains self.now m ≡ true) }
        ensures lowest { IfSome result (λ m. (n : ℕ) → n < m → contains self.now n ≡ false) }
        ensures none { IfNone result ((n : ℕ) → contains self.now n ≡ false) }
    {
        match self.runs.first() {
            Some((start, _)) => Some(start),
            None => None,
        }
    }

    /// The lowest run.
    pub fn peek_min(&self) -> Option<Range<u64>>
        ensures run { IfSome result (λ r. IsRunOf self.now r) }
        ensures lowest { IfSome result (λ r. (n : ℕ) → n < r.start → contains self.now n ≡ false) }
        ensures none { IfNone result ((n : ℕ) → contains self.now n ≡ false) }
    {
        match self.runs.first() {
            Some((start, end)) => Some(start..end),
            None => None,
        }
    }

    /// Takes the lowest run out.
    pub fn pop_min(&mut self) -> Option<Range<u64>>
        ensures run { IfSome result (λ r. IsRunOf self.old r) }
        ensures lowest { IfSome result (λ r. (n : ℕ) → n < r.start → contains self.old n ≡ false) }
        ensures others { IfSome result (λ r. (n : ℕ) → contains self.new n ≡ (contains self.old n && not (lies_in r n))) }
        ensures none { IfNone result ((n : ℕ) → contains self.old n ≡ false) }
        ensures same { IfNone result (self.new ≡ self.old) }
        ensures fewer { IfSome result (λ _. length self.old ≡ length self.new + 1) }
    {
        let (start, end) = self.runs.pop_first()?;
        Some(start..end)
    }

    /// The part from `n` on of the lowest run that holds `n` or lies above it.
    pub fn run_from(&self, n: u64) -> Option<Range<u64>>
        ensures run { IfSome result (λ r. IsRunOf self.now r) }
        ensures from { IfSome result (λ r. n ≤ r.start) }
        ensures lowest { IfSome result (λ r. (k : ℕ) → n ≤ k → k < r.start → contains self.now k ≡ false) }
        ensures none { IfNone result ((k : ℕ) → n ≤ k → contains self.now k ≡ false) }
    {
        let Some(place) = self.runs.find(n) else {
            return first_run(&self.runs, n);
        };
        let (_, end) = self.runs.entry(place);
        if n < end {
            return Some(n..end);
        }
        next_run(&self.runs, place, n)
    }
}

/// Two sets of the same numbers are equal.
pub fn same_set()
    ensures { (a b : List Run) → AreRuns 0 a → AreRuns 0 b → ((n : ℕ) → contains a n ≡ contains b n) → a ≡ b }
{}
