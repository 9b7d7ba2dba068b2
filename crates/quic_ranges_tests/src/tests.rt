use quic_ranges::RangeSet;
use quic_values::OutOfMemory;
use std::alloc::Global;
use std::fmt::Debug;
use std::ops::Range;
use std::process::Abort;
use std::test::Fail;

// Both are the same, or the test fails and shows them.
fn same<T: PartialEq + Debug + Drop>(rt: &impl Abort, found: T, wanted: T) {
    assert_eq!(rt; found, wanted);
}

fn is_true(rt: &impl Abort, holds: bool) {
    assert!(rt; holds);
}

// The runs of a set, lowest first, after which the set is empty.
fn is_runs(rt: &impl Abort, set: &mut RangeSet, runs: &[Range<u64>]) {
    for run in runs {
        same(rt, set.min(), Some(run.start));
        same(rt, set.peek_min().as_ref(), Some(run));
        same(rt, set.pop_min().as_ref(), Some(run));
    }
    is_true(rt, set.is_empty());
    same(rt, set.pop_min(), None);
    same(rt, set.min(), None);
    same(rt, set.peek_min(), None);
}

// The call, with nothing of what it promises: a test looks at what it answers and leaves.
fn put(set: &mut RangeSet, run: Range<u64>) -> Result<bool, OutOfMemory> {
    set.insert(run)
}

fn set_of(alloc: Global, runs: &[Range<u64>]) -> Result<RangeSet, OutOfMemory> {
    let mut set = RangeSet::new(alloc);
    for run in runs {
        put(&mut set, run.start..run.end)?;
    }
    Ok(set)
}

#[test]
fn runs_that_touch_are_joined(rt: HostRuntime) -> Result<(), Fail> {
    let mut set = set_of(rt.alloc(), &[0..2, 8..10])?;
    is_true(&rt, put(&mut set, 2..4)?);
    is_true(&rt, put(&mut set, 6..8)?);
    is_true(&rt, !put(&mut set, 3..4)?);
    is_true(&rt, !put(&mut set, 5..5)?);
    let mut copy = set.try_clone()?;
    is_runs(&rt, &mut set, &[0..4, 6..10]);
    is_true(&rt, put(&mut copy, 4..6)?);
    is_runs(&rt, &mut copy, &[0..10]);
    Ok(())
}

#[test]
fn a_run_that_is_cut_keeps_both_ends(rt: HostRuntime) -> Result<(), Fail> {
    let mut set = set_of(rt.alloc(), &[0..10, 20..30])?;
    is_true(&rt, set.remove(3..5)?);
    is_true(&rt, set.remove(8..22)?);
    is_true(&rt, !set.remove(10..20)?);
    is_true(
        &rt,
        set.contains(2) && !set.contains(3) && !set.contains(4) && set.contains(5),
    );
    same(&rt, set.run_from(1), Some(1..3));
    same(&rt, set.run_from(3), Some(5..8));
    same(&rt, set.run_from(30), None);
    is_runs(&rt, &mut set, &[0..3, 5..8, 22..30]);
    Ok(())
}

fn insert(set: &mut RangeSet, start: u64) -> Result<bool, OutOfMemory> {
    put(set, start..start.saturating_add(3))
}

fn cut(set: &mut RangeSet, start: u64) -> Result<bool, OutOfMemory> {
    set.remove(start.saturating_add(1)..start.saturating_add(2))
}

// Where the run of an index begins. The runs of the indices below 65537, a prime, begin apart, and in no order.
fn start_of(index: u64) -> u64 {
    (index % 65_537).wrapping_mul(40_503) % 65_537 * 4
}

// Whether a set has exactly so many runs, each of so many numbers. It is then empty.
fn has_runs(set: &mut RangeSet, count: u64, len: u64) -> bool {
    for _ in 0..count {
        match set.pop_min() {
            Some(run) if run.end.wrapping_sub(run.start) == len => {}
            _ => return false,
        }
    }
    set.is_empty()
}

#[test]
fn no_number_of_runs_is_refused(rt: HostRuntime) -> Result<(), Fail> {
    let mut set = RangeSet::new(rt.alloc());
    let mut count = 0u64;
    for power in 0..17u32 {
        let middle = 1u64 << power;
        for wanted in [middle.saturating_sub(1), middle, middle.saturating_add(1)] {
            for index in count..wanted {
                is_true(&rt, insert(&mut set, start_of(index))?);
            }
            count = wanted.max(count);
            let mut copy = set.try_clone()?;
            assert!(rt;
                copy.contains(0) == (count > 0) && !copy.contains(3),
                "{count} runs"
            );
            same(&rt, cut(&mut copy, 0)?, count > 0);
        }
    }
    for index in 0..count {
        is_true(&rt, cut(&mut set, start_of(index))?);
    }
    is_true(&rt, has_runs(&mut set, 131_074, 1));
    Ok(())
}
