ghost use Rattle.std.specs.Prelude.{◌≡◌, ◌≤◌, ◌<◌, ◌++◌, ◌||◌, ℕ, [], true, false, OnOk, OnErr};
ghost use Rattle.quic_ranges.specs.Runs.{contains, lies_in, range_of};
ghost use Rattle.quic_sending.specs.Outcomes.{IsGap, Joins};

use crate::lowest_apart::LowestApart;
use crate::runs::Runs;
use quic_ranges::RangeSet;
use quic_values::OutOfMemory;
use std::alloc::Global;
use std::marker::Model;
use std::ops::Range;

/// A set of numbers. The run that grew last is kept apart from the others, so that it takes no time to find and no
/// memory to make it longer.
#[derive(Drop)]
pub(crate) struct RecentSet {
    // The run that grew last. It may touch others. It has no numbers only where the set has none.
    recent: Range<u64>,
    others: LowestApart<RangeSet>,
}

impl Model for RecentSet {
    ghost use Rattle.std.specs.Prelude.{List, ◌++◌, ◌≤◌};
    ghost use Rattle.quic_sending.specs.Ranges.{IsNothing};
    ghost use Rattle.quic_ranges.specs.Runs.{Run};
    ghost use Rattle.quic_sending.specs.Outcomes.{run_of};

    ghost Value = { List Run };

    ghost view = { λ s. run_of s.recent.start s.recent.end ++ s.others };

    ghost invariant = { λ s. s.recent.end ≤ s.recent.start → IsNothing s.others };
}

impl RecentSet {
    /// The empty set.
    pub(crate) fn new(alloc: Global) -> Self
        ensures { result ≡ [] }
    {
        RecentSet {
            recent: 0..0,
            others: LowestApart::empty(alloc),
        }
    }

    /// Whether the set has no numbers.
    #[inline]
    pub(crate) fn is_empty(&self) -> bool
        ensures none { result ≡ true → (n : ℕ) → contains self.now n ≡ false }
        ensures some { result ≡ false → (n : ℕ) × (contains self.now n ≡ true) }
    {
        let _ = &self.others;
        self.recent.start >= self.recent.end
    }

    /// Adds the numbers of a range that has some.
    #[inline]
    pub(crate) fn insert(&mut self, range: Range<u64>) -> Result<(), OutOfMemory>
        requires { range.start < range.end }
        ensures set { OnOk result ((n : ℕ) → contains self.new n ≡ (contains self.old n || lies_in range n)) }
        ensures err { OnErr result (self.new ≡ self.old) }
    {
        let (start, end) = (self.recent.start, self.recent.end);
        if start < end {
            if range.start <= end && start <= range.end {
                self.recent = range.start.min(start)..range.end.max(end);
                return Ok(());
            }
            self.others.add(start..end)?;
        }
        self.recent = range;
        Ok(())
    }

    /// Takes out the runs that touch the numbers below one. The answer is up to where there are no gaps with them.
    #[inline]
    pub(crate) fn join(&mut self, low: u64) -> u64
        ensures { Joins low result self.old self.new }
    {
        let (start, end) = (self.recent.start, self.recent.end);
        if start >= end {
            return low;
        }
        let reached = self.others.join(low);
        if start > reached {
            return reached;
        }
        let reached = self.others.join(reached.max(end));
        self.recent = self.others.pop_lowest().unwrap_or(0..0);
        reached
    }

    /// The lowest part of a range that is not in the set, or an empty range.
    pub(crate) fn first_gap(&self, range: Range<u64>) -> Range<u64>
        ensures { IsGap self.now range result }
    {
        let (start, end) = (self.recent.start, self.recent.end);
        let gap = gap_of(&self.others, range.start, range.end);
        if start <= gap.start && gap.start < end {
            return gap_of(&self.others, end, range.end);
        }
        if gap.start < start && start < end {
            return gap.start..gap.end.min(start);
        }
        gap
    }
}

// The lowest part of a range that is not in a set, or an empty range.
fn gap_of(set: &LowestApart<RangeSet>, start: u64, end: u64) -> Range<u64>
    ensures { IsGap set.now (range_of (start, end)) result }
{
    let mut at = start;
    let mut next = set.from(at);
    if let Some(run) = &next
        && run.start == at
    {
        at = run.end;
        next = set.from(at);
    }
    match next {
        Some(run) => at..run.start.min(end),
        None => at..end,
    }
}
