ghost use Rattle.std.specs.Prelude.{◌≡◌, ◌<◌, ℕ, ◌&&◌, not, false, nat_lt, IfSome, IfNone};
ghost use Rattle.quic_ranges.specs.Runs.{contains, IsRunOf};

use crate::runs::Runs;
use quic_values::OutOfMemory;
use std::alloc::Global;
use std::marker::Model;
use std::ops::Range;

/// A set of numbers. The lowest run is kept apart from the others, so that it takes no memory and no search.
#[derive(Drop)]
pub(crate) struct LowestApart<S: Runs> {
    // The lowest run. It has no numbers only where the set has none.
    lowest: Range<u64>,
    // The runs behind it, none of which touches it.
    others: S,
}

impl<S: Runs> Model for LowestApart<S> {
    ghost use Rattle.std.specs.Prelude.{List, ◌≡◌, ◌++◌, ◌<◌, ℕ, true};
    ghost use Rattle.quic_ranges.specs.Runs.{Run, contains};
    ghost use Rattle.quic_sending.specs.Outcomes.{run_of};

    ghost Value = { List Run };

    ghost view = { λ s. run_of s.lowest.start s.lowest.end ++ S.runs s.others };

    ghost invariant = { λ s. (n : ℕ) → contains (S.runs s.others) n ≡ true → (s.lowest.start < s.lowest.end) × (s.lowest.end < n) };
}

impl<S: Runs> Runs for LowestApart<S> {
    ghost runs = { λ s. s };

    fn empty(alloc: Global) -> Self {
        LowestApart {
            lowest: 0..0,
            others: S::empty(alloc),
        }
    }

    #[inline]
    fn add(&mut self, range: Range<u64>) -> Result<(), OutOfMemory> {
        let (start, end) = (self.lowest.start, self.lowest.end);
        if start >= end {
            self.lowest = range;
        } else if end < range.start {
            self.others.add(range)?;
        } else if range.end < start {
            self.others.add(start..end)?;
            self.lowest = range;
        } else {
            let end = self.others.join(range.end.max(end));
            self.lowest = range.start.min(start)..end;
        }
        Ok(())
    }

    #[inline]
    fn pop_lowest(&mut self) -> Option<Range<u64>> {
        let run = self.lowest.start..self.lowest.end;
        if run.start >= run.end {
            return None;
        }
        self.lowest = self.others.pop_lowest().unwrap_or(0..0);
        Some(run)
    }

    #[inline]
    fn join(&mut self, low: u64) -> u64 {
        let (start, end) = (self.lowest.start, self.lowest.end);
        if start >= end || start > low {
            return low;
        }
        let reached = self.others.join(low.max(end));
        self.lowest = self.others.pop_lowest().unwrap_or(0..0);
        reached
    }

    #[inline]
    fn from(&self, n: u64) -> Option<Range<u64>> {
        let (start, end) = (self.lowest.start, self.lowest.end);
        if start < end && n < end {
            return Some(n.max(start)..end);
        }
        self.others.from(n)
    }
}

impl<S: Runs> LowestApart<S> {
    /// The lowest run.
    #[inline]
    pub(crate) fn lowest(&self) -> Option<Range<u64>>
        ensures run { IfSome result (λ r. IsRunOf self.now r) }
        ensures lowest { IfSome result (λ r. (n : ℕ) → n < r.start → contains self.now n ≡ false) }
        ensures none { IfNone result ((n : ℕ) → contains self.now n ≡ false) }
    {
        let _ = &self.others;
        let (start, end) = (self.lowest.start, self.lowest.end);
        if start >= end {
            return None;
        }
        Some(start..end)
    }

    /// Takes the numbers below one out. Takes no memory.
    #[inline]
    pub(crate) fn remove_below(&mut self, end: u64)
        ensures { (n : ℕ) → contains self.new n ≡ (contains self.old n && not (nat_lt n end)) }
    {
        while self.lowest.start < self.lowest.end && self.lowest.end <= end {
            self.lowest = self.others.pop_lowest().unwrap_or(0..0);
        }
        self.lowest = self.lowest.start.max(end)..self.lowest.end;
    }
}
