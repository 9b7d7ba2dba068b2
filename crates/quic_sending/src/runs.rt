ghost use Rattle.std.specs.Prelude.{◌≡◌, ◌+◌, ◌<◌, ◌≤◌, ◌&&◌, ◌||◌, ℕ, List, [], not, true, false, length, IfSome, IfNone, OnOk, OnErr};
ghost use Rattle.quic_ranges.specs.Runs.{Run, contains, lies_in, IsRunOf};
ghost use Rattle.quic_sending.specs.Outcomes.{Joins};

use quic_ranges::RangeSet;
use quic_values::OutOfMemory;
use std::alloc::Global;
use std::ops::Range;

/// A set of numbers that is kept as runs, of which the lowest can be taken out.
pub(crate) trait Runs: Drop {
    // The runs of the set.
    ghost runs: { Self → List Run };

    /// The empty set. Takes no memory.
    fn empty(alloc: Global) -> Self
        ensures { runs result ≡ [] };

    /// Adds the numbers of a range that has some.
    fn add(&mut self, range: Range<u64>) -> Result<(), OutOfMemory>
        requires { range.start < range.end }
        ensures set { OnOk result ((n : ℕ) → contains (runs self.new) n ≡ (contains (runs self.old) n || lies_in range n)) }
        ensures err { OnErr result (runs self.new ≡ runs self.old) };

    /// Takes the lowest run out.
    fn pop_lowest(&mut self) -> Option<Range<u64>>
        ensures run { IfSome result (λ r. IsRunOf (runs self.old) r) }
        ensures lowest { IfSome result (λ r. (n : ℕ) → n < r.start → contains (runs self.old) n ≡ false) }
        ensures others { IfSome result (λ r. (n : ℕ) → contains (runs self.new) n ≡ (contains (runs self.old) n && not (lies_in r n))) }
        ensures none { IfNone result ((n : ℕ) → contains (runs self.old) n ≡ false) }
        ensures same { IfNone result (runs self.new ≡ runs self.old) }
        ensures fewer { IfSome result (λ _. length (runs self.old) ≡ length (runs self.new) + 1) };

    /// Takes out the runs that touch the numbers below one. The answer is up to where there are no gaps with them.
    fn join(&mut self, low: u64) -> u64
        ensures { Joins low result (runs self.old) (runs self.new) };

    /// The part from `n` on of the lowest run that holds `n` or lies above it.
    fn from(&self, n: u64) -> Option<Range<u64>>
        ensures run { IfSome result (λ r. IsRunOf (runs self.now) r) }
        ensures from { IfSome result (λ r. n ≤ r.start) }
        ensures lowest { IfSome result (λ r. (k : ℕ) → n ≤ k → k < r.start → contains (runs self.now) k ≡ false) }
        ensures none { IfNone result ((k : ℕ) → n ≤ k → contains (runs self.now) k ≡ false) };
}

impl Runs for RangeSet {
    ghost runs = { λ s. s };

    #[inline]
    fn empty(alloc: Global) -> Self {
        RangeSet::new(alloc)
    }

    #[inline]
    fn add(&mut self, range: Range<u64>) -> Result<(), OutOfMemory> {
        self.insert(range)?;
        Ok(())
    }

    #[inline]
    fn pop_lowest(&mut self) -> Option<Range<u64>> {
        self.pop_min()
    }

    #[inline]
    fn join(&mut self, low: u64) -> u64 {
        let mut reached = 0;
        while let Some(start) = self.min() {
            if start > low.max(reached) {
                break;
            }
            let Some(run) = self.pop_min() else {
                break;
            };
            reached = run.end;
        }
        low.max(reached)
    }

    #[inline]
    fn from(&self, n: u64) -> Option<Range<u64>> {
        if self.is_empty() {
            return None;
        }
        self.run_from(n)
    }
}
