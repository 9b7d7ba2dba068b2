ghost use Rattle.std.specs.Prelude.{◌≡◌, ◌+◌, ◌<◌, ◌≤◌, ℕ, [], ◌∷◌, ◌&&◌, ◌||◌, not, true, false, IfOk, OnOk, OnErr, List};
ghost use Rattle.quic_ranges.specs.Runs.{Run, contains, lies_in};
ghost use Rattle.quic_sending.specs.Ranges.{IsLowestRun};
ghost use Rattle.quic_sending.specs.Outcomes.{Answered, is_answered, minus, IsLowestOrNone};

use crate::lowest_apart::LowestApart;
use crate::recent_set::RecentSet;
use crate::runs::Runs;
use quic_ranges::RangeSet;
use quic_values::OutOfMemory;
use std::alloc::Global;
use std::marker::Model;
use std::ops::Range;

/// A set of offsets, the two lowest runs of which take no memory.
type LostSet = LowestApart<LowestApart<RangeSet>>;

/// What became of the offsets that were sent: which are acknowledged, and which are lost. Each call changes one set,
/// so that lack of memory changes nothing.
#[derive(Drop)]
pub(crate) struct Outcomes {
    // All offsets below this one are acknowledged, and this one is not.
    prefix: u64,
    // The acknowledged offsets above the prefix.
    later: RecentSet,
    // The offsets that were lost and not sent again, also such as were acknowledged since.
    called_lost: LostSet,
    // The lowest lost range, or an empty one.
    next_lost: Range<u64>,
}

impl Model for Outcomes {
    ghost use Rattle.std.specs.Prelude.{◌≡◌, ◌<◌, ℕ, ◌∷◌, true};
    ghost use Rattle.quic_ranges.specs.Runs.{contains};
    ghost use Rattle.quic_sending.specs.Outcomes.{Answered, minus, IsLowestOrNone};

    ghost Value = { Answered };

    ghost view = { λ s. record {
      prefix = s.prefix;
      later = s.later;
      lost = minus s.called_lost ((0, s.prefix) ∷ s.later);
    } };

    ghost invariant = { λ s. ((n : ℕ) → contains s.later n ≡ true → s.prefix < n) × IsLowestOrNone (minus s.called_lost ((0, s.prefix) ∷ s.later)) s.next_lost };
}

impl Outcomes {
    /// All offsets below one are acknowledged, and no others.
    pub(crate) fn up_to(alloc: Global, prefix: u64) -> Self
        ensures { result ≡ record { prefix = prefix; later = []; lost = [] } }
    {
        Outcomes {
            prefix,
            later: RecentSet::new(alloc),
            called_lost: LostSet::empty(alloc),
            next_lost: 0..0,
        }
    }

    /// The first offset that is not acknowledged.
    #[inline]
    pub(crate) fn prefix(&self) -> u64
        ensures { result ≡ self.now.prefix }
    {
        self.prefix
    }

    /// Whether no offset is acknowledged.
    #[inline]
    pub(crate) fn none_acked(&self) -> bool
        ensures none { result ≡ true → (n : ℕ) → is_answered self.now.prefix self.now.later n ≡ false }
        ensures some { result ≡ false → (n : ℕ) × (is_answered self.now.prefix self.now.later n ≡ true) }
    {
        self.prefix == 0 && self.later.is_empty()
    }

    /// The lowest lost range, or an empty one where nothing is lost.
    #[inline]
    pub(crate) fn next_lost(&self) -> Range<u64>
        ensures { IsLowestOrNone self.now.lost result }
    {
        self.next_lost.start..self.next_lost.end
    }

    /// The offsets of a range that are not acknowledged are lost.
    pub(crate) fn lose(&mut self, range: Range<u64>) -> Result<(), OutOfMemory>
        ensures lost { OnOk result ((n : ℕ) →
            contains self.new.lost n ≡ (contains self.old.lost n
            || (lies_in range n && not (is_answered self.old.prefix self.old.later n)))) }
        ensures same { self.new ≡ record self.old { lost = self.new.lost } }
        ensures err { OnErr result (self.new ≡ self.old) }
        ensures memory { OnErr result ((range.start < range.end) × (self.old.prefix < range.end)) }
    {
        let start = range.start.max(self.prefix);
        if start >= range.end {
            return Ok(());
        }
        self.called_lost.add(start..range.end)?;
        if self.next_lost.start < self.next_lost.end && self.next_lost.end < start {
            return Ok(());
        }
        self.next_lost = first_lost(&mut self.called_lost, &self.later, self.prefix);
        Ok(())
    }

    /// No offset is lost any more.
    pub(crate) fn lose_nothing(&mut self, alloc: Global)
        ensures { self.new ≡ record self.old { lost = [] } }
    {
        self.called_lost = LostSet::empty(alloc);
        self.next_lost = 0..0;
    }

    /// The front of the lowest lost range up to an offset is sent again. Takes no memory.
    #[inline]
    pub(crate) fn resend(&mut self, range: Range<u64>)
        requires front { (limit : ℕ) × IsLowestRun self.old.lost range.start limit × (range.end ≤ limit) }
        ensures lost { (n : ℕ) → contains self.new.lost n ≡ (contains self.old.lost n && not (lies_in range n)) }
        ensures same { self.new ≡ record self.old { lost = self.new.lost } }
    {
        self.called_lost.remove_below(range.end);
        if self.next_lost.start < range.end && range.end < self.next_lost.end {
            self.next_lost = range.end..self.next_lost.end;
            return;
        }
        self.next_lost = first_lost(&mut self.called_lost, &self.later, self.prefix);
    }

    /// The offsets of a range are acknowledged.
    pub(crate) fn ack(&mut self, range: Range<u64>) -> Result<(), OutOfMemory>
        ensures acked { OnOk result ((n : ℕ) →
            is_answered self.new.prefix self.new.later n ≡ (is_answered self.old.prefix self.old.later n || lies_in range n)) }
        ensures lost { OnOk result ((n : ℕ) → contains self.new.lost n ≡ (contains self.old.lost n && not (lies_in range n))) }
        ensures above { (n : ℕ) → contains self.new.later n ≡ true → self.new.prefix < n }
        ensures grows { self.old.prefix ≤ self.new.prefix }
        ensures err { OnErr result (self.new ≡ self.old) }
        ensures memory { OnErr result ((self.old.prefix < range.start) × (range.start < range.end)) }
    {
        let start = range.start.max(self.prefix);
        if start >= range.end {
            return Ok(());
        }
        self.prefix = acknowledge(&mut self.later, self.prefix, start..range.end)?;
        if self.next_lost.end <= start || range.end <= self.next_lost.start {
            return Ok(());
        }
        self.next_lost = first_lost(&mut self.called_lost, &self.later, self.prefix);
        Ok(())
    }
}

// The lowest range of offsets that were called lost and are not acknowledged, or an empty one. The runs before it are
// let go.
#[inline]
fn first_lost(called_lost: &mut LostSet, later: &RecentSet, prefix: u64) -> Range<u64>
    ensures same { (n : ℕ) →
        contains (minus called_lost.new ((0, prefix) ∷ later.now)) n
        ≡ contains (minus called_lost.old ((0, prefix) ∷ later.now)) n }
    ensures lowest { IsLowestOrNone (minus called_lost.new ((0, prefix) ∷ later.now)) result }
{
    while let Some(run) = called_lost.lowest() {
        let gap = later.first_gap(run.start.max(prefix)..run.end);
        if gap.start < gap.end {
            return gap;
        }
        called_lost.pop_lowest();
    }
    0..0
}

// The offsets of a range behind the acknowledged prefix are acknowledged. The answer is where the prefix then ends.
#[inline]
fn acknowledge(later: &mut RecentSet, prefix: u64, range: Range<u64>) -> Result<u64, OutOfMemory>
    requires above { (n : ℕ) → contains later.old n ≡ true → prefix < n }
    requires behind { prefix ≤ range.start }
    requires some { range.start < range.end }
    ensures acked { IfOk result (λ reached. (n : ℕ) →
        is_answered reached later.new n ≡ (is_answered prefix later.old n || lies_in range n)) }
    ensures above { IfOk result (λ reached. (n : ℕ) → contains later.new n ≡ true → reached < n) }
    ensures grows { IfOk result (λ reached. prefix ≤ reached) }
    ensures err { OnErr result (later.new ≡ later.old) }
    ensures memory { OnErr result (prefix < range.start) }
{
    if range.start > prefix {
        later.insert(range)?;
        return Ok(prefix);
    }
    Ok(later.join(range.end))
}
