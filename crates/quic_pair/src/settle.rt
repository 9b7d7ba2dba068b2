//! A network that is fair from now on completes what was begun.

ghost use Rattle.std.specs.Prelude.{◌≡◌, is_some, true, ◌⊎◌, ◌≤◌, ◌<◌, IfSome, IfNone, IfErr, None, Err, OnOk, OnErr, List, [], ◌∷◌, length, vec_len, vec_capacity, ◌++◌};
ghost use Rattle.quic_pair.specs.Shown.{pair_view};
ghost use Rattle.quic_exchange.specs.Steps.{NextTaken};
ghost use Rattle.quic_exchange.specs.Runs.{TakesSteps, StepsBy, StepByStep, StaysIfRefused, NetworkOf};
ghost use Rattle.quic_exchange.specs.Promises.{EachIsPromised, HoldsOf, Completes};
ghost use Rattle.quic_exchange.specs.History.{History};
ghost use Rattle.quic_exchange.specs.From.{Beginning, PairFrom};
ghost use Rattle.quic_exchange.specs.Settling.{AreSettledIn, IsSoughtFor, IsSettledAt, is_quiet_at, IsSettling, IsCutOff, IsOutOfMemory, IsUndecided, TakesPhaseOrNone};

use crate::pair::Pair;
use quic_exchange::phase::{Phase, behind_reports, going_of};
use quic_exchange::unsettled::is_quiet;
use quic_steps::{PairError, Reply, Step};
use quic_values::OutOfMemory;

/// A step that was taken, with its reply.
pub type StepTaken = (Step, Result<Reply, PairError>);

#[tactic(auto, unfolding(crate::specs::Shown::pair_view))]
impl Pair {
    /// Takes the steps of a network that is fair from now on, with two applications that accept, read and poll all that
    /// comes, until neither end has something to send and every payload is settled. They accept and read at first, and then
    /// only behind two payloads of which one had a STREAM or a RESET_STREAM frame. Answers these steps with their
    /// replies. Then all that was written on streams that were not given up arrived, and was read unless it was stopped;
    /// and of each of them that was finished its writer was told `Finished`.
    /// Where memory runs out, in a step or for the list, no more steps are taken, and an error stands beside those
    /// that were. While it is not decided whether the server takes what the client sends early, none is taken, and the
    /// error is [`PairError::Undecided`].
    pub fn settle(&mut self) -> (Vec<StepTaken>, Result<(), PairError>)
        ensures next { TakesSteps (pair_view self.old) result.0.items (pair_view self.new) }
        ensures promises { (s : Beginning) (h : History) → PairFrom s h (pair_view self.old) → StepByStep (EachIsPromised s h) (pair_view self.old) result.0.items (pair_view self.new) }
        ensures behind { (s : Beginning) (h : History) → PairFrom s h (pair_view self.old) → HoldsOf s (h ++ result.0.items) (pair_view self.new) }
        ensures unchanged { StepByStep StaysIfRefused (pair_view self.old) result.0.items (pair_view self.new) }
        ensures network { StepByStep NetworkOf (pair_view self.old) result.0.items (pair_view self.new) }
        ensures order { OnOk result.1 (IsSettling (pair_view self.old) result.0.items (pair_view self.new)) }
        ensures cut_off { result.1 ≡ Err PairError.OutOfMemory → IsCutOff (pair_view self.old) result.0.items (pair_view self.new) }
        ensures memory { result.1 ≡ Err PairError.OutOfMemory → IsOutOfMemory result.0.items (vec_capacity result.0) }
        ensures waiting { is_some (pair_view self.old).waits ≡ true → result.1 ≡ Err PairError.Undecided }
        ensures undecided { result.1 ≡ Err PairError.Undecided → IsUndecided (pair_view self.old) result.0.items (pair_view self.new) }
        ensures decided { OnOk result.1 ((pair_view self.old).waits ≡ None) }
        ensures only { IfErr result.1 (λ e. (e ≡ PairError.OutOfMemory) ⊎ (e ≡ PairError.Undecided)) }
        ensures completes { OnOk result.1 ((s : Beginning) (h : History) → PairFrom s h (pair_view self.old) → Completes s (h ++ result.0.items) (pair_view self.new)) }
    {
        let mut taken = Vec::new(self.ends.alloc);
        if self.ends.waits.is_some() {
            return (taken, Err(PairError::Undecided));
        }
        match self.settle_into(&mut taken) {
            Ok(()) => (taken, Ok(())),
            Err(_) => (taken, Err(PairError::OutOfMemory)),
        }
    }

    fn settle_into(&mut self, taken: &mut Vec<StepTaken>) -> Result<(), OutOfMemory>
        requires none { taken.old.items ≡ [] }
        requires decided { (pair_view self.old).waits ≡ None }
        ensures next { StepsBy NextTaken (λ before between step reply after. Unit {0}) (pair_view self.old) taken.new.items (pair_view self.new) }
        ensures order { OnOk result (IsSettling (pair_view self.old) taken.new.items (pair_view self.new)) }
        ensures cut_off { OnErr result (IsCutOff (pair_view self.old) taken.new.items (pair_view self.new)) }
        ensures memory { OnErr result (IsOutOfMemory taken.new.items (vec_capacity taken.new)) }
        ensures settled { OnOk result (AreSettledIn 0 (length (pair_view self.new).sent) (pair_view self.new).sent) }
    {
        let mut phase = Phase::Report(0, false);
        while let Some(next) = self.seek(phase) {
            phase = self.take(next, taken)?;
        }
        Ok(())
    }

    // Takes the step of a phase, and notes it with its reply. Answers what is next.
    fn take(&mut self, phase: Phase, taken: &mut Vec<StepTaken>) -> Result<Phase, OutOfMemory>
        requires { (pair_view self.old).waits ≡ None }
        ensures takes { TakesPhaseOrNone (pair_view self.old) taken.old.items phase result (pair_view self.new) taken.new.items }
        ensures memory { OnErr result (IsOutOfMemory taken.new.items (vec_capacity taken.new)) }
    {
        taken.reserve(1)?;
        let sent = self.ends.count();
        let reply = self.step(phase.step());
        let going = going_of(&reply);
        note(taken, phase.step(), reply);
        match going {
            Some(going) => Ok(phase.after(going, sent, self.is_quiet(sent))),
            None => Err(OutOfMemory),
        }
    }

    // Whether the payload of a number is quiet: it has nothing for a reader.
    fn is_quiet(&self, payload: usize) -> bool
        ensures { result ≡ is_quiet_at (pair_view self.now).sent payload }
    {
        is_quiet(self.ends.rest(payload))
    }

    // Where payloads are reported, the phase of the next that is not settled.
    fn seek(&self, phase: Phase) -> Option<Phase>
        ensures sought { IfSome result (IsSoughtFor (pair_view self.now).sent phase) }
        ensures none { IfNone result (IsSettledAt phase (pair_view self.now).sent) }
    {
        match phase {
            Phase::Report(from, quiet) => Some(self.report_from(from, quiet)),
            Phase::Drop(from) => self.drop_from(from),
            _ => Some(phase),
        }
    }

    fn report_from(&self, from: usize, quiet: bool) -> Phase
        ensures { IsSoughtFor (pair_view self.now).sent (Phase.Report from quiet) result }
    {
        let number = self.unsettled_from(from);
        if number < self.ends.count() {
            return Phase::Report(number, quiet);
        }
        behind_reports(quiet)
    }

    fn drop_from(&self, from: usize) -> Option<Phase>
        ensures sought { IfSome result (IsSoughtFor (pair_view self.now).sent (Phase.Drop from)) }
        ensures none { IfNone result (AreSettledIn 0 (length (pair_view self.now).sent) (pair_view self.now).sent) }
    {
        let number = self.unsettled_from(from);
        if number < self.ends.count() {
            return Some(Phase::Drop(number));
        }
        let number = self.unsettled_from(0);
        if number < self.ends.count() {
            return Some(Phase::Report(number, true));
        }
        None
    }

    // The first payload that is not settled, from a number on; or how many there are.
    fn unsettled_from(&self, from: usize) -> usize
        ensures from { from ≤ result }
        ensures settled { AreSettledIn from result (pair_view self.now).sent }
    {
        for number in from..self.ends.count() {
            if self.ends.rest(number).is_some() {
                return number;
            }
        }
        self.ends.count().max(from)
    }
}

// A step is noted with its reply, where there is room.
fn note(taken: &mut Vec<StepTaken>, step: Step, reply: Result<Reply, PairError>)
    requires { vec_len taken.old < vec_capacity taken.old }
    ensures { taken.new.items ≡ taken.old.items ++ (step, reply) ∷ [] }
{
    match taken.push((step, reply)) {
        Ok(()) => {}
        Err(_) => unreachable!(),
    }
}
