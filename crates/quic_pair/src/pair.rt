//! Two sessions and a network between them.

ghost use Rattle.quic_pair.specs.Reached.{IsReached};

use crate::ends::{Ends, limits_of};
use quic_exchange::early::{EarlyLimits, needs_decision};
use quic_exchange::places::is_no_payload;
use quic_steps::{Config, End, PairError, Reply, Step};
use quic_streams::PeerLimits;
use quic_streams::state::StreamsState;
use quic_values::{OutOfMemory, Side};
use std::alloc::Global;

/// Two sessions, and a network between them that loses, repeats and reorders as it is told. A is the client, B the server.
#[derive(Drop)]
pub struct Pair {
    pub(crate) ends: Ends,
    // Steps lead to it, so each frame of a payload is one that the other endpoint takes. The connections are open, and each
    // payload has a token of its own.
    ghost sound: { ∥ IsReached ends ∥₁ },
}

#[tactic(auto, unfolding(crate::specs::Shown::pair_view))]
impl Pair {
    ghost use Rattle.std.specs.Prelude.{◌≡◌, [], ◌++◌, length, IfSome, IfNone, IfOk, OnErr, Some, option_map, slice_get, ◌≤◌, ◌^◌, ◌&&◌, is_some};
    ghost use Rattle.std.specs.List.{zip};
    ghost use Rattle.quic_exchange.specs.State.{the_end};
    ghost use Rattle.quic_pair.specs.Shown.{pair_view};
    ghost use Rattle.quic_exchange.specs.Steps.{Next, needs_decision};
    ghost use Rattle.quic_exchange.specs.Gone.{IsNoPayload, IsThere};
    ghost use Rattle.quic_streams.specs.Shown.{streams_view};
    ghost use Rattle.quic_exchange.specs.From.{Beginning, PairFrom, at_once};
    ghost use Rattle.quic_exchange.specs.History.{History};
    ghost use Rattle.quic_exchange.specs.Promises.{IsPromised, EachIsPromised, HoldsOf};
    ghost use Rattle.quic_exchange.specs.Runs.{TakesSteps, StepByStep, StaysIfRefused, NetworkOf};
    ghost use Rattle.quic_exchange.specs.Network.{ChangesNetwork};
    ghost use Rattle.quic_exchange.specs.Refused.{IsRefused};

    /// Two ends that have sent nothing.
    pub fn new(alloc: Global, a: Config, b: Config) -> Result<Pair, OutOfMemory>
        ensures { IfOk result (λ pair. PairFrom (at_once a b) [] (pair_view pair)) }
    {
        let ends = Ends::new(alloc, &a, &b, &limits_of(Side::Server, &b), None)?;
        Ok(Pair { ends })
    }

    /// Two ends that have sent nothing, of which the client is to send before the handshake is done, by limits of the
    /// server that it remembers (RFC 9000 section 7.4.1). Until it is decided whether the server takes that
    /// ([`Step::EarlyAccept`], [`Step::EarlyReject`]), the server does nothing and no frame is delivered. No count is above
    /// 2^60.
    pub fn new_early(
        alloc: Global,
        a: Config,
        b: Config,
        remembered: PeerLimits,
    ) -> Result<Pair, OutOfMemory>
        requires few_bi { remembered.initial_max_streams_bidi ≤ 2 ^ 60 }
        requires few_uni { remembered.initial_max_streams_uni ≤ 2 ^ 60 }
        ensures { IfOk result (λ pair. PairFrom (record { a = a; b = b; early = Some remembered }) [] (pair_view pair)) }
    {
        let others = limits_of(Side::Server, &b);
        let waits = EarlyLimits { remembered, others };
        let ends = Ends::new(alloc, &a, &b, &remembered, Some(waits))?;
        Ok(Pair { ends })
    }

    // Whether a step has to wait until it is decided what becomes of what the client sends early.
    fn must_wait(&self, step: &Step) -> bool
        ensures { result ≡ (is_some (pair_view self.now).waits && needs_decision step.now) }
    {
        self.ends.waits.is_some() && needs_decision(step)
    }

    /// One step. A refused one changes nothing, but for what [`PairError::OutOfMemory`] says.
    pub fn step(&mut self, step: Step) -> Result<Reply, PairError>
        ensures next { Next (pair_view self.old) step result (pair_view self.new) }
        ensures promises { (s : Beginning) (h : History) → PairFrom s h (pair_view self.old) → IsPromised s h (pair_view self.old) step result (pair_view self.new) }
        ensures unchanged { IsRefused result → pair_view self.new ≡ pair_view self.old }
        ensures network { ChangesNetwork (pair_view self.old) step result (pair_view self.new) }
    {
        if self.must_wait(&step) {
            return Err(PairError::Undecided);
        }
        self.ends.dispatch(step)
    }

    /// Many steps, with the reply to each. Room for the replies is made first: if that is refused, no step was taken.
    pub fn run(&mut self, steps: Vec<Step>) -> Result<Vec<Result<Reply, PairError>>, OutOfMemory>
        ensures count { IfOk result (λ replies. length replies.items ≡ length steps.items) }
        ensures next { IfOk result (λ replies. TakesSteps (pair_view self.old) (zip steps.items replies.items) (pair_view self.new)) }
        ensures promises { IfOk result (λ replies. (s : Beginning) (h : History) → PairFrom s h (pair_view self.old) → StepByStep (EachIsPromised s h) (pair_view self.old) (zip steps.items replies.items) (pair_view self.new)) }
        ensures behind { IfOk result (λ replies. (s : Beginning) (h : History) → PairFrom s h (pair_view self.old) → HoldsOf s (h ++ zip steps.items replies.items) (pair_view self.new)) }
        ensures unchanged { IfOk result (λ replies. StepByStep StaysIfRefused (pair_view self.old) (zip steps.items replies.items) (pair_view self.new)) }
        ensures network { IfOk result (λ replies. StepByStep NetworkOf (pair_view self.old) (zip steps.items replies.items) (pair_view self.new)) }
        ensures err { OnErr result (pair_view self.new ≡ pair_view self.old) }
    {
        let mut replies = Vec::with_capacity(self.ends.alloc, steps.len())?;
        for step in steps {
            let reply = self.step(step);
            match replies.push(reply) {
                Ok(()) => {}
                Err(_) => unreachable!(),
            }
        }
        Ok(replies)
    }

    /// The bytes of a payload, none where no payload has the number, or it left the network.
    pub fn payload(&self, number: usize) -> Option<&[u8]>
        ensures bytes { IfSome result (λ bytes. option_map (λ sent. sent.text.bytes) (slice_get (pair_view self.now).sent number) ≡ Some bytes.now) }
        ensures there { IfSome result (λ bytes. IsThere (pair_view self.now).sent number) }
        ensures none { IfNone result (IsNoPayload (pair_view self.now).sent number) }
    {
        if is_no_payload(&self.ends.sent, number) {
            return None;
        }
        let whole = &self.ends.sent[number];
        Some(whole.text.bytes())
    }

    /// The streams of an end.
    pub fn end(&self, who: End) -> &StreamsState
        ensures { streams_view result.now ≡ (the_end (pair_view self.now) who).streams }
    {
        self.ends.session(who).streams()
    }
}
