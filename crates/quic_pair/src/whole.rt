//! Payloads that are handed in whole.

ghost use Rattle.std.specs.Prelude.{◌≡◌, ◌≤◌, ◌<◌, IfOk, IfErr, None, length};
ghost use Rattle.quic_exchange.specs.Gone.{IsNoPayload};
ghost use Rattle.quic_pair.specs.Shown.{pair_view};
ghost use Rattle.quic_pair.specs.Whole.{halt_of, HandsIn, RefusesPayload, HasBytesWithin, DeliversSo};

use crate::pair::Pair;
use quic_exchange::places::is_no_payload;
use quic_session::receiving::{PayloadError, Received};
use quic_steps::{PairError, Reply, Step};
use quic_wire::ReceiveError;

#[tactic(auto, unfolding(crate::specs::Shown::pair_view))]
impl Pair {
    /// Hands the whole payload of a number to the other endpoint: its frames in their order, as `Session::receive` does, up to the
    /// first that is rejected or for which memory runs out. Returns how many were accepted, and why no more. Where memory
    /// ran out, the frame of that place can be delivered again.
    ///
    /// Nothing changes on [`PairError::Undecided`], while it is not decided whether the server accepts what the client sends early,
    /// and on [`PairError::NoSuchPayload`]. There is no other error.
    pub fn deliver_all(&mut self, payload: usize) -> Result<Received, PairError>
        ensures hands_in { IfOk result (λ r. HandsIn (pair_view self.old) payload r (pair_view self.new)) }
        ensures refused { IfErr result (λ error. RefusesPayload (pair_view self.old) payload error × (pair_view self.new ≡ pair_view self.old)) }
    {
        if self.ends.waits.is_some() {
            return Err(PairError::Undecided);
        }
        if is_no_payload(&self.ends.sent, payload) {
            return Err(PairError::NoSuchPayload);
        }
        // No frame is without a byte.
        let most = self.ends.sent[payload].text.bytes().len();
        Ok(self.deliver_frames(payload, most))
    }

    // Delivers the frames of a payload that has so many bytes, each by a step of its own.
    fn deliver_frames(&mut self, payload: usize, most: usize) -> Received
        requires decided { (pair_view self.old).waits ≡ None }
        requires there { HasBytesWithin (pair_view self.old) payload most }
        ensures { DeliversSo (pair_view self.old) payload result (pair_view self.new) }
    {
        for next in 0..most {
            let reply = self.step(Step::Deliver {
                payload,
                frame: next,
            });
            if let Some(answer) = halt_of(&reply) {
                return Received { next, answer };
            }
        }
        Received {
            next: most,
            answer: Ok(()),
        }
    }
}

// Why no frame is delivered behind one that had this reply.
fn halt_of(reply: &Result<Reply, PairError>) -> Option<Result<(), PayloadError>>
    ensures { result ≡ halt_of reply.now }
{
    match reply {
        Err(PairError::OutOfMemory) => Some(Err(PayloadError::OutOfMemory)),
        Err(_) => Some(Ok(())),
        Ok(Reply::Fault(ReceiveError::Transport(error))) => {
            Some(Err(PayloadError::Transport(*error)))
        }
        Ok(_) => None,
    }
}
