//! An early start (RFC 9001 section 4.6): what was sent before the peer answered is sent again, or was in vain.

ghost use Rattle.std.specs.Prelude.{◌≡◌, ◌≤◌};
ghost use Rattle.quic_outgoing.specs.Early.{after_rejection, with_all_unsent, NoneAcked, KeepsAcked, QueuesUnsent};
ghost use Rattle.quic_outgoing.specs.History.{RejectedEarly, Unsent, Continues};
ghost use Rattle.quic_outgoing.specs.Shown.{outgoing_view, permit_room};

use crate::outgoing::OutgoingStreams;
use quic_values::StreamId;

#[tactic(auto, unfolding(crate::specs::Shown::outgoing_view, crate::specs::Shown::permit_room), using(crate::proofs::Histories::continues))]
impl OutgoingStreams {
    /// The peer rejected an early start: no stream of this end is open, nothing was sent, and no limit is held. Takes no
    /// memory.
    pub fn reject_early(&mut self)
        ensures rejects { outgoing_view self.new ≡ after_rejection (outgoing_view self.old) }
        ensures from { Continues (outgoing_view self.old) RejectedEarly (outgoing_view self.new) }
        ensures room { permit_room self.old ≤ permit_room self.new }
    {
        self.own_bi.reset();
        self.own_uni.reset();
        self.budget.reset();
        self.halves.reject_early();
        self.blocked.clear();
    }

    /// The priority at which a stream is to be queued once all counts as not sent that was sent on it: none, where it has
    /// nothing to be sent, or had something before.
    pub fn queue_unsent(&self, id: StreamId) -> Option<i32>
        ensures { QueuesUnsent ((outgoing_view self.now).halves id) result }
    {
        self.halves.queue_unsent(id)
    }

    /// All that was sent on the streams of this end counts as not sent, and nothing as lost. A stream of which something
    /// was acknowledged stays as it is. Takes no memory.
    pub fn unsend_all(&mut self)
        ensures kept { KeepsAcked (outgoing_view self.old).halves (outgoing_view self.new).halves }
        ensures rest { outgoing_view self.new ≡ record (outgoing_view self.old) { halves = (outgoing_view self.new).halves } }
        ensures unsends { NoneAcked (outgoing_view self.old).side (outgoing_view self.old).halves → outgoing_view self.new ≡ with_all_unsent (outgoing_view self.old) }
        ensures from { NoneAcked (outgoing_view self.old).side (outgoing_view self.old).halves → Continues (outgoing_view self.old) Unsent (outgoing_view self.new) }
        ensures room { permit_room self.old ≤ permit_room self.new }
    {
        self.halves.unsend_all();
    }
}
