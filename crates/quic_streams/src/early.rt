//! An early start (RFC 9001 section 4.6): a client sends before the peer has answered.

ghost use Rattle.std.specs.Prelude.{ℕ, ℤ, List, [], ◌∷◌, ◌≡◌, Option, OnOk, OnErr};
ghost use Rattle.quic_values.specs.declared.ids.Side.TheVariants.{Client};
ghost use Rattle.quic_queue.specs.declared.queue.Entry.{Entry};
ghost use Rattle.quic_outgoing.specs.Outgoing.{own_of, first_ids};
ghost use Rattle.quic_outgoing.specs.Early.{NoneAcked, QueuesUnsent};
ghost use Rattle.quic_outgoing.specs.Shown.{outgoing_view};
ghost use Rattle.quic_values.specs.Ids.{other_side};
ghost use Rattle.quic_history.specs.World.{Made, PermitsNoLess, made_again};
ghost use Rattle.quic_history.specs.Used.{halves_among};
ghost use Rattle.quic_history.specs.Early.{IsEarly, with_rejection, SendsAgain, ResendsOnlyUnacked, AreUnsentOf, entry_at, with_entries_put};
ghost use Rattle.quic_history.specs.History.{Event, Rejected, SentAgain, IsUnanswered, From};
ghost use Rattle.quic_history.specs.OwnDoings.{AreOwnDoings};
ghost use Rattle.quic_streams.specs.Shown.{streams_view};

use crate::state::StreamsState;
use quic_queue::SendQueue;
use quic_values::{Dir, OutOfMemory, StreamId};

#[tactic(auto, unfolding(crate::specs::Shown::streams_view))]
impl StreamsState {
    /// The peer rejected the early start of a client: its streams are gone, and whatever was sent was in vain. Nothing
    /// may be sent until the peer gives its limits ([`StreamsState::set_params`]), and indices begin anew. Takes no
    /// memory.
    ///
    /// The pending control frames are the caller's, who empties them. The history goes on with this while the peer has
    /// not answered: no data and no reset came, and nothing was acknowledged. Where nothing came from the peer at all, this
    /// is a new end with no history, made with what it keeps, and permits the peer no less than before.
    pub fn zero_rtt_rejected(&mut self)
        ensures rejects { streams_view self.new ≡ with_rejection (streams_view self.old) }
        ensures from { (m : Made) (h : List Event) → IsEarly (streams_view self.old) → From m h (streams_view self.old) → From m (Rejected ∷ h) (streams_view self.new) }
        ensures unanswered { (m : Made) (h : List Event) → m.side ≡ Client → IsUnanswered h → From m h (streams_view self.old) → From m (Rejected ∷ h) (streams_view self.new) }
        ensures anew { (m : Made) (h : List Event) → m.side ≡ Client → AreOwnDoings h → From m h (streams_view self.old)
            → From (made_again (streams_view self.new)) [] (streams_view self.new) }
        ensures permits { (m : Made) (h : List Event) → From m h (streams_view self.old) → PermitsNoLess m (made_again (streams_view self.new)) }
    {
        self.reject_early();
    }

    // The same.
    fn reject_early(&mut self)
        ensures { streams_view self.new ≡ with_rejection (streams_view self.old) }
    {
        self.send_streams = self.accepted_halves();
        self.outgoing.reject_early();
        self.receive.remove_of(self.outgoing.side());
        self.queue.clear();
        if self.adjusted {
            self.bi.forget_announced();
            self.uni.forget_announced();
        }
    }

    // How many send halves are held of the streams of the peer that were accepted.
    fn accepted_halves(&self) -> usize
        ensures { result ≡ halves_among (streams_view self.now) (other_side (streams_view self.now).out.side) Dir.Bi (streams_view self.now).bi.next_reported }
    {
        let peer = !self.outgoing.side();
        let mut count: usize = 0;
        for index in 0..self.bi.next_reported() {
            if self.outgoing.contains(StreamId::new(peer, Dir::Bi, index)) {
                count += 1;
            }
        }
        count
    }

    /// All that the early start of a client sent is to be sent again, also the ends of streams: each stream that has
    /// something to be sent is queued, where it had nothing to be sent before. If refused, all is as it was.
    ///
    /// This is meant for a time at which nothing was acknowledged: a stream of which something was stays as it is.
    pub fn retransmit_all_for_0rtt(&mut self) -> Result<(), OutOfMemory>
        ensures sends { NoneAcked (streams_view self.old).out.side (streams_view self.old).out.halves → SendsAgain (streams_view self.old) result (streams_view self.new) }
        ensures unacked { ResendsOnlyUnacked (streams_view self.old) (streams_view self.new) }
        ensures err { OnErr result (streams_view self.new ≡ streams_view self.old) }
        ensures from { (m : Made) (h : List Event) → NoneAcked (streams_view self.old).out.side (streams_view self.old).out.halves → From m h (streams_view self.old)
            → From m (SentAgain result ∷ h) (streams_view self.new) }
        ensures unanswered { (m : Made) (h : List Event) → IsUnanswered h → From m h (streams_view self.old)
            → SendsAgain (streams_view self.old) result (streams_view self.new) × From m (SentAgain result ∷ h) (streams_view self.new) }
    {
        self.send_again()
    }

    // The same.
    fn send_again(&mut self) -> Result<(), OutOfMemory>
        ensures sends { NoneAcked (streams_view self.old).out.side (streams_view self.old).out.halves → SendsAgain (streams_view self.old) result (streams_view self.new) }
        ensures unacked { ResendsOnlyUnacked (streams_view self.old) (streams_view self.new) }
        ensures err { OnErr result (streams_view self.new ≡ streams_view self.old) }
    {
        let mut queue = self.queue.copy()?;
        self.queue_unsent(Dir::Bi, &mut queue)?;
        self.queue_unsent(Dir::Uni, &mut queue)?;
        self.outgoing.unsend_all();
        self.queue = queue;
        Ok(())
    }

    // Queues the streams of a direction that have something to be sent once all counts as not sent.
    fn queue_unsent(&self, dir: Dir, queue: &mut SendQueue) -> Result<(), OutOfMemory>
        ensures { OnOk result ((es : List Entry) × AreUnsentOf (outgoing_view self.now.outgoing) (first_ids (outgoing_view self.now.outgoing).side dir (own_of (outgoing_view self.now.outgoing) dir).opened) es
            × (queue.new ≡ with_entries_put queue.old es)) }
    {
        let side = self.outgoing.side();
        for index in 0..self.outgoing.opened(dir) {
            self.queue_if_unsent(StreamId::new(side, dir, index), queue)?;
        }
        Ok(())
    }

    // Queues one of them, where it has something to be sent then, and had nothing before.
    fn queue_if_unsent(&self, id: StreamId, queue: &mut SendQueue) -> Result<(), OutOfMemory>
        ensures { OnOk result ((at : Option ℤ) × QueuesUnsent ((outgoing_view self.now.outgoing).halves id) at × (queue.new ≡ with_entries_put queue.old (entry_at id at))) }
    {
        match self.outgoing.queue_unsent(id) {
            None => Ok(()),
            Some(priority) => {
                queue.reserve(priority)?;
                queue.put(id, priority);
                Ok(())
            }
        }
    }
}
