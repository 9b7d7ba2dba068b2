//! Streams that wait until something may be written.

ghost use Rattle.quic_outgoing.specs.Calls.{PollsWritable};
ghost use Rattle.quic_outgoing.specs.History.{Polled, Continues};
ghost use Rattle.quic_outgoing.specs.Shown.{outgoing_view, permit_room};

use crate::outgoing::OutgoingStreams;
use quic_values::StreamId;

#[tactic(auto, unfolding(crate::specs::Shown::outgoing_view, crate::specs::Shown::permit_room), using(crate::proofs::SenderMaps::sender_steps, crate::proofs::Histories::continues))]
impl OutgoingStreams {
    /// The stream of which the application is to be told that it may write there again: where something may be written
    /// at all, the last one that waits and can take new data. It waits no more, nor do those behind it, which can take
    /// none. Each is taken off the list once for the call that put it there.
    pub fn poll_writable(&mut self) -> Option<StreamId>
        ensures polls { PollsWritable (outgoing_view self.old) result (outgoing_view self.new) }
        ensures from { Continues (outgoing_view self.old) (Polled result) (outgoing_view self.new) }
    {
        self.next_writable()
    }

    // The same, each way out.
    fn next_writable(&mut self) -> Option<StreamId>
        ensures { PollsWritable (outgoing_view self.old) result (outgoing_view self.new) }
    {
        if self.write_limit() == 0 {
            return None;
        }
        while let Some(id) = self.blocked.pop() {
            let can_take = self.halves.can_take(id);
            self.halves.unmark(id);
            if can_take {
                return Some(id);
            }
        }
        None
    }
}
