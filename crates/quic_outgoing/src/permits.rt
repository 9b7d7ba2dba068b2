//! The streams that the peer may open.

ghost use Rattle.std.specs.Prelude.{◌≡◌, ◌+◌, ◌<◌, ◌≤◌, ◌^◌};
ghost use Rattle.quic_outgoing.specs.Outgoing.{with_more_streams};
ghost use Rattle.quic_outgoing.specs.History.{PermittedMore, Continues};
ghost use Rattle.quic_outgoing.specs.Shown.{outgoing_view, permit_room};

use crate::outgoing::OutgoingStreams;
use quic_values::{Dir, Side, StreamId};

#[tactic(auto, unfolding(crate::specs::Shown::outgoing_view), using(crate::proofs::Histories::continues))]
impl OutgoingStreams {
    /// Which end this is.
    #[inline]
    pub fn side(&self) -> Side
        ensures { result ≡ (outgoing_view self.now).side }
    {
        self.halves.side()
    }

    /// The peer may open so many more bidirectional streams, from an index on, for which room was made. Their halves
    /// take no memory until they are used.
    pub fn permit_more(&mut self, first: u64, count: u64)
        requires room { count ≤ permit_room self.old }
        requires few { first + count ≤ 2 ^ 60 }
        ensures permits { outgoing_view self.new ≡ with_more_streams (outgoing_view self.old) first count }
        ensures from { Continues (outgoing_view self.old) (PermittedMore first count) (outgoing_view self.new) }
    {
        self.permit_each(first, count);
    }

    // The same, one after another.
    fn permit_each(&mut self, first: u64, count: u64)
        requires room { count ≤ permit_room self.old }
        requires few { first + count ≤ 2 ^ 60 }
        ensures { outgoing_view self.new ≡ with_more_streams (outgoing_view self.old) first count }
    {
        let initiator = !self.halves.side();
        for offset in 0..count {
            self.permit(StreamId::new(initiator, Dir::Bi, first + offset));
        }
    }
}
