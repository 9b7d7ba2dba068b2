//! What an end sends before the handshake is done (RFC 9001 section 4.6).

ghost use Rattle.std.specs.Prelude.{List, ◌∷◌, ◌≡◌, OnOk, OnErr};
ghost use Rattle.quic_values.specs.declared.ids.Side.TheVariants.{Client};
ghost use Rattle.quic_outgoing.specs.Early.{NoneAcked};
ghost use Rattle.quic_retransmits.specs.Pending.{nothing, pending_view};
ghost use Rattle.quic_history.specs.World.{Made};
ghost use Rattle.quic_history.specs.Early.{IsEarly, with_rejection, SendsAgain, ResendsOnlyUnacked};
ghost use Rattle.quic_history.specs.History.{Event, Rejected, SentAgain, IsUnanswered, From};
ghost use Rattle.quic_endpoint.specs.Shown.{endpoint_view};

use crate::endpoint::Endpoint;
use quic_streams::Retransmits;
use quic_values::OutOfMemory;

#[tactic(auto, unfolding(crate::specs::Shown::endpoint_view))]
impl Endpoint {
    /// The peer rejected the early data of a client (RFC 9001 section 4.6.2): the client's streams are gone, as
    /// [`quic_streams::state::StreamsState::zero_rtt_rejected`], nothing is to be sent, and indices begin anew. Takes no
    /// memory.
    pub fn zero_rtt_rejected(&mut self)
        ensures rejects { endpoint_view self.new ≡ record { streams = with_rejection (endpoint_view self.old).streams; pending = nothing } }
        ensures from { (m : Made) (h : List Event) → IsEarly (endpoint_view self.old).streams → From m h (endpoint_view self.old).streams → From m (Rejected ∷ h) (endpoint_view self.new).streams }
        ensures unanswered { (m : Made) (h : List Event) → m.side ≡ Client → IsUnanswered h → From m h (endpoint_view self.old).streams → From m (Rejected ∷ h) (endpoint_view self.new).streams }
    {
        self.streams.zero_rtt_rejected();
        self.pending = Retransmits::new(self.alloc);
    }

    /// The control frames that are to be sent.
    pub fn pending(&self) -> &Retransmits
        ensures { pending_view result.now ≡ (endpoint_view self.now).pending }
    {
        &self.pending
    }

    /// All that a client sent before the handshake was done is to be sent again, as
    /// [`quic_streams::state::StreamsState::retransmit_all_for_0rtt`]. The control frames that are pending stay. If
    /// refused, all is as it was.
    pub fn retransmit_all_for_0rtt(&mut self) -> Result<(), OutOfMemory>
        ensures sends { NoneAcked (endpoint_view self.old).streams.out.side (endpoint_view self.old).streams.out.halves → SendsAgain (endpoint_view self.old).streams result (endpoint_view self.new).streams }
        ensures unacked { ResendsOnlyUnacked (endpoint_view self.old).streams (endpoint_view self.new).streams }
        ensures err { OnErr result (endpoint_view self.new ≡ endpoint_view self.old) }
        ensures pending { (endpoint_view self.new).pending ≡ (endpoint_view self.old).pending }
        ensures unanswered { (m : Made) (h : List Event) → IsUnanswered h → From m h (endpoint_view self.old).streams
            → SendsAgain (endpoint_view self.old).streams result (endpoint_view self.new).streams × From m (SentAgain result ∷ h) (endpoint_view self.new).streams }
    {
        self.streams.retransmit_all_for_0rtt()
    }

    /// All that a client sent before the handshake was done is to be sent again, as
    /// [`Endpoint::retransmit_all_for_0rtt`], and in place of the pending control frames those that are given here. If
    /// refused, all is as it was.
    pub fn send_again(&mut self, pending: Retransmits) -> Result<(), OutOfMemory>
        ensures sends { NoneAcked (endpoint_view self.old).streams.out.side (endpoint_view self.old).streams.out.halves → SendsAgain (endpoint_view self.old).streams result (endpoint_view self.new).streams }
        ensures unacked { ResendsOnlyUnacked (endpoint_view self.old).streams (endpoint_view self.new).streams }
        ensures pending { OnOk result ((endpoint_view self.new).pending ≡ pending_view pending) }
        ensures err { OnErr result (endpoint_view self.new ≡ endpoint_view self.old) }
    {
        self.retransmit_all_for_0rtt()?;
        self.pending = pending;
        Ok(())
    }
}
