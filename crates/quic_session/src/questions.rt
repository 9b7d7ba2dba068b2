//! What a host may ask of a payload by its token, and payloads for which a host reserves a slot.

ghost use Rattle.std.specs.Prelude.{◌≡◌, ◌<◌, OnOk, OnErr, None, option_copied};
ghost use Rattle.quic_outgoing.specs.Early.{NoneAcked};
ghost use Rattle.quic_history.specs.Early.{SendsAgain, ResendsOnlyUnacked};
ghost use Rattle.quic_retransmits.specs.Pending.{pending_view};
ghost use Rattle.quic_session.specs.Counts.{counts_of};
ghost use Rattle.quic_session.specs.Sessions.{end_of, beside_of, datagrams_view};
ghost use Rattle.quic_session.specs.Settling.{SettlesOnly};
ghost use Rattle.quic_session.specs.Tokens.{unsettled, places};
ghost use Rattle.quic_session.specs.Slots.{ReservesSlot, KeepsEmpty};

use crate::session::Session;
use quic_endpoint::Payload;
use quic_streams::{Retransmits, SentPayload};
use quic_values::OutOfMemory;

impl Session {
    /// What a loss or an acknowledgement of a payload would still report. `None` if no payload has the token, or it is
    /// settled.
    pub fn payload(&self, token: u64) -> Option<&SentPayload>
        ensures { option_copied result ≡ unsettled self.now.unsettled token }
    {
        self.unsettled.get(token)
    }

    /// The pending control frames (RFC 9000 section 13.3).
    pub fn pending(&self) -> &Retransmits
        ensures { pending_view result.now ≡ (end_of self.now).pending }
    {
        self.endpoint.pending()
    }

    /// Reserves the slot of the next payload: the call that writes it then fails only if memory runs out while a frame is
    /// written.
    pub fn reserve_payload(&mut self) -> Result<(), OutOfMemory>
        ensures { ReservesSlot self.old result self.new }
    {
        self.unsettled.reserve()
    }

    /// A token for a payload without frames, for a host that waits for the acknowledgement of packets in which no frame of
    /// this session stands.
    pub fn keep_empty(&mut self) -> u64
        requires { 0 < places self.old.unsettled }
        ensures { KeepsEmpty self.old result self.new }
    {
        let empty = Payload::reusing(self.alloc, Vec::new(self.alloc));
        self.unsettled.keep(empty.sent)
    }

    /// All that an early start sent is to be sent again, as [`Session::retransmit_all_for_0rtt`], in place of the pending
    /// control frames those that are given, and no payload is kept any more (RFC 9000 section 17.2.5). On error nothing
    /// changes.
    pub fn send_again(&mut self, pending: Retransmits) -> Result<(), OutOfMemory>
        ensures sends { NoneAcked (end_of self.old).streams.out.side (end_of self.old).streams.out.halves → SendsAgain (end_of self.old).streams result (end_of self.new).streams }
        ensures unacked { ResendsOnlyUnacked (end_of self.old).streams (end_of self.new).streams }
        ensures pending { OnOk result ((end_of self.new).pending ≡ pending_view pending) }
        ensures payloads { OnOk result (unsettled self.new.unsettled ≡ (λ token. None)) }
        ensures err { OnErr result (end_of self.new ≡ end_of self.old) }
        ensures kept { OnErr result (beside_of self.new ≡ beside_of self.old) }
        ensures counts { counts_of self.new ≡ counts_of self.old }
        ensures others { SettlesOnly self.old self.new }
        ensures users { self.new.users ≡ self.old.users }
    {
        self.endpoint.send_again(pending)?;
        self.unsettled.clear(self.alloc);
        Ok(())
    }
}
