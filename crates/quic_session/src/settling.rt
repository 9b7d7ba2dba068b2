//! What becomes of the payloads that a session sent.

ghost use Rattle.std.specs.Prelude.{List, ◌∷◌, ◌≡◌, OnErr, Some, None};
ghost use Rattle.quic_values.specs.declared.ids.Side.TheVariants.{Client};
ghost use Rattle.quic_outgoing.specs.Early.{NoneAcked};
ghost use Rattle.quic_retransmits.specs.Pending.{nothing};
ghost use Rattle.quic_history.specs.World.{Made};
ghost use Rattle.quic_history.specs.Early.{IsEarly, with_rejection, SendsAgain, ResendsOnlyUnacked};
ghost use Rattle.quic_history.specs.History.{Event, Rejected, SentAgain, IsUnanswered, From};
ghost use Rattle.quic_session.specs.Counts.{counts_of};
ghost use Rattle.quic_session.specs.Sessions.{end_of, beside_of};
ghost use Rattle.quic_session.specs.Settling.{AcksToken, LosesToken, SettlesOnly};
ghost use Rattle.quic_session.specs.Tokens.{unsettled, with_payload, payload_count, HasPlaceFor};
ghost use Rattle.quic_session.specs.Users.{users_view, without_streams};
ghost use Rattle.quic_session.specs.Closing.{touched_by_payload};

use crate::closing::touch_by_resets;
use crate::counts::stream_bytes;
use crate::session::Session;
use quic_streams::SentPayload;
use quic_values::OutOfMemory;
use thiserror::Error;

/// Why a payload was not settled.
#[derive(Clone, Copy, Debug, Error, PartialEq, Eq)]
pub enum SettleError {
    /// There is no such token, or it was settled.
    #[error("no such payload")]
    UnknownToken,
    /// There was no memory. What was settled stays so, and the token stands for the rest.
    #[error("out of memory")]
    OutOfMemory,
}

impl Session {
    /// A payload was acknowledged (RFC 9000 section 13.3).
    pub fn acked(&mut self, token: u64) -> Result<(), SettleError>
        ensures acks { AcksToken self.old token result self.new }
        ensures others { SettlesOnly self.old self.new }
        ensures users { users_view self.new.users ≡ touched_by_payload (unsettled self.old.unsettled token) (users_view self.old.users) }
    {
        let Some(payload) = self.unsettled.take(token) else {
            return Err(SettleError::UnknownToken);
        };
        touch_by_resets(&mut self.users, &payload.control);
        match self.endpoint.acknowledge(payload) {
            Ok(()) => Ok(()),
            Err(rest) => Err(self.put_rest_back(token, rest)),
        }
    }

    /// A payload was lost (RFC 9000 section 13.3). The bytes of its stream data that are reported so are counted.
    pub fn lost(&mut self, token: u64) -> Result<(), SettleError>
        ensures loses { LosesToken self.old token result self.new }
        ensures others { SettlesOnly self.old self.new }
        ensures users { self.new.users ≡ self.old.users }
    {
        let Some(payload) = self.unsettled.take(token) else {
            return Err(SettleError::UnknownToken);
        };
        let bytes = stream_bytes(&payload);
        match self.endpoint.lose(payload) {
            Ok(()) => {
                self.counts.add_lost(bytes);
                Ok(())
            }
            Err(rest) => {
                let left = stream_bytes(&rest);
                self.counts.add_lost(bytes.saturating_sub(left));
                Err(self.put_rest_back(token, rest))
            }
        }
    }

    // What was not reported of a payload stands under its token again.
    fn put_rest_back(&mut self, token: u64, rest: SentPayload) -> SettleError
        requires { HasPlaceFor self.old.unsettled token }
        ensures error { result ≡ SettleError.OutOfMemory }
        ensures kept { unsettled self.new.unsettled ≡ with_payload (unsettled self.old.unsettled) token (Some rest) }
        ensures end { end_of self.new ≡ end_of self.old }
        ensures counts { counts_of self.new ≡ counts_of self.old }
        ensures others { SettlesOnly self.old self.new }
        ensures users { self.new.users ≡ self.old.users }
    {
        self.unsettled.put_back(token, rest);
        SettleError::OutOfMemory
    }

    /// How many payloads are not settled.
    pub fn unsettled_payloads(&self) -> usize
        ensures { result ≡ payload_count self.now.unsettled }
    {
        self.unsettled.len()
    }

    /// The peer rejected the early start of a client (RFC 9001 section 4.6.2).
    pub fn zero_rtt_rejected(&mut self)
        ensures rejects { end_of self.new ≡ record { streams = with_rejection (end_of self.old).streams; pending = nothing } }
        ensures from { (m : Made) (h : List Event) → IsEarly (end_of self.old).streams → From m h (end_of self.old).streams → From m (Rejected ∷ h) (end_of self.new).streams }
        ensures unanswered { (m : Made) (h : List Event) → m.side ≡ Client → IsUnanswered h → From m h (end_of self.old).streams → From m (Rejected ∷ h) (end_of self.new).streams }
        ensures payloads { unsettled self.new.unsettled ≡ (λ token. None) }
        ensures counts { counts_of self.new ≡ counts_of self.old }
        ensures others { SettlesOnly self.old self.new }
        ensures users { users_view self.new.users ≡ without_streams (users_view self.old.users) }
    {
        self.endpoint.zero_rtt_rejected();
        self.unsettled.clear(self.alloc);
        self.users.clear(self.alloc);
    }

    /// All that an early start sent is to be sent again (RFC 9000 section 17.2.5).
    pub fn retransmit_all_for_0rtt(&mut self) -> Result<(), OutOfMemory>
        ensures sends { NoneAcked (end_of self.old).streams.out.side (end_of self.old).streams.out.halves → SendsAgain (end_of self.old).streams result (end_of self.new).streams }
        ensures unacked { ResendsOnlyUnacked (end_of self.old).streams (end_of self.new).streams }
        ensures err { OnErr result (end_of self.new ≡ end_of self.old) }
        ensures pending { (end_of self.new).pending ≡ (end_of self.old).pending }
        ensures unanswered { (m : Made) (h : List Event) → IsUnanswered h → From m h (end_of self.old).streams
            → SendsAgain (end_of self.old).streams result (end_of self.new).streams × From m (SentAgain result ∷ h) (end_of self.new).streams }
        ensures beside { beside_of self.new ≡ beside_of self.old }
        ensures users { self.new.users ≡ self.old.users }
    {
        self.endpoint.retransmit_all_for_0rtt()
    }
}
