//! What a client sends before the handshake is done (RFC 9001 section 4.6).

ghost use Rattle.std.specs.Prelude.{◌≡◌, OnOk, true, false, option_copied};
ghost use Rattle.quic_link.specs.Endpoints.{LimitsWithin};
ghost use Rattle.quic_retransmits.specs.Pending.{pending_view};
ghost use Rattle.quic_exchange.specs.Gone.{with_noted};
ghost use Rattle.quic_exchange.specs.Notes.{HaveLeftNetwork};
ghost use Rattle.quic_exchange.specs.Steps.{needs_decision, is_server};

use crate::sent::Note;
use crate::unsettled::noted;
use quic_steps::{End, Step};
use quic_streams::{PeerLimits, Retransmits, SentPayload};
use quic_values::OutOfMemory;
use std::alloc::Global;

/// The limits of a server, while it is not decided whether it takes what the client sends early.
#[derive(Clone, Copy)]
pub struct EarlyLimits {
    /// As the client remembers them.
    pub remembered: PeerLimits,
    /// As they are.
    pub others: PeerLimits,
}

impl EarlyLimits {
    /// Whether no limit that was remembered is above the one that the server gives.
    pub fn are_within(&self) -> bool
        ensures yes { result ≡ true → LimitsWithin self.now.remembered self.now.others }
        ensures no { result ≡ false → LimitsWithin self.now.remembered self.now.others → ⊥ }
    {
        let (old, new) = (&self.remembered, &self.others);
        old.initial_max_data <= new.initial_max_data
            && old.initial_max_streams_bidi <= new.initial_max_streams_bidi
            && old.initial_max_streams_uni <= new.initial_max_streams_uni
            && old.initial_max_stream_data_uni <= new.initial_max_stream_data_uni
            && old.initial_max_stream_data_bidi_local <= new.initial_max_stream_data_bidi_local
            && old.initial_max_stream_data_bidi_remote <= new.initial_max_stream_data_bidi_remote
    }
}

// Whether an end is the server.
fn is_server(who: End) -> bool
    ensures { result ≡ is_server who }
{
    match who {
        End::A => false,
        End::B => true,
    }
}

/// Whether a step is one of the server, or a delivery: these wait for the decision.
pub fn needs_decision(step: &Step) -> bool
    ensures { result ≡ needs_decision step.now }
{
    match step {
        Step::Open { who, .. }
        | Step::Accept { who, .. }
        | Step::Write { who, .. }
        | Step::WriteChunks { who, .. }
        | Step::Finish { who, .. }
        | Step::Reset { who, .. }
        | Step::Stop { who, .. }
        | Step::SetPriority { who, .. }
        | Step::Read { who, .. }
        | Step::ReceivedReset { who, .. }
        | Step::SetSendWindow { who, .. }
        | Step::SetReceiveWindow { who, .. }
        | Step::SetMaxConcurrent { who, .. }
        | Step::Poll { who }
        | Step::Emit { who, .. }
        | Step::EmitPart { who, .. } => is_server(*who),
        Step::Deliver { .. } => true,
        Step::Lose { .. }
        | Step::Ack { .. }
        | Step::EarlyAccept
        | Step::EarlyReject
        | Step::Retry => false,
    }
}

/// What was noted of a payload is joined to what is pending, if something of it is unreported.
pub fn join_noted(pending: &mut Retransmits, rest: Option<&SentPayload>) -> Result<(), OutOfMemory>
    ensures { OnOk result (pending_view pending.new ≡ with_noted (pending_view pending.old) (option_copied rest.entry)) }
{
    match noted(rest) {
        None => Ok(()),
        Some(noted) => match pending.merge(noted.clone()?) {
            Ok(()) => Ok(()),
            Err(_) => Err(OutOfMemory),
        },
    }
}

/// All payloads leave the network.
pub fn leave_all(alloc: Global, sent: &mut Vec<Note>)
    ensures { HaveLeftNetwork sent.old.items sent.new.items }
{
    for index in 0..sent.len() {
        sent[index].leave(alloc);
    }
}
