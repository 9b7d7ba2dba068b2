//! What is unreported of a payload that was sent.

ghost use Rattle.std.specs.Prelude.{◌≡◌, ◌==◌, length, option_map, option_copied};
ghost use Rattle.quic_retransmits.specs.Pending.{thin_view, pending_view};
ghost use Rattle.quic_exchange.specs.Gone.{noted_at};
ghost use Rattle.quic_streams.specs.Settling.{resets_of};
ghost use Rattle.quic_exchange.specs.Unsettled.{needs_acceptance, goes_on, is_quiet};

use quic_retransmits::{Retransmits, ThinRetransmits};
use quic_streams::SentPayload;

/// What becomes of a payload.
#[derive(Clone, Copy, Debug)]
pub enum Report {
    Lost,
    Acknowledged,
}

impl Report {
    /// Whether every frame of the payload has to be accepted.
    pub fn needs_acceptance(self) -> bool
        ensures { result ≡ needs_acceptance self }
    {
        match self {
            Report::Lost => false,
            Report::Acknowledged => true,
        }
    }

    /// Whether this report begins, or goes on with the one that was begun.
    pub fn goes_on(self, begun: Option<Report>) -> bool
        ensures { result ≡ goes_on self begun }
    {
        match (self, begun) {
            (_, None) => true,
            (Report::Lost, Some(Report::Lost)) => true,
            (Report::Acknowledged, Some(Report::Acknowledged)) => true,
            _ => false,
        }
    }
}

/// Whether nothing for a reader is unreported: no STREAM frame and no RESET_STREAM frame.
pub fn is_quiet(rest: Option<&SentPayload>) -> bool
    ensures { result ≡ is_quiet (option_copied rest.entry) }
{
    match rest {
        Some(rest) => rest.streams.is_empty() && has_no_reset(&rest.control),
        None => true,
    }
}

/// What was noted of the frames beside STREAM, if something is unreported.
pub fn noted(rest: Option<&SentPayload>) -> Option<&Retransmits>
    ensures { option_map (λ r. pending_view r.now) result ≡ noted_at (option_copied rest.entry) }
{
    match rest {
        Some(rest) => rest.control.get(),
        None => None,
    }
}

// Whether no RESET_STREAM frame was noted.
fn has_no_reset(control: &ThinRetransmits) -> bool
    ensures { result ≡ (length (resets_of (thin_view control.now)) == 0) }
{
    match control.get() {
        Some(noted) => noted.reset_stream.is_empty(),
        None => true,
    }
}
