//! What becomes of the payloads that an end wrote.

ghost use Rattle.std.specs.Prelude.{List};
ghost use Rattle.quic_history.specs.World.{Made};
ghost use Rattle.quic_history.specs.History.{Event, From};
ghost use Rattle.quic_streams.specs.Sent.{sent_view, report_view};
ghost use Rattle.quic_streams.specs.Settling.{acks_told, losses_told};
ghost use Rattle.quic_endpoint.specs.Shown.{endpoint_view};
ghost use Rattle.quic_endpoint.specs.Reports.{LosesPayloadAt, AcksPayloadAt};

use crate::endpoint::Endpoint;
use quic_streams::SentPayload;

#[tactic(auto, unfolding(crate::specs::Shown::endpoint_view))]
impl Endpoint {
    /// A payload was acknowledged, as [`quic_streams::state::StreamsState::acked`]; then MAX_STREAMS is queued where it is
    /// due. Where memory runs out, what is unreported comes back, and nothing is queued.
    pub fn acknowledge(&mut self, sent: SentPayload) -> Result<(), SentPayload>
        ensures acks { AcksPayloadAt (endpoint_view self.old) (sent_view sent) (report_view result) (endpoint_view self.new) }
        ensures from { (m : Made) (h : List Event) → From m h (endpoint_view self.old).streams
            → From m (acks_told (sent_view sent) (report_view result) h) (endpoint_view self.new).streams }
    {
        let answer = self.streams.acked(sent);
        self.tell_counts_if(answer.is_ok());
        answer
    }

    /// A payload was lost, as [`quic_streams::state::StreamsState::lost`]: what it carried is to be sent again. Where memory
    /// runs out, what is unreported comes back.
    pub fn lose(&mut self, sent: SentPayload) -> Result<(), SentPayload>
        ensures loses { LosesPayloadAt (endpoint_view self.old) (sent_view sent) (report_view result) (endpoint_view self.new) }
        ensures from { (m : Made) (h : List Event) → From m h (endpoint_view self.old).streams
            → From m (losses_told (sent_view sent) (report_view result) h) (endpoint_view self.new).streams }
    {
        self.streams.lost(sent, &mut self.pending)
    }
}
