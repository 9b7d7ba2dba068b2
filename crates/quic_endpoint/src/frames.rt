//! Frames of the peer that come to an end.

ghost use Rattle.std.specs.Prelude.{List, ◌≡◌, ◌≤◌, ◌∷◌};
ghost use Rattle.quic_history.specs.World.{Made};
ghost use Rattle.quic_history.specs.History.{Event, From};
ghost use Rattle.quic_endpoint.specs.Shown.{endpoint_view};
ghost use Rattle.quic_endpoint.specs.Receiving.{data_length, event_of, with_call_made, MakesCall, MayAnswer, with_answer_told, ReceivesAt, AccountsFrame};

use crate::endpoint::Endpoint;
use quic_receiving::ShouldTransmit;
use quic_wire::frame::StopSending;
use quic_wire::{Frame, ReceiveError};

#[tactic(auto, unfolding(crate::specs::Shown::endpoint_view))]
impl Endpoint {
    /// Takes a frame of the peer that came in a payload of so many bytes (RFC 9000 section 19): data, a reset, a stop and
    /// limits are handed to the streams, any other frame changes nothing. Where the answer asks for MAX_DATA it is queued,
    /// and MAX_STREAMS where it is due, unless memory ran out. Data keep the whole payload alive, so that `payload_len`
    /// is their allocation size.
    pub fn receive(
        &mut self,
        frame: Frame,
        payload_len: usize,
    ) -> Result<ShouldTransmit, ReceiveError>
        requires { data_length frame ≤ payload_len }
        ensures receives { ReceivesAt (endpoint_view self.old) frame result (endpoint_view self.new) }
        ensures accounts { AccountsFrame (endpoint_view self.old).streams frame payload_len result (endpoint_view self.new).streams }
        ensures from { (m : Made) (h : List Event) → From m h (endpoint_view self.old).streams → From m (with_call_made (event_of frame result) h) (endpoint_view self.new).streams }
    {
        let answer = self.take_frame(frame, payload_len);
        self.tell_answer(&answer);
        answer
    }

    // The same, but for what is queued.
    fn take_frame(
        &mut self,
        frame: Frame,
        payload_len: usize,
    ) -> Result<ShouldTransmit, ReceiveError>
        requires { data_length frame ≤ payload_len }
        ensures accounts { AccountsFrame (endpoint_view self.old).streams frame payload_len result (endpoint_view self.new).streams }
        ensures call { MakesCall (endpoint_view self.old).streams (event_of frame result) (endpoint_view self.new).streams }
        ensures pending { (endpoint_view self.new).pending ≡ (endpoint_view self.old).pending }
        ensures may { MayAnswer frame result }
    {
        match frame {
            Frame::Stream(frame) => self.streams.received(frame, payload_len),
            Frame::ResetStream(frame) => self.streams.received_reset(frame),
            Frame::StopSending(frame) => self.take_stop(&frame),
            Frame::MaxData(limit) => {
                self.streams.received_max_data(limit);
                Ok(ShouldTransmit(false))
            }
            Frame::MaxStreamData { id, offset } => {
                self.streams.received_max_stream_data(id, offset)?;
                Ok(ShouldTransmit(false))
            }
            Frame::MaxStreams { dir, count } => {
                self.streams.received_max_streams(dir, count)?;
                Ok(ShouldTransmit(false))
            }
            _ => Ok(ShouldTransmit(false)),
        }
    }

    // STOP_SENDING is handed to the streams.
    fn take_stop(&mut self, frame: &StopSending) -> Result<ShouldTransmit, ReceiveError>
        ensures call { MakesCall (endpoint_view self.old).streams (event_of (Frame.StopSending frame.now) result) (endpoint_view self.new).streams }
        ensures pending { (endpoint_view self.new).pending ≡ (endpoint_view self.old).pending }
        ensures may { MayAnswer (Frame.StopSending frame.now) result }
    {
        match self
            .streams
            .received_stop_sending(frame.id, frame.error_code)
        {
            Ok(()) => Ok(ShouldTransmit(false)),
            Err(_) => Err(ReceiveError::OutOfMemory),
        }
    }

    // What an answer asks for is queued.
    fn tell_answer(&mut self, answer: &Result<ShouldTransmit, ReceiveError>)
        ensures { endpoint_view self.new ≡ with_answer_told answer.now (endpoint_view self.old) }
    {
        match answer {
            Err(ReceiveError::OutOfMemory) => {}
            Err(_) => self.tell_counts_if(true),
            Ok(transmit) => {
                self.pending.queue_max_data(transmit.should_transmit());
                self.tell_counts_if(true);
            }
        }
    }
}
