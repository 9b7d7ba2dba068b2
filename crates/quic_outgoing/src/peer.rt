//! What the peer says of streams on which this end sends.

ghost use Rattle.std.specs.Prelude.{◌≡◌};
ghost use Rattle.std.specs.Option.{option_map};
ghost use Rattle.quic_outgoing.specs.Calls.{RaisesStream, StopsSending, told_of_half, blocked_limit};
ghost use Rattle.quic_outgoing.specs.History.{WasStopped, GaveStream, Continues};
ghost use Rattle.quic_outgoing.specs.Shown.{outgoing_view, permit_room};

use crate::outgoing::OutgoingStreams;
use crate::waiting::join_waiting;
use quic_sending::{ClosedStream, Send};
use quic_values::{OutOfMemory, StreamId, VarInt};

#[tactic(auto, unfolding(crate::specs::Shown::outgoing_view, crate::specs::Shown::permit_room), using(crate::proofs::SenderMaps::sender_steps, crate::proofs::Histories::continues))]
impl OutgoingStreams {
    /// The peer sent STOP_SENDING (RFC 9000 section 19.5). Answers whether it is the first on a stream that is held, of
    /// which the application is to be told.
    pub fn stop(&mut self, id: StreamId, error_code: VarInt) -> Result<bool, OutOfMemory>
        ensures stops { StopsSending (outgoing_view self.old) id error_code result (outgoing_view self.new) }
        ensures from { Continues (outgoing_view self.old) (WasStopped id error_code result) (outgoing_view self.new) }
    {
        match self.halves.take(id) {
            Err(_) => Err(OutOfMemory),
            Ok(None) => Ok(false),
            Ok(Some(half)) => {
                let mut half = half;
                let first = half.try_stop(error_code);
                self.halves.put(id, half);
                Ok(first)
            }
        }
    }

    /// The code of the first STOP_SENDING that came for a stream, if one did.
    pub fn stopped(&self, id: StreamId) -> Result<Option<VarInt>, ClosedStream>
        ensures { result ≡ told_of_half (λ s. s.stop_reason) ((outgoing_view self.now).halves id) }
    {
        self.halves.stopped(id)
    }

    /// The limit of a stream that holds new data back, where STREAM_DATA_BLOCKED was queued for that very limit (RFC 9000
    /// section 19.13).
    pub fn stream_data_blocked_limit(&self, id: StreamId) -> Option<VarInt>
        ensures { result ≡ blocked_limit ((outgoing_view self.now).halves id) }
    {
        self.halves.blocked_limit(id)
    }

    /// How many bytes were written on a stream, if its half is held: its final size once nothing more is written (RFC 9000
    /// section 4.5).
    pub fn final_size(&self, id: StreamId) -> Option<VarInt>
        ensures { result ≡ option_map (λ (s : Send). s.pending.offset) ((outgoing_view self.now).halves id) }
    {
        self.halves.final_size(id)
    }

    /// The peer sent MAX_STREAM_DATA for a stream (RFC 9000 section 19.10). Answers whether the application is to be told
    /// that it may write there: where the stream was written up to its limit, and the connection leaves room. Where it
    /// leaves none, the stream waits for it.
    pub fn raise_stream(&mut self, id: StreamId, offset: u64) -> Result<bool, OutOfMemory>
        ensures raises { RaisesStream (outgoing_view self.old) id offset result (outgoing_view self.new) }
        ensures from { Continues (outgoing_view self.old) (GaveStream id offset result) (outgoing_view self.new) }
    {
        self.give_limit(id, offset)
    }

    // The same, each way out.
    fn give_limit(&mut self, id: StreamId, offset: u64) -> Result<bool, OutOfMemory>
        ensures { RaisesStream (outgoing_view self.old) id offset result (outgoing_view self.new) }
    {
        self.blocked.reserve(1)?;
        let stuck = self.write_limit() == 0;
        match self.halves.raise(id, offset, stuck) {
            Err(_) => Err(OutOfMemory),
            Ok(None) => Ok(false),
            Ok(Some(raised)) => {
                join_waiting(&mut self.blocked, id, raised.joins);
                Ok(raised.is_woken && !stuck)
            }
        }
    }
}
