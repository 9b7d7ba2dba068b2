//! How many bytes a stream takes now.

ghost use Rattle.std.specs.Prelude.{◌≡◌, Some, max};
ghost use Rattle.quic_outgoing.specs.Rooms.{room_of_half, send_room};
ghost use Rattle.quic_outgoing.specs.Seen.{senders};
ghost use Rattle.quic_outgoing.specs.Shown.{outgoing_view, permit_room};

use crate::entries::{SendEntries, greater};
use crate::outgoing::OutgoingStreams;
use quic_sending::{ClosedStream, Send};
use quic_values::{StreamId, VarInt};

#[tactic(auto, unfolding(crate::specs::Shown::outgoing_view, crate::specs::Shown::permit_room))]
impl OutgoingStreams {
    /// How many bytes [`OutgoingStreams::write`] would take now at most: the least of what the limit of the stream, the limit
    /// of the connection and the send window leave. 0: it would be `Blocked` or `Stopped`. Changes nothing.
    pub fn send_room(&self, id: StreamId) -> Result<u64, ClosedStream>
        ensures { result ≡ send_room (outgoing_view self.now) ((outgoing_view self.now).halves id) }
    {
        let limit = self.write_limit();
        if limit == 0 {
            return if self.halves.contains(id) {
                Ok(0)
            } else {
                Err(ClosedStream)
            };
        }
        self.halves.send_room(id, limit)
    }
}

#[tactic(auto, unfolding(crate::specs::Seen::senders))]
impl SendEntries {
    // How many bytes a stream takes at most, while so many may be written on all streams.
    fn send_room(&self, id: StreamId, limit: u64) -> Result<u64, ClosedStream>
        ensures { result ≡ room_of_half limit (senders self.now id) }
    {
        let first = self.first_limit(id);
        match self.entries.get(&id) {
            None => Err(ClosedStream),
            Some(None) => Ok(limit.min(first.into_inner())),
            Some(Some(half)) => room_of_half(half, first, limit),
        }
    }
}

// The same of the half of a stream, whose limit is at least its first one.
fn room_of_half(half: &Send, first: VarInt, limit: u64) -> Result<u64, ClosedStream>
    ensures { result ≡ room_of_half limit (Some (record half.now { max_data = max half.now.max_data first })) }
{
    if !half.is_writable() {
        return Err(ClosedStream);
    }
    if half.stop_reason.is_some() {
        return Ok(0);
    }
    let stream_limit = greater(half.max_data, first).into_inner();
    Ok(limit.min(stream_limit.saturating_sub(half.offset())))
}
