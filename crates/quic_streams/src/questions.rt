//! Questions about single streams, which change nothing.

ghost use Rattle.std.specs.Prelude.{◌≡◌, is_some};
ghost use Rattle.quic_limits.specs.Remote.{open_now};
ghost use Rattle.quic_outgoing.specs.Calls.{told_of_half};
ghost use Rattle.quic_outgoing.specs.Rooms.{send_room};
ghost use Rattle.quic_history.specs.World.{remote_of};
ghost use Rattle.quic_streams.specs.Shown.{streams_view};

use crate::state::StreamsState;
use quic_sending::ClosedStream;
use quic_values::{Dir, Side, StreamId, VarInt};

#[tactic(auto, unfolding(crate::specs::Shown::streams_view))]
impl StreamsState {
    /// The priority of a stream: the one that was set last, 0 at first.
    pub fn priority(&self, id: StreamId) -> Result<i32, ClosedStream>
        ensures { result ≡ told_of_half (λ s. s.priority) ((streams_view self.now).out.halves id) }
    {
        self.outgoing.priority(id)
    }

    /// The code of the first STOP_SENDING that was received for a stream, if there is one (RFC 9000 section 19.5).
    pub fn stopped(&self, id: StreamId) -> Result<Option<VarInt>, ClosedStream>
        ensures { result ≡ told_of_half (λ s. s.stop_reason) ((streams_view self.now).out.halves id) }
    {
        self.outgoing.stopped(id)
    }

    /// How many bytes a write on a stream would take now at most, while the connection is open (RFC 9000 section 4.1).
    pub fn send_room(&self, id: StreamId) -> Result<u64, ClosedStream>
        ensures { result ≡ send_room (streams_view self.now).out ((streams_view self.now).out.halves id) }
    {
        self.outgoing.send_room(id)
    }

    /// How many streams of a direction the peer has open: those that it opened, less those that were wholly freed.
    pub fn remote_open_streams(&self, dir: Dir) -> u64
        ensures { result ≡ open_now (remote_of (streams_view self.now) dir) }
    {
        self.remote_open(dir)
    }

    /// How many streams have send state: those that this endpoint opened and those of the peer that it accepted, until the
    /// FIN and all data, or the reset, are acknowledged.
    pub fn send_streams(&self) -> usize
        ensures { result ≡ (streams_view self.now).send_streams }
    {
        self.send_streams
    }

    /// Which endpoint this is.
    pub fn side(&self) -> Side
        ensures { result ≡ (streams_view self.now).out.side }
    {
        self.outgoing.side()
    }

    /// Whether there is state of a stream's receive side.
    pub fn has_receive_side(&self, id: StreamId) -> bool
        ensures { result ≡ is_some ((streams_view self.now).receive id) }
    {
        self.receive.contains(id)
    }

    /// Whether there is state of a stream's send side.
    pub fn has_send_side(&self, id: StreamId) -> bool
        ensures { result ≡ is_some ((streams_view self.now).out.halves id) }
    {
        self.outgoing.contains(id)
    }
}
