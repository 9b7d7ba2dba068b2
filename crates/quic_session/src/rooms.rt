//! How many bytes a stream takes now.

ghost use Rattle.std.specs.Prelude.{◌≡◌, true, false, Err};
ghost use Rattle.quic_history.specs.Acknowledged.{was_given};
ghost use Rattle.quic_streams.specs.Connection.{is_shut};
ghost use Rattle.quic_session.specs.Rooms.{room_of};
ghost use Rattle.quic_session.specs.Sessions.{end_of};

use crate::session::Session;
use quic_sending::ClosedStream;
use quic_streams::streams::ConnState;
use quic_values::StreamId;

impl Session {
    /// How many bytes [`Session::write`] would take on a stream now: the least of what the peer's limits for the stream and
    /// for the connection (RFC 9000 section 4.1) and the send window leave, or all bytes if they are fewer. 0: it would be
    /// `Blocked`, or `Stopped`. Nothing is noted as blocked.
    pub fn send_room(&self, id: StreamId) -> Result<u64, ClosedStream>
        ensures told { was_given (end_of self.now).streams id ≡ true → result ≡ room_of (end_of self.now).streams id (is_shut self.now.conn) }
        ensures unknown { was_given (end_of self.now).streams id ≡ false → result ≡ Err (record {}) }
    {
        if !self.was_given(id) {
            return Err(ClosedStream);
        }
        if matches!(self.conn, ConnState::Closed) {
            return Ok(0);
        }
        self.endpoint.streams().send_room(id)
    }
}
