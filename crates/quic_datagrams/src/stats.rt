//! How many frames of each type were sent or received.

ghost use Rattle.std.specs.Prelude.{◌≡◌};
ghost use Rattle.quic_values.specs.Offsets.{one_more};

use quic_wire::{Dir, Frame};
use std::fmt;

// How many frames there were.
type Count = u64;

/// How many frames there were of each type (RFC 9000 section 12.4). A counter stops at the greatest value of its type.
#[derive(Clone, Copy, Default)]
pub struct FrameStats {
    pub acks: Count,
    pub ack_frequency: Count,
    pub crypto: Count,
    pub connection_close: Count,
    pub data_blocked: Count,
    pub datagram: Count,
    pub handshake_done: u8,
    pub immediate_ack: Count,
    pub max_data: Count,
    pub max_stream_data: Count,
    /// MAX_STREAMS for bidirectional streams.
    pub max_streams_bidi: Count,
    /// MAX_STREAMS for unidirectional streams.
    pub max_streams_uni: Count,
    pub new_connection_id: Count,
    pub new_token: Count,
    pub path_challenge: Count,
    pub path_response: Count,
    pub ping: Count,
    pub reset_stream: Count,
    pub retire_connection_id: Count,
    pub stream_data_blocked: Count,
    /// STREAMS_BLOCKED for bidirectional streams.
    pub streams_blocked_bidi: Count,
    /// STREAMS_BLOCKED for unidirectional streams.
    pub streams_blocked_uni: Count,
    pub stop_sending: Count,
    pub stream: Count,
}

fn count(counter: &mut u64)
    ensures { counter.new ≡ one_more counter.old }
{
    *counter = counter.saturating_add(1);
}

impl FrameStats {
    ghost use Rattle.quic_datagrams.specs.Counting.{with_frame};

    /// Counters that have counted nothing.
    pub fn new() -> Self
        ensures { result ≡ record {
          acks = 0;
          ack_frequency = 0;
          crypto = 0;
          connection_close = 0;
          data_blocked = 0;
          datagram = 0;
          handshake_done = 0;
          immediate_ack = 0;
          max_data = 0;
          max_stream_data = 0;
          max_streams_bidi = 0;
          max_streams_uni = 0;
          new_connection_id = 0;
          new_token = 0;
          path_challenge = 0;
          path_response = 0;
          ping = 0;
          reset_stream = 0;
          retire_connection_id = 0;
          stream_data_blocked = 0;
          streams_blocked_bidi = 0;
          streams_blocked_uni = 0;
          stop_sending = 0;
          stream = 0;
        } }
    {
        FrameStats {
            acks: 0,
            ack_frequency: 0,
            crypto: 0,
            connection_close: 0,
            data_blocked: 0,
            datagram: 0,
            handshake_done: 0,
            immediate_ack: 0,
            max_data: 0,
            max_stream_data: 0,
            max_streams_bidi: 0,
            max_streams_uni: 0,
            new_connection_id: 0,
            new_token: 0,
            path_challenge: 0,
            path_response: 0,
            ping: 0,
            reset_stream: 0,
            retire_connection_id: 0,
            stream_data_blocked: 0,
            streams_blocked_bidi: 0,
            streams_blocked_uni: 0,
            stop_sending: 0,
            stream: 0,
        }
    }

    /// Counts a frame. Padding counts nothing.
    pub fn record(&mut self, frame: &Frame)
        ensures { self.new ≡ with_frame self.old frame.now }
    {
        match frame {
            Frame::Padding => {}
            Frame::HandshakeDone => self.handshake_done = self.handshake_done.saturating_add(1),
            Frame::Ping => count(&mut self.ping),
            Frame::Ack => count(&mut self.acks),
            Frame::ResetStream(_) => count(&mut self.reset_stream),
            Frame::StopSending(_) => count(&mut self.stop_sending),
            Frame::Crypto(_) => count(&mut self.crypto),
            Frame::NewToken => count(&mut self.new_token),
            Frame::Stream(_) => count(&mut self.stream),
            Frame::MaxData(_) => count(&mut self.max_data),
            Frame::MaxStreamData { .. } => count(&mut self.max_stream_data),
            Frame::MaxStreams { dir: Dir::Bi, .. } => count(&mut self.max_streams_bidi),
            Frame::MaxStreams { dir: Dir::Uni, .. } => count(&mut self.max_streams_uni),
            Frame::DataBlocked { .. } => count(&mut self.data_blocked),
            Frame::StreamDataBlocked { .. } => count(&mut self.stream_data_blocked),
            Frame::StreamsBlocked { dir: Dir::Bi } => count(&mut self.streams_blocked_bidi),
            Frame::StreamsBlocked { dir: Dir::Uni } => count(&mut self.streams_blocked_uni),
            Frame::NewConnectionId => count(&mut self.new_connection_id),
            Frame::RetireConnectionId => count(&mut self.retire_connection_id),
            Frame::PathChallenge => count(&mut self.path_challenge),
            Frame::PathResponse => count(&mut self.path_response),
            Frame::Close => count(&mut self.connection_close),
            Frame::Datagram(_) => count(&mut self.datagram),
            Frame::AckFrequency => count(&mut self.ack_frequency),
            Frame::ImmediateAck => count(&mut self.immediate_ack),
        }
    }
}

impl fmt::Debug for FrameStats {
    fn fmt<W: fmt::Write>(&self, f: &mut fmt::Formatter<W>) -> fmt::Result {
        let counters = self;
        f.debug_struct("FrameStats")
            .field("ACK", &counters.acks)
            .field("ACK_FREQUENCY", &counters.ack_frequency)
            .field("CONNECTION_CLOSE", &counters.connection_close)
            .field("CRYPTO", &counters.crypto)
            .field("DATA_BLOCKED", &counters.data_blocked)
            .field("DATAGRAM", &counters.datagram)
            .field("HANDSHAKE_DONE", &counters.handshake_done)
            .field("IMMEDIATE_ACK", &counters.immediate_ack)
            .field("MAX_DATA", &counters.max_data)
            .field("MAX_STREAM_DATA", &counters.max_stream_data)
            .field("MAX_STREAMS_BIDI", &counters.max_streams_bidi)
            .field("MAX_STREAMS_UNI", &counters.max_streams_uni)
            .field("NEW_CONNECTION_ID", &counters.new_connection_id)
            .field("NEW_TOKEN", &counters.new_token)
            .field("PATH_CHALLENGE", &counters.path_challenge)
            .field("PATH_RESPONSE", &counters.path_response)
            .field("PING", &counters.ping)
            .field("RESET_STREAM", &counters.reset_stream)
            .field("RETIRE_CONNECTION_ID", &counters.retire_connection_id)
            .field("STREAM_DATA_BLOCKED", &counters.stream_data_blocked)
            .field("STREAMS_BLOCKED_BIDI", &counters.streams_blocked_bidi)
            .field("STREAMS_BLOCKED_UNI", &counters.streams_blocked_uni)
            .field("STOP_SENDING", &counters.stop_sending)
            .field("STREAM", &counters.stream)
            .finish()
    }
}
