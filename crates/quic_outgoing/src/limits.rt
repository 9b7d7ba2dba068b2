//! The limits that the peer gives at first.

ghost use Rattle.std.specs.Prelude.{◌≡◌};
ghost use Rattle.quic_outgoing.specs.Outgoing.{first_of};

use crate::entries::FirstLimits;
use quic_values::VarInt;

/// The limits of a peer's transport parameters (RFC 9000 section 18.2).
///
/// Of the limits for bidirectional streams, `local` is that of the streams which the peer opens, and `remote` that of
/// those which the peer does not open.
#[derive(Clone, Copy, Debug, PartialEq, Eq)]
pub struct PeerLimits {
    /// How many bytes may be sent on all streams together.
    pub initial_max_data: VarInt,
    /// How many bidirectional streams may be opened. A number above 2^60 counts as 2^60.
    pub initial_max_streams_bidi: VarInt,
    /// The same for unidirectional streams.
    pub initial_max_streams_uni: VarInt,
    /// How many bytes may be sent on a unidirectional stream.
    pub initial_max_stream_data_uni: VarInt,
    /// The same on a bidirectional stream that the peer opens.
    pub initial_max_stream_data_bidi_local: VarInt,
    /// The same on a bidirectional stream that the peer does not open.
    pub initial_max_stream_data_bidi_remote: VarInt,
}

impl PeerLimits {
    // The limits that streams begin with.
    pub(crate) fn first_limits(&self) -> FirstLimits
        ensures { result ≡ first_of self.now }
    {
        FirstLimits {
            uni: self.initial_max_stream_data_uni,
            own_bi: self.initial_max_stream_data_bidi_remote,
            peer_bi: self.initial_max_stream_data_bidi_local,
        }
    }
}
