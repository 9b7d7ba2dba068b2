//! The limits of the peer's transport parameters.

ghost use Rattle.std.specs.Prelude.{ℕ, List, ◌∷◌, ◌≡◌, ◌&&◌, ◌^◌, nat_le, true, OnOk, OnErr, IsOk};
ghost use Rattle.quic_history.specs.World.{Made};
ghost use Rattle.quic_history.specs.History.{Event, From};
ghost use Rattle.quic_history.specs.Sends.{with_params_given};
ghost use Rattle.quic_endpoint.specs.Ends.{with_world};
ghost use Rattle.quic_endpoint.specs.Receiving.{with_call_made};
ghost use Rattle.quic_session.specs.Params.{are_stream_limits, ChecksLimits, params_call};
ghost use Rattle.quic_session.specs.Sessions.{end_of, beside_of};

use crate::session::Session;
use quic_streams::PeerLimits;
use quic_wire::TransportError;
use thiserror::Error;

/// Why the peer's limits were not taken.
#[derive(Clone, Copy, Debug, Error, PartialEq, Eq)]
pub enum ParamsError {
    /// A stream limit is above 2^60: the connection is to be closed with
    /// [`TRANSPORT_PARAMETER_ERROR`](ParamsError::TRANSPORT_PARAMETER_ERROR) (RFC 9000 section 18.2).
    #[error(transparent)]
    Transport(TransportError),
    /// There was no memory.
    #[error("out of memory")]
    OutOfMemory,
}

impl ParamsError {
    /// The code of an error in transport parameters (RFC 9000 section 20.1).
    pub const TRANSPORT_PARAMETER_ERROR: u64 = 8;
}

// The greatest stream limit (RFC 9000 section 18.2).
const MOST_STREAMS: u64 = 1 << 60;

impl Session {
    /// Takes the limits of the peer's transport parameters (RFC 9000 section 7.4). Streams of this endpoint that may then be
    /// written raise events. Stream limits above 2^60 are an error. On error nothing changes. It needs no memory before a
    /// stream is opened.
    pub fn set_params(&mut self, params: &PeerLimits) -> Result<(), ParamsError>
        ensures params { OnOk result (end_of self.new ≡ with_world (end_of self.old) (with_params_given (end_of self.old).streams params.now)) }
        ensures err { OnErr result (end_of self.new ≡ end_of self.old) }
        ensures checks { ChecksLimits params.now result }
        ensures free { are_stream_limits params.now ≡ true → (end_of self.old).streams.out.own_bi.opened ≡ 0 → (end_of self.old).streams.out.own_uni.opened ≡ 0 → IsOk result }
        ensures from { (m : Made) (h : List Event) → From m h (end_of self.old).streams → From m (with_call_made (params_call params.now result) h) (end_of self.new).streams }
        ensures beside { beside_of self.new ≡ beside_of self.old }
        ensures users { self.new.users ≡ self.old.users }
    {
        if !are_stream_limits(params) {
            return Err(ParamsError::Transport(TransportError::new(
                ParamsError::TRANSPORT_PARAMETER_ERROR,
                "stream limit above 2^60",
            )));
        }
        match self.endpoint.set_params(params) {
            Ok(()) => Ok(()),
            Err(_) => Err(ParamsError::OutOfMemory),
        }
    }
}

// Whether the stream limits are at most 2^60.
fn are_stream_limits(params: &PeerLimits) -> bool
    ensures { result ≡ are_stream_limits params.now }
{
    params.initial_max_streams_bidi.into_inner() <= MOST_STREAMS
        && params.initial_max_streams_uni.into_inner() <= MOST_STREAMS
}
