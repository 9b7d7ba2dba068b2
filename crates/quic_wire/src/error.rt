ghost use Rattle.std.specs.Prelude.{◌≡◌};
ghost use Rattle.quic_wire.specs.declared.error.ReceiveError.TheVariants.{Transport as transport, OutOfMemory as out_of_memory};

use quic_values::OutOfMemory;
use std::alloc::{AllocError, AllocFailed};
use thiserror::Error;

/// Why a connection is to be closed (RFC 9000 section 20.1): a code, one of the constants here, and what happened, for
/// a reader.
#[derive(Clone, Copy, Debug, Error, PartialEq, Eq)]
#[error("transport error {code}: {reason}")]
pub struct TransportError {
    pub code: u64,
    pub reason: &'static str,
}

impl TransportError {
    /// An internal error.
    pub const INTERNAL_ERROR: u64 = 1;
    /// More data were received than permitted.
    pub const FLOW_CONTROL_ERROR: u64 = 3;
    /// More streams were opened than permitted.
    pub const STREAM_LIMIT_ERROR: u64 = 4;
    /// A frame came for a stream in a state that does not permit it.
    pub const STREAM_STATE_ERROR: u64 = 5;
    /// The final size of a stream changed, or data lie above it.
    pub const FINAL_SIZE_ERROR: u64 = 6;
    /// A frame was badly formatted.
    pub const FRAME_ENCODING_ERROR: u64 = 7;
    /// The peer has more connection ids than permitted.
    pub const CONNECTION_ID_LIMIT_ERROR: u64 = 9;
    /// Another violation of the protocol.
    pub const PROTOCOL_VIOLATION: u64 = 10;

    /// An error of a code.
    #[inline]
    pub fn new(code: u64, reason: &'static str) -> Self
        ensures code { result.code ≡ code }
        ensures reason { result.reason.now ≡ reason.now }
    {
        TransportError { code, reason }
    }

    #[inline]
    pub fn internal_error(reason: &'static str) -> Self
        ensures code { result.code ≡ 1 }
        ensures reason { result.reason.now ≡ reason.now }
    {
        Self::new(Self::INTERNAL_ERROR, reason)
    }

    #[inline]
    pub fn flow_control_error(reason: &'static str) -> Self
        ensures code { result.code ≡ 3 }
        ensures reason { result.reason.now ≡ reason.now }
    {
        Self::new(Self::FLOW_CONTROL_ERROR, reason)
    }

    #[inline]
    pub fn stream_limit_error(reason: &'static str) -> Self
        ensures code { result.code ≡ 4 }
        ensures reason { result.reason.now ≡ reason.now }
    {
        Self::new(Self::STREAM_LIMIT_ERROR, reason)
    }

    #[inline]
    pub fn stream_state_error(reason: &'static str) -> Self
        ensures code { result.code ≡ 5 }
        ensures reason { result.reason.now ≡ reason.now }
    {
        Self::new(Self::STREAM_STATE_ERROR, reason)
    }

    #[inline]
    pub fn final_size_error(reason: &'static str) -> Self
        ensures code { result.code ≡ 6 }
        ensures reason { result.reason.now ≡ reason.now }
    {
        Self::new(Self::FINAL_SIZE_ERROR, reason)
    }

    #[inline]
    pub fn frame_encoding_error(reason: &'static str) -> Self
        ensures code { result.code ≡ 7 }
        ensures reason { result.reason.now ≡ reason.now }
    {
        Self::new(Self::FRAME_ENCODING_ERROR, reason)
    }

    #[inline]
    pub fn connection_id_limit_error(reason: &'static str) -> Self
        ensures code { result.code ≡ 9 }
        ensures reason { result.reason.now ≡ reason.now }
    {
        Self::new(Self::CONNECTION_ID_LIMIT_ERROR, reason)
    }

    #[inline]
    pub fn protocol_violation(reason: &'static str) -> Self
        ensures code { result.code ≡ 10 }
        ensures reason { result.reason.now ≡ reason.now }
    {
        Self::new(Self::PROTOCOL_VIOLATION, reason)
    }
}

/// Why a received frame was refused. `Transport`: the connection is to be closed. `OutOfMemory`: the frame was not
/// taken. `CompactionMemory`: the frame was taken, but there was no memory to compact what is held.
#[derive(Clone, Copy, Debug, Error, PartialEq, Eq)]
pub enum ReceiveError {
    #[error(transparent)]
    Transport(TransportError),
    #[error("out of memory")]
    OutOfMemory,
    #[error("out of memory")]
    CompactionMemory,
}

impl From<TransportError> for ReceiveError {
    ghost from_gives = { λ error e. e ≡ transport error };

    fn from(error: TransportError) -> ReceiveError {
        ReceiveError::Transport(error)
    }
}

impl From<OutOfMemory> for ReceiveError {
    ghost from_gives = { λ _ e. e ≡ out_of_memory };

    fn from(_error: OutOfMemory) -> ReceiveError {
        ReceiveError::OutOfMemory
    }
}

impl From<AllocError> for ReceiveError {
    ghost from_gives = { λ _ e. e ≡ out_of_memory };

    fn from(_error: AllocError) -> ReceiveError {
        ReceiveError::OutOfMemory
    }
}

impl<T: Drop> From<AllocFailed<T>> for ReceiveError {
    ghost from_gives = { λ _ e. e ≡ out_of_memory };

    fn from(_error: AllocFailed<T>) -> ReceiveError {
        ReceiveError::OutOfMemory
    }
}
