ghost use Rattle.std.specs.Prelude.{◌≡◌, Some, None};

use quic_values::VarInt;

/// How far the peer has told where the stream ends (RFC 9000 sections 3.2 and 4.5).
#[derive(Clone, Copy, Debug, PartialEq, Eq)]
pub enum RecvState {
    /// Data are received. The final size is known once a frame with FIN came.
    Recv { size: Option<u64> },
    /// RESET_STREAM was received, with the final size and the code.
    ResetRecvd { size: u64, error_code: VarInt },
}

impl Default for RecvState {
    fn default() -> Self
        ensures { result ≡ RecvState.Recv None }
    {
        RecvState::Recv { size: None }
    }
}

impl RecvState {
    ghost use Rattle.quic_receiving.specs.State.{known_size, reset_code_of};

    // The final size, where it is known.
    #[inline]
    pub(crate) fn final_size(self) -> Option<u64>
        ensures { result ≡ known_size self }
    {
        match self {
            RecvState::Recv { size } => size,
            RecvState::ResetRecvd { size, .. } => Some(size),
        }
    }

    // The code of the RESET_STREAM, if one was taken.
    #[inline]
    pub(crate) fn reset_code(self) -> Option<VarInt>
        ensures { result ≡ reset_code_of self }
    {
        match self {
            RecvState::Recv { .. } => None,
            RecvState::ResetRecvd { error_code, .. } => Some(error_code),
        }
    }
}
