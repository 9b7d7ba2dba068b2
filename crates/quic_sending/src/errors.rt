use crate::send::ClosedStream;
use quic_values::OutOfMemory;
use thiserror::Error;

/// Why a call on a stream that may take memory was refused.
#[derive(Clone, Copy, Debug, Error, PartialEq, Eq, PartialOrd, Ord, Hash)]
pub enum HandleError {
    /// The stream was not opened, or it is closed.
    #[error("closed stream")]
    ClosedStream,
    /// No memory was there.
    #[error("out of memory")]
    OutOfMemory,
}

impl From<ClosedStream> for HandleError {
    ghost use Rattle.std.specs.Prelude.{◌≡◌};
    ghost use Rattle.quic_sending.specs.declared.errors.HandleError.TheVariants as handle_error;

    ghost from_gives = { λ _ error. error ≡ handle_error.ClosedStream };

    fn from(_error: ClosedStream) -> HandleError {
        HandleError::ClosedStream
    }
}

impl From<OutOfMemory> for HandleError {
    ghost use Rattle.std.specs.Prelude.{◌≡◌};
    ghost use Rattle.quic_sending.specs.declared.errors.HandleError.TheVariants as handle_error;

    ghost from_gives = { λ _ error. error ≡ handle_error.OutOfMemory };

    fn from(_error: OutOfMemory) -> HandleError {
        HandleError::OutOfMemory
    }
}
