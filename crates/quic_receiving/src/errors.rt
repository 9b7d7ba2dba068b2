use quic_assembler::{EnsureError, IllegalOrderedRead};
use quic_sending::ClosedStream;
use quic_values::{OutOfMemory, VarInt};
use thiserror::Error;

/// Why a read gave no chunk.
#[derive(Clone, Copy, Debug, Error, PartialEq, Eq, PartialOrd, Ord, Hash)]
pub enum ReadError {
    /// What follows did not come yet.
    #[error("blocked")]
    Blocked,
    /// The peer gave the stream up, with this code (RFC 9000 section 19.4).
    #[error("reset by peer: code {0}")]
    Reset(VarInt),
    /// No memory was there to cut a chunk. Nothing was given.
    #[error("out of memory")]
    OutOfMemory,
}

impl From<OutOfMemory> for ReadError {
    ghost use Rattle.std.specs.Prelude.{◌≡◌};
    ghost use Rattle.quic_receiving.specs.declared.errors.ReadError.TheVariants as read_error;

    ghost from_gives = { λ _ error. error ≡ read_error.OutOfMemory };

    fn from(_error: OutOfMemory) -> ReadError {
        ReadError::OutOfMemory
    }
}

/// Why a stream is not open for reading.
#[derive(Clone, Copy, Debug, Error, PartialEq, Eq, PartialOrd, Ord, Hash)]
pub enum ReadableError {
    /// The stream was not opened, or was stopped, or its end or reset was told.
    #[error("closed stream")]
    ClosedStream,
    #[doc = "Reads were unordered before, and there is no way back."]
    #[error("ordered read after unordered read")]
    IllegalOrderedRead,
    /// No memory was there.
    #[error("out of memory")]
    OutOfMemory,
}

impl From<ClosedStream> for ReadableError {
    ghost use Rattle.std.specs.Prelude.{◌≡◌};
    ghost use Rattle.quic_receiving.specs.declared.errors.ReadableError.TheVariants as readable_error;

    ghost from_gives = { λ _ error. error ≡ readable_error.ClosedStream };

    fn from(_error: ClosedStream) -> ReadableError {
        ReadableError::ClosedStream
    }
}

impl From<IllegalOrderedRead> for ReadableError {
    ghost use Rattle.std.specs.Prelude.{◌≡◌};
    ghost use Rattle.quic_receiving.specs.declared.errors.ReadableError.TheVariants as readable_error;

    ghost from_gives = { λ _ error. error ≡ readable_error.IllegalOrderedRead };

    fn from(_error: IllegalOrderedRead) -> ReadableError {
        ReadableError::IllegalOrderedRead
    }
}

impl From<OutOfMemory> for ReadableError {
    ghost use Rattle.std.specs.Prelude.{◌≡◌};
    ghost use Rattle.quic_receiving.specs.declared.errors.ReadableError.TheVariants as readable_error;

    ghost from_gives = { λ _ error. error ≡ readable_error.OutOfMemory };

    fn from(_error: OutOfMemory) -> ReadableError {
        ReadableError::OutOfMemory
    }
}

impl From<EnsureError> for ReadableError {
    ghost use Rattle.std.specs.Prelude.{◌≡◌};
    ghost use Rattle.quic_receiving.specs.Errors.{readable_error_of};

    ghost from_gives = { λ error readable. readable ≡ readable_error_of error };

    fn from(error: EnsureError) -> ReadableError {
        match error {
            EnsureError::IllegalOrderedRead => ReadableError::IllegalOrderedRead,
            EnsureError::OutOfMemory => ReadableError::OutOfMemory,
        }
    }
}
