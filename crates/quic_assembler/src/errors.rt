use quic_values::OutOfMemory;
use thiserror::Error;

/// An ordered read was asked for after an unordered one.
#[derive(Clone, Copy, Debug, Error, PartialEq, Eq)]
#[error("ordered read after unordered read")]
pub struct IllegalOrderedRead;

/// Why an insert did not answer Ok.
#[derive(Clone, Copy, Debug, Error, PartialEq, Eq)]
pub enum InsertError {
    /// More than 1024 pieces are held after compaction. The new piece is kept.
    #[error("too many pieces")]
    TooManyChunks,
    /// There was no memory to compact what is held. The new piece is kept.
    #[error("no memory for compaction")]
    CompactionMemory,
    /// There was no memory for the piece. Nothing was changed.
    #[error("out of memory")]
    OutOfMemory,
}

impl From<OutOfMemory> for InsertError {
    ghost use Rattle.quic_assembler.specs.declared.errors.InsertError.TheVariants.{OutOfMemory};
    ghost use Rattle.std.specs.Prelude.{◌≡◌};

    ghost from_gives = { λ _ error. error ≡ OutOfMemory };

    fn from(_error: OutOfMemory) -> Self {
        InsertError::OutOfMemory
    }
}

/// Why the mode was not changed.
#[derive(Clone, Copy, Debug, Error, PartialEq, Eq)]
pub enum EnsureError {
    /// Reads are unordered already, and there is no way back.
    #[error("ordered read after unordered read")]
    IllegalOrderedRead,
    /// There was no memory. The mode is as it was, and so is what is held and done.
    #[error("out of memory")]
    OutOfMemory,
}

impl From<OutOfMemory> for EnsureError {
    ghost use Rattle.quic_assembler.specs.declared.errors.EnsureError.TheVariants.{OutOfMemory};
    ghost use Rattle.std.specs.Prelude.{◌≡◌};

    ghost from_gives = { λ _ error. error ≡ OutOfMemory };

    fn from(_error: OutOfMemory) -> Self {
        EnsureError::OutOfMemory
    }
}
