use quic_assembler::{EnsureError, InsertError};
use quic_sending::FinishError;
use quic_values::OutOfMemory;
use quic_wire::{DecodeError, ReceiveError};
use std::alloc::{AllocError, AllocFailed};

/// The answer of a case that was not run to its end.
pub const REFUSED: u64 = u64::MAX;

/// The case cannot go on.
#[derive(Clone, Copy, Debug, PartialEq, Eq)]
pub(crate) struct Refused;

impl From<OutOfMemory> for Refused {
    fn from(_error: OutOfMemory) -> Self {
        Refused
    }
}

impl From<AllocError> for Refused {
    fn from(_error: AllocError) -> Self {
        Refused
    }
}

impl<T: Drop> From<AllocFailed<T>> for Refused {
    fn from(_error: AllocFailed<T>) -> Self {
        Refused
    }
}

impl From<InsertError> for Refused {
    fn from(_error: InsertError) -> Self {
        Refused
    }
}

impl From<EnsureError> for Refused {
    fn from(_error: EnsureError) -> Self {
        Refused
    }
}

impl From<FinishError> for Refused {
    fn from(_error: FinishError) -> Self {
        Refused
    }
}

impl From<DecodeError> for Refused {
    fn from(_error: DecodeError) -> Self {
        Refused
    }
}

impl From<ReceiveError> for Refused {
    fn from(_error: ReceiveError) -> Self {
        Refused
    }
}
