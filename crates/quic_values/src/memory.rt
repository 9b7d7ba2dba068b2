use std::alloc::{AllocError, AllocFailed};
use thiserror::Error;

/// Out of memory. The call that answers it says what it leaves as it was.
#[derive(Clone, Copy, Debug, Error, PartialEq, Eq, Hash)]
#[error("out of memory")]
pub struct OutOfMemory;

/// The short name of [`OutOfMemory`], in signatures.
pub type Oom = OutOfMemory;

impl From<AllocError> for OutOfMemory {
    fn from(_error: AllocError) -> OutOfMemory {
        OutOfMemory
    }
}

impl<T: Drop> From<AllocFailed<T>> for OutOfMemory {
    fn from(_error: AllocFailed<T>) -> OutOfMemory {
        OutOfMemory
    }
}
