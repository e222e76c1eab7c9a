//! Want of memory.
use std::alloc::{AllocError, AllocFailed};

/// An allocation failed. It is the one failure that no contract explains, since no clause can say that memory
/// suffices.
#[derive(Clone, Copy, Debug, PartialEq, Eq, Hash)]
pub struct NoMemory;

impl From<AllocError> for NoMemory {
    fn from(_: AllocError) -> Self {
        NoMemory
    }
}

impl<T: Drop> From<AllocFailed<T>> for NoMemory {
    fn from(_: AllocFailed<T>) -> Self {
        NoMemory
    }
}
