//! The one answer that is no refusal: that memory ran out.
use std::alloc::{AllocError, AllocFailed};

/// Memory ran out. What the call was lent is as before, if the call doesn't say otherwise.
///
/// Example: where no block is left for a copy of `b"ab"`, `Twin::copy` answers `Err(NoMemory)`.
#[derive(Clone, Copy, Debug, PartialEq, Eq)]
pub struct NoMemory;

impl From<AllocError> for NoMemory {
    fn from(_e: AllocError) -> NoMemory {
        NoMemory
    }
}

impl<T: Drop> From<AllocFailed<T>> for NoMemory {
    fn from(_e: AllocFailed<T>) -> NoMemory {
        NoMemory
    }
}

/// The answer of a call that fails only for want of memory.
///
/// Example: `lower(alloc, b"aB")` is `Ok` of the vector of `b"ab"`, or `Err(NoMemory)`.
pub type Made<T> = Result<T, NoMemory>;
