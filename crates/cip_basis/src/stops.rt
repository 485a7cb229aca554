//! Why a guess ends without an answer.
use std::alloc::{AllocError, AllocFailed};

/// Why a guess ends without an answer.
#[derive(Clone, Copy)]
pub(crate) enum Stop {
    /// A number is too great, or too much work was done.
    GaveUp,
    /// Memory was refused.
    NoMemory,
}

impl From<AllocError> for Stop {
    fn from(_error: AllocError) -> Stop {
        Stop::NoMemory
    }
}

impl<T: Drop> From<AllocFailed<T>> for Stop {
    fn from(_error: AllocFailed<T>) -> Stop {
        Stop::NoMemory
    }
}
