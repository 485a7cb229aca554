//! Why work on a cut ends without one.
use std::alloc::{AllocError, AllocFailed};

/// Why work on a cut ends without one.
#[derive(Clone, Copy)]
pub enum Stop {
    /// A number is too great, or a side that is wanted isn't there.
    GaveUp,
    /// Memory was refused.
    NoMemory,
}

impl From<AllocError> for Stop {
    fn from(_error: AllocError) -> Stop {
        Stop::NoMemory
    }
}

impl<T: Drop> From<AllocFailed<T>> for Stop {
    fn from(_error: AllocFailed<T>) -> Stop {
        Stop::NoMemory
    }
}

/// Goes on where the work gave up. `Err` where memory was refused.
pub fn unless_refused(outcome: Result<(), Stop>) -> Result<(), AllocError> {
    match outcome {
        Err(Stop::NoMemory) => Err(AllocError),
        _ => Ok(()),
    }
}
