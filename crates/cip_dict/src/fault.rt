//! Why a state can't be formed.
use cip_bland::EntryPlace;
use std::alloc::AllocError;

/// The first operation of a move that leaves the range of fractions.
#[derive(Clone, Copy)]
pub struct OutOfRange {
    /// Where it is formed.
    pub place: EntryPlace,
}

/// Why an exchange isn't made.
#[derive(Clone, Copy)]
pub enum MoveFault {
    /// The first operation that leaves the range of fractions is formed there.
    OutOfRange { place: EntryPlace },
    /// A growth was refused.
    NoMemory,
}

impl From<AllocError> for MoveFault {
    ghost use Rattle.std.specs.Prelude.{◌≡◌};
    ghost use Rattle.cip_dict.specs.declared.fault.MoveFault.{MoveFault};

    ghost from_gives = { λ _ fault. fault ≡ MoveFault.NoMemory };

    fn from(_error: AllocError) -> MoveFault {
        MoveFault::NoMemory
    }
}

/// Why there is no first state.
#[derive(Clone, Copy)]
pub enum FirstFault {
    /// The first operation that leaves the range of fractions is formed there.
    OutOfRange { place: EntryPlace },
    /// A growth was refused.
    NoMemory,
}

impl From<AllocError> for FirstFault {
    ghost use Rattle.std.specs.Prelude.{◌≡◌};
    ghost use Rattle.cip_dict.specs.declared.fault.FirstFault.{FirstFault};

    ghost from_gives = { λ _ fault. fault ≡ FirstFault.NoMemory };

    fn from(_error: AllocError) -> FirstFault {
        FirstFault::NoMemory
    }
}
