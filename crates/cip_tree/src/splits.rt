//! Splits of one column.
ghost use Rattle.std.specs.Prelude.{◌≡◌};

use std::alloc::AllocError;

/// Why a node was not split.
#[derive(Clone, Copy, PartialEq, Eq)]
pub enum SplitFault {
    /// The column is neither a whole one that is plain nor one whose choice is open.
    NotWhole,
    /// The column is whole, and the number has a size above 2^101, or a half has no whole value.
    Outside,
    /// A growth was refused.
    NoMemory,
}

impl From<AllocError> for SplitFault {
    ghost use Rattle.cip_tree.specs.declared.splits.SplitFault.TheVariants.{NoMemory};

    ghost from_gives = { λ error fault. fault ≡ NoMemory };

    fn from(_error: AllocError) -> SplitFault {
        SplitFault::NoMemory
    }
}
