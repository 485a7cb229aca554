//! The master program that is kept.
use cip_frac::Frac;
use cip_lin::{Bounds, Row};
use std::alloc::AllocError;

/// The master program of held points: its columns are those of no block, and then a weight for each point by rising id.
/// Points that are new are put behind the others.
#[derive(Drop)]
pub struct MasterProgram {
    /// The master rows, by rising number in the program, over the columns of no block and the weights.
    pub masters: Vec<Row>,
    /// For each block the row by which its weights sum to 1.
    pub sums: Vec<Row>,
    /// The sides of the columns of no block in the box, and those of the weights, which are at least 0.
    pub bounds: Bounds,
    /// What each column costs.
    pub costs: Vec<Frac>,
    /// The id of each weight's point.
    pub ids: Vec<u32>,
    /// How many points of the pool were looked at.
    pub seen: usize,
}

/// Why points weren't taken. The master program is of no use then.
#[derive(Clone, Copy)]
pub enum MasterFault {
    /// The cost of a point, or what it comes to in a master row, is out of range.
    Wide,
    /// A growth was refused.
    NoMemory,
}

impl From<AllocError> for MasterFault {
    ghost use Rattle.std.specs.Prelude.{◌≡◌};
    ghost use Rattle.cip_master.specs.declared.masters.MasterFault.{MasterFault};

    ghost from_gives = { λ _ fault. fault ≡ MasterFault.NoMemory };

    fn from(_error: AllocError) -> MasterFault {
        MasterFault::NoMemory
    }
}
