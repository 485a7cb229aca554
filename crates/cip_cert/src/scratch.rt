//! What checks work in.
ghost use Rattle.std.specs.Prelude.{◌≡◌, ◌≤◌, replicate, IfOk};
ghost use Rattle.cip_rational.specs.Rational.{zeroℚ};
ghost use Rattle.cip_problem.specs.Box.{no_sides};
ghost use Rattle.cip_problem.specs.Limits.{most_columns};

use crate::sparse::SparseRow;
use cip_lin::Bounds;
use std::alloc::{AllocError, Global};

/// A row and a box of so many columns, reused from check to check. After `derive` has accepted, the row holds the
/// coefficients of the aggregated row; after any other check, and after a fault, anything. Checks leave the box as it
/// is.
#[derive(Drop)]
pub struct Scratch {
    /// The coefficients.
    pub row: SparseRow,
    /// A box for whoever works down a tree.
    pub bounds: Bounds,
}

impl Scratch {
    /// Room for so many columns, at most 65,536; `Err` where the memory for it was refused.
    pub fn new(alloc: Global, columns: usize) -> Result<Scratch, AllocError>
        requires { columns ≤ most_columns }
        ensures row { IfOk result (λ scratch. scratch.row.entries ≡ replicate columns zeroℚ) }
        ensures bounds { IfOk result (λ scratch. scratch.bounds ≡ replicate columns no_sides) }
    {
        let row = SparseRow::new(alloc, columns)?;
        let bounds = Bounds::new(alloc, columns)?;
        Ok(Scratch { row, bounds })
    }
}
