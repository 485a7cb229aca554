//! What the linear programs of nodes are solved with.
ghost use Rattle.std.specs.Prelude.{◌≡◌, ◌≤◌, length, IfOk};
ghost use Rattle.cip_problem.specs.Limits.{most_columns};

use cip_basis::Basis;
use cip_cert::Scratch;
use cip_simplex::Solver;
use std::alloc::{AllocError, Global};

/// What the linear programs of nodes are solved with, kept from node to node: a basis that is guessed, the lists of the
/// simplex method, and what checks work in. Nothing of it says what a linear program comes to.
#[derive(Drop)]
pub struct NodeSolver {
    pub(crate) basis: Basis,
    pub(crate) solver: Solver,
    // none before the first linear program
    scratch: Option<Scratch>,
}

impl NodeSolver {
    /// As it begins; no memory is taken.
    pub fn new(alloc: Global) -> NodeSolver {
        NodeSolver {
            basis: Basis::new(alloc),
            solver: Solver::new(alloc),
            scratch: None,
        }
    }

    /// What checks over just so many columns work in: what is kept, if it is that, or else new. `Err` comes where
    /// memory was refused.
    pub(crate) fn room(&mut self, alloc: Global, columns: usize) -> Result<Scratch, AllocError>
        requires { columns ≤ most_columns }
        ensures { IfOk result (λ scratch. length scratch.row.entries ≡ columns) }
    {
        if let Some(scratch) = self.scratch.take() {
            if scratch.row.entries().len() == columns {
                return Ok(scratch);
            }
            drop(scratch);
        }
        Scratch::new(alloc, columns)
    }

    /// Keeps what checks work in for the next linear program.
    pub(crate) fn keep(&mut self, scratch: Scratch) {
        self.scratch = Some(scratch);
    }
}
