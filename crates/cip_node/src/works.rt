//! What works on nodes.
ghost use Rattle.std.specs.Prelude.{IfOk};
ghost use Rattle.cip_core.specs.PresolvedPrograms.{IsPresolved};
ghost use Rattle.cip_core.specs.Beginning.{AreNearColumns, HasNotBegun};

use crate::starts::Starts;
use cip_core::{Core, Presolved};
use cip_model::Program;
use cip_relax::NodeSolver;
use std::alloc::{AllocError, Global};

/// What works on nodes: the core of a search, and what solves the linear programs of its nodes, with where they start.
#[derive(Drop)]
pub struct NodeWork<'a> {
    /// The core.
    pub core: Core<'a>,
    /// What solves linear programs.
    pub solver: NodeSolver,
    /// Where they start.
    pub starts: Starts,
}

impl<'a> NodeWork<'a> {
    /// What works on the nodes of the program that presolve made of one, before a node was taken up. The sides of whole
    /// columns of the reduced program have sizes of at most 2^100. `Err` comes where memory was refused.
    pub fn new(
        alloc: Global,
        program: &'a Program,
        presolved: &'a Presolved,
    ) -> Result<NodeWork<'a>, AllocError>
        requires near { AreNearColumns presolved.now.reduced }
        requires back { IsPresolved program.now presolved.now }
        ensures { IfOk result (λ work.
            HasNotBegun program.now presolved.now.reduced presolved.now.steps work.core) }
    {
        let core = Core::new(alloc, program, presolved)?;
        Ok(NodeWork {
            core,
            solver: NodeSolver::new(alloc),
            starts: Starts::new(alloc),
        })
    }
}
