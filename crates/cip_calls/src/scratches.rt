//! What checks of proposals work in.
ghost use Rattle.std.specs.Prelude.{IfOk};
ghost use Rattle.cip_problem.specs.WellFormed.{columns};
ghost use Rattle.cip_calls.specs.ProposalsJudged.{HaveRoom};

use cip_cert::Scratch;
use cip_core::Program;
use std::alloc::{AllocError, Global};

/// Two scratches: each has room for just the columns of the program that is searched.
#[derive(Drop)]
pub struct Scratches {
    /// The one for all checks.
    pub first: Scratch,
    /// The second one for split cuts.
    pub second: Scratch,
}

impl Scratches {
    /// Scratches for a program; `Err` where memory was refused.
    pub fn new(alloc: Global, program: &Program) -> Result<Scratches, AllocError>
        ensures { IfOk result (λ made. HaveRoom made (columns program.now)) }
    {
        let columns = program.columns();
        let first = Scratch::new(alloc, columns)?;
        let second = Scratch::new(alloc, columns)?;
        Ok(Scratches { first, second })
    }
}
