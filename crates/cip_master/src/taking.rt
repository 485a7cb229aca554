//! What becomes of a point that is offered for a block.
ghost use Rattle.std.specs.Prelude.{◌≡◌, ◌<◌, length, MatchResult};
ghost use Rattle.cip_lagrange.specs.Decompositions.{IsDecompositionOf};
ghost use Rattle.cip_master.specs.KeptMasters.{ArePoolPoints};
ghost use Rattle.cip_master.specs.TakenPoints.{IsTaken};

use crate::checks::check_point;
use crate::verdicts::PointVerdict;
use cip_cert::BlockPoint;
use cip_columns::{Added, ColumnPool};
use cip_lagrange::Decomposed;
use cip_model::Program;
use std::alloc::AllocError;

/// What became of a point that was offered for a block.
#[derive(Clone, Copy, PartialEq, Eq)]
pub enum Taken {
    /// It is a point of the block, and adding it to the pool came to this.
    Offered(Added),
    /// It isn't shown to be one, by this verdict, and the pool is as it was.
    Dropped(PointVerdict),
}

/// Adds a point to a pool, if the test says that it is one of a block of a program in the program's own sides: then
/// each point of the pool still is one of its block. `Err` comes where a growth was refused; then, too, the pool is as
/// it was.
pub fn take_point(
    pool: &mut ColumnPool,
    program: &Program,
    blocks: &Decomposed,
    block: u32,
    point: &BlockPoint,
) -> Result<Taken, AllocError>
    requires made { IsDecompositionOf program.now blocks.now }
    requires block { block < length blocks.now.subproblems.items }
    requires points { ArePoolPoints program.now blocks.now pool.old }
    ensures taken { MatchResult result
        (IsTaken program.now blocks.now block point.now.values.items pool.old pool.new)
        (λ _. pool.new ≡ pool.old) }
    ensures points { ArePoolPoints program.now blocks.now pool.new }
{
    let verdict = check_point(program, blocks, block, point.values.as_slice());
    if verdict != PointVerdict::Good {
        return Ok(Taken::Dropped(verdict));
    }
    match pool.add(block, point) {
        Ok(added) => Ok(Taken::Offered(added)),
        Err(error) => Err(error),
    }
}
