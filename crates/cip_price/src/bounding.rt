//! The bound of a round, and the greatest of them.
ghost use Rattle.std.specs.Prelude.{◌≡◌, [], length, Some, IfOk, OnOk};
ghost use Rattle.cip_rational.specs.Rational.{maximum};
ghost use Rattle.cip_problem.specs.Choices.{greater};
ghost use Rattle.cip_lagrange.specs.Scratches.{FitsScratch};
ghost use Rattle.cip_master.specs.MasterTasks.{IsTask};
ghost use Rattle.cip_price.specs.PriceTasks.{task_at};
ghost use Rattle.cip_price.specs.PricedRounds.{with_cause};
ghost use Rattle.cip_price.specs.Summing.{summed_bound, summed_fault, IsSummed, SumHolds};

use crate::PriceTask;
use crate::answers::{PriceAnswer, PriceCause};
use cip_cert::{BoundTree, SparseRow};
use cip_frac::Frac;
use cip_lagrange::{LagrangeFault, LagrangeScratch, TreeBound, lagrange};
use std::alloc::{AllocError, Global};

/// What the Lagrangian bound of a round comes to.
#[derive(Clone, Copy)]
pub(crate) enum Summed {
    /// No feasible point in the box costs less.
    Number(Frac),
    /// It is no number.
    Nothing,
    /// It is out of range.
    Wide,
}

/// A bound, as a number if it is one.
fn summed_bound(bound: TreeBound) -> Summed
    ensures { result ≡ summed_bound bound }
{
    match bound {
        TreeBound::Finite(bound) => Summed::Number(bound),
        TreeBound::NoPoint => Summed::Nothing,
    }
}

/// A fault of the sum.
fn summed_fault(fault: &LagrangeFault) -> Summed
    ensures { result ≡ summed_fault fault.now }
{
    match fault {
        LagrangeFault::Wide => Summed::Wide,
        LagrangeFault::NoSide { .. } => Summed::Nothing,
        LagrangeFault::NoRest { .. } => Summed::Nothing,
        LagrangeFault::Tree { .. } => Summed::Nothing,
    }
}

/// The Lagrangian bound of multipliers and trees. `Err` where memory was refused.
pub(crate) fn sum_of_round(
    alloc: Global,
    task: &PriceTask<'_>,
    multipliers: &[Frac],
    trees: &[BoundTree],
    scratch: &mut LagrangeScratch,
) -> Result<Summed, AllocError>
    requires task { IsTask (task_at task.now []) }
    requires fits { FitsScratch task.now.program.now task.now.blocks.now scratch.old }
    requires multipliers { length multipliers.now ≡ length task.now.blocks.now.blocks.master_rows }
    requires trees { length trees.now ≡ length task.now.blocks.now.subproblems.items }
    ensures summed { IfOk result (IsSummed (task_at task.entry.now []) multipliers.now trees.now) }
    ensures holds { IfOk result (SumHolds (task_at task.entry.now [])) }
    ensures fits { OnOk result (FitsScratch task.entry.now.program.now task.entry.now.blocks.now scratch.new) }
{
    scratch.row = SparseRow::new(alloc, task.program.columns())?;
    let (program, blocks, bounds) = (task.program, task.blocks, task.bounds);
    match lagrange(program, blocks, bounds, multipliers, trees, scratch) {
        Ok(bound) => Ok(summed_bound(bound)),
        Err(fault) => Ok(summed_fault(&fault)),
    }
}

/// The greater of two numbers.
fn greatest(best: Frac, bound: Frac) -> Frac
    ensures { result ≡ maximum best bound }
{
    if best <= bound { bound } else { best }
}

/// The greater of two bounds, as far as they are there.
pub(crate) fn greater(best: &Option<Frac>, bound: Frac) -> Option<Frac>
    ensures { result ≡ greater best.now (Some bound) }
{
    match best {
        Some(best) => Some(greatest(*best, bound)),
        None => Some(bound),
    }
}

/// The answer for a cause, with the greatest bound, if there is one.
pub(crate) fn with_cause(best: &Option<Frac>, cause: PriceCause) -> PriceAnswer
    ensures { result ≡ with_cause best.now cause }
{
    match best {
        Some(bound) => PriceAnswer::Bounded {
            bound: *bound,
            cause,
        },
        None => PriceAnswer::NoBound { cause },
    }
}
