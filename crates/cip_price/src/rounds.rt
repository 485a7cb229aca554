//! One round behind an answer of the master program.
ghost use Rattle.std.specs.Prelude.{◌≡◌, true, [], length, IfOk, IfSome, OnOk, MatchOption};
ghost use Rattle.cip_lagrange.specs.Scratches.{FitsScratch};
ghost use Rattle.cip_master.specs.MasterTasks.{IsTask};
ghost use Rattle.cip_price.specs.PriceTasks.{task_at};
ghost use Rattle.cip_price.specs.RoundEnds.{raised, gap_decision, decision_at, decision_unless, decision, is_open};
ghost use Rattle.cip_price.specs.Summing.{IsSummed, SumHolds};

use crate::answers::{PriceAnswer, PriceCause};
use crate::bounding::{Summed, greater, sum_of_round, with_cause};
use crate::{Growth, PriceTask, Round};
use cip_frac::Frac;
use cip_lagrange::LagrangeScratch;
use cip_master::MasterCause;
use std::alloc::{AllocError, Global};

/// The greatest bound, with that of a round.
pub(crate) fn raised(best: &Option<Frac>, summed: &Summed) -> Option<Frac>
    ensures { result ≡ raised best.now summed.now }
{
    match summed {
        Summed::Number(bound) => greater(best, *bound),
        Summed::Nothing => *best,
        Summed::Wide => *best,
    }
}

/// The answer where nothing closes a block, and the sum is in range; none where another round is to be asked.
fn gap_answer(block: u32, growth: Growth, best: &Option<Frac>) -> Option<PriceAnswer>
    ensures { result ≡ gap_decision block growth best.now }
{
    match growth {
        Growth::Same => Some(with_cause(best, PriceCause::PricerGap { block })),
        Growth::Grown => None,
        Growth::Full => None,
    }
}

/// The answer where nothing closes a block; none where another round is to be asked.
fn open_answer(
    block: u32,
    growth: Growth,
    summed: &Summed,
    best: &Option<Frac>,
) -> Option<PriceAnswer>
    ensures { result ≡ decision_at block growth summed.now best.now }
{
    match summed {
        Summed::Number(bound) => gap_answer(block, growth, &greater(best, *bound)),
        Summed::Nothing => gap_answer(block, growth, best),
        Summed::Wide => {
            let cause = MasterCause::Wide;
            Some(with_cause(best, PriceCause::Master { cause }))
        }
    }
}

/// The answer behind a round that took all points, where closed blocks come to this one.
fn closed_answer(
    round: &Round,
    summed: &Summed,
    best: &Option<Frac>,
    closed: PriceAnswer,
) -> Option<PriceAnswer>
    ensures { result
        ≡ decision_unless round.now.is_empty round.now.gap round.now.growth summed.now best.now closed }
{
    if round.is_empty {
        drop(closed);
        return Some(PriceAnswer::NoPoint);
    }
    match round.gap {
        Some(block) => {
            drop(closed);
            open_answer(block, round.growth, summed, best)
        }
        None => Some(closed),
    }
}

/// The answer behind a round, where closed blocks come to this one; none where another round is to be asked.
pub(crate) fn decided(
    round: &Round,
    summed: &Summed,
    best: &Option<Frac>,
    closed: PriceAnswer,
) -> Option<PriceAnswer>
    ensures { result ≡ decision round.now summed.now best.now closed round.now.growth }
{
    match round.growth {
        Growth::Full => {
            drop(closed);
            Some(with_cause(best, PriceCause::PoolFull))
        }
        Growth::Same => closed_answer(round, summed, best, closed),
        Growth::Grown => closed_answer(round, summed, best, closed),
    }
}

/// Whether the bound of a round is asked for: nothing ended it before.
fn is_open(round: &Round) -> bool
    ensures { result ≡ is_open round.now }
{
    match round.growth {
        Growth::Full => false,
        Growth::Same => !round.is_empty && round.gap.is_some(),
        Growth::Grown => !round.is_empty && round.gap.is_some(),
    }
}

/// The bound of a round at prices: that of the trees of all blocks, where nothing ended the round before and there are
/// such. `Err` where memory was refused.
pub(crate) fn sum_at_prices(
    alloc: Global,
    task: &PriceTask<'_>,
    multipliers: &[Frac],
    round: &Round,
    scratch: &mut LagrangeScratch,
) -> Result<Summed, AllocError>
    requires task { IsTask (task_at task.now []) }
    requires fits { FitsScratch task.now.program.now task.now.blocks.now scratch.old }
    requires multipliers { length multipliers.now ≡ length task.now.blocks.now.blocks.master_rows }
    requires trees { is_open round.now ≡ true → IfSome round.now.trees
        (λ trees. length trees.items ≡ length task.now.blocks.now.subproblems.items) }
    ensures sum { IfOk result (λ summed. is_open round.now ≡ true
        → MatchOption round.now.trees (summed ≡ Summed.Nothing)
        (λ trees. IsSummed (task_at task.entry.now []) multipliers.now trees.items summed)) }
    ensures holds { IfOk result (SumHolds (task_at task.entry.now [])) }
    ensures fits { OnOk result (FitsScratch task.entry.now.program.now task.entry.now.blocks.now scratch.new) }
{
    if !is_open(round) {
        return Ok(Summed::Nothing);
    }
    match &round.trees {
        Some(trees) => sum_of_round(alloc, task, multipliers, trees.as_slice(), scratch),
        None => Ok(Summed::Nothing),
    }
}
