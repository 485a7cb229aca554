//! Pricing.
ghost use Rattle.std.specs.Prelude.{◌≡◌, [], None, IfOk, MatchResult};
ghost use Rattle.cip_master.specs.MasterTasks.{IsTask};
ghost use Rattle.cip_price.specs.PriceTasks.{task_at};
ghost use Rattle.cip_price.specs.OfferedPoints.{Grows};
ghost use Rattle.cip_price.specs.PriceAnswers.{PriceHolds};
ghost use Rattle.cip_price.specs.PricedRounds.{IsRunBy, IsPricedBy, IsCutShort};
ghost use Rattle.cip_master.specs.MasterAnswers.{IsPriced, IsFarkas};
ghost use Rattle.cip_price.specs.RoundEnds.{IsRoundBehind};
ghost use Rattle.cip_price.specs.Worked.{IsReady, BestHolds, StandsBehind, IsStep, MayStep};

use crate::answers::{PriceAnswer, PriceCause, PriceLimits};
use crate::bounding::{Summed, with_cause};
use crate::crossing::has_crossed;
use crate::rounds::{decided, raised, sum_at_prices};
use crate::work::PriceWork;
use crate::{AskPricer, PriceTask, ask_blocks};
use cip_columns::ColumnPool;
use cip_frac::Frac;
use cip_master::{MasterAnswer, Shown, Weights};
use std::alloc::{AllocError, Global};

/// Prices with a mixture at this cost.
#[derive(Drop)]
struct Mixed {
    shown: Shown,
    weights: Weights,
    cost: Frac,
}

/// One round at prices: what is answered behind it, if no further one is to be asked.
fn round_at_prices<A: AskPricer>(
    alloc: Global,
    task: &PriceTask<'_>,
    pool: &mut ColumnPool,
    asker: &mut A,
    mixed: Mixed,
    work: &mut PriceWork,
) -> Result<Option<PriceAnswer>, AllocError>
    requires task { IsTask (task_at task.now pool.old) }
    requires ready { IsReady (task_at task.now pool.old) work.old }
    requires best { BestHolds (task_at task.now []) work.old.best }
    requires priced { IsPriced (task_at task.now pool.old) mixed.shown mixed.weights mixed.cost }
    ensures behind { MatchResult result
        (IsRoundBehind (task_at task.entry.now []) (MasterAnswer.Prices mixed.shown mixed.weights mixed.cost)
        mixed.shown (A.told asker.old) (A.told asker.new) pool.old pool.new work.old.best work.new.best)
        (λ _. MayStep (task_at task.entry.now []) (A.told asker.old) (A.told asker.new)) }
    ensures stands { IfOk result (StandsBehind (task_at task.entry.now []) pool.new work.new) }
    ensures grows { Grows pool.old pool.new }
    ensures task { IsTask (task_at task.entry.now pool.new) }
{
    let _columns = task.program.columns();
    let Ok(round) = ask_blocks(alloc, task, pool, asker, &mixed.shown, &mut work.scratch) else {
        drop(mixed);
        return Err(AllocError);
    };
    let multipliers = mixed.shown.multipliers.as_slice();
    let Ok(summed) = sum_at_prices(alloc, task, multipliers, &round, &mut work.lagrange) else {
        drop(round);
        drop(mixed);
        return Err(AllocError);
    };
    let best = work.best;
    work.best = raised(&best, &summed);
    let Mixed {
        shown,
        weights,
        cost,
    } = mixed;
    drop(shown);
    let closed = PriceAnswer::Closed {
        bound: cost,
        weights,
    };
    let answer = decided(&round, &summed, &best, closed);
    drop(round);
    Ok(answer)
}

/// One round where there is no mixture of held points.
fn round_at_farkas<A: AskPricer>(
    alloc: Global,
    task: &PriceTask<'_>,
    pool: &mut ColumnPool,
    asker: &mut A,
    shown: &Shown,
    work: &mut PriceWork,
) -> Result<Option<PriceAnswer>, AllocError>
    requires task { IsTask (task_at task.now pool.old) }
    requires ready { IsReady (task_at task.now pool.old) work.old }
    requires best { BestHolds (task_at task.now []) work.old.best }
    requires farkas { IsFarkas (task_at task.now pool.old) shown.now }
    ensures behind { MatchResult result
        (IsRoundBehind (task_at task.entry.now []) (MasterAnswer.Farkas shown.now) shown.now
        (A.told asker.old) (A.told asker.new) pool.old pool.new work.old.best work.new.best)
        (λ _. MayStep (task_at task.entry.now []) (A.told asker.old) (A.told asker.new)) }
    ensures stands { IfOk result (StandsBehind (task_at task.entry.now []) pool.new work.new) }
    ensures grows { Grows pool.old pool.new }
    ensures task { IsTask (task_at task.entry.now pool.new) }
{
    let _columns = task.program.columns();
    let round = ask_blocks(alloc, task, pool, asker, shown, &mut work.scratch)?;
    let answer = decided(&round, &Summed::Nothing, &work.best, PriceAnswer::NoPoint);
    drop(round);
    Ok(answer)
}

/// One round: what is answered behind it, if no further one is to be asked.
fn one_round<A: AskPricer>(
    alloc: Global,
    task: &PriceTask<'_>,
    pool: &mut ColumnPool,
    asker: &mut A,
    moves: u32,
    work: &mut PriceWork,
) -> Result<Option<PriceAnswer>, AllocError>
    requires task { IsTask (task_at task.now pool.old) }
    requires ready { IsReady (task_at task.now pool.old) work.old }
    requires best { BestHolds (task_at task.now []) work.old.best }
    ensures step { MatchResult result
        (IsStep moves (task_at task.entry.now []) (A.told asker.old) (A.told asker.new) pool.old pool.new work.old.best
        work.new.best)
        (λ _. MayStep (task_at task.entry.now []) (A.told asker.old) (A.told asker.new)) }
    ensures stands { IfOk result (StandsBehind (task_at task.entry.now []) pool.new work.new) }
    ensures grows { Grows pool.old pool.new }
    ensures task { IsTask (task_at task.entry.now pool.new) }
{
    let answer = work.ask_master(alloc, task, pool, moves)?;
    match answer {
        MasterAnswer::Prices {
            shown,
            weights,
            cost,
        } => {
            let mixed = Mixed {
                shown,
                weights,
                cost,
            };
            round_at_prices(alloc, task, pool, asker, mixed, work)
        }
        MasterAnswer::Farkas { shown } => {
            let answer = round_at_farkas(alloc, task, pool, asker, &shown, work);
            drop(shown);
            answer
        }
        MasterAnswer::Unsolved { cause } => {
            Ok(Some(with_cause(&work.best, PriceCause::Master { cause })))
        }
    }
}

/// The rounds, at most so many: what is answered behind the first that ends them, or behind the last.
fn price_in_rounds<A: AskPricer>(
    alloc: Global,
    task: &PriceTask<'_>,
    pool: &mut ColumnPool,
    asker: &mut A,
    limits: PriceLimits,
    work: &mut PriceWork,
) -> Result<PriceAnswer, AllocError>
    requires task { IsTask (task_at task.now pool.old) }
    requires ready { IsReady (task_at task.now pool.old) work.old }
    requires best { work.old.best ≡ None }
    ensures by { MatchResult result
        (IsRunBy limits.moves limits.rounds (task_at task.entry.now []) (A.told asker.old) (A.told asker.new)
        pool.old pool.new)
        (λ _. IsCutShort limits.moves (task_at task.entry.now []) (A.told asker.old) (A.told asker.new) pool.old) }
    ensures holds { IfOk result (PriceHolds (task_at task.entry.now []) pool.new) }
    ensures grows { Grows pool.old pool.new }
    ensures task { IsTask (task_at task.entry.now pool.new) }
{
    for _round in 0..limits.rounds {
        if let Some(answer) = one_round(alloc, task, pool, asker, limits.moves, work)? {
            return Ok(answer);
        }
    }
    Ok(with_cause(&work.best, PriceCause::Rounds))
}

/// Prices the blocks of a program in a box, in rounds: the master program of the points that are held is solved, and
/// each block is asked for points and a tree at what its multipliers leave of the costs. Points of the block are put
/// into the pool, and the others are dropped, of each of which who answered is told right behind the ask; a tree counts
/// where its check accepts it.
///
/// `Closed` comes where trees show at prices that no point of a block costs less than its price: then the mixture of
/// the weights is least among all. `NoPoint` comes where the sides of a column or of a master row cross, where a tree
/// shows that its block has no point, or where all blocks are closed at multipliers that show that no mixture of held
/// points satisfies the master rows. Else the cause is told, with the greatest Lagrangian bound of the rounds, if there
/// was one. `Err` comes where memory was refused; what was accepted before it stands.
pub fn price<A: AskPricer>(
    alloc: Global,
    task: &PriceTask<'_>,
    pool: &mut ColumnPool,
    asker: &mut A,
    limits: PriceLimits,
) -> Result<PriceAnswer, AllocError>
    requires { IsTask (task_at task.now pool.old) }
    ensures by { MatchResult result
        (IsPricedBy limits.moves limits.rounds (task_at task.entry.now []) (A.told asker.old) (A.told asker.new)
        pool.old pool.new)
        (λ _. IsCutShort limits.moves (task_at task.entry.now []) (A.told asker.old) (A.told asker.new) pool.old) }
    ensures holds { IfOk result (PriceHolds (task_at task.entry.now []) pool.new) }
    ensures grows { Grows pool.old pool.new }
    ensures task { IsTask (task_at task.entry.now pool.new) }
{
    if has_crossed(task) {
        return Ok(PriceAnswer::NoPoint);
    }
    let mut work = PriceWork::new(alloc, task, pool)?;
    let answer = price_in_rounds(alloc, task, pool, asker, limits, &mut work);
    drop(work);
    answer
}
