//! Prices, lowered to what held points come to.
ghost use Rattle.std.specs.Prelude.{◌≡◌, ◌<◌, length, Ok, Err, MatchResult};
ghost use Rattle.cip_rational.specs.Rational.{minimum};
ghost use Rattle.cip_problem.specs.WellFormed.{columns};
ghost use Rattle.cip_master.specs.MasterTasks.{IsTask, task_of};
ghost use Rattle.cip_master.specs.ShownSums.{rest_at, lowered_by, lowered, prices_added};

use crate::tasks::MasterTask;
use crate::{is_held_in, part_sum};
use cip_columns::HeldPoint;
use cip_frac::Frac;
use cip_lagrange::LagrangeFault;

/// The lesser of two numbers.
fn least(price: Frac, value: Frac) -> Frac
    ensures { result ≡ minimum price value }
{
    if price <= value { price } else { value }
}

/// What is left of the costs at a point that is held.
fn rest_at(task: &MasterTask<'_>, rests: &[Frac], held: &HeldPoint) -> Result<Frac, LagrangeFault>
    requires task { IsTask (task_of task.now) }
    requires block { held.now.block < length task.now.blocks.now.subproblems.items }
    requires rests { length rests.now ≡ columns task.now.program.now }
    ensures { result ≡ rest_at task.entry.now.blocks.now rests.now held.now }
{
    let numbers = task.blocks.blocks.columns(held.block() as usize);
    match part_sum(rests, numbers, held.values()) {
        Ok(value) => Ok(value),
        Err(_) => Err(LagrangeFault::Wide),
    }
}

/// Lowers the price of a held point's block to what is left at it, if it lies in the box.
fn lower_by(
    task: &MasterTask<'_>,
    rests: &[Frac],
    held: &HeldPoint,
    prices: &mut [Frac],
) -> Result<(), LagrangeFault>
    requires task { IsTask (task_of task.now) }
    requires block { held.now.block < length task.now.blocks.now.subproblems.items }
    requires rests { length rests.now ≡ columns task.now.program.now }
    requires prices { length prices.old ≡ length task.now.blocks.now.subproblems.items }
    ensures { MatchResult result
        (λ _. lowered_by task.entry.now.blocks.now task.entry.now.bounds.now rests.now held.now prices.old
        ≡ Ok prices.new)
        (λ fault. lowered_by task.entry.now.blocks.now task.entry.now.bounds.now rests.now held.now prices.old
        ≡ Err fault) }
{
    if !is_held_in(task.program, task.blocks, task.bounds, held) {
        return Ok(());
    }
    match rest_at(task, rests, held) {
        Ok(value) => {
            let block = held.block() as usize;
            prices[block] = least(prices[block], value);
            Ok(())
        }
        Err(fault) => Err(fault),
    }
}

/// Lowers the price of each block to what is left of the costs at its held points that lie in the box.
pub(crate) fn lower(
    task: &MasterTask<'_>,
    rests: &[Frac],
    prices: &mut [Frac],
) -> Result<(), LagrangeFault>
    requires task { IsTask (task_of task.now) }
    requires rests { length rests.now ≡ columns task.now.program.now }
    requires prices { length prices.old ≡ length task.now.blocks.now.subproblems.items }
    ensures { MatchResult result
        (λ _. lowered task.entry.now.blocks.now task.entry.now.bounds.now rests.now task.entry.now.pool.now prices.old
        ≡ Ok prices.new)
        (λ fault. lowered task.entry.now.blocks.now task.entry.now.bounds.now rests.now task.entry.now.pool.now
        prices.old ≡ Err fault) }
{
    let points = task.pool.points();
    for at in 0..points.len() {
        match lower_by(task, rests, &points[at], prices) {
            Ok(()) => {}
            Err(fault) => return Err(fault),
        }
    }
    Ok(())
}

/// A sum with prices added, one after another.
pub(crate) fn add_prices(prices: &[Frac], start: Frac) -> Result<Frac, LagrangeFault>
    ensures { result ≡ prices_added prices.now start }
{
    let mut sum = start;
    for price in prices {
        match sum.add(*price) {
            Ok(more) => sum = more,
            Err(_) => return Err(LagrangeFault::Wide),
        }
    }
    Ok(sum)
}
