//! What multipliers and prices show.
ghost use Rattle.std.specs.Prelude.{◌≡◌, length, Ok, Err, IfOk, MatchResult};
ghost use Rattle.cip_problem.specs.WellFormed.{columns};
ghost use Rattle.cip_lagrange.specs.LagrangeOutcomes.{free_added};
ghost use Rattle.cip_master.specs.MasterTasks.{IsTask, task_of};
ghost use Rattle.cip_master.specs.ShownSums.{reduced_by, priced_out, worked_out, ShowsFrom};

use crate::lowering::{add_prices, lower};
use crate::tasks::{MasterTask, Shown};
use cip_frac::Frac;
use cip_lagrange::{LagrangeFault, add_free, use_multipliers};

/// A sum with the least rests of the columns of no block added.
fn add_least(task: &MasterTask<'_>, rests: &[Frac], start: Frac) -> Result<Frac, LagrangeFault>
    requires task { IsTask (task_of task.now) }
    requires rests { length rests.now ≡ columns task.now.program.now }
    ensures { result ≡ free_added rests.now task.entry.now.bounds.now task.entry.now.blocks.now.blocks.free_columns
        start }
{
    let numbers = task.blocks.blocks.free_columns();
    add_free(rests, task.bounds, numbers, start)
}

/// Uses the multipliers, and adds the least of what they leave on the columns of no block.
fn reduce(task: &MasterTask<'_>, start: Frac, shown: &mut Shown) -> Result<Frac, LagrangeFault>
    requires task { IsTask (task_of task.now) }
    requires multipliers { length shown.old.multipliers.items ≡ length task.now.blocks.now.blocks.master_rows }
    requires rests { length shown.old.rests.items ≡ columns task.now.program.now }
    ensures steps { MatchResult result
        (λ sum. reduced_by (task_of task.entry.now) start shown.old.rests.items shown.old.multipliers.items
        ≡ Ok (record { total = sum; rests = shown.new.rests.items }))
        (λ fault. reduced_by (task_of task.entry.now) start shown.old.rests.items shown.old.multipliers.items
        ≡ Err fault) }
    ensures rests { length shown.new.rests.items ≡ length shown.old.rests.items }
    ensures multipliers { shown.new.multipliers.items ≡ shown.old.multipliers.items }
    ensures prices { shown.new.prices.items ≡ shown.old.prices.items }
{
    let _columns = task.program.columns();
    let numbers = task.blocks.blocks.master_rows();
    let rests = shown.rests.as_mut_slice();
    let multipliers = shown.multipliers.as_slice();
    match use_multipliers(rests, start, task.program.rows(), numbers, multipliers) {
        Ok(total) => add_least(task, shown.rests.as_slice(), total),
        Err(fault) => Err(fault),
    }
}

/// Lowers the prices to what is left at held points, and adds them.
fn price(task: &MasterTask<'_>, start: Frac, shown: &mut Shown) -> Result<Frac, LagrangeFault>
    requires task { IsTask (task_of task.now) }
    requires prices { length shown.old.prices.items ≡ length task.now.blocks.now.subproblems.items }
    requires rests { length shown.old.rests.items ≡ columns task.now.program.now }
    ensures steps { MatchResult result
        (λ sum. priced_out (task_of task.entry.now) shown.old.prices.items (record {
          total = start;
          rests = shown.old.rests.items;
        })
        ≡ Ok (record { rests = shown.new.rests.items; prices = shown.new.prices.items; sum = sum }))
        (λ fault. priced_out (task_of task.entry.now) shown.old.prices.items (record {
          total = start;
          rests = shown.old.rests.items;
        })
        ≡ Err fault) }
    ensures multipliers { shown.new.multipliers.items ≡ shown.old.multipliers.items }
{
    match lower(task, shown.rests.as_slice(), shown.prices.as_mut_slice()) {
        Ok(()) => add_prices(shown.prices.as_slice(), start),
        Err(fault) => Err(fault),
    }
}

/// What multipliers of the master rows and a price for each block show, where `rests` holds the costs at first: then it
/// holds what the multipliers leave of them, no price is above what is left at a held point of its block that lies in
/// the box, and the answer is a number to begin with, each multiplier that isn't 0 times the side of its row that it
/// uses, the least of what is left on the columns of no block, and the prices. It takes no memory. A fault is the first
/// in that order, and the lists hold anything then.
pub fn show(task: &MasterTask<'_>, start: Frac, shown: &mut Shown) -> Result<Frac, LagrangeFault>
    requires task { IsTask (task_of task.now) }
    requires multipliers { length shown.old.multipliers.items ≡ length task.now.blocks.now.blocks.master_rows }
    requires prices { length shown.old.prices.items ≡ length task.now.blocks.now.subproblems.items }
    requires rests { length shown.old.rests.items ≡ columns task.now.program.now }
    ensures steps { MatchResult result
        (λ sum. worked_out (task_of task.entry.now) start shown.old.rests.items shown.old.multipliers.items
        shown.old.prices.items
        ≡ Ok (record { rests = shown.new.rests.items; prices = shown.new.prices.items; sum = sum }))
        (λ fault. worked_out (task_of task.entry.now) start shown.old.rests.items shown.old.multipliers.items
        shown.old.prices.items ≡ Err fault) }
    ensures shows { IfOk result (ShowsFrom (task_of task.entry.now) shown.old.rests.items start shown.new) }
    ensures multipliers { shown.new.multipliers.items ≡ shown.old.multipliers.items }
{
    let _columns = task.program.columns();
    match reduce(task, start, shown) {
        Ok(total) => price(task, total, shown),
        Err(fault) => Err(fault),
    }
}
