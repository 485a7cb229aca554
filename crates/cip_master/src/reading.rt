//! What an end of the simplex method comes to.
ghost use Rattle.std.specs.Prelude.{◌≡◌, ◌↔◌, ℕ, IsTrue, length, IfOk, replicate};
ghost use Rattle.cip_rational.specs.Rational.{zeroℚ};
ghost use Rattle.cip_problem.specs.WellFormed.{columns};
ghost use Rattle.cip_simplex.specs.Reached.{IsOptimumBy, IsEmptyBy};
ghost use Rattle.cip_master.specs.KeptMasters.{program_in};
ghost use Rattle.cip_master.specs.MasterTasks.{IsTask, task_of};
ghost use Rattle.cip_master.specs.CombinedFactors.{multipliers_in, prices_in};
ghost use Rattle.cip_master.specs.MasterSolving.{IsWhole};
ghost use Rattle.cip_master.specs.MasterAnswers.{IsMasterAnswer};

use crate::answers::{MasterAnswer, MasterCause};
use crate::factors::factors_from;
use crate::weights::weights_of;
use crate::{MasterProgram, MasterTask, Shown, show};
use cip_frac::Frac;
use cip_lagrange::Decomposed;
use cip_lin::Combo;
use std::alloc::{AllocError, Global};

/// Whether two numbers are equal.
fn is_same(a: Frac, b: Frac) -> bool
    ensures { IsTrue result ↔ (a ≡ b) }
{
    a == b
}

/// So many zeros. `Err` where memory was refused.
fn zeros(alloc: Global, count: usize) -> Result<Vec<Frac>, AllocError>
    ensures { IfOk result (λ zeros. zeros.items ≡ replicate count zeroℚ) }
{
    Ok(vec![in alloc; Frac::zero(); count]?)
}

/// The answer that the factors of an end don't show what it says.
fn unshown() -> MasterAnswer
    ensures { result ≡ MasterAnswer.Unsolved MasterCause.Unshown }
{
    MasterAnswer::Unsolved {
        cause: MasterCause::Unshown,
    }
}

/// The factors of a combination as multipliers and prices, beside costs. `Err` where memory was refused.
fn shown_by(
    alloc: Global,
    blocks: &Decomposed,
    combo: &Combo,
    costs: Vec<Frac>,
) -> Result<Shown, AllocError>
    ensures multipliers { IfOk result (λ shown. shown.multipliers.items ≡ multipliers_in blocks.now combo.now) }
    ensures prices { IfOk result (λ shown. shown.prices.items ≡ prices_in blocks.now combo.now) }
    ensures rests { IfOk result (λ shown. shown.rests.items ≡ costs.items) }
    ensures each_multiplier { IfOk result
        (λ shown. length shown.multipliers.items ≡ length blocks.now.blocks.master_rows) }
    ensures each_price { IfOk result (λ shown. length shown.prices.items ≡ length blocks.now.subproblems.items) }
{
    let masters = blocks.blocks.master_rows().len();
    let multipliers = factors_from(alloc, 0, masters, combo)?;
    let prices = factors_from(alloc, masters, blocks.subproblems.len(), combo)?;
    Ok(Shown {
        multipliers,
        prices,
        rests: costs,
    })
}

/// What an optimum of the master program comes to. `Err` where memory was refused.
pub(crate) fn priced(
    alloc: Global,
    task: &MasterTask<'_>,
    master: &MasterProgram,
    point: &[Frac],
    combo: &Combo,
    cost: Frac,
) -> Result<MasterAnswer, AllocError>
    requires task { IsTask (task_of task.now) }
    requires whole { IsWhole (task_of task.now) master.now }
    requires optimum { IsOptimumBy (program_in master.now) point.now combo.now cost }
    ensures { IfOk result (λ answer. (limit : ℕ) → IsMasterAnswer limit (task_of task.entry.now) answer) }
{
    let Ok(total) = task.program.constant().add(cost) else {
        return Ok(unshown());
    };
    let costs = Vec::from_slice(alloc, task.program.costs())?;
    let mut shown = shown_by(alloc, task.blocks, combo, costs)?;
    let Ok(sum) = show(task, task.program.constant(), &mut shown) else {
        drop(shown);
        return Ok(unshown());
    };
    if !is_same(sum, total) {
        drop(shown);
        return Ok(unshown());
    }
    let Ok(weights) = weights_of(alloc, master.ids.as_slice(), point) else {
        drop(shown);
        return Err(AllocError);
    };
    Ok(MasterAnswer::Prices {
        shown,
        weights,
        cost: total,
    })
}

/// What a combination that shows that the master program has no point comes to. `Err` where memory was refused.
pub(crate) fn emptied(
    alloc: Global,
    task: &MasterTask<'_>,
    master: &MasterProgram,
    combo: &Combo,
) -> Result<MasterAnswer, AllocError>
    requires task { IsTask (task_of task.now) }
    requires whole { IsWhole (task_of task.now) master.now }
    requires empty { IsEmptyBy (program_in master.now) combo.now }
    ensures { IfOk result (λ answer. (limit : ℕ) → IsMasterAnswer limit (task_of task.entry.now) answer) }
{
    let zeros = zeros(alloc, task.program.columns())?;
    let mut shown = shown_by(alloc, task.blocks, combo, zeros)?;
    let Ok(sum) = show(task, Frac::zero(), &mut shown) else {
        drop(shown);
        return Ok(unshown());
    };
    if sum.is_positive() {
        Ok(MasterAnswer::Farkas { shown })
    } else {
        drop(shown);
        Ok(unshown())
    }
}
