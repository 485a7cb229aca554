//! Linear programs, asked by a rule that makes few moves before Bland's.
ghost use Rattle.std.specs.Prelude.{◌≡◌, length, IfOk, IfSome};
ghost use Rattle.cip_simplex.specs.LpShape.{variables};
ghost use Rattle.cip_relax.specs.Solving.{SaysRight};

use cip_simplex::{Lp, LpAnswer, Solver, Start, solve_from, solve_greedily};
use std::alloc::{AllocError, Global};

// The most moves of the linear program of a node by Bland's rule.
const MOST_MOVES: u32 = 10_000;

// And before by a rule that makes few, of a linear program without variables; for each column and row there are two
// more. So a program of very many columns has moves enough to take each to its other side.
const FEW_MOVES: u32 = 2_000;

/// What a rule that makes few moves answers on a linear program from a start, and where the variables are then; none
/// where it has no answer. `Err` where memory was refused.
fn asked_greedily(
    alloc: Global,
    solver: &mut Solver,
    lp: &Lp,
    start: &Start,
) -> Result<Option<(LpAnswer, Start)>, AllocError>
    requires { length start.now ≡ variables lp.now }
    ensures { IfOk result (λ found. IfSome found (λ asked. SaysRight lp.now asked.0)) }
{
    let _columns = lp.columns();
    let variables = lp.len() as u32;
    let limit = FEW_MOVES
        .saturating_add(variables)
        .saturating_add(variables);
    let (first, last) = solve_greedily(alloc, solver, lp, start, limit)?;
    match first {
        Some(found) => Ok(Some((found, last))),
        None => {
            drop(last);
            Ok(None)
        }
    }
}

/// What a rule that makes few moves answers on a linear program from its first state; what Bland's list does, where
/// that has no answer; and where the variables are then. `Err` where memory was refused.
fn asked_afresh(
    alloc: Global,
    solver: &mut Solver,
    lp: &Lp,
) -> Result<(LpAnswer, Start), AllocError>
    ensures { IfOk result (λ asked. SaysRight lp.now asked.0) }
{
    let slack = Start::slack(alloc, lp)?;
    let asked = match asked_greedily(alloc, solver, lp, &slack) {
        Ok(Some(asked)) => Ok(asked),
        Ok(None) => solve_from(alloc, solver, lp, &slack, MOST_MOVES),
        Err(error) => Err(error),
    };
    drop(slack);
    asked
}

/// What a rule that makes few moves answers on a linear program from a start, made as long as the program; where there
/// is no start, or that has no answer, what is answered from the first state; and where the variables are then. `Err`
/// where memory was refused.
pub(crate) fn asked(
    alloc: Global,
    solver: &mut Solver,
    lp: &Lp,
    start: Option<&Start>,
) -> Result<(LpAnswer, Start), AllocError>
    ensures { IfOk result (λ asked. SaysRight lp.now asked.0) }
{
    let Some(before) = start else {
        return asked_afresh(alloc, solver, lp);
    };
    let _columns = lp.columns();
    let fitted = before.fitted(alloc, lp.len())?;
    let asked = match asked_greedily(alloc, solver, lp, &fitted) {
        Ok(Some(asked)) => Ok(asked),
        Ok(None) => asked_afresh(alloc, solver, lp),
        Err(error) => Err(error),
    };
    drop(fitted);
    asked
}
