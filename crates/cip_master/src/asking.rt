//! The linear program of the master, solved.
ghost use Rattle.std.specs.Prelude.{◌≡◌, map, length, IfOk};
ghost use Rattle.cip_simplex.specs.LpShape.{variables, IsSolvable};
ghost use Rattle.cip_master.specs.KeptMasters.{program_in};
ghost use Rattle.cip_master.specs.MasterSolving.{Says};

use crate::MasterProgram;
use crate::starts::start_behind;
use cip_lin::Row;
use cip_simplex::{Lp, LpAnswer, Solver, Start, solve_from, solve_greedily};
use std::alloc::{AllocError, Global};

/// What the list of moves by Bland's rule from the first state answers, and where the variables are then. `Err` where
/// memory was refused.
fn asked_afresh(
    alloc: Global,
    solver: &mut Solver,
    lp: &Lp,
    limit: u32,
) -> Result<(LpAnswer, Start), AllocError>
    ensures { IfOk result (λ asked. Says limit lp.now asked.0) }
{
    let slack = Start::slack(alloc, lp)?;
    let (found, last) = solve_from(alloc, solver, lp, &slack, limit)?;
    Ok((found, last))
}

/// What a rule that makes few moves answers on a linear program from a start, if that is an optimum or that there is no
/// point; else what Bland's list does from the first state; and where the variables are then. `Err` where memory was
/// refused.
fn asked_at(
    alloc: Global,
    solver: &mut Solver,
    lp: &Lp,
    start: &Start,
    limit: u32,
) -> Result<(LpAnswer, Start), AllocError>
    requires { length start.now ≡ variables lp.now }
    ensures { IfOk result (λ asked. Says limit lp.now asked.0) }
{
    let (first, last) = solve_greedily(alloc, solver, lp, start, limit)?;
    let Some(found) = first else {
        drop(last);
        return asked_afresh(alloc, solver, lp, limit);
    };
    match found {
        LpAnswer::Optimal { point, combo, cost } => Ok((
            LpAnswer::Optimal { point, combo, cost },
            last,
        )),
        LpAnswer::Infeasible { combo } => Ok((LpAnswer::Infeasible { combo }, last)),
        _ => {
            drop(found);
            drop(last);
            asked_afresh(alloc, solver, lp, limit)
        }
    }
}

/// The start behind an earlier one, or that of the first state where there is none. `Err` where memory was refused.
fn begun(alloc: Global, lp: &Lp, start: Option<&Start>) -> Result<Start, AllocError>
    ensures { IfOk result (λ next. length next ≡ variables lp.now) }
{
    let columns = lp.columns();
    match start {
        Some(before) => start_behind(alloc, before, columns, lp.len() - columns),
        None => Start::slack(alloc, lp),
    }
}

/// What is answered on a linear program behind an earlier start. `Err` where memory was refused.
fn asked(
    alloc: Global,
    solver: &mut Solver,
    lp: &Lp,
    start: Option<&Start>,
    limit: u32,
) -> Result<(LpAnswer, Start), AllocError>
    ensures { IfOk result (λ asked. Says limit lp.now asked.0) }
{
    let start = begun(alloc, lp, start)?;
    let answer = asked_at(alloc, solver, lp, &start, limit);
    drop(start);
    answer
}

/// Rows, lent one by one. `Err` where memory was refused.
fn lent<'a>(alloc: Global, rows: &'a [Row]) -> Result<Vec<&'a Row>, AllocError>
    ensures { IfOk result (λ lent. map (λ row. row.now) lent.items ≡ rows.now) }
{
    let mut lent = Vec::new(alloc);
    for row in rows {
        lent.push(row)?;
    }
    Ok(lent)
}

/// What is answered on the linear program that is kept, behind an earlier start, and where the variables are then.
/// `Err` where memory was refused.
pub(crate) fn solved(
    alloc: Global,
    solver: &mut Solver,
    program: &MasterProgram,
    start: Option<&Start>,
    limit: u32,
) -> Result<(LpAnswer, Start), AllocError>
    requires { IsSolvable (program_in program.now) }
    ensures { IfOk result (λ solved. Says limit (program_in program.now) solved.0) }
{
    let sums = lent(alloc, program.sums.as_slice())?;
    let masters = program.masters.as_slice();
    let lp = Lp::with_others(
        masters,
        sums.as_slice(),
        &program.bounds,
        program.costs.as_slice(),
    );
    asked(alloc, solver, &lp, start, limit)
}
