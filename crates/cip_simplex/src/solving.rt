//! Linear programs, solved.
ghost use Rattle.std.specs.Prelude.{◌≡◌, [], length, IfOk};
ghost use Rattle.cip_bland.specs.ProgramState.{first_of_program};
ghost use Rattle.cip_bland.specs.Dictionary as def;
ghost use Rattle.cip_bland.specs.MoveList.{run};
ghost use Rattle.cip_bland.specs.EndAnswers.{answer_of, answer};
ghost use Rattle.cip_bland.specs.NoRepeat.{whole_run, whole_answer, WholeAnswerHolds};
ghost use Rattle.cip_bland.specs.Statements.{IsStateOf, IsRight};
ghost use Rattle.cip_simplex.specs.Advances.{run_behind};
ghost use Rattle.cip_simplex.specs.LpShape.{variables};
ghost use Rattle.cip_simplex.specs.Starts.{begun, stands_of, answer_on, answer_from, last_on, last_from};
ghost use Rattle.cip_simplex.specs.LpAnswers.{IsAnswer};

use crate::answers::LpAnswer;
use crate::begin::first_state;
use crate::ends::end_answer;
use crate::lp::Lp;
use crate::runs::make_moves;
use crate::solver::Solver;
use crate::start_moves::begin_at;
use crate::starts::Start;
use crate::steps::{Advance, Ending, take_step};
use cip_bland::Move;
use cip_dict::{Dict, FirstFault};
use std::alloc::{AllocError, Global};

/// Makes the moves of the rule, at most so many, after those made so far, and answers what their end does; the state is
/// then the last one. `Err` where memory was refused.
pub(crate) fn solve_on(
    alloc: Global,
    lp: &Lp,
    dict: &mut Dict,
    mut moves: Vec<Move>,
    limit: u32,
) -> Result<LpAnswer, AllocError>
    requires { def.size dict.old ≡ variables lp.now }
    ensures answer { IfOk result (λ found.
        IsAnswer (answer_of lp.now (run_behind moves.items (run limit dict.old))) found
        × (dict.new ≡ (run limit dict.old).last)) }
    ensures variables { IfOk result (λ _. def.size dict.new ≡ variables lp.now) }
{
    let _columns = lp.columns();
    match make_moves(dict, limit, &mut moves)? {
        Ending::Ends(step) => end_answer(alloc, lp, dict, step),
        Ending::Overflows(wide) => {
            moves.push(wide)?;
            Ok(LpAnswer::Wide { moves })
        }
        Ending::Stops => Ok(LpAnswer::Limit),
    }
}

/// Solves a linear program by the simplex method, from its first state, with at most so many moves by Bland's rule.
/// `Wide` comes exactly where the first state is out of range, and then names no move, or where a move within the limit
/// is; `Limit` exactly where as many moves, all in range, lead to a state that is no end. `Err` where memory was
/// refused.
pub fn solve(
    alloc: Global,
    solver: &mut Solver,
    lp: &Lp,
    limit: u32,
) -> Result<LpAnswer, AllocError>
    ensures answer { IfOk result (IsAnswer (answer limit lp.now)) }
    ensures right { IsRight lp.now (answer limit lp.now) }
{
    let _columns = lp.columns();
    match first_state(alloc, solver, lp) {
        Ok(mut dict) => {
            let found = solve_on(alloc, lp, &mut dict, Vec::new(alloc), limit);
            dict.give_back(&mut solver.spare);
            found
        }
        Err(FirstFault::OutOfRange { place: _ }) => Ok(LpAnswer::Wide {
            moves: Vec::new(alloc),
        }),
        Err(FirstFault::NoMemory) => Err(AllocError),
    }
}

/// Makes the moves of a start at the first state of a linear program and then, at most so many, those of the rule, and
/// answers what their end does, and where the variables are at the last state in range. `Err` where memory was refused.
fn solve_in(
    alloc: Global,
    lp: &Lp,
    dict: &mut Dict,
    start: &Start,
    limit: u32,
) -> Result<(LpAnswer, Start), AllocError>
    requires first { dict.old ≡ first_of_program lp.now }
    requires long { length start.now ≡ variables lp.now }
    ensures { IfOk result (λ solved.
        IsAnswer (answer_on lp.now limit (begun lp.now start.now).wide (begun lp.now start.now)) solved.0
        × (solved.1 ≡ stands_of (last_on limit (begun lp.now start.now).wide (begun lp.now start.now)))) }
{
    let _columns = lp.columns();
    let mut moves = Vec::new(alloc);
    let found = match begin_at(start, dict, lp, &mut moves)? {
        Some(wide) => {
            moves.push(wide)?;
            LpAnswer::Wide { moves }
        }
        None => solve_on(alloc, lp, dict, moves, limit)?,
    };
    let last = Start::at(alloc, dict)?;
    Ok((found, last))
}

/// Solves a linear program by the simplex method, beginning with the moves of a start, which says of each variable of
/// the program where it is to be. Then there are at most so many moves by Bland's rule. It answers what `solve` does,
/// from the state to which the start's moves lead: `Wide` comes exactly where the first state is out of range, and then
/// names no move, or where a move of the start or a move within the limit is, and then names those of the start too;
/// `Limit` exactly where as many moves by the rule lead to a state that is no end. Beside it stands where the variables
/// are at the last state in range; at the first state, where that isn't. `Err` where memory was refused.
pub fn solve_from(
    alloc: Global,
    solver: &mut Solver,
    lp: &Lp,
    start: &Start,
    limit: u32,
) -> Result<(LpAnswer, Start), AllocError>
    requires { length start.now ≡ variables lp.now }
    ensures answer { IfOk result (λ solved. IsAnswer (answer_from limit lp.now start.now) solved.0
        × (solved.1 ≡ stands_of (last_from limit lp.now start.now))) }
    ensures right { IsRight lp.now (answer_from limit lp.now start.now) }
{
    let _columns = lp.columns();
    match first_state(alloc, solver, lp) {
        Ok(mut dict) => {
            let solved = solve_in(alloc, lp, &mut dict, start, limit);
            dict.give_back(&mut solver.spare);
            solved
        }
        Err(FirstFault::OutOfRange { place: _ }) => {
            let slack = Start::slack(alloc, lp)?;
            let moves = Vec::new(alloc);
            Ok((LpAnswer::Wide { moves }, slack))
        }
        Err(FirstFault::NoMemory) => Err(AllocError),
    }
}

/// Makes all moves of the rule from a state of a linear program, and answers what their end does. `Err` where memory
/// was refused.
fn solve_all(alloc: Global, lp: &Lp, dict: &mut Dict) -> Result<LpAnswer, AllocError>
    requires state { IsStateOf lp.now dict.old }
    requires variables { def.size dict.old ≡ variables lp.now }
    ensures { IfOk result (IsAnswer (answer_of lp.now (run_behind [] (whole_run dict.old)))) }
{
    let _columns = lp.columns();
    let mut moves = Vec::new(alloc);
    'steps: loop {
        match take_step(dict)? {
            Advance::Made(chosen) => moves.push(chosen)?,
            Advance::Wide(wide) => {
                moves.push(wide)?;
                return Ok(LpAnswer::Wide { moves });
            }
            Advance::End(step) => return end_answer(alloc, lp, dict, step),
        }
    }
}

/// Solves a linear program by the simplex method, from its first state, with as many moves by Bland's rule as there
/// are: no state comes twice, so they end, and `Limit` is never answered. `Err` where memory was refused.
pub fn solve_fully(alloc: Global, solver: &mut Solver, lp: &Lp) -> Result<LpAnswer, AllocError>
    ensures answer { IfOk result (IsAnswer (whole_answer lp.now)) }
    ensures whole { WholeAnswerHolds lp.now }
{
    let _columns = lp.columns();
    match first_state(alloc, solver, lp) {
        Ok(mut dict) => {
            let found = solve_all(alloc, lp, &mut dict);
            dict.give_back(&mut solver.spare);
            found
        }
        Err(FirstFault::OutOfRange { place: _ }) => Ok(LpAnswer::Wide {
            moves: Vec::new(alloc),
        }),
        Err(FirstFault::NoMemory) => Err(AllocError),
    }
}
