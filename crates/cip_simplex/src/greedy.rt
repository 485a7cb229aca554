//! Linear programs, solved by a rule that makes few moves.
ghost use Rattle.std.specs.Prelude.{◌≡◌, length, IfOk};
ghost use Rattle.cip_bland.specs.ProgramState.{first_of_program};
ghost use Rattle.cip_simplex.specs.LpShape.{variables};
ghost use Rattle.cip_simplex.specs.Reached.{IsReached};

use crate::answers::LpAnswer;
use crate::begin::first_state;
use crate::ends::end_answer;
use crate::greedy_steps::descend_to_end;
use crate::lp::Lp;
use crate::solver::Solver;
use crate::start_moves::begin_at;
use crate::starts::Start;
use cip_dict::{Dict, FirstFault};
use std::alloc::{AllocError, Global};

/// Makes the moves of a start at the first state of a linear program and then, at most so many, those that are chosen,
/// and answers what their end does, and where the variables are at the last state in range. `Err` where memory was
/// refused.
fn descend(
    alloc: Global,
    lp: &Lp,
    dict: &mut Dict,
    start: &Start,
    limit: u32,
) -> Result<(Option<LpAnswer>, Start), AllocError>
    requires first { dict.old ≡ first_of_program lp.now }
    requires long { length start.now ≡ variables lp.now }
    ensures { IfOk result (λ solved. IsReached lp.now solved.0 solved.1) }
{
    let _columns = lp.columns();
    let mut moves = Vec::new(alloc);
    let wide = begin_at(start, dict, lp, &mut moves)?;
    drop(moves);
    let step = if wide.is_none() {
        descend_to_end(lp, dict, limit)?
    } else {
        None
    };
    let found = match step {
        Some(step) => Some(end_answer(alloc, lp, dict, step)?),
        None => None,
    };
    let last = Start::at(alloc, dict)?;
    Ok((found, last))
}

/// Solves a linear program by the simplex method with moves that are chosen so that they are few, beginning with those
/// of a start, which says of each variable of the program where it is to be. While a basic variable is outside its
/// sides, the one that is so by most leaves to the side that it breaks, and of those that bring it nearer the one
/// enters for which the cost rises by least; else the one by which the cost falls fastest goes its shortest way. What
/// it answers is right; which of several optima, certificates or rays that is may change with the choice. As such moves
/// may come back to a state, there are at most so many. There is no answer where the first state or a move is out of
/// range, or as many moves lead to no end: then nothing is said of the program, and another rule is to be asked. Beside
/// it stands where the variables are at the last state in range; at the first state, where that isn't. `Err` where
/// memory was refused.
pub fn solve_greedily(
    alloc: Global,
    solver: &mut Solver,
    lp: &Lp,
    start: &Start,
    limit: u32,
) -> Result<(Option<LpAnswer>, Start), AllocError>
    requires { length start.now ≡ variables lp.now }
    ensures { IfOk result (λ solved. IsReached lp.now solved.0 solved.1) }
{
    match first_state(alloc, solver, lp) {
        Ok(mut dict) => {
            let solved = descend(alloc, lp, &mut dict, start, limit);
            dict.give_back(&mut solver.spare);
            solved
        }
        Err(FirstFault::OutOfRange { place: _ }) => {
            let slack = Start::slack(alloc, lp)?;
            Ok((None, slack))
        }
        Err(FirstFault::NoMemory) => Err(AllocError),
    }
}
