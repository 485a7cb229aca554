//! Steps by a rule that makes few moves.
ghost use Rattle.std.specs.Prelude.{◌<◌, ◌^◌, IfOk, IfSome};
ghost use Rattle.cip_bland.specs.Dictionary as def;
ghost use Rattle.cip_bland.specs.Rule as rule;
ghost use Rattle.cip_bland.specs.Statements.{IsStateOf};
ghost use Rattle.cip_bland.specs.StateEnds.{NonePasses, IsEndAt};
ghost use Rattle.cip_simplex.specs.FreeMoves.{IsFreeChoice, IsFreeAdvance};

use crate::candidates::{best_driving, best_improving, worst_outside};
use crate::choice::{least_crossed, outside_heading};
use crate::headings::{back_of, stand_ahead};
use crate::lp::Lp;
use crate::steps::{Advance, Choice, make, move_by};
use crate::ways::shortest_way;
use cip_bland::{Move, Step};
use cip_dict::Dict;
use std::alloc::AllocError;

/// What is chosen before ways are formed, where no sides cross: while a basic variable is outside its sides, the one
/// that is so by most leaves, and the one for which the cost rises by least enters; else the one by which the cost
/// falls fastest enters.
fn pick(dict: &Dict) -> Choice
    requires few { def.size dict.now < 2 ^ 32 }
    requires uncrossed { NonePasses dict.now (rule.is_crossed dict.now) }
    ensures { IsFreeChoice dict.now result }
{
    if let Some(i) = worst_outside(dict) {
        let heading = outside_heading(dict, i);
        return match best_driving(dict, i, back_of(heading)) {
            None => Choice::Infeasible(i),
            Some(j) => Choice::Repair(i, j, stand_ahead(heading)),
        };
    }
    match best_improving(dict) {
        None => Choice::Optimum,
        Some(j) => Choice::Improve(j),
    }
}

/// Makes the next step, where no sides cross: an exchange, or that of the shortest way of a variable by which the cost
/// falls. `Err` where memory was refused.
fn take_chosen(dict: &mut Dict) -> Result<Advance, AllocError>
    requires few { def.size dict.old < 2 ^ 32 }
    requires uncrossed { NonePasses dict.old (rule.is_crossed dict.old) }
    ensures { IfOk result (IsFreeAdvance dict.old dict.new) }
{
    let chosen = match pick(dict) {
        Choice::Crossed(v) => return Ok(Advance::End(Step::Crossed(v))),
        Choice::Infeasible(i) => return Ok(Advance::End(Step::Infeasible(i))),
        Choice::Optimum => return Ok(Advance::End(Step::Optimum)),
        Choice::Repair(i, j, to) => Move::Exchange(i, j, to),
        Choice::Improve(j) => match shortest_way(dict, j) {
            Err(wide) => return Ok(Advance::Wide(wide)),
            Ok(None) => return Ok(Advance::End(Step::Ray(j))),
            Ok(Some(way)) => move_by(j, &way),
        },
    };
    if make(dict, chosen)? {
        Ok(Advance::Made(chosen))
    } else {
        Ok(Advance::Wide(chosen))
    }
}

/// Makes moves from a state of a linear program, at most so many, and answers the end that the last state is; none
/// where a move is out of range or none may be made any more. Sides that cross are looked for once, since moves keep
/// sides. `Err` where memory was refused.
pub(crate) fn descend_to_end(
    lp: &Lp,
    dict: &mut Dict,
    limit: u32,
) -> Result<Option<Step>, AllocError>
    requires { IsStateOf lp.now dict.old }
    ensures state { IfOk result (λ _. IsStateOf lp.now dict.new) }
    ensures end { IfOk result (λ found. IfSome found (IsEndAt dict.new)) }
{
    let _columns = lp.columns();
    if let Some(v) = least_crossed(dict) {
        return Ok(Some(Step::Crossed(v)));
    }
    for _made in 0..limit {
        match take_chosen(dict)? {
            Advance::Made(_) => {}
            Advance::Wide(_) => return Ok(None),
            Advance::End(step) => return Ok(Some(step)),
        }
    }
    Ok(None)
}
