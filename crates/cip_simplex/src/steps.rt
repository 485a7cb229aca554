//! One step by Bland's rule: what is chosen, and the move that is made.
ghost use Rattle.std.specs.Prelude.{◌≡◌, ◌<◌, ◌^◌, true, false, None, Some, IfOk, MatchBool};
ghost use Rattle.cip_bland.specs.Dictionary as def;
ghost use Rattle.cip_bland.specs.Exchange.{after, CanMove};
ghost use Rattle.cip_bland.specs.MoveOperations.{move_operations};
ghost use Rattle.cip_bland.specs.Rule as rule;
ghost use Rattle.cip_bland.specs.MoveList.{is_out_of_range, ending_at};
ghost use Rattle.cip_simplex.specs.Advances.{IsChoice, IsAdvance, ending_of};

use crate::choice::{
    least_crossed, least_driving, least_improving, least_outside, outside_heading,
};
use crate::headings::{back_of, stand_ahead};
use crate::ways::{Way, has_way, shortest_way};
use cip_bland::{Move, Stand, Step};
use cip_dict::{Dict, MoveFault};
use std::alloc::AllocError;

/// What the rule says at a state before ways are formed.
#[derive(Drop)]
pub(crate) enum Choice {
    /// The low side of this variable is above its high one.
    Crossed(u32),
    /// This basic variable is outside its sides, and none may bring it nearer.
    Infeasible(u32),
    /// None is outside, and by none the cost may fall.
    Optimum,
    /// The basic variable named first is outside and leaves to there; the one named second enters.
    Repair(u32, u32, Stand),
    /// None is outside, and the cost falls as this variable goes.
    Improve(u32),
}

/// What a step comes to.
#[derive(Drop)]
pub(crate) enum Advance {
    /// This move was made.
    Made(Move),
    /// This move is out of range.
    Wide(Move),
    /// The state is an end.
    End(Step),
}

/// Why a list of moves ends.
#[derive(Drop)]
pub(crate) enum Ending {
    /// The last state is an end.
    Ends(Step),
    /// This move is out of range.
    Overflows(Move),
    /// The limit is reached.
    Stops,
}

/// What the rule says at a state before ways are formed: the least variable outside its sides leaves, and the least one
/// that brings it nearer enters; where none is outside, the least one enters by which the cost falls.
fn choose(dict: &Dict) -> Choice
    requires { def.size dict.now < 2 ^ 32 }
    ensures { IsChoice dict.now result }
{
    if let Some(v) = least_crossed(dict) {
        return Choice::Crossed(v);
    }
    if let Some(i) = least_outside(dict) {
        let heading = outside_heading(dict, i);
        return match least_driving(dict, i, back_of(heading)) {
            None => Choice::Infeasible(i),
            Some(j) => Choice::Repair(i, j, stand_ahead(heading)),
        };
    }
    match least_improving(dict) {
        None => Choice::Optimum,
        Some(j) => Choice::Improve(j),
    }
}

/// Makes a move: `true`, and the state is the one after it; `false` exactly where an operation of it is out of range,
/// and the state is as it was. `Err` where memory was refused.
pub(crate) fn make(dict: &mut Dict, chosen: Move) -> Result<bool, AllocError>
    requires { CanMove dict.old chosen }
    ensures { IfOk result (λ made. MatchBool made
        ((is_out_of_range (move_operations dict.old chosen) ≡ false) × (dict.new ≡ after dict.old chosen))
        ((is_out_of_range (move_operations dict.old chosen) ≡ true) × (dict.new ≡ dict.old))) }
{
    match chosen {
        Move::Exchange(i, j, to) => match dict.exchange(i, j, to) {
            Ok(()) => Ok(true),
            Err(MoveFault::OutOfRange { place: _ }) => Ok(false),
            Err(MoveFault::NoMemory) => Err(AllocError),
        },
        Move::Flip(j) => Ok(dict.flip(j).is_ok()),
    }
}

/// The move by which j goes a way.
pub(crate) fn move_by(j: u32, way: &Way) -> Move
    ensures { result ≡ rule.move_by j way.now }
{
    if way.variable == j {
        Move::Flip(j)
    } else {
        Move::Exchange(way.variable, j, way.to)
    }
}

/// Makes the next step: an exchange, or that of the shortest way of a variable by which the cost falls. `Err` where
/// memory was refused.
pub(crate) fn take_step(dict: &mut Dict) -> Result<Advance, AllocError>
    requires { def.size dict.old < 2 ^ 32 }
    ensures { IfOk result (IsAdvance dict.old dict.new) }
{
    let chosen = match choose(dict) {
        Choice::Crossed(v) => return Ok(Advance::End(Step::Crossed(v))),
        Choice::Infeasible(i) => return Ok(Advance::End(Step::Infeasible(i))),
        Choice::Optimum => return Ok(Advance::End(Step::Optimum)),
        Choice::Repair(i, j, to) => Move::Exchange(i, j, to),
        Choice::Improve(j) => match shortest_way(dict, j) {
            Err(wide) => return Ok(Advance::Wide(wide)),
            Ok(None) => return Ok(Advance::End(Step::Ray(j))),
            Ok(Some(way)) => move_by(j, &way),
        },
    };
    if make(dict, chosen)? {
        Ok(Advance::Made(chosen))
    } else {
        Ok(Advance::Wide(chosen))
    }
}

/// Why the list ends at a state where no move may be made any more: the state is an end, or the limit is reached.
/// Nothing is formed.
pub(crate) fn ending_here(dict: &Dict) -> Ending
    requires { def.size dict.now < 2 ^ 32 }
    ensures { ending_of result ≡ ending_at (rule.next dict.now) }
{
    match choose(dict) {
        Choice::Crossed(v) => Ending::Ends(Step::Crossed(v)),
        Choice::Infeasible(i) => Ending::Ends(Step::Infeasible(i)),
        Choice::Optimum => Ending::Ends(Step::Optimum),
        Choice::Repair(_, _, _) => Ending::Stops,
        Choice::Improve(j) => {
            if has_way(dict, j) {
                Ending::Stops
            } else {
                Ending::Ends(Step::Ray(j))
            }
        }
    }
}
