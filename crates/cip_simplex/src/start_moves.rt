//! The moves that lead from the first state to where a start wants the variables.
ghost use Rattle.std.specs.Prelude.{◌≡◌, ◌<◌, ◌≤◌, ◌^◌, [], None, if◌then◌else◌, IfOk, length};
ghost use Rattle.cip_bland.specs.Dictionary as def;
ghost use Rattle.cip_bland.specs.ProgramState.{first_of_program};
ghost use Rattle.cip_simplex.specs.LpShape.{variables};
ghost use Rattle.cip_simplex.specs.Starts as starts;

use crate::lp::Lp;
use crate::starts::{Start, stand_first};
use crate::steps::make;
use cip_bland::{Move, Stand};
use cip_dict::Dict;
use cip_lin::Sides;
use std::alloc::AllocError;

/// Where a variable with these sides, which is to stand there, then stands: there if it can, else as at first.
fn stand_for(sides: Sides, to: Stand) -> Stand
    ensures { result ≡ starts.stand_for sides to }
{
    match (to, sides.low, sides.high) {
        (Stand::Low, Some(_), _) => Stand::Low,
        (Stand::High, _, Some(_)) => Stand::High,
        _ => stand_first(sides),
    }
}

/// The entering move of column k, where there is one: the least variable leaves that is basic, is to be nonbasic, and
/// has an entry on k.
fn entering_move(start: &Start, dict: &Dict, k: u32) -> Option<Move>
    requires few { def.size dict.now < 2 ^ 32 }
    requires long { length start.now ≡ def.size dict.now }
    requires entering { k < def.size dict.now }
    ensures chosen { result ≡ starts.entering_move start.now dict.now k }
    ensures can { starts.CanMake dict.now result }
{
    if start.stand(k).is_some() || dict.stand(k).is_none() {
        return None;
    }
    for v in 0..dict.len() {
        let v = v as u32;
        if dict.stand(v).is_none() && start.stand(v).is_some() && dict.has_entry(v, k) {
            let to = stand_for(dict.sides(v), start.stand(v).unwrap_or(Stand::Zero));
            return Some(Move::Exchange(v, k, to));
        }
    }
    None
}

/// The flipping move of variable v, where there is one: v is at a side, and is to stand at the other one.
fn flipping_move(start: &Start, dict: &Dict, v: u32) -> Option<Move>
    requires long { length start.now ≡ def.size dict.now }
    requires within { v < def.size dict.now }
    ensures chosen { result ≡ starts.flipping_move start.now dict.now v }
    ensures can { starts.CanMake dict.now result }
{
    let _len = dict.len();
    let at = dict.stand(v)?;
    let to = start.stand(v)?;
    match (at, stand_for(dict.sides(v), to)) {
        (Stand::Low, Stand::High) => Some(Move::Flip(v)),
        (Stand::High, Stand::Low) => Some(Move::Flip(v)),
        _ => None,
    }
}

/// Makes the flipping moves of n variables, or else their entering moves, by rising number, and puts each at the end of
/// the list of moves; answers the first that is out of range, at which it stops. `Err` where memory was refused.
fn make_each(
    start: &Start,
    dict: &mut Dict,
    n: usize,
    flips: bool,
    moves: &mut Vec<Move>,
) -> Result<Option<Move>, AllocError>
    requires few { def.size dict.old < 2 ^ 32 }
    requires long { length start.now ≡ def.size dict.old }
    requires within { n ≤ def.size dict.old }
    ensures made { IfOk result (λ wide. starts.begun_through n
        (if flips then starts.flipping_move start.now else starts.entering_move start.now)
        (record { moves = moves.old.items; last = dict.old; wide = None })
        ≡ record { moves = moves.new.items; last = dict.new; wide = wide }) }
    ensures variables { IfOk result (λ _. def.size dict.new ≡ def.size dict.old) }
{
    for v in 0..n {
        let chosen = if flips {
            flipping_move(start, dict, v as u32)
        } else {
            entering_move(start, dict, v as u32)
        };
        let Some(next) = chosen else {
            continue;
        };
        if !make(dict, next)? {
            return Ok(Some(next));
        }
        moves.push(next)?;
    }
    Ok(None)
}

/// Makes the moves of a start at the first state of a linear program, and puts each at the end of the list of moves,
/// which is empty; answers the first that is out of range, at which it stops. `Err` where memory was refused.
pub(crate) fn begin_at(
    start: &Start,
    dict: &mut Dict,
    lp: &Lp,
    moves: &mut Vec<Move>,
) -> Result<Option<Move>, AllocError>
    requires first { dict.old ≡ first_of_program lp.now }
    requires long { length start.now ≡ variables lp.now }
    requires empty { moves.old.items ≡ [] }
    ensures begun { IfOk result (λ wide. starts.begun lp.now start.now
        ≡ record { moves = moves.new.items; last = dict.new; wide = wide }) }
    ensures variables { IfOk result (λ _. def.size dict.new ≡ variables lp.now) }
{
    let columns = lp.columns();
    if let Some(wide) = make_each(start, dict, columns, false, moves)? {
        return Ok(Some(wide));
    }
    make_each(start, dict, lp.len(), true, moves)
}
