//! Moves by Bland's rule, one after another.
ghost use Rattle.std.specs.Prelude.{◌≡◌, ◌<◌, ◌^◌, IfOk};
ghost use Rattle.cip_bland.specs.Dictionary as def;
ghost use Rattle.cip_bland.specs.MoveList.{run};
ghost use Rattle.cip_simplex.specs.Advances.{ending_of, run_behind};

use crate::steps::{Advance, Ending, ending_here, take_step};
use cip_bland::Move;
use cip_dict::Dict;
use std::alloc::AllocError;

/// Makes the moves of the rule, at most so many, and puts each at the end of the list of moves. The state is then the
/// last one. `Err` where memory was refused.
pub(crate) fn make_moves(
    dict: &mut Dict,
    limit: u32,
    moves: &mut Vec<Move>,
) -> Result<Ending, AllocError>
    requires { def.size dict.old < 2 ^ 32 }
    ensures run { IfOk result (λ ending. run_behind moves.old.items (run limit dict.old)
        ≡ record { moves = moves.new.items; last = dict.new; ending = ending_of ending }) }
    ensures variables { IfOk result (λ _. def.size dict.new ≡ def.size dict.old) }
{
    for _made in 0..limit {
        match take_step(dict)? {
            Advance::Made(chosen) => moves.push(chosen)?,
            Advance::Wide(wide) => return Ok(Ending::Overflows(wide)),
            Advance::End(step) => return Ok(Ending::Ends(step)),
        }
    }
    Ok(ending_here(dict))
}
