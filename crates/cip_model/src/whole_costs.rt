//! Whether costs are whole.
ghost use Rattle.std.specs.Prelude.{MatchBool};
ghost use Rattle.cip_problem.specs.Cuts.{CanRoundAt, HasWholeCosts};

use crate::programs::Program;
use cip_frac::Frac;

/// Whether a cost is whole and, unless it is 0, stands on a whole column.
fn can_round(whole: bool, cost: Frac) -> bool
    ensures { MatchBool result (CanRoundAt whole cost) (¬ CanRoundAt whole cost) }
{
    if cost.is_zero() {
        return true;
    }
    whole && cost.is_whole()
}

/// Whether the cost of each point with whole values on whole columns is a whole number.
pub fn are_costs_whole(program: &Program) -> bool
    ensures { MatchBool result (HasWholeCosts program.now) (¬ HasWholeCosts program.now) }
{
    let whole = program.whole();
    let costs = program.costs();
    for at in 0..whole.len() {
        if !can_round(whole[at], costs[at]) {
            return false;
        }
    }
    program.constant().is_whole()
}
