//! Rows that are proposed.
ghost use Rattle.std.specs.Prelude.{◌≡◌, MatchResult};
ghost use Rattle.cip_core.specs.CoreStates.{IsAtWork};
ghost use Rattle.cip_core.specs.Later.{IsLaterAt};
ghost use Rattle.cip_calls.specs.RowsJudged.{IsRowJudged};

use crate::judged::{JudgeFault, Judged, judged_row};
use cip_core::{Asked, Core};
use cip_lin::Combo;
use cip_tree::Node;
use std::alloc::AllocError;

/// Judges a row that a combination adds up to, while a node is in work: with `round` rounded up, and valid in the
/// node's box where it is `local`, and else in the root's. `Accepted` comes exactly where the check accepts the
/// combination and its row is new: the pool has it then, with that box as its scope. `Known` comes exactly where an
/// equal row was there, `Refused` with the fault of the check, and else with `Full` where there is no room. `Err` comes
/// where memory was refused, and leaves the pool as it was.
pub fn judge_row(
    core: &mut Core<'_>,
    node: &Node,
    combo: &Combo,
    round: bool,
    local: bool,
) -> Result<Judged, AllocError>
    requires { IsAtWork core.old node.now }
    ensures judged { MatchResult result (IsRowJudged core.old core.new combo.now round local)
        (λ _. core.new.pool ≡ core.old.pool) }
    ensures later { IsLaterAt core.old node.now core.new node.now }
    ensures frame { core.new ≡ record core.old { pool = core.new.pool; touched = core.new.touched } }
{
    match core.add_row(node, combo, round, local) {
        Ok(Asked::Told(added)) => Ok(judged_row(added)),
        Ok(Asked::Refused(fault)) => Ok(Judged::Refused(JudgeFault::Check(fault))),
        Err(_) => Err(AllocError),
    }
}
