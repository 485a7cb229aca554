//! Split cuts that are proposed.
ghost use Rattle.std.specs.Prelude.{◌≡◌, length, MatchResult, if◌then◌else◌};
ghost use Rattle.cip_problem.specs.WellFormed.{columns};
ghost use Rattle.cip_core.specs.CoreStates.{reduced_of, IsAtWork};
ghost use Rattle.cip_core.specs.Later.{IsLaterAt};
ghost use Rattle.cip_calls.specs.SplitCutsJudged.{IsCutJudged};

use crate::judged::{JudgeFault, Judged, judged_row};
use cip_cert::{Scratch, SplitCut};
use cip_core::Core;
use cip_lin::Bounds;
use cip_split::{split_rests_on_cutoff, split_row};
use cip_tree::Node;
use std::alloc::AllocError;

/// The box in work, or the root's.
fn scope<'x>(work: &'x Bounds, root: &'x Bounds, local: bool) -> &'x Bounds
    ensures { result.now ≡ if local then work.now else root.now }
{
    if local { work } else { root }
}

/// Judges a split cut, while a node is in work, which is valid in the node's box where it is `local`, and else in the
/// root's. `Accepted` comes exactly where the check accepts it and its row is new: the pool has it then, with that box
/// as its scope. `Known` comes exactly where an equal row was there, `Refused` with the fault of the check, and else
/// with `Full` where there is no room. `Err` comes where memory was refused, and leaves the pool as it was.
pub fn judge_split_cut(
    core: &mut Core<'_>,
    node: &Node,
    cut: &SplitCut,
    local: bool,
    first: &mut Scratch,
    second: &mut Scratch,
) -> Result<Judged, AllocError>
    requires at_work { IsAtWork core.old node.now }
    requires room { (length first.old.row.entries ≡ columns (reduced_of core.old))
        × (length second.old.row.entries ≡ columns (reduced_of core.old)) }
    ensures judged { MatchResult result (IsCutJudged core.old core.new cut.now local)
        (λ _. core.new.pool ≡ core.old.pool) }
    ensures later { IsLaterAt core.old node.now core.new node.now }
    ensures frame { core.new ≡ record core.old { pool = core.new.pool; touched = core.new.touched } }
    ensures scratches { (length first.new.row.entries ≡ length first.old.row.entries)
        × (length second.new.row.entries ≡ length second.old.row.entries) }
{
    core.is_sound();
    let bounds = scope(core.bounds(), core.reduced().bounds(), local);
    let rests = split_rests_on_cutoff(core.rows().pool, cut);
    match split_row(&core.rows(), bounds, cut, first, second) {
        Err(fault) => Ok(Judged::Refused(JudgeFault::SplitForm(fault))),
        Ok(least) => {
            let added = core.add_valid(node, first, least, local, rests)?;
            Ok(judged_row(added))
        }
    }
}
