//! Cuts that are proposed: rows of combinations, and split cuts.
ghost use Rattle.std.specs.Prelude.{◌≡◌, MatchResult};
ghost use Rattle.cip_problem.specs.WellFormed.{columns};
ghost use Rattle.cip_core.specs.CoreStates.{reduced_of, IsAtWork};
ghost use Rattle.cip_core.specs.Later.{IsLaterAt};
ghost use Rattle.cip_calls.specs.ProposalsJudged.{HaveRoom, IsJudgedCut};

use crate::judged::Judged;
use crate::rows::judge_row;
use crate::scratches::Scratches;
use crate::split_cuts::judge_split_cut;
use cip_core::Core;
use cip_plugin::Cut;
use cip_tree::Node;
use std::alloc::AllocError;

/// Judges a cut, while a node is in work: by its split, where it has one, as `judge_split_cut` does, else by its
/// combination, as `judge_row` does. `Err` comes where memory was refused, and leaves the pool as it was.
pub fn judge_cut(
    core: &mut Core<'_>,
    node: &Node,
    cut: &Cut,
    scratches: &mut Scratches,
) -> Result<Judged, AllocError>
    requires at_work { IsAtWork core.old node.now }
    requires room { HaveRoom scratches.old (columns (reduced_of core.old)) }
    ensures judged { MatchResult result (IsJudgedCut core.old core.new cut.now)
        (λ _. core.new.pool ≡ core.old.pool) }
    ensures later { IsLaterAt core.old node.now core.new node.now }
    ensures frame { core.new ≡ record core.old { pool = core.new.pool; touched = core.new.touched } }
    ensures scratches { HaveRoom scratches.new (columns (reduced_of core.old)) }
{
    match &cut.split {
        None => judge_row(core, node, &cut.combo, cut.round, cut.local),
        Some(split) => judge_split_cut(
            core,
            node,
            split,
            cut.local,
            &mut scratches.first,
            &mut scratches.second,
        ),
    }
}
