//! A node is split where a plugin proposed it.
ghost use Rattle.std.specs.Prelude.{◌≡◌, ◌<◌, ◌^◌, true, IfOk, MatchResult};
ghost use Rattle.cip_calls.specs.CoreStates.{IsTakenUp, IsGivenBound};
ghost use Rattle.cip_calls.specs.Steps.{IsBack};
ghost use Rattle.cip_node.specs.Looking.{IsOpenNode};
ghost use Rattle.cip_calls.specs.SplitsJudged.{IsPlace};
ghost use Rattle.cip_solve.specs.NodesDone.{IsDone};
ghost use Rattle.cip_solve.specs.NodesReached.{IsFoundAt};

use crate::ends::Done;
use cip_frac::Frac;
use cip_node::{Found, NodeEnd, NodeWork};
use cip_plugin::Split;
use cip_tree::Node;
use std::alloc::AllocError;

/// Ends an open node by a split at a place that a plugin proposed, hands on to the halves where its linear program
/// ended, and keeps its linear values. `Err` comes where memory was refused; the node is open again then, with the
/// bound that the log gave it.
pub(crate) fn end_parted(
    work: &mut NodeWork<'_>,
    node: Node,
    given: Option<Frac>,
    found: Found,
    split: Split,
) -> Result<Done, AllocError>
    requires up { IsTakenUp work.old.core node × (work.old.core.tree.ids < 2 ^ 63)
        × IsGivenBound work.old.core node.number given }
    requires open_ { IsOpenNode work.old.core node × IsFoundAt work.old.core node found }
    requires place { IsPlace work.old.core split.col split.at }
    ensures ended { MatchResult result (IsDone work.old.core work.new.core node)
        (λ _. IsBack work.old.core work.new.core node.number given) }
    ensures proposed { IfOk result (λ done. done.proposed ≡ true) }
    ensures pool { work.new.core.pool ≡ work.old.core.pool }
{
    work.core.is_sound();
    let parted = work.core.split(node, given, split.col, split.at);
    let Found { point, combo, mark } = found;
    match parted {
        Err(error) => {
            work.starts.keep(point, combo);
            drop(mark);
            Err(error)
        }
        Ok(halves) => {
            let waiting = work.core.tree().open_count();
            work.starts.hand_on(halves.0, waiting);
            work.starts.keep(point, combo);
            Ok(Done {
                end: NodeEnd::Split(halves.0, halves.1),
                mark,
                proposed: true,
                taken: false,
            })
        }
    }
}
