//! How a node ends that the work on it has reached the end of.
ghost use Rattle.std.specs.Prelude.{◌≡◌, ◌<◌, ◌^◌, IfOk, MatchResult};
ghost use Rattle.cip_roster.specs.Turns.{IsSound};
ghost use Rattle.cip_roster.specs.Wished.{Ran};
ghost use Rattle.cip_calls.specs.CoreStates.{IsTakenUp, IsGivenBound};
ghost use Rattle.cip_calls.specs.Steps.{IsBack};
ghost use Rattle.cip_node.specs.Looking.{IsOpenNode};
ghost use Rattle.cip_calls.specs.Served.{Used};
ghost use Rattle.cip_solve.specs.NodesDone.{IsDone, IsEndUsed, asks_for_split};
ghost use Rattle.cip_solve.specs.NodesReached.{IsFoundAt, IsReached};

use crate::ends::Done;
use crate::parting::end_parted;
use crate::reached::Reached;
use crate::telling::last_of;
use cip_calls::{Asks, Plugins, ask_rules};
use cip_frac::Frac;
use cip_node::{Found, NodeEnd, NodeWork, end_leaf};
use cip_node_rules::matters;
use cip_tree::Node;
use std::alloc::{AllocError, Global};

/// Ends an open node, and keeps its linear values: it is pruned where its bound isn't below the cost held; else it is
/// split where a branching rule proposes it, or by the rules where none does. `Err` comes where memory was refused; the
/// node is open again then, with the bound that the log gave it.
fn end_open<R: Asks>(
    alloc: Global,
    work: &mut NodeWork<'_>,
    plugins: &mut Plugins<R>,
    node: Node,
    given: Option<Frac>,
    found: Found,
) -> Result<Done, AllocError>
    requires up { IsTakenUp work.old.core node × (work.old.core.tree.ids < 2 ^ 63)
        × IsGivenBound work.old.core node.number given }
    requires open_ { IsOpenNode work.old.core node × IsFoundAt work.old.core node found }
    requires sound { IsSound (R.state plugins.old.roster) (R.room plugins.old.roster) }
    ensures ended { MatchResult result (IsDone work.old.core work.new.core node)
        (λ _. IsBack work.old.core work.new.core node.number given) }
    ensures used { IfOk result (λ done. Used (asks_for_split done.proposed done.end) (R.state plugins.old.roster)
        plugins.old.judged.items (R.state plugins.new.roster) plugins.new.judged.items) }
    ensures kept { (work.new.core.pool ≡ work.old.core.pool)
        × IsSound (R.state plugins.new.roster) (R.room plugins.new.roster)
        × Ran (R.state plugins.old.roster) (R.state plugins.new.roster)
        × (plugins.new.scratches ≡ plugins.old.scratches) }
{
    if !matters(work.core.held_cost(), node.bound()) {
        work.core.close_pruned(node);
        work.starts.keep(found.point, found.combo);
        return Ok(Done {
            end: NodeEnd::Pruned,
            mark: found.mark,
            proposed: false,
            taken: false,
        });
    }
    match ask_rules(plugins, alloc, &work.core, &node, last_of(&found)) {
        Err(error) => {
            work.core.go_back(node, given);
            drop(found);
            Err(error)
        }
        Ok(None) => {
            let ended = work.branch(node, given, &found);
            work.starts.keep(found.point, found.combo);
            match ended {
                Err(error) => {
                    drop(found.mark);
                    Err(error)
                }
                Ok(end) => Ok(Done {
                    end,
                    mark: found.mark,
                    proposed: false,
                    taken: false,
                }),
            }
        }
        Ok(Some(split)) => end_parted(work, node, given, found, split),
    }
}

/// Ends a node by what the work on it has come to. `Err` comes where memory was refused; the node is open again then,
/// with the bound that the log gave it.
pub(crate) fn finish<R: Asks>(
    alloc: Global,
    work: &mut NodeWork<'_>,
    plugins: &mut Plugins<R>,
    node: Node,
    given: Option<Frac>,
    reached: Reached,
) -> Result<Done, AllocError>
    requires up { IsTakenUp work.old.core node × (work.old.core.tree.ids < 2 ^ 63)
        × IsGivenBound work.old.core node.number given }
    requires reached { IsReached work.old.core node reached }
    requires sound { IsSound (R.state plugins.old.roster) (R.room plugins.old.roster) }
    ensures ended { MatchResult result (IsDone work.old.core work.new.core node)
        (λ _. IsBack work.old.core work.new.core node.number given) }
    ensures used { IfOk result (λ done. IsEndUsed reached done (R.state plugins.old.roster) plugins.old.judged.items
        (R.state plugins.new.roster) plugins.new.judged.items) }
    ensures kept { (work.new.core.pool ≡ work.old.core.pool)
        × IsSound (R.state plugins.new.roster) (R.room plugins.new.roster)
        × Ran (R.state plugins.old.roster) (R.state plugins.new.roster)
        × (plugins.new.scratches ≡ plugins.old.scratches) }
{
    match reached {
        Reached::Empty => {
            work.core.close_empty(node);
            Ok(Done {
                end: NodeEnd::Empty,
                mark: None,
                proposed: false,
                taken: false,
            })
        }
        Reached::Leaf => {
            let before = work.core.held_cost();
            let end = end_leaf(&mut work.core, alloc, node, given)?;
            let taken = work.core.held_cost() != before;
            Ok(Done {
                end,
                mark: None,
                proposed: false,
                taken,
            })
        }
        Reached::Open(found) => end_open(alloc, work, plugins, node, given, found),
        Reached::Place(found, split) => end_parted(work, node, given, found, split),
    }
}
