//! The work on a node with plugins, from the node as it was taken up to its end.
ghost use Rattle.std.specs.Prelude.{◌∷◌, IfOk, MatchResult};
ghost use Rattle.cip_problem.specs.WellFormed.{columns};
ghost use Rattle.cip_events.specs.Events.{event_at};
ghost use Rattle.cip_events.specs.declared.events.EventKind.TheVariants.{NodeFocused};
ghost use Rattle.cip_plugin.specs.Calls.{OnEvent};
ghost use Rattle.cip_roster.specs.Turns.{IsSound};
ghost use Rattle.cip_calls.specs.CoreStates.{reduced_of, IsTakenUp};
ghost use Rattle.cip_calls.specs.Steps.{IsBack};
ghost use Rattle.cip_node.specs.Looking.{CanWorkOn};
ghost use Rattle.cip_calls.specs.ProposalsJudged.{HaveRoom};
ghost use Rattle.cip_solve.specs.NodesDone.{IsDone, IsDoneUsing, HasAged};
ghost use Rattle.cip_solve.specs.NodesReached.{HasMoved, IsReached, IsUsedIn, asks_in_pass};

use crate::ending::finish;
use crate::ends::Done;
use crate::node_turns::focus_and_turn;
use crate::reached::Reached;
use cip_calls::{Asks, Plugins};
use cip_node::NodeWork;
use cip_tree::Node;
use std::alloc::{AllocError, Global};

/// Begins the work on a node that was taken up: the pool ages, the region of the node becomes the region in work, that
/// it was taken up is told, and passes over it follow. `Err` comes where memory was refused.
fn begin<R: Asks>(
    alloc: Global,
    work: &mut NodeWork<'_>,
    plugins: &mut Plugins<R>,
    node: &mut Node,
) -> Result<Reached, AllocError>
    requires up { IsTakenUp work.old.core node.old }
    requires room { HaveRoom plugins.old.scratches (columns (reduced_of work.old.core))
        × IsSound (R.state plugins.old.roster) (R.room plugins.old.roster) }
    ensures moved { HasMoved work.old.core node.old work.new.core node.new }
    ensures kept { HasAged work.old.core (R.state plugins.old.roster) work.new.core plugins.new.scratches
        (R.state plugins.new.roster) (R.room plugins.new.roster) }
    ensures used { IfOk result (λ reached. IsUsedIn (OnEvent (event_at node.old.number NodeFocused) ∷ asks_in_pass)
        reached (R.state plugins.old.roster) plugins.old.judged.items (R.state plugins.new.roster)
        plugins.new.judged.items) }
    ensures reached { IfOk result (IsReached work.new.core node.new) }
{
    work.core.age();
    work.starts.turn_to(node.id());
    if !work.core.enter(node)? {
        return Ok(Reached::Empty);
    }
    focus_and_turn(alloc, work, plugins, node)
}

/// Works on a node that was taken up, until it has ended, with the plugins that are lent; the pool ages once, and no
/// row goes but by that. What became of proposals stands behind what stood in `plugins.judged`. How the node ended is
/// told by `tell_end`. `Err` comes where memory was refused; the node is open again then, with the bound that it was
/// taken up with, and nothing is logged: where memory was freed, the search can go on.
pub fn process<R: Asks>(
    alloc: Global,
    work: &mut NodeWork<'_>,
    plugins: &mut Plugins<R>,
    node: Node,
) -> Result<Done, AllocError>
    requires can { CanWorkOn work.old.core node }
    requires room { HaveRoom plugins.old.scratches (columns (reduced_of work.old.core))
        × IsSound (R.state plugins.old.roster) (R.room plugins.old.roster) }
    ensures ended { MatchResult result (IsDone work.old.core work.new.core node)
        (λ _. IsBack work.old.core work.new.core node.number node.bound) }
    ensures used { IfOk result (λ done. IsDoneUsing node.number done (R.state plugins.old.roster)
        plugins.old.judged.items (R.state plugins.new.roster) plugins.new.judged.items) }
    ensures kept { HasAged work.old.core (R.state plugins.old.roster) work.new.core plugins.new.scratches
        (R.state plugins.new.roster) (R.room plugins.new.roster) }
{
    let given = node.bound();
    let mut node = node;
    match begin(alloc, work, plugins, &mut node) {
        Err(error) => {
            work.core.go_back(node, given);
            Err(error)
        }
        Ok(reached) => finish(alloc, work, plugins, node, given, reached),
    }
}
