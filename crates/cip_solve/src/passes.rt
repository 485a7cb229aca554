//! One pass over a node in work: sides, its linear program with rows, and points.
ghost use Rattle.std.specs.Prelude.{◌∷◌, [], IfOk};
ghost use Rattle.cip_plugin.specs.Calls.{Search};
ghost use Rattle.cip_roster.specs.Turns.{IsSound};
ghost use Rattle.cip_node.specs.Looking.{IsOpenNode};
ghost use Rattle.cip_calls.specs.Noted.{IsReady, HasCome};
ghost use Rattle.cip_calls.specs.Served.{Used};
ghost use Rattle.cip_solve.specs.NodesReached.{IsFoundAt, IsReached, IsUsedIn, asks_in_pass};

use crate::looking::narrow;
use crate::reached::Reached;
use crate::separating::separate;
use crate::telling::{last_of, tell_now};
use cip_calls::{Asks, Core, Plugins, Round};
use cip_events::EventKind;
use cip_node::{Bounded, Found, NodeWork};
use cip_node_rules::Looked;
use cip_tree::Node;
use std::alloc::{AllocError, Global};

/// Asks for points, while a node is in work, behind its linear program, and tells what happened. `Err` comes where
/// memory was refused.
fn improve<R: Asks>(
    alloc: Global,
    core: &mut Core<'_>,
    plugins: &mut Plugins<R>,
    node: &mut Node,
    found: &Found,
) -> Result<(), AllocError>
    requires ready { IsReady core.old node.old plugins.old.scratches
        × IsSound (R.state plugins.old.roster) (R.room plugins.old.roster) }
    requires open_ { IsOpenNode core.old node.old × IsFoundAt core.old node.old found.now }
    ensures come { HasCome core.old node.old (R.state plugins.old.roster) core.new node.new
        plugins.new.scratches (R.state plugins.new.roster) (R.room plugins.new.roster) }
    ensures used { IfOk result (λ _. Used (Search ∷ []) (R.state plugins.old.roster) plugins.old.judged.items
        (R.state plugins.new.roster) plugins.new.judged.items) }
    ensures open_ { IsOpenNode core.new node.new × IsFoundAt core.new node.new found.now }
{
    let last = last_of(found);
    tell_now(alloc, core, plugins, node, Some(EventKind::LpSolved), last)?;
    let _came = plugins.ask_round(alloc, core, node, Round::Points, last)?;
    tell_now(alloc, core, plugins, node, None, last)
}

/// Asks for sides, looks at a node in work, and, where it is open, solves its linear program and asks for rows and
/// points. `Err` comes where memory was refused.
pub(crate) fn pass<R: Asks>(
    alloc: Global,
    work: &mut NodeWork<'_>,
    plugins: &mut Plugins<R>,
    node: &mut Node,
) -> Result<Reached, AllocError>
    requires ready { IsReady work.old.core node.old plugins.old.scratches
        × IsSound (R.state plugins.old.roster) (R.room plugins.old.roster) }
    ensures come { HasCome work.old.core node.old (R.state plugins.old.roster) work.new.core node.new
        plugins.new.scratches (R.state plugins.new.roster) (R.room plugins.new.roster) }
    ensures used { IfOk result (λ reached. IsUsedIn asks_in_pass reached (R.state plugins.old.roster)
        plugins.old.judged.items (R.state plugins.new.roster) plugins.new.judged.items) }
    ensures reached { IfOk result (IsReached work.new.core node.new) }
{
    match narrow(alloc, &mut work.core, &work.starts, plugins, node)? {
        Looked::Empty => Ok(Reached::Empty),
        Looked::Leaf => Ok(Reached::Leaf),
        Looked::Open => match separate(alloc, work, plugins, node)? {
            Bounded::Empty => Ok(Reached::Empty),
            Bounded::Open(found) => match improve(alloc, &mut work.core, plugins, node, &found) {
                Err(error) => {
                    drop(found);
                    Err(error)
                }
                Ok(()) => Ok(Reached::Open(found)),
            },
        },
    }
}
