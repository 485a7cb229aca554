//! Passes over a node in work, behind each of which handlers look at its point.
ghost use Rattle.std.specs.Prelude.{◌≡◌, ◌∷◌, [], IfOk};
ghost use Rattle.cip_events.specs.Events.{event_at};
ghost use Rattle.cip_events.specs.declared.events.EventKind.TheVariants.{NodeFocused};
ghost use Rattle.cip_plugin.specs.Calls.{OnEvent};
ghost use Rattle.cip_roster.specs.Turns.{IsSound};
ghost use Rattle.cip_calls.specs.Noted.{IsReady, HasCome};
ghost use Rattle.cip_calls.specs.Served.{Used};
ghost use Rattle.cip_calls.specs.Enforcing.{IsVerdict};
ghost use Rattle.cip_solve.specs.NodesReached.{IsReached, IsReachedIf, reached_by};
ghost use Rattle.cip_solve.specs.NodesReached.{IsUsedIn, IsUsedIf, asks_in_pass};

use crate::passes::pass;
use crate::reached::Reached;
use crate::telling::{last_of, tell_now};
use cip_calls::{Asks, Core, Plugins, Verdict, enforce};
use cip_node::{Found, NodeWork, Starts};
use cip_tree::Node;
use std::alloc::{AllocError, Global};

// How often a node goes back to its sides at most.
const MOST_RETURNS: u32 = 20;

/// Asks handlers what they say of an open node in work, and tells what happened. `Err` comes where memory was refused.
fn hear<R: Asks>(
    alloc: Global,
    core: &mut Core<'_>,
    plugins: &mut Plugins<R>,
    node: &mut Node,
    found: &Found,
) -> Result<Verdict, AllocError>
    requires ready { IsReady core.old node.old plugins.old.scratches
        × IsSound (R.state plugins.old.roster) (R.room plugins.old.roster) }
    ensures come { HasCome core.old node.old (R.state plugins.old.roster) core.new node.new
        plugins.new.scratches (R.state plugins.new.roster) (R.room plugins.new.roster) }
    ensures used { IfOk result (λ _. Used [] (R.state plugins.old.roster) plugins.old.judged.items
        (R.state plugins.new.roster) plugins.new.judged.items) }
    ensures said { IfOk result (IsVerdict core.old core.new node.old node.new) }
{
    let last = last_of(found);
    let said = enforce(plugins, alloc, core, node, last)?;
    tell_now(alloc, core, plugins, node, None, last)?;
    Ok(said)
}

/// What the work on an open node has come to behind what handlers said. `None`: a side or a row was accepted, and the
/// linear values of the node are kept.
fn reached_by(starts: &mut Starts, found: Found, said: Verdict) -> Option<Reached>
    ensures { result ≡ reached_by found said }
{
    match said {
        Verdict::Quiet => Some(Reached::Open(found)),
        Verdict::Emptied => {
            drop(found);
            Some(Reached::Empty)
        }
        Verdict::Changed => {
            let Found { point, combo, mark } = found;
            starts.keep(point, combo);
            drop(mark);
            None
        }
        Verdict::Place(split) => Some(Reached::Place(found, split)),
    }
}

/// One pass over a node in work, and what handlers say behind it where it is open. `None`: a side or a row was accepted
/// then, and the node goes back to its sides. `Err` comes where memory was refused.
fn turn<R: Asks>(
    alloc: Global,
    work: &mut NodeWork<'_>,
    plugins: &mut Plugins<R>,
    node: &mut Node,
) -> Result<Option<Reached>, AllocError>
    requires ready { IsReady work.old.core node.old plugins.old.scratches
        × IsSound (R.state plugins.old.roster) (R.room plugins.old.roster) }
    ensures come { HasCome work.old.core node.old (R.state plugins.old.roster) work.new.core node.new
        plugins.new.scratches (R.state plugins.new.roster) (R.room plugins.new.roster) }
    ensures used { IfOk result (λ turned. IsUsedIf turned (R.state plugins.old.roster) plugins.old.judged.items
        (R.state plugins.new.roster) plugins.new.judged.items) }
    ensures reached { IfOk result (IsReachedIf work.new.core node.new) }
{
    match pass(alloc, work, plugins, node)? {
        Reached::Open(found) => match hear(alloc, &mut work.core, plugins, node, &found) {
            Err(error) => {
                drop(found);
                Err(error)
            }
            Ok(said) => Ok(reached_by(&mut work.starts, found, said)),
        },
        reached => Ok(Some(reached)),
    }
}

/// Tells that a node, which is in work, was taken up, and passes over it, with what handlers say behind each pass,
/// until it needn't go back to its sides; behind the twentieth time that it goes back handlers aren't asked, so that no
/// side and no row comes behind its last linear program. `Err` comes where memory was refused.
pub(crate) fn focus_and_turn<R: Asks>(
    alloc: Global,
    work: &mut NodeWork<'_>,
    plugins: &mut Plugins<R>,
    node: &mut Node,
) -> Result<Reached, AllocError>
    requires ready { IsReady work.old.core node.old plugins.old.scratches
        × IsSound (R.state plugins.old.roster) (R.room plugins.old.roster) }
    ensures come { HasCome work.old.core node.old (R.state plugins.old.roster) work.new.core node.new
        plugins.new.scratches (R.state plugins.new.roster) (R.room plugins.new.roster) }
    ensures used { IfOk result (λ reached. IsUsedIn (OnEvent (event_at node.old.number NodeFocused) ∷ asks_in_pass)
        reached (R.state plugins.old.roster) plugins.old.judged.items (R.state plugins.new.roster)
        plugins.new.judged.items) }
    ensures reached { IfOk result (IsReached work.new.core node.new) }
{
    plugins.focus(alloc, &work.core, node)?;
    for _ in 0..MOST_RETURNS {
        match turn(alloc, work, plugins, node)? {
            None => {}
            Some(reached) => return Ok(reached),
        }
    }
    pass(alloc, work, plugins, node)
}
