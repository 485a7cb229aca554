//! The linear program of a node, and the rounds in which plugins add rows to it.
ghost use Rattle.std.specs.Prelude.{◌≡◌, ◌≢◌, ◌∷◌, [], IfOk};
ghost use Rattle.cip_plugin.specs.Calls.{Separate};
ghost use Rattle.cip_roster.specs.Turns.{IsSound};
ghost use Rattle.cip_tree.specs.Nodes.{region_of};
ghost use Rattle.cip_node.specs.Bounding.{IsBounded};
ghost use Rattle.cip_calls.specs.Noted.{IsReady, HasCome};
ghost use Rattle.cip_calls.specs.Served.{Used};
ghost use Rattle.cip_calls.specs.declared.judging.Came.TheVariants.{Emptied};
ghost use Rattle.cip_solve.specs.NodesReached.{IsFoundAt, IsFoundBy, IsOpenBounded, left_by};

use crate::telling::{last_of, offered_kind, queue_both, tell_now};
use cip_calls::{Asks, Came, Plugins, Round};
use cip_events::EventKind;
use cip_node::{Bounded, Found, NodeWork};
use cip_tree::Node;
use std::alloc::{AllocError, Global};
use std::mem;

// The most rounds in which rows are asked for, each time.
const MOST_ROUNDS: u32 = 20;

/// Solves the linear program of a node in work, from where its last one ended; this waits to be told, if it is given,
/// and behind it that what its point comes back as was taken, or that this is feasible and no cheaper than the point
/// held. `Err` comes where memory was refused.
fn solve_lp<R: Asks>(
    alloc: Global,
    work: &mut NodeWork<'_>,
    plugins: &mut Plugins<R>,
    node: &mut Node,
    solved: Option<EventKind>,
) -> Result<Bounded, AllocError>
    requires ready { IsReady work.old.core node.old plugins.old.scratches
        × IsSound (R.state plugins.old.roster) (R.room plugins.old.roster) }
    ensures come { HasCome work.old.core node.old (R.state plugins.old.roster) work.new.core node.new
        plugins.new.scratches (R.state plugins.new.roster) (R.room plugins.new.roster) }
    ensures silent { (plugins.new.roster ≡ plugins.old.roster) × (plugins.new.judged ≡ plugins.old.judged) }
    ensures region { region_of work.new.core.tree node.new ≡ region_of work.old.core.tree node.old }
    ensures pool { work.new.core.pool ≡ work.old.core.pool }
    ensures bounded { IfOk result (IsBounded work.new.core node.new) }
{
    let before = work.core.held_cost();
    let bounded = work.bound(alloc, node)?;
    let is_silent = plugins.roster.has_none();
    let offered = offered_kind(alloc, &work.core, node, before, &bounded, is_silent);
    match queue_both(plugins, node.id(), solved, offered) {
        Err(error) => {
            drop(bounded);
            Err(error)
        }
        Ok(()) => Ok(bounded),
    }
}

/// Asks for rows once, while a node is in work, and, where one was added, solves its linear program again and keeps
/// what it finds: `Accepted` comes then. `Emptied` comes where the node has no improving point. `Err` comes where
/// memory was refused.
fn cut_once<R: Asks>(
    alloc: Global,
    work: &mut NodeWork<'_>,
    plugins: &mut Plugins<R>,
    node: &mut Node,
    found: &mut Found,
) -> Result<Came, AllocError>
    requires ready { IsReady work.old.core node.old plugins.old.scratches
        × IsSound (R.state plugins.old.roster) (R.room plugins.old.roster) }
    requires found { IsFoundAt work.old.core node.old found.old }
    ensures come { HasCome work.old.core node.old (R.state plugins.old.roster) work.new.core node.new
        plugins.new.scratches (R.state plugins.new.roster) (R.room plugins.new.roster) }
    ensures used { IfOk result (λ came. came ≢ Emptied → Used (Separate ∷ []) (R.state plugins.old.roster)
        plugins.old.judged.items (R.state plugins.new.roster) plugins.new.judged.items) }
    ensures region { region_of work.new.core.tree node.new ≡ region_of work.old.core.tree node.old }
    ensures found { IfOk result (λ came. IsFoundBy came work.new.core node.new found.new) }
{
    match plugins.ask_round(alloc, &mut work.core, node, Round::Cuts, last_of(found))? {
        Came::Accepted => match solve_lp(alloc, work, plugins, node, None)? {
            Bounded::Empty => Ok(Came::Emptied),
            Bounded::Open(newer) => {
                drop(mem::replace(found, newer));
                Ok(Came::Accepted)
            }
        },
        came => Ok(came),
    }
}

/// Tells what waits behind the linear program of a node in work, and asks for rows in rounds: behind one in which none
/// was added, or behind 20, none follows. What is kept is what the last linear program found. `Err` comes where memory
/// was refused.
fn cut_in_rounds<R: Asks>(
    alloc: Global,
    work: &mut NodeWork<'_>,
    plugins: &mut Plugins<R>,
    node: &mut Node,
    found: &mut Found,
) -> Result<Came, AllocError>
    requires ready { IsReady work.old.core node.old plugins.old.scratches
        × IsSound (R.state plugins.old.roster) (R.room plugins.old.roster) }
    requires found { IsFoundAt work.old.core node.old found.old }
    ensures come { HasCome work.old.core node.old (R.state plugins.old.roster) work.new.core node.new
        plugins.new.scratches (R.state plugins.new.roster) (R.room plugins.new.roster) }
    ensures used { IfOk result (λ came. came ≢ Emptied → Used (Separate ∷ []) (R.state plugins.old.roster)
        plugins.old.judged.items (R.state plugins.new.roster) plugins.new.judged.items) }
    ensures region { region_of work.new.core.tree node.new ≡ region_of work.old.core.tree node.old }
    ensures found { IfOk result (λ came. IsFoundBy came work.new.core node.new found.new) }
{
    tell_now(alloc, &work.core, plugins, node, None, last_of(found))?;
    for _ in 1..MOST_ROUNDS {
        match cut_once(alloc, work, plugins, node, found)? {
            Came::Accepted => {}
            came => return Ok(came),
        }
    }
    cut_once(alloc, work, plugins, node, found)
}

/// What rounds leave of a node, behind which its linear program found this.
fn left_by(came: Came, found: Found) -> Bounded
    ensures { result ≡ left_by came found }
{
    match came {
        Came::Emptied => {
            drop(found);
            Bounded::Empty
        }
        Came::Quiet | Came::Accepted => Bounded::Open(found),
    }
}

/// Solves the linear program of a node in work, tells that, and asks for rows in rounds, behind each of which that
/// added one it is solved again. What is answered is what the last one leaves. `Err` comes where memory was refused.
pub(crate) fn separate<R: Asks>(
    alloc: Global,
    work: &mut NodeWork<'_>,
    plugins: &mut Plugins<R>,
    node: &mut Node,
) -> Result<Bounded, AllocError>
    requires ready { IsReady work.old.core node.old plugins.old.scratches
        × IsSound (R.state plugins.old.roster) (R.room plugins.old.roster) }
    ensures come { HasCome work.old.core node.old (R.state plugins.old.roster) work.new.core node.new
        plugins.new.scratches (R.state plugins.new.roster) (R.room plugins.new.roster) }
    ensures used { IfOk result (λ bounded. IsOpenBounded bounded → Used (Separate ∷ []) (R.state plugins.old.roster)
        plugins.old.judged.items (R.state plugins.new.roster) plugins.new.judged.items) }
    ensures region { region_of work.new.core.tree node.new ≡ region_of work.old.core.tree node.old }
    ensures bounded { IfOk result (IsBounded work.new.core node.new) }
{
    match solve_lp(alloc, work, plugins, node, Some(EventKind::FirstLpSolved))? {
        Bounded::Empty => Ok(Bounded::Empty),
        Bounded::Open(mut found) => match cut_in_rounds(alloc, work, plugins, node, &mut found) {
            Err(error) => {
                drop(found);
                Err(error)
            }
            Ok(came) => Ok(left_by(came, found)),
        },
    }
}
