//! What is told of the work on a node, and what plugins see of its last linear program.
ghost use Rattle.std.specs.Prelude.{◌≡◌, [], OnOk};
ghost use Rattle.cip_roster.specs.Turns.{IsSound};
ghost use Rattle.cip_roster.specs.Wished.{Ran};
ghost use Rattle.cip_calls.specs.CoreStates.{IsAtWork};
ghost use Rattle.cip_node.specs.Bounding.{IsBounded};
ghost use Rattle.cip_calls.specs.Noted.{IsReady, HasCome};
ghost use Rattle.cip_calls.specs.Served.{Used};

use crate::ends::Done;
use cip_calls::{Asks, Core, Last, Plugins, PostsolveFault, postsolve};
use cip_events::EventKind;
use cip_frac::Frac;
use cip_model::Verdict;
use cip_node::{Bounded, Found, NodeEnd};
use cip_tree::Node;
use std::alloc::{AllocError, Global};

/// What plugins see of what a linear program found.
pub(crate) fn last_of(found: &Found) -> Last<'_> {
    let point = match &found.point {
        None => None,
        Some(values) => Some(values.as_slice()),
    };
    Last {
        point,
        combo: found.combo.as_ref(),
    }
}

/// What is told of the point of the linear program of a node in work, a point of the reduced program, which was offered
/// if it was whole, where the cost held was this before: that what it comes back as was taken, or that this is feasible
/// and no cheaper than the point held. Nothing, where nobody is to be told, or a number on the way back isn't in range.
/// `Err` comes where memory was refused.
pub(crate) fn offered_kind(
    alloc: Global,
    core: &Core<'_>,
    node: &Node,
    before: Option<Frac>,
    bounded: &Bounded,
    is_silent: bool,
) -> Result<Option<EventKind>, AllocError>
    requires at_work { IsAtWork core.now node.now }
    requires bounded { IsBounded core.now node.now bounded.now }
{
    let _ = node;
    if is_silent {
        return Ok(None);
    }
    if core.held_cost() != before {
        return Ok(Some(EventKind::BestSolFound));
    }
    core.is_sound();
    let Bounded::Open(found) = bounded else {
        return Ok(None);
    };
    let Some(point) = &found.point else {
        return Ok(None);
    };
    match postsolve(alloc, core.steps(), point.as_slice()) {
        Ok(values) => match core.program().check(values.as_slice()) {
            Verdict::Feasible(_) => Ok(Some(EventKind::PoorSolFound)),
            _ => Ok(None),
        },
        Err(PostsolveFault::Wide) => Ok(None),
        Err(PostsolveFault::NoMemory) => Err(AllocError),
    }
}

/// Puts an event of a node behind those that wait, if there is one. `Err` comes where memory was refused.
fn queue_if<R: Asks>(
    plugins: &mut Plugins<R>,
    node: u64,
    kind: Option<EventKind>,
) -> Result<(), AllocError>
    ensures roster { plugins.new.roster ≡ plugins.old.roster }
    ensures rest { (plugins.new.scratches ≡ plugins.old.scratches) × (plugins.new.judged ≡ plugins.old.judged) }
{
    match kind {
        None => Ok(()),
        Some(kind) => plugins.queue_event(node, kind),
    }
}

/// Puts up to two events of a node behind those that wait, in this order, where it is known what the second is. `Err`
/// comes where memory was refused.
pub(crate) fn queue_both<R: Asks>(
    plugins: &mut Plugins<R>,
    node: u64,
    first: Option<EventKind>,
    second: Result<Option<EventKind>, AllocError>,
) -> Result<(), AllocError>
    ensures roster { plugins.new.roster ≡ plugins.old.roster }
    ensures rest { (plugins.new.scratches ≡ plugins.old.scratches) × (plugins.new.judged ≡ plugins.old.judged) }
{
    let second = second?;
    queue_if(plugins, node, first)?;
    queue_if(plugins, node, second)
}

/// Tells all that waits, and then this, if it is given, while a node is in work. `Err` comes where memory was refused:
/// what was called before it stands.
pub(crate) fn tell_now<R: Asks>(
    alloc: Global,
    core: &Core<'_>,
    plugins: &mut Plugins<R>,
    node: &Node,
    kind: Option<EventKind>,
    last: Last<'_>,
) -> Result<(), AllocError>
    requires ready { IsReady core.now node.now plugins.old.scratches
        × IsSound (R.state plugins.old.roster) (R.room plugins.old.roster) }
    ensures come { HasCome core.now node.now (R.state plugins.old.roster) core.now node.now plugins.new.scratches
        (R.state plugins.new.roster) (R.room plugins.new.roster) }
    ensures used { OnOk result (Used [] (R.state plugins.old.roster) plugins.old.judged.items
        (R.state plugins.new.roster) plugins.new.judged.items) }
{
    queue_if(plugins, node.id(), kind)?;
    plugins.tell(alloc, core, node.id(), last)
}

/// What is told of the point of a node that ended so, where a leaf's was no cheaper than the point held, too; and
/// behind it of the node.
fn end_kinds(done: &Done) -> (Option<EventKind>, Option<EventKind>) {
    let (point, end) = match &done.end {
        NodeEnd::Pruned | NodeEnd::Empty => (None, Some(EventKind::NodeInfeasible)),
        NodeEnd::Solved => (Some(EventKind::PoorSolFound), Some(EventKind::NodeFeasible)),
        NodeEnd::Split(_, _) => (None, Some(EventKind::NodeBranched)),
        NodeEnd::Parked { .. } => (None, None),
        NodeEnd::Ray { .. } => (Some(EventKind::PoorSolFound), None),
    };
    if done.taken {
        return (Some(EventKind::BestSolFound), end);
    }
    (point, end)
}

/// Tells all that waits behind the work on a node of this number, and how it ended. `Err` comes where memory was
/// refused: what was called before it stands.
pub fn tell_end<R: Asks>(
    alloc: Global,
    core: &Core<'_>,
    plugins: &mut Plugins<R>,
    node: u64,
    done: &Done,
) -> Result<(), AllocError>
    requires sound { IsSound (R.state plugins.old.roster) (R.room plugins.old.roster) }
    ensures sound { IsSound (R.state plugins.new.roster) (R.room plugins.new.roster) }
    ensures used { OnOk result (Used [] (R.state plugins.old.roster) plugins.old.judged.items
        (R.state plugins.new.roster) plugins.new.judged.items) }
    ensures run { Ran (R.state plugins.old.roster) (R.state plugins.new.roster) }
    ensures frame { (plugins.new.scratches ≡ plugins.old.scratches) × (plugins.new.judged ≡ plugins.old.judged) }
{
    let (point, end) = end_kinds(done);
    queue_both(plugins, node, point, Ok(end))?;
    plugins.tell(alloc, core, node, Last::none())
}
