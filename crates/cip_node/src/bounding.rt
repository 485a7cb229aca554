//! The linear program of a node in work.
ghost use Rattle.std.specs.Prelude.{◌≡◌, ◌≢◌, None, Some, Err, length, IfOk, IfSome, OnErr};
ghost use Rattle.cip_problem.specs.WellFormed.{columns};
ghost use Rattle.cip_problem.specs.Improving.{IsBoundIn};
ghost use Rattle.cip_tree.specs.Nodes.{region_of, box_of};
ghost use Rattle.cip_core.specs.CoreStates.{reduced_of, held_of, IsAtWork};
ghost use Rattle.cip_core.specs.Later.{IsLaterAt};
ghost use Rattle.cip_core.specs.PostsolveFault.TheVariants.{NoMemory};
ghost use Rattle.cip_core.specs.Steps.{IsTriedBack, IsRaisedTo};
ghost use Rattle.cip_node.specs.Bounding.{IsRelaxedOf, IsBounded, told_of};
ghost use Rattle.cip_node.specs.SameRows.{HasSameRows};

use crate::works::NodeWork;
use cip_core::{Core, PostsolveFault};
use cip_frac::Frac;
use cip_incumbent::Offered;
use cip_lin::Combo;
use cip_node_rules::are_whole;
use cip_relax::{Mark, Relaxed, relax_from};
use cip_tree::Node;
use std::alloc::{AllocError, Global};

/// What a linear program found: a point, if it has one and that was found; the combination that shows its least cost,
/// if that was shown; and the mark, if it wasn't.
#[derive(Drop)]
pub struct Found {
    /// Its point.
    pub point: Option<Vec<Frac>>,
    /// The combination that shows its least cost.
    pub combo: Option<Combo>,
    /// What it met, if nothing was shown.
    pub mark: Option<Mark>,
}

/// What the linear program of a node leaves of it.
#[derive(Drop)]
pub enum Bounded {
    /// The node's box has no improving point.
    Empty,
    /// The node goes on.
    Open(Found),
}

/// What the linear program of a node tells: the bound that it shows, if it shows one, and what it found.
#[derive(Drop)]
struct Told {
    bound: Option<Frac>,
    found: Found,
}

/// What was found without a mark.
fn found_at(point: Vec<Frac>, combo: Option<Combo>) -> Found
    ensures { result ≡ record { point = Some point; combo = combo; mark = None } }
{
    Found {
        point: Some(point),
        combo,
        mark: None,
    }
}

/// What a linear program tells; `None` where it has no point.
fn told_by(relaxed: Relaxed) -> Option<Told>
    ensures { result ≡ told_of relaxed }
{
    match relaxed {
        Relaxed::Empty => None,
        Relaxed::Bound {
            point,
            bound,
            combo,
        } => Some(Told {
            bound: Some(bound),
            found: found_at(point, Some(combo)),
        }),
        Relaxed::Near { point, bound } => Some(Told {
            bound: Some(bound),
            found: found_at(point, None),
        }),
        Relaxed::Falls { point } => Some(Told {
            bound: None,
            found: found_at(point, None),
        }),
        Relaxed::Unsolved { mark, point, bound } => Some(Told {
            bound,
            found: Found {
                point,
                combo: None,
                mark: Some(mark),
            },
        }),
    }
}

/// What the offer of what a point comes back as comes to; a point that doesn't come back in range is passed over. `Err`
/// comes where memory was refused.
fn passed_over(offered: Result<Offered, PostsolveFault>) -> Result<(), AllocError>
    ensures ok { IfOk result (λ _. offered ≢ Err NoMemory) }
    ensures err { OnErr result (offered ≡ Err NoMemory) }
{
    match offered {
        Ok(_) => Ok(()),
        Err(PostsolveFault::Wide) => Ok(()),
        Err(PostsolveFault::NoMemory) => Err(AllocError),
    }
}

/// Offers what a point of a linear program comes back as, if it has whole values on whole columns; a point that doesn't
/// come back in range is passed over. `Err` comes where memory was refused.
fn offer_whole(
    core: &mut Core<'_>,
    alloc: Global,
    node: &Node,
    point: &[Frac],
) -> Result<(), AllocError>
    requires at_work { IsAtWork core.old node.now }
    requires values { length point.now ≡ columns (reduced_of core.old) }
    ensures later { IsLaterAt core.old node.now core.new node.now }
    ensures tried { IfOk result (λ _. IsTriedBack core.new point.now) }
    ensures region { region_of core.new.tree node.now ≡ region_of core.old.tree node.now }
    ensures frame { core.new ≡ record core.old { tree = core.new.tree; incumbent = core.new.incumbent } }
{
    core.is_sound();
    let reduced = core.reduced();
    if !are_whole(reduced.whole(), point) {
        return Ok(());
    }
    passed_over(core.offer_back(alloc, node, point))
}

/// Offers what a point comes back as, if there is one and it has whole values on whole columns, as `offer_whole` does.
fn offer_if(
    core: &mut Core<'_>,
    alloc: Global,
    node: &Node,
    point: &Option<Vec<Frac>>,
) -> Result<(), AllocError>
    requires at_work { IsAtWork core.old node.now }
    requires values { IfSome point.now (λ values. length values.items ≡ columns (reduced_of core.old)) }
    ensures later { IsLaterAt core.old node.now core.new node.now }
    ensures tried { IfOk result (λ _. IfSome point.now (λ values. IsTriedBack core.new values.items)) }
    ensures region { region_of core.new.tree node.now ≡ region_of core.old.tree node.now }
    ensures frame { core.new ≡ record core.old { tree = core.new.tree; incumbent = core.new.incumbent } }
{
    match point {
        None => Ok(()),
        Some(values) => offer_whole(core, alloc, node, values.as_slice()),
    }
}

/// Gives a node in work a bound that holds in its box, if there is one, rounded up where costs are whole, if it is
/// greater than its own.
fn raise_if(core: &Core<'_>, node: &mut Node, bound: Option<Frac>)
    requires at_work { IsAtWork core.now node.old }
    requires holds { IfSome bound
        (IsBoundIn (reduced_of core.now) (held_of core.now) (box_of core.now.tree node.old)) }
    ensures later { IsLaterAt core.now node.old core.now node.new }
    ensures raised { IfSome bound (λ b. IsRaisedTo core.now b node.new.bound) }
    ensures node { node.new ≡ record node.old { bound = node.new.bound } }
{
    match bound {
        None => {}
        Some(bound) => core.raise(node, bound),
    }
}

/// What the linear program of a node in work leaves of it: its bound rises to what that shows, also beside a mark, and
/// what a point that is whole on whole columns comes back as is offered. `Err` comes where memory was refused.
fn leave(
    core: &mut Core<'_>,
    alloc: Global,
    node: &mut Node,
    relaxed: Relaxed,
) -> Result<Bounded, AllocError>
    requires at_work { IsAtWork core.old node.old }
    requires relaxed { IsRelaxedOf core.old relaxed }
    ensures later { IsLaterAt core.old node.old core.new node.new }
    ensures bounded { IfOk result (IsBounded core.new node.new) }
    ensures region { region_of core.new.tree node.new ≡ region_of core.old.tree node.old }
    ensures frame { core.new ≡ record core.old { tree = core.new.tree; incumbent = core.new.incumbent } }
{
    core.is_sound();
    match told_by(relaxed) {
        None => Ok(Bounded::Empty),
        Some(Told { bound, found }) => {
            raise_if(core, node, bound);
            match offer_if(core, alloc, node, &found.point) {
                Ok(()) => Ok(Bounded::Open(found)),
                Err(error) => {
                    drop(found);
                    Err(error)
                }
            }
        }
    }
}

impl<'a> NodeWork<'a> {
    /// Solves the linear program of the box in work, from where the last one of the node ended, or from the start that
    /// was handed on to it. `Err` comes where memory was refused.
    fn relaxed(&mut self, alloc: Global, node: &Node) -> Result<Relaxed, AllocError>
        requires { IsAtWork self.old.core node.now }
        ensures relaxed { IfOk result (IsRelaxedOf self.new.core) }
        ensures core { self.new.core ≡ self.old.core }
    {
        let core = &self.core;
        core.is_sound();
        let start = self.starts.given();
        let solver = &mut self.solver;
        let (relaxed, last) = relax_from(
            alloc,
            core.reduced(),
            core.pool(),
            core.bounds(),
            start,
            solver,
        )?;
        self.starts.hold(last);
        Ok(relaxed)
    }

    /// Solves the linear program of a node in work: its bound rises to what that shows, also beside a mark, and what a
    /// point that is whole on whole columns comes back as is offered. `Err` comes where memory was refused; the node is
    /// in work then.
    pub fn bound(&mut self, alloc: Global, node: &mut Node) -> Result<Bounded, AllocError>
        requires { IsAtWork self.old.core node.old }
        ensures later { IsLaterAt self.old.core node.old self.new.core node.new }
        ensures bounded { IfOk result (IsBounded self.new.core node.new) }
        ensures region { region_of self.new.core.tree node.new ≡ region_of self.old.core.tree node.old }
        ensures rows { HasSameRows self.old.core self.new.core }
    {
        let relaxed = self.relaxed(alloc, node)?;
        leave(&mut self.core, alloc, node, relaxed)
    }
}
