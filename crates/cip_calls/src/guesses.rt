//! Points that are proposed.
ghost use Rattle.std.specs.Prelude.{◌≡◌, length, IfOk, MatchResult};
ghost use Rattle.cip_problem.specs.WellFormed.{columns};
ghost use Rattle.cip_core.specs.Verdicts.{verdict_of};
ghost use Rattle.cip_core.specs.Verdict.TheVariants.{Feasible};
ghost use Rattle.cip_core.specs.HeldPoint.{offered};
ghost use Rattle.cip_tree.specs.Nodes.{region_of};
ghost use Rattle.cip_core.specs.StepsBack.{point_back};
ghost use Rattle.cip_core.specs.CoreStates.{IsAtWork};
ghost use Rattle.cip_core.specs.Later.{IsLaterAt};
ghost use Rattle.cip_calls.specs.GuessesJudged.{costs_less, judged_as, IsGuessJudged, IsAfterGuess};

use crate::judged::{JudgeFault, Judged, NodeFault};
use cip_core::{Core, PostsolveFault, Verdict, postsolve};
use cip_frac::Frac;
use cip_plugin::Guess;
use cip_tree::Node;
use std::alloc::{AllocError, Global};

/// Whether a cost is less than the one held, as each is where none is.
fn is_cheaper(cost: Frac, held: Option<Frac>) -> bool
    ensures { result ≡ costs_less cost held }
{
    match held {
        None => true,
        Some(held) => cost < held,
    }
}

/// Holds a point of the program as read that is feasible at this cost, if that is less than the cost held.
fn hold(core: &mut Core<'_>, node: &Node, cost: Frac, values: &[Frac]) -> Judged
    requires at_work { IsAtWork core.old node.now }
    requires values { length values.now ≡ columns core.old.program }
    requires found { verdict_of core.old.program values.now ≡ Feasible cost }
    ensures answer { result ≡ judged_as (offered core.old.incumbent.best (Feasible cost)) }
    ensures after { IsAfterGuess result core.old core.new values.now }
    ensures later { IsLaterAt core.old node.now core.new node.now }
    ensures region { region_of core.new.tree node.now ≡ region_of core.old.tree node.now }
    ensures frame { core.new ≡ record core.old { tree = core.new.tree; incumbent = core.new.incumbent } }
{
    if !is_cheaper(cost, core.held_cost()) {
        return Judged::NotBetter;
    }
    let _taken = core.offer_at(node, cost, values);
    Judged::Accepted
}

/// Judges a point of the program as read by its test.
fn judge_point(core: &mut Core<'_>, node: &Node, values: &[Frac]) -> Judged
    requires at_work { IsAtWork core.old node.now }
    requires values { length values.now ≡ columns core.old.program }
    ensures answer { result
        ≡ judged_as (offered core.old.incumbent.best (verdict_of core.old.program values.now)) }
    ensures after { IsAfterGuess result core.old core.new values.now }
    ensures later { IsLaterAt core.old node.now core.new node.now }
    ensures region { region_of core.new.tree node.now ≡ region_of core.old.tree node.now }
    ensures frame { core.new ≡ record core.old { tree = core.new.tree; incumbent = core.new.incumbent } }
{
    match core.program().check(values) {
        Verdict::Feasible(cost) => hold(core, node, cost, values),
        verdict => Judged::Refused(JudgeFault::Offer(verdict)),
    }
}

/// Judges a point of the reduced program that is proposed while a node is in work. `Accepted` comes exactly where what
/// it comes back as is feasible and cheaper than the point held: then that is held, the cutoff row is that of its cost,
/// and open nodes that don't matter are let go. `NotBetter` comes exactly where it is feasible and no cheaper.
/// `Refused` comes with `BadLength` exactly where the point hasn't a value for each column of the reduced program, else
/// with `Wide` of `Postsolve` exactly where a number on the way back isn't in range, and else with the verdict of the
/// test exactly where that isn't `Feasible`. Nothing changes but at `Accepted`; nor does it at `Err`, which comes where
/// memory was refused.
pub fn judge_guess(
    alloc: Global,
    core: &mut Core<'_>,
    node: &Node,
    guess: &Guess,
) -> Result<Judged, AllocError>
    requires at_work { IsAtWork core.old node.now }
    ensures judged { IfOk result (IsGuessJudged core.old guess.now.values.items) }
    ensures after { MatchResult result
        (λ came. IsAfterGuess came core.old core.new (point_back core.old.steps guess.now.values.items))
        (λ _. core.new ≡ core.old) }
    ensures later { IsLaterAt core.old node.now core.new node.now }
    ensures region { region_of core.new.tree node.now ≡ region_of core.old.tree node.now }
    ensures frame { core.new ≡ record core.old { tree = core.new.tree; incumbent = core.new.incumbent } }
{
    core.is_sound();
    let values = guess.values.as_slice();
    if values.len() != core.reduced().columns() {
        return Ok(Judged::Refused(JudgeFault::Node(NodeFault::BadLength)));
    }
    match postsolve(alloc, core.steps(), values) {
        Ok(point) => Ok(judge_point(core, node, point.as_slice())),
        Err(PostsolveFault::NoMemory) => Err(AllocError),
        Err(fault) => Ok(Judged::Refused(JudgeFault::Postsolve(fault))),
    }
}
