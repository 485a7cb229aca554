//! What a handler says of a point is judged.
ghost use Rattle.std.specs.Prelude.{◌≡◌, length, IfOk, OnOk, IsSome, is_some, slice_get, if◌then◌else◌};
ghost use Rattle.cip_problem.specs.WellFormed.{columns};
ghost use Rattle.cip_plugin.specs.Calls.{Enforce};
ghost use Rattle.cip_calls.specs.Turns.{IsSound};
ghost use Rattle.cip_calls.specs.CoreStates.{reduced_of, IsAtWork};
ghost use Rattle.cip_calls.specs.Noted.{IsReady, HasGone, HasJudged};
ghost use Rattle.cip_calls.specs.Enforcing.{made, IsVerdict};

use crate::enforcing::Verdict;
use crate::{Asks, Core, Judged, Plugins, judge_cutoff, split_refusal};
use cip_cert::Scratch;
use cip_plugin::{Cut, Enforced, Given, Reduction};
use cip_tree::Node;
use std::alloc::AllocError;

/// What a handler says of a point, if it says something.
pub(crate) fn said_of(given: Option<Given>) -> Option<Enforced>
    ensures { made Enforce given ≡ if is_some result then 1 else 0 }
{
    match given {
        None => None,
        Some(Given::Enforced(said)) => Some(said),
        Some(Given::Cuts(cuts)) => {
            drop(cuts);
            None
        }
        Some(Given::Reductions(sides)) => {
            drop(sides);
            None
        }
        Some(Given::Priced(priced)) => {
            drop(priced);
            None
        }
        Some(Given::Guesses(points)) => {
            drop(points);
            None
        }
        Some(Given::Split(_)) => None,
        Some(Given::Wishes(wishes)) => {
            drop(wishes);
            None
        }
    }
}

/// Judges a combination by which a node is to be empty, a split, which is not made here, and a word, which changes
/// nothing: what is written down of it, and what it comes to.
fn judge_word(
    core: &Core<'_>,
    node: &Node,
    said: &Enforced,
    scratch: &mut Scratch,
) -> (Judged, Verdict)
    requires at_work { IsAtWork core.now node.now }
    requires room { length scratch.old.row.entries ≡ columns (reduced_of core.now) }
    ensures verdict { IsVerdict core.now core.now node.now node.now result.1 }
    ensures scratch { length scratch.new.row.entries ≡ length scratch.old.row.entries }
{
    match said {
        Enforced::Cutoff(combo) => match judge_cutoff(core, node, combo, scratch) {
            Judged::Emptied => (Judged::Emptied, Verdict::Emptied),
            came => (came, Verdict::Quiet),
        },
        Enforced::Branched(split) => match split_refusal(core, node, *split) {
            None => (Judged::Accepted, Verdict::Place(*split)),
            Some(fault) => (Judged::Refused(fault), Verdict::Quiet),
        },
        _ => (Judged::Accepted, Verdict::Quiet),
    }
}

/// Judges a side that became stronger. `Err` comes where memory was refused.
fn take_reduced<R: Asks>(
    plugins: &mut Plugins<R>,
    core: &mut Core<'_>,
    node: &mut Node,
    id: u32,
    told: &Reduction,
) -> Result<Verdict, AllocError>
    requires ready { IsReady core.old node.old plugins.old.scratches }
    requires sound { IsSound (R.state plugins.old.roster) (R.room plugins.old.roster) }
    requires seat { IsSome (slice_get (R.state plugins.old.roster).seats id) }
    ensures gone { HasGone core.old node.old (R.state plugins.old.roster) core.new node.new plugins.new.scratches
        (R.state plugins.new.roster) (R.room plugins.new.roster) }
    ensures judged { OnOk result (HasJudged id 1 plugins.old.judged.items plugins.new.judged.items) }
    ensures verdict { IfOk result (IsVerdict core.old core.new node.old node.new) }
{
    match plugins.take_side(core, node, id, told)? {
        Judged::Accepted => Ok(Verdict::Changed),
        Judged::Emptied => Ok(Verdict::Emptied),
        _ => Ok(Verdict::Quiet),
    }
}

/// Judges a row that the point breaks. `Err` comes where memory was refused.
fn take_separated<R: Asks>(
    plugins: &mut Plugins<R>,
    core: &mut Core<'_>,
    node: &mut Node,
    id: u32,
    cut: &Cut,
) -> Result<Verdict, AllocError>
    requires ready { IsReady core.old node.old plugins.old.scratches }
    requires sound { IsSound (R.state plugins.old.roster) (R.room plugins.old.roster) }
    requires seat { IsSome (slice_get (R.state plugins.old.roster).seats id) }
    ensures gone { HasGone core.old node.old (R.state plugins.old.roster) core.new node.new plugins.new.scratches
        (R.state plugins.new.roster) (R.room plugins.new.roster) }
    ensures judged { OnOk result (HasJudged id 1 plugins.old.judged.items plugins.new.judged.items) }
    ensures verdict { IfOk result (IsVerdict core.old core.new node.old node.new) }
{
    match plugins.take_cut(core, node, id, cut)? {
        Judged::Accepted => Ok(Verdict::Changed),
        _ => Ok(Verdict::Quiet),
    }
}

/// Judges what a handler says of a point that is neither a side nor a row, and writes down what became of it, which
/// changes nothing else. `Err` comes where memory was refused.
fn take_word<R: Asks>(
    plugins: &mut Plugins<R>,
    core: &Core<'_>,
    node: &Node,
    id: u32,
    said: &Enforced,
) -> Result<Verdict, AllocError>
    requires ready { IsReady core.now node.now plugins.old.scratches }
    requires sound { IsSound (R.state plugins.old.roster) (R.room plugins.old.roster) }
    requires seat { IsSome (slice_get (R.state plugins.old.roster).seats id) }
    ensures gone { HasGone core.now node.now (R.state plugins.old.roster) core.now node.now plugins.new.scratches
        (R.state plugins.new.roster) (R.room plugins.new.roster) }
    ensures judged { OnOk result (HasJudged id 1 plugins.old.judged.items plugins.new.judged.items) }
    ensures verdict { IfOk result (IsVerdict core.now core.now node.now node.now) }
{
    plugins.judged.reserve(1)?;
    let (came, verdict) = judge_word(core, node, said, &mut plugins.scratches.first);
    plugins.finish(id, &came, None)?;
    Ok(verdict)
}

/// Judges what a handler says of a point, each as its own call does. `Err` comes where memory was refused.
fn take_said<R: Asks>(
    plugins: &mut Plugins<R>,
    core: &mut Core<'_>,
    node: &mut Node,
    id: u32,
    said: &Enforced,
) -> Result<Verdict, AllocError>
    requires ready { IsReady core.old node.old plugins.old.scratches }
    requires sound { IsSound (R.state plugins.old.roster) (R.room plugins.old.roster) }
    requires seat { IsSome (slice_get (R.state plugins.old.roster).seats id) }
    ensures gone { HasGone core.old node.old (R.state plugins.old.roster) core.new node.new plugins.new.scratches
        (R.state plugins.new.roster) (R.room plugins.new.roster) }
    ensures judged { OnOk result (HasJudged id 1 plugins.old.judged.items plugins.new.judged.items) }
    ensures verdict { IfOk result (IsVerdict core.old core.new node.old node.new) }
{
    match said {
        Enforced::Reduced(told) => take_reduced(plugins, core, node, id, told),
        Enforced::Separated(cut) => take_separated(plugins, core, node, id, cut),
        _ => take_word(plugins, core, node, id, said),
    }
}

/// Judges what a handler says of a point, if it says something. `Err` comes where memory was refused.
pub(crate) fn take_verdict<R: Asks>(
    plugins: &mut Plugins<R>,
    core: &mut Core<'_>,
    node: &mut Node,
    id: u32,
    given: Option<Enforced>,
) -> Result<Verdict, AllocError>
    requires ready { IsReady core.old node.old plugins.old.scratches }
    requires sound { IsSound (R.state plugins.old.roster) (R.room plugins.old.roster) }
    requires seat { IsSome (slice_get (R.state plugins.old.roster).seats id) }
    ensures gone { HasGone core.old node.old (R.state plugins.old.roster) core.new node.new plugins.new.scratches
        (R.state plugins.new.roster) (R.room plugins.new.roster) }
    ensures judged { OnOk result (HasJudged id (if is_some given then 1 else 0) plugins.old.judged.items
        plugins.new.judged.items) }
    ensures verdict { IfOk result (IsVerdict core.old core.new node.old node.new) }
{
    match given {
        None => Ok(Verdict::Quiet),
        Some(said) => {
            let verdict = take_said(plugins, core, node, id, &said);
            drop(said);
            verdict
        }
    }
}
