//! One call for a proposal of any kind.
ghost use Rattle.std.specs.Prelude.{◌≡◌, ◌<◌, ◌^◌, None, IfOk, OnErr, MatchResult};
ghost use Rattle.cip_problem.specs.WellFormed.{columns};
ghost use Rattle.cip_problem.specs.Wholes.{AllHaveWholes};
ghost use Rattle.cip_tree.specs.Nodes.{box_of};
ghost use Rattle.cip_core.specs.CoreStates.{reduced_of, IsAtWork, IsGivenBound};
ghost use Rattle.cip_core.specs.Later.{IsLaterAt};
ghost use Rattle.cip_core.specs.Steps.{IsBack};
ghost use Rattle.cip_calls.specs.ProposalsJudged.{HaveRoom, GoesOn, IsSaid, IsJudged, IsRuled, split_said as said_split, split_in};

use crate::cutoffs::judge_cutoff;
use crate::cuts::judge_cut;
use crate::guesses::judge_guess;
use crate::judged::Judged;
use crate::reductions::judge_reduction;
use crate::scratches::Scratches;
use crate::splits::{Parted, judge_split};
use cip_core::Core;
use cip_frac::Frac;
use cip_plugin::{Enforced, Proposal, Split};
use cip_tree::Node;
use std::alloc::{AllocError, Global};

/// What a proposal came to, and what is left of the node in work.
#[derive(Drop)]
pub enum Ruled {
    /// The node is in work still.
    Kept(Node, Judged),
    /// The split was accepted: the node has ended, and its halves have these numbers.
    Halves(u64, u64),
}

/// The split that is proposed, if it is one.
fn split_proposed(proposal: &Proposal) -> Option<Split>
    ensures { result ≡ split_in proposal.now }
{
    match proposal {
        Proposal::Split(split) => Some(*split),
        Proposal::Enforcement(Enforced::Branched(split)) => Some(*split),
        _ => None,
    }
}

/// Judges what a handler says of a point, unless it is a split. `Feasible` and `Infeasible` are accepted, and change
/// nothing.
fn judge_said(
    core: &mut Core<'_>,
    node: &mut Node,
    said: &Enforced,
    scratches: &mut Scratches,
) -> Result<Judged, AllocError>
    requires at_work { IsAtWork core.old node.old }
    requires room { HaveRoom scratches.old (columns (reduced_of core.old)) }
    requires no_split { said_split said.now ≡ None }
    ensures judged { IfOk result (IsSaid core.old core.new node.old node.new said.now) }
    ensures goes_on { IfOk result (GoesOn core.old core.new node.old node.new) }
    ensures err { OnErr result ((core.new ≡ record core.old { touched = core.new.touched }) × (node.new ≡ node.old)) }
    ensures later { IsLaterAt core.old node.old core.new node.new }
    ensures scratches { HaveRoom scratches.new (columns (reduced_of core.old)) }
{
    match said {
        Enforced::Cutoff(combo) => Ok(judge_cutoff(core, node, combo, &mut scratches.first)),
        Enforced::Reduced(told) => judge_reduction(core, node, told, &mut scratches.first),
        Enforced::Separated(cut) => judge_cut(core, node, cut, scratches),
        Enforced::Branched(_) => unreachable!(),
        Enforced::Infeasible => Ok(Judged::Accepted),
        Enforced::Feasible => Ok(Judged::Accepted),
    }
}

/// Judges a proposal of any kind but a split, while a node is in work, each as its own call does; the node stays in
/// work. `Feasible` and `Infeasible` are accepted, and change nothing. `Err` comes where memory was refused: all is as
/// it was, but that a row may count as asked for.
pub fn judge_in_work(
    alloc: Global,
    core: &mut Core<'_>,
    node: &mut Node,
    proposal: &Proposal,
    scratches: &mut Scratches,
) -> Result<Judged, AllocError>
    requires at_work { IsAtWork core.old node.old }
    requires room { HaveRoom scratches.old (columns (reduced_of core.old)) }
    requires no_split { split_in proposal.now ≡ None }
    ensures judged { IfOk result (IsJudged core.old core.new node.old node.new proposal.now) }
    ensures goes_on { IfOk result (GoesOn core.old core.new node.old node.new) }
    ensures err { OnErr result ((core.new ≡ record core.old { touched = core.new.touched }) × (node.new ≡ node.old)) }
    ensures later { IsLaterAt core.old node.old core.new node.new }
    ensures scratches { HaveRoom scratches.new (columns (reduced_of core.old)) }
{
    match proposal {
        Proposal::Cut(cut) => judge_cut(core, node, cut, scratches),
        Proposal::Reduction(told) => judge_reduction(core, node, told, &mut scratches.first),
        Proposal::Guess(guess) => judge_guess(alloc, core, node, guess),
        Proposal::Split(_) => unreachable!(),
        Proposal::Enforcement(said) => judge_said(core, node, said, scratches),
    }
}

/// Judges a proposal of any kind, while a node is in work, each of whose whole columns has a whole value. A split that
/// is accepted ends the node; after every other answer it is in work still, and is given back. Nothing changes but at
/// `Accepted`. `Err` comes where memory was refused: the node is open again then, with the bound that the log gave it.
pub fn judge(
    alloc: Global,
    core: &mut Core<'_>,
    node: Node,
    given: Option<Frac>,
    proposal: &Proposal,
    scratches: &mut Scratches,
) -> Result<Ruled, AllocError>
    requires at_work { IsAtWork core.old node × (core.old.tree.ids < 2 ^ 63) }
    requires given { IsGivenBound core.old node.number given }
    requires wholes { AllHaveWholes (reduced_of core.old).integral (box_of core.old.tree node) }
    requires room { HaveRoom scratches.old (columns (reduced_of core.old)) }
    ensures ruled { MatchResult result (IsRuled core.old core.new node proposal.now)
        (λ _. IsBack core.old core.new node.number given) }
    ensures scratches { HaveRoom scratches.new (columns (reduced_of core.old)) }
{
    let mut node = node;
    if let Some(split) = split_proposed(proposal) {
        return match judge_split(core, node, given, split)? {
            Parted::Halves(low, high) => Ok(Ruled::Halves(low, high)),
            Parted::Whole(node, fault) => Ok(Ruled::Kept(node, Judged::Refused(fault))),
        };
    }
    match judge_in_work(alloc, core, &mut node, proposal, scratches) {
        Ok(judged) => Ok(Ruled::Kept(node, judged)),
        Err(error) => {
            core.go_back(node, given);
            Err(error)
        }
    }
}
