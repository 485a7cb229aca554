//! Splits that are proposed.
ghost use Rattle.std.specs.Prelude.{◌≡◌, ◌<◌, ◌^◌, MatchOption, MatchResult};
ghost use Rattle.cip_problem.specs.Wholes.{AllHaveWholes};
ghost use Rattle.cip_tree.specs.Nodes.{box_of};
ghost use Rattle.cip_core.specs.CoreStates.{reduced_of, IsAtWork, IsGivenBound};
ghost use Rattle.cip_core.specs.Steps.{IsBack};
ghost use Rattle.cip_calls.specs.SplitsJudged.{IsPlace, IsSplitRefused, IsSplitJudged};

use crate::judged::{JudgeFault, NodeFault};
use cip_core::Core;
use cip_domain::can_halve;
use cip_frac::Frac;
use cip_plugin::Split;
use cip_tree::{Node, SplitFault};
use std::alloc::AllocError;

/// What a split of a node came to.
#[derive(Drop)]
pub enum Parted {
    /// The node has ended, and its halves have these numbers.
    Halves(u64, u64),
    /// The split was refused, and the node is in work as it was.
    Whole(Node, JudgeFault),
}

/// Why a node in work can't be split at a place. `None` comes exactly where the column is one of the reduced program's,
/// the number has a size of at most 2^100, and the column is whole and plain with a whole value on both sides of the
/// number, or isn't whole and its choice is open; else the first of these that fails. Nothing changes.
pub fn split_refusal(core: &Core<'_>, node: &Node, split: Split) -> Option<JudgeFault>
    requires at_work { IsAtWork core.now node.now }
    ensures { MatchOption result (IsPlace core.now split.col split.at)
        (IsSplitRefused core.now split.col split.at) }
{
    let _ = node;
    core.is_sound();
    if split.col as usize >= core.reduced().columns() {
        return Some(JudgeFault::Node(NodeFault::NoSuchColumn));
    }
    if split.at.unsigned_abs() > 1 << 100 {
        return Some(JudgeFault::Node(NodeFault::TooFar));
    }
    let whole = core.reduced().whole()[split.col as usize];
    let choice = core.choices().at(split.col);
    if whole {
        if !choice.is_plain() {
            return Some(JudgeFault::Split(SplitFault::NotWhole));
        }
        if can_halve(core.bounds().sides(split.col), split.at) {
            return None;
        }
        return Some(JudgeFault::Split(SplitFault::Outside));
    }
    if choice.is_open() {
        None
    } else {
        Some(JudgeFault::Split(SplitFault::NotWhole))
    }
}

/// Judges a split of a node in work, each of whose whole columns has a whole value. It is made exactly where the column
/// is one of the reduced program's, the number has a size of at most 2^100, and the column is whole and plain with a
/// whole value on both sides of the number, or isn't whole and its choice is open: the node has ended then, and its
/// halves are open, unless they don't matter. Else `Whole` comes with the first of these that fails, and nothing has
/// changed. `Err` comes where memory was refused; the node is open again then, with the bound that the log gave it.
pub fn judge_split(
    core: &mut Core<'_>,
    node: Node,
    given: Option<Frac>,
    split: Split,
) -> Result<Parted, AllocError>
    requires at_work { IsAtWork core.old node × (core.old.tree.ids < 2 ^ 63) }
    requires given { IsGivenBound core.old node.number given }
    requires wholes { AllHaveWholes (reduced_of core.old).integral (box_of core.old.tree node) }
    ensures judged { MatchResult result (IsSplitJudged core.old core.new node split.col split.at)
        (λ _. IsBack core.old core.new node.number given) }
    ensures frame { core.new ≡ record core.old { tree = core.new.tree } }
{
    core.is_sound();
    if let Some(fault) = split_refusal(core, &node, split) {
        return Ok(Parted::Whole(node, fault));
    }
    let (low, high) = core.split(node, given, split.col, split.at)?;
    Ok(Parted::Halves(low, high))
}
