//! Leaves of a program whose columns are all whole.
ghost use Rattle.std.specs.Prelude.{◌≡◌, true, All, IfOk, MatchBool};
ghost use Rattle.cip_search.specs.Leaf.{IsLeaf};
ghost use Rattle.cip_leaf.specs.LeafAnswers.{IsValuesAnswer};

use crate::answers::{LeafAnswer, Shown};
use crate::decided::Decided;
use cip_frac::Frac;
use cip_model::Verdict;
use std::alloc::{AllocError, Global};

/// Whether no column is continuous.
pub(crate) fn are_all_whole(whole: &[bool]) -> bool
    ensures { MatchBool result (All (λ whole. whole ≡ true) whole.now) (¬ All (λ whole. whole ≡ true) whole.now) }
{
    !whole.contains(&false)
}

/// What is known of a leaf where no column is continuous: what the test of its one point says. `Err` where memory was
/// refused.
pub(crate) fn tested(
    alloc: Global,
    program: &Decided,
    leaf: &[Frac],
) -> Result<LeafAnswer, AllocError>
    requires leaf { IsLeaf program.now leaf.now }
    requires whole { All (λ whole. whole ≡ true) program.now.integral }
    ensures { IfOk result (IsValuesAnswer program.now leaf.now) }
{
    let _whole = program.whole();
    match program.check_whole(leaf) {
        Verdict::Feasible(cost) => Ok(LeafAnswer::Best {
            point: leaf.to_vec(alloc)?,
            cost,
        }),
        Verdict::Wide { place } => Ok(LeafAnswer::Wide {
            shown: Shown::Place(place),
        }),
        _ => Ok(LeafAnswer::NoPoint),
    }
}
