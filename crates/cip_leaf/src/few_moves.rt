//! What few moves show of a leaf.
ghost use Rattle.std.specs.Prelude.{◌≡◌, IfOk, IfSome};
ghost use Rattle.cip_problem.specs.LinearProgram.{IsPoint};
ghost use Rattle.cip_problem.specs.WellFormed.{IsWellFormed};
ghost use Rattle.cip_simplex.specs.Reached.{Holds};
ghost use Rattle.cip_search.specs.Leaf.{IsLeaf};
ghost use Rattle.cip_search.specs.LeafProgram.{program_of_leaf};
ghost use Rattle.cip_leaf.specs.LeafAnswers.{IsValuesAnswer, IsOptimalThere};

use crate::answers::LeafAnswer;
use crate::decided::Decided;
use crate::lists::merged;
use cip_frac::Frac;
use cip_model::Verdict;
use cip_simplex::{Lp, LpAnswer, Solver, Start, solve_greedily};
use std::alloc::{AllocError, Global};

// The most moves of a rule that makes few.
const FEW_MOVES: u32 = 2_000;

/// The answer where these values are optimal in the leaf's program; none where a sum of the test of the point is out of
/// range. `Err` where memory was refused.
pub(crate) fn best_of(
    alloc: Global,
    program: &Decided,
    leaf: &[Frac],
    others: &[Frac],
) -> Result<Option<LeafAnswer>, AllocError>
    requires leaf { IsLeaf program.now leaf.now }
    requires optimal { IsOptimalThere program.now leaf.now others.now }
    ensures { IfOk result (λ found. IfSome found (IsValuesAnswer program.now leaf.now)) }
{
    let point = merged(alloc, program.whole(), leaf, others)?;
    match program.check(point.as_slice()) {
        Verdict::Feasible(cost) => Ok(Some(LeafAnswer::Best { point, cost })),
        _ => Ok(None),
    }
}

/// The answer where these values are a point of the leaf's program and the cost may fall in this direction; none where
/// the test of the ray refuses it. `Err` where memory was refused.
fn ray_of(
    alloc: Global,
    program: &Decided,
    leaf: &[Frac],
    others: &[Frac],
    direction: &[Frac],
) -> Result<Option<LeafAnswer>, AllocError>
    requires leaf { IsLeaf program.now leaf.now }
    requires point { IsPoint (program_of_leaf program.now leaf.now) others.now }
    ensures { IfOk result (λ found. IfSome found (IsValuesAnswer program.now leaf.now)) }
{
    let point = merged(alloc, program.whole(), leaf, others)?;
    let ray = merged(alloc, program.whole(), &[], direction)?;
    if program.check_ray(point.as_slice(), ray.as_slice()) {
        return Ok(Some(LeafAnswer::Unbounded { point, ray }));
    }
    Ok(None)
}

/// What a rule that makes few moves answers on a leaf's program; none where it has no answer. `Err` where memory was
/// refused.
fn asked_greedily(
    alloc: Global,
    solver: &mut Solver,
    lp: &Lp,
) -> Result<Option<LpAnswer>, AllocError>
    ensures { IfOk result (λ found. IfSome found (Holds lp.now)) }
{
    let start = Start::slack(alloc, lp)?;
    let solved = solve_greedily(alloc, solver, lp, &start, FEW_MOVES);
    drop(start);
    match solved {
        Ok((found, last)) => {
            drop(last);
            Ok(found)
        }
        Err(error) => Err(error),
    }
}

/// What an answer on its program shows of a leaf; none where it shows nothing, or a test of what it shows is out of
/// range. `Err` where memory was refused.
fn shown_by(
    alloc: Global,
    program: &Decided,
    leaf: &[Frac],
    found: LpAnswer,
) -> Result<Option<LeafAnswer>, AllocError>
    requires leaf { IsLeaf program.now leaf.now }
    requires formed { IsWellFormed program.now }
    requires found { Holds (program_of_leaf program.now leaf.now) found }
    ensures { IfOk result (λ found. IfSome found (IsValuesAnswer program.now leaf.now)) }
{
    match found {
        LpAnswer::Optimal { point, combo, .. } => {
            drop(combo);
            best_of(alloc, program, leaf, point.as_slice())
        }
        LpAnswer::Infeasible { combo } => {
            drop(combo);
            Ok(Some(LeafAnswer::NoPoint))
        }
        LpAnswer::Unbounded { point, ray } => {
            ray_of(alloc, program, leaf, point.as_slice(), ray.as_slice())
        }
        LpAnswer::Wide { moves } => {
            drop(moves);
            Ok(None)
        }
        LpAnswer::Limit => Ok(None),
    }
}

/// What a rule that makes few moves shows of a leaf with this program; none where it shows nothing, or a test of what
/// it shows is out of range. `Err` where memory was refused.
pub(crate) fn shown_by_few(
    alloc: Global,
    solver: &mut Solver,
    program: &Decided,
    leaf: &[Frac],
    lp: &Lp,
) -> Result<Option<LeafAnswer>, AllocError>
    requires leaf { IsLeaf program.now leaf.now }
    requires formed { IsWellFormed program.now }
    requires linear { lp.now ≡ program_of_leaf program.now leaf.now }
    ensures { IfOk result (λ found. IfSome found (IsValuesAnswer program.now leaf.now)) }
{
    let Some(found) = asked_greedily(alloc, solver, lp)? else {
        return Ok(None);
    };
    shown_by(alloc, program, leaf, found)
}
