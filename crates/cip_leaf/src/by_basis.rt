//! What a basis that is guessed shows of a leaf.
ghost use Rattle.std.specs.Prelude.{IfOk, IfSome};
ghost use Rattle.cip_problem.specs.WellFormed.{IsWellFormed};
ghost use Rattle.cip_simplex.specs.LpShape.{IsSolvable};
ghost use Rattle.cip_basis.specs.Shown.{IsShown};
ghost use Rattle.cip_search.specs.Leaf.{IsLeaf};
ghost use Rattle.cip_leaf.specs.LeafAnswers.{IsValuesAnswer};
ghost use Rattle.cip_leaf.specs.Parts.{IsProgramOf};

use crate::answers::LeafAnswer;
use crate::decided::Decided;
use crate::few_moves::best_of;
use crate::leaves::Parts;
use cip_basis::{Basis, Problem, Scratch, Shown, show};
use cip_frac::Frac;
use cip_model::MOST_COLUMNS;
use std::alloc::{AllocError, Global};

/// What a basis that is guessed shows of a leaf's program, if anything. `Err` where memory was refused.
fn shown_of(alloc: Global, parts: &Parts) -> Result<Option<Shown>, AllocError>
    requires { IsSolvable (record {
      rows = parts.now.rows.items;
      bounds = parts.now.bounds;
      costs = parts.now.costs.items;
    }) }
    ensures { IfOk result (λ found. IfSome found (IsShown (record {
      rows = parts.now.rows.items;
      bounds = parts.now.bounds;
      costs = parts.now.costs.items;
    }))) }
{
    let columns = parts.bounds.len();
    if columns > MOST_COLUMNS {
        return Ok(None);
    }
    let mut scratch = Scratch::new(alloc, columns)?;
    let mut basis = Basis::new(alloc);
    let rows = parts.rows.as_slice();
    let costs = parts.costs.as_slice();
    let problem = Problem::of_rows(rows, &parts.bounds, costs);
    let found = show(alloc, &mut basis, &problem, &mut scratch);
    drop(basis);
    drop(scratch);
    found
}

/// What a basis that is guessed shows of a leaf with this program: a point of least cost, or that there is none; none
/// where it shows nothing, or a sum of the test of the point is out of range. `Err` where memory was refused.
pub(crate) fn shown_by_basis(
    alloc: Global,
    program: &Decided,
    leaf: &[Frac],
    parts: &Parts,
) -> Result<Option<LeafAnswer>, AllocError>
    requires leaf { IsLeaf program.now leaf.now }
    requires formed { IsWellFormed program.now }
    requires parts { IsProgramOf program.now leaf.now parts.now }
    ensures { IfOk result (λ found. IfSome found (IsValuesAnswer program.now leaf.now)) }
{
    match shown_of(alloc, parts)? {
        Some(Shown::Optimal { point, combo, .. }) => {
            drop(combo);
            best_of(alloc, program, leaf, point.as_slice())
        }
        Some(Shown::Empty) => Ok(Some(LeafAnswer::NoPoint)),
        None => Ok(None),
    }
}
