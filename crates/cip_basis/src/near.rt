//! A point of a linear program whose optimum isn't shown.
ghost use Rattle.std.specs.Prelude.{◌≡◌, length, IfOk, IfSome};
ghost use Rattle.cip_rational.specs.Sums.{dot};
ghost use Rattle.cip_problem.specs.LinearProgram.{IsPoint};
ghost use Rattle.cip_basis.specs.Shown.{IsReady, program_of};

use crate::basis::Basis;
use crate::mended_points::mended_point;
use crate::problem::Problem;
use crate::tests::{cost_at, is_point};
use crate::{Length, Outcome};
use cip_frac::Frac;
use std::alloc::{AllocError, Global};

/// What a point costs; none where a product or a sum is out of range.
pub fn point_cost(costs: &[Frac], point: &[Frac]) -> Option<Frac>
    requires { length costs.now ≡ length point.now }
    ensures { IfSome result (λ cost. dot costs.now point.now ≡ cost) }
{
    match cost_at(costs, point) {
        Ok(cost) => Some(cost),
        Err(_) => None,
    }
}

/// The values, where they are a point of the linear program and no sum that says so is out of range.
pub(crate) fn tested(problem: &Problem<'_>, values: Option<Vec<Frac>>) -> Option<Vec<Frac>>
    requires ready { IsReady problem.now }
    ensures long { IfSome result (λ point. length point.items ≡ length problem.entry.now.bounds.now) }
    ensures point { IfSome result (λ point. IsPoint (program_of problem.entry.now) point.items) }
{
    let point = values?;
    if point.len() == problem.bounds.len() && is_point(problem, point.as_slice()) {
        Some(point)
    } else {
        None
    }
}

/// The point of the basis that was guessed last for a linear program, where that is said to be optimal and the point is
/// one of the program, with values in the range. Nothing is said of its cost, which may be out of range. `Err` where
/// memory was refused.
pub fn basis_point(
    alloc: Global,
    basis: &mut Basis,
    problem: &Problem<'_>,
) -> Result<Option<Vec<Frac>>, AllocError>
    requires ready { IsReady problem.now }
    ensures point { IfOk result (λ found. IfSome found
        (λ point. IsPoint (program_of problem.entry.now) point.items)) }
{
    if !basis.is_made || basis.outcome != Some(Outcome::Optimal) {
        return Ok(None);
    }
    let values = basis.point(alloc, &problem.given(), Length::Long)?;
    Ok(tested(problem, values))
}

/// A point of a linear program near that of the basis that was guessed last for it, where that is said to be optimal:
/// its values rounded to multiples of 2^-20, and changed where a row didn't hold. Nothing is said of its cost. None
/// where there is no such point. `Err` where memory was refused.
pub fn rounded_point(
    alloc: Global,
    basis: &Basis,
    problem: &Problem<'_>,
) -> Result<Option<Vec<Frac>>, AllocError>
    requires ready { IsReady problem.now }
    ensures point { IfOk result (λ found. IfSome found
        (λ point. IsPoint (program_of problem.entry.now) point.items)) }
{
    if basis.outcome != Some(Outcome::Optimal) {
        return Ok(None);
    }
    let values = mended_point(alloc, &basis.guess, &problem.given())?;
    Ok(tested(problem, values))
}
