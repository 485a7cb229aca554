//! The tests of a point of a linear program.
ghost use Rattle.std.specs.Prelude.{◌≡◌, true, length, All};
ghost use Rattle.cip_rational.specs.Rational.{zeroℚ};
ghost use Rattle.cip_frac.specs.Outcomes.{dot_from};
ghost use Rattle.cip_lin.specs.RowSums.{activity_from};
ghost use Rattle.cip_problem.specs.Activity.{StandsBelow};
ghost use Rattle.cip_problem.specs.LinearProgram.{IsPoint};
ghost use Rattle.cip_basis.specs.PointTests.{keeps_box, keeps_rows, is_within};
ghost use Rattle.cip_basis.specs.Shown.{IsReady, program_of, lent_rows};

use crate::problem::Problem;
use cip_frac::{Frac, Wide};
use cip_lin::{Row, Sides};

/// Whether each value lies between the sides of its column.
fn keeps_box(sides: &[Sides], point: &[Frac]) -> bool
    requires { length sides.now ≡ length point.now }
    ensures { result ≡ keeps_box sides.now point.now }
{
    for at in 0..point.len() {
        if !sides[at].contains(point[at]) {
            return false;
        }
    }
    true
}

/// Whether a row's activity is in range and lies between its sides.
fn keeps_row(row: &Row, point: &[Frac]) -> bool
    requires { StandsBelow (length point.now) row.now.terms }
    ensures { result ≡ is_within row.now (activity_from zeroℚ row.now.terms point.now) }
{
    let Ok(value) = row.activity(point) else {
        return false;
    };
    let sides = Sides {
        low: row.low(),
        high: row.high(),
    };
    sides.contains(value)
}

/// Whether that is so of all rows.
fn keeps_rows(rows: &[Row], point: &[Frac]) -> bool
    requires { All (λ row. StandsBelow (length point.now) row.terms) rows.now }
    ensures { result ≡ keeps_rows rows.now point.now }
{
    for at in 0..rows.len() {
        if !keeps_row(&rows[at], point) {
            return false;
        }
    }
    true
}

/// Whether it is so of rows that are lent.
fn keeps_others(rows: &[&Row], point: &[Frac]) -> bool
    requires { All (λ row. StandsBelow (length point.now) row.terms) (lent_rows rows.now) }
    ensures { result ≡ keeps_rows (lent_rows rows.now) point.now }
{
    for at in 0..rows.len() {
        if !keeps_row(rows[at], point) {
            return false;
        }
    }
    true
}

/// Whether a list of values is a point of a linear program, and no sum that says so is out of range.
pub(crate) fn is_point(problem: &Problem<'_>, point: &[Frac]) -> bool
    requires ready { IsReady problem.now }
    requires long { length point.now ≡ length problem.now.bounds.now }
    ensures { result ≡ true → IsPoint (program_of problem.entry.now) point.now }
{
    if !keeps_box(problem.bounds.as_slice(), point) {
        return false;
    }
    if !keeps_rows(problem.own, point) {
        return false;
    }
    keeps_others(problem.others, point)
}

/// The cost of a point, by rising column, or the first operation that overflows.
pub(crate) fn cost_at(costs: &[Frac], point: &[Frac]) -> Result<Frac, Wide>
    requires { length costs.now ≡ length point.now }
    ensures { result ≡ dot_from zeroℚ costs.now point.now }
{
    let mut sum = Frac::zero();
    for at in 0..costs.len() {
        if !sum.add_product(&costs[at], &point[at]) {
            return sum.plus_product(costs[at], point[at]);
        }
    }
    Ok(sum)
}
