//! The tests that a verdict is made of, each over lists by column or by row.
ghost use Rattle.std.specs.Prelude.{◌≡◌, ◌≤◌, length, All};
ghost use Rattle.cip_problem.specs.Activity.{StandsBelow};
ghost use Rattle.cip_model.specs.Verdicts.{first_outside, first_not_whole, first_broken};
ghost use Rattle.cip_frac.specs.Outcomes.{dot_from};
ghost use Rattle.cip_problem.specs.Limits.{most_rows, most_columns};

use crate::verdicts::{Place, Verdict};
use cip_frac::{Frac, Wide};
use cip_lin::{Choices, Row, Sides};

/// The first column whose value is outside its sides, or isn't allowed by its choice.
pub(crate) fn outside(bounds: &[Sides], choices: &Choices, point: &[Frac]) -> Option<u32>
    requires same { length bounds.now ≡ length point.now }
    requires few { length point.now ≤ most_columns }
    ensures { result ≡ first_outside 0 bounds.now choices.now point.now }
{
    for at in 0..point.len() {
        let value = point[at];
        if !bounds[at].contains(value) || !choices.allows(at as u32, value) {
            return Some(at as u32);
        }
    }
    None
}

/// The first whole column whose value is not whole.
pub(crate) fn not_whole(whole: &[bool], point: &[Frac]) -> Option<u32>
    requires same { length whole.now ≡ length point.now }
    requires few { length point.now ≤ most_columns }
    ensures { result ≡ first_not_whole 0 whole.now point.now }
{
    for at in 0..point.len() {
        let (wants_whole, value) = (whole[at], point[at]);
        if wants_whole && !value.is_whole() {
            return Some(at as u32);
        }
    }
    None
}

/// The first verdict on a row: its activity overflows, or is outside its sides.
pub(crate) fn broken_row(rows: &[Row], point: &[Frac]) -> Option<Verdict>
    requires few { length rows.now ≤ most_rows }
    requires stand { All (λ row. StandsBelow (length point.now) row.terms) rows.now }
    ensures { result ≡ first_broken 0 rows.now point.now }
{
    for at in 0..rows.len() {
        let (number, row) = (at as u32, &rows[at]);
        let Ok(value) = row.activity(point) else {
            return Some(Verdict::Wide {
                place: Place::Row(number),
            });
        };
        let sides = Sides {
            low: row.low(),
            high: row.high(),
        };
        if !sides.contains(value) {
            return Some(Verdict::BreaksRow { row: number, value });
        }
    }
    None
}

/// The cost of a point from a constant on, by rising column, or the first operation that overflows.
pub(crate) fn cost(constant: Frac, costs: &[Frac], point: &[Frac]) -> Result<Frac, Wide>
    requires { length costs.now ≡ length point.now }
    ensures { result ≡ dot_from constant costs.now point.now }
{
    let mut sum = constant;
    for at in 0..costs.len() {
        if !sum.add_product(&costs[at], &point[at]) {
            return sum.plus_product(costs[at], point[at]);
        }
    }
    Ok(sum)
}
