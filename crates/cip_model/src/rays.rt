//! The test of a ray beside a point.
ghost use Rattle.std.specs.Prelude.{◌≡◌, ◌↔◌, length, All, IsTrue};
ghost use Rattle.cip_rational.specs.Rational.{zeroℚ, le_test};
ghost use Rattle.cip_problem.specs.Activity.{StandsBelow};
ghost use Rattle.cip_problem.specs.WellFormed.{columns};
ghost use Rattle.cip_frac.specs.Outcomes.{dot_from};
ghost use Rattle.cip_model.specs.RayTests.{stays, all_stay, all_still, rows_stay, cost_falls};
ghost use Rattle.cip_problem.specs.Falling.{FallsWithoutEnd};
ghost use Rattle.cip_model.specs.Rays.{IsShownRay, ShownRaysFall};

use crate::checks::cost;
use crate::programs::Program;
use crate::verdicts::Verdict;
use cip_frac::Frac;
use cip_lin::{Row, Sides};

/// Whether one number is at most another.
fn is_at_most(a: Frac, b: Frac) -> bool
    ensures { result ≡ le_test a b }
{
    a <= b
}

/// Whether a value between these sides may change by so much, however often.
fn may_change(low: Option<Frac>, high: Option<Frac>, change: Frac) -> bool
    ensures { result ≡ stays low high change }
{
    if low.is_some() && !is_at_most(Frac::zero(), change) {
        return false;
    }
    high.is_none() || is_at_most(change, Frac::zero())
}

/// Whether each column may change so.
fn keeps_bounds(bounds: &[Sides], ray: &[Frac]) -> bool
    requires { length bounds.now ≡ length ray.now }
    ensures { result ≡ all_stay bounds.now ray.now }
{
    for at in 0..ray.len() {
        let sides = bounds[at];
        if !may_change(sides.low, sides.high, ray[at]) {
            return false;
        }
    }
    true
}

/// Whether no whole column changes.
fn keeps_wholes(whole: &[bool], ray: &[Frac]) -> bool
    requires { length whole.now ≡ length ray.now }
    ensures { result ≡ all_still whole.now ray.now }
{
    for at in 0..ray.len() {
        let (wants_whole, change) = (whole[at], ray[at]);
        if wants_whole && change != Frac::zero() {
            return false;
        }
    }
    true
}

/// Whether each row may change so; `false` too where the sum of one overflows.
fn keeps_rows(rows: &[Row], ray: &[Frac]) -> bool
    requires { All (λ row. StandsBelow (length ray.now) row.terms) rows.now }
    ensures { result ≡ rows_stay rows.now ray.now }
{
    for at in 0..rows.len() {
        let row = &rows[at];
        let Ok(change) = row.activity(ray) else {
            return false;
        };
        if !may_change(row.low(), row.high(), change) {
            return false;
        }
    }
    true
}

/// Whether the cost falls; `false` too where its sum overflows.
fn lowers_cost(costs: &[Frac], ray: &[Frac]) -> bool
    requires { length costs.now ≡ length ray.now }
    ensures { result ≡ cost_falls (dot_from zeroℚ costs.now ray.now) }
{
    match cost(Frac::zero(), costs, ray) {
        Ok(change) => change < Frac::zero(),
        Err(_) => false,
    }
}

/// Where a ray is shown beside a point, the point may be left for feasible points along it without end, and the cost
/// falls.
pub fn shown_rays_fall()
    ensures { ShownRaysFall }
{}

impl Program {
    /// Whether a ray is shown beside a point, each with a value for each column: `check` says `Feasible` of the point,
    /// and the ray is 0 on whole columns, at least 0 on columns and rows with a low side and at most 0 on those with a
    /// high side, and has a cost below 0; the sums of rows and of the cost go from 0 by rising column. So it is 0 on
    /// semi-continuous columns, which have both sides. `false` too where one of these sums overflows. Where a ray is
    /// shown, the point may be left for feasible points along it without end, and the cost falls.
    pub fn check_ray(&self, point: &[Frac], ray: &[Frac]) -> bool
        requires point { length point.now ≡ columns self.now }
        requires ray { length ray.now ≡ columns self.now }
        ensures shown { IsTrue result ↔ IsShownRay self.now point.now ray.now }
        ensures falls { IsTrue result → FallsWithoutEnd self.now point.now ray.now }
    {
        let _columns = self.columns();
        let Verdict::Feasible(_) = self.check(point) else {
            return false;
        };
        if !keeps_bounds(self.bounds().as_slice(), ray) {
            return false;
        }
        if !keeps_wholes(self.whole(), ray) {
            return false;
        }
        if !keeps_rows(self.rows(), ray) {
            return false;
        }
        lowers_cost(self.costs(), ray)
    }
}
