//! What the sides of the columns say of a row's activity.
ghost use Rattle.std.specs.Prelude.{◌≡◌, length, IfSome};
ghost use Rattle.cip_rational.specs.Rational.{zeroℚ, negate};
ghost use Rattle.cip_problem.specs.Activity.{StandsBelow};
ghost use Rattle.cip_lin.specs.RowSums.{least_from};
ghost use Rattle.cip_lin.specs.declared.outcomes.Least.TheVariants.{Value};
ghost use Rattle.cip_presolve.specs.RowReading.{negated, Encloses, SaysRightly};

use cip_lin::{Bounds, Frac, Least, Row, Sides, Term, add_least, least};

/// What the sides of the columns say of a row.
#[derive(Clone, Copy)]
pub enum RowSays {
    /// Each point of the box satisfies it.
    HoldsAlways,
    /// No point of the box does.
    HoldsNever,
    /// Neither was found.
    Unclear,
}

/// A least value, where it is there and in range.
pub(crate) fn value_of(least: Least) -> Option<Frac>
    ensures { IfSome result (λ value. least ≡ Value value) }
{
    match least {
        Least::Value(value) => Some(value),
        _ => None,
    }
}

/// A least value with the other sign, where it is there and in range.
#[tactic(auto, using(crate::proofs::Enclosing::other_sign))]
pub(crate) fn negated_value(least: Least) -> Option<Frac>
    ensures { IfSome result (λ value. least ≡ Value (negate value)) }
{
    match least {
        Least::Value(value) => Some(value.neg()),
        _ => None,
    }
}

/// The least sum of terms with the other signs.
fn negated_least(terms: &[Term], bounds: &Bounds) -> Least
    requires { StandsBelow (length bounds.now) terms.now }
    ensures { result ≡ least_from zeroℚ (negated terms.now) bounds.now }
{
    let mut sum = Frac::zero();
    for term in terms {
        match add_least(sum, term.coef.neg(), bounds.sides(term.col)) {
            Least::Value(value) => sum = value,
            other => return other,
        }
    }
    Least::Value(sum)
}

/// Two sides between which the activity of a row lies in a box: the least and the greatest activity, where they are in
/// range.
pub fn extent(row: &Row, bounds: &Bounds) -> Sides
    requires { StandsBelow (length bounds.now) row.now.terms }
    ensures { Encloses bounds.now row.now.terms result }
{
    let low = value_of(least(row, bounds));
    let high = negated_value(negated_least(row.terms(), bounds));
    Sides { low, high }
}

/// Whether each point of a box satisfies a row, or none does, as far as the least and the greatest activity tell.
#[tactic(auto, using(crate::proofs::Enclosing::extents_say))]
pub fn row_says(row: &Row, bounds: &Bounds) -> RowSays
    requires { StandsBelow (length bounds.now) row.now.terms }
    ensures { SaysRightly bounds.now row.now result }
{
    let extent = extent(row, bounds);
    let sides = Sides {
        low: row.low(),
        high: row.high(),
    };
    if extent.is_inside(sides) {
        return RowSays::HoldsAlways;
    }
    let least_past = Sides {
        low: extent.low,
        high: sides.high,
    };
    let greatest_past = Sides {
        low: sides.low,
        high: extent.high,
    };
    if least_past.cross() || greatest_past.cross() {
        return RowSays::HoldsNever;
    }
    RowSays::Unclear
}
