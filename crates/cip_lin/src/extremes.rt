//! The least activity of a row in a box.
ghost use Rattle.std.specs.Prelude.{◌≡◌, length};
ghost use Rattle.cip_frac.specs.Rational.{zeroℚ};
ghost use Rattle.cip_problem.specs.Activity.{StandsBelow};
ghost use Rattle.cip_lin.specs.RowSums.{least_side, least_added, least_from};

use crate::boxes::{Bounds, Sides};
use crate::outcomes::Least;
use crate::rows::{Row, Term};
use cip_frac::Frac;

/// The side at which a product with this coefficient is least.
#[inline]
fn side_of_least(coef: Frac, sides: Sides) -> Option<Frac>
    ensures { result ≡ least_side coef sides }
{
    if coef.is_negative() {
        sides.high
    } else {
        sides.low
    }
}

/// A sum with the least product of a coefficient and a value between two sides added: `NoBound`
/// exactly where the side at which it is least is open, `Wide` where it is there and the product or
/// the sum overflows.
#[inline]
pub fn add_least(sum: Frac, coef: Frac, sides: Sides) -> Least
    ensures { result ≡ least_added sum coef sides }
{
    let Some(side) = side_of_least(coef, sides) else {
        return Least::NoBound;
    };
    let mut total = sum;
    if total.add_product(&coef, &side) {
        Least::Value(total)
    } else {
        Least::Wide
    }
}

/// The least activity of a row in a box: the exact sum by rising column, or `NoBound` or `Wide`,
/// whichever the first column that has no least product answers. The box has each column of the row.
pub fn least(row: &Row, bounds: &Bounds) -> Least
    requires { StandsBelow (length bounds.now) row.now.terms }
    ensures { result ≡ least_from zeroℚ row.now.terms bounds.now }
{
    least_sum(row.terms(), bounds)
}

/// The sum of the terms' least products in a box, in their order.
fn least_sum(terms: &[Term], bounds: &Bounds) -> Least
    requires { StandsBelow (length bounds.now) terms.now }
    ensures { result ≡ least_from zeroℚ terms.now bounds.now }
{
    let mut sum = Frac::zero();
    for term in terms {
        match add_least(sum, term.coef, bounds.sides(term.col)) {
            Least::Value(value) => sum = value,
            other => return other,
        }
    }
    Least::Value(sum)
}
