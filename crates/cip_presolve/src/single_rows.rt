//! Rows with one term.
ghost use Rattle.std.specs.Prelude.{◌≡◌, true, IfSome};
ghost use Rattle.cip_rational.specs.Rational.{zeroℚ};
ghost use Rattle.cip_search.specs.Aggregate.{quotient_of};
ghost use Rattle.cip_search.specs.RowSteps.{divided_sides};
ghost use Rattle.cip_presolve.specs.SingleRows.{HasOneTerm, inward_if, single_sides};

use cip_lin::{Frac, Row, Sides, Term};

/// A side divided by a number other than 0: `None` where the quotient isn't in range, `Some(None)` where it is open.
fn quotient(side: Option<Frac>, coef: Frac) -> Option<Option<Frac>>
    requires { ¬ (coef ≡ zeroℚ) }
    ensures { IfSome result (λ found. found ≡ quotient_of side coef) }
{
    match side {
        None => Some(None),
        Some(side) => match side.div(coef) {
            Ok(value) => Some(Some(value)),
            Err(_) => None,
        },
    }
}

/// The sides of a value whose product with a number other than 0 lies between two sides, where they are in range.
fn divided(coef: Frac, low: Option<Frac>, high: Option<Frac>) -> Option<Sides>
    requires { ¬ (coef ≡ zeroℚ) }
    ensures { IfSome result (λ sides. sides ≡ divided_sides coef low high) }
{
    let Some(low) = quotient(low, coef) else {
        return None;
    };
    let Some(high) = quotient(high, coef) else {
        return None;
    };
    if coef.is_negative() {
        Some(Sides {
            low: high,
            high: low,
        })
    } else {
        Some(Sides { low, high })
    }
}

/// A low side rounded up, and a high side rounded down.
pub fn inward(sides: Sides) -> Sides
    ensures { result ≡ inward_if true sides }
{
    let low = match sides.low {
        None => None,
        Some(side) => Some(side.rounded_up()),
    };
    let high = match sides.high {
        None => None,
        Some(side) => Some(side.rounded_down()),
    };
    Sides { low, high }
}

/// The one term of a row that has one.
pub fn one_term(row: &Row) -> Option<Term>
    ensures { IfSome result (λ term. HasOneTerm row.now term × ¬ (term.coefficient ≡ zeroℚ)) }
{
    match row.terms() {
        [term] => Some(*term),
        _ => None,
    }
}

/// The sides of a value whose product with a number other than 0 lies between two sides, rounded inward where the value
/// is whole; `None` where a number isn't in range.
pub fn single_sides(coef: Frac, low: Option<Frac>, high: Option<Frac>, whole: bool) -> Option<Sides>
    requires { ¬ (coef ≡ zeroℚ) }
    ensures { IfSome result (λ sides. sides ≡ single_sides whole coef low high) }
{
    let sides = match divided(coef, low, high) {
        Some(sides) => sides,
        None => return None,
    };
    if whole {
        Some(inward(sides))
    } else {
        Some(sides)
    }
}
