//! The sides of semi-continuous columns.
ghost use Rattle.std.specs.Prelude.{◌≡◌, Some};
ghost use Rattle.cip_rational.specs.Rational.{zeroℚ};
ghost use Rattle.cip_problem.specs.Choices.{greater, open_sides};
ghost use Rattle.cip_text_rules.specs.MpsBounds as text;

use cip_frac::Frac;
use cip_lin::Sides;

/// Whether a bound is there and at least 0.
fn is_from_zero(low: Option<Frac>) -> bool
    ensures { result ≡ text.is_from_zero low }
{
    match low {
        None => false,
        Some(side) => Frac::zero() <= side,
    }
}

/// Whether these are bounds that a semi-continuous column must have: a high one, and a low one of at least 0.
pub(crate) fn are_semi_sides(sides: Sides) -> bool
    ensures { result ≡ text.are_semi_sides sides }
{
    sides.high.is_some() && is_from_zero(sides.low)
}

/// The greater of 0 and a high bound; 0 where there is none.
fn greater_of_zero(high: Option<Frac>) -> Option<Frac>
    ensures { result ≡ greater (Some zeroℚ) high }
{
    let zero = Frac::zero();
    match high {
        None => Some(zero),
        Some(side) => Some(if zero <= side { side } else { zero }),
    }
}

/// The sides of a semi-continuous column while its choice is open: from 0 to the greater of 0 and its own high side.
pub(crate) fn open_sides(own: Sides) -> Sides
    ensures { result ≡ open_sides own }
{
    Sides {
        low: Some(Frac::zero()),
        high: greater_of_zero(own.high),
    }
}
