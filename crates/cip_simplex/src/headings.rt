//! Which way values go, and the sides that lie that way.
ghost use Rattle.std.specs.Prelude.{◌≡◌, if◌then◌else◌};
ghost use Rattle.cip_rational.specs.Rational.{le_test, lt_test};
ghost use Rattle.cip_bland.specs.Headings as def;
ghost use Rattle.cip_bland.specs.Rule.{outside_with, sides_cross};

use cip_bland::{Heading, Stand};
use cip_dict::Frac;
use cip_lin::Sides;

/// The other way.
pub(crate) fn back_of(heading: Heading) -> Heading
    ensures { result ≡ def.back_of heading }
{
    match heading {
        Heading::Up => Heading::Down,
        Heading::Down => Heading::Up,
    }
}

/// How far a change goes that way.
pub(crate) fn change_along(heading: Heading, change: Frac) -> Frac
    ensures { result ≡ def.along heading change }
{
    match heading {
        Heading::Up => change,
        Heading::Down => change.neg(),
    }
}

/// Whether one number is below another.
#[inline]
pub(crate) fn is_below(a: Frac, b: Frac) -> bool
    ensures { result ≡ lt_test a b }
{
    if a.denominator() == 1 && b.denominator() == 1 {
        return a.numerator() < b.numerator();
    }
    a < b
}

/// Whether one number is at most another.
#[inline]
pub(crate) fn is_at_most(a: Frac, b: Frac) -> bool
    ensures { result ≡ le_test a b }
{
    !is_below(b, a)
}

/// This way, or the other one.
pub(crate) fn heading_if(heading: Heading, stays: bool) -> Heading
    ensures { result ≡ (if stays then heading else def.back_of heading) }
{
    if stays { heading } else { back_of(heading) }
}

/// Where a variable stands at the side ahead.
pub(crate) fn stand_ahead(heading: Heading) -> Stand
    ensures { result ≡ def.stand_ahead heading }
{
    match heading {
        Heading::Up => Stand::High,
        Heading::Down => Stand::Low,
    }
}

/// The stand at the side ahead, if that side is there.
pub(crate) fn goal_ahead(heading: Heading, sides: Sides) -> Option<Stand>
    ensures { result ≡ def.goal_ahead heading sides }
{
    match (heading, sides.low, sides.high) {
        (Heading::Up, _, Some(_)) => Some(Stand::High),
        (Heading::Down, Some(_), _) => Some(Stand::Low),
        _ => None,
    }
}

/// Whether the low side is above the high one.
pub(crate) fn are_crossed(sides: Sides) -> bool
    ensures { result ≡ sides_cross sides.low sides.high }
{
    match (sides.low, sides.high) {
        (Some(low), Some(high)) => is_below(high, low),
        _ => false,
    }
}

/// The way in which a value outside its sides is outside: up where it isn't below the low one.
pub(crate) fn outside_way(sides: Sides, value: Frac) -> Heading
    ensures { result ≡ outside_with sides value }
{
    match sides.low {
        None => Heading::Up,
        Some(low) => {
            if is_at_most(low, value) {
                Heading::Up
            } else {
                Heading::Down
            }
        }
    }
}
