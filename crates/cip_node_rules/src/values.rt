//! Values that are whole, and bounds that are rounded.
ghost use Rattle.std.specs.Prelude.{◌≡◌, true, length, MatchBool, if◌then◌else◌};
ghost use Rattle.cip_rational.specs.Rational.{integer, ceil, IsWhole};
ghost use Rattle.cip_problem.specs.Points.{AreWhole};

use cip_lin::Frac;

/// Whether the value of a column of this kind is whole, if the column is.
fn is_right(whole: bool, value: Frac) -> bool
    ensures { MatchBool result (whole ≡ true → IsWhole value) (¬ (whole ≡ true → IsWhole value)) }
{
    if whole { value.is_whole() } else { true }
}

/// Whether a point has whole values on all whole columns.
pub fn are_whole(whole: &[bool], point: &[Frac]) -> bool
    requires { length whole.now ≡ length point.now }
    ensures { MatchBool result (AreWhole whole.now point.now) (¬ AreWhole whole.now point.now) }
{
    for at in 0..whole.len() {
        if !is_right(whole[at], point[at]) {
            return false;
        }
    }
    true
}

/// A bound, rounded up where costs are whole.
pub fn rounded_bound(bound: Frac, are_whole: bool) -> Frac
    ensures { result ≡ (if are_whole then integer (ceil bound) else bound) }
{
    if are_whole { bound.rounded_up() } else { bound }
}
