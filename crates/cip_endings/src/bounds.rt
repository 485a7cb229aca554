//! The least of bounds.
ghost use Rattle.std.specs.Prelude.{◌≡◌};
ghost use Rattle.cip_endings.specs.LeastBounds.{is_no_more, less_of, least_of, bound_held, flat, capped};

use cip_frac::Frac;

/// Whether a bound is at most another; none is at most each.
pub fn is_no_more(bound: &Option<Frac>, other: &Option<Frac>) -> bool
    ensures { result ≡ is_no_more bound.now other.now }
{
    match (bound, other) {
        (None, _) => true,
        (Some(_), None) => false,
        (Some(bound), Some(other)) => bound <= other,
    }
}

/// The less of two bounds.
pub fn less_of(bound: Option<Frac>, other: Option<Frac>) -> Option<Frac>
    ensures { result ≡ less_of bound other }
{
    if is_no_more(&bound, &other) {
        bound
    } else {
        other
    }
}

/// The less of two bounds each of which need not be there at all.
pub fn least_of(bound: Option<Option<Frac>>, other: Option<Option<Frac>>) -> Option<Option<Frac>>
    ensures { result ≡ least_of bound other }
{
    match (bound, other) {
        (None, other) => other,
        (Some(bound), None) => Some(bound),
        (Some(bound), Some(other)) => Some(less_of(bound, other)),
    }
}

/// The cost held as a bound.
pub fn bound_held(cost: Option<Frac>) -> Option<Option<Frac>>
    ensures { result ≡ bound_held cost }
{
    match cost {
        None => None,
        Some(cost) => Some(Some(cost)),
    }
}

/// A bound, none where there is none at all.
pub fn flat(bound: Option<Option<Frac>>) -> Option<Frac>
    ensures { result ≡ flat bound }
{
    match bound {
        None => None,
        Some(bound) => bound,
    }
}

/// A bound, or the cost held where that is less.
pub fn capped(held: Option<Frac>, bound: Option<Frac>) -> Option<Frac>
    ensures { result ≡ capped held bound }
{
    match held {
        None => bound,
        Some(cost) => less_of(bound, Some(cost)),
    }
}
