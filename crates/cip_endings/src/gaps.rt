//! A gap that was asked for.
ghost use Rattle.std.specs.Prelude.{◌≡◌};
ghost use Rattle.cip_endings.specs.Gaps.{is_near_enough, reaches_gap};

use cip_frac::Frac;

/// Whether a cost less a bound is in range, above 0 and at most a gap.
fn is_near_enough(gap: Frac, cost: Frac, bound: Frac) -> bool
    ensures { result ≡ is_near_enough gap cost bound }
{
    match cost.sub(bound) {
        Ok(difference) => bound < cost && difference <= gap,
        Err(_) => false,
    }
}

/// Whether a gap was asked for, a point of this cost is held, there is a bound, and they are near enough.
pub fn reaches_gap(asked: &Option<Frac>, held: &Option<Frac>, bound: &Option<Frac>) -> bool
    ensures { result ≡ reaches_gap asked.now held.now bound.now }
{
    match (asked, held, bound) {
        (Some(gap), Some(cost), Some(bound)) => is_near_enough(*gap, *cost, *bound),
        _ => false,
    }
}
