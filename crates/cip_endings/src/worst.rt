//! The parked leaf that is to be shown.
ghost use Rattle.std.specs.Prelude.{◌≡◌};
ghost use Rattle.cip_endings.specs.LeastBounds.{least_of, bound_held};
ghost use Rattle.cip_endings.specs.Worst.{IsWorse, worst_bound};

use crate::bounds::{bound_held, is_no_more, least_of};
use cip_frac::Frac;
use cip_report::Shown;

/// The parked leaf of least bound, the first of these: its values and choices, its bound, and by what it is shown.
#[derive(Drop)]
pub struct Worst {
    /// The value of each whole column, by rising column.
    pub leaf: Vec<Frac>,
    /// Whether each semi-continuous column is on, by rising column.
    pub on: Vec<bool>,
    /// The bound of its node, if that had one.
    pub bound: Option<Frac>,
    /// What overflows there.
    pub shown: Shown,
}

/// The bound of the worst leaf, if one was parked.
pub fn worst_bound(worst: &Option<Worst>) -> Option<Option<Frac>>
    ensures { result ≡ worst_bound worst.now }
{
    match worst {
        None => None,
        Some(worst) => Some(worst.bound),
    }
}

/// The worst leaf, once another one was parked after the others: of equal bounds the earlier one stays.
pub fn worse(worst: Option<Worst>, parked: Worst) -> Option<Worst>
    ensures { IsWorse worst parked result }
{
    match worst {
        None => Some(parked),
        Some(worst) => {
            if is_no_more(&worst.bound, &parked.bound) {
                Some(worst)
            } else {
                Some(parked)
            }
        }
    }
}

/// The least of the cost held, of the least bound of open nodes, and of the bound of the worst leaf.
pub fn least_left(
    held: Option<Frac>,
    waiting: Option<Option<Frac>>,
    worst: &Option<Worst>,
) -> Option<Option<Frac>>
    ensures { result ≡ least_of (bound_held held) (least_of waiting (worst_bound worst.now)) }
{
    least_of(bound_held(held), least_of(waiting, worst_bound(worst)))
}
