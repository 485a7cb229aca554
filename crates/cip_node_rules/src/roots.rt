//! The bound that a search begins with.
ghost use Rattle.std.specs.Prelude.{◌≡◌, option_map};
ghost use Rattle.cip_node_rules.specs.RootBounds.{least_value, rounded_if};

use crate::values::rounded_bound;
use cip_lin::{Frac, Least};

/// A least cost as a bound, rounded up where costs are whole; `None` where a side is open or a sum of it overflows.
pub fn rounded_least(least: Least, are_whole: bool) -> Option<Frac>
    ensures { result ≡ option_map (rounded_if are_whole) (least_value least) }
{
    match least {
        Least::Value(bound) => Some(rounded_bound(bound, are_whole)),
        Least::NoBound | Least::Wide => None,
    }
}
