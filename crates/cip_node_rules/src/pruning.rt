//! What is pruned.
ghost use Rattle.std.specs.Prelude.{◌≡◌};
ghost use Rattle.cip_problem.specs.Log.{matters};

use cip_lin::Frac;

/// Whether a bound matters beside the cost held, as it does where it is below that, or where one of them isn't there.
pub fn matters(held: Option<Frac>, bound: Option<Frac>) -> bool
    ensures { result ≡ matters held bound }
{
    match (held, bound) {
        (Some(cost), Some(bound)) => bound < cost,
        _ => true,
    }
}
