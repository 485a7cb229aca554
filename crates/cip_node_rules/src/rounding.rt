//! Which coefficients let a row be rounded.
ghost use Rattle.std.specs.Prelude.{◌≡◌};
ghost use Rattle.cip_node_rules.specs.RowRules.{stops_rounding};

use cip_frac::Frac;

/// Whether a coefficient on a column, a whole one or not, doesn't let a row be rounded.
pub fn stops(whole: bool, coefficient: Frac) -> bool
    ensures { result ≡ stops_rounding whole coefficient }
{
    coefficient != Frac::zero() && (!whole || !coefficient.is_whole())
}
