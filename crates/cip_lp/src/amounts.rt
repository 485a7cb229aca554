//! Numbers with their signs.
ghost use Rattle.std.specs.Prelude.{◌≡◌};
ghost use Rattle.cip_text_rules.specs.LpPlaces as places;
ghost use Rattle.cip_text_rules.specs.MpsState.{is_zero_value};

use cip_frac::Frac;
use std::marker::Model;

/// A number with its sign. Contracts see whether it is 0 beside it.
#[derive(Clone, Copy)]
pub struct Amount {
    /// The number.
    pub value: Frac,
}

/// Whether a value is 0.
pub fn is_zero(value: Frac) -> bool
    ensures { result ≡ is_zero_value value }
{
    value.is_zero()
}

impl Model for Amount {
    ghost use Rattle.cip_text_rules.specs.LpPlaces as places;
    ghost use Rattle.cip_lp.specs.LpAmounts.{amount_code, amount_shown};

    ghost Value = { places.Amount };

    ghost coded = { amount_code };

    ghost view = { λ a. amount_shown a.value };

    ghost inverse = { λ a. record { value = a.value } };
}

impl Amount {
    ghost use Rattle.std.specs.Prelude.{◌≡◌};

    /// Whether the number is 0.
    pub fn is_zero(&self) -> bool
        ensures { result ≡ self.now.zero }
    {
        is_zero(self.value)
    }
}

/// The factor of a name without a number: 1, or -1 behind a `-`.
#[tactic(auto, using(crate::proofs::ValueLaws::unit_is))]
pub fn unit(minus: bool) -> Amount
    ensures { result ≡ places.unit minus }
{
    let one = Frac::one();
    Amount {
        value: if minus { one.neg() } else { one },
    }
}
