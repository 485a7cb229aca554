//! Numbers behind signs.
ghost use Rattle.std.specs.Prelude.{◌≡◌, MatchOption, MatchResult};
ghost use Rattle.cip_text_rules.specs.LpPlaces as places;
ghost use Rattle.cip_lp.specs.LpLimits.{limit_from};
ghost use Rattle.cip_lp.specs.LpNumbers.{IsAmount, IsNoAmount, IsLimit, IsTooFine};

use crate::amounts::Amount;
use cip_frac::Frac;
use cip_mps_lines::{BoundNumber, NumberFault, number};

/// The value of a bound; where there is none, infinity, upwards or downwards.
#[derive(Clone, Copy)]
pub struct Limit {
    /// The value.
    pub value: Option<Frac>,
    /// Infinity has a `-`.
    pub minus: bool,
}

/// A value with this sign.
fn signed(minus: bool, value: Frac) -> Frac
    ensures { result ≡ places.signed_by minus value }
{
    if minus { value.neg() } else { value }
}

/// The value of a bound with this sign, where there is one.
fn signed_side(minus: bool, value: Option<Frac>) -> Option<Frac>
    ensures { limit_from minus result ≡ places.limit_of minus value }
{
    match value {
        None => None,
        Some(value) => Some(signed(minus, value)),
    }
}

/// A number behind a sign. `Err` has the kind of its fault: 4 where it is above 2^127-1 in size, and 5 where it needs
/// more digits than are kept, or is no number.
pub fn amount_of(minus: bool, text: &[u8]) -> Result<Amount, u32>
    ensures { MatchResult result (IsAmount minus text.now) (IsNoAmount text.now) }
{
    match number(text) {
        Ok(value) => Ok(Amount {
            value: signed(minus, value),
        }),
        Err(NumberFault::Huge { .. }) => Err(4),
        Err(NumberFault::TooFine) => Err(5),
        Err(NumberFault::NotANumber) => Err(5),
    }
}

/// The value of a bound behind a sign; none where it needs too many digits.
pub fn limit_of(minus: bool, text: &[u8]) -> Option<Limit>
    ensures { MatchOption result (IsTooFine text.now) (IsLimit minus text.now) }
{
    let number = BoundNumber::of(text);
    if number.is_too_fine() {
        return None;
    }
    let value = signed_side(minus, number.value());
    Some(Limit { value, minus })
}
