//! Texts of fractions.
ghost use Rattle.std.specs.Prelude.{◌≡◌, MatchResult, Some};
ghost use Rattle.cip_rational.specs.Numeral as text;
ghost use Rattle.cip_rational.specs.FractionText as fraction_text;
ghost use Rattle.cip_text.specs.NumberFaults.{faulty};
ghost use Rattle.cip_text.specs.Readings.{said};

use crate::decide::ZERO;
use crate::digits::grow;
use crate::number_text::{NumberFault, numeral, value_of};
use crate::parts::{are_digits, cut, is_minus, without_sign};
use crate::reading::Reading;
use cip_frac::Frac;

/// The number of a text without its sign that has a `/`: the quotient of the two numbers that are written out, `Large`
/// where one of them is above 2^127-1. No number is divided by 0.
fn slashed(negative: bool, body: &[u8]) -> Reading
    ensures { said result ≡ fraction_text.slashed negative body.now }
{
    let (over, under, _) = cut(body, b'/');
    if !are_digits(over) || !are_digits(under) {
        return Reading::NoNumber;
    }
    let Some(size) = grow(0, over) else {
        return Reading::Large { negative };
    };
    let Some(below) = grow(0, under) else {
        return Reading::Large { negative };
    };
    if below == 0 {
        Reading::NoNumber
    } else if size == 0 {
        ZERO
    } else {
        Reading::Fits {
            negative,
            size,
            below,
        }
    }
}

/// The number that a text of a fraction says, or why it says none.
#[tactic(auto, unfolding(cip_rational::specs::FractionText::fraction_of))]
fn fraction_numeral(bytes: &[u8]) -> Reading
    ensures { said result ≡ fraction_text.fraction_of bytes.now }
{
    let (_, _, has_slash) = cut(bytes, b'/');
    if has_slash {
        slashed(is_minus(bytes), without_sign(bytes))
    } else {
        numeral(bytes)
    }
}

/// The value of a text of a fraction: an optional sign, digits, `/` and digits; a text without `/` is a number text.
/// Of a fraction, `Huge` comes exactly where one of the two numbers is above 2^127-1, and `NotANumber` where the lower
/// one is 0 and neither is above it, and for each text that is no such fraction. No fraction is `TooFine`.
pub fn fraction(bytes: &[u8]) -> Result<Frac, NumberFault>
    ensures { MatchResult result (λ value. text.value_of (fraction_text.fraction_of bytes.now) ≡ Some value)
        (λ fault. fraction_text.fraction_of bytes.now ≡ faulty fault) }
{
    value_of(fraction_numeral(bytes))
}
