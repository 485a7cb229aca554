//! Number texts and texts of fractions.
ghost use Rattle.std.specs.Prelude.{◌≡◌, ◌≤◌, MatchResult, Some, if◌then◌else◌};
ghost use Rattle.cip_rational.specs.Range.{largest};
ghost use Rattle.cip_rational.specs.Numeral as text;
ghost use Rattle.cip_text.specs.NumberFaults.{faulty};
ghost use Rattle.cip_text.specs.Readings.{said, FitsRange};

use crate::decide::with_exponent;
use crate::parts::{cut, cut_at_mark, is_minus, make_number, without_sign};
use crate::reading::Reading;
use cip_frac::Frac;

/// Why a text has no value.
#[derive(Clone, Copy)]
pub enum NumberFault {
    /// The text is no number.
    NotANumber,
    /// The size is above 2^127-1; of a fraction, that of one of its two numbers.
    Huge { negative: bool },
    /// The size is at most 2^127-1, and the digits without the zeros at both ends make a number above 2^127-1, or the
    /// last of them stands behind the 38th decimal.
    TooFine,
}

/// The number of a text without its sign.
fn unsigned_numeral(negative: bool, body: &[u8]) -> Reading
    ensures { said result
        ≡ (if text.is_unsigned body.now then text.unsigned_numeral negative body.now else text.NotANumber) }
{
    let (mantissa, exponent, has_exponent) = cut_at_mark(body);
    let (whole, decimals, _) = cut(mantissa, b'.');
    let amount = without_sign(exponent);
    if make_number(whole, decimals, has_exponent, amount) {
        with_exponent(negative, whole, decimals, is_minus(exponent), amount)
    } else {
        Reading::NoNumber
    }
}

/// The number that a text says, or why it says none.
#[tactic(auto, unfolding(cip_rational::specs::Numeral::numeral_of))]
pub(crate) fn numeral(bytes: &[u8]) -> Reading
    ensures { said result ≡ text.numeral_of bytes.now }
{
    unsigned_numeral(is_minus(bytes), without_sign(bytes))
}

/// A size with its sign.
fn signed(negative: bool, size: u128) -> i128
    requires { size ≤ largest }
    ensures { result ≡ text.signed negative size }
{
    if negative {
        -(size as i128)
    } else {
        size as i128
    }
}

/// The value of what was read, in lowest terms.
pub(crate) fn value_of(reading: Reading) -> Result<Frac, NumberFault>
    requires { FitsRange reading }
    ensures { MatchResult result (λ value. text.value_of (said reading) ≡ Some value)
        (λ fault. said reading ≡ faulty fault) }
{
    match reading {
        Reading::NoNumber => Err(NumberFault::NotANumber),
        Reading::Large { negative } => Err(NumberFault::Huge { negative }),
        Reading::Fine => Err(NumberFault::TooFine),
        Reading::Fits {
            negative,
            size,
            below,
        } => match Frac::new(signed(negative, size), signed(false, below)) {
            Ok(value) => Ok(value),
            Err(_) => unreachable!(),
        },
    }
}

/// The value of a number text: an optional sign, digits with at most one point and at least one digit, and an optional
/// exponent. `Huge` comes exactly where its size is above 2^127-1; `TooFine` exactly where it isn't, and the value
/// needs more digits than are kept; `NotANumber` for each other text. Digits and exponents of any length are read.
pub fn number(bytes: &[u8]) -> Result<Frac, NumberFault>
    ensures { MatchResult result (λ value. text.value_of (text.numeral_of bytes.now) ≡ Some value)
        (λ fault. text.numeral_of bytes.now ≡ faulty fault) }
{
    value_of(numeral(bytes))
}
