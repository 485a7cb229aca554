//! The values of bounds.
ghost use Rattle.std.specs.Prelude.{◌≡◌};
ghost use Rattle.cip_rational.specs.Numeral as text;
ghost use Rattle.cip_text_rules.specs.MpsWords.{is_infinity, bound_number};
ghost use Rattle.cip_text_rules.specs.MpsStepStatements.{is_far_value};
ghost use Rattle.cip_mps_lines.specs.NumbersRead.{IsRead};

use cip_frac::Frac;
use cip_text::{NumberFault, number};
use std::marker::Model;

/// 10^20, the least size of a bound that is none.
const FAR: i128 = 100_000_000_000_000_000_000;

/// The text of a bound's value, read. Contracts see what the text says as a bound: infinity and a size of 10^20 or more
/// are `Huge`, that is no bound.
#[derive(Drop)]
pub struct BoundNumber<'a> {
    text: &'a [u8],
    outcome: Result<Frac, NumberFault>,
}

impl<'a> Model for BoundNumber<'a> {
    ghost use Rattle.cip_rational.specs.Numeral.{Numeral};
    ghost use Rattle.cip_text_rules.specs.MpsWords.{bound_number};
    ghost use Rattle.cip_mps_lines.specs.NumbersRead.{IsRead};

    ghost Value = { Numeral };

    ghost view = { λ n. bound_number n.text.now };

    ghost invariant = { λ n. IsRead (bound_number n.text.now) n.outcome };
}

/// Whether a `-` stands first.
fn is_minus(bytes: &[u8]) -> bool
    ensures { result ≡ text.is_minus bytes.now }
{
    match bytes {
        [] => false,
        [first, ..] => *first == b'-',
    }
}

/// The text without a sign in first place.
fn without_sign(bytes: &[u8]) -> &[u8]
    ensures { result.now ≡ text.without_sign bytes.now }
{
    match bytes {
        [b'+' | b'-', rest @ ..] => rest,
        _ => bytes,
    }
}

/// Whether a text says infinity: `inf` or `infinity` in letters large or small, with a sign or none.
fn says_infinity(bytes: &[u8]) -> bool
    ensures { result ≡ is_infinity bytes.now }
{
    let word = without_sign(bytes);
    word.eq_ignore_ascii_case(b"inf") || word.eq_ignore_ascii_case(b"infinity")
}

/// Whether a value has a size of 10^20 or more.
fn is_far(value: Frac) -> bool
    ensures { result ≡ is_far_value value }
{
    match Frac::whole(FAR) {
        Ok(far) => far <= value.abs(),
        Err(_) => unreachable!(),
    }
}

/// The value of a text as a bound, or why it has none.
fn bound_value(bytes: &[u8]) -> Result<Frac, NumberFault>
    ensures { IsRead (bound_number bytes.now) result }
{
    if says_infinity(bytes) {
        return Err(NumberFault::Huge {
            negative: is_minus(bytes),
        });
    }
    match number(bytes) {
        Ok(value) if is_far(value) => Err(NumberFault::Huge {
            negative: value.is_negative(),
        }),
        outcome => outcome,
    }
}

impl<'a> BoundNumber<'a> {
    ghost use Rattle.std.specs.Prelude.{◌≡◌};
    ghost use Rattle.cip_rational.specs.Numeral.{value_of};
    ghost use Rattle.cip_text_rules.specs.MpsWords as words;
    ghost use Rattle.cip_text_rules.specs.MpsSayings.{no_value};

    /// Reads a text.
    pub fn of(text: &'a [u8]) -> BoundNumber<'a>
        ensures { result ≡ words.bound_number text.now }
    {
        BoundNumber {
            text,
            outcome: bound_value(text),
        }
    }

    /// The value of a bound of a type without one: 0.
    pub fn none() -> BoundNumber<'a>
        ensures { result ≡ no_value }
    {
        BoundNumber::of(b"0")
    }

    /// The value; none where the text has none, or says no bound.
    pub fn value(&self) -> Option<Frac>
        ensures { result ≡ value_of self.now }
    {
        match &self.outcome {
            Ok(value) => Some(*value),
            Err(_) => None,
        }
    }

    /// Whether the text is no number and doesn't say infinity.
    pub fn is_no_number(&self) -> bool
        ensures { result ≡ words.is_no_number self.now }
    {
        matches!(&self.outcome, Err(NumberFault::NotANumber))
    }

    /// Whether the text says no bound: infinity, or a size of 10^20 or more.
    pub fn is_huge(&self) -> bool
        ensures { result ≡ words.is_huge self.now }
    {
        matches!(&self.outcome, Err(NumberFault::Huge { .. }))
    }

    /// Whether the number needs more digits than are kept.
    pub fn is_too_fine(&self) -> bool
        ensures { result ≡ words.is_too_fine self.now }
    {
        matches!(&self.outcome, Err(NumberFault::TooFine))
    }

    /// Whether the value is below 0; infinity and a size of 10^20 or more have a sign too.
    pub fn is_negative(&self) -> bool
        ensures { result ≡ words.is_negative self.now }
    {
        match &self.outcome {
            Ok(value) => value.is_negative(),
            Err(NumberFault::Huge { negative }) => *negative,
            Err(_) => false,
        }
    }

    /// Whether the value is above 0, and isn't no bound.
    pub fn is_positive(&self) -> bool
        ensures { result ≡ words.is_positive self.now }
    {
        match &self.outcome {
            Ok(value) => value.is_positive(),
            Err(_) => false,
        }
    }
}
