//! The numbers of a line.

use cip_frac::Frac;
use cip_text::{NumberFault, number};
use std::marker::Model;

/// A text of a number, read. Contracts see what the text says.
#[derive(Drop)]
pub struct Number<'a> {
    text: &'a [u8],
    outcome: Result<Frac, NumberFault>,
}

impl<'a> Model for Number<'a> {
    ghost use Rattle.cip_rational.specs.Numeral.{Numeral, numeral_of};
    ghost use Rattle.cip_mps_lines.specs.NumbersRead.{IsRead};

    ghost Value = { Numeral };

    ghost view = { λ n. numeral_of n.text.now };

    ghost invariant = { λ n. IsRead (numeral_of n.text.now) n.outcome };
}

impl<'a> Number<'a> {
    ghost use Rattle.std.specs.Prelude.{◌≡◌};
    ghost use Rattle.cip_rational.specs.Numeral.{numeral_of};
    ghost use Rattle.cip_text_rules.specs.MpsWords as words;
    ghost use Rattle.cip_text_rules.specs.MpsProgram as program;

    /// Reads a text.
    pub fn of(text: &'a [u8]) -> Number<'a>
        ensures { result ≡ numeral_of text.now }
    {
        Number {
            text,
            outcome: number(text),
        }
    }

    /// The value; 0 where the text has none.
    pub fn value(&self) -> Frac
        ensures { result ≡ program.number self.now }
    {
        match &self.outcome {
            Ok(value) => *value,
            Err(_) => Frac::zero(),
        }
    }

    /// Whether the text is no number.
    pub fn is_no_number(&self) -> bool
        ensures { result ≡ words.is_no_number self.now }
    {
        matches!(&self.outcome, Err(NumberFault::NotANumber))
    }

    /// Whether the size is above 2^127-1.
    pub fn is_huge(&self) -> bool
        ensures { result ≡ words.is_huge self.now }
    {
        matches!(&self.outcome, Err(NumberFault::Huge { .. }))
    }

    /// Whether the number needs more digits than are kept.
    pub fn is_too_fine(&self) -> bool
        ensures { result ≡ words.is_too_fine self.now }
    {
        matches!(&self.outcome, Err(NumberFault::TooFine))
    }

    /// Whether the value is 0; a text without value is not.
    pub fn is_zero(&self) -> bool
        ensures { result ≡ words.is_zero self.now }
    {
        match &self.outcome {
            Ok(value) => value.is_zero(),
            Err(_) => false,
        }
    }
}
