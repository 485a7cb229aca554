//! What a text says as a number: its value, or why it has none. The contracts of the crates above speak of these
//! definitions; `specs/` holds them.
// Each function here does nothing. Its contract is one of the laws of the definitions, so that the check proves it.

ghost use Rattle.cip_rational.specs.NumeralExamples.{NumbersAreRight, FractionsAreRight, NumbersHaveFaults};
ghost use Rattle.cip_rational.specs.NumeralStatements.{NumbersFit, ValuesAreExact};

/// A number that a text says is a pair of whole numbers of at most 2^127-1, the lower one not 0; 0 has no sign.
pub fn numbers_fit()
    ensures { NumbersFit }
{}

/// A text has a value exactly where it says a number, and that value is in the range of the rationals that are kept.
pub fn values_are_exact()
    ensures { ValuesAreExact }
{}

/// Number texts have the values that were worked out by hand.
pub fn numbers_are_right()
    ensures { NumbersAreRight }
{}

/// Texts that are no number, too large or too fine are told apart, with the sign of those that are too large.
pub fn numbers_have_faults()
    ensures { NumbersHaveFaults }
{}

/// Texts of a fraction have the values and the faults that were worked out by hand.
pub fn fractions_are_right()
    ensures { FractionsAreRight }
{}
