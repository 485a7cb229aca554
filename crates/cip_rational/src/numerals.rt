// The texts of numbers: definitions and laws, for the contracts of the other crates.
// A function here does nothing. Its contract is a law, so that the check proves it.

ghost use Rattle.cip_rational.specs.NumeralTexts.{TextsTellNumbers};

/// Two numbers with the same text are the same number.
pub fn texts_tell_numbers()
    ensures { TextsTellNumbers }
{}
