//! The rational numbers, and the texts that say them: their definitions and laws stand in `specs/`, for the contracts
//! of the other crates.
// Each function here does nothing. Its contract is one of the main laws, so that the check proves it.
#![tactic(auto)]

pub mod number_laws;
pub mod numerals;

ghost use Rattle.cip_rational.specs.Statements.{OrderedField, RatiosAreFractions, LowestTerms, Rounding, ComparisonIsTotal, SumsStayInRange, ZeroNeverOverflows, CombinationsHold, Values};

/// The rational numbers are an ordered field: sums and products have the usual laws, each number but 0 has an inverse,
/// and the order is total and kept by sums and by products with numbers that are not negative.
pub fn ordered_field()
    ensures { OrderedField }
{}

/// Sums, products, order and equality of ratios are those of schoolbook fractions, wherever both denominators are
/// positive.
pub fn ratios_are_fractions()
    ensures { RatiosAreFractions }
{}

/// A number is its numerator over its denominator; that is positive, the two have no divisor but 1 in common, and no
/// other two numbers are like that.
pub fn lowest_terms()
    ensures { LowestTerms }
{}

/// The floor is the greatest whole number that is at most the number, the ceiling the least that is at least it; and
/// two different whole numbers are at least 1 apart.
pub fn rounding()
    ensures { Rounding }
{}

/// What a comparison answers, less, equal or greater, is a total order.
pub fn comparison_is_total()
    ensures { ComparisonIsTotal }
{}

/// A sum that does not overflow has numerator and denominator of at most 2^127-1 in magnitude, in lowest terms.
pub fn sums_stay_in_range()
    ensures { SumsStayInRange }
{}

/// A sum with 0 of a number in the range, and each product with 0, does not overflow.
pub fn zero_never_overflows()
    ensures { ZeroNeverOverflows }
{}

/// Where each row times x is at most its bound, the sum of the rows times multipliers that are not negative, times x,
/// is at most the sum of the bounds times those multipliers.
pub fn combinations_hold()
    ensures { CombinationsHold }
{}

/// Seven sums and products overflow or fit as worked out by hand, and -1/2 has the floor -1 and the ceiling 0.
pub fn values()
    ensures { Values }
{}
