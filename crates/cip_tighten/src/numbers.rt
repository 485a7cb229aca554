//! Whole numbers of rows, and what numbers roughly are.
use cip_frac::Frac;

/// 1, of rough values.
pub const UNIT: i64 = 1 << 24;

// The most that a number of a row that is added up may be in size.
const MOST: u128 = 1 << 40;

// The most that a rough value is in size.
const FAR: i128 = 1 << 58;

/// What a number roughly is, over 2^24; a great one counts as 2^34.
pub fn rough(value: Frac) -> i64 {
    let over = value.numerator();
    let under = value.denominator();
    let quotient = match over.checked_mul(1 << 24) {
        Some(raised) => raised.checked_div(under),
        None => over.checked_div(under >> 24),
    };
    let far = if over < 0 { -FAR } else { FAR };
    i64::try_from(quotient.unwrap_or(far).max(-FAR).min(FAR)).unwrap_or(0)
}

/// A number in 64 bits, where its size is at most 2^40.
pub fn kept(number: i128) -> Option<i64> {
    if number.unsigned_abs() <= MOST {
        i64::try_from(number).ok()
    } else {
        None
    }
}

/// The product of two numbers, where its size is at most 2^40.
pub fn product(a: i64, b: i64) -> Option<i64> {
    kept(i128::from(a).wrapping_mul(i128::from(b)))
}

/// A fraction times a number that its denominator divides, where the product's size is at most 2^40.
pub fn raised(number: Frac, common: i64) -> Option<i64> {
    let times = i128::from(common).checked_div(number.denominator());
    kept(number.numerator().saturating_mul(times.unwrap_or(0)))
}
