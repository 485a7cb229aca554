// Sums, differences, products and quotients.
ghost use Rattle.std.specs.Prelude.{◌≡◌, ◌≢◌, ◌<◌, ◌^◌, true, false, ◌+ℤ◌, ◌*ℤ◌, unsigned_abs, IfSome, MatchOption, MatchResult};
ghost use Rattle.cip_rational.specs.Rational.{◌+ℚ◌, ◌-ℚ◌, ◌*ℚ◌, inverse, ratio, zeroℚ};
ghost use Rattle.cip_rational.specs.Range.{sum_overflows, difference_overflows, product_overflows, quotient_overflows};

use crate::bounded::{
    bounded_common, bounded_product, bounded_sum, part_of, raised, signed_part_of,
};
use crate::fraction::Frac;
use crate::gcd::{denominators_gcd, gcd, short_gcd};
use crate::words::{cross_sum, short_part_of, short_signed_part_of, wide_common, wide_product};

/// Which of the four operations it was.
#[derive(Clone, Copy, PartialEq, Eq)]
pub enum Operation {
    /// `add`
    Sum,
    /// `sub`
    Difference,
    /// `mul`
    Product,
    /// `div`
    Quotient,
}

/// An operation that goes past the range, and the two numbers it was given.
#[derive(Clone, Copy, PartialEq, Eq)]
pub struct Wide {
    /// The operation.
    pub op: Operation,
    /// Its first number: that which was added to, subtracted from, multiplied or divided.
    pub left: Frac,
    /// Its second number.
    pub right: Frac,
}

impl Frac {
    /// The exact sum, formed at the least common denominator. `Wide` comes exactly where there, before anything
    /// is cancelled, a numerator, their sum or the denominator is above 2^127-1 in magnitude.
    #[inline]
    pub fn add(self, other: Frac) -> Result<Frac, Wide>
        ensures { MatchResult result
            (λ value. (sum_overflows self other ≡ false) × (value ≡ self +ℚ other))
            (λ wide. (sum_overflows self other ≡ true)
            × (wide ≡ record { op = Operation.Sum; left = self; right = other })) }
    {
        match sum(self, other) {
            Some(value) => Ok(value),
            None => Err(Wide {
                op: Operation::Sum,
                left: self,
                right: other,
            }),
        }
    }

    /// The exact difference: the sum with the other's negative. `Wide` comes exactly where that sum overflows, as
    /// `add` says it, and names the two numbers as they were given.
    #[inline]
    pub fn sub(self, other: Frac) -> Result<Frac, Wide>
        ensures { MatchResult result
            (λ value. (difference_overflows self other ≡ false) × (value ≡ self -ℚ other))
            (λ wide. (difference_overflows self other ≡ true)
            × (wide ≡ record { op = Operation.Difference; left = self; right = other })) }
    {
        match sum(self, other.neg()) {
            Some(value) => Ok(value),
            None => Err(Wide {
                op: Operation::Difference,
                left: self,
                right: other,
            }),
        }
    }

    /// The exact product. `Wide` comes exactly where in lowest terms its numerator or its denominator is above
    /// 2^127-1 in magnitude.
    #[inline]
    pub fn mul(self, other: Frac) -> Result<Frac, Wide>
        ensures { MatchResult result
            (λ value. (product_overflows self other ≡ false) × (value ≡ self *ℚ other))
            (λ wide. (product_overflows self other ≡ true)
            × (wide ≡ record { op = Operation.Product; left = self; right = other })) }
    {
        match product(self, other) {
            Some(value) => Ok(value),
            None => Err(Wide {
                op: Operation::Product,
                left: self,
                right: other,
            }),
        }
    }

    /// The exact quotient; the other number must not be 0. `Wide` comes exactly where in lowest terms its numerator
    /// or its denominator is above 2^127-1 in magnitude.
    #[inline]
    pub fn div(self, other: Frac) -> Result<Frac, Wide>
        requires { other ≢ zeroℚ }
        ensures { MatchResult result
            (λ value. (quotient_overflows self other ≡ false) × (value ≡ self *ℚ inverse other))
            (λ wide. (quotient_overflows self other ≡ true)
            × (wide ≡ record { op = Operation.Quotient; left = self; right = other })) }
    {
        match product(self, other.reciprocal()) {
            Some(value) => Ok(value),
            None => Err(Wide {
                op: Operation::Quotient,
                left: self,
                right: other,
            }),
        }
    }
}

#[inline]
fn whole_sum(a: i128, c: i128) -> Option<Frac>
    ensures { MatchOption result (¬ (unsigned_abs (a +ℤ c) < 2 ^ 127))
        (λ value. (unsigned_abs (a +ℤ c) < 2 ^ 127) × (value ≡ ratio (a +ℤ c) 1)) }
{
    match bounded_sum(a, c) {
        Some(total) => Some(Frac::of_lowest(total, 1)),
        None => None,
    }
}

#[inline]
fn whole_product(a: i128, c: i128) -> Option<Frac>
    ensures { MatchOption result (¬ (unsigned_abs (a *ℤ c) < 2 ^ 127))
        (λ value. (unsigned_abs (a *ℤ c) < 2 ^ 127) × (value ≡ ratio (a *ℤ c) 1)) }
{
    match bounded_product(a, c) {
        Some(product) => Some(Frac::of_lowest(product, 1)),
        None => None,
    }
}

#[inline]
pub(crate) fn sum(left: Frac, right: Frac) -> Option<Frac>
    ensures { MatchOption result (sum_overflows left right ≡ true)
        (λ value. (sum_overflows left right ≡ false) × (value ≡ left +ℚ right)) }
{
    let (a, b) = left.terms();
    let (c, d) = right.terms();
    if b == 1 && d == 1 {
        return whole_sum(a, c);
    }
    fraction_sum(left, right)
}

#[inline]
pub(crate) fn product(left: Frac, right: Frac) -> Option<Frac>
    ensures { MatchOption result (product_overflows left right ≡ true)
        (λ value. (product_overflows left right ≡ false) × (value ≡ left *ℚ right)) }
{
    let (a, b) = left.terms();
    let (c, d) = right.terms();
    if b == 1 && d == 1 {
        return whole_product(a, c);
    }
    fraction_product(left, right)
}

// Of numbers whose terms are below 2^63, which cannot overflow.
#[inline]
fn short_fraction_sum(left: Frac, right: Frac) -> Option<Frac>
    ensures { IfSome result (λ value. (sum_overflows left right ≡ false) × (value ≡ left +ℚ right)) }
{
    let Some((a, b)) = left.short_terms() else {
        return None;
    };
    let Some((c, d)) = right.short_terms() else {
        return None;
    };
    let g = denominators_gcd(b, d);
    let over = short_part_of(d, g);
    let under = short_part_of(b, g);
    let total = cross_sum(a, over, c, under);
    if g == 1 {
        return Some(Frac::of_lowest(total, wide_common(under, d)));
    }
    let rest = gcd(total.unsigned_abs(), g as u128);
    let numerator = signed_part_of(total, rest);
    let last = part_of(d as u128, rest);
    Some(Frac::of_lowest(numerator, under as u128 * last))
}

// Of numbers whose terms are below 2^63, which cannot overflow.
#[inline]
fn short_fraction_product(left: Frac, right: Frac) -> Option<Frac>
    ensures { IfSome result (λ value. (product_overflows left right ≡ false) × (value ≡ left *ℚ right)) }
{
    let Some((a, b)) = left.short_terms() else {
        return None;
    };
    let Some((c, d)) = right.short_terms() else {
        return None;
    };
    let g = short_gcd(a.unsigned_abs(), d);
    let h = short_gcd(c.unsigned_abs(), b);
    let numerator = wide_product(short_signed_part_of(a, g), short_signed_part_of(c, h));
    let denominator = wide_common(short_part_of(b, h), short_part_of(d, g));
    Some(Frac::of_lowest(numerator, denominator))
}

#[inline(never)]
fn fraction_sum(left: Frac, right: Frac) -> Option<Frac>
    ensures { MatchOption result (sum_overflows left right ≡ true)
        (λ value. (sum_overflows left right ≡ false) × (value ≡ left +ℚ right)) }
{
    match short_fraction_sum(left, right) {
        Some(value) => Some(value),
        None => long_sum(left, right),
    }
}

#[inline(never)]
fn fraction_product(left: Frac, right: Frac) -> Option<Frac>
    ensures { MatchOption result (product_overflows left right ≡ true)
        (λ value. (product_overflows left right ≡ false) × (value ≡ left *ℚ right)) }
{
    match short_fraction_product(left, right) {
        Some(value) => Some(value),
        None => long_product(left, right),
    }
}

// With the greatest common divisor g of the denominators, the sum's numerator has no divisor in common with
// the product of the denominators' other parts: so what is left to take out divides g.
#[inline]
fn long_sum(left: Frac, right: Frac) -> Option<Frac>
    ensures { MatchOption result (sum_overflows left right ≡ true)
        (λ value. (sum_overflows left right ≡ false) × (value ≡ left +ℚ right)) }
{
    let (a, b) = left.terms();
    let (c, d) = right.terms();
    let g = gcd(b, d);
    let over = part_of(d, g);
    let under = part_of(b, g);
    let Some(first) = raised(a, over) else {
        return None;
    };
    let Some(second) = raised(c, under) else {
        return None;
    };
    let Some(total) = bounded_sum(first, second) else {
        return None;
    };
    let Some(common) = bounded_common(under, d) else {
        return None;
    };
    if g == 1 {
        return Some(Frac::of_lowest(total, common));
    }
    let rest = gcd(total.unsigned_abs(), g);
    let numerator = signed_part_of(total, rest);
    let last = part_of(d, rest);
    Some(Frac::of_lowest(numerator, under * last))
}

// Each numerator is cancelled against the other denominator first, so the product is in lowest terms.
#[inline]
fn long_product(left: Frac, right: Frac) -> Option<Frac>
    ensures { MatchOption result (product_overflows left right ≡ true)
        (λ value. (product_overflows left right ≡ false) × (value ≡ left *ℚ right)) }
{
    let (a, b) = left.terms();
    let (c, d) = right.terms();
    let g = gcd(a.unsigned_abs(), d);
    let h = gcd(c.unsigned_abs(), b);
    let first = signed_part_of(a, g);
    let second = signed_part_of(c, h);
    let Some(numerator) = bounded_product(first, second) else {
        return None;
    };
    let under = part_of(b, h);
    let over = part_of(d, g);
    let Some(denominator) = bounded_common(under, over) else {
        return None;
    };
    Some(Frac::of_lowest(numerator, denominator))
}
