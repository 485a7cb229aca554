// Fractions in lowest terms.
ghost use Rattle.std.specs.Prelude.{◌≡◌, ◌≢◌, ◌<◌, ◌≤◌, ◌^◌, ◌↔◌, IsTrue, pos, negsuc, neg_ℤ, unsigned_abs, IfSome, MatchResult, false, if◌then◌else◌};
ghost use Rattle.cip_rational.specs.Rational.{ℚ, ◌<ℚ◌, negate, inverse, absolute, integer, ratio, zeroℚ, oneℚ, numerator, denominator, IsWhole, floor, ceil};
ghost use Rattle.cip_rational.specs.Range.{largest, magnitude, fits_range};
ghost use Rattle.cip_frac.specs.FractionFault.{quotient_of, IsFaultOf};

use crate::bounded::{LARGEST, floor_part_of};
use crate::gcd::{gcd, short_gcd};
use crate::kept::{Signed, Unsigned};
use crate::words::short;
use std::marker::Model;

/// Why two integers make no fraction.
#[derive(Clone, Copy, PartialEq, Eq)]
pub enum FracFault {
    /// The number below is 0.
    ZeroBelow,
    /// In lowest terms one of the two numbers is above 2^127-1 in magnitude.
    Wide,
}

/// A fraction in lowest terms: the numerator from -(2^127-1) to 2^127-1, the denominator from 1 to 2^127-1.
/// A contract sees it as the rational number that it stands for.
#[derive(Clone, Copy, Debug)]
pub struct Frac {
    numerator: Signed,
    denominator: Unsigned,
}

// rows of programs hold millions of them
const _: () = prove!(size_of::<Frac>() == 32);

impl Model for Frac {
    ghost use Rattle.cip_rational.specs.Rational.{ℚ, coded_ℚ};

    ghost Value = { ℚ };

    ghost coded = { coded_ℚ };

    ghost use Rattle.cip_frac.specs.LowestTerms.{rational_of, HasLowest, lowest_terms_of, gives_back};

    ghost view = { rational_of };

    ghost invariant = { HasLowest };

    ghost inverse = { lowest_terms_of };

    ghost inverse_ok = { gives_back };
}

#[inline]
fn with_sign(is_below_zero: bool, size: u128) -> i128
    requires { size < 2 ^ 127 }
    ensures { result ≡ (if is_below_zero then neg_ℤ (pos size) else pos size) }
{
    if is_below_zero {
        -(size as i128)
    } else {
        size as i128
    }
}

impl From<i64> for Frac {
    ghost from_gives = { λ p value. value ≡ integer p };

    #[inline]
    fn from(p: i64) -> Frac {
        Frac::of_lowest(p as i128, 1)
    }
}

impl Frac {
    ghost use Rattle.cip_frac.specs.LowestTerms.{AreLowest};

    /// The number 0.
    #[inline]
    pub fn zero() -> Frac
        ensures { result ≡ zeroℚ }
    {
        Frac::of_lowest(0, 1)
    }

    /// The number 1.
    #[inline]
    pub fn one() -> Frac
        ensures { result ≡ oneℚ }
    {
        Frac::of_lowest(1, 1)
    }

    /// p / q in lowest terms. `ZeroBelow` comes exactly where q is 0; `Wide` exactly where it isn't, and in lowest
    /// terms the numerator or the denominator is above 2^127-1 in magnitude.
    pub fn new(p: i128, q: i128) -> Result<Frac, FracFault>
        ensures { MatchResult result (λ value. (q ≢ pos 0) × (value ≡ quotient_of p q)) (IsFaultOf p q) }
    {
        if q == 0 {
            return Err(FracFault::ZeroBelow);
        }
        let over = p.unsigned_abs();
        let under = q.unsigned_abs();
        let common = gcd(over, under);
        let size = over / common;
        let denominator = under / common;
        if size > LARGEST || denominator > LARGEST {
            return Err(FracFault::Wide);
        }
        let numerator = with_sign((p < 0) != (q < 0), size);
        Ok(Frac::of_lowest(numerator, denominator))
    }

    /// p itself. `Wide` comes for -2^127 alone, and no other fault.
    #[inline]
    pub fn whole(p: i128) -> Result<Frac, FracFault>
        ensures { MatchResult result (λ value. value ≡ integer p)
            (λ fault. (fault ≡ FracFault.Wide) × (p ≡ negsuc largest) × (fits_range (integer p) ≡ false)) }
    {
        if p == i128::MIN {
            return Err(FracFault::Wide);
        }
        Ok(Frac::of_lowest(p, 1))
    }

    /// The numerator in lowest terms, which has the sign of the number: from -(2^127-1) to 2^127-1.
    #[inline]
    pub fn numerator(self) -> i128
        ensures value { result ≡ numerator self }
        ensures bounded { magnitude result ≤ largest }
    {
        self.terms().0
    }

    /// The denominator in lowest terms: from 1 to 2^127-1.
    #[inline]
    pub fn denominator(self) -> i128
        ensures value { result ≡ pos (denominator self) }
        ensures bounded { magnitude result ≤ largest }
    {
        self.terms().1 as i128
    }

    /// The number with the other sign; always in range.
    #[inline]
    pub fn neg(self) -> Frac
        ensures { result ≡ negate self }
    {
        let (numerator, denominator) = self.terms();
        Frac::of_lowest(-numerator, denominator)
    }

    /// How far the number is from 0; always in range.
    #[inline]
    pub fn abs(self) -> Frac
        ensures { result ≡ absolute self }
    {
        let (numerator, _) = self.terms();
        if numerator < 0 { self.neg() } else { self }
    }

    /// Whether the number is whole: its denominator in lowest terms is 1.
    #[inline]
    pub fn is_whole(self) -> bool
        ensures { IsTrue result ↔ IsWhole self }
    {
        self.terms().1 == 1
    }

    /// Whether the number is 0.
    #[inline]
    pub fn is_zero(self) -> bool
        ensures { IsTrue result ↔ (self ≡ zeroℚ) }
    {
        self.terms().0 == 0
    }

    /// Whether the number is below 0.
    #[inline]
    pub fn is_negative(self) -> bool
        ensures { IsTrue result ↔ (self <ℚ zeroℚ) }
    {
        self.terms().0 < 0
    }

    /// Whether the number is above 0.
    #[inline]
    pub fn is_positive(self) -> bool
        ensures { IsTrue result ↔ (zeroℚ <ℚ self) }
    {
        self.terms().0 > 0
    }

    /// The greatest whole number that is at most this one: from -(2^127-1) to 2^127-1.
    #[inline]
    pub fn floor(self) -> i128
        ensures { result ≡ floor self }
    {
        let (numerator, denominator) = self.terms();
        floor_part_of(numerator, denominator)
    }

    /// The least whole number that is at least this one: from -(2^127-1) to 2^127-1.
    #[inline]
    pub fn ceil(self) -> i128
        ensures { result ≡ ceil self }
    {
        let (numerator, denominator) = self.terms();
        -floor_part_of(-numerator, denominator)
    }

    /// The greatest whole number that is at most this one, as a fraction; always in range.
    #[inline]
    pub fn rounded_down(self) -> Frac
        ensures { result ≡ integer (floor self) }
    {
        let (numerator, denominator) = self.terms();
        Frac::of_lowest(floor_part_of(numerator, denominator), 1)
    }

    /// The least whole number that is at least this one, as a fraction; always in range.
    #[inline]
    pub fn rounded_up(self) -> Frac
        ensures { result ≡ integer (ceil self) }
    {
        self.neg().rounded_down().neg()
    }

    /// 1 over the number, which must not be 0; always in range.
    #[inline]
    pub fn reciprocal(self) -> Frac
        requires { self ≢ zeroℚ }
        ensures { result ≡ inverse self }
    {
        let (numerator, denominator) = self.terms();
        Frac::of_lowest(
            with_sign(numerator < 0, denominator),
            numerator.unsigned_abs(),
        )
    }

    // A number from its lowest terms.
    #[inline]
    pub(crate) fn of_lowest(numerator: i128, denominator: u128) -> Frac
        requires { AreLowest numerator denominator }
        ensures { result ≡ ratio numerator denominator }
    {
        Frac {
            numerator: Signed::new(numerator),
            denominator: Unsigned::new(denominator),
        }
    }

    // The number of terms that need not be lowest.
    #[inline]
    pub(crate) fn reduced(total: i64, common: u64) -> Frac
        requires { 0 < common }
        ensures { result ≡ ratio total common }
    {
        let size = total.unsigned_abs();
        let g = short_gcd(size, common);
        if g == 1 {
            return Frac::of_lowest(total as i128, common as u128);
        }
        let numerator = with_sign(total < 0, (size / g) as u128);
        Frac::of_lowest(numerator, (common / g) as u128)
    }

    // The lowest terms, where they are below 2^63.
    #[inline]
    pub(crate) fn short_terms(self) -> Option<(i64, u64)>
        ensures { IfSome result
            (λ terms. (terms.0 ≡ numerator self) × (terms.1 ≡ denominator self)
            × (magnitude (numerator self) ≤ 2 ^ 63) × (terms.1 < 2 ^ 63)) }
    {
        let (numerator, denominator) = self.terms();
        if denominator > i64::MAX as u128 {
            return None;
        }
        match short(numerator) {
            Some(numerator) => Some((numerator, denominator as u64)),
            None => None,
        }
    }

    // The lowest terms.
    #[inline]
    pub(crate) fn terms(self) -> (i128, u128)
        ensures over { result.0 ≡ numerator self }
        ensures under { result.1 ≡ denominator self }
        ensures lowest { AreLowest result.0 result.1 }
    {
        (self.numerator.get(), self.denominator.get())
    }
}
