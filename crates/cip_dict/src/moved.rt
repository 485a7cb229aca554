//! Values to which the product of a line's entry and a number is added.
ghost use Rattle.std.specs.Prelude.{◌≡◌, ◌*◌, ◌^◌, ◌<◌, pos, ◌+ℤ◌, ◌*ℤ◌, true, length, IfSome};
ghost use Rattle.cip_rational.specs.Rational.{ratio, numerator, denominator};
ghost use Rattle.cip_rational.specs.Range.{magnitude};
ghost use Rattle.cip_problem.specs.Activity.{value_at};
ghost use Rattle.cip_dict.specs.Values.{IsAdded};
ghost use Rattle.cip_dict.specs.WholeLines.{HasTermsBelow};

use crate::entries::{add_product, vanishes};
use crate::forms::Form;
use crate::kept::entry_of;
use crate::whole::{fraction, number_of};
use cip_frac::Frac;

/// Of numbers below this, the product of any three fits in 60 bits.
const SHORT: u64 = 1 << 20;

/// Numerator and denominator of a number, where both are below 2^20.
#[inline(always)]
fn short_terms(q: Frac) -> Option<(i64, u64)>
    ensures { IfSome result (λ terms. (terms.0 ≡ numerator q) × (terms.1 ≡ denominator q) × HasTermsBelow (2 ^ 20) q) }
{
    let a = q.numerator();
    let b = q.denominator();
    if a.unsigned_abs() < SHORT as u128 && b < SHORT as i128 {
        Some((a as i64, b as u64))
    } else {
        None
    }
}

/// a * c
#[inline(always)]
fn long_product(a: i64, c: i64) -> i64
    requires first { magnitude a < 2 ^ 40 }
    requires second { magnitude c < 2 ^ 20 }
    ensures value { result ≡ a *ℤ c }
    ensures short { magnitude result < 2 ^ 60 }
{
    a * c
}

/// Numerator and denominator of a / b + (n / below) * (c / d), not in lowest terms.
#[inline(always)]
fn terms_of_sum(a: i64, b: u64, c: i64, d: u64, n: i64, below: u64) -> (i64, u64)
    requires own { magnitude a < 2 ^ 20 }
    requires own_below { b < 2 ^ 20 }
    requires factor { magnitude c < 2 ^ 20 }
    requires factor_below { d < 2 ^ 20 }
    requires entry { magnitude n < 2 ^ 20 }
    requires entry_below { below < 2 ^ 20 }
    ensures over { result.0 ≡ pos (below * d) *ℤ a +ℤ n *ℤ c *ℤ pos b }
    ensures under { result.1 ≡ b * (below * d) }
    ensures short { magnitude result.0 < 2 ^ 61 }
{
    let under = below * d;
    let first = long_product(under as i64, a);
    let second = long_product(n * c, b as i64);
    (first + second, b * under)
}

/// The sum of a value and (n / below) * t, reduced once, where all terms are below 2^20.
#[inline(always)]
fn short_sum(value: Frac, n: i64, below: u64, t: Frac) -> Option<Frac>
    requires { 0 < below }
    ensures { IfSome result (IsAdded true value (ratio n below) t) }
{
    if n.unsigned_abs() >= SHORT || below >= SHORT {
        return None;
    }
    let Some((a, b)) = short_terms(value) else {
        return None;
    };
    let Some((c, d)) = short_terms(t) else {
        return None;
    };
    let (over, under) = terms_of_sum(a, b, c, d, n, below);
    match Frac::new(over as i128, under as i128) {
        Ok(sum) => Some(sum),
        Err(_) => None,
    }
}

/// Adds (n / below) * t to a value. Where n or t is 0, nothing is formed.
#[inline(always)]
fn add_over(value: &mut Frac, n: i64, below: u64, t: Frac) -> bool
    requires positive { 0 < below }
    requires small { below < 2 ^ 42 }
    ensures { IsAdded result value.old (ratio n below) t value.new }
{
    if n == 0 {
        return true;
    }
    match short_sum(*value, n, below, t) {
        Some(sum) => {
            *value = sum;
            true
        }
        None => add_product(value, fraction(n, below), t),
    }
}

impl Form {
    /// Adds the entry on a variable, times t, to a value, the product formed first; `false` where an operation leaves
    /// the range. Where a factor is 0, nothing is formed.
    #[inline]
    pub(crate) fn add_times(&self, k: u32, t: Frac, value: &mut Frac) -> bool
        requires { k < length self.now }
        ensures { IsAdded result value.old (value_at self.now k) t value.new }
    {
        if vanishes(t) {
            return true;
        }
        if self.is_whole {
            let n = number_of(self.wholes.as_slice(), k);
            add_over(value, n, self.below, t)
        } else {
            add_product(value, entry_of(self.entries.as_slice(), k), t)
        }
    }
}
