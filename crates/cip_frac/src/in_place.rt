// Sums and products for loops: they write in place, and answer whether there was a value to write. What overflowed
// is told by `plus_product`, `add` or `mul` on the same numbers, which a loop calls once it has met it.
ghost use Rattle.std.specs.Prelude.{◌≡◌, Ok, IsErr, IfSome, MatchOption};
ghost use Rattle.std.specs.Bool.{MatchBool};
ghost use Rattle.cip_frac.specs.Outcomes.{sum_outcome, product_outcome, product_added};

use crate::bounded::short_total;
use crate::fraction::Frac;
use crate::operations::{Wide, product, sum};
use crate::words::{short_common, short_sum};

// A sum with a product added, of whole numbers, the factors of 64 bits.
#[inline]
fn whole_number_step(start: Frac, left: &Frac, right: &Frac) -> Option<Frac>
    ensures { IfSome result (λ value. product_added start left.now right.now ≡ Ok value) }
{
    let (n, m) = start.terms();
    let (a, b) = left.terms();
    let (c, d) = right.terms();
    if m | b | d != 1 {
        return None;
    }
    match short_total(n, a, c) {
        Some(total) => Some(Frac::of_lowest(total, 1)),
        None => None,
    }
}

// A sum with a product added, where over the product of the denominators all of it fits in 64 bits. It is
// reduced once.
#[inline]
fn fraction_step(start: Frac, left: &Frac, right: &Frac) -> Option<Frac>
    ensures { IfSome result (λ value. product_added start left.now right.now ≡ Ok value) }
{
    let Some((n, m)) = start.short_terms() else {
        return None;
    };
    let Some((a, b)) = left.short_terms() else {
        return None;
    };
    let Some((c, d)) = right.short_terms() else {
        return None;
    };
    let Some(over) = a.checked_mul(c) else {
        return None;
    };
    let Some(under) = short_common(b, d) else {
        return None;
    };
    match short_sum(n, m, over, under) {
        Some((total, common)) => Some(Frac::reduced(total, common)),
        None => None,
    }
}

// A sum with a product added, for any numbers.
#[inline(never)]
fn sum_with_product(start: Frac, left: &Frac, right: &Frac) -> Option<Frac>
    ensures { MatchOption result (IsErr (product_added start left.now right.now))
        (λ value. product_added start left.now right.now ≡ Ok value) }
{
    if let Some(value) = fraction_step(start, left, right) {
        return Some(value);
    }
    let Some(product) = product(*left, *right) else {
        return None;
    };
    sum(start, product)
}

impl Frac {
    /// Adds a number: `true`, and this one is the exact sum, where `add` has a value. Where it answers `Wide`:
    /// `false`, and this one stays as it is.
    #[inline]
    pub fn add_assign(&mut self, other: Frac) -> bool
        ensures { MatchBool result (sum_outcome self.old other ≡ Ok self.new)
            (IsErr (sum_outcome self.old other) × (self.new ≡ self.old)) }
    {
        let Some(value) = sum(*self, other) else {
            return false;
        };
        *self = value;
        true
    }

    /// Multiplies by a number: `true`, and this one is the exact product, where `mul` has a value. Where it answers
    /// `Wide`: `false`, and this one stays as it is.
    #[inline]
    pub fn mul_assign(&mut self, other: Frac) -> bool
        ensures { MatchBool result (product_outcome self.old other ≡ Ok self.new)
            (IsErr (product_outcome self.old other) × (self.new ≡ self.old)) }
    {
        let Some(value) = product(*self, other) else {
            return false;
        };
        *self = value;
        true
    }

    /// Adds the product of two numbers, the product formed first: `true`, and this one is the exact sum, where
    /// neither overflows. Else: `false`, and this one stays as it is; `plus_product` says what overflows.
    #[inline(always)]
    pub fn add_product(&mut self, left: &Frac, right: &Frac) -> bool
        ensures { MatchBool result (product_added self.old left.now right.now ≡ Ok self.new)
            (IsErr (product_added self.old left.now right.now) × (self.new ≡ self.old)) }
    {
        if let Some(value) = whole_number_step(*self, left, right) {
            *self = value;
            return true;
        }
        let Some(value) = sum_with_product(*self, left, right) else {
            return false;
        };
        *self = value;
        true
    }

    /// The exact sum with the product of two numbers, the product formed first. `Wide` comes exactly where one of
    /// the two operations overflows, and names the first.
    #[inline(never)]
    pub fn plus_product(self, left: Frac, right: Frac) -> Result<Frac, Wide>
        ensures { result ≡ product_added self left right }
    {
        let product = left.mul(right)?;
        self.add(product)
    }
}
