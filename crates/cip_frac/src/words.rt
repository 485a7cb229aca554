// Arithmetic on integers of 64 bits, whose sums of two products fit in 128 bits.
ghost use Rattle.std.specs.Prelude.{◌≡◌, ◌*◌, ◌/◌, ◌<◌, ◌≤◌, ◌^◌, pos, ◌+ℤ◌, ◌*ℤ◌, unsigned_abs, int_div, IfSome};
ghost use Rattle.cip_rational.specs.Rational.{◌+ℚ◌, ratio};

// The integer in 64 bits, where it fits.
#[inline]
pub(crate) fn short(a: i128) -> Option<i64>
    ensures { IfSome result (λ word. (word ≡ a) × (unsigned_abs a ≤ 2 ^ 63)) }
{
    if i64::MIN as i128 <= a && a <= i64::MAX as i128 {
        Some(a as i64)
    } else {
        None
    }
}

// n + a * c
#[inline]
pub(crate) fn whole_step(n: i128, a: i64, c: i64) -> i128
    requires { unsigned_abs n < 2 ^ 126 }
    ensures value { result ≡ n +ℤ a *ℤ c }
    ensures small_product { unsigned_abs (a *ℤ c) < 2 ^ 127 }
    ensures small { unsigned_abs result < 2 ^ 127 }
{
    n + a as i128 * c as i128
}

// The product of two denominators, where it is below 2^63.
#[inline]
pub(crate) fn short_common(b: u64, d: u64) -> Option<u64>
    ensures { IfSome result (λ common. (common ≡ b * d) × (common < 2 ^ 63)) }
{
    match b.checked_mul(d) {
        Some(common) if common <= i64::MAX as u64 => Some(common),
        _ => None,
    }
}

// The terms of n / m + p / q over one denominator, not reduced, where they fit in 64 bits.
#[inline]
pub(crate) fn short_sum(n: i64, m: u64, p: i64, q: u64) -> Option<(i64, u64)>
    requires positive { 0 < m }
    requires other_positive { 0 < q }
    requires small { m < 2 ^ 63 }
    requires other_small { q < 2 ^ 63 }
    ensures { IfSome result (λ terms. (0 < terms.1) × (ratio terms.0 terms.1 ≡ ratio n m +ℚ ratio p q)) }
{
    if m == q {
        return match n.checked_add(p) {
            Some(total) => Some((total, m)),
            None => None,
        };
    }
    let Some(first) = n.checked_mul(q as i64) else {
        return None;
    };
    let Some(second) = p.checked_mul(m as i64) else {
        return None;
    };
    let Some(total) = first.checked_add(second) else {
        return None;
    };
    match m.checked_mul(q) {
        Some(common) => Some((total, common)),
        None => None,
    }
}

#[inline]
pub(crate) fn short_part_of(a: u64, g: u64) -> u64
    requires { 0 < g }
    ensures { result ≡ a / g }
{
    if g == 1 {
        a
    } else if g == a {
        1
    } else {
        a / g
    }
}

#[inline]
pub(crate) fn short_signed_part_of(a: i64, g: u64) -> i64
    requires positive { 0 < g }
    requires bounded { g < 2 ^ 63 }
    ensures { result ≡ int_div a (pos g) }
{
    if g == 1 { a } else { a / g as i64 }
}

#[inline]
pub(crate) fn wide_product(a: i64, c: i64) -> i128
    ensures value { result ≡ a *ℤ c }
    ensures small { unsigned_abs (a *ℤ c) < 2 ^ 127 }
{
    a as i128 * c as i128
}

#[inline]
pub(crate) fn wide_common(b: u64, d: u64) -> u128
    ensures { result ≡ b * d }
{
    b as u128 * d as u128
}

// a * o + c * u
#[inline]
pub(crate) fn cross_sum(a: i64, o: u64, c: i64, u: u64) -> i128
    requires first { o < 2 ^ 63 }
    requires second { u < 2 ^ 63 }
    ensures { result ≡ a *ℤ pos o +ℤ c *ℤ pos u }
{
    wide_product(a, o as i64) + wide_product(c, u as i64)
}
