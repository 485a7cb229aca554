// Arithmetic on integers below 2^127 in magnitude, so that -2^127 is left out.
//
// Each function first takes the short way for operands of 64 bits.
ghost use Rattle.std.specs.Prelude.{◌≡◌, ◌+◌, ◌*◌, ◌/◌, ◌<◌, ◌≤◌, ◌^◌, IsTrue, pos, ◌+ℤ◌, ◌*ℤ◌, unsigned_abs, int_div, SomeIff, IfSome};
ghost use Rattle.std.specs.Int.{int_div_euclid};

use crate::words::{short, whole_step, wide_product};

const SHORT: u128 = 0x1_0000_0000_0000_0000;

const SHORT_LEAST: i128 = -0x7FFF_FFFF_FFFF_FFFF;

const SHORT_MOST: i128 = 0x7FFF_FFFF_FFFF_FFFF;

const MIDDLE_LEAST: i128 = -0x2000_0000_0000_0000_0000_0000_0000_0000;

const MIDDLE_MOST: i128 = 0x1FFF_FFFF_FFFF_FFFF_FFFF_FFFF_FFFF_FFFF;

pub(crate) const LARGEST: u128 = 0x7FFF_FFFF_FFFF_FFFF_FFFF_FFFF_FFFF_FFFF;

#[inline]
fn is_short(a: i128) -> bool
    ensures { IsTrue result → unsigned_abs a < 2 ^ 63 }
{
    SHORT_LEAST <= a && a <= SHORT_MOST
}

#[inline]
pub(crate) fn bounded_sum(a: i128, b: i128) -> Option<i128>
    ensures { SomeIff result (unsigned_abs (a +ℤ b) < 2 ^ 127) (a +ℤ b) }
{
    match a.checked_add(b) {
        Some(sum) if sum != i128::MIN => Some(sum),
        _ => None,
    }
}

#[inline]
pub(crate) fn bounded_product(a: i128, b: i128) -> Option<i128>
    ensures { SomeIff result (unsigned_abs a * unsigned_abs b < 2 ^ 127) (a *ℤ b) }
{
    if let Some(left) = short(a) {
        if let Some(right) = short(b) {
            return Some(wide_product(left, right));
        }
    }
    match a.checked_mul(b) {
        Some(product) if product != i128::MIN => Some(product),
        _ => None,
    }
}

// n + a * c, where a and c fit in 64 bits, and n in 126.
#[inline]
pub(crate) fn short_total(n: i128, a: i128, c: i128) -> Option<i128>
    ensures { IfSome result (λ total. (unsigned_abs (a *ℤ c) < 2 ^ 127)
        × (unsigned_abs (n +ℤ a *ℤ c) < 2 ^ 127) × (total ≡ n +ℤ a *ℤ c)) }
{
    let Some(left) = short(a) else {
        return None;
    };
    let Some(right) = short(c) else {
        return None;
    };
    if MIDDLE_LEAST <= n && n <= MIDDLE_MOST {
        Some(whole_step(n, left, right))
    } else {
        None
    }
}

// The product of a numerator and a part of a denominator.
#[inline]
pub(crate) fn raised(a: i128, k: u128) -> Option<i128>
    requires { k < 2 ^ 127 }
    ensures { SomeIff result (unsigned_abs a * k < 2 ^ 127) (a *ℤ pos k) }
{
    bounded_product(a, k as i128)
}

// The product of two denominators.
#[inline]
pub(crate) fn bounded_common(a: u128, b: u128) -> Option<u128>
    ensures { SomeIff result (a * b < 2 ^ 127) (a * b) }
{
    if a < SHORT && b < SHORT {
        let product = a * b;
        return if product <= LARGEST {
            Some(product)
        } else {
            None
        };
    }
    match a.checked_mul(b) {
        Some(product) if product <= LARGEST => Some(product),
        _ => None,
    }
}

#[inline]
pub(crate) fn part_of(a: u128, g: u128) -> u128
    requires { 0 < g }
    ensures { result ≡ a / g }
{
    if g == 1 {
        a
    } else if a < SHORT && g < SHORT {
        (a as u64 / g as u64) as u128
    } else {
        a / g
    }
}

#[inline]
pub(crate) fn signed_part_of(a: i128, g: u128) -> i128
    requires positive { 0 < g }
    requires bounded { g < 2 ^ 127 }
    ensures { result ≡ int_div a (pos g) }
{
    if g == 1 {
        a
    } else if is_short(a) && g <= SHORT_MOST as u128 {
        (a as i64 / g as i64) as i128
    } else {
        a / g as i128
    }
}

// The quotient rounded down.
#[inline]
pub(crate) fn floor_part_of(a: i128, g: u128) -> i128
    requires positive { 0 < g }
    requires bounded { g < 2 ^ 127 }
    ensures value { result ≡ int_div_euclid a (pos g) }
    ensures no_greater { unsigned_abs result ≤ unsigned_abs a }
{
    if g == 1 {
        a
    } else if is_short(a) && g <= SHORT_MOST as u128 {
        (a as i64).div_euclid(g as i64) as i128
    } else {
        a.div_euclid(g as i128)
    }
}
