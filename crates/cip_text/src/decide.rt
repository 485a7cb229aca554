//! The number of digits and an exponent.
ghost use Rattle.std.specs.Prelude.{◌≡◌, ◌+◌, ◌-◌, ◌<◌, ◌≤◌, ◌++◌, length, true, if◌then◌else◌};
ghost use Rattle.std.specs.Char.{is_ascii_digit};
ghost use Rattle.std.specs.List.{list_all};
ghost use Rattle.cip_rational.specs.Range.{largest};
ghost use Rattle.cip_rational.specs.Numeral as text;
ghost use Rattle.cip_text.specs.Readings.{said};

use crate::digits::{LARGEST, grow, number_of_first, with_zeros, zeros_at_both_ends};
use crate::reading::Reading;

pub(crate) const ZERO: Reading = Reading::Fits {
    negative: false,
    size: 0,
    below: 1,
};

/// A size of at most 2^127-1 times 10 ^ (up - down).
fn short(negative: bool, size: u128, up: u128, down: u128) -> Reading
    requires some { 0 < size }
    requires small { size ≤ largest }
    ensures { said result ≡ text.scaled negative size up down }
{
    if down > up {
        return match with_zeros(1, down - up) {
            None => Reading::Fine,
            Some(below) => Reading::Fits {
                negative,
                size,
                below,
            },
        };
    }
    match with_zeros(size, up - down) {
        None => Reading::Large { negative },
        Some(size) => Reading::Fits {
            negative,
            size,
            below: 1,
        },
    }
}

/// A size above 2^127-1, that of the first `kept` digits, times 10 ^ (up - down).
fn long(negative: bool, whole: &[u8], decimals: &[u8], kept: usize, up: u128, down: u128) -> Reading
    requires are_digits { list_all is_ascii_digit (whole.now ++ decimals.now) ≡ true }
    requires kept_are { kept + text.zeros_at_end (whole.now ++ decimals.now) ≡ length (whole.now ++ decimals.now) }
    requires large { largest < text.size_of (whole.now ++ decimals.now) }
    ensures { said result ≡ text.scaled negative (text.size_of (whole.now ++ decimals.now)) up down }
{
    if down <= up {
        return Reading::Large { negative };
    }
    let places = down - up;
    if places >= kept as u128 {
        return Reading::Fine;
    }
    match number_of_first(whole, decimals, kept - places as usize) {
        Some(head) if head < LARGEST => Reading::Fine,
        _ => Reading::Large { negative },
    }
}

/// The digits on both sides of a point, times 10 ^ (up - down).
fn decide(negative: bool, whole: &[u8], decimals: &[u8], up: u128, down: u128) -> Reading
    requires are_digits { list_all is_ascii_digit (whole.now ++ decimals.now) ≡ true }
    requires small_up { up ≤ largest }
    requires small_down { down ≤ largest }
    ensures { said result ≡ text.scaled negative (text.size_of (whole.now ++ decimals.now))
        (up + text.zeros_at_end (whole.now ++ decimals.now)) (down + length decimals.now) }
{
    let zeros = zeros_at_both_ends(whole, decimals);
    let kept = whole.len() + decimals.len() - zeros;
    if kept == 0 {
        return ZERO;
    }
    let all_up = up + zeros as u128;
    let all_down = down + decimals.len() as u128;
    match number_of_first(whole, decimals, kept) {
        None => long(negative, whole, decimals, kept, all_up, all_down),
        Some(size) => short(negative, size, all_up, all_down),
    }
}

/// The digits on both sides of a point, with the digits of an exponent.
pub(crate) fn with_exponent(
    negative: bool,
    whole: &[u8],
    decimals: &[u8],
    is_down: bool,
    exponent: &[u8],
) -> Reading
    requires are_digits { list_all is_ascii_digit (whole.now ++ decimals.now) ≡ true }
    requires is_exponent { list_all is_ascii_digit exponent.now ≡ true }
    ensures { said result ≡ text.scaled negative (text.size_of (whole.now ++ decimals.now))
        ((if is_down then 0 else text.digits_value exponent.now) + text.zeros_at_end (whole.now ++ decimals.now))
        ((if is_down then text.digits_value exponent.now else 0) + length decimals.now) }
{
    match grow(0, exponent) {
        None => {
            let zeros = zeros_at_both_ends(whole, decimals);
            if zeros == whole.len() + decimals.len() {
                ZERO
            } else if is_down {
                Reading::Fine
            } else {
                Reading::Large { negative }
            }
        }
        Some(amount) if is_down => decide(negative, whole, decimals, 0, amount),
        Some(amount) => decide(negative, whole, decimals, amount, 0),
    }
}
