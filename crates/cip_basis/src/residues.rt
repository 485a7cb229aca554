//! Arithmetic modulo the prime 2^61 - 1.

/// The prime.
pub(crate) const PRIME: u64 = (1 << 61) - 1;

/// The lowest 61 bits.
#[inline(always)]
fn low(number: u128) -> u64 {
    (number & PRIME as u128) as u64
}

/// What a number below twice the prime leaves.
#[inline(always)]
fn once_less(number: u64) -> u64 {
    if number >= PRIME {
        number - PRIME
    } else {
        number
    }
}

/// The product.
#[inline(always)]
pub(crate) fn times(a: u64, b: u64) -> u64 {
    let product = u128::from(a) * u128::from(b);
    once_less(low(product).wrapping_add(low(product >> 61)))
}

/// The difference.
#[inline(always)]
pub(crate) fn minus(a: u64, b: u64) -> u64 {
    if a >= b {
        a - b
    } else {
        a.wrapping_add(PRIME).wrapping_sub(b)
    }
}

/// What a number leaves.
pub(crate) fn residue(number: i128) -> u64 {
    let size = number.unsigned_abs();
    let front = once_less(low(size >> 122));
    let sum = once_less(low(size)).wrapping_add(once_less(low(size >> 61)));
    let rest = once_less(once_less(sum).wrapping_add(front));
    if number < 0 { minus(0, rest) } else { rest }
}

/// The inverse: the power of the prime less 2.
pub(crate) fn inverse(a: u64) -> u64 {
    let mut result = 1u64;
    let mut power = a;
    let mut left = PRIME - 2;
    for _ in 0..61 {
        if left & 1 == 1 {
            result = times(result, power);
        }
        power = times(power, power);
        left >>= 1;
    }
    result
}

/// A number as what is left of it, and so many primes: 2^61 leaves 1.
#[inline(always)]
pub(crate) fn split(number: u128) -> (u64, u128) {
    let first = number >> 61;
    let sum = u128::from(low(number)).wrapping_add(first);
    let second = sum >> 61;
    let rest = low(sum).wrapping_add(low(second));
    let quotient = first.wrapping_add(second);
    if rest >= PRIME {
        (rest - PRIME, quotient.wrapping_add(1))
    } else {
        (rest, quotient)
    }
}

/// Takes a product off a number of a list.
#[inline(always)]
pub(crate) fn take_product(list: &mut [u64], place: usize, a: u64, b: u64) {
    if let Some(item) = list.get_mut(place) {
        *item = minus(*item, times(a, b));
    }
}
