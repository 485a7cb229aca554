// The greatest common divisor: over 64 bits by halving and differences, where both numbers fit, and above by
// remainders until they do.
ghost use Rattle.std.specs.Prelude.{◌≡◌, ℕ, ◌<◌, ◌%◌};
ghost use Rattle.std.specs.Int.{IsGcd};

// Of two odd numbers: the difference is even, and its halves have the same common divisors with an odd number.
#[inline]
fn odd_gcd(a: u64, b: u64) -> u64
    requires first { a % 2 ≡ 1 }
    requires second { b % 2 ≡ 1 }
    ensures { IsGcd a b result }
{
    let mut x = a;
    let mut y = b;
    while x != y {
        let rest = x.abs_diff(y);
        y = x.min(y);
        x = rest >> rest.trailing_zeros();
    }
    x
}

#[inline]
fn stripped_gcd(a: u64, b: u64) -> u64
    requires first { 0 < a }
    requires second { 0 < b }
    ensures { IsGcd a b result }
{
    let first = a.trailing_zeros();
    let second = b.trailing_zeros();
    odd_gcd(a >> first, b >> second) << first.min(second)
}

// Where one number is much greater, one remainder saves many halvings.
#[inline]
fn narrowed(a: u64, b: u64) -> (u64, u64)
    requires first { 0 < a }
    requires second { 0 < b }
    ensures some { 0 < result.0 }
    ensures same { (g : ℕ) → IsGcd result.0 result.1 g → IsGcd a b g }
{
    if a >> 16 > b {
        (b, a % b)
    } else if b >> 16 > a {
        (a, b % a)
    } else {
        (a, b)
    }
}

/// The greatest common divisor; of 0 and a number, that number.
#[inline]
pub fn short_gcd(a: u64, b: u64) -> u64
    ensures { IsGcd a b result }
{
    if a <= 1 {
        return if a == 0 { b } else { 1 };
    }
    if b <= 1 {
        return if b == 0 { a } else { 1 };
    }
    let (low, rest) = narrowed(a, b);
    if rest == 0 {
        return low;
    }
    stripped_gcd(low, rest)
}

// Of two denominators, which are often equal.
#[inline]
pub(crate) fn denominators_gcd(b: u64, d: u64) -> u64
    ensures { IsGcd b d result }
{
    if b == d { b } else { short_gcd(b, d) }
}

#[inline(never)]
fn long_gcd(a: u128, b: u128) -> u128
    ensures { IsGcd a b result }
{
    let mut x = a;
    let mut y = b;
    while y > u64::MAX as u128 {
        let rest = x % y;
        x = y;
        y = rest;
    }
    if y == 0 {
        return x;
    }
    short_gcd(y as u64, (x % y) as u64) as u128
}

#[inline]
pub(crate) fn gcd(a: u128, b: u128) -> u128
    ensures { IsGcd a b result }
{
    if a <= u64::MAX as u128 && b <= u64::MAX as u128 {
        short_gcd(a as u64, b as u64) as u128
    } else {
        long_gcd(a, b)
    }
}
