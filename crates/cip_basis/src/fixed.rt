//! Numbers over 2^32, in 64 bits. They are rounded, and where one would be too great there is none: nothing is said of
//! their values.
use crate::stops::Stop;
use cip_lin::Frac;

/// The bits behind the point.
pub(crate) const BITS: u32 = 32;

/// 1.
pub(crate) const UNIT: i64 = 1 << 32;

/// What sizes of entries, values and sides stay below.
pub(crate) const MOST: i64 = 1 << 60;

/// A side that isn't there; below 0 a low one.
pub(crate) const OPEN: i64 = 1 << 62;

/// Entries of a lesser size become 0.
const DROP: u64 = 1 << 6;

// Half of what rounds up.
const HALF: i128 = 1 << 31;

/// How many bits the size of a number has.
pub(crate) fn bit_length(size: u128) -> i32 {
    128i32.wrapping_sub(i32::try_from(size.leading_zeros()).unwrap_or(0))
}

/// How many bits the size of a number of 64 bits has.
pub(crate) fn short_bit_length(size: u64) -> i32 {
    64i32.wrapping_sub(i32::try_from(size.leading_zeros()).unwrap_or(0))
}

/// The number in 64 bits, where its size is below the most.
#[inline(always)]
pub(crate) fn kept(number: i128) -> Result<i64, Stop> {
    if -(MOST as i128) < number && number < MOST as i128 {
        Ok(number as i64)
    } else {
        Err(Stop::GaveUp)
    }
}

/// The number in 64 bits, where it fits, else 0.
#[inline(always)]
pub(crate) fn narrow(number: i128) -> i64 {
    if i64::MIN as i128 <= number && number <= i64::MAX as i128 {
        number as i64
    } else {
        0
    }
}

/// The product of two numbers, longer than one.
#[inline(always)]
pub(crate) fn long_product(a: i64, b: i64) -> i128 {
    (a as i128 * b as i128) >> BITS
}

/// The product of two numbers, rounded.
pub(crate) fn product(a: i64, b: i64) -> Result<i64, Stop> {
    kept((a as i128 * b as i128).wrapping_add(HALF) >> BITS)
}

/// The quotient of two numbers.
pub(crate) fn quotient(a: i64, b: i64) -> Result<i64, Stop> {
    match ((a as i128) << BITS).checked_div(b as i128) {
        Some(value) => kept(value),
        None => Err(Stop::GaveUp),
    }
}

/// The quotient of the sizes of two numbers, but no more than that of an open side.
pub(crate) fn ratio(a: i64, b: i64) -> i64 {
    let (over, under) = (a.unsigned_abs(), b.unsigned_abs());
    match (u128::from(over) << BITS).checked_div(u128::from(under)) {
        Some(value) if value < OPEN as u128 => value as i64,
        _ => OPEN,
    }
}

/// A number with the product of two others added; a small one becomes 0.
#[inline(always)]
pub(crate) fn step(number: i64, a: i64, b: i64) -> i64 {
    let more = narrow((a as i128 * b as i128).wrapping_add(HALF) >> BITS);
    let sum = number.wrapping_add(more);
    if sum.unsigned_abs() < DROP { 0 } else { sum }
}

/// The order of magnitude of a fraction: its bits less those below.
pub(crate) fn order(value: Frac) -> i32 {
    let over = bit_length(value.numerator().unsigned_abs());
    let under = bit_length(value.denominator().unsigned_abs());
    over.wrapping_sub(under)
}

/// A number times a power of two, where it has so few bits that nothing is lost; divided by it where that is below 1.
pub(crate) fn raised(number: i128, power: i32) -> i128 {
    match u32::try_from(power) {
        Ok(up) => number.wrapping_shl(up),
        Err(_) => number.unbounded_shr(u32::try_from(power.wrapping_neg()).unwrap_or(0)),
    }
}

/// A fraction times a power of two, where it isn't too great.
pub(crate) fn fixed(value: Frac, up: i32) -> Result<i64, Stop> {
    let (p, q) = (value.numerator(), value.denominator());
    if p == 0 {
        return Ok(0);
    }
    let power = up.wrapping_add(32);
    let over = bit_length(p.unsigned_abs()).wrapping_add(power);
    let under = bit_length(q.unsigned_abs());
    if over.wrapping_sub(under) > 58 {
        return Err(Stop::GaveUp);
    }
    let cut = over.wrapping_sub(126).max(0);
    let shortened = raised(q, cut.wrapping_neg());
    let lifted = if power < 0 {
        0
    } else {
        power.wrapping_sub(cut)
    };
    match raised(p, lifted).checked_div(shortened) {
        Some(whole) => kept(if power < 0 {
            raised(whole, power)
        } else {
            whole
        }),
        None => Ok(0),
    }
}
