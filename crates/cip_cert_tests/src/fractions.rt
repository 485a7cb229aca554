//! Fractions: what no clause says, with figures from outside.
use cip_frac::{Frac, FracFault, Operation};

const HALF_LEAST: i128 = -0x4000_0000_0000_0000_0000_0000_0000_0000;

const GREATEST: i128 = 0x7FFF_FFFF_FFFF_FFFF_FFFF_FFFF_FFFF_FFFF;

const SHORT: i128 = 0x1_0000_0000_0000_0000;

/// A numerator and a denominator.
type Parts = (i128, i128);

fn fraction(parts: Parts) -> Option<Frac> {
    Frac::new(parts.0, parts.1).ok()
}

fn is_fraction(value: Frac, parts: Parts) -> bool {
    value.numerator() == parts.0 && value.denominator() == parts.1
}

/// Two integers, and the parts of their fraction.
static MADE: [(Parts, Result<Parts, FracFault>); 4] = [
    ((i128::MIN, 2), Ok((HALF_LEAST, 1))),
    ((6, -4), Ok((-3, 2))),
    ((1, 0), Err(FracFault::ZeroBelow)),
    ((i128::MIN, 1), Err(FracFault::Wide)),
];

fn is_made((p, q): Parts, want: Result<Parts, FracFault>) -> bool {
    match (Frac::new(p, q), want) {
        (Ok(value), Ok(parts)) => is_fraction(value, parts),
        (Err(fault), Err(wanted)) => fault == wanted,
        _ => false,
    }
}

/// A fraction, and what it is rounded down and up.
static ROUNDED: [(Parts, i128, i128); 3] = [((-1, 2), -1, 0), ((7, 2), 3, 4), ((5, 1), 5, 5)];

fn is_rounded(parts: Parts, low: i128, high: i128) -> bool {
    let Some(x) = fraction(parts) else {
        return false;
    };
    x.floor() == low
        && x.ceil() == high
        && is_fraction(x.rounded_down(), (low, 1))
        && is_fraction(x.rounded_up(), (high, 1))
        && x.rounded_down().is_whole()
}

/// -7/2 has the sign and the size that it has.
fn has_its_sign() -> bool {
    let Some(x) = fraction((-7, 2)) else {
        return false;
    };
    x.is_negative()
        && !x.is_positive()
        && !x.is_zero()
        && !x.is_whole()
        && x.abs() == x.neg()
        && Frac::whole(5) == Ok(Frac::from(5i64))
}

#[test]
fn from_two_integers(rt: HostRuntime) {
    for at in 0..MADE.len() {
        assert!(rt; is_made(MADE[at].0, MADE[at].1), "case {at}");
    }
    for at in 0..ROUNDED.len() {
        let (parts, low, high) = ROUNDED[at];
        assert!(rt; is_rounded(parts, low, high), "case {at}");
    }
    assert!(rt; has_its_sign());
}

/// Two fractions and their sum.
static SUMS: [(Parts, Parts, Option<Parts>); 4] = [
    ((1, 3), (1, 6), Some((1, 2))),
    ((-HALF_LEAST, 1), (-HALF_LEAST, 1), None),
    ((GREATEST, 2), (GREATEST, 2), None),
    ((1, SHORT), (1, SHORT + 1), None),
];

fn is_sum(left: Parts, right: Parts, want: Option<Parts>) -> bool {
    let (Some(x), Some(y)) = (fraction(left), fraction(right)) else {
        return false;
    };
    match (x.add(y), want) {
        (Ok(sum), Some(parts)) => is_fraction(sum, parts),
        (Err(wide), None) => wide.op == Operation::Sum,
        _ => false,
    }
}

/// The greatest number halved, and its inverse.
fn are_inverse() -> bool {
    let (Some(x), Some(y)) = (fraction((GREATEST, 2)), fraction((2, GREATEST))) else {
        return false;
    };
    x.mul(y) == Ok(Frac::one())
        && !x.is_zero()
        && x.div(x) == Ok(Frac::one())
        && x.sub(x) == Ok(Frac::zero())
        && y < x
}

#[test]
fn operations(rt: HostRuntime) {
    for at in 0..SUMS.len() {
        let (left, right, want) = SUMS[at];
        assert!(rt; is_sum(left, right, want), "case {at}");
    }
    assert!(rt; are_inverse());
}

/// A number, two factors, and the number with their product added.
static GROWN: [(Parts, Parts, Parts, Option<Parts>); 5] = [
    ((1, 1), (2, 1), (-3, 1), Some((-5, 1))),
    ((1, 2), (1, 3), (3, 4), Some((3, 4))),
    ((1, 1), (SHORT, 1), (3, 1), Some((3 * SHORT + 1, 1))),
    ((GREATEST, 1), (1, 1), (1, 1), None),
    ((-1, 1), (GREATEST, 1), (2, 1), None),
];

fn grows(first: Frac, x: Frac, y: Frac, want: Option<Parts>) -> bool {
    let mut sum = first;
    let is_written = sum.add_product(&x, &y);
    match want {
        Some(parts) => is_written && is_fraction(sum, parts),
        None => !is_written && sum == first && first.plus_product(x, y).is_err(),
    }
}

fn is_grown(start: Parts, left: Parts, right: Parts, want: Option<Parts>) -> bool {
    match (fraction(start), fraction(left), fraction(right)) {
        (Some(first), Some(x), Some(y)) => grows(first, x, y, want),
        _ => false,
    }
}

/// 2/3 times 3/4, and 1/2 more.
fn becomes_one() -> bool {
    let (Some(mut x), Some(factor), Some(half)) = (
        fraction((2, 3)),
        fraction((3, 4)),
        fraction((1, 2)),
    ) else {
        return false;
    };
    x.mul_assign(factor) && x == half && x.add_assign(half) && x == Frac::one()
}

#[test]
fn in_place(rt: HostRuntime) {
    for at in 0..GROWN.len() {
        let (start, left, right, want) = GROWN[at];
        assert!(rt; is_grown(start, left, right, want), "case {at}");
    }
    assert!(rt; becomes_one());
}

/// A fraction and its text.
static TEXTS: [(Parts, &str); 3] = [((-3, 7), "-3/7"), ((5, 1), "5"), ((0, 9), "0")];

fn is_written(parts: Parts, want: &str) -> bool {
    let Some(x) = fraction(parts) else {
        return false;
    };
    let mut buffer = [0u8; 84];
    let end = x.write_into(&mut buffer);
    &buffer[..end] == want.as_bytes()
}

#[test]
fn texts(rt: HostRuntime) {
    for at in 0..TEXTS.len() {
        assert!(rt; is_written(TEXTS[at].0, TEXTS[at].1), "case {at}");
    }
}
