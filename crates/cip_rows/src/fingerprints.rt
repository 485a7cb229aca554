//! Fingerprints of rows: equal rows have the same.
ghost use Rattle.std.specs.Prelude.{◌≡◌, ◌<◌, ◌^◌, ◌%◌};
ghost use Rattle.cip_rows.specs.Mixed.{modulus, mixed, with_number, fingerprint};

use cip_cert::{Frac, Row};

// A prime below 2^32, so that no product overflows.
const MODULUS: u64 = 4_294_967_291;

/// A number mixed into another one.
fn mix(from: u64, more: u64) -> u64
    requires from { from < modulus }
    requires more { more < 2 ^ 32 }
    ensures value { result ≡ mixed from more }
    ensures below { result < modulus }
{
    (from * 1_000_003 + more) % MODULUS
}

/// The remainder of a magnitude.
fn reduced(magnitude: u128) -> u64
    ensures value { result ≡ magnitude % modulus }
    ensures below { result < 2 ^ 32 }
{
    (magnitude % MODULUS as u128) as u64
}

/// A fraction mixed into a number.
fn mix_number(from: u64, number: Frac) -> u64
    requires { from < modulus }
    ensures value { result ≡ with_number from number }
    ensures below { result < modulus }
{
    let over = reduced(number.numerator().unsigned_abs());
    let under = reduced(number.denominator().unsigned_abs());
    mix(mix(from, over), under)
}

/// The fingerprint of a row: a number made of its terms and its low side.
pub(crate) fn fingerprint(row: &Row) -> u64
    ensures { result ≡ fingerprint row.now }
{
    let mut from = 0;
    for term in row.terms() {
        from = mix_number(mix(from, u64::from(term.col)), term.coef);
    }
    match row.low() {
        None => from,
        Some(low) => mix_number(from, low),
    }
}
