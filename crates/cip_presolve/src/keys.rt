//! Numbers of rows by which those with equal terms stand side by side: hints, of which nothing is promised.
ghost use Rattle.std.specs.Prelude.{length, ◌<◌, ◌^◌};

use cip_lin::Row;
use std::alloc::{AllocError, Global};

/// A fingerprint with a number mixed in.
#[inline]
fn mixed(print: u64, number: u64) -> u64 {
    (print ^ number)
        .wrapping_mul(0x9E37_79B9_7F4A_7C15)
        .rotate_left(29)
}

/// The fingerprint of a row's terms, and behind it the row's number.
fn key_of(row: &Row, number: u32) -> u128 {
    let mut print = 0xCBF2_9CE4_8422_2325u64;
    for term in row.terms() {
        let over = (term.coef.numerator().unsigned_abs() & 0xFFFF_FFFF_FFFF_FFFF) as u64;
        let under = (term.coef.denominator().unsigned_abs() & 0xFFFF_FFFF_FFFF_FFFF) as u64;
        let sign = u64::from(term.coef.is_negative());
        print = mixed(print, u64::from(term.col));
        print = mixed(mixed(mixed(print, over), under), sign);
    }
    u128::from(print)
        .wrapping_mul(1 << 32)
        .wrapping_add(u128::from(number))
}

/// The keys of the rows of two terms and more, in rising order; `Err` where the memory for them was refused.
pub(crate) fn sorted_keys(alloc: Global, rows: &[Row]) -> Result<Vec<u128>, AllocError>
    requires { length rows.now < 2 ^ 32 }
{
    let mut keys = Vec::new(alloc);
    for number in 0..rows.len() {
        if rows[number].terms().len() < 2 {
            continue;
        }
        keys.push(key_of(&rows[number], number as u32))?;
    }
    keys.sort()?;
    Ok(keys)
}
