//! Lists of whole numbers over one denominator, each with its variable, by rising variable.
ghost use Rattle.std.specs.Prelude.{◌≡◌, ℕ, suc, ◌+◌, ◌^◌, ◌<◌, ◌≤◌, length, slice_index_or, OnOk};
ghost use Rattle.cip_rational.specs.Rational.{ratio};
ghost use Rattle.cip_rational.specs.Range.{magnitude};
ghost use Rattle.cip_dict.specs.SparseLines.{AreKept, IsPlace, IsNext};
ghost use Rattle.cip_dict.specs.WholeLines.{Whole, over, number_on, AreBelow, IsWhole};

use crate::listed::{place_from, stands_at};
use cip_frac::Frac;
use std::alloc::AllocError;

/// Whole numbers over one denominator.
#[derive(Clone, Copy)]
pub(crate) struct Wholes<'a> {
    pub(crate) numbers: &'a [(u32, i64)],
    pub(crate) below: u64,
}

/// n over d, as a fraction.
pub(crate) fn fraction(n: i64, d: u64) -> Frac
    requires positive { 0 < d }
    requires small { d < 2 ^ 42 }
    ensures { result ≡ ratio n d }
{
    if d == 1 {
        return Frac::from(n);
    }
    match Frac::new(n as i128, d as i128) {
        Ok(value) => value,
        Err(_) => Frac::zero(),
    }
}

/// The number on variable k.
pub(crate) fn number_of(wholes: &[(u32, i64)], k: u32) -> i64
    requires kept { (n : ℕ) × AreKept 0 n (over 1 wholes.now) }
    requires small { AreBelow (2 ^ 42) wholes.now }
    ensures value { result ≡ number_on wholes.now k }
    ensures small { magnitude result < 2 ^ 42 }
{
    let place = place_from(wholes, k);
    if stands_at(wholes, place, k) {
        wholes[place].1
    } else {
        0
    }
}

/// The variable at a place and the number on it, or `len` and 0 where there is none.
#[inline(always)]
fn head_at(wholes: &[(u32, i64)], place: usize, len: u32) -> (u32, i64)
    requires kept { AreKept 0 len (over 1 wholes.now) }
    requires small { AreBelow (2 ^ 42) wholes.now }
    ensures within { result.0 ≤ len }
    ensures first { (d : Whole) → place < length wholes.now → result ≡ slice_index_or wholes.now place d }
    ensures last { length wholes.now ≤ place → result.0 ≡ len }
    ensures small { magnitude result.1 < 2 ^ 42 }
{
    if place < wholes.len() {
        wholes[place]
    } else {
        (len, 0)
    }
}

/// The number on variable k, of which the place is known, and the place of the variable after k; `head` is the variable
/// and the number at that place.
#[inline(always)]
fn take_number(wholes: &[(u32, i64)], place: usize, head: (u32, i64), k: u32) -> (i64, usize)
    requires kept { (n : ℕ) × AreKept 0 n (over 1 wholes.now) }
    requires small { magnitude head.1 < 2 ^ 42 }
    requires there { head.0 ≡ k → place < length wholes.now }
    requires at { (d : Whole) → place < length wholes.now → head ≡ slice_index_or wholes.now place d }
    ensures value { IsPlace k (over 1 wholes.now) place → result.0 ≡ number_on wholes.now k }
    ensures small { magnitude result.0 < 2 ^ 42 }
    ensures past { IsPlace k (over 1 wholes.now) place → IsPlace (suc k) (over 1 wholes.now) result.1 }
{
    if head.0 == k {
        (head.1, place + 1)
    } else {
        (0, place)
    }
}

/// The lesser of two variables.
#[inline(always)]
fn least(first: u32, second: u32) -> u32
    ensures first { result ≤ first }
    ensures second { result ≤ second }
    ensures greatest { (from : ℕ) → from ≤ first → from ≤ second → from ≤ result }
{
    if first < second { first } else { second }
}

/// The next variable on which one of two lists has a number, or the number of variables where there is none; the
/// numbers on it, and the places where the lists go on behind it.
#[derive(Clone, Copy)]
pub(crate) struct Step {
    pub(crate) k: u32,
    pub(crate) n: i64,
    pub(crate) y: i64,
    pub(crate) here: usize,
    pub(crate) there: usize,
}

/// The next step through two lists, by the places where they go on; `len` is the number of variables.
#[inline(always)]
pub(crate) fn next_step(
    row: &[(u32, i64)],
    here: usize,
    new: &[(u32, i64)],
    there: usize,
    len: u32,
) -> Step
    requires row_kept { AreKept 0 len (over 1 row.now) }
    requires row_small { AreBelow (2 ^ 42) row.now }
    requires new_kept { AreKept 0 len (over 1 new.now) }
    requires new_small { AreBelow (2 ^ 42) new.now }
    ensures within { result.k ≤ len }
    ensures next { (from : ℕ) → from ≤ len → IsPlace from (over 1 row.now) here → IsPlace from (over 1 new.now) there
        → IsNext (over 1 row.now) (over 1 new.now) here there from result.k }
    ensures row_value { result.k < len → IsPlace result.k (over 1 row.now) here
        → result.n ≡ number_on row.now result.k }
    ensures new_value { result.k < len → IsPlace result.k (over 1 new.now) there
        → result.y ≡ number_on new.now result.k }
    ensures row_small { magnitude result.n < 2 ^ 42 }
    ensures new_small { magnitude result.y < 2 ^ 42 }
    ensures row_past { result.k < len → IsPlace result.k (over 1 row.now) here
        → IsPlace (suc result.k) (over 1 row.now) result.here }
    ensures new_past { result.k < len → IsPlace result.k (over 1 new.now) there
        → IsPlace (suc result.k) (over 1 new.now) result.there }
{
    let first = head_at(row, here, len);
    let second = head_at(new, there, len);
    let k = least(first.0, second.0);
    if k >= len {
        return Step {
            k,
            n: 0,
            y: 0,
            here,
            there,
        };
    }
    let (n, after) = take_number(row, here, first, k);
    let (y, beyond) = take_number(new, there, second, k);
    Step {
        k,
        n,
        y,
        here: after,
        there: beyond,
    }
}

/// Spells whole numbers over one denominator as fractions. `Err` where memory was refused.
pub(crate) fn spell_wholes(
    wholes: &[(u32, i64)],
    below: u64,
    out: &mut Vec<(u32, Frac)>,
) -> Result<(), AllocError>
    requires { IsWhole below wholes.now }
    ensures { OnOk result (out.new.items ≡ over below wholes.now) }
{
    out.clear();
    for at in 0..wholes.len() {
        out.push((wholes[at].0, fraction(wholes[at].1, below)))?;
    }
    Ok(())
}
