//! Sums of whole numbers over one denominator.
ghost use Rattle.std.specs.Prelude.{◌≡◌, ℕ, pos, ◌+◌, ◌*◌, ◌^◌, ◌<◌, ◌==◌, ◌++◌, ◌+ℤ◌, ◌*ℤ◌, true, false, length, IfSome, OnOk, IfOk, if◌then◌else◌};
ghost use Rattle.cip_rational.specs.Range.{magnitude};
ghost use Rattle.cip_dict.specs.Lists.{basic_in};
ghost use Rattle.cip_dict.specs.Pivots.{absent_by, put_by};
ghost use Rattle.cip_dict.specs.SparseLines.{AreKept};
ghost use Rattle.cip_dict.specs.WholeLines.{over, AreBelow, IsWhole, IsPut, whole_at, wholes_of};

use crate::lines::is_absent_on;
use crate::near_sums::{Put, put_near};
use crate::pivots::Pivot;
use crate::whole::{Wholes, next_step, number_of};
use cip_frac::short_gcd;
use std::alloc::AllocError;

/// What numbers of a line of whole numbers, and its denominator, are below.
pub(crate) const SMALL: u64 = 1 << 42;

/// a * c
#[inline(always)]
pub(crate) fn product_of(a: i64, c: i64) -> i128
    requires first { magnitude a < 2 ^ 42 }
    requires second { magnitude c < 2 ^ 42 }
    ensures value { result ≡ a *ℤ c }
    ensures small { magnitude result < 2 ^ 84 }
{
    a as i128 * c as i128
}

/// By what the numbers of a row are multiplied as that of the variable that enters is put in its place, and by what the
/// numbers of that.
#[derive(Clone, Copy)]
pub(crate) struct Factors {
    pub(crate) own: u64,
    pub(crate) new: i64,
}

/// The number on variable k of a row after that of the variable that enters has been put in its place: n and y stand on
/// k in the two, n isn't counted on the one that leaves, and 0 stands where there is no entry.
#[inline(always)]
pub(crate) fn substituted_number(pivot: &Pivot, factors: Factors, n: i64, y: i64, k: u32) -> i128
    requires within { k < length pivot.now.standing.now }
    requires factor_small { factors.own < 2 ^ 42 }
    requires own_small { magnitude factors.new < 2 ^ 42 }
    requires row_small { magnitude n < 2 ^ 42 }
    requires new_small { magnitude y < 2 ^ 42 }
    ensures value { result ≡ (if k == pivot.now.leaving then factors.new *ℤ y
        else (if absent_by pivot.now k then pos 0 else n *ℤ pos factors.own +ℤ factors.new *ℤ y)) }
    ensures small { magnitude result < 2 ^ 86 }
{
    if k == pivot.leaving {
        product_of(factors.new, y)
    } else if is_absent_on(pivot, k) {
        0
    } else {
        product_of(n, factors.own as i64) + product_of(factors.new, y)
    }
}

/// Keeps a number at the end, unless it is 0.
#[inline(always)]
fn keep_sum(sums: &mut Vec<(u32, i128)>, k: u32, z: i128) -> Result<(), AllocError>
    ensures kept { OnOk result (sums.new.items ≡ sums.old.items ++ whole_at k z) }
    ensures below { (bound : ℕ) → magnitude z < bound → AreBelow bound sums.old.items → AreBelow bound sums.new.items }
{
    if z != 0 {
        sums.push((k, z))?;
    }
    Ok(())
}

/// Keeps the numbers of a row after that of the variable that enters, whose numbers are `new`, has been put in its
/// place.
fn sum_entries(
    pivot: &Pivot,
    factors: Factors,
    row: &[(u32, i64)],
    new: &[(u32, i64)],
    sums: &mut Vec<(u32, i128)>,
) -> Result<(), AllocError>
    requires few { length pivot.now.standing.now < 2 ^ 32 }
    requires factor_small { factors.own < 2 ^ 42 }
    requires own_small { magnitude factors.new < 2 ^ 42 }
    requires row_kept { AreKept 0 (length pivot.now.standing.now) (over 1 row.now) }
    requires row_small { AreBelow (2 ^ 42) row.now }
    requires new_kept { AreKept 0 (length pivot.now.standing.now) (over 1 new.now) }
    requires new_small { AreBelow (2 ^ 42) new.now }
    ensures kept { OnOk result (sums.new.items
        ≡ wholes_of (length pivot.now.standing.now) (put_by pivot.now factors row.now new.now)) }
    ensures wide { AreBelow (2 ^ 86) sums.new.items }
{
    sums.clear();
    let len = pivot.standing.len() as u32;
    let mut step = next_step(row, 0, new, 0, len);
    while step.k < len {
        let z = substituted_number(pivot, factors, step.n, step.y, step.k);
        keep_sum(sums, step.k, z)?;
        step = next_step(row, step.here, new, step.there, len);
    }
    Ok(())
}

/// The number part for which size = part * g, where there is one.
#[inline(always)]
pub(crate) fn short_part(size: u64, g: u64) -> Option<u64>
    requires { 0 < g }
    ensures { IfSome result (λ part. size ≡ part * g) }
{
    let part = size / g;
    if part * g == size { Some(part) } else { None }
}

/// The same of longer numbers, divided in 64 bits where they fit.
#[inline(always)]
fn part_of(size: u128, g: u128) -> Option<u128>
    requires { 0 < g }
    ensures { IfSome result (λ part. size ≡ part * g) }
{
    if g == 1 {
        return Some(size);
    }
    if size <= u64::MAX as u128 && g <= u64::MAX as u128 {
        return match short_part(size as u64, g as u64) {
            Some(part) => Some(u128::from(part)),
            None => None,
        };
    }
    if size % g == 0 { Some(size / g) } else { None }
}

/// The whole number w for which z = w * g, where there is one below 2^42.
#[inline(always)]
pub(crate) fn small_part(z: i128, g: u128) -> Option<i64>
    requires { 0 < g }
    ensures { IfSome result (λ w. (z ≡ w *ℤ pos g) × (magnitude w < 2 ^ 42)) }
{
    let Some(part) = part_of(z.unsigned_abs(), g) else {
        return None;
    };
    if part >= SMALL as u128 {
        return None;
    }
    let number = part as i64;
    if z < 0 { Some(-number) } else { Some(number) }
}

/// The greatest common divisor of two numbers: most often the first.
#[inline]
pub(crate) fn short_common(a: u64, b: u64) -> u64
    requires { 0 < a }
    ensures { 0 < result }
{
    let rest = b % a;
    if rest == 0 { a } else { short_gcd(rest, a) }
}

/// The greatest common divisor of two longer numbers.
fn long_common(a: u128, b: u128) -> u128
    requires { 0 < a }
    ensures { 0 < result }
{
    let mut x = a;
    let mut y = b;
    while y != 0 {
        let rest = x % y;
        x = y;
        y = rest;
    }
    x
}

/// What g and a whole number have in common.
#[inline(always)]
fn common_with(g: u128, z: i128) -> u128
    requires { 0 < g }
    ensures { 0 < result }
{
    let size = z.unsigned_abs();
    if size <= u64::MAX as u128 && g <= u64::MAX as u128 {
        return u128::from(short_common(g as u64, size as u64));
    }
    let rest = size % g;
    if g <= u64::MAX as u128 {
        u128::from(short_common(g as u64, rest as u64))
    } else {
        long_common(g, rest)
    }
}

/// What a number and all numbers of a list have in common.
fn common_of(sums: &[(u32, i128)], start: u128) -> u128
    requires { 0 < start }
    ensures { 0 < result }
{
    let mut g = start;
    for sum in sums {
        if g == 1 {
            return 1;
        }
        g = common_with(g, sum.1);
    }
    g
}

/// Divides all numbers by g; answers whether that leaves whole numbers below 2^42.
fn divide_all(sums: &[(u32, i128)], g: u128, out: &mut Vec<(u32, i64)>) -> Result<bool, AllocError>
    requires positive { 0 < g }
    requires wide { AreBelow (2 ^ 86) sums.now }
    ensures divided { IfOk result (λ all. all ≡ true → (d : ℕ) → 0 < d → over d out.new.items ≡ over (d * g) sums.now) }
    ensures small { AreBelow (2 ^ 42) out.new.items }
{
    out.clear();
    for at in 0..sums.len() {
        match small_part(sums[at].1, g) {
            Some(number) => out.push((sums[at].0, number))?,
            None => return Ok(false),
        }
    }
    Ok(true)
}

/// The factors for a row with the number `own` on the variable that enters, whose row has the denominator `below`:
/// without a divisor that they have in common.
fn split(own: i64, below: u64) -> Factors
    requires own_small { magnitude own < 2 ^ 42 }
    requires positive { 0 < below }
    requires below_small { below < 2 ^ 42 }
    ensures parts { (g : ℕ) × (0 < g) × (own ≡ result.new *ℤ pos g) × (below ≡ g * result.own) }
    ensures own_small { magnitude result.new < 2 ^ 42 }
    ensures positive { 0 < result.own }
    ensures below_small { result.own < 2 ^ 42 }
{
    let whole = Factors {
        own: below,
        new: own,
    };
    let g = short_common(below, own.unsigned_abs());
    if below % g != 0 {
        return whole;
    }
    match small_part(i128::from(own), u128::from(g)) {
        Some(new) => Factors {
            own: below / g,
            new,
        },
        None => whole,
    }
}

/// Divides numbers and their denominator by what they have in common; answers the denominator then, where all are
/// below 2^42.
fn reduce(
    sums: &[(u32, i128)],
    under: u128,
    out: &mut Vec<(u32, i64)>,
) -> Result<Option<u64>, AllocError>
    requires positive { 0 < under }
    requires wide { AreBelow (2 ^ 86) sums.now }
    ensures { IfOk result (λ found. IfSome found (λ below. (0 < below) × (below < 2 ^ 42)
        × AreBelow (2 ^ 42) out.new.items × (over below out.new.items ≡ over under sums.now))) }
{
    let g = common_of(sums, under);
    let Some(below) = part_of(under, g) else {
        return Ok(None);
    };
    if below >= u128::from(SMALL) {
        return Ok(None);
    }
    if divide_all(sums, g, out)? {
        Ok(Some(below as u64))
    } else {
        Ok(None)
    }
}

/// Writes the numbers of a row after that of the variable that enters, `new`, has been put in its place. Answers the
/// denominator then, where all are below 2^42.
pub(crate) fn put_whole(
    pivot: &Pivot,
    row: &Wholes,
    new: &Wholes,
    sums: &mut Vec<(u32, i128)>,
    out: &mut Vec<(u32, i64)>,
) -> Result<Option<u64>, AllocError>
    requires few { length pivot.now.standing.now < 2 ^ 32 }
    requires row_kept { AreKept 0 (length pivot.now.standing.now) (over 1 row.now.numbers.now) }
    requires row_whole { IsWhole row.now.below row.now.numbers.now }
    requires new_kept { AreKept 0 (length pivot.now.standing.now) (over 1 new.now.numbers.now) }
    requires new_whole { IsWhole new.now.below new.now.numbers.now }
    ensures { let p = pivot.now in
        IfOk result (λ found. IfSome found (λ below. IsWhole below out.new.items
        × IsPut (length p.standing.now) (basic_in p.standing.now) p.leaving p.entering row.now.below row.now.numbers.now
        new.now.below new.now.numbers.now below out.new.items)) }
{
    let factors = split(number_of(row.numbers, pivot.entering), new.below);
    let under = u128::from(row.below) * u128::from(factors.own);
    if under <= u64::MAX as u128 {
        match put_near(pivot, factors, row.numbers, new.numbers, under as u64, out)? {
            Put::Written(below) => return Ok(Some(below)),
            Put::Large => return Ok(None),
            Put::Far => (),
        }
    }
    sum_entries(pivot, factors, row.numbers, new.numbers, sums)?;
    reduce(sums.as_slice(), under, out)
}
