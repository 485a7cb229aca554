//! Lines of fractions that are kept as whole numbers over one denominator from then on.
ghost use Rattle.std.specs.Prelude.{◌≡◌, ℕ, pos, ◌*◌, ◌^◌, ◌<◌, ◌*ℤ◌, true, IfSome, IfOk};
ghost use Rattle.cip_rational.specs.Rational.{ratio, numerator, denominator};
ghost use Rattle.cip_rational.specs.Range.{magnitude};
ghost use Rattle.cip_dict.specs.WholeLines.{over, AreBelow};

use crate::lists::Lists;
use crate::whole_sums::{SMALL, product_of, short_common};
use cip_frac::Frac;
use std::alloc::AllocError;

/// A common multiple of a denominator and that of a fraction, or the first alone where there is none below 2^42.
fn with_denominator(below: u64, entry: Frac) -> u64
    requires positive { 0 < below }
    requires small { below < 2 ^ 42 }
    ensures positive { 0 < result }
    ensures small { result < 2 ^ 42 }
{
    let Some((_, d)) = small_terms(entry) else {
        return below;
    };
    if d <= 1 || d == below {
        return below;
    }
    let common = short_common(below, d);
    let multiple = u128::from(below / common) * u128::from(d);
    if multiple == 0 || multiple >= u128::from(SMALL) {
        below
    } else {
        multiple as u64
    }
}

/// Numerator and denominator of a fraction, where both are below 2^42.
fn small_terms(entry: Frac) -> Option<(i64, u64)>
    ensures { IfSome result (λ terms. (terms.0 ≡ numerator entry) × (terms.1 ≡ denominator entry)
        × (magnitude terms.0 < 2 ^ 42) × (terms.1 < 2 ^ 42)) }
{
    let n = entry.numerator();
    let d = entry.denominator();
    if n.unsigned_abs() >= u128::from(SMALL) || d.unsigned_abs() >= u128::from(SMALL) {
        return None;
    }
    Some((n as i64, d.unsigned_abs() as u64))
}

/// A common denominator of entries, where there is one below 2^42.
pub(crate) fn common_below(entries: &[(u32, Frac)]) -> u64
    ensures positive { 0 < result }
    ensures small { result < 2 ^ 42 }
{
    let mut below = 1;
    for at in 0..entries.len() {
        below = with_denominator(below, entries[at].1);
    }
    below
}

/// n over d as a whole number over another denominator, where there is one below 2^42.
fn number_over(n: i64, d: u64, below: u64) -> Option<i64>
    requires number_small { magnitude n < 2 ^ 42 }
    requires under_positive { 0 < d }
    requires positive { 0 < below }
    requires small { below < 2 ^ 42 }
    ensures { IfSome result (λ z. (f : ℕ) × (0 < f) × (below ≡ d * f) × (z ≡ n *ℤ pos f) × (magnitude z < 2 ^ 42)) }
{
    if d == below {
        return Some(n);
    }
    if below % d != 0 {
        return None;
    }
    let z = product_of(n, (below / d) as i64);
    if z.unsigned_abs() >= u128::from(SMALL) {
        return None;
    }
    Some(z as i64)
}

/// The whole number that stands for a fraction over a denominator, where there is one below 2^42.
fn whole_of(entry: Frac, below: u64) -> Option<i64>
    requires positive { 0 < below }
    requires small { below < 2 ^ 42 }
    ensures { IfSome result (λ n. (ratio n below ≡ entry) × (magnitude n < 2 ^ 42)) }
{
    match small_terms(entry) {
        Some((n, d)) => number_over(n, d, below),
        None => None,
    }
}

/// Keeps entries as whole numbers over a denominator; answers whether that can be.
pub(crate) fn settle_entries(
    entries: &[(u32, Frac)],
    below: u64,
    out: &mut Vec<(u32, i64)>,
) -> Result<bool, AllocError>
    requires positive { 0 < below }
    requires small { below < 2 ^ 42 }
    ensures { IfOk result (λ all. all ≡ true
        → AreBelow (2 ^ 42) out.new.items × (over below out.new.items ≡ entries.now)) }
{
    out.clear();
    for at in 0..entries.len() {
        let entry = entries[at];
        match whole_of(entry.1, below) {
            Some(number) => out.push((entry.0, number))?,
            None => return Ok(false),
        }
    }
    Ok(true)
}

/// Keeps the lines of these lists as whole numbers from now on, where they can be. `Err` where memory was refused.
pub(crate) fn settle_lists(lists: &mut Lists) -> Result<(), AllocError>
    ensures rows { lists.new.rows.items ≡ lists.old.rows.items }
    ensures costs { lists.new.costs ≡ lists.old.costs }
    ensures values { lists.new.values.items ≡ lists.old.values.items }
    ensures cost { lists.new.cost ≡ lists.old.cost }
{
    let rows = lists.rows.as_mut_slice();
    for v in 0..rows.len() {
        rows[v].settle()?;
    }
    lists.costs.settle()
}
