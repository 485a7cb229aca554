//! Sums of whole numbers that fit 64 bits: written at once, and divided where they stand.
ghost use Rattle.std.specs.Prelude.{◌≡◌, ℕ, ◌^◌, ◌*◌, ◌<◌, ◌≤◌, true, length, IfOk, IfSome};
ghost use Rattle.cip_rational.specs.Range.{magnitude};
ghost use Rattle.cip_dict.specs.Pivots.{put_by};
ghost use Rattle.cip_dict.specs.SparseLines.{AreKept};
ghost use Rattle.cip_dict.specs.WholeLines.{over, AreBelow, wholes_of};
ghost use Rattle.cip_dict.specs.declared.near_sums.Put.TheVariants.{Written};

use crate::pivots::Pivot;
use crate::whole::next_step;
use crate::whole_sums::{Factors, SMALL, short_common, short_part, small_part, substituted_number};
use crate::whole_turns::keep_number;
use std::alloc::AllocError;

/// What a row's denominator and the numbers so far tell: a divisor that they may have in common, and a number that none
/// of them is above.
#[derive(Clone, Copy)]
pub(crate) struct Near {
    pub(crate) g: u64,
    pub(crate) most: u64,
}

/// What has come of a row: it is written, over this denominator; or a number isn't below 2^42, nor can be made so; or a
/// number doesn't fit 64 bits, as long as nothing is divided.
#[derive(Clone, Copy)]
pub(crate) enum Put {
    Written(u64),
    Large,
    Far,
}

/// What is told with one number more.
#[inline(always)]
fn with_number(near: Near, z: i64) -> Near
    requires positive { 0 < near.g }
    ensures positive { 0 < result.g }
    ensures before { near.most ≤ result.most }
    ensures this { magnitude z ≤ result.most }
{
    let size = z.unsigned_abs();
    let g = if near.g == 1 {
        1
    } else {
        short_common(near.g, size)
    };
    let most = near.most | size;
    Near { g, most }
}

/// Keeps the numbers of a row after that of the variable that enters, whose numbers are `new`, has been put in its
/// place, and tells of them and the denominator `under`. None where a number doesn't fit 64 bits.
fn sum_near(
    pivot: &Pivot,
    factors: Factors,
    row: &[(u32, i64)],
    new: &[(u32, i64)],
    under: u64,
    out: &mut Vec<(u32, i64)>,
) -> Result<Option<Near>, AllocError>
    requires few { length pivot.now.standing.now < 2 ^ 32 }
    requires factor_small { factors.own < 2 ^ 42 }
    requires own_small { magnitude factors.new < 2 ^ 42 }
    requires row_kept { AreKept 0 (length pivot.now.standing.now) (over 1 row.now) }
    requires row_small { AreBelow (2 ^ 42) row.now }
    requires new_kept { AreKept 0 (length pivot.now.standing.now) (over 1 new.now) }
    requires new_small { AreBelow (2 ^ 42) new.now }
    requires positive { 0 < under }
    ensures told { let n = length pivot.now.standing.now in
        IfOk result (λ found. IfSome found (λ near. (0 < near.g)
        × (near.most < 2 ^ 42 → (under < 2 ^ 42) × AreBelow (2 ^ 42) out.new.items)
        × (out.new.items ≡ wholes_of n (put_by pivot.now factors row.now new.now)))) }
    ensures near { AreBelow (2 ^ 63) out.new.items }
{
    out.clear();
    let len = pivot.standing.len() as u32;
    let mut near = Near {
        g: under,
        most: under,
    };
    let mut step = next_step(row, 0, new, 0, len);
    while step.k < len {
        let z = substituted_number(pivot, factors, step.n, step.y, step.k);
        if z <= i64::MIN as i128 || z > i64::MAX as i128 {
            return Ok(None);
        }
        keep_number(out, step.k, z as i64)?;
        near = with_number(near, z as i64);
        step = next_step(row, step.here, new, step.there, len);
    }
    Ok(Some(near))
}

/// Divides all numbers by g, where they stand; answers whether that leaves whole numbers below 2^42.
fn divide_near(numbers: &mut [(u32, i64)], g: u64) -> bool
    requires positive { 0 < g }
    requires near { AreBelow (2 ^ 63) numbers.old }
    ensures divided { result ≡ true → (d : ℕ) → 0 < d → over d numbers.new ≡ over (d * g) numbers.old }
    ensures small { result ≡ true → AreBelow (2 ^ 42) numbers.new }
{
    for at in 0..numbers.len() {
        match small_part(i128::from(numbers[at].1), u128::from(g)) {
            Some(number) => numbers[at].1 = number,
            None => return false,
        }
    }
    true
}

/// Writes the numbers of a row over `under` after that of the variable that enters, `new`, has been put in its place,
/// without what they have in common.
pub(crate) fn put_near(
    pivot: &Pivot,
    factors: Factors,
    row: &[(u32, i64)],
    new: &[(u32, i64)],
    under: u64,
    out: &mut Vec<(u32, i64)>,
) -> Result<Put, AllocError>
    requires few { length pivot.now.standing.now < 2 ^ 32 }
    requires factor_small { factors.own < 2 ^ 42 }
    requires own_small { magnitude factors.new < 2 ^ 42 }
    requires row_kept { AreKept 0 (length pivot.now.standing.now) (over 1 row.now) }
    requires row_small { AreBelow (2 ^ 42) row.now }
    requires new_kept { AreKept 0 (length pivot.now.standing.now) (over 1 new.now) }
    requires new_small { AreBelow (2 ^ 42) new.now }
    requires positive { 0 < under }
    ensures { let n = length pivot.now.standing.now in
        IfOk result (λ put. (below : ℕ) → put ≡ Written below
        → (0 < below) × (below < 2 ^ 42) × AreBelow (2 ^ 42) out.new.items
        × (over below out.new.items ≡ over under (wholes_of n (put_by pivot.now factors row.now new.now)))) }
{
    let near = match sum_near(pivot, factors, row, new, under, out) {
        Ok(Some(near)) => near,
        Ok(None) => return Ok(Put::Far),
        Err(error) => return Err(error),
    };
    if near.g == 1 {
        return Ok(if near.most < SMALL {
            Put::Written(under)
        } else {
            Put::Large
        });
    }
    match short_part(under, near.g) {
        Some(below) => Ok(if below < SMALL && divide_near(out, near.g) {
            Put::Written(below)
        } else {
            Put::Large
        }),
        None => Ok(Put::Large),
    }
}
