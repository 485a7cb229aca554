//! Rows of whole numbers that are turned round.
ghost use Rattle.std.specs.Prelude.{◌≡◌, ℕ, pos, neg_ℤ, ◌^◌, ◌<◌, ◌==◌, ◌++◌, ◌∷◌, [], length, OnOk, if◌then◌else◌};
ghost use Rattle.cip_rational.specs.Range.{magnitude};
ghost use Rattle.cip_dict.specs.Pivots.{absent_by, turned_by};
ghost use Rattle.cip_dict.specs.SparseLines.{AreKept};
ghost use Rattle.cip_dict.specs.WholeLines.{over, AreBelow, whole_at, wholes_of};

use crate::lines::is_absent_on;
use crate::pivots::Pivot;
use crate::whole::next_step;
use std::alloc::AllocError;

/// The number on variable k of the row that leaves, turned round: d on the variable that leaves, 0 where no entry
/// stands, and else n, negated where the number on the variable that enters is positive.
#[inline(always)]
fn turned_number(pivot: &Pivot, positive: bool, d: i64, n: i64, k: u32) -> i64
    requires within { k < length pivot.now.standing.now }
    requires own_small { magnitude d < 2 ^ 42 }
    requires row_small { magnitude n < 2 ^ 42 }
    ensures value { result ≡ (if k == pivot.now.leaving then d
        else (if absent_by pivot.now k then pos 0 else (if positive then neg_ℤ n else n))) }
    ensures small { magnitude result < 2 ^ 42 }
{
    if k == pivot.leaving {
        d
    } else if is_absent_on(pivot, k) {
        0
    } else if positive {
        -n
    } else {
        n
    }
}

/// Keeps a number at the end, unless it is 0.
#[inline(always)]
pub(crate) fn keep_number(numbers: &mut Vec<(u32, i64)>, k: u32, z: i64) -> Result<(), AllocError>
    ensures kept { OnOk result (numbers.new.items ≡ numbers.old.items ++ whole_at k z) }
    ensures below { (bound : ℕ) → magnitude z < bound → AreBelow bound numbers.old.items
        → AreBelow bound numbers.new.items }
{
    if z != 0 {
        numbers.push((k, z))?;
    }
    Ok(())
}

/// Keeps the numbers of the row that leaves turned round: d is its denominator, with the sign of its number on the
/// variable that enters, and `leaving` has it on the variable that leaves alone.
pub(crate) fn turn_entries(
    pivot: &Pivot,
    positive: bool,
    d: i64,
    row: &[(u32, i64)],
    leaving: &[(u32, i64)],
    out: &mut Vec<(u32, i64)>,
) -> Result<(), AllocError>
    requires few { length pivot.now.standing.now < 2 ^ 32 }
    requires own_small { magnitude d < 2 ^ 42 }
    requires row_kept { AreKept 0 (length pivot.now.standing.now) (over 1 row.now) }
    requires row_small { AreBelow (2 ^ 42) row.now }
    requires leaves { leaving.now ≡ (pivot.now.leaving, d) ∷ [] }
    requires leaving_kept { AreKept 0 (length pivot.now.standing.now) (over 1 leaving.now) }
    ensures kept { OnOk result (out.new.items
        ≡ wholes_of (length pivot.now.standing.now) (turned_by pivot.now positive d row.now)) }
    ensures small { AreBelow (2 ^ 42) out.new.items }
{
    out.clear();
    let len = pivot.standing.len() as u32;
    let mut step = next_step(row, 0, leaving, 0, len);
    while step.k < len {
        let z = turned_number(pivot, positive, d, step.n, step.k);
        keep_number(out, step.k, z)?;
        step = next_step(row, step.here, leaving, step.there, len);
    }
    Ok(())
}
