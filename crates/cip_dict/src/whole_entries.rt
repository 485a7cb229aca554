//! Entries that are put into a line of whole numbers, and the value of such a line.
ghost use Rattle.std.specs.Prelude.{◌≡◌, ℕ, ◌+◌, ◌^◌, ◌<◌, ◌≤◌, ◌==◌, true, false, length, Some, None, IfSome, IfOk, MatchResult, if◌then◌else◌};
ghost use Rattle.cip_rational.specs.Rational.{◌+ℚ◌, ◌*ℚ◌, ratio};
ghost use Rattle.cip_rational.specs.Range.{magnitude};
ghost use Rattle.cip_problem.specs.Activity.{value_at};
ghost use Rattle.cip_bland.specs.Tables.{form};
ghost use Rattle.cip_bland.specs.FirstState.{form_operations};
ghost use Rattle.cip_bland.specs.Operations.{first_overflow, value_place, sum_at};
ghost use Rattle.cip_dict.specs.SparseLines.{entry_on, AreKept};
ghost use Rattle.cip_dict.specs.WholeLines.{over, IsWhole};

use crate::entries::{sum, vanishes};
use crate::fault::OutOfRange;
use crate::lines::number_at;
use crate::listed::{is_past, is_within};
use crate::values::value_of;
use crate::whole::fraction;
use crate::whole_sums::SMALL;
use cip_bland::Line;
use cip_frac::Frac;
use std::alloc::AllocError;

/// The number that an entry is, where it is whole and below 2^42.
#[inline(always)]
fn small_whole(entry: Frac) -> Option<i64>
    ensures { IfSome result (λ n. (ratio n 1 ≡ entry) × (magnitude n < 2 ^ 42)) }
{
    let n = entry.numerator();
    if entry.denominator() != 1 || n.unsigned_abs() >= u128::from(SMALL) {
        return None;
    }
    Some(n as i64)
}

/// Puts an entry at the end of a line of whole numbers, where those are over 1, all on variables below k, and the entry
/// is such a number too; answers whether it did. `Err` where memory was refused.
#[inline(always)]
pub(crate) fn put_behind(
    wholes: &mut Vec<(u32, i64)>,
    below: u64,
    k: u32,
    entry: Frac,
) -> Result<bool, AllocError>
    requires kept { (n : ℕ) × AreKept 0 n (over below wholes.old.items) }
    requires whole { IsWhole below wholes.old.items }
    ensures put { IfOk result (λ done. done ≡ true → (v : ℕ) → entry_on (over below wholes.new.items) v
        ≡ (if v == k then entry else entry_on (over below wholes.old.items) v)) }
    ensures same { IfOk result (λ done. done ≡ false → wholes.new.items ≡ wholes.old.items) }
    ensures kept { (n : ℕ) → k < n → AreKept 0 n (over below wholes.old.items)
        → AreKept 0 n (over below wholes.new.items) }
    ensures whole { IsWhole below wholes.new.items }
{
    if below != 1 || !is_past(wholes.as_slice(), k) {
        return Ok(false);
    }
    let Some(number) = small_whole(entry) else {
        return Ok(false);
    };
    if number != 0 {
        wholes.push((k, number))?;
    }
    Ok(true)
}

/// A sum with the product of an entry, as a number over a denominator, and the value of its variable.
#[inline(always)]
#[tactic(auto, using(crate::proofs::Formed::entry_laws))]
fn whole_step(
    line: Line,
    total: Frac,
    k: u32,
    number: i64,
    below: u64,
    values: &[Frac],
) -> Result<Frac, OutOfRange>
    requires there { k < length values.now }
    requires positive { 0 < below }
    requires small { below < 2 ^ 42 }
    ensures { let operations = sum_at (value_place line) total (ratio number below) (value_at values.now k) in
        MatchResult result
        (λ v. (first_overflow operations ≡ None) × (v ≡ total +ℚ ratio number below *ℚ value_at values.now k))
        (λ fault. first_overflow operations ≡ Some fault.place) }
{
    let value = number_at(values, k as usize);
    if vanishes(value) {
        return Ok(total);
    }
    sum(value_of(line), total, fraction(number, below), value)
}

/// The value of a line of whole numbers on the first n variables: the products added one after another.
pub(crate) fn wholes_value(
    line: Line,
    n: usize,
    wholes: &[(u32, i64)],
    below: u64,
    values: &[Frac],
) -> Result<Frac, OutOfRange>
    requires kept { (len : ℕ) × AreKept 0 len (over below wholes.now) }
    requires whole { IsWhole below wholes.now }
    requires values_long { n ≤ length values.now }
    ensures { let operations = form_operations line n (entry_on (over below wholes.now)) (value_at values.now) in
        MatchResult result
        (λ v. (first_overflow operations ≡ None)
        × (v ≡ form n (entry_on (over below wholes.now)) (value_at values.now)))
        (λ fault. first_overflow operations ≡ Some fault.place) }
{
    let mut total = Frac::zero();
    let mut place = 0;
    'places: while is_within(wholes, place, n) {
        let (k, number) = wholes[place];
        match whole_step(line, total, k, number, below, values) {
            Ok(value) => total = value,
            Err(fault) => return Err(fault),
        }
        place += 1;
    }
    Ok(total)
}
